//! Laws of the definitions that the contracts of this crate cite. Each function does nothing: what it
//! ensures holds of all configurations.
ghost use Rattle.config_json.specs.Laws.{ConfigsAreLines, ConfigsAreRead, ReadsArePassed, TextsAreRead};

/// The text of a configuration that a stream may have is the JSON that it was written from.
pub fn texts()
    ensures { TextsAreRead }
{}

/// Each configuration that a stream may have is read from its text.
pub fn configs()
    ensures { ConfigsAreRead }
{}

/// Each text that is read as a configuration gives one that a stream may have: `Config::check` takes it.
pub fn reads()
    ensures { ReadsArePassed }
{}

/// No line ends within the text of a configuration: neither CR nor LF stands in it.
pub fn lines()
    ensures { ConfigsAreLines }
{}
