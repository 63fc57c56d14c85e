ghost use Rattle.std.specs.Prelude.{◌≡◌};
ghost use Rattle.leafd_conf.specs.Profile.{is_address, ends_in_port, is_port};

use nats_text::number;

/// The greatest number of a port.
const LAST_PORT: u64 = 65_535;

/// Whether a text is one or more bytes, then a colon and a port.
pub(crate) fn is_address(text: &[u8]) -> bool
    ensures { result ≡ is_address text.now }
{
    if text.is_empty() {
        return false;
    }
    ends_in_port(&text[1..])
}

/// Whether a colon is followed by a port alone.
fn ends_in_port(text: &[u8]) -> bool
    ensures { result ≡ ends_in_port text.now }
{
    let mut rest = text;
    while let [byte, others @ ..] = rest {
        if *byte == b':' && is_port(others) {
            return true;
        }
        rest = others;
    }
    false
}

fn is_port(text: &[u8]) -> bool
    ensures { result ≡ is_port text.now }
{
    match number(text) {
        Some(port) => port <= LAST_PORT,
        None => false,
    }
}
