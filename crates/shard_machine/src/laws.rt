//! Laws of the definitions that the contracts of this crate cite. Each function does nothing: what it
//! ensures holds of all logs.
ghost use Rattle.shard_machine.specs.ImageLaws.{ImageGrows, ImagesTell, NamesRise, NamesStand, ImagesTellLegal, LegalFit};
ghost use Rattle.shard_machine.specs.StepLaws.{StepsLead, StepsFollowLogs};

/// The image of a log answers what is asked of it, and after one record more it is a function of what
/// it was. So whoever holds the image needs no record again.
pub fn images_of_logs()
    ensures grows { ImageGrows }
    ensures tell { ImagesTell }
{}

/// An image has its names in byte order, each once, and tells which of them have a stream that stands.
pub fn names_of_images()
    ensures rise { NamesRise }
    ensures stand { NamesStand }
{}

/// Which record may follow a log is to be read off its image. In a legal log the entries of a stream
/// that stands fit one another, so that its facts tell all that is asked of it.
pub fn legality_by_images()
    ensures follow { ImagesTellLegal }
    ensures fit { LegalFit }
{}

/// A step of a shard adds its records to whatever log the shard stands for: the image that it holds
/// afterwards is that of the log with the records.
pub fn steps_of_logs()
    ensures lead { StepsLead }
    ensures follow { StepsFollowLogs }
{}
