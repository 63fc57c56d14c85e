ghost use Rattle.std.specs.Prelude.{◌≡◌, IfOk};
ghost use Rattle.std.specs.Str.{IsUtf8};
ghost use Rattle.moments.specs.Moments.{moment_of, moment_text};

use jiff::Timestamp;
use jiff::fmt::temporal::DateTimePrinter;
use nats_text::{Bytes, NoMemory};
use std::alloc::Global;

/// The text of a moment, `YYYY-MM-DDTHH:MM:SS.nnnnnnnnnZ`: always in UTC and with nine places.
pub fn moment_text(alloc: Global, time: u64) -> Result<Bytes, NoMemory>
    ensures value { IfOk result (λ text. text ≡ moment_text time) }
    ensures utf8 { IfOk result (λ text. IsUtf8 text) }
{
    let Ok(moment) = Timestamp::from_nanosecond(i128::from(time)) else {
        unreachable!()
    };
    let printer = DateTimePrinter::new().precision(Some(9));
    let text = printer.timestamp_text(moment.to_plain());
    Bytes::from_slice(alloc, text.as_str().as_bytes())
}

/// The moment that a text is, if it is one from 1970 on and below 2^64 nanoseconds. The text has a
/// date, a time of day and an offset from UTC.
pub fn moment_of(text: &str) -> Option<u64>
    ensures { result ≡ moment_of text.now }
{
    let moment = text.parse::<Timestamp>().ok()?;
    u64::try_from(moment.as_nanosecond()).ok()
}
