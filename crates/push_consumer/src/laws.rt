//! Laws of the definitions that the contracts of this crate cite. Each function does nothing: what it
//! ensures holds of all consumers and of all that they have sent.
ghost use Rattle.push_consumer.specs.Laws.{SendsWhatIsWanted, NewIsRight, PumpsKeep, AnswersKeep, BeatsKeep, PausesKeep, LongerKeep, OutstandingIsSent};

use stream_fold::laws::{kept_messages, longer_histories};

/// Where the numbers of the kept messages rise, a consumer has to send those from its next number on that
/// a filter wants.
pub fn wanted_messages()
    ensures { SendsWhatIsWanted }
{}

/// What a new consumer has sent, nothing, is right: it is what its progress stands for, skips holes of
/// the history alone, and is within the window. A pump, an answer, a beat and a pause leave it right.
pub fn right_chains()
    ensures new { NewIsRight }
    ensures pumps { PumpsKeep }
    ensures answers { AnswersKeep }
    ensures beats { BeatsKeep }
    ensures pauses { PausesKeep }
{
    kept_messages();
}

/// What is right for a history is right for every longer one.
pub fn longer_chains()
    ensures { LongerKeep }
{
    longer_histories();
}

/// What is outstanding are the bytes that were sent behind the last flow request that was answered.
pub fn outstanding_bytes()
    ensures { OutstandingIsSent }
{}
