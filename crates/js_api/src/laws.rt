//! What holds of requests and answers, whatever the code does: functions that do nothing, whose contracts
//! are laws.
ghost use Rattle.js_api.specs.Laws.{ReadsEachSubject, ReadsSubjectsAlone, AnswersAreLines, AcksAreLines, AckFaultsAreLines};

/// A subject is a request of the API exactly where it is that of one of the nine.
pub fn subjects()
    ensures each { ReadsEachSubject }
    ensures alone { ReadsSubjectsAlone }
{}

/// Each answer is one line of JSON, whose members stand in byte order; so is what a publish is answered.
pub fn lines()
    ensures answers { AnswersAreLines }
    ensures acks { AcksAreLines }
    ensures faults { AckFaultsAreLines }
{}
