//! Laws over the definitions of verdicts: each is the contract of a function that does nothing.

ghost use Rattle.nbd_judge.specs.{Conclusions.VerdictsAnswerRuns, Folding.Folding, Uniqueness.{VerdictsAgree, OneAnswer, OneJudgement, OneVerdict, OneWireFault}};

use nbd_laws::laws::{explained_exactly, latest_moments, same_reports};

/// If the entries before entry `i` are applied to the contents one after the other, the contents are then the export's
/// bytes at entry `i`, which are defined by looking backwards for each.
pub fn folding()
    ensures { Folding }
{}

/// A report, an order and bytes at first have one verdict at most.
pub fn one_judgement()
    ensures { OneJudgement }
{}

/// A report, an order and a start have one verdict at most: the cases exclude each other.
pub fn one_verdict()
    ensures { OneVerdict }
{}

/// In a profile a capture is refused in one way at most.
pub fn one_wire_fault()
    ensures { OneWireFault }
{}

/// In a profile a capture, an order and a start have one answer at most. So it makes no difference how a capture was
/// cut into records: two lists of records with the same bytes and senders get equal answers from `check_of` if both are
/// Ok.
pub fn one_answer()
    ensures { OneAnswer }
{}

/// The verdict on the report of a run of a profile says what holds of the run's bytes in this profile: Yes exactly
/// where the order explains them, with the counts that each run with these bytes has, and Order only where no run with
/// these bytes is served in this order.
pub fn verdicts_answer_runs()
    ensures { VerdictsAnswerRuns }
{
    explained_exactly();
    latest_moments();
    same_reports();
}

/// A capture has the same verdict in both profiles, except for how many requests of a yes a client should not have
/// sent, if four conditions hold: options on metadata contexts are answered by errors alone, so that not even the head of
/// another option reply completes; no block sizes are announced that a server may not announce; each error chunk is of type
/// ERROR or ERROR_OFFSET; and each READ is answered at once, with no request completing within its reply.
pub fn verdicts_agree()
    ensures { VerdictsAgree }
{}
