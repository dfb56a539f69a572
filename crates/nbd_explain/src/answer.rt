//! The answer of `explain`.

ghost use Rattle.std.specs.Prelude.{◌≡◌};
ghost use Rattle.nbd_explain.specs.Answering.{IsAnswerTo, answer_to, status_of};

use nbd_files::RunFault;
use nbd_judge::Verdict;
use nbd_order::Found;
use nbd_tool::is_yes;

/// What a run of `explain` came to.
#[derive(Clone, Copy, Drop)]
pub enum Answer {
    /// The order that was given, or one that was found, explains the session.
    Yes,
    /// The order that was given does not explain it, or none does: what was written says why.
    No,
    /// No order was given, and the search for one was broken off.
    Open,
}

/// The exit status of an answer: 0 of a yes, 1 of a no, 5 where it is open, and that of a fault.
pub fn explain_status(answer: &Result<Answer, RunFault>) -> u8
    ensures { result ≡ status_of answer.now }
{
    match answer {
        Ok(Answer::Yes) => 0,
        Ok(Answer::No) => 1,
        Ok(Answer::Open) => 5,
        Err(fault) => fault.status(),
    }
}

/// Yes of a verdict that is one, no of the others.
pub fn verdict_answer(verdict: &Verdict) -> Answer
    ensures { IsAnswerTo verdict.now result }
{
    if is_yes(verdict) {
        Answer::Yes
    } else {
        Answer::No
    }
}

/// Yes where an order was found, no where there is none, and open where that is not proved.
pub fn found_answer(found: &Found) -> Answer
    ensures { result ≡ answer_to found.now }
{
    match found {
        Found::Order(_) => Answer::Yes,
        Found::Unexplained(_) | Found::Image { .. } => Answer::No,
        Found::NoneWhole | Found::GaveUp { .. } => Answer::Open,
    }
}
