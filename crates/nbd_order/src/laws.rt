//! Laws over the definitions: each is the contract of a function that does nothing.

ghost use Rattle.nbd_order.specs.{Chains.{ChainsAreOneHistory, ExplainedFromLess, LeavesLess, SureIsLeft, SureOfLessIsLeft}, Finding.FoundIsSo, Splits.{SplitsAreExplained, SplitsLeaveTheSame}, Unexplained.RefutedIsUnexplained};

use nbd_laws::laws::{explained_exactly, reports_are_sound};

/// Where the report of a session of a profile is refuted by some of its READs, no order explains the session in that
/// profile, in parts or whole.
pub fn refuted_is_unexplained()
    ensures { RefutedIsUnexplained }
{
    explained_exactly();
}

/// What is found of the report of a run of a profile is so of its bytes.
pub fn found_is_so()
    ensures { FoundIsSo }
{
    explained_exactly();
    refuted_is_unexplained();
}

/// From a start that knows less, what an order explains is explained by it too, and less is known of what it leaves.
pub fn less_explains_more()
    ensures explained { ExplainedFromLess }
    ensures left { LeavesLess }
{
    reports_are_sound();
    explained_exactly();
}

/// Sessions that are judged one after the other, each from what the one before left, are judged as one history: an order
/// explains a session from there exactly where it has no fault, and serves no byte that is another one than what the last
/// change left, of its own session or of one before. Behind each session stands a TRIM of each change that no reply has
/// finished.
pub fn chains_are_one_history()
    ensures { ChainsAreOneHistory }
{
    reports_are_sound();
    explained_exactly();
}

/// A session that is cut where every request has its whole reply, and no message is half-way, is judged as its two parts
/// are, of which the second stands behind another negotiation that leads to the same: an order explains the whole exactly
/// where it has the entries of the first part first, these explain the first part, and the others the second one from what
/// the first left. What is left is the same.
pub fn splits_are_explained()
    ensures explained { SplitsAreExplained }
    ensures left { SplitsLeaveTheSame }
{
    reports_are_sound();
    explained_exactly();
}

/// What is sure behind a session is left by each order that explains it; also where the start knew less. So, with
/// `less_explains_more`, a chain of sessions without orders says no only where no choice of orders explains each of them.
pub fn sure_is_left()
    ensures sure { SureIsLeft }
    ensures less { SureOfLessIsLeft }
{
    explained_exactly();
}
