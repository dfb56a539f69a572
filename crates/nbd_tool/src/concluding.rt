//! The verdict where an image that does not fit was not kept.

ghost use Rattle.std.specs.Prelude.{◌≡◌, ◌<◌, ℕ, List, IfOk, length};
ghost use Rattle.nbd_wire.specs.{declared.profile.Profile.Profile, Prelude.{Item, pairs, IsRunOf}};
ghost use Rattle.nbd_wire.specs.protocol.Explains as definitions;
ghost use Rattle.nbd_judge.specs.Conclusions.{Answers, IsConclusion, IsReportOf};
ghost use Rattle.nbd_tool.specs.Beginnings.{IsReadAs, room_in};

use crate::beginning::Beginning;
use nbd_export::Start;
use nbd_judge::{Verdict, conclude, laws};
use nbd_session::{SessionFault, Transcript};
use nbd_wire::{Entry, Profile};
use std::alloc::{AllocError, Global};

/// Concludes what a finished session of the profile, an order of service and the export's beginning come to, of which an image was kept only
/// where the session has room for it (`room_of`). Out of memory is returned where the session met it, or where it comes here.
pub fn conclude_from(
    alloc: Global,
    profile: Profile,
    finished: Result<Transcript, SessionFault>,
    order: &[Entry],
    beginning: Beginning,
) -> Result<Verdict, AllocError>
    ensures verdict { IfOk result (λ v. (initial : definitions.Start) →
        IsReadAs (room_in finished) initial beginning → IsConclusion profile finished order.now initial v) }
    ensures answers { IfOk result (λ v. (initial : definitions.Start) (items : List Item) →
        IsReadAs (room_in finished) initial beginning → IsRunOf profile items → IsReportOf items finished →
        Answers profile (pairs items) order.now initial v) }
{
    laws::verdicts_answer_runs();
    match beginning {
        Beginning::Whole(start) => conclude(alloc, profile, finished, order, start),
        Beginning::Longer(image) => conclude_longer(alloc, profile, finished, order, image),
    }
}

// The same of an image of so many bytes, which has more than there is room for.
fn conclude_longer(
    alloc: Global,
    profile: Profile,
    finished: Result<Transcript, SessionFault>,
    order: &[Entry],
    image: u64,
) -> Result<Verdict, AllocError>
    ensures { IfOk result (λ v. (bytes : List ℕ) → image ≡ length bytes → room_in finished < image →
        IsConclusion profile finished order.now (definitions.image bytes) v) }
{
    match finished {
        Ok(transcript) => match transcript.export() {
            Some((size, _)) => Ok(Verdict::Image { image, size }),
            None => conclude(alloc, profile, Ok(transcript), order, Start::Unknown),
        },
        Err(fault) => conclude(alloc, profile, Err(fault), order, Start::Unknown),
    }
}
