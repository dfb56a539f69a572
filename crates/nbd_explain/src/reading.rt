//! How the inputs are read: the story of a capture, told while its session is read, and what is read behind it.

ghost use Rattle.std.specs.Prelude.{ℕ, List, Option, IfErr, IfOk, OnOk};
ghost use Rattle.nbd_tool.specs.{Beginnings.{IsBeginningOf, room_in}, Runs.{IsCapture, IsCaptureCause}, Ends.IsFinishOf};
ghost use Rattle.nbd_files.specs.{declared.fault.RunFault.TheVariants.Write, Starts.{IsStartWellFormed, IsWithinLimit, OfStart}};
ghost use Rattle.nbd_explain.specs.{Contents.HasEntries, Explained.{IsExplainCause, IsOrderWithinLimit}, internal.Leaving.{IsGivenOrderCause, entries_of}};

use nbd_files::{Measured, RunFault, StartFrom};
use nbd_session::{SessionFault, Transcript};
use nbd_story::Story;
use nbd_tool::{Beginning, Witness, read_order, read_start, room_of, session_over};
use nbd_wire::{Entry, Message, Profile, Side};
use std::alloc::{AllocError, Global};
use std::io::{BufRead, Read};

/// Tells the story of what it is shown.
#[derive(Drop)]
pub struct Recorder {
    /// The story of it.
    pub story: Story,
}

impl Recorder {
    /// It was shown nothing of a session of this profile; whether what is told of it has the names of numbers. Takes no memory.
    pub fn of(alloc: Global, profile: Profile, is_marked: bool) -> Recorder {
        Recorder {
            story: Story::of(alloc, profile, is_marked),
        }
    }
}

impl Witness for Recorder {
    fn see(&mut self, side: Side, bytes: &[u8]) -> Result<(), AllocError> {
        self.story.recording.add(side, bytes)
    }

    fn accept(&mut self, messages: &[Message]) -> Result<(), AllocError> {
        self.story.tell(messages)
    }
}

/// Reads a capture text to its end, and finishes its session of this profile, which the recorder's story then tells.
pub fn finished_over<C: BufRead + Drop>(
    alloc: Global,
    profile: Profile,
    capture: C,
    recorder: &mut Recorder,
) -> Result<Result<Transcript, SessionFault>, RunFault>
    ensures over { IfOk result (IsFinishOf profile (C.remaining capture)) }
    ensures limited { OnOk result (IsWithinLimit (C.remaining capture)) }
    ensures cause { IfErr result (IsCaptureCause (C.remaining capture)) }
{
    let session = session_over(alloc, profile, capture, recorder)?;
    Ok(session.finish())
}

/// Reads behind a capture the order, if there is one, and then the start: the order's entries, and what the session needs of the
/// start.
pub fn read_behind<O: Read + Drop, I: Measured + Drop>(
    alloc: Global,
    finished: &Result<Transcript, SessionFault>,
    order: Option<O>,
    start: StartFrom<I>,
) -> Result<(Option<Vec<Entry>>, Beginning), RunFault>
    ensures order_limited { OnOk result (IsOrderWithinLimit O.remaining order) }
    ensures start_limited { OnOk result (IsStartWellFormed I.remaining start) }
    ensures entries { IfOk result (λ read. HasEntries O.remaining order (entries_of read.0)) }
    ensures start { IfOk result (λ read. OfStart I.remaining start
        (λ initial. IsBeginningOf initial (room_in finished.now) read.1)) }
    ensures read { OnOk result ((known : Option (List ℕ)) → IsCapture known →
        IsExplainCause O.remaining I.remaining known order start Write) }
    ensures cause { IfErr result (λ fault. (known : Option (List ℕ)) → IsCapture known →
        IsExplainCause O.remaining I.remaining known order start fault) }
{
    let entries = read_entries(alloc, order)?;
    let start = read_start(alloc, start, room_of(finished))?;
    Ok((entries, start))
}

// The entries of an order, if there is one.
fn read_entries<O: Read + Drop>(
    alloc: Global,
    order: Option<O>,
) -> Result<Option<Vec<Entry>>, RunFault>
    ensures limited { OnOk result (IsOrderWithinLimit O.remaining order) }
    ensures entries { IfOk result (λ entries. HasEntries O.remaining order (entries_of entries)) }
    ensures cause { IfErr result (IsGivenOrderCause O.remaining order) }
{
    match order {
        Some(mut order) => Ok(Some(read_order(alloc, &mut order)?)),
        None => Ok(None),
    }
}
