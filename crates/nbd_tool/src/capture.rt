//! A session over a capture that is read chunk by chunk.

ghost use Rattle.std.specs.Prelude.{◌≡◌, ◌+◌, ◌<◌, ◌^◌, ◌++◌, [], List, IfErr, IfOk, OnOk, length};
ghost use Rattle.nbd_wire.specs.{declared.profile.Profile.Profile, Prelude.{Pair, side_pairs}};
ghost use Rattle.nbd_capture.specs.Reading.{at_start};
ghost use Rattle.nbd_files.specs.{declared.input.TheConstants.READ_LIMIT, Starts.IsWithinLimit};
ghost use Rattle.nbd_tool.specs.{Runs.IsCaptureCause, Ends.{IsFinishOf, IsOverText}, internal.IsOverChunks};

use crate::intake::Intake;
use nbd_capture::CaptureReader;
use nbd_files::{READ_LIMIT, RunFault};
use nbd_session::{Monitor, Session, SessionFault, Transcript};
use nbd_wire::{Message, Profile, Side};
use std::alloc::{AllocError, Global};
use std::io::BufRead;

/// Who is shown the bytes of a capture as they are read.
pub trait Witness {
    /// These bytes came next, from this side. An `Err` says that memory ran out.
    fn see(&mut self, side: Side, bytes: &[u8]) -> Result<(), AllocError>;

    /// These are the messages that were accepted so far. An `Err` says that memory ran out.
    fn accept(&mut self, messages: &[Message]) -> Result<(), AllocError>;
}

/// Nobody.
#[derive(Drop)]
pub struct Unseen;

impl Witness for Unseen {
    fn see(&mut self, _side: Side, _bytes: &[u8]) -> Result<(), AllocError> {
        Ok(())
    }

    fn accept(&mut self, _messages: &[Message]) -> Result<(), AllocError> {
        Ok(())
    }
}

/// A session of this profile over the capture text that the reader has, up to the byte at which it is refused. A chunk
/// is dropped once it was shown to the witness and pushed.
///
/// The text is read to its end, also after a refused byte, so that a fault of the text or of its reader
/// comes before any verdict; out of memory is answered at once.
pub fn session_over<C: BufRead + Drop, S: Witness>(
    alloc: Global,
    profile: Profile,
    capture: C,
    witness: &mut S,
) -> Result<Session, RunFault>
    ensures over { IfOk result (IsOverText profile (C.remaining capture)) }
    ensures limited { OnOk result (IsWithinLimit (C.remaining capture)) }
    ensures cause { IfErr result (IsCaptureCause (C.remaining capture)) }
{
    let mut session = Session::of(alloc, profile);
    push_all(alloc, capture, &mut session, witness).and(Ok(session))
}

/// What a session of this profile over the capture text that the reader has comes to at its end. None of its messages is
/// kept.
///
/// The text is read as `session_over` reads it.
pub fn transcript_over<C: BufRead + Drop>(
    alloc: Global,
    profile: Profile,
    capture: C,
) -> Result<Result<Transcript, SessionFault>, RunFault>
    ensures finish { IfOk result (IsFinishOf profile (C.remaining capture)) }
    ensures limited { OnOk result (IsWithinLimit (C.remaining capture)) }
    ensures cause { IfErr result (IsCaptureCause (C.remaining capture)) }
{
    let mut monitor = Monitor::of(alloc, profile);
    match push_all(alloc, capture, &mut monitor, &mut Unseen) {
        Ok(()) => Ok(monitor.finish()),
        Err(fault) => Err(fault),
    }
}

// Pushes all chunks of a capture text into an intake that has taken nothing.
fn push_all<C: BufRead + Drop, T: Intake, S: Witness>(
    alloc: Global,
    capture: C,
    intake: &mut T,
    witness: &mut S,
) -> Result<(), RunFault>
    requires { (profile : Profile) × T.over intake.old profile [] }
    ensures over { OnOk result ((profile : Profile) → T.over intake.old profile [] →
        IsOverChunks (T.over intake.new profile) (C.remaining capture)) }
    ensures limited { OnOk result (IsWithinLimit (C.remaining capture)) }
    ensures cause { IfErr result (IsCaptureCause (C.remaining capture)) }
{
    let mut reader = CaptureReader::new(alloc, capture, READ_LIMIT as u64);
    push_read(alloc, &mut reader, intake, witness)
}

// Pushes all chunks that a new reader has into an intake that has taken nothing.
fn push_read<C: BufRead, T: Intake, S: Witness>(
    alloc: Global,
    reader: &mut CaptureReader<C>,
    intake: &mut T,
    witness: &mut S,
) -> Result<(), RunFault>
    requires new { reader.old ≡ at_start reader.old.rest READ_LIMIT }
    requires empty { (profile : Profile) × T.over intake.old profile [] }
    ensures over { OnOk result ((profile : Profile) → T.over intake.old profile [] →
        IsOverChunks (T.over intake.new profile) reader.old.rest) }
    ensures limited { OnOk result (IsWithinLimit reader.old.rest) }
    ensures cause { IfErr result (IsCaptureCause reader.old.rest) }
{
    let mut bytes = Vec::new(alloc);
    while let Some(side) = reader.next_into(&mut bytes)? {
        push_shown(intake, witness, side, bytes.as_slice())?;
    }
    Ok(())
}

// Shows a piece of a capture to the witness, pushes it into an intake, and shows what that accepted.
fn push_shown<T: Intake, S: Witness>(
    intake: &mut T,
    witness: &mut S,
    side: Side,
    piece: &[u8],
) -> Result<(), AllocError>
    requires { (profile : Profile) × (capture : List Pair) × T.over intake.old profile capture
        × (length capture + length piece.now < 2 ^ 63) }
    ensures { OnOk result ((profile : Profile) (capture : List Pair) → T.over intake.old profile capture →
        T.over intake.new profile (capture ++ side_pairs side piece.now)) }
{
    witness.see(side, piece)?;
    intake.take(side, piece)?;
    witness.accept(intake.messages())
}
