//! The verdict on a capture.

ghost use Rattle.std.specs.Prelude.{◌<◌, ◌^◌, IfErr, IfOk, length};
ghost use Rattle.nbd_wire.specs.{declared.profile.Profile.TheVariants.Base, Prelude.flat};
ghost use Rattle.nbd_judge.specs.{Beginnings.initial_of, Captures.{AnswersExactly, IsChecked, records_of}, internal.{HasReport, IsFaultOf}};

use crate::{Verdict, conclude};
use nbd_export::Start;
use nbd_session::{Session, SessionFault, Transcript};
use nbd_wire::{Entry, Profile, Side};
use std::alloc::{AllocError, Global};

/// Checks a capture in the profile `Base`, given as records of any size, against an order of service and what the
/// export held at first. The records together must have fewer than 2^63 bytes. Only the sequence of bytes with their
/// senders counts, not how it is cut into records. An `Err` says that memory ran out.
pub fn check(
    alloc: Global,
    chunks: &[(Side, Vec<u8>)],
    order: &[Entry],
    start: Start,
) -> Result<Verdict, AllocError>
    requires { length (flat (records_of chunks.now)) < 2 ^ 63 }
    ensures verdict { IfOk result (IsChecked Base (flat (records_of chunks.now)) order.now (initial_of start)) }
    // Exactly the captures that the order explains get a yes.
    ensures exactly { IfOk result (AnswersExactly Base (flat (records_of chunks.now)) order.now (initial_of start)) }
{
    check_of(alloc, Profile::Base, chunks, order, start)
}

/// Checks a capture as `check` does, in this profile: its session is held to the rules of the profile, and the verdict
/// speaks of the profile's runs. The records together must have fewer than 2^63 bytes. An `Err` says that memory ran
/// out.
pub fn check_of(
    alloc: Global,
    profile: Profile,
    chunks: &[(Side, Vec<u8>)],
    order: &[Entry],
    start: Start,
) -> Result<Verdict, AllocError>
    requires { length (flat (records_of chunks.now)) < 2 ^ 63 }
    ensures verdict { IfOk result (IsChecked profile (flat (records_of chunks.now)) order.now (initial_of start)) }
    // Exactly the captures that the order explains in this profile get a yes.
    ensures exactly { IfOk result (AnswersExactly profile (flat (records_of chunks.now)) order.now (initial_of start)) }
{
    let finished = session_over(alloc, profile, chunks);
    conclude(alloc, profile, finished, order, start)
}

// What a session of this profile with these records finishes with.
fn session_over(
    alloc: Global,
    profile: Profile,
    chunks: &[(Side, Vec<u8>)],
) -> Result<Transcript, SessionFault>
    requires { length (flat (records_of chunks.now)) < 2 ^ 63 }
    ensures report { IfOk result (HasReport profile (flat (records_of chunks.now))) }
    ensures wire { IfErr result (IsFaultOf profile (flat (records_of chunks.now))) }
{
    let mut session = Session::of(alloc, profile);
    for (side, bytes) in chunks {
        session.push(*side, bytes)?;
    }
    session.finish()
}
