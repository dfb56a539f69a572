//! The counts of a yes.

ghost use Rattle.std.specs.Prelude.{◌≡◌, not};
ghost use Rattle.nbd_wire.specs.protocol.Verdicts as definitions;
ghost use Rattle.nbd_state.specs.{Showing.outcome_of, Transcripts.report_of_request};

use nbd_session::{Asked, Outcome, Transcript};
use nbd_wire::Profile;

/// How many requests were finished, with success or with failure.
pub fn answered_count(transcript: &Transcript) -> u64
    ensures { result ≡ definitions.answered_count transcript.now }
{
    let mut answered = 0;
    for i in 0..transcript.count() {
        if let Some(one) = transcript.asked(i + 1) {
            if is_finished(one.outcome) {
                answered += 1;
            }
        }
    }
    answered
}

/// How many requests a client should not have sent: improper ones, and in `Wide` also those that are outside of the
/// block sizes.
pub fn improper_count(profile: Profile, transcript: &Transcript) -> u64
    ensures { result ≡ definitions.improper_count profile transcript.now }
{
    let mut improper = 0;
    for i in 0..transcript.count() {
        if let Some(one) = transcript.asked(i + 1) {
            if is_amiss(profile, one) {
                improper += 1;
            }
        }
    }
    improper
}

// Whether a client should not have sent it.
fn is_amiss(profile: Profile, one: &Asked) -> bool
    ensures { result ≡ definitions.is_amiss profile (report_of_request one.now) }
{
    match profile {
        Profile::Base => !one.proper,
        Profile::Wide => !one.proper || one.outside,
    }
}

// Whether a reply was finished.
fn is_finished(outcome: Outcome) -> bool
    ensures { result ≡ definitions.is_answered (outcome_of outcome) }
{
    match outcome {
        Outcome::Success | Outcome::Failure => true,
        Outcome::Pending => false,
    }
}
