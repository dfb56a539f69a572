//! What the last byte of a message shows to be wrong with it.

ghost use Rattle.std.specs.Prelude.{◌≡◌, Some};
ghost use Rattle.nbd_wire.specs.Prelude.{Exporting, Operation, Core, are_zeroes, simple_last_fault};
ghost use Rattle.nbd_state.specs.{Showing.IsShown, Shows.Shows};
ghost use Rattle.nbd_session.specs.internal.Expecting.{StandsIn, last_fault_by};

use crate::chunks::chunk_fault;
use crate::expected::Expected;
use crate::options::payload_fault;
use nbd_state::{Exchange, State};
use nbd_wire::{WireFault, commands};

/// The fault at the last byte of a message with this payload.
pub(crate) fn last_fault(state: &State, expected: &Expected, payload: &[u8]) -> Option<WireFault>
    requires { StandsIn state.now expected.now }
    ensures { (core : Core) → Shows state.now core → result ≡ last_fault_by core.phase core expected.now payload.now }
{
    match expected {
        Expected::Answer {
            head,
            proper: Some(proper),
        } => payload_fault(state.profile, &state.selection, head, *proper, payload),
        Expected::Exported { padded: true, .. } if !are_zeroes(payload) => {
            Some(WireFault::BadExport)
        }
        Expected::Request(head)
            if head.command != commands::DISC && state.outstanding.get(head.cookie).is_some() => {
            Some(WireFault::CookieInUse)
        }
        Expected::Simple { head, place, .. } => success_fault(head.error, &state.exchanges[*place]),
        Expected::Chunk { head, place } => {
            let exchange = &state.exchanges[*place];
            chunk_fault(state, head, payload, exchange)
        }
        _ => None,
    }
}

// A request that is not proper, answered as successful.
fn success_fault(error: u32, exchange: &Exchange) -> Option<WireFault>
    ensures { (export : Exporting) (e : Operation) → IsShown export e exchange.now →
        result ≡ simple_last_fault export (Some e) error }
{
    (error == 0 && !exchange.asked.proper).then_some(WireFault::SuccessOfImproper)
}

fn are_zeroes(bytes: &[u8]) -> bool
    ensures { result ≡ are_zeroes bytes.now }
{
    bytes.iter().all(|byte| *byte == 0)
}
