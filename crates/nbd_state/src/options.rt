//! Options and their answers, as far as the state has them (proto.md, "Option types", "Option reply
//! types").

ghost use Rattle.std.specs.Prelude.{◌≡◌};
ghost use Rattle.nbd_wire.specs.Prelude.{is_proper_option, last_info, takes_contexts, info_of};
ghost use Rattle.nbd_state.specs.Showing.{exporting_if};

use crate::state::Export;
use nbd_wire::{Info, go_of, info_of, options, queries_of};

/// Whether the data of an option has its form. EXPORT_NAME and ABORT take any data, and an option that
/// is not listed here is malformed.
#[tactic(auto, unfolding(nbd_wire::specs::protocol::Options::is_proper_option))]
pub(crate) fn is_proper_option(option: u32, payload: &[u8]) -> bool
    ensures { result ≡ is_proper_option option payload.now }
{
    match option {
        options::EXPORT_NAME | options::ABORT => true,
        options::LIST | options::STRUCTURED_REPLY | options::EXTENDED_HEADERS => payload.is_empty(),
        options::INFO | options::GO => go_of(payload).is_some(),
        options::LIST_META_CONTEXT | options::SET_META_CONTEXT => queries_of(payload).is_some(),
        _ => false,
    }
}

/// Whether an option takes META_CONTEXT answers: LIST_META_CONTEXT, and SET_META_CONTEXT but where its data has the form and
/// no query.
pub(crate) fn takes_contexts(option: u32, payload: &[u8]) -> bool
    ensures { result ≡ takes_contexts option payload.now }
{
    match option {
        options::LIST_META_CONTEXT => true,
        options::SET_META_CONTEXT => !matches!(queries_of(payload), Some((_, 0))),
        _ => false,
    }
}

/// The last EXPORT info, with one more INFO payload.
pub(crate) fn last_info(payload: &[u8], last: Option<Export>) -> Option<Export>
    ensures { exporting_if result ≡ last_info (info_of payload.now) (exporting_if last) }
{
    match info_of(payload) {
        Some(Info::Export { size, flags }) => Some(Export { size, flags }),
        _ => last,
    }
}
