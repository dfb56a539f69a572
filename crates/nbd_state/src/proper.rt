//! Whether a client should send a request (proto.md, "Request types", "Command flags",
//! "Transmission flags").

ghost use Rattle.std.specs.Prelude.{◌≡◌, ◌<◌, ◌+◌, ◌-◌, ◌==◌, ℕ, List, Option, bit_and, false, length, not, nat_le, if◌then◌else◌};
ghost use Rattle.nbd_wire.specs.{declared.{message.Message.Message, sizes.Sizes.Sizes}, Prelude.{Context, Filter, Operation}};
ghost use Rattle.nbd_wire.specs.protocol.Operations as operations;
ghost use Rattle.nbd_state.specs.{Filters.Asks, Flaws.{flaws, is_none}, Showing.exporting, internal.operation_of_head};

use crate::asking::Asking;
use crate::state::Export;
use nbd_wire::flags::has;
use nbd_wire::{RequestHead, Sizes, breaks_sizes, command_flags, commands, transmission};

/// What is wrong with a request that a client should not send.
#[derive(Clone, Copy, Drop)]
pub struct Flaws {
    /// Its type is none of those that nbdcheck follows; a BLOCK_STATUS is of one where a metadata context is in force.
    pub is_unknown: bool,
    /// Its range passes the end of the export.
    pub is_beyond: bool,
    /// The export does not offer its type.
    pub is_unoffered: bool,
    /// It changes an export that is read-only.
    pub is_forbidden: bool,
    /// The flags that it has and may not have.
    pub flags: u16,
    /// It is a FLUSH with an offset or a length.
    pub is_ranged: bool,
}

impl Flaws {
    /// Whether there is none.
    pub fn is_none(self) -> bool
        ensures { result ≡ is_none self }
    {
        !(self.is_unknown || self.is_beyond || self.is_unoffered || self.is_forbidden)
            && self.flags == 0
            && !self.is_ranged
    }
}

/// What is wrong with this request, which asks this, on the export; nothing with one that a client should send.
pub fn flaws_of(export: Export, asking: &Asking, request: &RequestHead) -> Flaws
    ensures flaws { (payload : List ℕ) (contexts : List Context) (filter : Option Filter) (sizes : Option Sizes)
        (replies : List Message) → Asks export.flags contexts filter request.now.length asking.now →
        result ≡ flaws (exporting export) (operation_of_head request.now payload contexts filter sizes replies) }
    ensures proper { (payload : List ℕ) (contexts : List Context) (filter : Option Filter) (sizes : Option Sizes)
        (replies : List Message) → Asks export.flags contexts filter request.now.length asking.now →
        is_none result ≡ operations.is_proper (exporting export)
        (operation_of_head request.now payload contexts filter sizes replies) }
{
    let (command, length) = (request.command, asking.length);
    let carries = request.extended & (command == commands::WRITE) | asking.takes_filter;
    let allowed = allowed_flags(carries, export.flags, command);
    Flaws {
        is_unknown: !is_known(command, asking.has_contexts),
        is_beyond: has_range(command) & !ends_by(request.offset, length, export.size),
        is_unoffered: !is_offered(export.flags, command),
        is_forbidden: is_change(command) & has(export.flags, transmission::READ_ONLY),
        flags: others(request.flags, allowed),
        is_ranged: (command == commands::FLUSH) & ((request.offset != 0) | (length != 0)),
    }
}

/// Whether a request of this type, with a range of this offset and size in bytes, breaks the block sizes, if there are
/// some. Its type has to be known and to have a range; a BLOCK_STATUS is known where a metadata context is in force.
pub fn is_outside(
    sizes: Option<Sizes>,
    has_contexts: bool,
    command: u16,
    offset: u64,
    size: u64,
) -> bool
    ensures { (e : Operation) → e.command ≡ command → e.offset ≡ offset → e.length ≡ size → e.sizes ≡ sizes →
        has_contexts ≡ not (length e.contexts == 0) → result ≡ operations.is_outside e }
{
    is_known(command, has_contexts)
        && has_range(command)
        && breaks_sizes(sizes, command, offset, size)
}

// The type of a numbered request is known.
fn is_known(command: u16, has_contexts: bool) -> bool
    ensures { (e : Operation) → e.command ≡ command → has_contexts ≡ not (length e.contexts == 0) →
        result ≡ operations.is_known e }
{
    match command {
        commands::BLOCK_STATUS => has_contexts,
        _ => command == commands::FLUSH || has_range(command),
    }
}

/// Whether the offset and length of requests of this type are a range of the export.
pub fn has_range(command: u16) -> bool
    ensures { result ≡ operations.has_range command }
{
    command == commands::READ
        || command == commands::WRITE
        || command == commands::TRIM
        || command == commands::CACHE
        || command == commands::WRITE_ZEROES
        || command == commands::BLOCK_STATUS
}

/// Requests of this type change the export.
pub fn is_change(command: u16) -> bool
    ensures { result ≡ operations.is_change command }
{
    command == commands::WRITE || command == commands::TRIM || command == commands::WRITE_ZEROES
}

/// Whether a range of this offset and size, in bytes, ends at `end` or before. The sum may pass 64 bits.
pub fn ends_by(offset: u64, size: u64, end: u64) -> bool
    ensures { result ≡ nat_le (offset + size) end }
{
    offset <= end && size <= end - offset
}

// The export offers the type. CACHE needs no SEND_CACHE: servers carry it out without that flag
// (this project's choice).
fn is_offered(flags: u16, command: u16) -> bool
    ensures { result ≡ operations.is_offered flags command }
{
    match command {
        commands::FLUSH => has(flags, transmission::SEND_FLUSH),
        commands::TRIM => has(flags, transmission::SEND_TRIM),
        commands::WRITE_ZEROES => has(flags, transmission::SEND_WRITE_ZEROES),
        _ => true,
    }
}

// Of these flags those that are not among the allowed ones.
fn others(flags: u16, allowed: u16) -> u16
    ensures { result ≡ flags - bit_and flags allowed }
{
    flags - (flags & allowed)
}

// The flags that a request of this type may have, by whether PAYLOAD_LEN is one.
fn allowed_flags(carries: bool, flags: u16, command: u16) -> u16
    ensures { result ≡ operations.allowed_flags carries flags command }
{
    mask_if(carries, command_flags::PAYLOAD_LEN) | other_flags(flags, command)
}

// The same, but for PAYLOAD_LEN.
fn other_flags(flags: u16, command: u16) -> u16
    ensures flags { result ≡ operations.allowed_flags false flags command }
    ensures few { result < 32 }
{
    let (is_read, is_zeroes) = (command == commands::READ, command == commands::WRITE_ZEROES);
    let is_status = command == commands::BLOCK_STATUS;
    let has_fast = has(flags, transmission::SEND_FAST_ZERO);
    mask_if(has(flags, transmission::SEND_FUA), command_flags::FUA)
        | mask_if(is_zeroes, command_flags::NO_HOLE)
        | mask_if(
            is_read && has(flags, transmission::SEND_DF),
            command_flags::DF,
        )
        | mask_if(is_zeroes && has_fast, command_flags::FAST_ZERO)
        | mask_if(is_status, command_flags::REQ_ONE)
}

// The mask, or no flag.
fn mask_if(offered: bool, mask: u16) -> u16
    ensures { result ≡ (if offered then mask else 0) }
{
    if offered { mask } else { 0 }
}
