//! What the payload of a BLOCK_STATUS with PAYLOAD_LEN asks: a length, and ids of metadata contexts. proto.md ("Command
//! flags") has the flag's number alone; the form is that of libnbd and qemu, and is this project's choice.

ghost use Rattle.std.specs.{Prelude.{◌≡◌, ◌∷◌, [], MatchOption}, Option.option_map};
ghost use Rattle.nbd_wire.specs.{protocol.{Contexts.Filter, Forms.HasFilterForm, Payloads.{filter_of, ids_of}}, codec.Contents.ReadsAs};

use crate::numbers::{u32_at, u64_at};

/// Where the ids begin, in bytes, and the length of each.
const IDS: usize = 8;

const ID_LENGTH: usize = 4;

/// The length of the range that the payload asks, in bytes, and the bytes of the ids behind it: any number of them, four
/// bytes each. `None` where the payload has not this form.
pub fn filter_of(bytes: &[u8]) -> Option<(u64, &[u8])>
    ensures form { ReadsAs {B = Filter} (λ v. record { length = v.0; ids = ids_of v.1.now }) result
        (λ filter. HasFilterForm filter bytes.now) }
    ensures same { option_map (λ v. record { length = v.0; ids = ids_of v.1.now }) result ≡ filter_of bytes.now }
{
    if bytes.len() < IDS || (bytes.len() - IDS) % ID_LENGTH != 0 {
        return None;
    }
    Some((u64_at(bytes, 0), &bytes[IDS..]))
}

/// The first of the ids that these bytes are, and the bytes of the others; `None` where they are too few for one.
pub fn first_id(ids: &[u8]) -> Option<(u32, &[u8])>
    ensures { MatchOption result (ids_of ids.now ≡ []) (λ v. ids_of ids.now ≡ v.0 ∷ ids_of v.1.now) }
{
    if ids.len() < ID_LENGTH {
        return None;
    }
    Some((u32_at(ids, 0), &ids[ID_LENGTH..]))
}
