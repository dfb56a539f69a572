//! Reading an input whole.
ghost use Rattle.std.specs.Prelude.{◌≡◌, ◌+◌, ◌<◌, ◌≤◌, ℕ, [], Err, IfOk, IfSome, Ok, OnOk, length, vec_capacity, vec_len};
ghost use Rattle.nbd_files.specs.{declared.input.{ReadFault.TheVariants.Memory, Text.TheVariants.Longer}, Starts.IsWithinLimit, Texts.IsText};

use std::alloc::{AllocError, Global};
use std::io::Read;

/// The most bytes that an input may have: 2^40.
pub const READ_LIMIT: usize = 1 << 40;

/// The bytes that are asked of a reader at a time.
pub const PORTION: usize = 1 << 16;

/// Why an input was not read whole.
#[derive(Drop)]
pub enum ReadFault {
    /// The reader failed, or the input has more than `READ_LIMIT` bytes.
    Read,
    Memory,
}

impl From<AllocError> for ReadFault {
    ghost use Rattle.nbd_files.specs.declared.input.ReadFault.TheVariants.{Memory};

    ghost from_gives = { λ _ fault. fault ≡ Memory };

    fn from(_: AllocError) -> ReadFault {
        ReadFault::Memory
    }
}

/// What an input has.
#[derive(Drop)]
pub enum Text {
    /// These bytes.
    Whole(Vec<u8>),
    /// So many bytes, which were counted and not kept.
    Longer(u64),
}

/// Reads to the end. Every error of the reader is a fault, also an interrupted read: nothing is
/// tried again.
pub fn read_whole<R: Read>(alloc: Global, reader: &mut R) -> Result<Vec<u8>, ReadFault>
    ensures whole { IfOk result (λ text. IfSome (R.remaining reader.old) (λ bytes. text.items ≡ bytes)) }
    ensures limited { OnOk result (IsWithinLimit (R.remaining reader.old)) }
{
    match read_within(alloc, reader, READ_LIMIT as u64)? {
        Text::Whole(text) => Ok(text),
        Text::Longer(_) => unreachable!(),
    }
}

/// Reads to the end, and keeps the bytes where there are no more than `room` of them.
pub fn read_within<R: Read>(alloc: Global, reader: &mut R, room: u64) -> Result<Text, ReadFault>
    ensures read { IfOk result (λ text. IfSome (R.remaining reader.old) (IsText room text)) }
    ensures limited { OnOk result (IsWithinLimit (R.remaining reader.old)) }
    ensures longer { (n : ℕ) → result ≡ Ok (Longer n) → (room < n) × (n ≤ READ_LIMIT) }
{
    let mut portion = vec![in alloc; 0u8; PORTION]?;
    let mut text = Vec::new(alloc);
    let count = read_into(alloc, reader, room, portion.as_mut_slice(), &mut text)?;
    Ok(if count <= room {
        Text::Whole(text)
    } else {
        Text::Longer(count)
    })
}

// Reads to the end, by portions, and answers how many bytes these were. Where there is room for them, they stand in the text, which
// was empty.
fn read_into<R: Read>(
    alloc: Global,
    reader: &mut R,
    room: u64,
    portion: &mut [u8],
    text: &mut Vec<u8>,
) -> Result<u64, ReadFault>
    requires empty { text.old.items ≡ [] }
    requires portion { length portion.old ≡ PORTION }
    ensures read { IfOk result (λ count. IfSome (R.remaining reader.old)
        (λ bytes. (count ≡ length bytes) × (count ≤ room → text.new.items ≡ bytes))) }
    ensures limited { OnOk result (IsWithinLimit (R.remaining reader.old)) }
    ensures few { IfOk result (λ count. count ≤ READ_LIMIT) }
    // Memory runs out only where the next portion may not fit in what room there was.
    ensures full { result ≡ Err Memory → vec_capacity text.old < vec_len text.new + PORTION }
{
    let mut count = 0;
    while count <= READ_LIMIT {
        let Ok(more) = reader.read(portion) else {
            return Err(ReadFault::Read);
        };
        if more == 0 {
            return Ok(count as u64);
        }
        count += more;
        if count as u64 <= room {
            text.extend_from_slice(&portion[..more])?;
        } else {
            *text = Vec::new(alloc);
        }
    }
    Err(ReadFault::Read)
}
