//! What a session leaves, compared with an image.

ghost use Rattle.std.specs.Prelude.{◌≡◌, ◌⊎◌, ◌+◌, ◌++◌, ◌-◌, ◌^◌, ◌<◌, ◌≤◌, ℕ, List, IfErr, IfOk, IfSome, count_by, is_some, length};
ghost use Rattle.nbd_export.specs.{Extents.{byte_of, size_of}, Held.{held, held_from}};
ghost use Rattle.nbd_files.specs.declared.fault.RunFault.TheVariants.{AgainstRead, Memory, Write};
ghost use Rattle.nbd_explain.specs.{Compared.WritesCompared, Ordering.LeavesOrdered, internal.Comparing.{IsComparison, IsLeastOther, compared_line, is_agreement}};

use nbd_capture::write_whole;
use nbd_export::{Contents, Extents, Kind};
use nbd_files::{Measured, PORTION, RunFault};
use std::alloc::{AllocError, Global};
use std::io::{Read, Write};

/// The most bytes that are read of an image: as many as an export can have.
const MOST: u64 = (1 << 63) - 1;

/// How contents and an image compare.
#[derive(Clone, Copy)]
pub enum Compared {
    /// They agree: how many bytes are known, and how many are not.
    Agree { known: u64, unknown: u64 },
    /// The image has so many bytes, and the export has this size.
    Sizes { image: u64, size: u64 },
    /// The least offset of a known byte that is another one in the image.
    Differ { offset: u64 },
}

/// Writes how contents and an image compare, and answers whether they agree. The image is read to its end, by portions,
/// unless it is known to have another size. An `Err` is a fault of the image's reader or of the writer, or out of memory.
/// After `Write` a prefix of the line stands written, after another fault nothing.
pub fn write_compared<A: Measured, W: Write>(
    alloc: Global,
    contents: &Extents,
    image: &mut A,
    out: &mut W,
) -> Result<bool, RunFault>
    ensures written { IfOk result (λ yes. IfSome (A.remaining image.old)
        (λ bytes. WritesCompared (held contents.now) bytes (W.contents out.old) (W.contents out.new) yes)) }
    ensures cause { IfErr result (λ fault. (fault ≡ Write) ⊎ (fault ≡ Memory) ⊎ (fault ≡ AgainstRead)) }
    ensures left { IfErr result (LeavesOrdered (W.contents out.old) (W.contents out.new)) }
{
    let compared = comparison(alloc, contents, image)?;
    let text = line_of(alloc, &compared)?;
    write_whole(out, text.as_bytes())?;
    Ok(agrees(&compared))
}

// The line of it.
fn line_of(alloc: Global, compared: &Compared) -> Result<String, AllocError>
    ensures { IfOk result (λ text. text.bytes.items ≡ compared_line compared.now) }
{
    match *compared {
        Compared::Agree { known, unknown } => {
            format!(in alloc; "agrees known {known} unknown {unknown}\n")
        }
        Compared::Sizes { image, size } => format!(in alloc; "no against {image} size {size}\n"),
        Compared::Differ { offset } => format!(in alloc; "no against offset {offset}\n"),
    }
}

// Whether they agree.
fn agrees(compared: &Compared) -> bool
    ensures { result ≡ is_agreement compared.now }
{
    matches!(compared, Compared::Agree { .. })
}

// How contents compare with an image, which is read unless it is known to have another size.
fn comparison<A: Measured>(
    alloc: Global,
    contents: &Extents,
    image: &mut A,
) -> Result<Compared, RunFault>
    ensures compared { IfOk result (λ compared. IfSome (A.remaining image.old)
        (λ bytes. IsComparison (held contents.now) bytes compared)) }
    ensures cause { IfErr result (λ fault. (fault ≡ Memory) ⊎ (fault ≡ AgainstRead)) }
{
    let size = contents.size();
    match image.bytes_left() {
        Some(count) if count != size => Ok(Compared::Sizes { image: count, size }),
        _ => comparison_by_bytes(alloc, contents, image),
    }
}

// The same of an image that is read.
fn comparison_by_bytes<A: Read>(
    alloc: Global,
    contents: &Extents,
    image: &mut A,
) -> Result<Compared, RunFault>
    ensures compared { IfOk result (λ compared. IfSome (A.remaining image.old)
        (λ bytes. IsComparison (held contents.now) bytes compared)) }
    ensures cause { IfErr result (λ fault. (fault ≡ Memory) ⊎ (fault ≡ AgainstRead)) }
{
    let mut portion = vec![in alloc; 0u8; PORTION]?;
    let (count, first) = read_against(contents, image, portion.as_mut_slice())?;
    Ok(compared_with(contents, count, first))
}

// Reads an image to its end. Answers how many bytes it has, and where these are no more than the export has, the least
// offset of a known byte that is another one there.
fn read_against<A: Read>(
    contents: &Extents,
    image: &mut A,
    portion: &mut [u8],
) -> Result<(u64, Option<u64>), RunFault>
    requires { length portion.old ≡ PORTION }
    ensures read { IfOk result (λ read. IfSome (A.remaining image.old) (λ bytes. (read.0 ≡ length bytes)
        × (read.0 ≤ size_of contents.now → IsLeastOther contents.now bytes read.1))) }
    ensures cause { IfErr result (λ fault. fault ≡ AgainstRead) }
{
    let (mut count, mut first) = (0, None);
    while count <= MOST {
        let Ok(more) = image.read(portion) else {
            return Err(RunFault::AgainstRead);
        };
        if more == 0 {
            return Ok((count, first));
        }
        first = first_other(contents, first, count, &portion[..more]);
        count += more as u64;
    }
    Err(RunFault::AgainstRead)
}

// The least offset of a known byte that is another one in an image, as far as the export goes: that among the bytes before
// this offset, if there is one, or else that in these bytes, which the image has from there on.
fn first_other(contents: &Extents, first: Option<u64>, offset: u64, bytes: &[u8]) -> Option<u64>
    requires { offset + length bytes.now < 2 ^ 64 }
    ensures { (before : List ℕ) → length before ≡ offset → offset + length bytes.now ≤ size_of contents.now
        → IsLeastOther contents.now before first → IsLeastOther contents.now (before ++ bytes.now) result }
{
    if offset + bytes.len() as u64 > contents.size() {
        return first;
    }
    match first {
        Some(_) => first,
        None => contents.differs(offset, bytes),
    }
}

// How contents compare with an image of so many bytes; if these are no more than the export has, this is the least offset of
// a known byte that is another one there.
fn compared_with(contents: &Extents, count: u64, first: Option<u64>) -> Compared
    ensures { (bytes : List ℕ) → count ≡ length bytes
        → (count ≤ size_of contents.now → IsLeastOther contents.now bytes first)
        → IsComparison (held contents.now) bytes result }
{
    let size = contents.size();
    if count != size {
        return Compared::Sizes { image: count, size };
    }
    match first {
        Some(offset) => Compared::Differ { offset },
        None => {
            let known = known_count(contents);
            let unknown = size - known;
            Compared::Agree { known, unknown }
        }
    }
}

// How many bytes are known.
fn known_count(contents: &Extents) -> u64
    ensures counted { result ≡ count_by is_some (held contents.now) }
    ensures few { result ≤ size_of contents.now }
{
    let (mut at, mut count) = (0, 0);
    while at < contents.size() {
        let (known, end) = known_from(contents, at);
        count += known;
        at = end;
    }
    count
}

// How many bytes are known from an offset on to where the range there ends, and where that is.
fn known_from(contents: &Extents, at: u64) -> (u64, u64)
    requires { at < size_of contents.now }
    ensures behind { at < result.1 }
    ensures within { result.1 ≤ size_of contents.now }
    ensures few { result.0 ≤ result.1 - at }
    ensures counted { result.0 ≡ count_by is_some (held_from (byte_of contents.now) at (result.1 - at)) }
{
    let (kind, end) = contents.range_at(at);
    match kind {
        Kind::Unknown => (0, end),
        Kind::Zeroes | Kind::Bytes => (end - at, end),
    }
}
