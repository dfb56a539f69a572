//! What is kept of what the export held when the session began.

ghost use Rattle.std.specs.Prelude.{◌≡◌, ◌⊎◌, ◌<◌, ℕ, Option, IfErr, IfOk, IfSome, Ok, OnOk, length};
ghost use Rattle.nbd_files.specs.{declared.{fault.RunFault.TheVariants.{ImageRead, Memory}, input.Text.TheVariants.Longer}, Starts.{IsContents, IsStartCause, IsStartWellFormed, IsStartText, IsWithinLimit, OfStart, image_of}, Texts.IsText};
ghost use Rattle.nbd_wire.specs.protocol.Explains as definitions;
ghost use Rattle.nbd_tool.specs.{Beginnings.{IsBeginningOf, room_in}, Runs.IsContentsCause};
ghost use Rattle.nbd_capture.specs.Contents.{IsContentsText};
ghost use Rattle.nbd_export.specs.Held.{Held, held};

use nbd_capture::parse_contents;
use nbd_export::{Extents, Start};
use nbd_files::{
    Measured, READ_LIMIT, ReadFault, RunFault, StartFrom, Text, read_whole, read_within,
};
use nbd_session::{SessionFault, Transcript};
use std::alloc::{AllocError, Global};
use std::io::Read;
use std::rc::Rc;

/// What the export held at first, as far as a verdict needs it.
#[derive(Drop)]
pub enum Beginning {
    /// All that was given.
    Whole(Start),
    /// An image of so many bytes, for which there was no room: they were counted, and not kept.
    Longer(u64),
}

/// How many bytes of an image the verdict on a session needs: as many as the export has, and none where the session was
/// refused or did not reach transmission.
pub fn room_of(finished: &Result<Transcript, SessionFault>) -> u64
    ensures { result ≡ room_in finished.now }
{
    match finished {
        Ok(transcript) => match transcript.export() {
            Some((size, _)) => size,
            None => 0,
        },
        Err(_) => 0,
    }
}

/// Reads an image to its end, if there is one, and keeps it where it has no more than `room` bytes. One that is known to have more
/// is not read. A contents text is read to its end, whatever its size says.
pub fn read_start<I: Measured + Drop>(
    alloc: Global,
    start: StartFrom<I>,
    room: u64,
) -> Result<Beginning, RunFault>
    ensures read { IfOk result (λ beginning. OfStart I.remaining start (λ initial. IsBeginningOf initial room beginning)) }
    ensures limited { OnOk result (IsStartWellFormed I.remaining start) }
    ensures cause { IfErr result (IsStartCause I.remaining start) }
{
    match start {
        StartFrom::Unknown => Ok(Beginning::Whole(Start::Unknown)),
        StartFrom::Zeroes => Ok(Beginning::Whole(Start::Zeroes)),
        StartFrom::Image(mut image) => begin_image(alloc, &mut image, room),
        StartFrom::Contents(mut text) => begin_contents(alloc, &mut text),
    }
}

// What is kept of an image.
fn begin_image<I: Measured>(alloc: Global, image: &mut I, room: u64) -> Result<Beginning, RunFault>
    ensures read { IfOk result (IsBeginningOf (image_of (I.remaining image.old)) room) }
    ensures limited { OnOk result (IsWithinLimit (I.remaining image.old)) }
    ensures cause { IfErr result (λ fault. (fault ≡ ImageRead) ⊎ (fault ≡ Memory)) }
{
    match read_image(alloc, image, room)? {
        Text::Whole(bytes) => Ok(Beginning::Whole(Start::Image(shared(alloc, bytes)?))),
        Text::Longer(count) => Ok(Beginning::Longer(count)),
    }
}

// What is kept of a contents text.
fn begin_contents<I: Read>(alloc: Global, text: &mut I) -> Result<Beginning, RunFault>
    ensures read { IfOk result (λ beginning. (initial : Option definitions.Start) → IsStartText (I.remaining text.old) initial →
        (room : ℕ) → IsBeginningOf initial room beginning) }
    ensures limited { OnOk result (IsWithinLimit (I.remaining text.old) × IsContents (I.remaining text.old)) }
    ensures cause { IfErr result (IsContentsCause (I.remaining text.old)) }
{
    let contents = read_contents(alloc, text)?;
    Ok(Beginning::Whole(Start::Contents(shared_contents(alloc, contents)?)))
}

// Contents, which others may share.
fn shared_contents(alloc: Global, contents: Extents) -> Result<Rc<Extents>, AllocError>
    ensures { IfOk result (λ rc. rc.value ≡ contents) }
{
    Ok(Rc::new(alloc, contents)?)
}

// What a contents text says.
fn read_contents<I: Read>(alloc: Global, text: &mut I) -> Result<Extents, RunFault>
    ensures text { IfOk result (λ contents. IfSome (I.remaining text.old)
        (λ bytes. (read : Held) → IsContentsText bytes read → held contents ≡ read)) }
    ensures limited { OnOk result (IsWithinLimit (I.remaining text.old)) }
    ensures formed { OnOk result (IsContents (I.remaining text.old)) }
    ensures cause { IfErr result (IsContentsCause (I.remaining text.old)) }
{
    match read_whole(alloc, text) {
        Ok(text) => Ok(parse_contents(alloc, text.as_slice())?),
        Err(ReadFault::Read) => Err(RunFault::ContentsRead),
        Err(ReadFault::Memory) => Err(RunFault::Memory),
    }
}

// The bytes of an image, which others may share.
fn shared(alloc: Global, bytes: Vec<u8>) -> Result<Rc<Vec<u8>>, AllocError>
    ensures { IfOk result (λ image. image.value.items ≡ bytes.items) }
{
    Ok(Rc::new(alloc, bytes)?)
}

// The bytes of an image, or how many they are.
fn read_image<I: Measured>(alloc: Global, image: &mut I, room: u64) -> Result<Text, RunFault>
    ensures read { IfOk result (λ text. IfSome (I.remaining image.old) (IsText room text)) }
    ensures longer { (n : ℕ) → result ≡ Ok (Longer n) → room < n }
    ensures limited { OnOk result (IsWithinLimit (I.remaining image.old)) }
    ensures cause { IfErr result (λ fault. (fault ≡ ImageRead) ⊎ (fault ≡ Memory)) }
{
    match image.bytes_left() {
        Some(count) if count > READ_LIMIT as u64 => Err(RunFault::ImageRead),
        Some(count) if count > room => Ok(Text::Longer(count)),
        _ => match read_within(alloc, image, room) {
            Ok(text) => Ok(text),
            Err(ReadFault::Read) => Err(RunFault::ImageRead),
            Err(ReadFault::Memory) => Err(RunFault::Memory),
        },
    }
}
