//! What holds of message lines, of scripts and of what is printed of captures, orders and contents, as contracts of functions that do nothing.

ghost use Rattle.std.specs.{Prelude.{◌≡◌, ◌⊎◌, ◌++◌, ◌<◌, ◌^◌, ◌↔◌, ◌∷◌, [], ℕ, List, codes, flat_map, length, map}, List.AllByRecursion};
ghost use Rattle.hex.specs.Hex.{IsBytes};
ghost use Rattle.nbd_wire.specs.{declared.{message.Message.Message, entry.Entry.Entry}, Prelude.IsSendable, codec.Fits.FitsItsHead};
ghost use Rattle.nbd_export.specs.{Extents.{byte_of, size_of}, Ranges.AreSameBelow, declared.extents.Extents.Extents, Held.{AreHeld, Held, held}};
ghost use Rattle.nbd_capture.specs.{Capture.{Chunk, IsCaptureText, chunk_line}, Contents.{IsContentsText, printed}, Lines.line_feed, Order.{EntryFits, IsOrderText, entry_text}};
ghost use Rattle.nbd_lines.specs.{Line.{IsMessageLine, message_line}, Script.{IsFirstBadScriptLine, IsScript, chunk_lines, made_chunk, message_lines}};

/// A line stands for one message at most.
pub fn one_message_of_a_line()
    ensures { (line : List ℕ) (a b : Message) → IsMessageLine line a → IsMessageLine line b → a ≡ b }
{}

/// A text has one reading as a script at most.
pub fn one_script_reading()
    ensures { (text : List ℕ) (a b : List Message) → IsScript text a → IsScript text b → a ≡ b }
{}

/// A text with a bad script line has no reading as a script.
pub fn no_script_with_a_bad_line()
    ensures { (text : List ℕ) (n : ℕ) (messages : List Message) → IsFirstBadScriptLine text n →
        IsScript text messages → ⊥ }
{}

/// A text has one first bad script line at most.
pub fn one_first_bad_script_line()
    ensures { (text : List ℕ) (m n : ℕ) → IsFirstBadScriptLine text m → IsFirstBadScriptLine text n → m ≡ n }
{}

/// Each text has a reading as a script, or a first bad script line.
pub fn script_or_bad_line()
    ensures { (text : List ℕ) → ((messages : List Message) × IsScript text messages)
        ⊎ ((n : ℕ) × IsFirstBadScriptLine text n) }
{}

/// The line that `append_line` prints of a message that can be sent stands for that message.
pub fn printed_lines_are_read()
    ensures { (m : Message) → IsSendable m → IsMessageLine (message_line m) m × FitsItsHead m }
{}

/// The lines that `show` writes of messages that can be sent are a script of these messages.
pub fn shown_messages_are_a_script()
    ensures { (messages : List Message) → AllByRecursion IsSendable messages →
        IsScript (message_lines messages) messages }
{}

/// So are they with a line `ok` after them.
pub fn shown_messages_and_ok_are_a_script()
    ensures { (messages : List Message) → AllByRecursion IsSendable messages →
        IsScript (message_lines messages ++ codes "ok\n") messages }
{}

/// The lines that `make` writes of messages that can be sent are a capture: a chunk for each message, its
/// sender's, with all of its bytes.
pub fn made_lines_are_a_capture()
    ensures { (messages : List Message) → AllByRecursion IsSendable messages →
        IsCaptureText (chunk_lines messages) (map made_chunk messages) }
{
    written_chunks_are_read();
}

/// The lines that `write_chunk` writes are read as their chunks.
pub fn written_chunks_are_read()
    ensures { (chunks : List Chunk) → AllByRecursion (λ c. IsBytes c.bytes) chunks
        → IsCaptureText (flat_map (λ c. chunk_line c.side c.bytes) chunks) chunks }
{}

/// Entries as `{}` prints their numbers, one entry a line and one space between two numbers, are read as these entries.
pub fn printed_entries_are_read()
    ensures { (entries : List Entry) → AllByRecursion EntryFits entries
        → IsOrderText (flat_map (λ e. entry_text e ++ line_feed ∷ []) entries) entries }
{}

/// What is printed of contents of a size below 2^63 is read as the same contents.
pub fn printed_contents_are_read()
    ensures { (bytes : Held) → length bytes < 2 ^ 63 → AreHeld bytes → IsContentsText (printed bytes) bytes }
{}

/// Two texts of one contents are printed alike, and texts of different contents are not.
pub fn texts_of_one_contents_print_alike()
    ensures { (s t : List ℕ) (a b : Held) → AreHeld a → AreHeld b → IsContentsText s a → IsContentsText t b
        → (printed a ≡ printed b) ↔ (a ≡ b) }
{}

/// Where two contents have the same size and the same bytes, what they print is the same, whatever their ranges.
pub fn same_contents_print_alike()
    ensures { (e f : Extents) → size_of e ≡ size_of f → AreSameBelow (size_of e) (byte_of e) (byte_of f)
        → printed (held e) ≡ printed (held f) }
{}
