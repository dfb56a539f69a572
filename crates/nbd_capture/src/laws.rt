//! What holds of the grammars of the texts, as contracts of functions that do nothing.

ghost use Rattle.std.specs.Prelude.{IfSome, length, ◌≤◌, ◌≡◌, ◌⊎◌, ◌++◌, ℕ, List};
ghost use Rattle.nbd_wire.specs.declared.entry.Entry.{Entry};
ghost use Rattle.nbd_export.specs.Held.{Held};
ghost use Rattle.nbd_capture.specs.{Contents.{IsContentsText, IsFirstBadContentsLine}, Capture.{Chunk, IsCaptureText, IsFirstBadCaptureLine}, Reading.{Reading, Reads, ReadsToEnd, Refuses}, Order.{IsOrderText, IsFirstBadOrderLine}};

/// A text has one reading as a capture at most.
pub fn one_capture_reading()
    ensures { (text : List ℕ) (a b : List Chunk) → IsCaptureText text a → IsCaptureText text b → a ≡ b }
{}

/// A text with a bad capture line has no reading as a capture.
pub fn no_capture_with_a_bad_line()
    ensures { (text : List ℕ) (n : ℕ) (chunks : List Chunk) → IsFirstBadCaptureLine text n →
        IsCaptureText text chunks → ⊥ }
{}

/// A text has one first bad capture line at most.
pub fn one_first_bad_capture_line()
    ensures { (text : List ℕ) (m n : ℕ) → IsFirstBadCaptureLine text m → IsFirstBadCaptureLine text n → m ≡ n }
{}

/// Chunks that were read in two steps are those of the first step and then those of the second.
pub fn steps_are_joined()
    ensures { (a b c : Reading) (xs ys : List Chunk) → Reads a b xs → Reads b c ys → Reads a c (xs ++ ys) }
{}

/// Where the text has a reading, the chunks that were read are its next ones, and the others are those of the rest.
pub fn chunks_read_are_the_next_ones()
    ensures { (old new : Reading) (chunks all : List Chunk) → Reads old new chunks → IfSome old.rest
        (λ text. IsCaptureText text all → (more : List Chunk) × (all ≡ chunks ++ more)
        × IfSome new.rest (λ rest. IsCaptureText rest more)) }
{}

/// The chunks that were read to the end are those of the text, and it has no more bytes than it may have.
pub fn chunks_read_to_the_end()
    ensures { (old new : Reading) (chunks : List Chunk) → ReadsToEnd old new chunks →
        IfSome old.rest (λ text. IsCaptureText text chunks × (length text ≤ old.room)) }
{}

/// A line that is refused after chunks that were read from the start is the first bad one of the text.
pub fn refused_line_is_the_first_bad_one()
    ensures { (start now after : Reading) (chunks : List Chunk) (n : ℕ) → start.lines ≡ 0 → Reads start now chunks →
        Refuses now after n → IfSome start.rest (λ text. IsFirstBadCaptureLine text n) }
{}

/// A text has one reading as an order at most.
pub fn one_order_reading()
    ensures { (text : List ℕ) (a b : List Entry) → IsOrderText text a → IsOrderText text b → a ≡ b }
{}

/// A text with a bad order line has no reading as an order.
pub fn no_order_with_a_bad_line()
    ensures { (text : List ℕ) (n : ℕ) (entries : List Entry) → IsFirstBadOrderLine text n →
        IsOrderText text entries → ⊥ }
{}

/// A text has one first bad order line at most.
pub fn one_first_bad_order_line()
    ensures { (text : List ℕ) (m n : ℕ) → IsFirstBadOrderLine text m → IsFirstBadOrderLine text n → m ≡ n }
{}

/// Each text has a reading as a capture, or a first bad capture line.
pub fn capture_or_bad_line()
    ensures { (text : List ℕ) → ((chunks : List Chunk) × IsCaptureText text chunks)
        ⊎ ((n : ℕ) × IsFirstBadCaptureLine text n) }
{}

/// Each text has a reading as an order, or a first bad order line.
pub fn order_or_bad_line()
    ensures { (text : List ℕ) → ((entries : List Entry) × IsOrderText text entries)
        ⊎ ((n : ℕ) × IsFirstBadOrderLine text n) }
{}

/// A text has one reading as contents at most.
pub fn one_contents_reading()
    ensures { (text : List ℕ) (a b : Held) → IsContentsText text a → IsContentsText text b → a ≡ b }
{}

/// A text with a bad contents line has no reading as contents.
pub fn no_contents_with_a_bad_line()
    ensures { (text : List ℕ) (n : ℕ) (bytes : Held) → IsFirstBadContentsLine text n →
        IsContentsText text bytes → ⊥ }
{}

/// A text has one first bad contents line at most.
pub fn one_first_bad_contents_line()
    ensures { (text : List ℕ) (m n : ℕ) → IsFirstBadContentsLine text m → IsFirstBadContentsLine text n → m ≡ n }
{}
