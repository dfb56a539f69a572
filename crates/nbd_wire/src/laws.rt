//! Laws of the specification: each is the contract of a function that does nothing.

ghost use Rattle.std.specs.Prelude.{◌≡◌, ◌≤◌, ◌↔◌, ℕ, List, IsTrue, length, drop, map, take};
ghost use Rattle.byteorder.specs.Endian.{big_bytes, big_number};
ghost use Rattle.nbd_wire.specs.{protocol.{Encoding.{AreBytes, enc, tail}, Forms.{HasContentForm, HasFailureForm, HasGoForm, HasInfoForm, HasListedForm}, Payloads.{content_of, failure_of, info_of, is_go, is_listed}, Sendable.IsSendable}, codec.{Fits.FitsItsHead, Contents.Reads, Heads.{IsHeadOf, head_length}}, declared.message.Message.Message};
ghost use Rattle.nbd_wire.specs.Names.{chunk_flag_names, chunk_names, client_flag_names, command_flag_names, command_names, error_names, handshake_flag_names, info_names, option_names, reply_names, transmission_flag_names};
ghost use Rattle.nbd_wire.specs.Numbers.{ChunksAreLiteral, CommandFlagsAreLiteral, CommandsAreLiteral, HandshakeFlagsAreLiteral, InfosAreLiteral, LengthsAreLiteral, LimitsAreLiteral, MagicsAreLiteral, OptionsAreLiteral, ReplyKindsAreLiteral, StatesAreLiteral, TransmissionFlagsAreLiteral};
ghost use Rattle.nbd_wire.specs.declared.flag_names.TheConstants as flag_names;
ghost use Rattle.nbd_wire.specs.declared.names.TheConstants as names;

/// A number that was read and is written back gives the bytes that it was read from.
pub fn number_gives_its_bytes()
    ensures { (n : ℕ) (bytes : List ℕ) → n ≤ length bytes → AreBytes bytes →
        big_bytes n (big_number n bytes) ≡ take n bytes }
{}

/// The specification's `info_of` gives exactly what has the form of an INFO payload.
pub fn info_of_is_exact()
    ensures { (bytes : List ℕ) → AreBytes bytes → Reads (info_of bytes) (λ info. HasInfoForm info bytes) }
{}

/// The specification's `is_listed` states exactly whether bytes have the form of a SERVER payload.
pub fn is_listed_is_exact()
    ensures { (bytes : List ℕ) → AreBytes bytes → IsTrue (is_listed bytes) ↔ ((name : List ℕ) × (text : List ℕ)
        × HasListedForm name text bytes) }
{}

/// The specification's `is_go` states exactly whether bytes have the form of the data of INFO or GO.
pub fn is_go_is_exact()
    ensures { (bytes : List ℕ) → AreBytes bytes → IsTrue (is_go bytes) ↔ ((name : List ℕ) × (count : ℕ)
        × HasGoForm name count bytes) }
{}

/// The specification's `content_of` gives exactly what has the form of a content chunk's payload.
pub fn content_of_is_exact()
    ensures { (kind : ℕ) (bytes : List ℕ) → AreBytes bytes →
        Reads (content_of kind bytes) (λ piece. HasContentForm kind piece bytes) }
{}

/// The specification's `failure_of` gives exactly what has the form of an error chunk's payload.
pub fn failure_of_is_exact()
    ensures { (kind : ℕ) (bytes : List ℕ) → AreBytes bytes →
        Reads (failure_of kind bytes) (λ failure. HasFailureForm kind failure bytes) }
{}

/// The encoding of each message that may be sent begins with a head, which is one with the
/// message's own fields and no others, and goes on with the payload or padding.
///
/// So the reader of that head, given the first bytes of what `append` added, answers these fields.
pub fn encoding_is_read_back()
    ensures { (m : Message) → IsSendable m → IsHeadOf m (take (head_length m) (enc m))
        × (drop (head_length m) (enc m) ≡ tail m) }
{}

/// Each message that may be sent can be given to `append`.
pub fn sendable_messages_fit()
    ensures { (m : Message) → IsSendable m → FitsItsHead m }
{}

/// Each constant by whose name the definitions speak of a number of the protocol is that number of
/// proto.md, and the limit is the one that this project sets.
pub fn numbers_are_literal()
    ensures magics { MagicsAreLiteral }
    ensures handshake { HandshakeFlagsAreLiteral }
    ensures options { OptionsAreLiteral }
    ensures reply_kinds { ReplyKindsAreLiteral }
    ensures infos { InfosAreLiteral }
    ensures transmission { TransmissionFlagsAreLiteral }
    ensures commands { CommandsAreLiteral }
    ensures command_flags { CommandFlagsAreLiteral }
    ensures chunks { ChunksAreLiteral }
    ensures states { StatesAreLiteral }
    ensures lengths { LengthsAreLiteral }
    ensures limits { LimitsAreLiteral }
{}

/// Each table of names has these numbers or masks with these names, and no others. The names are those of proto.md, some
/// without the front that all names of their kind have.
pub fn names_are_literal()
    ensures commands { map (λ n. (n.0, n.1.now)) names.COMMANDS.now ≡ command_names }
    ensures options { map (λ n. (n.0, n.1.now)) names.OPTIONS.now ≡ option_names }
    ensures replies { map (λ n. (n.0, n.1.now)) names.REPLIES.now ≡ reply_names }
    ensures infos { map (λ n. (n.0, n.1.now)) names.INFOS.now ≡ info_names }
    ensures chunks { map (λ n. (n.0, n.1.now)) names.CHUNKS.now ≡ chunk_names }
    ensures errors { map (λ n. (n.0, n.1.now)) names.ERRORS.now ≡ error_names }
    ensures handshake { map (λ n. (n.0, n.1.now)) flag_names.HANDSHAKE.now ≡ handshake_flag_names }
    ensures client { map (λ n. (n.0, n.1.now)) flag_names.CLIENT.now ≡ client_flag_names }
    ensures transmission { map (λ n. (n.0, n.1.now)) flag_names.TRANSMISSION.now ≡ transmission_flag_names }
    ensures command_flags { map (λ n. (n.0, n.1.now)) flag_names.COMMAND.now ≡ command_flag_names }
    ensures chunk_flags { map (λ n. (n.0, n.1.now)) flag_names.CHUNK.now ≡ chunk_flag_names }
{}
