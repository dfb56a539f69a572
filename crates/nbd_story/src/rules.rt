//! The rules that a session or an order can break, each in a sentence.

ghost use Rattle.std.specs.Prelude.{◌≡◌};
ghost use Rattle.nbd_story.specs.{Breakers.breaker_of, declared.rules.Breaker.TheVariants.Order};

use nbd_wire::{OrderFault, WireFault};

/// Who broke a rule.
#[derive(Clone, Copy, Drop)]
pub enum Breaker {
    Client,
    Server,
    /// The side that sent the byte.
    Sender,
    /// Nobody: the session is allowed and not followed, or its recording ended.
    Nobody,
    /// The order that was given.
    Order,
    /// The image that was given.
    Image,
}

/// A rule, as it should be kept.
#[derive(Clone, Copy)]
pub struct Rule {
    pub breaker: Breaker,
    pub sentence: &'static str,
    /// The section of proto.md that has it; this project's choices are in docs/PROFILE.md.
    pub section: &'static str,
}

/// The section of a rule that proto.md leaves open.
const CHOICE: &str = "this project's choice, docs/PROFILE.md";

/// The rules of the wire faults, in the order of their declaration: a fault, its rule, and below that where it stands, if it is no choice.
const WIRE: &str = "\
BadMagic: A message begins with the magic number of its kind.
proto.md, \"Newstyle negotiation\", \"Fixed newstyle negotiation\", \"Request message\", \"Simple reply message\", \"Structured reply chunk message\"

NotFixedNewstyle: The greeting and the client's flags say that their senders speak fixed newstyle.
proto.md, \"Handshake flags\", \"Client flags\"

BadClientFlags: The client sets only flags that are known and that the server offered.
proto.md, \"Client flags\"

OutOfTurn: In the negotiation each side waits for its turn; after an answered ABORT nobody sends, and after DISC the client does not.
proto.md, \"Fixed newstyle negotiation\", \"Termination of the session during option haggling\", \"Request types\"

WrongOption: An option reply repeats the number of the option that the client chose.
proto.md, \"Fixed newstyle negotiation\"

BadReplyKind: An option is answered only by the kinds of reply that it takes.
proto.md, \"Option types\"

OutOfProfile: The server granted an option that nbdcheck does not follow, or an extended header says more than it follows.

BadReplyPayload: The data of an option reply has the form of its kind, an info on the export has HAS_FLAGS, block sizes are such as a server may announce, and each selected context has an id of its own.
proto.md, \"Option reply types\", \"Transmission flags\", \"Size constraints\", \"Metadata querying\"

MissingExportInfo: INFO and GO are acknowledged only after an info on the export.
proto.md, \"Option types\"

BadExport: The answer to EXPORT_NAME has HAS_FLAGS, and its padding is 124 zeroes.
proto.md, \"Transmission flags\", \"Newstyle negotiation\"

ExportTooLarge: The export has more than 9223372036854775807 bytes (2^63 - 1), the most that nbdcheck follows.

CookieInUse: A request has the cookie of no request that is outstanding.
proto.md, \"Transmission\"

UnknownCookie: A reply has the cookie of an outstanding request, all of whose bytes had come before the reply began.
proto.md, \"Transmission\"

SimpleForbidden: With structured replies a READ is answered by chunks, and the success of a BLOCK_STATUS; so is a request that has received one.
proto.md, \"Transmission\", \"Simple reply message\", \"Metadata querying\", \"Request types\"

ChunkForbidden: A chunk is sent only where structured replies were negotiated.
proto.md, \"Structured reply chunk message\"

BadChunk: A chunk is of a known type, and its payload has the form of this type; one of type NONE has DONE.
proto.md, \"Structured reply types\"

BadContent: Content answers a READ, lies in its range and shares no byte with content before it, and a READ with DF gets one piece; an error's offset lies in the range; a status answers a BLOCK_STATUS, is the only one of a metadata context in force that this asks, and its last extent alone may pass the range.
proto.md, \"Structured reply types\", \"Request types\"

IncompleteRead: The reply to a READ that succeeds has every byte of its range.
proto.md, \"Request types\"

SuccessOfImproper: An option or a request that the client should not have sent is answered by an error, unless block sizes alone forbid it.

BadDisconnect: DISC has neither an offset nor a length.
proto.md, \"Request types\"

IncompleteStatus: The reply to a BLOCK_STATUS that succeeds has the status of each metadata context in force that it asks.
proto.md, \"Request types\"

BadReplyOffset: A chunk with an extended header has the offset of the request that it answers.

Unfinished: The capture has each message that began to its last byte.";

/// The same of the faults of an order.
const ORDER: &str = "\
NoSuchRequest: Each entry of an order names a request by its number, counted from 1.

Twice: A request is served either atomically, by one entry, or in parts, each by an entry of its own.

Late: A request that had not come whole when the reply to another one began was served after that one.

Missing: A request to which a reply began was served.

BadPart: A part has a byte or more, lies in the request's range and in the export, and shares no offset with an earlier part of the request.

NotCovered: The parts of a request to which a reply began cover all of its range that lies in the export.";

// The rule in this row of a table, from 0.
fn in_row(table: &'static str, row: usize, breaker: Breaker) -> Rule
    ensures { result.breaker ≡ breaker }
{
    let rule = table.split("\n\n").nth(row).unwrap_or("");
    let (front, section) = rule.split_once("\n").unwrap_or((rule, CHOICE));
    let (_, sentence) = front.split_once(": ").unwrap_or(("", front));
    Rule {
        breaker,
        sentence,
        section,
    }
}

/// The rule that a wire fault broke.
pub fn wire_rule(fault: WireFault) -> Rule
    ensures { result.breaker ≡ breaker_of fault }
{
    in_row(WIRE, fault as usize, breaker_of(fault))
}

// Who broke the rule of a wire fault.
fn breaker_of(fault: WireFault) -> Breaker
    ensures { result ≡ breaker_of fault }
{
    match fault {
        WireFault::BadMagic | WireFault::OutOfTurn => Breaker::Sender,
        WireFault::BadClientFlags | WireFault::CookieInUse | WireFault::BadDisconnect =>
            Breaker::Client,
        WireFault::NotFixedNewstyle
        | WireFault::OutOfProfile
        | WireFault::ExportTooLarge
        | WireFault::Unfinished => Breaker::Nobody,
        _ => Breaker::Server,
    }
}

/// The rule that an order with this fault does not keep.
pub fn order_rule(fault: OrderFault) -> Rule
    ensures { result.breaker ≡ Order }
{
    in_row(ORDER, fault as usize, Breaker::Order)
}

/// An image that is no start of the export.
pub const IMAGE_RULE: Rule = Rule {
    breaker: Breaker::Image,
    sentence: "An image has as many bytes as the export.",
    section: CHOICE,
};

/// Contents that are no start of the export.
pub const CONTENTS_RULE: Rule = Rule {
    sentence: "A text of contents has the size of the export.",
    ..IMAGE_RULE
};

/// A READ with a wrong byte.
pub const CONTENT_RULE: Rule = Rule {
    breaker: Breaker::Server,
    sentence: "Each byte of a READ that succeeded is the byte that the export held when the READ was served.",
    section: "proto.md, \"Request types\"",
};

/// A BLOCK_STATUS that calls a byte zero which is not zero.
pub const STATUS_RULE: Rule = Rule {
    breaker: Breaker::Server,
    sentence: "What the reply to a BLOCK_STATUS calls zero in base:allocation reads as zeroes when the BLOCK_STATUS is served.",
    section: "proto.md, \"Metadata querying\"",
};
