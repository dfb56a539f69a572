//! The rules: a name, a level, who is bound, and what is said of a breach.

/// What a line says.
#[derive(Clone, Copy, Drop)]
pub enum Level {
    /// A MUST of proto.md is broken. A right client or server never breaks one.
    Must,
    /// A SHOULD is not kept; a right program may have its reasons.
    Should,
    /// Neither: what an author may want to look at.
    Hint,
}

impl Level {
    /// The one that a word names, if it names one.
    pub fn of(word: &str) -> Option<Level> {
        match word {
            "must" => Some(Level::Must),
            "should" => Some(Level::Should),
            "hint" => Some(Level::Hint),
            _ => None,
        }
    }

    /// Whether this level stands among those that are told where `least` is the last one.
    pub fn is_told(self, least: Level) -> bool {
        self as u8 <= least as u8
    }
}

/// The names of the rules, in the order of their rows.
#[derive(Clone, Copy)]
pub enum Name {
    HandshakeFlags,
    StringWithNul,
    StringNotUtf8,
    StringTooLong,
    OptionWithData,
    OptionDataMalformed,
    InfoAskedTwice,
    QueryNamespace,
    SetContextWithoutStructuredReplies,
    OptionAfterShutdown,
    AbortNotAcknowledged,
    StarttlsError,
    TlsMode,
    BaselineUnsupported,
    BlockSizeReqdThoughAsked,
    LargestBelowPreferred,
    DfWithoutStructuredReplies,
    FastZeroWithoutWriteZeroes,
    InfoDiffersInGo,
    ContextName,
    ContextNamespace,
    ContextNotAsked,
    BaseWildcard,
    ListContextError,
    DiscWithFlags,
    UnknownError,
    EnotsupWithoutFastZero,
    ChunkOverLargest,
    ContentOverError,
    ContentBesideEoverflow,
    EoverflowToSmallDfRead,
    ExtentOffBlockSize,
    ErrorOffsetToFlush,
    WriteWithoutPayloadLen,
    StringOver256,
    StateOptionRepeated,
    StarttlsLate,
    AbortWithData,
    ExportNameWithoutGo,
    ListContextWithoutStructuredReplies,
    SetContextGrantedEarly,
    ErrorOfBadOption,
    AnswerAfterShutdown,
    InfoBeforeUnknown,
    InfoToldTwice,
    BlockSizeReqdWithoutSizes,
    BlockSizeReqdWithDefaults,
    SizeOffBlockSize,
    LargestBelow1m,
    ListContextId,
    TooBigWithoutQueries,
    ContextByEmptyLeaf,
    Length0,
    FuaOnReading,
    DiscWithRequestsOutstanding,
    SimpleError,
    ErrorAfterEshutdown,
    ErrorOfImproper,
    Eoverflow,
    Enotsup,
    Enomem,
    ErrorNotAlone,
    ErrorOffsetRepeated,
    ChunkOff512,
    ExtentOff512,
    ExtentsAlike,
    TooManyExtents,
    AllocationFlags,
    UnknownChunkFlag,
    RequestAfterEshutdown,
    RequestUnaligned,
    OptionRepeated,
    NeedlessNone,
    EndedWithoutDisconnect,
    AbortUnanswered,
    DiscUnanswered,
}

/// How many rules there are.
pub const COUNT: usize = 76;

/// What the columns of a rule's first line have; the one between level and name has who is bound.
pub const LEVEL: usize = 0;

pub const NAME: usize = 2;

/// The lines of proto.md (nbd 3.26.1) that have it.
pub const LINES: usize = 3;

/// The section that has them.
pub const SECTION: usize = 4;

/// The rules: those of level must, then should, then hint. At one place of a capture they are told in this order. Behind a rule's
/// first line stands what is said of a breach, as `Line::sentence` reads it.
const RULES: &str = "\
must | server | handshake-flags | 1064 | Handshake flags
the greeting has flags {flags}; only bits 0 and 1 are flags

must | both | string-with-nul | 37, 951, 1465 | Conventions
{string} has a NUL as its byte {}

must | both | string-not-utf8 | 35, 951, 1465, 1643 | Conventions
{string} is no UTF-8 from its byte {} on

must | both | string-too-long | 38, 951, 1465, 1903 | Conventions
{string} has {} bytes, more than 4096

must | client | option-with-data | 1217, 1230, 1365 | Option types
{option} has {} bytes of data

must | client | option-data-malformed | 1268, 1400, 1491 | Option types
the {} bytes of data of {option} have not its form

must | client | info-asked-twice | 1276 | Option types
{option} asks for info {} twice

must | client | query-namespace | 1409, 1499 | Option types
query {}, {name}, does not begin with a namespace and a colon

must | client | set-context-without-structured-replies | 945, 1384, 1480 | Option types
SET_META_CONTEXT is sent before structured replies are negotiated

must | client | option-after-shutdown | 278 | Termination of the session during option haggling
{option} is sent after ERR_SHUTDOWN at byte {}; ABORT is due

must | server | abort-not-acknowledged | 1195 | Option types
ABORT is answered by {reply}, not by ACK

must | server | starttls-error | 560, 564, 1231 | NOTLS mode
STARTTLS is answered by {reply}, which is no error for it

must | server | tls-mode | 545, 564, 586, 590, 593, 621, 1307 | Server-side requirements
{option} was answered by {reply}, and at byte {} {option} was answered by {reply}: no TLS mode allows both

must | server | baseline-unsupported | 2409-2422 | Baseline
{option} is answered by ERR_UNSUP; every server implements it

must | server | block-size-reqd-though-asked | 1313 | Option types
{option} asked for BLOCK_SIZE and is answered by ERR_BLOCK_SIZE_REQD

must | server | largest-below-preferred | 838 | Size constraints
the maximum payload {} is below the preferred block size {}

must | server | df-without-structured-replies | 1123 | Transmission flags
the flags {flags} have SEND_DF, and structured replies are not negotiated

must | server | fast-zero-without-write-zeroes | 1145 | Transmission flags
the flags {flags} have SEND_FAST_ZERO, and not SEND_WRITE_ZEROES

must | server | info-differs-in-go | 1342 | Option types
info {info} differs from the one that INFO got at byte {}
info {info} is none of those that INFO got at byte {}
info {info}, which INFO got at byte {}, does not come

must | server | context-name | 947, 1464 | Metadata querying
the context {name} has no namespace and colon

must | server | context-namespace | 954 | Metadata querying
the context {name} is of the namespace {other}, which proto.md (nbd 3.26.1) does not register

must | server | context-not-asked | 991, 1506 | Option types
the context {name} is selected by none of the queries, {queries}

must | server | base-wildcard | 992 | The base: metadata namespace
LIST_META_CONTEXT for base: at byte {} does not tell {name}, which {option} told

must | server | list-context-error | 1420 | Option types
a malformed LIST_META_CONTEXT is answered by {reply}, not by ERR_INVALID

must | client | disc-with-flags | 1718 | Command flags
DISC has command flags {flags}

must | server | unknown-error | 2310 | Error values
{request} fails by error {}, which is none of the eight

must | server | enotsup-without-fast-zero | 2176 | Request types
{request} without FAST_ZERO fails by ENOTSUP

must | server | chunk-over-largest | 1791 | Structured reply types
a chunk to {request} carries {} bytes, the maximum payload is {}

must | server | content-over-error | 1811, 1827, 1988, 2030 | Structured reply types
content at {} to {} of {request} covers offset {}, whose error came before

must | server | content-beside-eoverflow | 2052 | Request types
{request} with DF gets content and EOVERFLOW

must | server | eoverflow-to-small-df-read | 2052 | Request types
{request} of {} bytes with DF fails by EOVERFLOW; up to 65536 are served unfragmented

must | server | extent-off-block-size | 2270 | Request types
extent {} of a status of {request} has {} bytes, no multiple of the minimum block size {}

must | server | error-offset-to-flush | 1925 | Structured reply types
{request} gets an ERROR_OFFSET chunk

should | client | write-without-payload-len | extension EXTENDED_HEADERS | Experimental extensions
{request} has an extended header and not PAYLOAD_LEN

should | both | string-over-256 | 37 | Conventions
{string} has {} bytes, more than 256

should | client | state-option-repeated | 213 | Fixed newstyle negotiation
{option} is sent again after its ACK

should | client | starttls-late | 1240 | Option types
STARTTLS is sent after {option} at byte {}

should | client | abort-with-data | 1197 | Option types
ABORT has {} bytes of data

should | client | export-name-without-go | 1187 | Option types
EXPORT_NAME is used, and no GO or INFO was refused before

should | client | list-context-without-structured-replies | 1396 | Option types
LIST_META_CONTEXT is sent before structured replies are negotiated

should | server | set-context-granted-early | 1482 | Option types
SET_META_CONTEXT is granted before structured replies are negotiated

should | server | error-of-bad-option | 1218, 1366, 1482 | Option types
{option} with data is answered by {reply}, not by ERR_INVALID
{option} before structured replies is answered by {reply}, not by ERR_INVALID

should | server | answer-after-shutdown | 275 | Termination of the session during option haggling
{option} is answered by {reply} after ERR_SHUTDOWN at byte {}

should | server | info-before-unknown | 1303 | Option types
ERR_UNKNOWN follows {} infos

should | server | info-told-twice | 1561 | Option reply types
{option} is answered by info {info} more than once

should | server | block-size-reqd-without-sizes | 1319 | Option types
ERR_BLOCK_SIZE_REQD comes without an info BLOCK_SIZE before it

should | server | block-size-reqd-with-defaults | 800, 1316 | Option types
ERR_BLOCK_SIZE_REQD comes though the sizes {}, {}, {} are the default ones

should | server | size-off-block-size | 822 | Size constraints
the export's {} bytes are no multiple of the minimum block size {}

should | server | largest-below-1m | 839 | Size constraints
the maximum payload {} is below 1048576, and the export has {} bytes

should | server | list-context-id | 1469 | Option types
LIST_META_CONTEXT tells {name} with id {}, not 0

should | server | too-big-without-queries | 1443 | Option types
LIST_META_CONTEXT without queries is answered by ERR_TOO_BIG

should | server | context-by-empty-leaf | 973 | Metadata querying
the context {name} is selected by a query without leaf-name, {other}

should | client | length-0 | 1953, 2061, 2104, 2153, 2228 | Request types
{request} has length 0

should | client | fua-on-reading | 1725 | Command flags
{request} has FUA, and writes nothing
DISC has FUA, and writes nothing

should | client | disc-with-requests-outstanding | 461 | Terminating the transmission phase
DISC is sent with {} requests outstanding

should | server | simple-error | 398, 2276 | Structured reply chunk message
{request} fails by a simple reply, {error}; a chunk could carry a message

should | server | error-after-eshutdown | 455 | Terminating the transmission phase
{request} fails by {error} after ESHUTDOWN at byte {}

should | server | error-of-improper | 882, 939, 2191, 2221, 2222, 2285, 2326-2333, 2344-2349 | Error values
{request}, an unknown command, fails by {error}, not by EINVAL
{request}, without a selected context, fails by {error}, not by EINVAL
{request}, past the end, fails by {error}, not by EINVAL
{request}, past the end, fails by {error}, not by ENOSPC or EINVAL
{request}, a read-only export, fails by {error}, not by EPERM
{request}, with flags that are not for it, fails by {error}, not by EINVAL
{request}, not aligned to the minimum block size, fails by {error}, not by EINVAL

should | server | eoverflow | 2179, 2335 | Error values
{request} of {} bytes fails by EOVERFLOW, which is not for it

should | server | enotsup | 2189, 2340 | Error values
{request} fails by ENOTSUP, which is for WRITE_ZEROES
{request} fails by ENOTSUP, and the export has not SEND_FAST_ZERO

should | server | enomem | 2354 | Error values
{request} fails by ENOMEM

should | server | error-not-alone | 1902, 2023, 2032 | Structured reply types
an ERROR chunk is not the only error chunk of the reply to {request}

should | server | error-offset-repeated | 1922 | Structured reply types
the reply to {request} names an error at offset {} twice
the reply to {request} names errors at offsets {} and {}, within one chunk of content

should | server | chunk-off-512 | 1985 | Request types
the reply to {request} is cut at offset {}, no multiple of 512

should | server | extent-off-512 | 2264 | Request types
extent {} of a status of {request} ends at offset {}, no multiple of 512

should | server | extents-alike | 2261 | Request types
extents {} and {} of a status of {request} both have flags {}

should | server | too-many-extents | 1869, 2256 | Structured reply types
a status of {request} has {} extents, more than 1048576

should | server | allocation-flags | 1037 | base:allocation metadata context
an extent of base:allocation has flags {}; bits above 1 are reserved

hint | server | unknown-chunk-flag | 1778 | Structured reply flags
a chunk to {request} has flags {flags}; only a mere hint may have other bits than DONE

hint | client | request-after-eshutdown | 457 | Terminating the transmission phase
{request} comes after ESHUTDOWN at byte {}; DISC is due once the client has read it

hint | client | request-unaligned | 792, 879 | Size constraints
{request}, offset {}, length {}, is not aligned to {}, and no sizes were announced
{request}, offset {}, length {}, is not aligned to {}, the preferred block size
{request}, offset {}, length {}, is longer than {}, and no sizes were announced

hint | client | option-repeated | none | Option types
{option} was granted with the same data at byte {}

hint | server | needless-none | 410 | Structured reply chunk message
NONE ends the reply to {request}; DONE on the chunk before it would do, if no error could come

hint | client | ended-without-disconnect | 268, 463 | Terminating the transmission phase
the capture ends without DISC, {} requests outstanding
the capture ends in the negotiation without ABORT

hint | server | abort-unanswered | 1195, 1202-1207 | Option types
the capture ends behind ABORT, and no ACK came

hint | server | disc-unanswered | 2065, 2074 | Request types
the capture ends behind DISC, and {} requests have not their whole reply";

/// A rule, as it stands in the table.
#[derive(Clone, Copy)]
pub struct Rule {
    text: &'static str,
}

impl Rule {
    /// The one in this row, from 0.
    pub fn in_row(row: usize) -> Rule {
        Rule {
            text: part(RULES, "\n\n", row),
        }
    }

    /// What stands in a column of its first line.
    pub fn column(self, number: usize) -> &'static str {
        part(part(self.text, "\n", 0), " | ", number)
    }

    /// The sentence with this number, from 0.
    pub fn sentence(self, number: usize) -> &'static str {
        part(self.text, "\n", number.saturating_add(1))
    }

    pub fn level(self) -> Level {
        Level::of(self.column(LEVEL)).unwrap_or(Level::Hint)
    }
}

// The part with this number, from 0, of what a separator parts.
fn part(text: &'static str, separator: &str, number: usize) -> &'static str {
    text.split(separator).nth(number).unwrap_or("")
}

/// The row of the rule with this name, from 0, if there is one.
pub fn rule_named(name: &str) -> Option<usize> {
    for row in 0..COUNT {
        if Rule::in_row(row).column(NAME) == name {
            return Some(row);
        }
    }
    None
}
