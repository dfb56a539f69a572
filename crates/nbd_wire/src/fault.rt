//! The faults that a session is refused with. Which of several at one byte is answered docs/PROFILE.md says, in its lists of tests.

/// A rule that the recorded bytes break.
#[derive(Clone, Copy, Drop)]
pub enum WireFault {
    /// A message begins with a wrong number.
    BadMagic,
    /// The greeting or the client's flags do not have fixed newstyle.
    NotFixedNewstyle,
    /// The client sets a flag that is unknown or was not offered.
    BadClientFlags,
    /// A side sends where it is not its turn, after an answered ABORT, or the client after DISC.
    OutOfTurn,
    /// An answer repeats another option's number.
    WrongOption,
    /// An answer's kind is none that the option takes.
    BadReplyKind,
    /// An option that the profile does not follow is answered by anything but an error, or a message has a payload of more than 2^32 - 1
    /// bytes.
    OutOfProfile,
    /// An answer's payload does not have its form, an ACK has one, an info on the export lacks HAS_FLAGS, block sizes are such as no
    /// server may announce, or a context has the id of one that was selected before.
    BadReplyPayload,
    /// A proper INFO or GO is acknowledged before an info on the export.
    MissingExportInfo,
    /// The answer to EXPORT_NAME lacks HAS_FLAGS or one of its zeroes.
    BadExport,
    /// The export is larger than `nbd_wire::limits::EXPORT_SIZE`.
    ExportTooLarge,
    /// A request has the cookie of an outstanding one.
    CookieInUse,
    /// A reply has the cookie of no request that had completed when the reply started and was then
    /// outstanding.
    UnknownCookie,
    /// A simple reply answers a READ where structured replies are in force, or a request that has
    /// received a chunk, or is a success of a BLOCK_STATUS where a context is in force.
    SimpleForbidden,
    /// A chunk comes where structured replies are not in force.
    ChunkForbidden,
    /// A chunk's type is unknown, or its payload does not have the form of its type.
    BadChunk,
    /// A content chunk answers no READ, leaves its READ's range, shares an offset with an earlier one, or
    /// is the second of a proper READ with DF; a status chunk answers no BLOCK_STATUS, is of a context that is
    /// not in force, that its request does not ask or that had its status, or says more than its request's range
    /// and flags allow; or the offset of an error chunk leaves its request's range.
    BadContent,
    /// A READ is finished with success before its range is covered.
    IncompleteRead,
    /// An improper option or an improper request is answered with success.
    SuccessOfImproper,
    /// A DISC has an offset or a length.
    BadDisconnect,
    /// A BLOCK_STATUS is finished with success before each context in force that it asks has its status.
    IncompleteStatus,
    /// A chunk with an extended header has not its request's offset.
    BadReplyOffset,
    /// A message that started has not completed at the end.
    Unfinished,
}
