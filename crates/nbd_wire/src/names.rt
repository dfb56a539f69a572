//! Names of numbers: requests, options, option replies, infos, chunks, errors.

ghost use Rattle.std.specs.Prelude.{◌≢◌, All, Contains, IfSome, IfNone};

use crate::{answers, chunks, commands, infos, options};

/// A number of the protocol, and its name.
pub type Name = (u32, &'static str);

/// Types of a request, without the `NBD_CMD_` that proto.md has before them (proto.md, "Request types").
pub const COMMANDS: &[Name] = &[
    (commands::READ as u32, "READ"),
    (commands::WRITE as u32, "WRITE"),
    (commands::DISC as u32, "DISC"),
    (commands::FLUSH as u32, "FLUSH"),
    (commands::TRIM as u32, "TRIM"),
    (commands::CACHE as u32, "CACHE"),
    (commands::WRITE_ZEROES as u32, "WRITE_ZEROES"),
    (commands::BLOCK_STATUS as u32, "BLOCK_STATUS"),
    (8, "RESIZE"),
];

/// Options (proto.md, "Option types").
pub const OPTIONS: &[Name] = &[
    (options::EXPORT_NAME, "NBD_OPT_EXPORT_NAME"),
    (options::ABORT, "NBD_OPT_ABORT"),
    (options::LIST, "NBD_OPT_LIST"),
    (4, "NBD_OPT_PEEK_EXPORT"),
    (options::STARTTLS, "NBD_OPT_STARTTLS"),
    (options::INFO, "NBD_OPT_INFO"),
    (options::GO, "NBD_OPT_GO"),
    (options::STRUCTURED_REPLY, "NBD_OPT_STRUCTURED_REPLY"),
    (options::LIST_META_CONTEXT, "NBD_OPT_LIST_META_CONTEXT"),
    (options::SET_META_CONTEXT, "NBD_OPT_SET_META_CONTEXT"),
    (options::EXTENDED_HEADERS, "NBD_OPT_EXTENDED_HEADERS"),
];

/// Kinds of an option reply (proto.md, "Option reply types").
pub const REPLIES: &[Name] = &[
    (answers::ACK, "NBD_REP_ACK"),
    (answers::SERVER, "NBD_REP_SERVER"),
    (answers::INFO, "NBD_REP_INFO"),
    (answers::META_CONTEXT, "NBD_REP_META_CONTEXT"),
    (answers::ERROR | 1, "NBD_REP_ERR_UNSUP"),
    (answers::ERROR | 2, "NBD_REP_ERR_POLICY"),
    (answers::ERROR | 3, "NBD_REP_ERR_INVALID"),
    (answers::ERROR | 4, "NBD_REP_ERR_PLATFORM"),
    (answers::ERROR | 5, "NBD_REP_ERR_TLS_REQD"),
    (answers::ERROR | 6, "NBD_REP_ERR_UNKNOWN"),
    (answers::ERROR | 7, "NBD_REP_ERR_SHUTDOWN"),
    (answers::ERROR | 8, "NBD_REP_ERR_BLOCK_SIZE_REQD"),
    (answers::ERROR | 9, "NBD_REP_ERR_TOO_BIG"),
    (answers::ERROR | 10, "NBD_REP_ERR_EXT_HEADER_REQD"),
];

/// What an INFO states (proto.md, "Option reply types").
pub const INFOS: &[Name] = &[
    (infos::EXPORT as u32, "NBD_INFO_EXPORT"),
    (infos::NAME as u32, "NBD_INFO_NAME"),
    (infos::DESCRIPTION as u32, "NBD_INFO_DESCRIPTION"),
    (infos::BLOCK_SIZE as u32, "NBD_INFO_BLOCK_SIZE"),
];

/// Types of a chunk (proto.md, "Structured reply types").
pub const CHUNKS: &[Name] = &[
    (chunks::NONE as u32, "NBD_REPLY_TYPE_NONE"),
    (chunks::OFFSET_DATA as u32, "NBD_REPLY_TYPE_OFFSET_DATA"),
    (chunks::OFFSET_HOLE as u32, "NBD_REPLY_TYPE_OFFSET_HOLE"),
    (5, "NBD_REPLY_TYPE_BLOCK_STATUS"),
    (6, "NBD_REPLY_TYPE_BLOCK_STATUS_EXT"),
    (chunks::ERROR as u32, "NBD_REPLY_TYPE_ERROR"),
    (chunks::ERROR_OFFSET as u32, "NBD_REPLY_TYPE_ERROR_OFFSET"),
];

/// Errors of a request (proto.md, "Error values").
pub const ERRORS: &[Name] = &[
    (1, "EPERM"),
    (5, "EIO"),
    (12, "ENOMEM"),
    (22, "EINVAL"),
    (28, "ENOSPC"),
    (75, "EOVERFLOW"),
    (95, "ENOTSUP"),
    (108, "ESHUTDOWN"),
];

/// The name that a table gives to a number.
pub fn name_in(table: &[Name], number: u32) -> Option<&'static str>
    ensures found { IfSome result (λ text. Contains table.now (number, text)) }
    ensures unnamed { IfNone result (All (λ name. name.0 ≢ number) table.now) }
{
    let (_, text) = table.iter().find(|name| name.0 == number)?;
    Some(*text)
}
