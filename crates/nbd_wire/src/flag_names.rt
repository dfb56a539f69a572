//! Names of flags, by their masks.

use crate::names::Name;
use crate::{chunks, command_flags, handshake, transmission};

/// Flags of the greeting (proto.md, "Handshake flags").
pub const HANDSHAKE: &[Name] = &[
    (handshake::FIXED_NEWSTYLE as u32, "NBD_FLAG_FIXED_NEWSTYLE"),
    (handshake::NO_ZEROES as u32, "NBD_FLAG_NO_ZEROES"),
];

/// Flags of the client's first message (proto.md, "Client flags").
pub const CLIENT: &[Name] = &[
    (handshake::C_FIXED_NEWSTYLE, "NBD_FLAG_C_FIXED_NEWSTYLE"),
    (handshake::C_NO_ZEROES, "NBD_FLAG_C_NO_ZEROES"),
];

/// Flags of an export (proto.md, "Transmission flags").
pub const TRANSMISSION: &[Name] = &[
    (transmission::HAS_FLAGS as u32, "HAS_FLAGS"),
    (transmission::READ_ONLY as u32, "READ_ONLY"),
    (transmission::SEND_FLUSH as u32, "SEND_FLUSH"),
    (transmission::SEND_FUA as u32, "SEND_FUA"),
    (transmission::ROTATIONAL as u32, "ROTATIONAL"),
    (transmission::SEND_TRIM as u32, "SEND_TRIM"),
    (transmission::SEND_WRITE_ZEROES as u32, "SEND_WRITE_ZEROES"),
    (transmission::SEND_DF as u32, "SEND_DF"),
    (transmission::CAN_MULTI_CONN as u32, "CAN_MULTI_CONN"),
    (1 << 9, "SEND_RESIZE"),
    (transmission::SEND_CACHE as u32, "SEND_CACHE"),
    (transmission::SEND_FAST_ZERO as u32, "SEND_FAST_ZERO"),
    (
        transmission::BLOCK_STATUS_PAYLOAD as u32,
        "BLOCK_STATUS_PAYLOAD",
    ),
];

/// Flags of a request (proto.md, "Command flags").
pub const COMMAND: &[Name] = &[
    (command_flags::FUA as u32, "FUA"),
    (command_flags::NO_HOLE as u32, "NO_HOLE"),
    (command_flags::DF as u32, "DF"),
    (1 << 3, "REQ_ONE"),
    (command_flags::FAST_ZERO as u32, "FAST_ZERO"),
    (command_flags::PAYLOAD_LEN as u32, "PAYLOAD_LEN"),
];

/// Flags of a chunk (proto.md, "Structured reply flags").
pub const CHUNK: &[Name] = &[(chunks::DONE as u32, "DONE")];
