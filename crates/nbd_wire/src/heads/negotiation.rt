//! The heads of the negotiation (proto.md, "Newstyle negotiation", "Fixed newstyle negotiation").

ghost use Rattle.nbd_wire.specs.codec.{Heads.{IsAnswerHead, IsChoiceHead, IsClientFlagsHead, IsExportHead, IsGreetingHead}, Contents.Reads};

use crate::head_lengths;
use crate::magics::{ANSWER_MAGIC, GREETING_MAGIC, OPTION_MAGIC};
use crate::numbers::{u16_at, u32_at, u64_at};

/// The head of a client's option (proto.md, "Newstyle negotiation").
#[derive(Clone, Copy, Drop)]
pub struct ChoiceHead {
    /// The option's number, as in the module `options`.
    pub id: u32,
    /// How many bytes of data follow.
    pub length: u32,
}

/// The head of a server's answer to an option (proto.md, "Fixed newstyle negotiation").
#[derive(Clone, Copy, Drop)]
pub struct AnswerHead {
    /// The number of the option that is answered.
    pub option: u32,
    /// The answer's kind, as in the module `answers`.
    pub kind: u32,
    /// How many bytes of data follow.
    pub length: u32,
}

/// The handshake flags in a server's greeting of 18 bytes (proto.md, "Newstyle negotiation").
pub fn greeting_head(bytes: &[u8]) -> Option<u16>
    ensures { Reads result (λ flags. IsGreetingHead flags bytes.now) }
{
    if bytes.len() != head_lengths::GREETING
        || u64_at(bytes, 0) != GREETING_MAGIC
        || u64_at(bytes, 8) != OPTION_MAGIC
    {
        return None;
    }
    Some(u16_at(bytes, 16))
}

/// The client's flags, 4 bytes (proto.md, "Newstyle negotiation").
pub fn client_flags_head(bytes: &[u8]) -> Option<u32>
    ensures { Reads result (λ flags. IsClientFlagsHead flags bytes.now) }
{
    if bytes.len() != head_lengths::CLIENT_FLAGS {
        return None;
    }
    Some(u32_at(bytes, 0))
}

/// The head of a client's option, 16 bytes.
pub fn choice_head(bytes: &[u8]) -> Option<ChoiceHead>
    ensures { Reads result (λ head. IsChoiceHead head bytes.now) }
{
    if bytes.len() != head_lengths::CHOICE || u64_at(bytes, 0) != OPTION_MAGIC {
        return None;
    }
    Some(ChoiceHead {
        id: u32_at(bytes, 8),
        length: u32_at(bytes, 12),
    })
}

/// The head of a server's answer to an option, 20 bytes.
pub fn answer_head(bytes: &[u8]) -> Option<AnswerHead>
    ensures { Reads result (λ head. IsAnswerHead head bytes.now) }
{
    if bytes.len() != head_lengths::ANSWER || u64_at(bytes, 0) != ANSWER_MAGIC {
        return None;
    }
    Some(AnswerHead {
        option: u32_at(bytes, 8),
        kind: u32_at(bytes, 12),
        length: u32_at(bytes, 16),
    })
}

/// The export's size in bytes and its transmission flags in the answer to EXPORT_NAME, 10 bytes
/// (proto.md, "Newstyle negotiation"). The zeroes that may follow are not part of it.
pub fn export_head(bytes: &[u8]) -> Option<(u64, u16)>
    ensures { Reads result (λ head. IsExportHead head.0 head.1 bytes.now) }
{
    if bytes.len() != head_lengths::EXPORT {
        return None;
    }
    Some((u64_at(bytes, 0), u16_at(bytes, 8)))
}
