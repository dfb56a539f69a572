//! Why a client should not have sent a request, as far as proto.md names an error for it (proto.md, "Error values").

use crate::numbers::{EINVAL, ENOSPC, EOVERFLOW, EPERM, ESHUTDOWN};
use crate::transmission::Request;
use nbd_state::has_range;
use nbd_wire::{RequestHead, command_flags, commands};

/// Why a client should not have sent a request: there may be more than one reason.
#[derive(Clone, Copy, Drop)]
pub struct Reasons {
    /// The sentence of the rule that names the first of them.
    pub sentence: usize,
    /// There is one for which the error is EINVAL: its type is unknown, it is a BLOCK_STATUS and no context is selected, its range
    /// passes the export's end or is not aligned to the minimum block size, or it has command flags that are not for it.
    pub is_invalid: bool,
    /// Its range passes the export's end, and it fills that.
    pub is_overfull: bool,
    /// It changes a read-only export.
    pub is_forbidden: bool,
    /// There is a reason for which proto.md names no error.
    pub is_open: bool,
}

impl Reasons {
    /// Those of a request.
    pub fn of(request: &Request) -> Reasons {
        let (head, flaws) = (&request.head, request.flaws);
        if flaws.is_unknown {
            return Reasons::unanswerable(usize::from(head.command == commands::BLOCK_STATUS));
        }
        let has_other_flags = (flaws.flags & !uncounted_flags(head)) != 0;
        let is_unaligned = has_range(head.command) & !request.is_aligned;
        let sentence = if flaws.is_beyond {
            2 + usize::from(is_fill(head.command))
        } else if flaws.is_forbidden {
            4
        } else if has_other_flags {
            5
        } else {
            6
        };
        Reasons {
            sentence,
            is_invalid: flaws.is_beyond | has_other_flags | is_unaligned,
            is_overfull: flaws.is_beyond & is_fill(head.command),
            is_forbidden: flaws.is_forbidden,
            is_open: flaws.is_unoffered | flaws.is_ranged,
        }
    }

    // One alone, for which the error is EINVAL.
    fn unanswerable(sentence: usize) -> Reasons {
        Reasons {
            sentence,
            is_invalid: true,
            is_overfull: false,
            is_forbidden: false,
            is_open: false,
        }
    }

    /// Whether an error is named for one of them, or is judged by other rules.
    pub fn allow(self, command: u16, error: u32) -> bool {
        match error {
            EINVAL => self.is_invalid,
            ENOSPC => self.is_overfull,
            EPERM => self.is_forbidden,
            ESHUTDOWN => true,
            EOVERFLOW => command != commands::WRITE,
            _ => false,
        }
    }
}

// Whether requests of this type fill the export.
fn is_fill(command: u16) -> bool {
    command == commands::WRITE || command == commands::WRITE_ZEROES
}

// The flags of a request for which proto.md names no error: with an extended header PAYLOAD_LEN of a BLOCK_STATUS.
fn uncounted_flags(head: &RequestHead) -> u16 {
    if head.extended & (head.command == commands::BLOCK_STATUS) {
        command_flags::PAYLOAD_LEN
    } else {
        0
    }
}
