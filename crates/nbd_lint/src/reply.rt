//! What came of the reply to a request.

ghost use Rattle.std.specs.Prelude.{◌≤◌};

use crate::notes::Notes;
use crate::numbers::{EOVERFLOW, SECTOR};
use crate::transmission::Request;
use nbd_wire::Content;
use std::alloc::Global;
use std::collections::{BTreeMap, BTreeSet};

/// A range of the export with content: its first offset and its last.
#[derive(Clone, Copy, Drop)]
pub struct Piece {
    pub first: u64,
    pub last: u64,
    ghost ordered: { first ≤ last },
}

/// An error of a request.
#[derive(Clone, Copy)]
pub struct Errored {
    pub error: u32,
    /// The offset that it names, if it names one.
    pub offset: Option<u64>,
    /// It came in a simple reply or in a chunk of type ERROR: not in one whose type proto.md does not have.
    pub is_plain: bool,
}

/// A request whose reply has begun, and what came of this.
#[derive(Drop)]
pub struct Reply {
    pub request: Request,
    /// How many errors.
    pub errors: u64,
    /// A chunk of type ERROR.
    pub has_error: bool,
    /// One with EOVERFLOW.
    pub has_eoverflow: bool,
    /// Content.
    pub has_content: bool,
    /// The last chunk is content or a status.
    pub is_behind_payload: bool,
    /// The first offset at which content is cut where it should not be; 0 where it is nowhere.
    pub cut: u64,
    /// The offsets of errors.
    pub offsets: BTreeSet<u64>,
    /// How far it is from the first offset of a piece of content to its last, by the first. A piece of one byte, which has no two
    /// errors, is not asked for.
    pieces: BTreeMap<u64, u64>,
}

impl Reply {
    /// Nothing came; takes no memory.
    pub fn none(alloc: Global, request: Request) -> Reply {
        Reply {
            request,
            errors: 0,
            has_error: false,
            has_eoverflow: false,
            has_content: false,
            is_behind_payload: false,
            cut: 0,
            offsets: BTreeSet::new(alloc),
            pieces: BTreeMap::new(alloc),
        }
    }

    /// The offset of an error within a piece, if there is one.
    pub fn error_in(&self, piece: Piece) -> Option<u64> {
        self.offsets.range(piece.first..=piece.last).next().copied()
    }

    /// The piece of two bytes or more that begins at an offset or last before it, if there is one.
    pub fn piece_before(&self, offset: u64) -> Option<Piece> {
        match self.pieces.range(..=offset).next_back() {
            Some((first, far)) => Some(Piece {
                first: *first,
                last: first.saturating_add(*far),
            }),
            None => None,
        }
    }

    /// Takes content, which is cut here where it should not be. The last piece of a reply is not asked for later.
    pub fn add(&mut self, piece: Piece, is_last: bool, notes: &mut Notes) {
        self.has_content = true;
        self.is_behind_payload = true;
        if self.cut == 0 {
            self.cut = cut_of(piece, self.request.head.offset, self.request.length);
        }
        let far = piece.last - piece.first;
        if far != 0 && !is_last {
            notes.keep(self.pieces.insert(piece.first, far));
        }
    }

    /// Takes an error.
    pub fn fail(&mut self, errored: Errored, notes: &mut Notes) {
        self.errors = self.errors.saturating_add(1);
        self.is_behind_payload = false;
        if errored.is_plain {
            self.has_error = true;
            self.has_eoverflow |= errored.error == EOVERFLOW;
        }
        if let Some(offset) = errored.offset {
            notes.keep(self.offsets.insert(offset));
        }
    }
}

/// The piece that content is.
pub fn piece_of(content: Content<'_>) -> Piece {
    let (first, length) = match content {
        Content::Bytes { offset, bytes } => (offset, bytes.len() as u64),
        Content::Hole { offset, size } => (offset, size),
    };
    Piece {
        first,
        last: first.saturating_add(length.saturating_sub(1)),
    }
}

/// Whether an offset is a multiple of 512.
pub fn is_sector(offset: u64) -> bool {
    offset.is_multiple_of(SECTOR)
}

// Where a piece begins or ends at no multiple of 512, nor where a range does of this offset and length; 0 where neither.
fn cut_of(piece: Piece, offset: u64, length: u64) -> u64 {
    let end = piece.last.saturating_add(1);
    if !is_sector(piece.first) && piece.first != offset {
        piece.first
    } else if !is_sector(end) && end != offset.saturating_add(length) {
        end
    } else {
        0
    }
}
