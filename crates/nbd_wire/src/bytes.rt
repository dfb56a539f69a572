//! A payload that its owner keeps.
ghost use Rattle.std.specs.{Prelude.{◌≡◌, ◌==◌, ◌<◌, ◌≤◌, ℕ, List, [], drop, length, take, IfOk, MatchOption, OnErr, OnOk}, Cmp.{partial_equiv_from_equiv, Lexicographic.{nat_list_eq_equiv, pointwise}}};

use std::alloc::{AllocError, Global};
use std::marker::Model;
use std::rc::Rc;

/// The longest payload that stands in its owner.
const SHORT: usize = 14;

/// A payload, seen by contracts as the list of its bytes. A short one stands in its owner; a longer one stands in memory once, however
/// many owners share it, or what stands behind its first bytes.
#[derive(Drop)]
pub struct Bytes {
    kept: Kept,
}

// The bytes, or where they stand.
#[derive(Drop)]
enum Kept {
    Short(Short),
    // What stands behind so many bytes.
    Long(u8, Rc<Vec<u8>>),
}

// So many bytes.
#[derive(Clone, Copy, Drop)]
struct Short {
    len: u8,
    bytes: [u8; SHORT],
    ghost fits: { len ≤ 14 },
}

impl Model for Bytes {
    ghost use Rattle.std.specs.Prelude.{ℕ, List};
    ghost use Rattle.nbd_wire.specs.internal.{bytes_kept};

    ghost Value = { List ℕ };

    ghost view = { λ b. bytes_kept b.kept };
}

/// Payloads are equal where their bytes are.
impl PartialEq for Bytes {
    ghost eq = { λ a b. pointwise ◌==◌ a b };

    ghost laws = { partial_equiv_from_equiv nat_list_eq_equiv };

    fn eq(&self, other: &Bytes) -> bool {
        self.as_slice() == other.as_slice()
    }
}

impl Eq for Bytes {
    ghost laws = { nat_list_eq_equiv };
}

impl Bytes {
    /// No bytes; takes no memory.
    pub fn none() -> Bytes
        ensures { result ≡ [] }
    {
        Bytes {
            kept: Kept::Short(Short {
                len: 0,
                bytes: [0; SHORT],
            }),
        }
    }

    /// A copy of these bytes. A short payload takes no memory.
    pub fn from_slice(alloc: Global, bytes: &[u8]) -> Result<Bytes, AllocError>
        ensures copied { IfOk result (λ payload. payload ≡ bytes.now) }
        ensures long { OnErr result (14 < length bytes.now) }
    {
        match Short::of(bytes) {
            Some(short) => Ok(Bytes {
                kept: Kept::Short(short),
            }),
            None => Bytes::long(alloc, Vec::from_slice(alloc, bytes)?),
        }
    }

    /// Takes the bytes out of a vector. A short payload takes no memory, and leaves the vector its own. After an `Err` the vector is as
    /// it was.
    pub fn take(alloc: Global, bytes: &mut Vec<u8>) -> Result<Bytes, AllocError>
        ensures taken { IfOk result (λ payload. payload ≡ bytes.old.items) }
        ensures empty { OnOk result (bytes.new.items ≡ []) }
        ensures unchanged { OnErr result (bytes.new.items ≡ bytes.old.items) }
        ensures long { OnErr result (14 < length bytes.old.items) }
    {
        if let Some(short) = Short::of(bytes.as_slice()) {
            bytes.clear();
            return Ok(Bytes {
                kept: Kept::Short(short),
            });
        }
        bytes.shrink_to_fit();
        match Rc::new(alloc, std::mem::replace(bytes, Vec::new(alloc))) {
            Ok(shared) => Ok(Bytes {
                kept: Kept::Long(0, shared),
            }),
            Err(refused) => {
                *bytes = refused.value;
                Err(AllocError)
            }
        }
    }

    // A payload that stands in memory.
    fn long(alloc: Global, bytes: Vec<u8>) -> Result<Bytes, AllocError>
        ensures { IfOk result (λ payload. payload ≡ bytes.items) }
    {
        let shared = Rc::new(alloc, bytes)?;
        Ok(Bytes {
            kept: Kept::Long(0, shared),
        })
    }

    /// The same payload for another owner; copies no more than a short one.
    pub fn share(&self) -> Result<Bytes, AllocError>
        ensures { IfOk result (λ payload. payload ≡ self.now) }
    {
        match &self.kept {
            Kept::Short(short) => Ok(Bytes {
                kept: Kept::Short(*short),
            }),
            Kept::Long(count, shared) => Ok(Bytes {
                kept: Kept::Long(*count, shared.clone()?),
            }),
        }
    }

    /// What stands behind so many bytes of the payload, for another owner. It copies no more than a short one, unless this is itself
    /// what stands behind some bytes.
    pub fn share_behind(&self, alloc: Global, count: u8) -> Result<Bytes, AllocError>
        ensures { IfOk result (λ rest. rest ≡ drop count self.now) }
    {
        let rest = behind(self.as_slice(), count);
        match &self.kept {
            Kept::Long(0, shared) if rest.len() > SHORT => Ok(Bytes {
                kept: Kept::Long(count, shared.clone()?),
            }),
            _ => Bytes::from_slice(alloc, rest),
        }
    }

    /// The payload's bytes.
    pub fn as_slice(&self) -> &[u8]
        ensures { result.now ≡ self.now }
    {
        match &self.kept {
            Kept::Short(short) => short.as_slice(),
            Kept::Long(count, shared) => behind(shared.as_slice(), *count),
        }
    }
}

// What stands behind so many bytes; nothing where there are no more.
fn behind(bytes: &[u8], count: u8) -> &[u8]
    ensures { result.now ≡ drop count bytes.now }
{
    bytes.get(usize::from(count)..).unwrap_or(&[])
}

impl Short {
    ghost use Rattle.nbd_wire.specs.internal.{short_bytes};

    // These bytes, unless they are too many.
    fn of(from: &[u8]) -> Option<Short>
        ensures { MatchOption result (14 < length from.now) (λ short. short_bytes short ≡ from.now) }
    {
        if from.len() > SHORT {
            return None;
        }
        let mut bytes = [0; SHORT];
        bytes[..from.len()].copy_from_slice(from);
        Some(Short {
            len: from.len() as u8,
            bytes,
        })
    }

    // The bytes.
    fn as_slice(&self) -> &[u8]
        ensures { result.now ≡ short_bytes self.now }
    {
        &self.bytes[..self.len as usize]
    }
}
