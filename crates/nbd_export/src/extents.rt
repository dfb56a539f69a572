//! Contents by ranges: what costs is the ranges and the bytes that a call names, never the export's size.

ghost use Rattle.std.specs.Prelude.{◌≡◌, ◌==◌, ◌+◌, ◌-◌, ◌<◌, ◌≤◌, ℕ, if◌then◌else◌, None, Some, IfOk, IsOk, OnErr, OnOk, length, slice_index};
ghost use Rattle.nbd_export.specs.{RangeKinds.{IsOfKind, byte_by_kind, kind_of}, Ranges.{AreSameBelow, DiffersIn, IsLeast, bytes_from, unknown, zeroes}, internal.{AreOneKind, DiffersFrom, HasZeroesAlone}};

use crate::kind::Kind;
use crate::kinds::Kinds;
use crate::pages::{PAGE, Pages};
use crate::slices::{first_nonzero, overwrite, part, zero_bytes};
use crate::{Contents, HeldPart, Start};
use std::alloc::{AllocError, Global};
use std::rc::Rc;

/// Contents by ranges: each range is unknown, or zeroes, or bytes, and the bytes lie in pages.
///
/// A change costs the logarithm of the number of ranges, and the bytes that it names: where a range is
/// split, or two are joined, no byte is copied. It raises the number of ranges by two at most; a change of
/// a range without bytes is Ok, takes no memory and leaves all as it was. A page that is written once is kept, also where its bytes
/// are zeroes or unknown later; it then means nothing. What was compared with zeroes and did not differ is not looked at
/// again before bytes are put there, so that comparing costs what changed since, and not what the range covers.
#[derive(Drop)]
pub struct Extents {
    kinds: Kinds,
    pages: Pages,
    // Zeroes where it was seen that no byte is known but 0, and Unknown elsewhere.
    seen: Kinds,
    ghost sizes: { seen.size ≡ kinds.size },
    ghost zeroes: { HasZeroesAlone seen kinds pages },
}

impl Extents {
    ghost use Rattle.nbd_export.specs.{Extents.{byte_of, range_count, ranges_met_by, size_of}, Starts.{FitsSize, HasBytes, IsOneRange, part_byte, start_byte}};

    /// The contents of an export of `size` bytes that holds `start`. An image is taken over as it is; only
    /// the pages that are written later are copied from it. Contents are taken over where nobody shares them, and copied
    /// where somebody does.
    pub fn new(alloc: Global, size: u64, start: Start) -> Result<Extents, AllocError>
        requires { FitsSize size start }
        ensures size { IfOk result (λ extents. size_of extents ≡ size) }
        ensures bytes { IfOk result (λ extents. AreSameBelow size (byte_of extents) (start_byte start)) }
        ensures ranges { IfOk result (λ extents. IsOneRange start → range_count extents ≡ (if size == 0 then 0 else 1)) }
    {
        let none = Rc::new(alloc, Vec::new(alloc))?;
        match start {
            Start::Unknown => Extents::of_kind(alloc, size, Kind::Unknown, none),
            Start::Zeroes => Extents::of_kind(alloc, size, Kind::Zeroes, none),
            Start::Image(image) => Extents::of_kind(alloc, size, Kind::Bytes, image),
            Start::Contents(contents) => Extents::unshared(alloc, contents),
        }
    }

    // The contents of an export of one range, of this kind; bytes are those of the image.
    fn of_kind(
        alloc: Global,
        size: u64,
        kind: Kind,
        image: Rc<Vec<u8>>,
    ) -> Result<Extents, AllocError>
        ensures size { IfOk result (λ extents. size_of extents ≡ size) }
        ensures bytes { IfOk result (λ extents. (x : ℕ) → x < size
            → byte_of extents x ≡ byte_by_kind (Some kind) (slice_index image.value.items x)) }
        ensures ranges { IfOk result (λ extents. range_count extents ≡ (if size == 0 then 0 else 1)) }
    {
        let kinds = Kinds::new(alloc, size, kind)?;
        let seen = Kinds::new(alloc, size, Kind::Unknown)?;
        let pages = Pages::new(alloc, image);
        Ok(Extents { kinds, pages, seen })
    }

    // Contents that nobody shares: these, or where somebody does a copy.
    fn unshared(alloc: Global, contents: Rc<Extents>) -> Result<Extents, AllocError>
        ensures size { IfOk result (λ extents. size_of extents ≡ size_of contents.value) }
        ensures bytes { IfOk result (λ extents.
            AreSameBelow (size_of contents.value) (byte_of extents) (byte_of contents.value)) }
    {
        match Rc::try_unwrap(contents) {
            Ok(contents) => Ok(contents),
            Err(shared) => {
                let none = Rc::new(alloc, Vec::new(alloc))?;
                let mut copy = Extents::of_kind(alloc, shared.size(), Kind::Unknown, none)?;
                copy.lay(&shared)?;
                Ok(copy)
            }
        }
    }

    // Lays what other contents of the same size hold over these, of which no byte is known.
    fn lay(&mut self, others: &Extents) -> Result<(), AllocError>
        requires size { size_of others.now ≡ size_of self.old }
        requires unknown { AreSameBelow (size_of self.old) (byte_of self.old) unknown }
        ensures size { size_of self.new ≡ size_of self.old }
        ensures bytes { OnOk result (AreSameBelow (size_of self.old) (byte_of self.new) (byte_of others.now)) }
    {
        let mut at = 0;
        while at < others.kinds.size() {
            at = self.lay_from(others, at)?;
        }
        Ok(())
    }

    // Lays some of what others hold from an offset on over these, of which no byte is known there, and answers where that
    // ends.
    fn lay_from(&mut self, others: &Extents, at: u64) -> Result<u64, AllocError>
        requires size { size_of others.now ≡ size_of self.old }
        requires within { at < size_of self.old }
        requires unknown { (x : ℕ) → at ≤ x → x < size_of self.old → byte_of self.old x ≡ None }
        ensures size { size_of self.new ≡ size_of self.old }
        ensures behind { IfOk result (λ end. (at < end) × (end ≤ size_of self.old)) }
        ensures before { OnOk result ((x : ℕ) → x < at → byte_of self.new x ≡ byte_of self.old x) }
        ensures laid { IfOk result (λ end. (x : ℕ) → at ≤ x → x < end → byte_of self.new x ≡ byte_of others.now x) }
        ensures rest { IfOk result (λ end. (x : ℕ) → end ≤ x → x < size_of self.old → byte_of self.new x ≡ None) }
    {
        let (part, end) = others.part_at(at);
        match part {
            HeldPart::Unknown => {}
            HeldPart::Zeroes => self.zero(at, end - at)?,
            HeldPart::Bytes(bytes) => self.put(at, bytes)?,
        }
        Ok(end)
    }

    /// How many ranges there are: the longest ones of which each is unknown, or zeroes, or bytes. It takes no
    /// memory.
    pub fn ranges(&self) -> u64
        ensures { result ≡ range_count self.now }
    {
        self.kinds.count()
    }

    /// In how many of the ranges these bytes lie. It takes no memory, and a step for each.
    pub fn ranges_in(&self, offset: u64, len: u64) -> u64
        requires { offset + len ≤ size_of self.now }
        ensures { result ≡ ranges_met_by self.now offset len }
    {
        self.kinds.count_in(offset, offset + len)
    }

    /// The kind of the range at an offset, and where that range ends.
    pub fn range_at(&self, offset: u64) -> (Kind, u64)
        requires { offset < size_of self.now }
        ensures behind { offset < result.1 }
        ensures within { result.1 ≤ size_of self.now }
        ensures kind { (x : ℕ) → offset ≤ x → x < result.1 → kind_of self.now.kinds x ≡ Some result.0 }
        ensures bytes { (x : ℕ) → offset ≤ x → x < result.1 → IsOfKind result.0 (byte_of self.now x) }
        ensures whole { result.1 < size_of self.now → kind_of self.now.kinds result.1 ≡ Some result.0 → ⊥ }
    {
        (self.kinds.kind_at(offset), self.kinds.end_of(offset))
    }

    /// Puts the bytes from an offset on into `into`, up to the first one that is unknown, and answers how many these
    /// are. It costs the bytes, and the logarithm of the number of ranges for each range and each page.
    pub fn read_known(&self, offset: u64, into: &mut [u8]) -> usize
        requires { offset + length into.old ≤ size_of self.now }
        ensures len { length into.new ≡ length into.old }
        ensures few { result ≤ length into.old }
        ensures known { (i : ℕ) → i < result → byte_of self.now (offset + i) ≡ Some (slice_index into.new i) }
        ensures bytes { (i : ℕ) → i < result → slice_index into.new i < 256 }
        ensures unknown { result < length into.old → byte_of self.now (offset + result) ≡ None }
    {
        let mut done = 0;
        while done < into.len() {
            let known = self.known_at(offset + done as u64, into.len() - done);
            if known.is_empty() {
                break;
            }
            overwrite(into, done, known);
            done += known.len();
        }
        done
    }

    /// What is held from an offset on, as far as it is of one kind, and bytes lie in one page; and where that ends.
    pub fn part_at(&self, offset: u64) -> (HeldPart<'_>, u64)
        requires { offset < size_of self.now }
        ensures behind { offset < result.1 }
        ensures within { result.1 ≤ size_of self.now }
        ensures held { (x : ℕ) → offset ≤ x → x < result.1 → byte_of self.now x ≡ part_byte result.0 offset x }
        ensures whole { HasBytes result.0 (result.1 - offset) }
    {
        let (kind, end) = self.range_at(offset);
        match kind {
            Kind::Unknown => (HeldPart::Unknown, end),
            Kind::Zeroes => (HeldPart::Zeroes, end),
            Kind::Bytes => {
                let known = self.known_at(offset, (end - offset) as usize);
                (HeldPart::Bytes(known), offset + known.len() as u64)
            }
        }
    }

    // Some of the bytes from an offset on that are known, no more than these: none only where the first is unknown.
    fn known_at(&self, offset: u64, most: usize) -> &[u8]
        requires some { 0 < most }
        requires fits { offset + most ≤ size_of self.now }
        ensures few { length result.now ≤ most }
        ensures known { (i : ℕ) → i < length result.now → byte_of self.now (offset + i) ≡ Some (slice_index result.now i) }
        ensures none { length result.now ≡ 0 → byte_of self.now offset ≡ None }
    {
        let (kind, end) = self.range_at(offset);
        let most = most.min((end - offset) as usize);
        match kind {
            Kind::Unknown => &[],
            Kind::Zeroes => zero_bytes(most.min(PAGE)),
            Kind::Bytes => {
                let stored = self.pages.rest_of_page(offset);
                part(stored, 0, most.min(stored.len()))
            }
        }
    }

    // The least offset in one range whose byte is known and is not its byte of `bytes`.
    fn first_other(&self, offset: u64, bytes: &[u8]) -> Option<u64>
        requires fits { offset + length bytes.now ≤ size_of self.now }
        requires some { 0 < length bytes.now }
        requires one { AreOneKind (kind_of self.now.kinds) offset (length bytes.now) }
        ensures { IsLeast (DiffersFrom (byte_of self.now) offset bytes.now) result }
    {
        match self.kinds.kind_at(offset) {
            Kind::Unknown => None,
            Kind::Zeroes => Some(offset + first_nonzero(bytes)? as u64),
            Kind::Bytes => self.pages.first_other(offset, bytes),
        }
    }

    // The least offset in one range whose byte is known and is not 0.
    fn first_nonzero(&self, offset: u64, len: u64) -> Option<u64>
        requires fits { offset + len ≤ size_of self.now }
        requires some { 0 < len }
        requires one { AreOneKind (kind_of self.now.kinds) offset len }
        ensures { IsLeast (DiffersIn (byte_of self.now) offset len zeroes) result }
    {
        match self.kinds.kind_at(offset) {
            Kind::Unknown | Kind::Zeroes => None,
            Kind::Bytes => self.pages.first_nonzero(offset, len),
        }
    }

    // The least offset of a range whose byte is known and is not 0, by its parts of one kind.
    fn nonzero_by_kind(&self, offset: u64, len: u64) -> Option<u64>
        requires { offset + len ≤ size_of self.now }
        ensures { IsLeast (DiffersIn (byte_of self.now) offset len zeroes) result }
    {
        let mut done = 0;
        while done < len {
            let at = offset + done;
            let part = (self.kinds.end_of(at) - at).min(len - done);
            if let Some(found) = self.first_nonzero(at, part) {
                return Some(found);
            }
            done += part;
        }
        None
    }

    // The same of a range that was seen, or was not seen.
    fn nonzero_unseen(&self, offset: u64, len: u64) -> Option<u64>
        requires fits { offset + len ≤ size_of self.now }
        requires some { 0 < len }
        requires one { AreOneKind (kind_of self.now.seen) offset len }
        ensures { IsLeast (DiffersIn (byte_of self.now) offset len zeroes) result }
    {
        match self.seen.kind_at(offset) {
            Kind::Zeroes => None,
            _ => self.nonzero_by_kind(offset, len),
        }
    }

    // The same of any range: what was seen is passed over.
    fn nonzero(&self, offset: u64, len: u64) -> Option<u64>
        requires { offset + len ≤ size_of self.now }
        ensures { IsLeast (DiffersIn (byte_of self.now) offset len zeroes) result }
    {
        let mut done = 0;
        while done < len {
            let at = offset + done;
            let part = (self.seen.end_of(at) - at).min(len - done);
            if let Some(found) = self.nonzero_unseen(at, part) {
                return Some(found);
            }
            done += part;
        }
        None
    }
}

impl Contents for Extents {
    ghost use Rattle.nbd_export.specs.Extents.{Becomes, byte_of, range_count, size_of};

    ghost size = { λ extents. size_of extents };

    ghost byte = { λ extents x. byte_of extents x };

    fn size(&self) -> u64 {
        self.kinds.size()
    }

    fn byte_at(&self, offset: u64) -> Option<u8> {
        match self.kinds.kind_at(offset) {
            Kind::Unknown => None,
            Kind::Zeroes => Some(0),
            Kind::Bytes => Some(self.pages.byte_at(offset)),
        }
    }

    fn put(&mut self, offset: u64, bytes: &[u8]) -> Result<(), AllocError>
        requires { offset + length bytes.now ≤ size_of self.old }
        ensures size { size_of self.new ≡ size_of self.old }
        ensures done { OnOk result (Becomes self.old self.new offset (length bytes.now) (bytes_from offset bytes.now)) }
        ensures refused { OnErr result (AreSameBelow (size_of self.old) (byte_of self.new) (byte_of self.old)) }
        ensures ranges { range_count self.new ≤ range_count self.old + 2 }
        ensures empty { length bytes.now ≡ 0 → IsOk result × (range_count self.new ≡ range_count self.old) }
        ensures refused_ranges { OnErr result (range_count self.new ≡ range_count self.old) }
    {
        if bytes.is_empty() {
            return Ok(());
        }
        let len = bytes.len() as u64;
        self.pages.make_room(offset, len)?;
        self.seen.set(offset, offset + len, Kind::Unknown)?;
        self.kinds.set(offset, offset + len, Kind::Bytes)?;
        self.pages.write(offset, bytes);
        Ok(())
    }

    fn zero(&mut self, offset: u64, len: u64) -> Result<(), AllocError>
        requires { offset + len ≤ size_of self.old }
        ensures size { size_of self.new ≡ size_of self.old }
        ensures done { OnOk result (Becomes self.old self.new offset len zeroes) }
        ensures refused { OnErr result (AreSameBelow (size_of self.old) (byte_of self.new) (byte_of self.old)) }
        ensures ranges { range_count self.new ≤ range_count self.old + 2 }
        ensures empty { len ≡ 0 → IsOk result × (range_count self.new ≡ range_count self.old) }
        ensures refused_ranges { OnErr result (range_count self.new ≡ range_count self.old) }
    {
        if len > 0 {
            self.kinds.set(offset, offset + len, Kind::Zeroes)?;
        }
        Ok(())
    }

    fn forget(&mut self, offset: u64, len: u64) -> Result<(), AllocError>
        requires { offset + len ≤ size_of self.old }
        ensures size { size_of self.new ≡ size_of self.old }
        ensures done { OnOk result (Becomes self.old self.new offset len unknown) }
        ensures refused { OnErr result (AreSameBelow (size_of self.old) (byte_of self.new) (byte_of self.old)) }
        ensures ranges { range_count self.new ≤ range_count self.old + 2 }
        ensures empty { len ≡ 0 → IsOk result × (range_count self.new ≡ range_count self.old) }
        ensures refused_ranges { OnErr result (range_count self.new ≡ range_count self.old) }
    {
        if len > 0 {
            self.kinds.set(offset, offset + len, Kind::Unknown)?;
        }
        Ok(())
    }

    fn differs(&self, offset: u64, bytes: &[u8]) -> Option<u64> {
        let mut done = 0;
        while done < bytes.len() {
            let at = offset + done as u64;
            let rest = (self.kinds.end_of(at) - at) as usize;
            let len = rest.min(bytes.len() - done);
            if let Some(found) = self.first_other(at, &bytes[done..done + len]) {
                return Some(found);
            }
            done += len;
        }
        None
    }

    /// Where memory is refused all of the range is looked at again the next time.
    fn differs_zero(&mut self, offset: u64, len: u64) -> Option<u64> {
        if let Some(found) = self.nonzero(offset, len) {
            return Some(found);
        }
        if len > 0 {
            _ = self.seen.set(offset, offset + len, Kind::Zeroes);
        }
        None
    }
}
