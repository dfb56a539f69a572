//! Bytes in pages: those of an image, and over them each page of which a byte was ever written.

ghost use Rattle.std.specs.Prelude.{◌≡◌, ◌+◌, ◌*◌, ◌/◌, ◌%◌, ◌^◌, ◌<◌, ◌≤◌, ℕ, Some, IsSome, OnOk, length, slice_index};
ghost use Rattle.nbd_export.specs.{Pages.{page_from, stored_byte}, Ranges.{DiffersIn, IsLeast, zeroes}, internal.DiffersFrom};

use crate::slices::{first_nonzero, first_unequal, overwrite, part, zero_bytes};
use std::alloc::{AllocError, Global};
use std::collections::BTreeMap;
use std::rc::Rc;

/// How many bytes a page has.
pub const PAGE: usize = 1024;

/// A byte for each offset. What was never written is the image's byte, or 0 after its end.
#[derive(Drop)]
pub struct Pages {
    image: Rc<Vec<u8>>,
    // The written pages, each by its first offset divided by the size of a page.
    pages: BTreeMap<u64, Box<[u8; PAGE]>>,
}

impl Pages {
    /// The bytes of an image, which is taken over as it is.
    pub fn new(alloc: Global, image: Rc<Vec<u8>>) -> Pages
        ensures { (x : ℕ) → stored_byte result x ≡ slice_index image.value.items x }
    {
        Pages {
            image,
            pages: BTreeMap::new(alloc),
        }
    }

    /// The byte at an offset.
    pub fn byte_at(&self, offset: u64) -> u8
        ensures { result ≡ stored_byte self.now offset }
    {
        self.rest_of_page(offset)[0]
    }

    /// The least offset of a range whose byte is not its byte of `bytes`; None where there is none.
    pub fn first_other(&self, offset: u64, bytes: &[u8]) -> Option<u64>
        requires { offset + length bytes.now < 2 ^ 64 }
        ensures { IsLeast (DiffersFrom (λ x. Some (stored_byte self.now x)) offset bytes.now) result }
    {
        let mut done = 0;
        while done < bytes.len() {
            let at = offset + done as u64;
            let stored = self.rest_of_page(at);
            let len = stored.len().min(bytes.len() - done);
            if let Some(i) = first_unequal(&stored[..len], &bytes[done..done + len]) {
                return Some(at + i as u64);
            }
            done += len;
        }
        None
    }

    /// The least offset of a range whose byte is not 0; None where there is none.
    pub fn first_nonzero(&self, offset: u64, len: u64) -> Option<u64>
        requires { offset + len < 2 ^ 64 }
        ensures { IsLeast (DiffersIn (λ x. Some (stored_byte self.now x)) offset len zeroes) result }
    {
        let mut done = 0;
        while done < len {
            let at = offset + done;
            let stored = self.rest_of_page(at);
            let part = (stored.len() as u64).min(len - done);
            if let Some(i) = first_nonzero(&stored[..part as usize]) {
                return Some(at + i as u64);
            }
            done += part;
        }
        None
    }

    /// Makes the pages of a range that has a byte, so that it can be written. No byte changes, also where
    /// memory is refused.
    pub fn make_room(&mut self, offset: u64, len: u64) -> Result<(), AllocError>
        requires some { 0 < len }
        requires fits { offset + len < 2 ^ 64 }
        ensures bytes { (x : ℕ) → stored_byte self.new x ≡ stored_byte self.old x }
        ensures room { OnOk result ((x : ℕ) → offset ≤ x → x < offset + len → IsSome (page_from self.new (x / PAGE))) }
    {
        let first = offset / PAGE as u64;
        let last = (offset + len - 1) / PAGE as u64;
        for number in first..last + 1 {
            self.make_page(number)?;
        }
        Ok(())
    }

    /// Writes bytes where room was made for them.
    pub fn write(&mut self, offset: u64, bytes: &[u8])
        requires fits { offset + length bytes.now < 2 ^ 64 }
        requires room { (x : ℕ) → offset ≤ x → x < offset + length bytes.now → IsSome (page_from self.old (x / PAGE)) }
        ensures inside { (i : ℕ) → i < length bytes.now → stored_byte self.new (offset + i) ≡ slice_index bytes.now i }
        ensures before { (x : ℕ) → x < offset → stored_byte self.new x ≡ stored_byte self.old x }
        ensures behind { (x : ℕ) → offset + length bytes.now ≤ x → stored_byte self.new x ≡ stored_byte self.old x }
    {
        let mut done = 0;
        while done < bytes.len() {
            let at = offset + done as u64;
            let len = (PAGE - (at % PAGE as u64) as usize).min(bytes.len() - done);
            self.write_in_page(at, &bytes[done..done + len]);
            done += len;
        }
    }

    // Writes bytes that lie in one page.
    fn write_in_page(&mut self, offset: u64, bytes: &[u8])
        requires room { IsSome (page_from self.old (offset / PAGE)) }
        requires fits { offset % PAGE + length bytes.now ≤ PAGE }
        ensures inside { (i : ℕ) → i < length bytes.now → stored_byte self.new (offset + i) ≡ slice_index bytes.now i }
        ensures before { (x : ℕ) → x < offset → stored_byte self.new x ≡ stored_byte self.old x }
        ensures behind { (x : ℕ) → offset + length bytes.now ≤ x → stored_byte self.new x ≡ stored_byte self.old x }
        ensures pages { (number : ℕ) → IsSome (page_from self.old number) → IsSome (page_from self.new number) }
    {
        let page = self.pages.get_mut(&(offset / PAGE as u64)).unwrap();
        overwrite(&mut **page, (offset % PAGE as u64) as usize, bytes);
    }

    // Makes a page, where there is none yet, with the bytes that are read there now.
    fn make_page(&mut self, number: u64) -> Result<(), AllocError>
        requires { number * PAGE + PAGE ≤ 2 ^ 64 }
        ensures bytes { (x : ℕ) → stored_byte self.new x ≡ stored_byte self.old x }
        ensures made { OnOk result (IsSome (page_from self.new number)) }
        ensures others { (n : ℕ) → IsSome (page_from self.old n) → IsSome (page_from self.new n) }
    {
        if !self.pages.contains_key(&number) {
            let mut page = [0; PAGE];
            overwrite(&mut page, 0, self.rest_of_page(number * PAGE as u64));
            let page = Box::new(*self.image.allocator(), page)?;
            self.pages.insert(number, page)?;
        }
        Ok(())
    }

    // The bytes of the image.
    fn image(&self) -> &[u8]
        ensures { result.now ≡ self.now.image.value.items }
    {
        self.image.as_slice()
    }

    /// The bytes from an offset on, at least one, to the end of its page, or to the end of the image where
    /// that comes first and the page is not written.
    pub fn rest_of_page(&self, offset: u64) -> &[u8]
        ensures some { 0 < length result.now }
        ensures one { offset % PAGE + length result.now ≤ PAGE }
        ensures bytes { (i : ℕ) → i < length result.now → slice_index result.now i ≡ stored_byte self.now (offset + i) }
        ensures rest { (i : ℕ) → length result.now ≤ i → offset % PAGE + i < PAGE
            → stored_byte self.now (offset + i) ≡ 0 }
    {
        let first = (offset % PAGE as u64) as usize;
        if let Some(page) = self.pages.get(&(offset / PAGE as u64)) {
            return part(&**page, first, PAGE - first);
        }
        let place = offset as usize;
        let image = self.image();
        if place < image.len() {
            return part(image, place, (PAGE - first).min(image.len() - place));
        }
        zero_bytes(PAGE - first)
    }
}
