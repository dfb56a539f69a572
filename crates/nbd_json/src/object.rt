//! An object of JSON.

use json::Writer;
use std::alloc::{AllocError, Global};

/// An object that grows by its members. Once memory was refused it is not handed out.
#[derive(Drop)]
pub struct Object {
    writer: Writer,
    is_refused: bool,
}

impl Object {
    /// One without a member.
    pub fn new(alloc: Global) -> Object {
        let mut writer = Writer::new(Vec::new(alloc));
        let is_refused = writer.begin_object().is_err();
        Object { writer, is_refused }
    }

    /// Notes whether memory was refused for something of it.
    pub fn note(&mut self, written: Result<(), AllocError>) {
        self.is_refused |= written.is_err();
    }

    /// Begins a member, whose value is put behind that.
    pub fn begin_member(&mut self, key: &str) {
        let written = self.writer.key(key);
        self.note(written);
    }

    /// Adds a member that is a text.
    pub fn text(&mut self, key: &str, text: &str) {
        self.begin_member(key);
        self.put_text(text);
    }

    /// Adds a member that is a number.
    pub fn number(&mut self, key: &str, number: u64) {
        self.begin_member(key);
        self.put_number(number);
    }

    /// Adds a member that is a number, or null where that is 0.
    pub fn number_if(&mut self, key: &str, number: u64) {
        if number != 0 {
            self.number(key, number);
            return;
        }
        self.begin_member(key);
        let written = self.writer.null();
        self.note(written);
    }

    /// Adds a member that is true or false.
    pub fn flag(&mut self, key: &str, flag: bool) {
        self.begin_member(key);
        let written = self.writer.boolean(flag);
        self.note(written);
    }

    /// Adds a text to the list that was begun.
    pub fn put_text(&mut self, text: &str) {
        let written = self.writer.string(text);
        self.note(written);
    }

    /// Adds a number to the list that was begun.
    pub fn put_number(&mut self, number: u64) {
        let written = self.writer.u64(number);
        self.note(written);
    }

    /// Begins a member that is an object.
    pub fn begin(&mut self, key: &str) {
        self.begin_member(key);
        let written = self.writer.begin_object();
        self.note(written);
    }

    /// Ends the object that was begun last.
    pub fn end(&mut self) {
        let written = self.writer.end_object();
        self.note(written);
    }

    /// Begins a member that is a list.
    pub fn begin_list(&mut self, key: &str) {
        self.begin_member(key);
        let written = self.writer.begin_array();
        self.note(written);
    }

    /// Ends that list.
    pub fn end_list(&mut self) {
        let written = self.writer.end_array();
        self.note(written);
    }

    /// The object on a line of its own, with its line feed.
    pub fn line(mut self) -> Result<Vec<u8>, AllocError> {
        self.end();
        let Object { writer, is_refused } = self;
        let mut bytes = writer.into_inner();
        if is_refused || bytes.push(b'\n').is_err() {
            Err(AllocError)
        } else {
            Ok(bytes)
        }
    }
}
