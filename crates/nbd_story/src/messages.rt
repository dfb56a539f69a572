//! Messages and requests in words.

use crate::story::Story;
use crate::text::{Text, letter_of};
use crate::told::{Form, Request, Told};
use nbd_wire::names::{CHUNKS, COMMANDS, INFOS, Name, OPTIONS, REPLIES, name_in};
use nbd_wire::{
    AnswerHead, ChunkHead, Info, RequestHead, SimpleHead, answers, chunks, flag_names, info_of,
    infos,
};
use std::alloc::{AllocError, Global};

/// A message in words, behind the letter of its sender.
pub fn told_words(alloc: Global, told: &Told, story: &Story) -> Result<String, AllocError> {
    Text::new(alloc, story.is_marked)
        .say(letter_of(told.side))
        .say(" ")
        .message(told, story)
        .finish()
}

/// The error that a request's reply told.
pub fn told_error(alloc: Global, told: &Told, story: &Story) -> Result<String, AllocError> {
    Text::new(alloc, story.is_marked)
        .error("", story.request(told.number).error)
        .finish()
}

impl Text {
    /// A message, and the request that it is or answers.
    pub fn message(self, told: &Told, story: &Story) -> Text {
        match told.form {
            Form::Greeting(flags) => self
                .say("greeting, ")
                .flags(flag_names::HANDSHAKE, u32::from(flags)),
            Form::ClientFlags(flags) => self.say("client flags, ").flags(flag_names::CLIENT, flags),
            Form::Choice(head) => self
                .option(head.id)
                .number(", {payload:byte} of data", told.payload),
            Form::Answer(head) => self.answer(&head, told, story),
            Form::Exported(export) => self.export("export of ", export.size, export.flags),
            Form::Request(head) => self.request(&head, told.number).filter(told, story),
            Form::Simple(head) => self.simple(&head, told, story),
            Form::Chunk(head) => self.chunk(&head, told, story),
        }
    }

    /// A line with a message and its places behind a label, where there is one.
    pub fn told(self, label: &str, told: &Told, story: &Story) -> Text {
        if told.is_there() {
            self.told_so_far(label, told, story).end()
        } else {
            self
        }
    }

    /// A message with its places, behind a label.
    pub fn told_so_far(self, label: &str, told: &Told, story: &Story) -> Text {
        self.say(label)
            .message(told, story)
            .places("; ", told.first, told.last)
    }

    /// A request as it was asked, with its places, behind a label.
    pub fn asked(self, label: &str, request: &Request) -> Text {
        self.say(label)
            .request(&request.head, request.number)
            .places("; ", request.first, request.last)
    }

    /// A request by its type and its number, behind words: `READ #3`.
    pub fn numbered(self, words: &str, request: &Request) -> Text {
        self.typed(words, request)
            .number(" #{request}", request.number)
    }

    /// A request by its type, behind words: ` before the READ`.
    pub fn typed(self, words: &str, request: &Request) -> Text {
        self.say(words).command(request.head.command)
    }

    /// The type of a request: `READ`, and `command 9` of one without a name.
    pub fn command(self, command: u16) -> Text {
        let name = name_in(COMMANDS, u32::from(command));
        self.number(name.unwrap_or("command {command}"), u64::from(command))
    }

    /// A request, its range and its flags, where it has these; DISC has no number, and its cookie is not told.
    pub fn request(self, head: &RequestHead, number: u64) -> Text {
        let (offset, length) = (head.offset, head.length);
        self.command(head.command)
            .fill_if(
                number != 0,
                " #{request}, cookie {cookie:#x}",
                &[number, head.cookie],
            )
            .fill_if(
                length | offset != 0,
                ", {length:byte} at {offset}",
                &[length, offset],
            )
            .flags_in(flag_names::COMMAND, head.flags)
    }

    // Flags, where there are some.
    fn flags_in(self, table: &[Name], bits: u16) -> Text {
        if bits == 0 {
            self
        } else {
            self.say(", ").flags(table, u32::from(bits))
        }
    }

    // A reply by what it is, the request that it answers, and its cookie.
    fn reply(self, what: &str, cookie: u64, told: &Told, story: &Story) -> Text {
        let text = self.say(what);
        let text = if told.number == 0 {
            text
        } else {
            text.numbered(" to ", story.request(told.number))
        };
        text.number(", cookie {cookie:#x}: ", cookie)
    }

    fn simple(self, head: &SimpleHead, told: &Told, story: &Story) -> Text {
        let text = self.reply("simple reply", head.cookie, told, story);
        if head.error == 0 {
            text.say("success")
        } else {
            text.error("", head.error)
        }
    }

    // A chunk, and what it brings: where its content lies, or its error.
    fn chunk(self, head: &ChunkHead, told: &Told, story: &Story) -> Text {
        let text = self
            .reply("chunk", head.cookie, told, story)
            .name(CHUNKS, "type", u32::from(head.kind))
            .number(", {payload:byte} of payload", told.payload);
        let text = if told.part.length != 0 {
            text.part(", ", told.part)
        } else if told.error != 0 {
            let has_offset = head.kind == chunks::ERROR_OFFSET;
            text.error(", ", told.error)
                .fill_if(has_offset, " at {offset}", &[told.part.offset])
        } else {
            text
        };
        text.status(told, story)
            .flags_in(flag_names::CHUNK, head.flags)
    }

    /// An option by its name and its number.
    pub fn option(self, number: u32) -> Text {
        self.name(OPTIONS, "option", number)
    }

    // A reply to an option, and what it states.
    fn answer(self, head: &AnswerHead, told: &Told, story: &Story) -> Text {
        let data = story.behind(told);
        let text = self
            .say("reply to ")
            .option(head.option)
            .say(": ")
            .name(REPLIES, "kind", head.kind)
            .number(", {payload:byte} of data", told.payload);
        match (head.kind, info_of(data)) {
            (answers::INFO, Some(info)) if data.len() as u64 == told.payload => text.info(info),
            (answers::META_CONTEXT, _) => text.context_in(", ", data),
            _ => text,
        }
    }

    // What an INFO states.
    fn info(self, info: Info) -> Text {
        match info {
            Info::Export { size, flags } => self.info_kind(infos::EXPORT).export(": ", size, flags),
            Info::BlockSize {
                least,
                preferred,
                most,
            } => {
                let words = ": at least {least}, preferred {preferred}, at most {largest}";
                let sizes = [u64::from(least), u64::from(preferred), u64::from(most)];
                self.info_kind(infos::BLOCK_SIZE).fill(words, &sizes)
            }
            Info::Other { kind } => self.info_kind(kind),
        }
    }

    fn info_kind(self, number: u16) -> Text {
        self.say(", ").name(INFOS, "info", u32::from(number))
    }
}
