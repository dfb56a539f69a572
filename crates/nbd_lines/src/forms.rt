//! The table of the lines: which words begin a message's line, and which fields follow.

ghost use Rattle.std.specs.Prelude.{◌≡◌, ◌↔◌, IsTrue};
ghost use Rattle.nbd_lines.specs.Table.{fields, has_payload, field_name, words};

/// A kind of line, one for each kind of message.
#[derive(Clone, Copy, Drop)]
pub enum Form {
    Greeting,
    ClientFlags,
    Choice,
    Answer,
    Exported,
    Request,
    Simple,
    Chunk,
    ExtendedRequest,
    ExtendedChunk,
}

/// The name of a field that holds a number.
#[derive(Clone, Copy, Drop)]
pub enum Name {
    Flags,
    Id,
    Option,
    Kind,
    Size,
    Padded,
    Command,
    Cookie,
    Offset,
    Length,
    Error,
}

/// A field that holds a number.
#[derive(Clone, Copy, Drop)]
pub struct Field {
    pub name: Name,
    /// The greatest number that the field holds.
    pub most: u64,
}

const BIT: u64 = 1;

const U16: u64 = u16::MAX as u64;

const U32: u64 = u32::MAX as u64;

const U64: u64 = u64::MAX;

const SHORT_FLAGS: Field = Field {
    name: Name::Flags,
    most: U16,
};

const COMMAND: Field = Field {
    name: Name::Command,
    most: U16,
};

const KIND: Field = Field {
    name: Name::Kind,
    most: U16,
};

const COOKIE: Field = Field {
    name: Name::Cookie,
    most: U64,
};

const OFFSET: Field = Field {
    name: Name::Offset,
    most: U64,
};

/// Each form, once.
pub static FORMS: [Form; 10] = [
    Form::Greeting,
    Form::ClientFlags,
    Form::Choice,
    Form::Answer,
    Form::Exported,
    Form::Request,
    Form::Simple,
    Form::Chunk,
    Form::ExtendedRequest,
    Form::ExtendedChunk,
];

static GREETING: [Field; 1] = [SHORT_FLAGS];

static CLIENT_FLAGS: [Field; 1] = [Field {
    name: Name::Flags,
    most: U32,
}];

static CHOICE: [Field; 1] = [Field {
    name: Name::Id,
    most: U32,
}];

static ANSWER: [Field; 2] = [
    Field {
        name: Name::Option,
        most: U32,
    },
    Field {
        name: Name::Kind,
        most: U32,
    },
];

static EXPORTED: [Field; 3] = [
    Field {
        name: Name::Size,
        most: U64,
    },
    SHORT_FLAGS,
    Field {
        name: Name::Padded,
        most: BIT,
    },
];

static REQUEST: [Field; 5] = [
    SHORT_FLAGS,
    COMMAND,
    COOKIE,
    OFFSET,
    Field {
        name: Name::Length,
        most: U32,
    },
];

static SIMPLE: [Field; 2] = [
    Field {
        name: Name::Error,
        most: U32,
    },
    COOKIE,
];

static CHUNK: [Field; 3] = [SHORT_FLAGS, KIND, COOKIE];

static EXTENDED_REQUEST: [Field; 5] = [
    SHORT_FLAGS,
    COMMAND,
    COOKIE,
    OFFSET,
    Field {
        name: Name::Length,
        most: U64,
    },
];

static EXTENDED_CHUNK: [Field; 4] = [SHORT_FLAGS, KIND, COOKIE, OFFSET];

impl Name {
    /// The name as it stands in a line.
    pub fn text(self) -> &'static [u8]
        ensures { result.now ≡ field_name self }
    {
        match self {
            Name::Flags => b"flags",
            Name::Id => b"id",
            Name::Option => b"option",
            Name::Kind => b"kind",
            Name::Size => b"size",
            Name::Padded => b"padded",
            Name::Command => b"command",
            Name::Cookie => b"cookie",
            Name::Offset => b"offset",
            Name::Length => b"length",
            Name::Error => b"error",
        }
    }
}

impl Form {
    /// The words with which a line of this form begins.
    pub fn words(self) -> &'static [u8]
        ensures { result.now ≡ words self }
    {
        match self {
            Form::Greeting => b"S greeting",
            Form::ClientFlags => b"C client-flags",
            Form::Choice => b"C option",
            Form::Answer => b"S answer",
            Form::Exported => b"S export",
            Form::Request => b"C request",
            Form::Simple => b"S simple",
            Form::Chunk => b"S chunk",
            Form::ExtendedRequest => b"C extended-request",
            Form::ExtendedChunk => b"S extended-chunk",
        }
    }

    /// The numbers after the words, in order.
    pub fn fields(self) -> &'static [Field]
        ensures { result.now ≡ fields self }
    {
        match self {
            Form::Greeting => &GREETING,
            Form::ClientFlags => &CLIENT_FLAGS,
            Form::Choice => &CHOICE,
            Form::Answer => &ANSWER,
            Form::Exported => &EXPORTED,
            Form::Request => &REQUEST,
            Form::Simple => &SIMPLE,
            Form::Chunk => &CHUNK,
            Form::ExtendedRequest => &EXTENDED_REQUEST,
            Form::ExtendedChunk => &EXTENDED_CHUNK,
        }
    }

    /// Whether a payload ends the line.
    pub fn has_payload(self) -> bool
        ensures { result ≡ has_payload self }
    {
        match self {
            Form::Greeting | Form::ClientFlags | Form::Exported => false,
            Form::Choice
            | Form::Answer
            | Form::Request
            | Form::Simple
            | Form::Chunk
            | Form::ExtendedRequest
            | Form::ExtendedChunk => true,
        }
    }
}
