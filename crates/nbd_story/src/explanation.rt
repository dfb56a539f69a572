//! The explanation of a verdict, and what the answer of a search is worth.

use crate::rules::{CONTENTS_RULE, IMAGE_RULE, Rule};
use crate::story::Story;
use crate::text::Text;
use nbd_export::Start;
use nbd_wire::{Entry, Profile, Verdict};
use std::alloc::{AllocError, Global};

/// What an explanation looks at.
#[derive(Clone, Copy)]
pub struct Sources<'a> {
    pub story: &'a Story,
    pub order: &'a [Entry],
    /// What the export held at first, where it was kept.
    pub start: Option<&'a Start>,
}

/// What stands for the place of an entry where there is none: no order has one there.
pub const NO_PLACE: usize = usize::MAX;

/// The rule of an image that does not fit the export, who broke it, and both sizes.
const IMAGE: (&Rule, &str, &str) = (
    &IMAGE_RULE,
    "the image that was given",
    "sizes: the image has {image:byte}, the export {size:byte}\n",
);

/// The same of contents.
const CONTENTS: (&Rule, &str, &str) = (
    &CONTENTS_RULE,
    "the contents that were given",
    "sizes: the contents have {image:byte}, the export {size:byte}\n",
);

/// That the start may not be the one that was named, where no change of the session comes before what was read.
pub const DOUBTED: &str =
    "perhaps: the start was another, as where an earlier session had changed the export\n";

/// What stands behind the verdict's line: behind a yes the requests that the client should not have sent, if there are some.
pub fn explanation_of(
    alloc: Global,
    verdict: &Verdict,
    sources: Sources<'_>,
) -> Result<String, AllocError> {
    let text = Text::new(alloc, sources.story.is_marked);
    let text = match verdict {
        Verdict::Yes { .. } => text.amiss(sources.story),
        Verdict::Wire { at, fault } => text.wire_fault(*at, *fault, sources.story),
        Verdict::Image { image, size } => text.image(*image, *size, sources.start),
        Verdict::Order { entry, fault } => text.order_fault(*entry, *fault, &sources),
        Verdict::Content { request, offset } | Verdict::Status { request, offset } => {
            text.wrong_byte(*request, *offset, &sources)
        }
    };
    text.finish()
}

impl Text {
    /// Adds why an image or contents of so many bytes do not fit an export of this size.
    pub fn image(self, image: u64, size: u64, start: Option<&Start>) -> Text {
        let (rule, breaker, words) = match start {
            Some(Start::Contents(_)) => CONTENTS,
            _ => IMAGE,
        };
        self.rule(rule, breaker).fill(words, &[image, size])
    }

    /// Adds a rule, who broke it, and where it stands.
    pub fn rule(self, rule: &Rule, breaker: &str) -> Text {
        self.line("rule: ", rule.sentence)
            .line("broken by: ", breaker)
            .line("section: ", rule.section)
    }

    /// Adds what an order is worth that was found.
    pub fn found(self, profile: Profile, order: &[Entry]) -> Text {
        let mut parts = 0u64;
        for entry in order {
            parts = parts.saturating_add(u64::from(entry.part.is_some()));
        }
        self.fill(
            "entries: {entries}, of which {parts} are parts\n\
            shows: some order explains the session, not that the server kept it\n\
            misses: of generated sessions in which one READ returned a stale value another order explained 3, 13 and 33 % \
            at 4, 16 and 64 requests outstanding, on an export of 1 KiB\n\
            stronger: an order that the server logged\n",
            &[order.len() as u64, parts],
        )
        .assumed(profile)
    }

    /// Adds on what an answer without an order rests.
    pub fn assumed(self, profile: Profile) -> Text {
        self.say(
            "assumes: the start is right, this is the only connection, a request takes effect before its first reply",
        ).say_if(
            profile == Profile::Wide,
            ", a byte of a READ is read before the message that shows it is complete",
        )
        .end()
    }

    /// Adds that an order explains the session in the profile `Wide`, where one does.
    pub fn wider_if(self, is_wider: bool) -> Text {
        self.say_if(
            is_wider,
            "wide: an order explains the session in the profile wide, where each message of a READ's reply is served by itself; \
            try --profile wide\n",
        )
    }

    /// Adds what a search is worth that was broken off.
    pub fn open(self) -> Text {
        self.say(
            "open: this was searched and not proved, so it is neither a yes nor a no\n\
            stronger: an order that the server logged\n",
        )
    }

    /// Adds how the search goes further: this option gives it more.
    pub fn further(self, option: &str) -> Text {
        let words = "further: 'nbdcheck order' with the same words and more ";
        self.line(words, option)
    }
}
