//! Which part of its form the data of an option lacks, or that of its reply; no byte of the other side comes between data.

use crate::reading::number_in;
use crate::story::Story;
use crate::text::Text;
use crate::told::{Form, Told};
use nbd_wire::limits::{LEAST_SIZE, PREFERRED_SIZE};
use nbd_wire::{Side, Sizes, WireFault, answers, infos, listed_of, options, sizes_of};

/// A name whose length is not there whole, or passes the end of the data.
const SHORT_NAME: &str =
    "wrong: the data ends within the length of the name, 4 bytes from byte {first} on\n";

const BAD_NAME: &str =
    "wrong: at byte {first} the name has the length {length}, and the bytes behind that are {there}\n";

/// A count of infos that is not there whole, or does not fit the bytes behind it.
const SHORT_INFOS: &str =
    "wrong: the data ends within the count of infos, 2 bytes from byte {first} on\n";

const BAD_INFOS: &str =
    "wrong: at byte {first} the count of infos is {count}, of 2 bytes each, and the bytes behind that are {there}\n";

impl Text {
    /// Adds which part of its form an option lacks that was granted, or a refused reply to an option.
    pub fn negotiation_reason(self, fault: WireFault, told: &Told, story: &Story) -> Text {
        match (fault, told.form) {
            (WireFault::SuccessOfImproper, Form::Answer(_)) => {
                self.improper_option(story.last_of(Side::Client, 0), story)
            }
            (WireFault::BadReplyPayload, Form::Answer(head)) => {
                self.bad_reply(head.kind, story.behind(told), first_behind(told))
            }
            _ => self,
        }
    }

    // An option whose data has not its form, and what it lacks.
    fn improper_option(self, told: &Told, story: &Story) -> Text {
        let text = self.told("option: ", told, story);
        let (data, first) = (story.behind(told), first_behind(told));
        let has_queries = match story.option {
            options::INFO | options::GO => false,
            options::LIST_META_CONTEXT | options::SET_META_CONTEXT => true,
            _ => {
                let words =
                    "wrong: the option has no data, and there is some from byte {first} on\n";
                return text.number(words, first);
            }
        };
        match listed_of(data) {
            None => text.bad_count(data, first, 4, SHORT_NAME, BAD_NAME),
            Some((_, rest)) => {
                let name = (data.len() as u64).saturating_sub(rest.len() as u64);
                let place = first.saturating_add(name);
                if has_queries {
                    text.bad_queries(rest, place)
                } else {
                    text.bad_count(rest, place, 2, SHORT_INFOS, BAD_INFOS)
                }
            }
        }
    }

    // A length or a count, of so many bytes, that is not there whole, or does not fit the bytes behind it.
    fn bad_count(self, data: &[u8], first: u64, size: u64, short: &str, other: &str) -> Text {
        let length = data.len() as u64;
        let words = if length < size { short } else { other };
        let count = number_in(data, 0, size);
        self.fill(words, &[first, count, length.saturating_sub(size)])
    }

    // A count of queries that is not there whole, the first query that is not, or the bytes behind the last one.
    fn bad_queries(self, data: &[u8], first: u64) -> Text {
        let count = number_in(data, 0, 4);
        let mut at = 4u64;
        for number in 0..count {
            let there = (data.len() as u64).saturating_sub(at);
            let length = number_in(data, at, 4);
            if there < 4 || length > there - 4 {
                let words = if there < 4 {
                    "wrong: the data has {whole} of {count} queries whole; the data ends within the length of the next, 4 bytes from byte {first} on\n"
                } else {
                    "wrong: the data has {whole} of {count} queries whole; at byte {first} the next has the length {length}, and the bytes behind that are {there}\n"
                };
                let behind = there.saturating_sub(4);
                return self.fill(
                    words,
                    &[number, count, first.saturating_add(at), length, behind],
                );
            }
            at = at.saturating_add(length).saturating_add(4);
        }
        if data.len() < 4 {
            let words =
                "wrong: the data ends within the count of queries, 4 bytes from byte {first} on\n";
            return self.number(words, first);
        }
        self.fill(
            "wrong: the count of queries is {count}, and behind them the data goes on, from byte {first}\n",
            &[count, first.saturating_add(at)],
        )
    }

    // A reply to an option that has not its form; of block sizes each that no server may announce.
    fn bad_reply(self, kind: u32, data: &[u8], first: u64) -> Text {
        match (kind, sizes_of(data)) {
            (answers::SERVER, _) => self.bad_count(data, first, 4, SHORT_NAME, BAD_NAME),
            (answers::INFO, Some(sizes)) => self.bad_sizes(sizes),
            (answers::INFO, None) => self.wrong(info_reason(data)),
            (answers::META_CONTEXT, _) if data.len() < 4 => {
                self.wrong("its data is shorter than the id of a context, which has 4 bytes")
            }
            (answers::META_CONTEXT, _) => {
                self.wrong("a context that was selected before has the same id")
            }
            _ => self.wrong("an ACK has no data"),
        }
    }

    // What of these block sizes no server may announce: each that is wrong.
    fn bad_sizes(self, sizes: Sizes) -> Text {
        let (least, preferred) = (sizes.least, sizes.preferred);
        let has_least = least.is_power_of_two();
        let has_preferred = preferred.is_power_of_two();
        let is_small = preferred < PREFERRED_SIZE;
        self.wrong_if(!has_least, "the least block size is no power of 2")
            .wrong_if(
                has_least & (least > LEAST_SIZE),
                "the least block size is above 65536",
            )
            .wrong_if(!has_preferred, "the preferred block size is no power of 2")
            .wrong_if(
                has_preferred & is_small,
                "the preferred block size is below 512",
            )
            .wrong_if(
                has_preferred & !is_small & (preferred < least),
                "the preferred block size is below the least",
            )
            .wrong_if(sizes.largest == 0, "the largest block size is 0")
    }
}

// The place of the first byte behind the head of a message.
fn first_behind(told: &Told) -> u64 {
    told.first.saturating_add(told.head())
}

// Why an INFO has not its form.
fn info_reason(data: &[u8]) -> &'static str {
    if data.len() < 2 {
        "its data is shorter than the kind of an info, which has 2 bytes"
    } else if number_in(data, 0, 2) == u64::from(infos::BLOCK_SIZE) {
        "the data of an info on block sizes has 14 bytes"
    } else if data.len() != 12 {
        "the data of an info on the export has 12 bytes"
    } else {
        "the info on the export lacks HAS_FLAGS (0x1)"
    }
}
