//! Records that are at hand, and a session that is pushed piece by piece, judged. The built program is tested with sessions as data, in
//! tests/cases/.

ghost use Rattle.std.specs.Prelude.{ℕ};
ghost use Rattle.nbd_export.specs.Starts.{FitsSize};

mod countable;

use countable::are_countable;
use nbd_export::{Extents, Start};
use nbd_judge::{OrderFault, Verdict, check, judge};
use nbd_session::{Session, Transcript};
use nbd_wire::Side::{self, Client, Server};
use nbd_wire::{Entry, Profile};
use std::alloc::{AllocError, Global};
use std::test::Fail;

/// A negotiation of an export of 8 bytes, and a READ of one byte at 0, which gives 05.
const RECORDS: [(Side, &[u8]); 7] = [
    (Server, b"NBDMAGICIHAVEOPT\0\x03"),
    (Client, b"\0\0\0\x03"),
    (Client, b"IHAVEOPT\0\0\0\x07\0\0\0\x06\0\0\0\0\0\0"),
    (
        Server,
        b"\0\x03\xe8\x89\x04\x55\x65\xa9\0\0\0\x07\0\0\0\x03\0\0\0\x0c\0\0\0\0\0\0\0\0\0\x08\0\x6d",
    ),
    (
        Server,
        b"\0\x03\xe8\x89\x04\x55\x65\xa9\0\0\0\x07\0\0\0\x01\0\0\0\0",
    ),
    (
        Client,
        b"\x25\x60\x95\x13\0\0\0\0\0\0\0\0\0\0\0\x01\0\0\0\0\0\0\0\0\0\0\0\x01",
    ),
    (Server, b"\x67\x44\x66\x98\0\0\0\0\0\0\0\0\0\0\0\x01\x05"),
];

/// An entry that serves the first request atomically.
const ONE: Entry = Entry {
    request: 1,
    part: None,
};

fn records(alloc: Global) -> Result<Vec<(Side, Vec<u8>)>, Fail> {
    let mut records = Vec::new(alloc);
    for (side, bytes) in RECORDS {
        records.push((side, bytes.to_vec(alloc)?))?;
    }
    Ok(records)
}

/// Whether it is a yes of one request.
fn is_yes(verdict: Option<Verdict>) -> bool {
    matches!(
        verdict,
        Some(Verdict::Yes {
            requests: 1,
            answered: 1,
            improper: 0,
        })
    )
}

/// Whether it says that the READ's byte is wrong.
fn is_wrong(verdict: Option<Verdict>) -> bool {
    matches!(
        verdict,
        Some(Verdict::Content {
            request: 1,
            offset: 0,
        })
    )
}

/// Whether it says that the READ is answered and not served.
fn is_missing(verdict: Option<Verdict>) -> bool {
    matches!(
        verdict,
        Some(Verdict::Order {
            entry: 1,
            fault: OrderFault::Missing,
        })
    )
}

#[test]
fn records_are_checked(rt: HostRuntime) -> Result<(), Fail> {
    let records = records(rt.alloc())?;
    assert!(rt;
        is_yes(checked(rt.alloc(), &records, &[ONE], Start::Unknown)?)
            && is_wrong(checked(rt.alloc(), &records, &[ONE], Start::Zeroes)?)
            && is_missing(checked(rt.alloc(), &records, &[], Start::Unknown)?)
    );
    Ok(())
}

/// The verdict of `check` on records, if their bytes can be counted.
fn checked(
    alloc: Global,
    records: &[(Side, Vec<u8>)],
    order: &[Entry],
    start: Start,
) -> Result<Option<Verdict>, AllocError> {
    if !are_countable(records) {
        return Ok(None);
    }
    Ok(Some(check(alloc, records, order, start)?))
}

#[test]
fn a_transcript_is_judged_over_contents(rt: HostRuntime) -> Result<(), Fail> {
    let transcript = transcript(rt.alloc())?.expect(&rt, "a whole session");
    assert!(rt;
        is_yes(judged(rt.alloc(), &transcript, Start::Unknown)?)
            && is_wrong(judged(rt.alloc(), &transcript, Start::Zeroes)?)
    );
    Ok(())
}

/// The transcript of the session of the records, if all of them are taken and every message is whole.
fn transcript(alloc: Global) -> Result<Option<Transcript>, Fail> {
    let mut session = Session::new(alloc);
    if are_taken(&records(alloc)?, &mut session) {
        Ok(session.finish().ok())
    } else {
        Ok(None)
    }
}

/// Whether a session takes these records without a fault, and they are short.
fn are_taken(records: &[(Side, Vec<u8>)], session: &mut Session) -> bool {
    for (side, bytes) in records {
        let is_short = session.taken() < 1000 && bytes.len() < 1000;
        if !is_short || session.push(*side, bytes).is_err() {
            return false;
        }
    }
    true
}

/// The verdict of `judge` where the order serves the first request alone, if the session has an export.
fn judged(
    alloc: Global,
    transcript: &Transcript,
    start: Start,
) -> Result<Option<Verdict>, AllocError>
    requires no_image { (size : ℕ) → FitsSize size start }
{
    match transcript.export() {
        Some((size, _)) => {
            let mut contents = Extents::new(alloc, size, start)?;
            Ok(Some(judge(alloc, Profile::Base, transcript, &[ONE], &mut contents)?))
        }
        _ => Ok(None),
    }
}
