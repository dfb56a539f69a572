//! The places of the outstanding requests, by their cookies.

ghost use Rattle.std.specs.Prelude.{◌≡◌, ◌==◌, ◌&&◌, ◌+◌, ◌-◌, ◌≤◌, ◌^◌, false, get_or, nat_le, ℕ, IfOk, IsTrue, MatchBool, None, OnOk, Option, Some, if◌then◌else◌, length};

use std::alloc::{AllocError, Global};
use std::collections::BTreeMap;

/// The places of the outstanding requests, by their cookies (`specs/Places.antt`).
#[derive(Drop)]
pub struct Outstanding {
    row: Row,
    // Those that do not stand in the row.
    others: BTreeMap<u64, usize>,
}

// Requests whose cookies and places both count up by one, as those of most clients do.
#[derive(Drop)]
struct Row {
    // The first one's.
    cookie: u64,
    place: usize,
    // Whether each is outstanding.
    outstanding: Vec<bool>,
    ghost countable: { place + length outstanding.items ≤ 2 ^ 64 },
}

impl Outstanding {
    ghost use Rattle.nbd_state.specs.Places.{place_at};

    /// None; takes no memory.
    pub fn none(alloc: Global) -> Outstanding
        ensures { (q : ℕ) → place_at result q ≡ None }
    {
        Outstanding {
            row: Row {
                cookie: 0,
                place: 0,
                outstanding: Vec::new(alloc),
            },
            others: BTreeMap::new(alloc),
        }
    }

    /// The place of the request with this cookie.
    pub fn get(&self, cookie: u64) -> Option<usize>
        ensures { result ≡ place_at self.now cookie }
    {
        if self.row.holds(cookie) {
            Some(self.row.place + (cookie - self.row.cookie) as usize)
        } else {
            self.others.get(&cookie).copied()
        }
    }

    /// One more request, in place of one with its cookie.
    pub fn insert(&mut self, cookie: u64, place: usize) -> Result<(), AllocError>
        ensures { OnOk result ((q : ℕ) → place_at self.new q ≡ (if cookie == q then Some place else place_at self.old q)) }
    {
        if self.row.extend(cookie, place)? {
            return Ok(());
        }
        self.row.remove(cookie);
        self.others.insert(cookie, place)?;
        Ok(())
    }

    /// The request with this cookie is no longer outstanding.
    pub fn remove(&mut self, cookie: u64)
        ensures { (q : ℕ) → place_at self.new q ≡ (if cookie == q then None else place_at self.old q) }
    {
        self.row.remove(cookie);
        self.others.remove(&cookie);
    }
}

impl Row {
    ghost use Rattle.nbd_state.specs.Places.{place_in};

    // Whether the request with this cookie stands in the row and is outstanding.
    fn holds(&self, cookie: u64) -> bool
        ensures { result ≡ (nat_le self.now.cookie cookie
            && get_or self.now.outstanding.items (cookie - self.now.cookie) false) }
    {
        if cookie < self.cookie {
            return false;
        }
        let index = (cookie - self.cookie) as usize;
        index < self.outstanding.len() && self.outstanding[index]
    }

    // Takes a request in if it has the next cookie and the next place, and answers whether it does; an empty row begins
    // with it.
    fn extend(&mut self, cookie: u64, place: usize) -> Result<bool, AllocError>
        ensures { IfOk result (λ taken. MatchBool taken
            ((q : ℕ) → place_in self.new q ≡ (if cookie == q then Some place else place_in self.old q))
            ((q : ℕ) → place_in self.new q ≡ place_in self.old q)) }
    {
        if self.outstanding.is_empty() {
            self.cookie = cookie;
            self.place = place;
        } else if !self.is_next(cookie, place) {
            return Ok(false);
        }
        self.outstanding.push(true)?;
        Ok(true)
    }

    // Whether a request has the next cookie and the next place.
    fn is_next(&self, cookie: u64, place: usize) -> bool
        ensures { IsTrue result → (cookie ≡ self.now.cookie + length self.now.outstanding.items)
            × (place ≡ self.now.place + length self.now.outstanding.items) }
    {
        let len = self.outstanding.len();
        cookie >= self.cookie
            && cookie - self.cookie == len as u64
            && place >= self.place
            && place - self.place == len
    }

    // The request with this cookie is no longer outstanding.
    fn remove(&mut self, cookie: u64)
        ensures { (q : ℕ) → place_in self.new q ≡ (if cookie == q then None else place_in self.old q) }
    {
        if self.holds(cookie) {
            self.outstanding[(cookie - self.cookie) as usize] = false;
        }
    }
}
