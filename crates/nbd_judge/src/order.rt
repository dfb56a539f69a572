//! The faults of an order of service: each test is one pass over the order or over the requests.

ghost use Rattle.std.specs.Prelude.{◌≡◌, ◌+◌, ◌<◌, ◌^◌, ℕ, IfOk, MatchOption, Some, replicate, slice_get};
ghost use Rattle.nbd_wire.specs.{Prelude.{IsFirst, IsLate, due_in, IsFaultless}, declared.entry.Entry.Entry};
ghost use Rattle.nbd_state.specs.Transcripts.{report_of_request};
ghost use Rattle.nbd_judge.specs.{Verdicts.IsOrderFault, internal.{IsFair, Services.{IsTable, TellsFaultOf, TellsFaultShown, TellsUnserved}}, declared.service.Service.TheVariants.Unnamed};
ghost use Rattle.nbd_wire.specs.declared.commands.TheConstants as commands;

use crate::OrderFault;
use crate::due::{inside, least_due, meet};
use crate::least::{exceeds, lesser};
use crate::service::Service;
use nbd_session::{Asked, Transcript};
use nbd_state::Span;
use nbd_wire::{Entry, Profile};
use std::alloc::{AllocError, Global};
use std::mem;

/// The first entry of the order with a fault, counted from 1, and the fault; for Missing and NotCovered the number of
/// the request. None if the order has no fault. It allocates a table with a cell for each request, and the parts of the
/// requests that are served in parts.
pub fn order_fault(
    alloc: Global,
    profile: Profile,
    transcript: &Transcript,
    order: &[Entry],
) -> Result<Option<(u64, OrderFault)>, AllocError>
    ensures { IfOk result (λ found. MatchOption found (IsFaultless profile transcript.now order.now)
        (λ p. IsOrderFault profile transcript.now order.now p.0 p.1)) }
{
    let table = match services(alloc, transcript, order)? {
        Err(fault) => return Ok(Some(fault)),
        Ok(table) => table,
    };
    if let Some(entry) = late(profile, transcript, order) {
        return Ok(Some((entry, OrderFault::Late)));
    }
    Ok(unserved(profile, transcript, &table))
}

// A table that has at k - 1 what the order serves of request k; or the first entry that names no request, repeats
// another one, or has a bad part.
fn services(
    alloc: Global,
    transcript: &Transcript,
    order: &[Entry],
) -> Result<Result<Vec<Service>, (u64, OrderFault)>, AllocError>
    ensures { IfOk result (IsTable transcript.now order.now) }
{
    let mut table = none_served(alloc, transcript.count() as usize)?;
    for i in 0..order.len() {
        let entry = order[i];
        let Some(one) = transcript.asked(entry.request) else {
            return Ok(Err((i as u64 + 1, OrderFault::NoSuchRequest)));
        };
        let at = (entry.request - 1) as usize;
        let service = mem::replace(&mut table[at], Service::Unnamed);
        match service.with(alloc, entry.part, inside(transcript, one))? {
            Err(fault) => return Ok(Err((i as u64 + 1, fault))),
            Ok(service) => table[at] = service,
        }
    }
    Ok(Ok(table))
}

// A table of requests of which nothing is served.
fn none_served(alloc: Global, count: usize) -> Result<Vec<Service>, AllocError>
    ensures { IfOk result (λ table. table.items ≡ replicate count Unnamed) }
{
    let mut table = Vec::new(alloc);
    for _ in 0..count {
        table.push(Service::Unnamed)?;
    }
    Ok(table)
}

// The first entry that is late: one pass from the end, with the least count at which what was seen was due.
fn late(profile: Profile, transcript: &Transcript, order: &[Entry]) -> Option<u64>
    requires { (i : ℕ) (e : Entry) → slice_get order.now i ≡ Some e → IsFair transcript.now e }
    ensures { MatchOption result ((i : ℕ) → IsLate (due_in profile transcript.now) order.now i → ⊥)
        (λ e. (i : ℕ) × (e ≡ i + 1) × IsFirst (IsLate (due_in profile transcript.now) order.now) i) }
{
    let mut found = None;
    let mut least = None;
    let mut i = order.len();
    while i > 0 {
        i -= 1;
        let entry = order[i];
        least = lesser(least, least_due(profile, transcript, entry));
        if exceeds(entry.request, least) {
            found = Some(i as u64 + 1);
        }
    }
    found
}

// The least request of which something was due and is not served, with its fault.
fn unserved(
    profile: Profile,
    transcript: &Transcript,
    table: &[Service],
) -> Option<(u64, OrderFault)>
    ensures { TellsUnserved profile transcript.now table.now result }
{
    for i in 0..table.len() {
        let k = i as u64 + 1;
        if let Some(one) = transcript.asked(k) {
            if let Some(fault) = fault_of(profile, one, inside(transcript, one), &table[i]) {
                return Some((k, fault));
            }
        }
    }
    None
}

// The fault of a request, by what the order serves of it: Missing, NotCovered, or none if what was due is served.
fn fault_of(profile: Profile, one: &Asked, inside: Span, service: &Service) -> Option<OrderFault>
    requires { inside.offset + inside.size < 2 ^ 64 }
    ensures { TellsFaultOf profile (report_of_request one.now) inside service.now result }
{
    if profile.serves_by_chunk(one.command) {
        if one.ended_at.is_none() {
            return fault_shown(one, inside, service);
        }
    } else if one.known_at.is_none() {
        return None;
    }
    service.fault()
}

// The same, of a READ whose reply has not ended: what its messages showed was due.
fn fault_shown(one: &Asked, inside: Span, service: &Service) -> Option<OrderFault>
    requires read { one.now.command ≡ commands.READ }
    requires fits { inside.offset + inside.size < 2 ^ 64 }
    ensures { TellsFaultShown service.now inside (report_of_request one.now).shown result }
{
    for i in 0..one.pieces.counts().len() {
        if let Some(piece) = one.pieces.get(i) {
            let here = meet(Span::of(piece), inside);
            if here.size > 0 {
                if let Some(fault) = service.fault_in(here) {
                    return Some(fault);
                }
            }
        }
    }
    None
}
