//! What an order serves of a request, entry by entry.

ghost use Rattle.std.specs.Prelude.{◌≡◌, ◌+◌, ◌<◌, ◌^◌, ◌&&◌, ℕ, None, Some, IfOk, nat_le};
ghost use Rattle.nbd_judge.specs.internal.Services.{IsPartsAfter, IsServiceAfter, TellsFault, TellsFaultIn};
ghost use Rattle.nbd_state.specs.{Sizes.sizes_of, declared.span.Span.Span};

use crate::OrderFault;
use nbd_state::{Span, SpanIndex};
use nbd_wire::Part;
use std::alloc::{AllocError, Global};

/// What the entries so far serve of a request.
#[derive(Drop)]
pub enum Service {
    /// No entry names it.
    Unnamed,
    /// An entry serves it atomically.
    Whole,
    /// Entries serve parts of it.
    InParts(Box<Parts>),
}

/// Where the parts lie that are served of a request, and how many bytes inside it are not served yet.
#[derive(Drop)]
pub struct Parts {
    spans: SpanIndex,
    left: u64,
}

impl Service {
    /// The service after one more entry that names the request, or the entry's fault. `inside` are the offsets inside
    /// the request. The cost is the logarithm of the number of the request's parts.
    pub fn with(
        self,
        alloc: Global,
        part: Option<Part>,
        inside: Span,
    ) -> Result<Result<Service, OrderFault>, AllocError>
        ensures { IfOk result (IsServiceAfter self inside part) }
    {
        match part {
            None => Ok(self.atomically()),
            Some(part) => self.with_part(alloc, part, inside),
        }
    }

    // After an entry that serves the request atomically.
    fn atomically(self) -> Result<Service, OrderFault>
        ensures { (span : Span) → IsServiceAfter self span None result }
    {
        match self {
            Service::Unnamed => Ok(Service::Whole),
            Service::Whole => Err(OrderFault::Twice),
            Service::InParts(_) => Err(OrderFault::Twice),
        }
    }

    // After an entry that serves a part.
    fn with_part(
        self,
        alloc: Global,
        part: Part,
        inside: Span,
    ) -> Result<Result<Service, OrderFault>, AllocError>
        ensures { IfOk result (IsServiceAfter self inside (Some part)) }
    {
        match self {
            Service::Unnamed => with_span(Parts::none(alloc, inside.size)?, part, inside),
            Service::Whole => Ok(Err(OrderFault::Twice)),
            Service::InParts(parts) => with_span(parts, part, inside),
        }
    }

    /// The fault if this span, which lies inside the request, was due: Missing or NotCovered, or none if it is served.
    pub fn fault_in(&self, here: Span) -> Option<OrderFault>
        requires { here.offset + here.size < 2 ^ 64 }
        ensures { TellsFaultIn self.now here result }
    {
        match self {
            Service::Unnamed => Some(OrderFault::Missing),
            Service::Whole => None,
            Service::InParts(parts) => {
                if parts.spans.covers(here) {
                    None
                } else {
                    Some(OrderFault::NotCovered)
                }
            }
        }
    }

    /// The fault if all of the request was due: Missing or NotCovered, or none if it is wholly served.
    pub fn fault(&self) -> Option<OrderFault>
        ensures { TellsFault self.now result }
    {
        match self {
            Service::Unnamed => Some(OrderFault::Missing),
            Service::Whole => None,
            Service::InParts(parts) => {
                let left = parts.left;
                if left == 0 {
                    None
                } else {
                    Some(OrderFault::NotCovered)
                }
            }
        }
    }
}

impl Parts {
    // None, of a request with so many bytes inside.
    fn none(alloc: Global, left: u64) -> Result<Box<Parts>, AllocError>
        ensures { IfOk result (λ parts. ((k : ℕ) → sizes_of parts.value.spans k ≡ None) × (parts.value.left ≡ left)) }
    {
        let spans = SpanIndex::new(alloc);
        Ok(Box::new(alloc, Parts { spans, left })?)
    }
}

// The service after one more part of a request that is served in parts, or not yet; BadPart if the part may not be
// served.
fn with_span(
    mut parts: Box<Parts>,
    part: Part,
    inside: Span,
) -> Result<Result<Service, OrderFault>, AllocError>
    ensures { IfOk result (IsPartsAfter (sizes_of parts.value.spans) parts.value.left inside part) }
{
    let span = Span {
        offset: part.offset,
        size: part.length,
    };
    let left = parts.left.saturating_sub(part.length);
    if !lies_in(span, inside) || !parts.spans.insert(span)? {
        return Ok(Err(OrderFault::BadPart));
    }
    parts.left = left;
    Ok(Ok(Service::InParts(parts)))
}

// Whether a span lies in another.
fn lies_in(span: Span, other: Span) -> bool
    ensures { result ≡ (nat_le other.offset span.offset
        && nat_le (span.offset + span.size) (other.offset + other.size)) }
{
    span.size <= other.size
        && other.offset <= span.offset
        && span.offset - other.offset <= other.size - span.size
}
