//! Entries of an order of service.

/// A part of what a request asks for: so many bytes from an offset of the export on.
#[derive(Clone, Copy, Drop)]
pub struct Part {
    /// Where it begins, in bytes from the export's start.
    pub offset: u64,
    /// How many bytes it has.
    pub length: u64,
}

/// An entry of an order of service: the server carries out a request atomically, or a part of it.
#[derive(Clone, Copy, Drop)]
pub struct Entry {
    /// The request's number, counted from 1.
    pub request: u64,
    /// The part that is served here; None where the request is served atomically.
    pub part: Option<Part>,
}
