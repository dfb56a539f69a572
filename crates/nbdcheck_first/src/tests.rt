//! What no contract says and no run of the built program shows: readers and writers that fail, and how many ranges contents have. With
//! that, how a caller in Rattle uses the libraries. All that a session can show is asked of the built program (tests/cases/).

mod judge;
mod ranges;
mod whole;
mod writers;
