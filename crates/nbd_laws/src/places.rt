//! Laws of places: each is the contract of a function that does nothing.
#![tactic(auto, using(crate::proofs::runs::PlaceLemmas::places))]

ghost use Rattle.nbd_laws.specs.Marking.{BeginningsAreUnderWay, HaveOnePlace, PlacesBeginNoRun, PrefixesHaveNoPlace, UnderWayAgree};

/// Bytes that a run begins with are those of a session under way, with what completes in the run within them.
pub fn beginnings_are_under_way()
    ensures { BeginningsAreUnderWay }
{}

/// Two sessions under way of the same bytes have the same messages.
pub fn under_way_agree()
    ensures { UnderWayAgree }
{}

/// No run begins with bytes that have a place.
pub fn places_begin_no_run()
    ensures { PlacesBeginNoRun }
{}

/// Bytes have one place at most, and a proper prefix of bytes that have one has none.
pub fn one_place()
    ensures one { HaveOnePlace }
    ensures first { PrefixesHaveNoPlace }
{}
