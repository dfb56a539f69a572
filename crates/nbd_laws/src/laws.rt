//! Laws over the definitions of nbd_wire: each is the contract of a function that does nothing.
#![tactic(auto, using(crate::proofs::LawLemmas::laws))]

ghost use Rattle.nbd_laws.specs.{Soundness.{ReportsAreSound, SameMarks, SameReports, ReportsIgnoreService}, Announcing.SizesAreAnnounced, Granting.{HeadersAreGranted, HeadsAreInForce}, Bytes.{OpenBytesEndRuns, RunsHoldEachSide}, Prefixes.{CompletionsStandAfterBytes, PrefixesAreRuns, NoProperPrefix, StartsStandBeforeBytes, CutsDoNotCount}};
ghost use Rattle.nbd_laws.specs.{Service.{LatestMoments, OrdersAreFaultless, CookiesAreDistinct, DisconnectsAreEmpty, EachReplyAnswersOne, EmptyIsExplained, NothingAfterDisconnect, RepliesEndAsTheyStart, ServedOnceAfterCompletion}, Negotiating.{AnswersFollowChoices, HandshakesAreFair}, Profiles.{BaseIsWide, DuesAgree, EndsAgree, PlacesAgree, RunsAgree, UnderWayAgrees}, Replying.RepliesAreWhole};
ghost use Rattle.nbd_laws.specs.{Selecting.{ContextsAreSelected, ContextsStay}, Explaining.{PassingIsExplained, ExplainedPasses}};

/// A run with given bytes and a given order of service exists exactly where a run with these bytes
/// exists and the order has no fault.
pub fn latest_moments()
    ensures served { LatestMoments }
    ensures only { OrdersAreFaultless }
{}

/// The bytes of a run determine its messages and where each starts and completes.
pub fn same_marks()
    ensures { SameMarks }
{}

/// The bytes of a run determine its report.
pub fn same_reports()
    ensures { SameReports }
{}

/// The report of a run does not depend on where requests are served.
pub fn reports_ignore_service()
    ensures { ReportsIgnoreService }
{}

/// The empty capture is explained by the empty order, whatever the export held at first.
pub fn empty_is_explained()
    ensures { EmptyIsExplained }
{}

/// Of two messages of one side that may complete in one state, neither's bytes are a proper prefix of
/// the other's, and equal bytes are of one message.
pub fn no_proper_prefix()
    ensures { NoProperPrefix }
{}

/// A prefix of a run at which no message is open is a run.
pub fn prefixes_are_runs()
    ensures { PrefixesAreRuns }
{}

/// At no moment of a run two outstanding requests have one cookie.
pub fn cookies_are_distinct()
    ensures { CookiesAreDistinct }
{}

/// Each server message of transmission answers exactly one request, which had completed before its first byte; what had to
/// be served by then was: in `Base` all of it, in `Wide` too if it is no READ.
pub fn each_reply_answers_one()
    ensures { EachReplyAnswersOne }
{}

/// What is served is of a request that had completed: a part lies inside it and is not empty, and no byte of it
/// is served twice.
pub fn served_once_after_completion()
    ensures { ServedOnceAfterCompletion }
{}

/// A capture is explained exactly where a run with its bytes, whichever, has an order without a
/// fault, an image of the export's size if any, and no wrong byte.
pub fn explained_exactly()
    ensures passing { PassingIsExplained }
    ensures only { ExplainedPasses }
{}

/// The report of a run has an export within the limit, if any, and each of its requests was first
/// answered after its completion, carries as many bytes as it says, is proper where it succeeded,
/// has a range where it is outside of the block sizes, and where it is a READ has pieces in its
/// range that share no offset and, at success, cover it.
pub fn reports_are_sound()
    ensures { ReportsAreSound }
{}

/// A message starts directly before its first byte.
pub fn starts_stand_before_bytes()
    ensures { StartsStandBeforeBytes }
{}

/// A message completes directly after a byte of its side.
pub fn completions_stand_after_bytes()
    ensures { CompletionsStandAfterBytes }
{}

/// A DISC has offset 0 and length 0.
pub fn disconnects_are_empty()
    ensures { DisconnectsAreEmpty }
{}

/// The client starts nothing after a DISC.
pub fn nothing_after_disconnect()
    ensures { NothingAfterDisconnect }
{}

/// The replies to a request have its cookie and are one simple reply, or chunks of which only the last ends the reply; each is
/// of a form that the request and the structured replies in force allow. A BLOCK_STATUS whose length is not 0 has, where its
/// reply ended without a failure, a status of each metadata context in force that it asks.
pub fn replies_are_whole()
    ensures { RepliesAreWhole }
{}

/// A session begins with a fixed newstyle greeting and client flags that were offered.
pub fn handshakes_are_fair()
    ensures { HandshakesAreFair }
{}

/// An option reply answers the option that was chosen last: it is an error, or where the option's data is well-formed an ACK without
/// payload, a name for LIST, an info for INFO and GO, in Wide a context for the options on contexts. The ACK to INFO or GO comes after an
/// info on an export.
pub fn answers_follow_choices()
    ensures { AnswersFollowChoices }
{}

/// A chunk cut in two leaves the flat capture as it is.
pub fn cuts_do_not_count()
    ensures { CutsDoNotCount }
{}

/// The server's message that completes next is the one that started, and it still answers the same
/// request.
pub fn replies_end_as_they_start()
    ensures { RepliesEndAsTheyStart }
{}

/// In a run with open bytes each side's bytes are the encodings of its completed messages, followed by its open bytes.
pub fn runs_hold_each_side()
    ensures { RunsHoldEachSide }
{}

/// If the open bytes are taken away from a run with open bytes, a run is left, and it has the same completed messages.
pub fn open_bytes_end_runs()
    ensures { OpenBytesEndRuns }
{}

/// What items lead to does not depend on the profile that a session is held to, except for the profile itself.
pub fn ends_ignore_profiles()
    ensures { EndsAgree }
{}

/// What is explained in the profile Base is explained in the profile Wide, unless the server announces block sizes that it may not announce.
pub fn base_is_wide()
    ensures { BaseIsWide }
{}

/// Where no head of an answer of success to an option on metadata contexts completes, no announcement of block sizes that a
/// server may not announce, and no error chunk but ERROR and ERROR_OFFSET, bytes are those of a run, the place of a fault or
/// a session under way in both profiles or in none. Where besides no request completes from where the reply to a READ starts
/// to where it ends, and each that starts ends, its requests have to be served at the same moments in both.
pub fn profiles_agree()
    ensures runs { RunsAgree }
    ensures dues { DuesAgree }
    ensures places { PlacesAgree }
    ensures under_way { UnderWayAgrees }
{}

/// In transmission the metadata contexts in force are those that the last SET_META_CONTEXT selected, where an ACK ended
/// its answer, structured replies were in force and the option that led into transmission names the same export. Where
/// there is no such selection, none is in force.
pub fn contexts_are_selected()
    ensures { ContextsAreSelected }
{}

/// The client has to keep the last block sizes that were announced since the last option, where that is a GO that asked for such, and
/// none otherwise.
pub fn sizes_are_announced()
    ensures { SizesAreAnnounced }
{}

/// Extended headers are in force where an ACK answered EXTENDED_HEADERS before, and nowhere else: no error, no other option and no
/// later answer begins or ends them. Each request and reply has one where they are in force, and none otherwise.
pub fn headers_are_granted()
    ensures granted { HeadersAreGranted }
    ensures heads { HeadsAreInForce }
{}

/// The metadata contexts stay as they are in transmission: each request was asked while those were in force that are at the end.
pub fn contexts_stay()
    ensures { ContextsStay }
{}
