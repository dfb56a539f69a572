//! Worked examples: small captures, byte by byte, and the place at which the rules refuse them. The captures
//! stand in specs/captures/Refused.antt.
#![tactic(auto, using(crate::proofs::worked::WorkedPlaceLemmas::worked_places))]

ghost use Rattle.std.specs.Prelude.{[], ◌∷◌};
ghost use Rattle.nbd_wire.specs.{Prelude.{flat, IsPlaceOf, IsPlace}, declared.{profile.Profile.TheVariants.{Base, Wide}, fault.WireFault.TheVariants.{BadMagic, NotFixedNewstyle, BadClientFlags, OutOfTurn, OutOfProfile, UnknownCookie, BadDisconnect, IncompleteStatus}, message.Message.TheVariants.Greeting}};
ghost use Rattle.nbd_laws.specs.captures.{Openings.hasty_client, Messages.{context_messages, opening_messages, status_asked_messages}};
ghost use Rattle.nbd_laws.specs.captures.Refused as refused;

/// The client speaks first.
pub fn client_first()
    ensures { IsPlace (flat hasty_client) [] OutOfTurn }
{}

/// A greeting with another number.
pub fn wrong_greeting()
    ensures { IsPlace (flat refused.wrong_greeting) [] BadMagic }
{}

/// A greeting without fixed newstyle.
pub fn old_greeting()
    ensures { IsPlace (flat refused.old_greeting) [] NotFixedNewstyle }
{}

/// Of two faults at one byte the one that is tested first counts.
pub fn two_faults()
    ensures greeting { IsPlace (flat refused.wrong_old_greeting) [] BadMagic }
    ensures flags { IsPlace (flat refused.strange_client) (Greeting 3 ∷ []) NotFixedNewstyle }
{}

/// A flag that was not offered.
pub fn greedy_client()
    ensures { IsPlace (flat refused.greedy_client) (Greeting 1 ∷ []) BadClientFlags }
{}

/// A reply to no request.
pub fn unasked_reply()
    ensures { IsPlace (flat refused.unasked_reply) opening_messages UnknownCookie }
{}

/// A DISC with a length.
pub fn long_disconnect()
    ensures { IsPlace (flat refused.long_disconnect) opening_messages BadDisconnect }
{}

/// A metadata context is told: Base refuses it at its head. Wide goes on, and refuses a BLOCK_STATUS that succeeds
/// without a status of it.
pub fn contexts_of_profiles()
    ensures base { IsPlaceOf Base (flat refused.context_head) context_messages OutOfProfile }
    ensures wide { IsPlaceOf Wide (flat refused.status_missing) status_asked_messages IncompleteStatus }
{}
