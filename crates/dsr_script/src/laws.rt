//! Laws, each the contract of a function that does nothing: `build` forges nothing, what texts can write is within the limits of
//! envelopes, and a text and its draft determine each other.

ghost use Rattle.std.specs.Prelude.{◌≡◌, ◌⊎◌, ℕ, List, Some};
ghost use Rattle.dsr_base.specs.Reads.{Reads};
ghost use Rattle.dsr_names.specs.declared.actor.Actor.{Actor};
ghost use Rattle.dsr_desk.specs.Signature.{Signature};
ghost use Rattle.dsr_envelope.specs.Envelope.{Carries};
ghost use Rattle.dsr_envelope.specs.Limits.{IsEnvelope};
ghost use Rattle.dsr_envelope.specs.declared.envelope.Envelope.{Envelope};
ghost use Rattle.dsr_script.specs.EnvelopeText.{envelope_text, IsSpelledEnvelope};
ghost use Rattle.dsr_script.specs.Known.{StandFor, WasCarried};
ghost use Rattle.dsr_script.specs.Held.{IsHeld, IsUnforged};

use crate::draft::Draft;

/// A caller of `build` forges nothing. If the known signatures are exactly those that some envelopes carried, each signature
/// of a built envelope is by the holder of one of the keys, or was carried by one of those envelopes.
pub fn nobody_forges()
    ensures { (holders : List Actor) (known : List Signature) (envelopes : List Envelope) (envelope : Envelope)
        → StandFor known envelopes → IsUnforged holders known envelope
        → (s : Signature) → Carries envelope s → IsHeld holders s ⊎ WasCarried envelopes s }
{}

/// An envelope that a text can write is within the limits of envelopes. It also has a request in each value that is not idle,
/// and a number below 2^64 in its answer: an envelope in a program always has both, since its types allow nothing else.
pub fn spelled_is_within_limits()
    ensures { (envelope : Envelope) → IsSpelledEnvelope envelope → IsEnvelope envelope }
{}

/// Each draft has a text, so a reader of its text gets that draft again.
pub fn each_draft_has_a_text(draft: &Draft)
    ensures { IsSpelledEnvelope draft.now }
{
    let _plan = draft.plan();
}

/// Two envelopes that texts can write have the same text only if they are equal. And two texts that are read as
/// the same envelope are equal.
pub fn texts_tell_drafts()
    ensures one_draft { (a b : Envelope) → IsSpelledEnvelope a → IsSpelledEnvelope b → envelope_text a ≡ envelope_text b → a ≡ b }
    ensures one_text { (bytes others : List ℕ) (envelope : Envelope) → Reads IsSpelledEnvelope envelope_text bytes (Some envelope)
        → Reads IsSpelledEnvelope envelope_text others (Some envelope) → bytes ≡ others }
{}
