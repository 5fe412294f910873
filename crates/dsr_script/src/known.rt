ghost use Rattle.std.specs.Prelude.{◌≡◌, ℕ, ◌≤◌, ◌<◌, ◌+◌, ◌*◌, ◌↔◌, ◌⊎◌, [], ◌∷◌, List, length, flat_map, IsOk, IfOk, OnOk, OnErr, IfSome, IsSome, IsTrue, IsOkUnless};
ghost use Rattle.dsr_base.specs.Member.{In};
ghost use Rattle.dsr_desk.specs.Signature.{Signature};
ghost use Rattle.dsr_envelope.specs.declared.envelope.Envelope.{Envelope};
ghost use Rattle.dsr_script.specs.Support.Carried.{carried, on_chain};
ghost use Rattle.dsr_script.specs.Support.Noted.{noted, noted_all, beside};
ghost use Rattle.dsr_script.specs.Support.Said.{said_of};

use crate::known_signature::KnownSignature;
use crate::said::Said;
use dsr_chain::{Chain, SignedRequest};
use dsr_desk::Signature;
use dsr_envelope::Envelope;
use dsr_names::Refusal;
use indexmap::IndexSet;
use std::alloc::Global;
use std::marker::Model;

/// The most signatures of a chain: 16 of its own, and 8 beside the requests of its value.
const MOST_ON_CHAIN: usize = 24;

/// The most signatures of an envelope: 24 on each of its 32 chains.
const MOST_CARRIED: usize = 768;

/// The signatures that were seen, which can be sent on: a set, in which a signature is found by a hash of what it says.
#[derive(Drop)]
pub struct Known {
    seen: IndexSet<KnownSignature>,
}

impl Model for Known {
    ghost use Rattle.indexmap.specs.IndexSet.{spare};
    ghost use Rattle.dsr_script.specs.Known.{Known};

    ghost Value = { Known };

    ghost view = { λ k. record { signatures = k.seen.keys; room = spare k.seen } };
}

impl Known {
    ghost use Rattle.dsr_envelope.specs.Envelope.{Carries};
    ghost use Rattle.dsr_script.specs.Known.{StandFor, most_carried};

    /// Makes an empty set. It takes no memory.
    pub fn new(alloc: Global) -> Known
        ensures none { result.signatures ≡ [] }
    {
        Known {
            seen: IndexSet::new(alloc),
        }
    }

    /// Adds the signatures that the envelope carries: those of its chains, those beside the requests of its chains' values, and
    /// the one beside the request that it asks. `NoMemory` if memory runs out: then the known signatures stay the same. An
    /// envelope with at most 32 chains takes no memory if there is room for it.
    pub fn learn(&mut self, envelope: &Envelope) -> Result<(), Refusal>
        ensures learned { (s : Signature)
            → OnOk result (In s self.new.signatures ↔ (In s self.old.signatures ⊎ Carries envelope.now s)) }
        ensures stands { (envelopes : List Envelope)
            → StandFor self.old.signatures envelopes → OnOk result (StandFor self.new.signatures (envelope.now ∷ envelopes)) }
        ensures stays { OnErr result (self.new.signatures ≡ self.old.signatures) }
        ensures room { most_carried envelope.now ≤ 768 → most_carried envelope.now ≤ self.old.room → IsOk result }
        ensures refusal { IsOkUnless result Refusal.NoMemory }
    {
        self.take_in(envelope)
    }

    /// Makes room for the signatures of one more envelope with at most 32 chains. `NoMemory` if memory runs out. The known signatures stay the same.
    pub fn room(&mut self) -> Result<(), Refusal>
        ensures same { self.new.signatures ≡ self.old.signatures }
        ensures room { OnOk result (768 ≤ self.new.room) }
        ensures stays { self.old.room ≤ self.new.room }
        ensures had { 768 ≤ self.old.room → IsOk result }
        ensures refusal { IsOkUnless result Refusal.NoMemory }
    {
        self.reserve(MOST_CARRIED)
    }

    /// Returns the known signature that says this; `None` if no known one does.
    pub(crate) fn find(&self, said: &Said<'_>) -> Option<&Signature>
        ensures found { IfSome result (λ signature. signature.now ≡ said_of said.now) }
        ensures when { IsSome result ↔ In (said_of said.now) self.now.signatures }
    {
        match self.seen.get(said) {
            None => None,
            Some(known) => Some(known.signature()),
        }
    }

    /// Notes the signatures of the envelope, after making room for all of them. `NoMemory` if memory runs out: then none is noted.
    fn take_in(&mut self, envelope: &Envelope) -> Result<(), Refusal>
        ensures noted { OnOk result (self.new.signatures ≡ noted_all self.old.signatures (carried envelope.now)) }
        ensures stays { OnErr result (self.new.signatures ≡ self.old.signatures) }
        ensures room { most_carried envelope.now ≤ 768 → most_carried envelope.now ≤ self.old.room → IsOk result }
        ensures refusal { IsOkUnless result Refusal.NoMemory }
    {
        match envelope {
            Envelope::Round { chains, .. } => {
                let chains = chains.as_slice();
                let Some(most) = chains.len().checked_mul(MOST_ON_CHAIN) else {
                    return Err(Refusal::NoMemory);
                };
                self.reserve(most)?;
                self.note_chains(chains);
                Ok(())
            }
            Envelope::Ask(ask) => {
                self.reserve(1)?;
                self.note(&ask.signed().signature);
                Ok(())
            }
            Envelope::Empty | Envelope::Reply(_) | Envelope::Seen(_) => Ok(()),
        }
    }

    /// Makes room for `count` more signatures. `NoMemory` if memory runs out.
    fn reserve(&mut self, count: usize) -> Result<(), Refusal>
        ensures same { self.new.signatures ≡ self.old.signatures }
        ensures room { OnOk result (count ≤ self.new.room) }
        ensures stays { self.old.room ≤ self.new.room }
        ensures had { count ≤ self.old.room → IsOk result }
        ensures refusal { IsOkUnless result Refusal.NoMemory }
    {
        match self.seen.reserve(count) {
            Ok(()) => Ok(()),
            Err(_) => Err(Refusal::NoMemory),
        }
    }

    /// Notes the signatures on each chain.
    fn note_chains(&mut self, chains: &[Chain])
        requires { length chains.now * 24 ≤ self.old.room }
        ensures { self.new.signatures ≡ noted_all self.old.signatures (flat_map on_chain chains.now) }
    {
        for chain in chains {
            self.note_chain(chain);
        }
    }

    /// Notes the signatures on a chain.
    fn note_chain(&mut self, chain: &Chain)
        requires { 24 ≤ self.old.room }
        ensures noted { self.new.signatures ≡ noted_all self.old.signatures (on_chain chain.now) }
        ensures room { self.old.room ≤ self.new.room + 24 }
    {
        // For the proof: a chain has at most 16 signatures.
        let _few = chain.signature_count();
        self.note_own(chain);
        self.note_beside(chain.signed());
    }

    /// Notes the chain's own signatures.
    fn note_own(&mut self, chain: &Chain)
        requires { length chain.now.signatures ≤ self.old.room }
        ensures noted { self.new.signatures ≡ noted_all self.old.signatures chain.now.signatures }
        ensures room { self.old.room ≤ self.new.room + length chain.now.signatures }
    {
        for place in 0..chain.signature_count() {
            self.note(&chain.signature(place));
        }
    }

    /// Notes the signatures beside these requests.
    fn note_beside(&mut self, asks: &[SignedRequest])
        requires { length asks.now ≤ self.old.room }
        ensures noted { self.new.signatures ≡ noted_all self.old.signatures (beside asks.now) }
        ensures room { self.old.room ≤ self.new.room + length asks.now }
    {
        for ask in asks {
            self.note(&ask.signature);
        }
    }

    /// Notes a signature.
    fn note(&mut self, signature: &Signature)
        requires { 0 < self.old.room }
        ensures noted { self.new.signatures ≡ noted self.old.signatures signature.now }
        ensures room { self.old.room ≤ self.new.room + 1 }
    {
        self.seen
            .insert(KnownSignature::of(signature.copy()))
            .unwrap();
    }
}
