//! The keys of all possible actors, and what they sign.

use crate::said::Failure;
use dsr_base::split_once;
use dsr_chain::{Chain, SignedRequest, SlotValue};
use dsr_desk::{Key, Keys, Signature, Statement};
use dsr_envelope::{Chains, Envelope};
use dsr_names::{Actor, ClientId, Refusal, ReplicaId, Shape};
use dsr_script::{Draft, Known, build};
use std::alloc::Global;

/// The keys of all possible actors.
#[derive(Drop)]
pub struct Desk {
    alloc: Global,
    keys: Vec<Key>,
}

impl Desk {
    /// Makes all keys.
    pub fn open(alloc: Global) -> Result<Desk, Refusal> {
        let mut keys = Keys::new(alloc, Shape::new(16, 7, 32, 0)?)?;
        let mut all = Vec::new(alloc);
        for number in 0..16u8 {
            if let Some(key) = keys.take(Actor::Replica(ReplicaId::of(number))) {
                all.push(key)?;
            }
        }
        for number in 0..32u8 {
            if let Some(key) = keys.take(Actor::Client(ClientId::of(number))) {
                all.push(key)?;
            }
        }
        Ok(Desk { alloc, keys: all })
    }

    /// Returns the allocator.
    pub fn alloc(&self) -> Global {
        self.alloc
    }

    /// Returns the key of this actor.
    pub(crate) fn key(&self, actor: Actor) -> Result<&Key, Failure> {
        match self.keys.iter().find(|key| key.signer() == actor) {
            Some(key) => Ok(key),
            None => Err(Failure::BadRow),
        }
    }

    /// Makes the envelope that the text encodes, with all its signatures.
    pub(crate) fn envelope(&self, text: &[u8]) -> Result<Envelope, Failure> {
        let draft = draft_of(self.alloc, text)?;
        let known = Known::new(self.alloc);
        match build(self.alloc, &draft, self.keys.as_slice(), &known) {
            Ok(envelope) => Ok(envelope),
            Err(refusal) => Err(Failure::Refused(refusal)),
        }
    }

    /// Makes the chain that the text encodes.
    pub(crate) fn chain(&self, text: &[u8]) -> Result<Chain, Failure> {
        if text.contains(&b' ') {
            return Err(Failure::BadRow);
        }
        let round = joined(self.alloc, b"round 0 ", text)?;
        match self.envelope(round.as_slice())? {
            Envelope::Round { chains, .. } => chains.into_vec().pop().ok_or(Failure::BadRow),
            _ => Err(Failure::BadRow),
        }
    }

    /// Makes the chains that the text encodes, with a space between them.
    pub(crate) fn chains(&self, text: &[u8]) -> Result<Vec<Chain>, Failure> {
        if text.is_empty() {
            return Ok(Vec::new(self.alloc));
        }
        let round = joined(self.alloc, b"round 0 ", text)?;
        match self.envelope(round.as_slice())? {
            Envelope::Round { chains, .. } => Ok(chains.into_vec()),
            _ => Err(Failure::BadRow),
        }
    }

    /// Makes the signed request that the text encodes.
    pub(crate) fn signed(&self, text: &[u8]) -> Result<SignedRequest, Failure> {
        let ask = joined(self.alloc, b"ask ", text)?;
        match self.envelope(ask.as_slice())? {
            Envelope::Ask(shared) => Ok(*shared.signed()),
            _ => Err(Failure::BadRow),
        }
    }

    /// Makes the value that the text encodes.
    pub(crate) fn value(&self, text: &[u8]) -> Result<SlotValue, Failure> {
        let mut chain = joined(self.alloc, b"0/", text)?;
        chain.extend_from_slice(b"/-")?;
        Ok(self.chain(chain.as_slice())?.value().copy())
    }

    /// Makes the signature that the text encodes: its signer, and the statement in parentheses.
    pub(crate) fn signature(&self, text: &[u8]) -> Result<Signature, Failure> {
        let (signer, rest) = split_once(text, b'(').ok_or(Failure::BadRow)?;
        let signer = Actor::read(signer).ok_or(Failure::BadRow)?;
        let inside = rest.strip_suffix(b")".as_slice()).ok_or(Failure::BadRow)?;
        let statement = Statement::read(inside).ok_or(Failure::BadRow)?;
        Ok(self.key(signer)?.sign(statement))
    }
}

/// Reads the draft that the text encodes.
pub(crate) fn draft_of(alloc: Global, text: &[u8]) -> Result<Draft, Failure> {
    Draft::read(alloc, text)?.ok_or(Failure::BadRow)
}

/// Returns the bytes of one, then those of the other.
fn joined(alloc: Global, front: &[u8], back: &[u8]) -> Result<Vec<u8>, Failure> {
    let mut bytes = Vec::new(alloc);
    bytes.extend_from_slice(front)?;
    bytes.extend_from_slice(back)?;
    Ok(bytes)
}

/// Returns the draft of the envelope of this round with these chains.
pub(crate) fn draft_of_round(
    alloc: Global,
    round: u64,
    chains: Vec<Chain>,
) -> Result<Draft, Failure> {
    let chains = Chains::of(chains);
    draft_of_envelope(alloc, &Envelope::Round { round, chains })
}

/// Returns the envelope as a draft. One outside the limits has no text.
pub(crate) fn draft_of_envelope(alloc: Global, envelope: &Envelope) -> Result<Draft, Failure> {
    if !envelope.fits() {
        return Err(Failure::NoCall);
    }
    Ok(Draft::of(alloc, envelope)?)
}

/// Returns the token of the value.
pub(crate) fn text_of_value(alloc: Global, value: SlotValue) -> Result<String, Failure> {
    let mut chains = Vec::new(alloc);
    chains.push(Chain::of(alloc, 0, value, Vec::new(alloc))?)?;
    let envelope = draft_of_round(alloc, 0, chains)?.to_string(alloc)?;
    let rest = envelope
        .as_str()
        .strip_prefix("round 0 0/")
        .ok_or(Failure::BadRow)?;
    let text = rest.strip_suffix("/-").ok_or(Failure::BadRow)?;
    Ok(String::from_str(alloc, text)?)
}
