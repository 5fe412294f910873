ghost use Rattle.std.specs.Prelude.{◌≡◌, ◌<◌, ◌≤◌, ◌+◌, ◌↔◌, ◌++◌, ◌∷◌, [], Any, Some, length, slice_get, IfOk, IfErr, IsTrue, IsOkUnless};
ghost use Rattle.dsr_chain.specs.Chain.{signers_of as signers_in};

use crate::shared_value::SharedValue;
use crate::signatures::Signatures;
use crate::signed_request::SignedRequest;
use crate::slot_value::SlotValue;
use dsr_desk::{Key, Links, Signature, Signers, Statement};
use dsr_names::{Actor, Refusal};
use dsr_request::Requests;
use std::alloc::Global;
use std::marker::Model;
use std::sync::Arc;

/// What the handles of one chain share.
#[derive(Drop)]
struct Body {
    slot: u64,
    value: SharedValue,
    signatures: Signatures,
}

/// The value of a slot with at most 16 signatures beside it. A chain is never changed: copies share what
/// they hold, and chains made by `extend` share their value.
#[derive(Drop)]
pub struct Chain {
    body: Arc<Body, Global>,
}

impl Model for Chain {
    ghost use Rattle.std.specs.Arc.{arc_value};
    ghost use Rattle.dsr_chain.specs.Chain.{Chain, chain_of};
    ghost use Rattle.dsr_chain.specs.Support.Signatures.{signatures_in, AreKept};

    ghost Value = { Chain };

    ghost view = { λ c. chain_of (arc_value c.body).slot (arc_value c.body).value (signatures_in (arc_value c.body).signatures) };

    ghost invariant = { λ c. AreKept (arc_value c.body).slot (arc_value c.body).value (arc_value c.body).signatures };
}

impl Chain {
    ghost use Rattle.dsr_chain.specs.Content.{content, signed_in, value_of};
    ghost use Rattle.dsr_chain.specs.Chain.{chain_of, started, extended};
    ghost use Rattle.dsr_chain.specs.Faults.{HasMisfit};
    ghost use Rattle.dsr_chain.specs.Support.Signatures.{signatures_in, AreKept};

    /// Creates the chain of this value with the key's signature alone. `NoMemory` if memory runs out.
    pub fn start(alloc: Global, slot: u64, value: SlotValue, key: &Key) -> Result<Chain, Refusal>
        ensures started { IfOk result (λ chain. chain ≡ started slot value key.now) }
        ensures refusal { IsOkUnless result Refusal.NoMemory }
    {
        Chain::start_with(alloc, slot, value.signed(), key)
    }

    /// Creates the chain whose value has these signed requests, with the key's signature alone; the value is idle if the
    /// list is empty. Requires at most 8 requests. `NoMemory` if memory runs out.
    pub fn start_with(
        alloc: Global,
        slot: u64,
        signed: &[SignedRequest],
        key: &Key,
    ) -> Result<Chain, Refusal>
        requires few { length signed.now ≤ 8 }
        ensures started { IfOk result (λ chain. chain ≡ started slot (value_of signed.now) key.now) }
        ensures refusal { IsOkUnless result Refusal.NoMemory }
    {
        let value = SharedValue::of(alloc, signed)?;
        let links = Links::start(alloc, slot, &value.content(), key)?;
        let signatures = Signatures::InTurn(links);
        Chain::share(
            alloc,
            Body {
                slot,
                value,
                signatures,
            },
        )
    }

    /// Puts the key's signature, on the link that fits there, at the end of the chain. Requires fewer than 16
    /// signatures. If memory runs out or one more handle is refused, gives the chain back with `NoMemory`.
    pub fn extend(self, alloc: Global, key: &Key) -> Result<Chain, (Chain, Refusal)>
        requires { length self.signatures < 16 }
        ensures extended { IfOk result (λ chain. chain ≡ extended self key.now) }
        ensures back { IfErr result (λ e. e.0 ≡ self) }
        ensures refusal { IfErr result (λ e. e.1 ≡ Refusal.NoMemory) }
    {
        match self.try_extended(alloc, key) {
            Ok(chain) => Ok(chain),
            Err(refusal) => Err((self, refusal)),
        }
    }

    /// Makes a chain of these parts without checking them. Requires at most 16 signatures. `NoMemory` if memory runs
    /// out: then the list of signatures is dropped.
    pub fn of(
        alloc: Global,
        slot: u64,
        value: SlotValue,
        signatures: Vec<Signature>,
    ) -> Result<Chain, Refusal>
        requires { length signatures.items ≤ 16 }
        ensures made { IfOk result (λ chain. chain ≡ chain_of slot value signatures.items) }
        ensures refusal { IsOkUnless result Refusal.NoMemory }
    {
        let value = SharedValue::of(alloc, value.signed())?;
        Chain::of_shared(alloc, slot, value, signatures)
    }

    /// Returns a copy, which shares what this chain holds. `NoMemory` if one more handle is refused.
    pub fn try_copy(&self) -> Result<Chain, Refusal>
        ensures same { IfOk result (λ chain. chain ≡ self.now) }
        ensures refusal { IsOkUnless result Refusal.NoMemory }
    {
        match Arc::try_clone(&self.body) {
            Ok(body) => Ok(Chain { body }),
            Err(_) => Err(Refusal::NoMemory),
        }
    }

    /// Returns the slot that the chain is for.
    pub fn slot(&self) -> u64
        ensures { result ≡ self.now.slot }
    {
        self.body.slot
    }

    /// Returns the value that was signed.
    pub fn value(&self) -> SlotValue
        ensures { result ≡ self.now.value }
    {
        self.body.value.value()
    }

    /// Returns the value's requests without the signatures beside them, or `None` if it is idle.
    pub fn content(&self) -> Option<Requests>
        ensures { result ≡ content self.now.value }
    {
        self.body.value.content()
    }

    /// Returns the number of signatures, at most 16.
    pub fn signature_count(&self) -> usize
        ensures same { result ≡ length self.now.signatures }
        ensures few { result ≤ 16 }
    {
        match &self.body.signatures {
            Signatures::InTurn(links) => links.signers().len(),
            Signatures::Given(list) => list.len(),
        }
    }

    /// Returns the signature at `place`, counted from 0. Requires that there is one.
    pub fn signature(&self, place: usize) -> Signature
        requires { place < length self.now.signatures }
        ensures { slice_get self.now.signatures place ≡ Some result }
    {
        match &self.body.signatures {
            Signatures::InTurn(links) => links.signature(place),
            Signatures::Given(list) => list[place],
        }
    }

    /// Returns the signers, in the order in which they signed.
    pub fn signers(&self) -> Signers
        ensures { result ≡ signers_in self.now.signatures }
    {
        match &self.body.signatures {
            Signatures::InTurn(links) => links.signers(),
            Signatures::Given(list) => signers_of(list.as_slice()),
        }
    }

    /// Returns the value's signed requests: at most 8, none if it is idle.
    pub fn signed(&self) -> &[SignedRequest]
        ensures same { result.now ≡ signed_in self.now.value }
        ensures few { length (signed_in self.now.value) ≤ 8 }
        ensures value { value_of (signed_in self.now.value) ≡ self.now.value }
    {
        self.body.value.signed()
    }

    /// Returns whether one of the signatures is by this actor.
    pub fn has_signer(&self, actor: Actor) -> bool
        ensures { IsTrue result ↔ Any (λ signature. signature.signer ≡ actor) self.now.signatures }
    {
        stands_in(actor, self.signers().as_slice())
    }

    /// Returns whether the values of two chains have the same content: the same requests in the same order, with whatever
    /// signatures beside them, or no requests in either.
    pub fn same_content(&self, other: &Chain) -> bool
        ensures { IsTrue result ↔ (content self.now.value ≡ content other.now.value) }
    {
        self.body.value.same_content(&other.body.value)
    }

    /// Returns whether two chains have the same slot, value and signatures.
    pub fn same(&self, other: &Chain) -> bool
        ensures { IsTrue result ↔ (self.now ≡ other.now) }
    {
        self.slot() == other.slot()
            && self.body.value.same(&other.body.value)
            && self.has_same_signatures(other)
    }

    /// Returns whether one of the signatures is on a statement that does not fit its place.
    pub fn has_misfit(&self) -> bool
        ensures { IsTrue result ↔ HasMisfit self.now }
    {
        match &self.body.signatures {
            Signatures::InTurn(_) => false,
            Signatures::Given(_) => true,
        }
    }

    /// Returns whether two chains with the same slot and value have the same signatures.
    fn has_same_signatures(&self, other: &Chain) -> bool
        requires slot { self.now.slot ≡ other.now.slot }
        requires value { self.now.value ≡ other.now.value }
        ensures { IsTrue result ↔ (self.now.signatures ≡ other.now.signatures) }
    {
        match (&self.body.signatures, &other.body.signatures) {
            (Signatures::InTurn(ours), Signatures::InTurn(theirs)) => {
                ours.signers().same(&theirs.signers())
            }
            (Signatures::Given(ours), Signatures::Given(theirs)) => {
                same_signatures(ours.as_slice(), theirs.as_slice())
            }
            (Signatures::InTurn(_), Signatures::Given(_)) => false,
            (Signatures::Given(_), Signatures::InTurn(_)) => false,
        }
    }

    /// Makes a chain of these parts without checking them.
    fn of_shared(
        alloc: Global,
        slot: u64,
        value: SharedValue,
        signatures: Vec<Signature>,
    ) -> Result<Chain, Refusal>
        requires { length signatures.items ≤ 16 }
        ensures made { IfOk result (λ chain. chain ≡ chain_of slot value signatures.items) }
        ensures refusal { IsOkUnless result Refusal.NoMemory }
    {
        let links = Links::of(alloc, slot, &value.content(), signatures.as_slice())?;
        let signatures = match links {
            Some(links) => Signatures::InTurn(links),
            None => Signatures::Given(signatures),
        };
        Chain::share(
            alloc,
            Body {
                slot,
                value,
                signatures,
            },
        )
    }

    /// Puts this body behind a handle of shared memory.
    fn share(alloc: Global, body: Body) -> Result<Chain, Refusal>
        requires { AreKept body.slot body.value body.signatures }
        ensures made { IfOk result (λ chain. chain ≡ chain_of body.slot body.value (signatures_in body.signatures)) }
        ensures refusal { IsOkUnless result Refusal.NoMemory }
    {
        let body = Arc::new(alloc, body)?;
        Ok(Chain { body })
    }

    /// Makes a chain that has the key's signature at its end, and shares the value.
    fn try_extended(&self, alloc: Global, key: &Key) -> Result<Chain, Refusal>
        requires { length self.now.signatures < 16 }
        ensures extended { IfOk result (λ chain. chain ≡ extended self.now key.now) }
        ensures refusal { IsOkUnless result Refusal.NoMemory }
    {
        let value = self.body.value.try_share()?;
        match &self.body.signatures {
            Signatures::InTurn(links) => {
                let signatures = Signatures::InTurn(links.extend(key)?);
                Chain::share(
                    alloc,
                    Body {
                        slot: self.slot(),
                        value,
                        signatures,
                    },
                )
            }
            Signatures::Given(list) => {
                let link = Statement::Link {
                    slot: self.slot(),
                    value: self.content(),
                    before: signers_of(list.as_slice()),
                };
                let signatures = with_one_more(alloc, list.as_slice(), key.sign(link))?;
                Chain::of_shared(alloc, self.slot(), value, signatures)
            }
        }
    }
}

/// Returns the signers, in the order in which they signed.
fn signers_of(signatures: &[Signature]) -> Signers
    requires { length signatures.now ≤ 16 }
    ensures { result ≡ signers_in signatures.now }
{
    let mut signers = Signers::new();
    for signature in signatures {
        signers.push(signature.signer());
    }
    signers
}

/// Returns whether the actor is one of the signers.
pub(crate) fn stands_in(actor: Actor, signers: &[Actor]) -> bool
    ensures { IsTrue result ↔ Any (λ a. a ≡ actor) signers.now }
{
    signers.iter().any(|signer| *signer == actor)
}

/// Returns whether two lists have the same signatures in the same order.
fn same_signatures(ours: &[Signature], theirs: &[Signature]) -> bool
    ensures { IsTrue result ↔ (ours.now ≡ theirs.now) }
{
    ours == theirs
}

/// Copies the signatures and one more into a list with room for just these.
fn with_one_more(
    alloc: Global,
    signatures: &[Signature],
    last: Signature,
) -> Result<Vec<Signature>, Refusal>
    requires { length signatures.now < 16 }
    ensures all { IfOk result (λ all. all.items ≡ signatures.now ++ last ∷ []) }
    ensures refusal { IsOkUnless result Refusal.NoMemory }
{
    let mut all = Vec::with_capacity(alloc, signatures.len() + 1)?;
    all.extend_from_slice(signatures)?;
    all.push(last)?;
    Ok(all)
}
