ghost use Rattle.std.specs.Prelude.{◌≡◌, ℕ, suc, ◌+◌, ◌<◌, ◌≤◌, ◌↔◌, ◌++◌, ◌∷◌, List, [], Some, All, IfOk, IfSome, IsOk, IsSome, IsNone, IsTrue, false, length, vec_capacity, IsOkUnless};
ghost use Rattle.dsr_chain.specs.Chain.{Chain};
ghost use Rattle.std.specs.Option.{option_map, option_to_list};
ghost use Rattle.dsr_chain.specs.Content.{content, signed_in};
ghost use Rattle.dsr_chain.specs.Proper.{IsAsked};
ghost use Rattle.dsr_chain.specs.ProperTest.{is_proper};
ghost use Rattle.dsr_slot.specs.Fate.{IsFate, IsFateBeside, IsKeptSo};
ghost use Rattle.dsr_slot.specs.Keeping.{kept_after, keep_one, is_kept, is_news};
ghost use Rattle.dsr_slot.specs.Conduct.{relayed, is_relayed};
ghost use Rattle.dsr_slot.specs.Support.SlotState.{IsOfSomeRound};
ghost use Rattle.dsr_slot.specs.Decision.{decision, decided};
ghost use Rattle.dsr_slot.specs.SlotState.{opened, with_chain, with_closed, with_round, decision_of, StandsFor, HasRead, IsOneChainMore};

use crate::decision::Decision;
use crate::fate::Fate;
use crate::kept::Kept;
use dsr_chain::{Chain, SlotValue};
use dsr_desk::Key;
use dsr_names::{Actor, Refusal, Shape};
use std::alloc::Global;
use std::marker::Model;

/// What a replica knows of one slot: the first two chains with distinct contents among the proper chains that it read,
/// in the rounds that are closed and in the one after them. Its size is fixed, apart from those chains, which were
/// moved in.
#[derive(Drop)]
pub struct SlotState {
    shape: Shape,
    slot: u64,
    closed: u8,
    first: Option<Kept>,
    second: Option<Kept>,
}

impl Model for SlotState {
    ghost use Rattle.dsr_slot.specs.SlotState.{SlotState};
    ghost use Rattle.dsr_slot.specs.Support.SlotState.{IsSlotFields, slot_state_of};

    ghost Value = { SlotState };

    ghost view = { slot_state_of };

    ghost invariant = { IsSlotFields };
}

impl SlotState {
    /// Creates the state of a slot before any of its rounds is closed.
    pub fn new(shape: &Shape, slot: u64) -> SlotState
        ensures opened { result ≡ opened shape.now slot }
        ensures stands { (read : ℕ → List Chain) → StandsFor result read }
    {
        // from here on the prover knows that f is at most 7
        let _f = shape.f();
        SlotState {
            shape: *shape,
            slot,
            closed: 0,
            first: None,
            second: None,
        }
    }

    /// Returns the shape in which the slot is broadcast.
    pub fn shape(&self) -> Shape
        ensures { result ≡ self.now.shape }
    {
        self.shape
    }

    /// Returns the slot.
    pub fn slot(&self) -> u64
        ensures { result ≡ self.now.slot }
    {
        self.slot
    }

    /// Returns the number of closed rounds of the slot: at most f+1, and f is at most 7.
    pub fn closed_rounds(&self) -> u8
        ensures same { result ≡ self.now.closed }
        ensures few { result ≤ self.now.shape.f + 1 }
        ensures most { result ≤ 8 }
    {
        self.closed
    }

    /// Returns a copy, which shares what the kept chains hold. `NoMemory` if one more handle is refused.
    pub fn try_copy(&self) -> Result<SlotState, Refusal>
        ensures same { IfOk result (λ copy. copy ≡ self.now) }
        ensures refusal { IsOkUnless result Refusal.NoMemory }
    {
        let first = copy_of(&self.first)?;
        let second = copy_of(&self.second)?;
        Ok(SlotState {
            shape: self.shape,
            slot: self.slot,
            closed: self.closed,
            first,
            second,
        })
    }

    /// Returns the kept chains, at most two, in the order in which they were read; the second is `None` if the first
    /// is.
    pub fn kept(&self) -> (Option<&Kept>, Option<&Kept>)
        ensures kept { self.now.kept ≡ option_to_list (option_map (λ k. k.now) result.0) ++ option_to_list (option_map (λ k. k.now) result.1) }
        ensures order { IsNone result.0 → IsNone result.1 }
    {
        (self.first.as_ref(), self.second.as_ref())
    }

    /// Tells what would become of the chain if it were read now, in the round after the closed ones, and changes nothing. Requires
    /// that the slot has such a round: that at most f are closed.
    pub fn fate(&self, chain: &Chain) -> Fate
        requires within { self.now.closed ≤ self.now.shape.f }
        ensures fate { IsFate self.now.shape self.now.slot (suc self.now.closed) self.now.kept chain.now result }
        ensures keeps { IsTrue (is_news self.now.shape self.now.slot (suc self.now.closed) self.now.kept chain.now) ↔ IsKeptSo result }
    {
        self.fate_of(chain)
    }

    /// Returns whether the chain would be kept if it were read now, in the round after the closed ones. If not, reading it changes
    /// nothing. Requires that the slot has such a round: that at most f are closed. If the chain's content is already kept, its
    /// signatures are not looked at.
    pub fn would_keep(&self, chain: &Chain) -> bool
        requires within { self.now.closed ≤ self.now.shape.f }
        ensures same { result ≡ is_news self.now.shape self.now.slot (suc self.now.closed) self.now.kept chain.now }
        ensures nothing { result ≡ false → with_chain self.now chain.now ≡ self.now }
    {
        self.is_news(self.closed + 1, chain)
    }

    /// Reads one more chain in the round after the closed ones. Requires that the slot has such a round: that at most f are
    /// closed. Keeps the chain if it is proper for the round, its content is not kept yet, and fewer than two are kept. If
    /// its content is kept, it is dropped before its signatures are looked at.
    pub fn read(&mut self, chain: Chain)
        requires within { self.old.closed ≤ self.old.shape.f }
        ensures read { self.new ≡ with_chain self.old chain }
        ensures stands { (earlier later : ℕ → List Chain) → IsOneChainMore earlier later (suc self.old.closed) chain
            → HasRead self.old earlier → HasRead self.new later }
    {
        let round = self.closed + 1;
        self.keep(round, chain);
    }

    /// Closes the round after the closed ones, with the chains that were read in it. Requires that the slot has such a
    /// round: that at most f are closed.
    pub fn close(&mut self)
        requires within { self.old.closed ≤ self.old.shape.f }
        ensures closed { self.new ≡ with_closed self.old }
        ensures stands { (read : ℕ → List Chain) → HasRead self.old read → StandsFor self.new read }
    {
        self.closed += 1;
    }

    /// Reads these chains in this round of the slot, in this order, and closes it. Requires that it is the next one,
    /// `closed_rounds` + 1, and at most f+1. Takes the chains out of the list, which keeps its room.
    pub fn close_round(&mut self, round: u8, chains: &mut Vec<Chain>)
        requires next { round ≡ self.old.closed + 1 }
        requires within { round ≤ self.old.shape.f + 1 }
        ensures read { self.new ≡ with_round self.old round chains.old.items }
        ensures stands { (read : ℕ → List Chain) → read round ≡ chains.old.items
            → StandsFor self.old read → StandsFor self.new read }
        ensures emptied { chains.new.items ≡ [] }
        ensures room { vec_capacity chains.new ≡ vec_capacity chains.old }
    {
        for chain in chains.drain(..) {
            self.read(chain);
        }
        self.close();
    }

    /// Returns the chains that the key's holder relays in this round of the slot: those kept in the round before that
    /// it has not signed, with its signature put at their end, in the order in which they were kept; so at most two.
    /// Any round may be asked for; after round f+1 a loyal replica posts nothing for the slot, though round f+2 still
    /// gives what was kept in round f+1. `NoMemory` if memory runs out or one more handle is refused; relaying nothing
    /// allocates nothing.
    pub fn relays(&self, alloc: Global, round: u8, key: &Key) -> Result<Vec<Chain>, Refusal>
        ensures relayed { IfOk result (λ chains. chains.items ≡ relayed key.now round self.now.kept) }
        ensures stands { (read : ℕ → List Chain) → StandsFor self.now read → IfOk result (λ chains.
            chains.items ≡ relayed key.now round (kept_after self.now.shape self.now.slot read self.now.closed)) }
        ensures few { IfOk result (λ chains. length chains.items ≤ 2) }
        ensures refusal { IsOkUnless result Refusal.NoMemory }
        ensures nothing { relayed key.now round self.now.kept ≡ [] → IsOk result }
    {
        let mut chains = Vec::new(alloc);
        if let Some(kept) = &self.first {
            relay(alloc, kept, round, key, &mut chains)?;
        }
        if let Some(kept) = &self.second {
            relay(alloc, kept, round, key, &mut chains)?;
        }
        Ok(chains)
    }

    /// Returns what is decided: the value of the kept chain if there is just one, else idle. `None` until round f+1 is
    /// closed. Each request of the value is signed by its client, a client of the shape.
    pub fn decide(&self) -> Option<SlotValue>
        ensures decision { result ≡ decision_of self.now }
        ensures when { IsSome result ↔ (self.now.closed ≡ self.now.shape.f + 1) }
        ensures stands { (read : ℕ → List Chain) → StandsFor self.now read
            → self.now.closed ≡ self.now.shape.f + 1 → result ≡ Some (decided self.now.shape self.now.slot read) }
        ensures asked { IfSome result (λ value. All (IsAsked self.now.shape) (signed_in value)) }
    {
        if self.closed < self.shape.f() + 1 {
            return None;
        }
        match (&self.first, &self.second) {
            (Some(kept), None) => Some(kept.chain.value()),
            _ => Some(SlotValue::Idle),
        }
    }

    /// Decides like `decide`, but moves the kept chain instead of copying its value. Requires that round f+1 is closed.
    pub fn into_decision(self) -> Decision
        requires last { self.closed ≡ self.shape.f + 1 }
        ensures decision { result ≡ decision self.kept }
        ensures stands { (read : ℕ → List Chain) → StandsFor self read → result ≡ decided self.shape self.slot read }
        ensures asked { All (IsAsked self.shape) (signed_in result) }
    {
        match (self.first, self.second) {
            (Some(kept), None) => Decision::of(kept.chain),
            _ => Decision::idle(),
        }
    }

    /// Tells what becomes of a chain that is read in the round after the closed ones. It is apart from `fate`, because the proof
    /// of `keeps` there builds on this contract.
    fn fate_of(&self, chain: &Chain) -> Fate
        requires { self.now.closed ≤ self.now.shape.f }
        ensures { IsFate self.now.shape self.now.slot (suc self.now.closed) self.now.kept chain.now result }
    {
        match chain.check(&self.shape, self.slot, self.closed + 1) {
            Ok(()) => self.fate_beside(chain),
            Err(fault) => Fate::Improper(fault),
        }
    }

    /// Tells what becomes of a proper chain beside those that are kept.
    fn fate_beside(&self, chain: &Chain) -> Fate
        ensures { IsFateBeside self.now.kept (content chain.now.value) result }
    {
        if self.is_kept(chain) {
            return Fate::NotNew;
        }
        match (&self.first, &self.second) {
            (None, _) => Fate::First,
            (Some(_), None) => Fate::Second,
            (Some(_), Some(_)) => Fate::OneTooMany,
        }
    }

    /// Returns whether a chain with the same content is kept.
    fn is_kept(&self, chain: &Chain) -> bool
        ensures { result ≡ is_kept (content chain.now.value) self.now.kept }
    {
        has_content(&self.first, chain) || has_content(&self.second, chain)
    }

    /// Keeps the chain if it is proper for this round, its content is not kept yet, and fewer than two are kept.
    fn keep(&mut self, round: u8, chain: Chain)
        requires some { 0 < round }
        requires within { round ≤ self.old.shape.f + 1 }
        ensures { self.new ≡ record self.old { kept = keep_one self.old.shape self.old.slot round self.old.kept chain } }
    {
        if !self.is_news(round, &chain) {
            return;
        }
        let kept = Some(Kept { round, chain });
        if self.first.is_none() {
            self.first = kept;
        } else {
            self.second = kept;
        }
    }

    /// Returns whether the chain is to be kept. The check of its signatures, which costs most, comes last.
    fn is_news(&self, round: u8, chain: &Chain) -> bool
        requires some { 0 < round }
        requires within { round ≤ self.now.shape.f + 1 }
        ensures { result ≡ is_news self.now.shape self.now.slot round self.now.kept chain.now }
    {
        match (&self.first, &self.second) {
            (None, _) => self.is_proper(round, chain),
            (Some(kept), None) => {
                !kept.chain.same_content(chain) && self.is_proper(round, chain)
            }
            (Some(_), Some(_)) => false,
        }
    }

    /// Returns whether the chain is proper for this round of the slot.
    fn is_proper(&self, round: u8, chain: &Chain) -> bool
        requires some { 0 < round }
        requires within { round ≤ self.now.shape.f + 1 }
        ensures { result ≡ is_proper self.now.shape self.now.slot round chain.now }
    {
        chain.check(&self.shape, self.slot, round).is_ok()
    }
}

/// Copies the kept chain; gives `None` for `None`. `NoMemory` if one more handle is refused.
fn copy_of(kept: &Option<Kept>) -> Result<Option<Kept>, Refusal>
    ensures same { IfOk result (λ copy. copy ≡ kept.now) }
    ensures refusal { IsOkUnless result Refusal.NoMemory }
{
    match kept {
        Some(kept) => Ok(Some(kept.try_copy()?)),
        None => Ok(None),
    }
}

/// Returns whether there is a kept chain, and it has the same content as `chain`.
fn has_content(kept: &Option<Kept>, chain: &Chain) -> bool
    ensures { result ≡ is_kept (content chain.now.value) (option_to_list kept.now) }
{
    match kept {
        Some(kept) => kept.chain.same_content(chain),
        None => false,
    }
}

/// Puts the kept chain, with the key's signature, at the end of the list, if the key's holder relays it in this round.
fn relay(
    alloc: Global,
    kept: &Kept,
    round: u8,
    key: &Key,
    chains: &mut Vec<Chain>,
) -> Result<(), Refusal>
    requires { IsOfSomeRound kept.now }
    ensures relayed { IfOk result (λ _. chains.new.items ≡ chains.old.items ++ relayed key.now round (kept.now ∷ [])) }
    ensures refusal { IsOkUnless result Refusal.NoMemory }
    ensures nothing { is_relayed key.now round kept.now ≡ false → IsOk result }
{
    if !is_relayed(kept, round, key.signer()) {
        return Ok(());
    }
    let copy = kept.chain.try_copy()?;
    let Ok(chain) = copy.extend(alloc, key) else {
        return Err(Refusal::NoMemory);
    };
    chains.push(chain).map_err(|_| Refusal::NoMemory)
}

/// Returns whether this replica relays the kept chain in this round.
fn is_relayed(kept: &Kept, round: u8, replica: Actor) -> bool
    requires { IsOfSomeRound kept.now }
    ensures { result ≡ is_relayed replica round kept.now }
{
    kept.round + 1 == round && !kept.chain.has_signer(replica)
}
