ghost use Rattle.std.specs.Prelude.{◌≡◌, ℕ, ◌+◌, ◌<◌, ◌≤◌, ◌^◌, ◌↔◌, ◌∷◌, [], List, All, length, reverse, OnOk, IsOk, IfOk, IsTrue, IsOkUnless};
ghost use Rattle.dsr_chain.specs.Content.{requests_in};
ghost use Rattle.dsr_request.specs.Request.{Request};
ghost use Rattle.dsr_history.specs.History.{acted, reply};
ghost use Rattle.dsr_history.specs.Machine.{StandsFor};
ghost use Rattle.dsr_replica.specs.Support.Decisions.{Decisions, HasRoom, processed};

use dsr_history::Machine;
use dsr_ledger::Reply;
use dsr_names::{ClientId, Refusal, Shape};
use dsr_request::Request;
use dsr_slot::Decision;
use std::alloc::Global;
use std::marker::Model;

/// The decisions of the closed slots, and the machine that processed their requests.
#[derive(Drop)]
pub(crate) struct Decisions {
    machine: Machine,
    list: Vec<Decision>,
}

impl Model for Decisions {
    ghost use Rattle.dsr_replica.specs.Support.Decisions.{Decisions};
    ghost use Rattle.dsr_replica.specs.Support.DecisionsFields.{IsDecisionsFields, decisions_of};

    ghost Value = { Decisions };

    ghost view = { decisions_of };

    ghost invariant = { IsDecisionsFields };
}

impl Decisions {
    /// Creates an empty list, for the clients of the shape. `NoMemory` if the memory of the machine is refused.
    pub(crate) fn new(alloc: Global, shape: &Shape) -> Result<Decisions, Refusal>
        ensures none { IfOk result (λ decisions. decisions.values ≡ []) }
        ensures clients { IfOk result (λ decisions. decisions.clients ≡ shape.now.m) }
        ensures refusal { IsOkUnless result Refusal.NoMemory }
    {
        let machine = Machine::new(alloc, shape)?;
        Ok(Decisions {
            machine,
            list: Vec::new(alloc),
        })
    }

    /// Makes room for one more decision. `NoMemory` if it is refused: then nothing changes, except that there may be more room. It is
    /// not refused if there is room already.
    pub(crate) fn room(&mut self) -> Result<(), Refusal>
        ensures ok { OnOk result (HasRoom self.new) }
        ensures has { HasRoom self.old → IsOk result }
        ensures refusal { IsOkUnless result Refusal.NoMemory }
        ensures values { self.new.values ≡ self.old.values }
        ensures clients { self.new.clients ≡ self.old.clients }
        ensures no_less { HasRoom self.old → HasRoom self.new }
    {
        if self.has_room() {
            return Ok(());
        }
        self.machine.room()?;
        self.list.reserve(1)?;
        Ok(())
    }

    /// Returns whether there is room for one more decision.
    pub(crate) fn has_room(&self) -> bool
        ensures { IsTrue result ↔ HasRoom self.now }
    {
        8 <= self.machine.spare() && self.list.len() < self.list.capacity()
    }

    /// Adds the decision of the next slot, and processes its requests. Allocates nothing. Requires room for it,
    /// requests of the shape's clients only, and fewer than 2^36 decisions.
    pub(crate) fn add(&mut self, decision: Decision)
        requires room { HasRoom self.old }
        requires clients { All (λ r. r.client < self.old.clients) (requests_in decision) }
        requires short { length self.old.values < 2 ^ 36 }
        ensures values { self.new.values ≡ decision ∷ self.old.values }
        ensures clients { self.new.clients ≡ self.old.clients }
    {
        process(&mut self.machine, &decision);
        self.list.push_reserved(decision);
    }

    /// Returns the requests that acted, in their order.
    pub(crate) fn history(&self) -> &[Request]
        ensures { result.now ≡ reverse (acted (processed self.now)) }
    {
        self.machine.history()
    }

    /// Returns the reply to the client's last request that acted.
    pub(crate) fn kept(&self, client: ClientId) -> Option<Reply>
        ensures { result ≡ reply (processed self.now) client }
    {
        self.machine.kept(client)
    }

    /// Returns the decisions, by the numbers of the slots.
    pub(crate) fn list(&self) -> &[Decision]
        ensures { result.now ≡ reverse self.now.values }
    {
        self.list.as_slice()
    }
}

/// Lets the machine process the requests of a decision. Requires room for them, requests of the machine's clients only,
/// and a history of fewer than 2^39 requests.
fn process(machine: &mut Machine, decision: &Decision)
    requires room { 8 ≤ machine.old.room }
    requires clients { All (λ r. r.client < machine.old.clients) (requests_in decision.now) }
    requires short { length machine.old.history < 2 ^ 39 }
    ensures stands { (values : List (List Request)) → StandsFor machine.old values → StandsFor machine.new (requests_in decision.now ∷ values) }
    ensures few { length machine.new.history ≤ length machine.old.history + 8 }
    ensures clients { machine.new.clients ≡ machine.old.clients }
{
    // most values have one request, and it is taken out alone: a content moves the room for eight
    if let [only] = decision.signed() {
        accept(machine, &[only.request]);
        return;
    }
    match decision.content() {
        Some(requests) => accept(machine, requests.as_slice()),
        None => accept(machine, &[]),
    }
}

/// Lets the machine process these requests. Requires what `process` does.
fn accept(machine: &mut Machine, requests: &[Request])
    requires room { 8 ≤ machine.old.room }
    requires few { length requests.now ≤ 8 }
    requires clients { All (λ r. r.client < machine.old.clients) requests.now }
    requires short { length machine.old.history < 2 ^ 39 }
    ensures stands { (values : List (List Request)) → StandsFor machine.old values → StandsFor machine.new (requests.now ∷ values) }
    ensures few { length machine.new.history ≤ length machine.old.history + 8 }
    ensures clients { machine.new.clients ≡ machine.old.clients }
{
    // Room for 8 requests is there, so memory does not run out.
    let _accepted = machine.accept_value(requests);
}
