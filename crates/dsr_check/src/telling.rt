//! What an audit reports about the run that it has followed.

ghost use Rattle.std.specs.Prelude.{◌≡◌, ◌++◌, ◌<◌, true, IfSome, IfNone, ℕ, List, IfOk, OnOk, IsOkUnless, length, map, reverse};
ghost use Rattle.dsr_ledger.specs.declared.reply.Reply.{Reply as AReply};
ghost use Rattle.dsr_names.specs.Shape.{is_traitor};
ghost use Rattle.dsr_names.specs.declared.actor.Actor.TheVariants.{Replica as ReplicaNumber};
ghost use Rattle.dsr_run.specs.History.{accepted_by, history};
ghost use Rattle.dsr_run.specs.Step.{Step, log_of};
ghost use Rattle.dsr_check.specs.Support.Audit.{Stands, StandsFor};
ghost use Rattle.dsr_check.specs.Support.Party.{PlaysReplica};
ghost use Rattle.dsr_check.specs.Verdict.{IsVerdict, accepted_of};

use crate::audit::Audit;
use crate::party::Party;
use crate::verdict::Verdict;
use dsr_ledger::Reply;
use dsr_names::{Actor, ClientId, Refusal};
use dsr_replica::Replica;
use dsr_request::Request;
use std::alloc::Global;

impl<'a> Audit<'a> {
    /// Makes the verdict on the run that was followed. Requires that the run has `entries` entries. `NoMemory` if memory runs out.
    pub(crate) fn verdict(&self, alloc: Global, entries: u64) -> Result<Verdict, Refusal>
        requires { Stands self.now }
        ensures verdict { (run : List Step) → StandsFor self.now run → length run ≡ entries → IfOk result (IsVerdict self.now.shape run) }
        ensures refusal { IsOkUnless result Refusal.NoMemory }
    {
        let history = copy_of(alloc, self.history())?;
        let accepted = self.accepted(alloc)?;
        Ok(Verdict::of(entries, history, accepted))
    }

    /// Returns the history of the run: that of the loyal replica with the most closed slots.
    fn history(&self) -> &[Request]
        requires { Stands self.now }
        ensures { (run : List Step) → StandsFor self.now run → result.now ≡ reverse (history self.now.shape (log_of run)) }
    {
        let mut history: &[Request] = &[];
        let mut closed = 0;
        for number in 0..self.shape.n() {
            if let Some(replica) = self.replica(number) {
                let decided = replica.decided();
                if decided.len() > closed {
                    closed = decided.len();
                    history = replica.history();
                }
            }
        }
        history
    }

    /// Returns the replies that the clients accepted. `NoMemory` if memory runs out.
    fn accepted(&self, alloc: Global) -> Result<Vec<(ClientId, Reply)>, Refusal>
        requires { Stands self.now }
        ensures same { (run : List Step) → StandsFor self.now run
            → IfOk result (λ list. list.items ≡ accepted_of self.now.shape (log_of run) self.now.shape.m) }
        ensures refusal { IsOkUnless result Refusal.NoMemory }
    {
        let mut list = Vec::new(alloc);
        for number in 0..self.shape.m() {
            let client = ClientId::of(number);
            add(&mut list, client, self.replies(client))?;
        }
        Ok(list)
    }

    /// Returns the loyal replica with this number; `None` for a traitor.
    fn replica(&self, number: u8) -> Option<&Replica>
        requires stands { Stands self.now }
        requires inside { number < self.now.shape.n }
        ensures loyal { (run : List Step) → StandsFor self.now run
            → IfSome result (λ replica. PlaysReplica self.now.shape number (log_of run (ReplicaNumber number)) replica.now) }
        ensures traitor { (run : List Step) → StandsFor self.now run
            → IfNone result (is_traitor self.now.shape number ≡ true) }
    {
        match &self.parties[number as usize] {
            Party::Loyal(replica) => Some(replica),
            Party::Traitor | Party::Client(_) => None,
        }
    }

    /// Returns the replies that a client accepted, in the order of acceptance.
    fn replies(&self, client: ClientId) -> &[Reply]
        requires stands { Stands self.now }
        requires inside { client < self.now.shape.m }
        ensures { (run : List Step) → StandsFor self.now run
            → result.now ≡ reverse (accepted_by self.now.shape (log_of run) client) }
    {
        match &self.parties[self.shape.place(&Actor::Client(client))] {
            Party::Client(customer) => customer.accepted.as_slice(),
            Party::Loyal(_) | Party::Traitor => &[],
        }
    }
}

/// Adds the replies that a client accepted. `NoMemory` if memory runs out.
fn add(
    list: &mut Vec<(ClientId, Reply)>,
    client: ClientId,
    replies: &[Reply],
) -> Result<(), Refusal>
    ensures added { OnOk result (list.new.items ≡ list.old.items ++ map (λ (reply : AReply). (client, reply)) replies.now) }
    ensures refusal { IsOkUnless result Refusal.NoMemory }
{
    for reply in replies {
        list.push((client, *reply))?;
    }
    Ok(())
}

/// Returns a copy of these requests. `NoMemory` if memory runs out.
fn copy_of(alloc: Global, requests: &[Request]) -> Result<Vec<Request>, Refusal>
    ensures same { IfOk result (λ copy. copy.items ≡ requests.now) }
    ensures refusal { IsOkUnless result Refusal.NoMemory }
{
    let mut copy = Vec::with_capacity(alloc, requests.len())?;
    for request in requests {
        copy.push(*request)?;
    }
    Ok(copy)
}
