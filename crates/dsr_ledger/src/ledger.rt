ghost use Rattle.std.specs.Prelude.{◌≡◌, ◌<◌, ◌↔◌, None, Some, IfOk, IsTrue, length, replicate, slice_set, IsOkUnless};
ghost use Rattle.dsr_ledger.specs.LastReply.{last_reply, Acts};

use crate::reply::Reply;
use dsr_names::{ClientId, Refusal};
use std::alloc::Global;
use std::marker::Model;

/// The last reply to each client of a shape; `None` before its first.
#[derive(Drop)]
pub struct Ledger {
    replies: Vec<Option<Reply>>,
}

impl Model for Ledger {
    ghost use Rattle.std.specs.Prelude.{List, Option};
    ghost use Rattle.dsr_ledger.specs.declared.reply.Reply.{Reply};

    ghost Value = { List (Option Reply) };

    ghost view = { λ ledger. ledger.replies.items };
}

impl Ledger {
    /// Creates the ledger of `clients` clients, with no replies yet. Allocates all its memory. `NoMemory` if memory
    /// runs out.
    pub fn new(alloc: Global, clients: u8) -> Result<Ledger, Refusal>
        ensures empty { IfOk result (λ ledger. ledger ≡ replicate clients None) }
        ensures refusal { IsOkUnless result Refusal.NoMemory }
    {
        let replies = vec![in alloc; None; clients as usize]?;
        Ok(Ledger { replies })
    }

    /// Tells whether a request of this client with this number would act: the number is above that of the client's
    /// last reply, or at least 1 before the first. Requires that the client is one of the ledger's.
    pub fn acts(&self, client: ClientId, number: u64) -> bool
        requires { client < length self.now }
        ensures { IsTrue result ↔ Acts (last_reply self.now client) number }
    {
        match self.kept(client) {
            Some(reply) => reply.number < number,
            None => number > 0,
        }
    }

    /// Returns the client's last reply; `None` before its first, and for a client outside the shape.
    pub fn kept(&self, client: ClientId) -> Option<Reply>
        ensures { result ≡ last_reply self.now client }
    {
        let place = client.number() as usize;
        if place < self.replies.len() {
            self.replies[place]
        } else {
            None
        }
    }

    /// Stores this reply as the client's last one. Requires that the client is one of the ledger's, and that the
    /// reply's number acts.
    pub fn note(&mut self, client: ClientId, reply: Reply)
        requires inside { client < length self.old }
        requires acts { Acts (last_reply self.old client) reply.number }
        ensures { self.new ≡ slice_set self.old client (Some reply) }
    {
        self.replies[client.number() as usize] = Some(reply);
    }
}
