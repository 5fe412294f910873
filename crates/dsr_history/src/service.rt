ghost use Rattle.std.specs.Prelude.{◌≡◌, ℕ, ◌+◌, ◌<◌, ◌≤◌, ◌^◌, ◌↔◌, ◌∷◌, [], List, length, IsSome, IsTrue, IfOk, IfSome, IfNone, OnSome, IsOkUnless};
ghost use Rattle.dsr_register.specs.Values.{value, answer_after};
ghost use Rattle.dsr_request.specs.Request.{Request};
ghost use Rattle.dsr_history.specs.History.{acting, rises_above, operations, reply_in};
ghost use Rattle.dsr_history.specs.Support.Service.{IsAfter};

use dsr_ledger::{Ledger, Reply};
use dsr_names::{ClientId, Refusal, Shape};
use dsr_register::Directory;
use dsr_request::{Answer, Name, Request};
use std::alloc::Global;
use std::marker::Model;

/// What the answer to the next request depends on: the directory, the last reply to each client, and how many requests
/// acted. It stores no history, so `new` allocates all its memory.
#[derive(Drop)]
pub(crate) struct Service {
    directory: Directory,
    ledger: Ledger,
    count: u64,
}

impl Model for Service {
    ghost use Rattle.dsr_history.specs.Support.Service.{Service};

    ghost Value = { Service };

    ghost view = { λ service. record { registers = service.directory; replies = service.ledger; count = service.count } };
}

impl Service {
    /// Creates a service that has processed no request, for the clients of the shape. `NoMemory` if the memory for its
    /// registers and replies is refused.
    pub(crate) fn new(alloc: Global, shape: &Shape) -> Result<Service, Refusal>
        ensures empty { IfOk result (λ service. IsAfter service []) }
        ensures clients { IfOk result (λ service. length service.replies ≡ shape.now.m) }
        ensures refusal { IsOkUnless result Refusal.NoMemory }
    {
        let directory = Directory::new(alloc)?;
        let ledger = Ledger::new(alloc, shape.m())?;
        Ok(Service {
            directory,
            ledger,
            count: 0,
        })
    }

    /// Processes the request, and returns its answer if it acts. Allocates nothing. Requires a client of the shape,
    /// and that fewer than 2^40 requests acted.
    pub(crate) fn process(&mut self, request: &Request) -> Option<Answer>
        requires client { request.now.client < length self.old.replies }
        requires short { self.old.count < 2 ^ 40 }
        ensures when { (older : List Request) → IsAfter self.old (acting older) → IsSome result ↔ IsTrue (rises_above request.now older) }
        ensures processed { (older : List Request) → IsAfter self.old (acting older) → IsAfter self.new (acting (request.now ∷ older)) }
        ensures acted { (history : List Request) → IsAfter self.old history → OnSome result (IsAfter self.new (request.now ∷ history)) }
        ensures answer { (history : List Request) → IsAfter self.old history
            → IfSome result (λ answer. answer ≡ answer_after (operations history) request.now.op) }
        ensures idle { IfNone result (self.new ≡ self.old) }
        ensures clients { length self.new.replies ≡ length self.old.replies }
        ensures count { self.new.count ≤ self.old.count + 1 }
    {
        let client = request.client();
        let number = request.number();
        if !self.ledger.acts(client, number) {
            return None;
        }
        let place = self.count;
        let answer = self.directory.apply(request.op());
        self.ledger.note(
            client,
            Reply {
                number,
                place,
                answer,
            },
        );
        self.count += 1;
        Some(answer)
    }

    /// Returns the client's last reply, to the last of its requests that acted; `None` if none did.
    pub(crate) fn kept(&self, client: ClientId) -> Option<Reply>
        ensures { (history : List Request) → IsAfter self.now history → result ≡ reply_in history client }
    {
        self.ledger.kept(client)
    }

    /// Returns what the register holds, or `None` if it holds nothing.
    pub(crate) fn get(&self, name: &Name) -> Option<u64>
        ensures { (history : List Request) → IsAfter self.now history → result ≡ value (operations history) name.now }
    {
        self.directory.get(name)
    }
}
