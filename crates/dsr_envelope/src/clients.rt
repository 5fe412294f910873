ghost use Rattle.std.specs.Prelude.{◌≡◌, ◌≢◌, ◌↔◌, ℕ, All, AllPairs, IsSome, IfSome, IsTrue};
ghost use Rattle.std.proofs.Common.{rules};

use dsr_base::{Exact, Few};
use dsr_names::ClientId;
use std::marker::Model;

/// A list of 1 to 8 different clients, copied without allocating.
#[derive(Clone, Copy, Debug, PartialEq, Eq)]
pub struct Clients {
    list: Few<ClientId, 8>,
}

impl Model for Clients {
    ghost use Rattle.std.specs.Prelude.{List, ℕ, ◌≢◌, AllPairs};

    ghost Value = { List ℕ };

    ghost view = { λ c. c.list };

    ghost invariant = { λ c. AllPairs (λ (a : ℕ) b. a ≢ b) c.list };

    ghost inverse = { λ xs. record { list = xs } };
}

impl Clients {
    ghost use Rattle.dsr_envelope.specs.Pick.{IsClients};

    /// Makes the list of these clients. `None` if the list is empty, has more than 8 clients or has one of them twice.
    pub fn of(clients: &[ClientId]) -> Option<Clients>
        ensures some { IfSome result (λ list. list ≡ clients.now) }
        ensures when { IsSome result ↔ IsClients clients.now }
    {
        let list = Few::of(clients)?;
        if are_different(clients) {
            Some(Clients { list })
        } else {
            None
        }
    }

    /// Returns the clients in their order: 1 to 8, all different.
    pub fn as_slice(&self) -> &[ClientId]
        ensures same { result.now ≡ self.now }
        ensures clients { IsClients self.now }
    {
        self.list.as_slice()
    }
}

/// Returns whether no client is there twice.
fn are_different(clients: &[ClientId]) -> bool
    ensures { IsTrue result ↔ AllPairs (λ (a : ℕ) b. a ≢ b) clients.now }
{
    match clients {
        [] => true,
        [first, rest @ ..] => differs_from(*first, rest) && are_different(rest),
    }
}

/// Returns whether the client differs from all others.
fn differs_from(client: ClientId, others: &[ClientId]) -> bool
    ensures { IsTrue result ↔ All (λ (other : ℕ). client ≢ other) others.now }
{
    others.iter().all(|other| *other != client)
}

impl Exact for Clients {
    ghost decides = { λ a b. Prim.search rules };

    ghost clones = { λ a b. Prim.search rules };
}
