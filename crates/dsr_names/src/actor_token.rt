ghost use Rattle.std.specs.Prelude.{ℕ, ◌<◌, refl};
ghost use Rattle.std.proofs.Common.{lit<};
ghost use Rattle.dsr_names.specs.Actor.{IsNumbered, actor_text, client_text, replica_text};
ghost use Rattle.dsr_names.specs.Support.ActorToken.{replica_part, client_part, actor_part, actor_begun};

use crate::actor::{Actor, ClientId, ReplicaId};
use dsr_base::Token;

/// Actors are joined by plus signs, like `r0+c1`.
impl Token for Actor {
    ghost is = { IsNumbered };

    ghost text = { actor_text };

    ghost MARK = { 43 };

    const MARK: u8 = b'+';

    fn read(bytes: &[u8]) -> Option<Actor> {
        Actor::read(bytes)
    }

    // Every actor in hand has a token: the calls of `number` say that its number is small enough.
    fn fits(&self) -> bool {
        let _number = match self {
            Actor::Replica(replica) => replica.number(),
            Actor::Client(client) => client.number(),
        };
        true
    }

    ghost ascii = { lit< tt };

    ghost apart = { actor_part };

    ghost begun = { actor_begun };

    ghost shown = { λ actor. refl };
}

/// Replicas are joined by plus signs, like `r0+r2`.
impl Token for ReplicaId {
    ghost is = { λ (r : ℕ). r < 16 };

    ghost text = { replica_text };

    ghost MARK = { 43 };

    const MARK: u8 = b'+';

    fn read(bytes: &[u8]) -> Option<ReplicaId> {
        ReplicaId::read(bytes)
    }

    // Every replica in hand has a token, like every actor.
    fn fits(&self) -> bool {
        let _number = self.number();
        true
    }

    ghost ascii = { lit< tt };

    ghost apart = { replica_part };

    ghost begun = { λ r is. lit< tt };

    ghost shown = { λ r. refl };
}

/// Clients are joined by plus signs, like `c0+c2`.
impl Token for ClientId {
    ghost is = { λ (c : ℕ). c < 32 };

    ghost text = { client_text };

    ghost MARK = { 43 };

    const MARK: u8 = b'+';

    fn read(bytes: &[u8]) -> Option<ClientId> {
        ClientId::read(bytes)
    }

    // Every client in hand has a token, like every actor.
    fn fits(&self) -> bool {
        let _number = self.number();
        true
    }

    ghost ascii = { lit< tt };

    ghost apart = { client_part };

    ghost begun = { λ c is. lit< tt };

    ghost shown = { λ c. refl };
}
