use dsr_names::{Actor, ReplicaId};
use std::hash::{Hash, Hasher};

/// The place of a draft in a script: a traitor's post in a round to an actor.
#[derive(Clone, Copy, Debug, PartialEq, Eq)]
pub(crate) struct Place {
    /// The traitor that posts.
    pub(crate) from: ReplicaId,
    /// The round, counted from 0.
    pub(crate) round: u64,
    /// The actor to which it posts.
    pub(crate) to: Actor,
}

impl Hash for Place {
    ghost use Rattle.dsr_script.specs.Support.PlaceHash.{place_fed, place_fed_alike};

    ghost hash_input = { place_fed };

    ghost respects_eq = { place_fed_alike };

    fn hash<H: Hasher>(&self, state: &mut H) {
        state.write_u8(self.from.number());
        state.write_u64(self.round);
        match self.to {
            Actor::Replica(replica) => state.write_u8(replica.number()),
            Actor::Client(client) => state.write_u8(client.number() + 16),
        }
    }
}
