ghost use Rattle.std.proofs.Common.{rules};

use dsr_base::Exact;
use dsr_names::ReplicaId;

/// What a loyal replica does next with the replicas.
#[derive(Clone, Copy, Debug, PartialEq, Eq)]
pub enum Due {
    /// It posts to this replica.
    Post(ReplicaId),
    /// It takes from this replica.
    Take(ReplicaId),
}

impl Exact for Due {
    ghost decides = { λ a b. Prim.search rules };

    ghost clones = { λ a b. Prim.search rules };
}
