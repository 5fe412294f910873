ghost use Rattle.std.specs.Prelude.{◌≡◌, ◌<◌, ◌^◌};
ghost use Rattle.dsr_names.specs.ShapeText.{replicas_of};
ghost use Rattle.dsr_names.specs.Support.ReplicaSets.{bits_with};

use crate::actor::ReplicaId;
use dsr_base::UpTo;

/// A list of at most 16 replicas.
pub(crate) type Replicas = UpTo<ReplicaId, 16>;

/// Returns the replicas whose bits are set, in ascending order.
pub(crate) fn replicas_in(bits: u16) -> Replicas
    ensures { result ≡ replicas_of bits }
{
    let mut replicas = Replicas::new();
    for number in 0..16u8 {
        if (bits >> number) & 1 == 1 {
            replicas.push(ReplicaId::of(number));
        }
    }
    replicas
}

/// Returns the number in which the bits of these replicas are set, and no others.
pub(crate) fn bits_of(replicas: &[ReplicaId]) -> u16
    ensures set { result ≡ bits_with 0 replicas.now }
    ensures fits { result < 2 ^ 16 }
{
    let mut bits = 0;
    for replica in replicas {
        bits |= 1 << replica.number();
    }
    bits
}
