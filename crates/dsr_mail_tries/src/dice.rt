//! Random choices.

ghost use Rattle.std.specs.Prelude.{◌<◌};
ghost use Rattle.dsr_names.specs.Shape.{IsActor};

use dsr_names::{Actor, ClientId, ReplicaId, Shape};

/// Pseudo-random numbers: the same seed and stream give the same numbers (a linear congruential generator with Knuth's constants for MMIX).
#[derive(Drop)]
pub(crate) struct Dice {
    state: u64,
}

impl Dice {
    /// Creates the numbers of this seed and stream.
    pub(crate) fn new(seed: u64, stream: u64) -> Dice {
        // Bits of the golden ratio separate neighbouring streams.
        let apart = stream.wrapping_add(1).wrapping_mul(0x9e37_79b9_7f4a_7c15);
        let mut dice = Dice {
            state: seed.wrapping_add(apart),
        };
        for _ in 0..8 {
            dice.roll();
        }
        dice
    }

    /// Returns the next number.
    fn roll(&mut self) -> u64 {
        self.state = self
            .state
            .wrapping_mul(6_364_136_223_846_793_005)
            .wrapping_add(1_442_695_040_888_963_407);
        // The low bits repeat early.
        self.state / 0x1_0000_0000
    }

    /// Returns a number below `end`.
    pub(crate) fn below(&mut self, end: u64) -> u64
        requires { 0 < end }
        ensures { result < end }
    {
        self.roll() % end
    }

    /// Returns a replica of the shape.
    pub(crate) fn replica(&mut self, shape: &Shape) -> ReplicaId {
        let number = self.below(shape.n() as u64);
        ReplicaId::of(number as u8)
    }

    /// Returns a client of the shape.
    pub(crate) fn client(&mut self, shape: &Shape) -> ClientId {
        let number = self.below(shape.m() as u64);
        ClientId::of(number as u8)
    }

    /// Returns any actor, including actors that the shape may lack.
    pub(crate) fn anyone(&mut self) -> Actor {
        let number = self.below(48);
        if number < 16 {
            Actor::Replica(ReplicaId::of(number as u8))
        } else {
            Actor::Client(ClientId::of((number - 16) as u8))
        }
    }
}
