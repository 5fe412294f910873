ghost use Rattle.std.specs.Prelude.{◌≡◌, ◌↔◌, IfOk, IsTrue, IsOkUnless};
ghost use Rattle.dsr_envelope.specs.Limits.{IsEnvelope};

use crate::chains::Chains;
use crate::limits::{chains_fit, reply_fits, signed_fits};
use crate::shared_ask::SharedAsk;
use dsr_chain::SignedRequest;
use dsr_ledger::Reply;
use dsr_names::{NUMBER_END, Refusal};
use std::alloc::Global;

/// What one actor posts to another, and the other takes.
#[derive(Drop)]
pub enum Envelope {
    /// Carries nothing: a replica posts it in a round without a chain to send.
    Empty,
    /// The chains that a replica sends in a global round.
    Round {
        /// The global round, counted from 0.
        round: u64,
        /// The chains, at most 32.
        chains: Chains,
    },
    /// A client's request.
    Ask(SharedAsk),
    /// A replica's reply to a client.
    Reply(Reply),
    /// A client's seen front: one more than the greatest place of the history that it knows of, or 0 if it knows of
    /// none.
    Seen(u64),
}

impl Envelope {
    ghost use Rattle.dsr_envelope.specs.declared.envelope.Envelope.TheVariants.{Ask};

    /// Makes the envelope of a client's request. `NoMemory` if memory runs out.
    pub fn ask(alloc: Global, ask: SignedRequest) -> Result<Envelope, Refusal>
        ensures made { IfOk result (λ envelope. envelope ≡ Ask ask) }
        ensures refusal { IsOkUnless result Refusal.NoMemory }
    {
        let ask = SharedAsk::of(alloc, ask)?;
        Ok(Envelope::Ask(ask))
    }

    /// Returns a copy, whose chains or request share what they hold. `NoMemory` if memory runs out or one more handle
    /// is refused.
    pub fn try_copy(&self, alloc: Global) -> Result<Envelope, Refusal>
        ensures same { IfOk result (λ copy. copy ≡ self.now) }
        ensures refusal { IsOkUnless result Refusal.NoMemory }
    {
        match self {
            Envelope::Empty => Ok(Envelope::Empty),
            Envelope::Round { round, chains } => {
                let chains = chains.try_copy(alloc)?;
                Ok(Envelope::Round {
                    round: *round,
                    chains,
                })
            }
            Envelope::Ask(ask) => Ok(Envelope::Ask(ask.try_copy()?)),
            Envelope::Reply(reply) => Ok(Envelope::Reply(*reply)),
            Envelope::Seen(front) => Ok(Envelope::Seen(*front)),
        }
    }

    /// Returns whether the envelope is within the limits: numbers of rounds, slots, places, fronts and requests below 2^40, at
    /// most 32 chains, at most 16 signatures and 8 requests in each, and the same for the statements of all signatures.
    pub fn fits(&self) -> bool
        ensures { IsTrue result ↔ IsEnvelope self.now }
    {
        match self {
            Envelope::Empty => true,
            Envelope::Round { round, chains } => {
                *round < NUMBER_END && chains_fit(chains.as_slice())
            }
            Envelope::Ask(ask) => signed_fits(ask.signed()),
            Envelope::Reply(reply) => reply_fits(reply),
            Envelope::Seen(front) => *front < NUMBER_END,
        }
    }

    /// Returns whether two envelopes are equal.
    pub fn same(&self, other: &Envelope) -> bool
        ensures { IsTrue result ↔ (self.now ≡ other.now) }
    {
        match (self, other) {
            (Envelope::Empty, Envelope::Empty) => true,
            (
                Envelope::Round { round, chains },
                Envelope::Round {
                    round: other_round,
                    chains: other_chains,
                },
            ) => round == other_round && chains.same(other_chains),
            (Envelope::Ask(ask), Envelope::Ask(other)) => ask.signed().same(other.signed()),
            (Envelope::Reply(reply), Envelope::Reply(other)) => reply == other,
            (Envelope::Seen(front), Envelope::Seen(other)) => front == other,
            _ => false,
        }
    }
}
