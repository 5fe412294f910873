ghost use Rattle.std.specs.Prelude.{◌≡◌, ◌≤◌, ℕ, List, length, map, IfOk, IfSome, IfNone, IsOkUnless};
ghost use Rattle.std.specs.Option.{option_map};
ghost use Rattle.dsr_request.specs.AnswerText.{IsAnswer};
ghost use Rattle.dsr_envelope.specs.Limits.{IsEnvelope};
ghost use Rattle.dsr_envelope.specs.Pick.{IsClients};
ghost use Rattle.dsr_envelope.specs.declared.envelope.Envelope.TheVariants.{Empty, Round};
ghost use Rattle.dsr_script.specs.Asked.{AsksLastFor};
ghost use Rattle.dsr_script.specs.EnvelopeText.{IsSpelledEnvelope};
ghost use Rattle.dsr_script.specs.Support.Described.{described, drafted};

use crate::plan::Plan;
use crate::said::SaidRequest;
use crate::said_chain::{SaidChain, SaidChains};
use dsr_base::UpTo;
use dsr_envelope::{Clients, Envelope};
use dsr_names::{ClientId, Refusal};
use dsr_request::Answer;
use std::alloc::Global;
use std::marker::Model;
use std::sync::Arc;

/// An envelope as data: in place of each signature, a draft has only its signer and its statement. Only `build` makes an envelope
/// from it. Each draft has a text, so it is within the limits of envelopes. Contracts see a draft as the envelope that it describes.
/// A draft never changes, so copies share what they hold. It takes little room: its cases are behind a handle, and the draft of the
/// empty envelope has none.
#[derive(Drop)]
pub struct Draft {
    plan: Option<Arc<Plan, Global>>,
}

impl Model for Draft {
    ghost use Rattle.dsr_envelope.specs.declared.envelope.Envelope.{Envelope};

    ghost Value = { Envelope };

    ghost use Rattle.std.specs.Arc.{arc_value};
    ghost use Rattle.std.specs.Option.{option_map};
    ghost use Rattle.dsr_script.specs.EnvelopeText.{IsSpelledEnvelope};
    ghost use Rattle.dsr_script.specs.Support.Described.{drafted};

    ghost view = { λ d. drafted (option_map arc_value d.plan) };

    ghost invariant = { λ d. IsSpelledEnvelope (drafted (option_map arc_value d.plan)) };
}

impl Draft {
    /// Makes the draft of the empty envelope. It takes no memory.
    pub fn empty() -> Draft
        ensures { result ≡ Empty }
    {
        Draft { plan: None }
    }

    /// Makes the draft of an envelope. Requires that the envelope is within the limits. `NoMemory` if memory runs out.
    pub fn of(alloc: Global, envelope: &Envelope) -> Result<Draft, Refusal>
        requires { IsEnvelope envelope.now }
        ensures same { IfOk result (λ draft. draft ≡ envelope.now) }
        ensures spelled { IfOk result IsSpelledEnvelope }
        ensures refusal { IsOkUnless result Refusal.NoMemory }
    {
        let plan = match envelope {
            Envelope::Empty => return Ok(Draft::empty()),
            Envelope::Round { round, chains } => {
                let chains = SaidChains::of(alloc, chains.as_slice())?;
                Plan::Round {
                    round: *round,
                    chains,
                }
            }
            Envelope::Ask(ask) => Plan::Ask(SaidRequest::of(alloc, ask.signed())?),
            Envelope::Reply(reply) => {
                spell_answer(reply.answer);
                Plan::Reply(*reply)
            }
            Envelope::Seen(front) => Plan::Seen(*front),
        };
        Draft::of_plan(alloc, plan)
    }

    /// Returns a copy, which shares what this one holds. `NoMemory` if one more handle is refused.
    pub fn try_copy(&self) -> Result<Draft, Refusal>
        ensures same { IfOk result (λ draft. draft ≡ self.now) }
        ensures refusal { IsOkUnless result Refusal.NoMemory }
    {
        let plan = match &self.plan {
            None => None,
            Some(plan) => match Arc::try_clone(plan) {
                Ok(plan) => Some(plan),
                Err(_) => return Err(Refusal::NoMemory),
            },
        };
        Ok(Draft { plan })
    }

    /// Returns the clients of the requests in the last chain, in their order, if a choice can name them: if they are 1 to 8 different ones.
    /// `None` if not, or if there is no chain.
    pub fn last_clients(&self) -> Option<Clients>
        ensures some { IfSome result (AsksLastFor self.now) }
        ensures none { IfNone result ((clients : List ℕ) → AsksLastFor self.now clients → ¬ IsClients clients) }
    {
        match self.plan() {
            Some(Plan::Round { chains, .. }) => clients_of_last(chains.as_slice()),
            _ => None,
        }
    }

    /// Makes the draft with these cases. `NoMemory` if memory runs out.
    pub(crate) fn of_plan(alloc: Global, plan: Plan) -> Result<Draft, Refusal>
        requires { IsSpelledEnvelope (described plan) }
        ensures same { IfOk result (λ draft. draft ≡ described plan) }
        ensures refusal { IsOkUnless result Refusal.NoMemory }
    {
        let plan = Arc::new(alloc, plan)?;
        Ok(Draft { plan: Some(plan) })
    }

    /// Returns the cases of the draft, or `None` if it is of the empty envelope.
    pub(crate) fn plan(&self) -> Option<&Plan>
        ensures same { drafted (option_map (λ p. p.now) result) ≡ self.now }
        ensures spelled { IsSpelledEnvelope self.now }
        ensures within { IsEnvelope self.now }
    {
        match &self.plan {
            Some(plan) => Some(&**plan),
            None => None,
        }
    }
}

/// Returns the clients of the requests in the last chain, if a choice can name them.
fn clients_of_last(chains: &[SaidChain]) -> Option<Clients>
    ensures some { (round : ℕ) → IfSome result (AsksLastFor (Round round chains.now)) }
    ensures none { (round : ℕ) → IfNone result ((clients : List ℕ) → AsksLastFor (Round round chains.now) clients → ¬ IsClients clients) }
{
    match chains {
        [] => None,
        [.., last] => clients_of(last.asks()),
    }
}

/// Returns the clients of these requests, at most 8, if a choice can name them.
fn clients_of(asks: &[SaidRequest]) -> Option<Clients>
    requires { length asks.now ≤ 8 }
    ensures some { IfSome result (λ clients. clients ≡ map (λ r. r.client) (map (λ ask. ask.request) asks.now)) }
    ensures none { IfNone result (¬ IsClients (map (λ r. r.client) (map (λ ask. ask.request) asks.now))) }
{
    let mut clients: UpTo<ClientId, 8> = UpTo::new();
    for ask in asks {
        clients.push(ask.request().client());
    }
    Clients::of(clients.as_slice())
}

/// Shows that a text can write any answer in a program.
fn spell_answer(answer: Answer)
    ensures { IsAnswer answer }
{
    match answer {
        Answer::Held(Some(value)) | Answer::Kept(Some(value)) | Answer::Removed(Some(value)) => {
            // For the proof: the value is a `u64`.
            let _value = value;
        }
        _ => {}
    }
}
