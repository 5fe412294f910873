ghost use Rattle.std.specs.Prelude.{◌≡◌, IfOk, IfSome, IsOk, IsOkUnless};
ghost use Rattle.dsr_node.specs.Node.{IsReplicaNumber};

use crate::letters::no_letters;
use crate::local_letter::LocalLetter;
use dsr_envelope::Envelope;
use dsr_names::{Actor, Refusal};
use std::alloc::Global;

/// The letter of the last post to each client; `None` before the first. All loyal replicas give a client the same reply, so the next
/// one to post it posts this letter again. No outcome depends on what is stored here: a post reuses a letter only if it is the same.
#[derive(Drop)]
pub(crate) struct Replies {
    last: Vec<Option<LocalLetter>>,
}

impl Replies {
    /// Creates an empty cache for `clients` clients. `NoMemory` if memory runs out.
    pub(crate) fn for_clients(alloc: Global, clients: u8) -> Result<Replies, Refusal>
        ensures refusal { IsOkUnless result Refusal.NoMemory }
    {
        let last = no_letters(alloc, clients as usize)?;
        Ok(Replies { last })
    }

    /// Makes the letter to this actor: a copy of the last one, if that holds the same envelope. `NoMemory` if memory runs out or one
    /// more handle is refused.
    pub(crate) fn letter_of(
        &self,
        alloc: Global,
        to: &Actor,
        envelope: Envelope,
    ) -> Result<LocalLetter, Refusal>
        ensures same { IfOk result (λ letter. letter ≡ envelope) }
        ensures refusal { IsOkUnless result Refusal.NoMemory }
    {
        match self.same_before(to, &envelope) {
            Some(letter) => letter.try_copy(),
            None => LocalLetter::of(alloc, envelope),
        }
    }

    /// Notes the letter of a post to a client; a post to a replica is not noted. `NoMemory` if one more handle is refused, which only
    /// a post to a client needs.
    pub(crate) fn note(&mut self, to: &Actor, letter: &LocalLetter) -> Result<(), Refusal>
        ensures refusal { IsOkUnless result Refusal.NoMemory }
        ensures replica { IsReplicaNumber to.now → IsOk result }
    {
        let Actor::Client(client) = to else {
            return Ok(());
        };
        if let Some(last) = self.last.get_mut(client.number() as usize) {
            *last = Some(letter.try_copy()?);
        }
        Ok(())
    }

    /// Returns the last letter to this actor if it holds this envelope. `None` if it holds another, and for a replica.
    fn same_before(&self, to: &Actor, envelope: &Envelope) -> Option<&LocalLetter>
        ensures { IfSome result (λ letter. letter.now ≡ envelope.now) }
    {
        let Actor::Client(client) = to else {
            return None;
        };
        let letter = self.last.get(client.number() as usize)?.as_ref()?;
        if letter.envelope().same(envelope) {
            Some(letter)
        } else {
            None
        }
    }
}
