//! Stores what was last read for each poster, so that an envelope that is in many lines is read once.

ghost use Rattle.std.specs.Prelude.{Some, IfOk, IfSome, IsOkUnless};
ghost use Rattle.dsr_base.specs.Reads.{Reads};
ghost use Rattle.dsr_script.specs.EnvelopeText.{envelope_text, IsSpelledEnvelope};

use dsr_names::{Actor, Refusal};
use dsr_script::Draft;
use std::alloc::Global;
use std::marker::Model;

/// The most replicas of a shape; in the order of places the clients come after the replicas.
const MOST_REPLICAS: usize = 16;

/// The most actors of a shape: replicas and clients.
const MOST_ACTORS: usize = 48;

/// The text of the envelope that was read last, and its draft; no draft if there is nothing to give again.
#[derive(Drop)]
struct LastRead {
    text: Vec<u8>,
    draft: Option<Draft>,
}

impl Model for LastRead {
    ghost use Rattle.std.specs.Prelude.{Option};
    ghost use Rattle.dsr_envelope.specs.declared.envelope.Envelope.{Envelope};
    ghost use Rattle.dsr_record.specs.Support.LastRead.{IsRemembered};

    ghost Value = { Option Envelope };

    ghost view = { λ last. last.draft };

    ghost invariant = { λ last. IsRemembered last.text.items last.draft };
}

impl LastRead {
    /// Starts with nothing. It takes no memory.
    fn new(alloc: Global) -> LastRead {
        LastRead {
            text: Vec::new(alloc),
            draft: None,
        }
    }

    /// Reads a draft's text, like `Draft::read`. For the text that was read last, shares the draft of that.
    fn read(&mut self, alloc: Global, bytes: &[u8]) -> Result<Option<Draft>, Refusal>
        ensures read { IfOk result (λ draft. Reads IsSpelledEnvelope envelope_text bytes.now draft) }
        ensures refusal { IsOkUnless result Refusal.NoMemory }
    {
        if let Some(draft) = self.again(bytes)? {
            return Ok(Some(draft));
        }
        match Draft::read(alloc, bytes)? {
            Some(draft) => {
                self.keep(bytes, &draft)?;
                Ok(Some(draft))
            }
            None => Ok(None),
        }
    }

    /// Returns the draft that was read last, if the bytes are its text. `NoMemory` if one more handle is refused.
    fn again(&self, bytes: &[u8]) -> Result<Option<Draft>, Refusal>
        ensures again { IfOk result (λ draft. IfSome draft (λ d. Reads IsSpelledEnvelope envelope_text bytes.now (Some d))) }
        ensures refusal { IsOkUnless result Refusal.NoMemory }
    {
        match &self.draft {
            Some(draft) if self.text.as_slice() == bytes => Ok(Some(draft.try_copy()?)),
            _ => Ok(None),
        }
    }

    /// Stores the draft and its text. `NoMemory` if memory runs out or one more handle is refused.
    fn keep(&mut self, bytes: &[u8], draft: &Draft) -> Result<(), Refusal>
        requires { Reads IsSpelledEnvelope envelope_text bytes.now (Some draft.now) }
        ensures refusal { IsOkUnless result Refusal.NoMemory }
    {
        self.draft = None;
        self.text.clear();
        self.text.extend_from_slice(bytes)?;
        self.draft = Some(draft.try_copy()?);
        Ok(())
    }
}

/// What was last read for each poster.
#[derive(Drop)]
pub(crate) struct LastReads {
    posters: Vec<LastRead>,
}

impl LastReads {
    /// Stores nothing, whoever posts. It takes no memory.
    pub(crate) fn none(alloc: Global) -> LastReads {
        LastReads {
            posters: Vec::new(alloc),
        }
    }

    /// Starts with nothing for each actor that a text can name. `NoMemory` if memory runs out.
    pub(crate) fn new(alloc: Global) -> Result<LastReads, Refusal>
        ensures refusal { IsOkUnless result Refusal.NoMemory }
    {
        let mut posters = Vec::with_capacity(alloc, MOST_ACTORS)?;
        for _ in 0..MOST_ACTORS {
            posters.push(LastRead::new(alloc))?;
        }
        Ok(LastReads { posters })
    }

    /// Reads the text of a draft that this actor posted, like `Draft::read`.
    pub(crate) fn read(
        &mut self,
        alloc: Global,
        poster: &Actor,
        bytes: &[u8],
    ) -> Result<Option<Draft>, Refusal>
        ensures read { IfOk result (λ draft. Reads IsSpelledEnvelope envelope_text bytes.now draft) }
        ensures refusal { IsOkUnless result Refusal.NoMemory }
    {
        match self.posters.get_mut(place_of(poster)) {
            Some(last) => last.read(alloc, bytes),
            None => Draft::read(alloc, bytes),
        }
    }
}

/// Returns the actor's place among all that a text can name.
fn place_of(actor: &Actor) -> usize {
    match actor {
        Actor::Replica(replica) => replica.number() as usize,
        Actor::Client(client) => MOST_REPLICAS + client.number() as usize,
    }
}
