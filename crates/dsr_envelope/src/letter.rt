ghost use Rattle.std.specs.Prelude.{◌≡◌, IfOk, IsOkUnless};

use crate::envelope::Envelope;
use dsr_names::Refusal;
use std::alloc::Global;
use std::marker::Model;
use std::sync::Arc;

/// An envelope that an entry of a log and a box share.
#[derive(Drop)]
pub struct Letter {
    envelope: Arc<Envelope, Global>,
}

impl Model for Letter {
    ghost use Rattle.std.specs.Arc.{arc_value};
    ghost use Rattle.dsr_envelope.specs.declared.envelope.Envelope.{Envelope};

    ghost Value = { Envelope };

    ghost view = { λ l. arc_value l.envelope };
}

impl Letter {
    /// Puts the envelope behind a handle, to be shared. `NoMemory` if memory runs out: then the
    /// envelope is dropped.
    pub fn of(alloc: Global, envelope: Envelope) -> Result<Letter, Refusal>
        ensures made { IfOk result (λ letter. letter ≡ envelope) }
        ensures refusal { IsOkUnless result Refusal.NoMemory }
    {
        let envelope = Arc::new(alloc, envelope)?;
        Ok(Letter { envelope })
    }

    /// Returns the envelope.
    pub fn envelope(&self) -> &Envelope
        ensures { result.now ≡ self.now }
    {
        &self.envelope
    }

    /// Returns another handle of the same envelope. `NoMemory` if one more handle is refused.
    pub fn try_copy(&self) -> Result<Letter, Refusal>
        ensures same { IfOk result (λ copy. copy ≡ self.now) }
        ensures refusal { IsOkUnless result Refusal.NoMemory }
    {
        match Arc::try_clone(&self.envelope) {
            Ok(envelope) => Ok(Letter { envelope }),
            Err(_) => Err(Refusal::NoMemory),
        }
    }
}
