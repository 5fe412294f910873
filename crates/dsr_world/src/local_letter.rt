ghost use Rattle.std.specs.Prelude.{◌≡◌, IfOk, IsOkUnless};
ghost use Rattle.dsr_names.specs.declared.refusal.Refusal.{Refusal};

use dsr_envelope::{Envelope, Letter};
use dsr_names::Refusal;
use std::alloc::Global;
use std::marker::Model;
use std::rc::Rc;

/// A letter that the boxes of one stage share. Its handles are counted without atomic instructions, which took up to 9 % of the time of a
/// play: only entries, which may go to other threads, have handles of the letter itself.
#[derive(Drop)]
pub(crate) struct LocalLetter {
    letter: Rc<Letter, Global>,
}

impl Model for LocalLetter {
    ghost use Rattle.std.specs.Rc.{rc_value};
    ghost use Rattle.dsr_envelope.specs.declared.envelope.Envelope.{Envelope};

    ghost Value = { Envelope };

    ghost view = { λ l. rc_value l.letter };
}

impl LocalLetter {
    /// Puts the envelope behind a handle. `NoMemory` if memory runs out: then the envelope is dropped.
    pub(crate) fn of(alloc: Global, envelope: Envelope) -> Result<LocalLetter, Refusal>
        ensures made { IfOk result (λ letter. letter ≡ envelope) }
        ensures refusal { IsOkUnless result Refusal.NoMemory }
    {
        let letter = Letter::of(alloc, envelope)?;
        match Rc::new(alloc, letter) {
            Ok(letter) => Ok(LocalLetter { letter }),
            Err(_) => Err(Refusal::NoMemory),
        }
    }

    /// Returns the letter.
    pub(crate) fn letter(&self) -> &Letter
        ensures { result.now ≡ self.now }
    {
        &self.letter
    }

    /// Returns the envelope.
    pub(crate) fn envelope(&self) -> &Envelope
        ensures { result.now ≡ self.now }
    {
        self.letter.envelope()
    }

    /// Returns another handle of the same letter. `NoMemory` if one more handle is refused.
    pub(crate) fn try_copy(&self) -> Result<LocalLetter, Refusal>
        ensures same { IfOk result (λ copy. copy ≡ self.now) }
        ensures refusal { IsOkUnless result Refusal.NoMemory }
    {
        match self.letter.clone() {
            Ok(letter) => Ok(LocalLetter { letter }),
            Err(_) => Err(Refusal::NoMemory),
        }
    }
}
