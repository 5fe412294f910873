ghost use Rattle.std.specs.Prelude.{◌≡◌, IfOk, IsOkUnless};

use dsr_envelope::{Envelope, Letter};
use dsr_names::Refusal;
use std::alloc::Global;
use std::marker::Model;

/// The contents of a box: an envelope for the taker to consume, and an equal one as a letter (a shared handle) for the taker's log, so that
/// nothing has to be allocated between the two steps of a take.
#[derive(Drop)]
pub struct Parcel {
    envelope: Envelope,
    letter: Letter,
}

impl Model for Parcel {
    ghost use Rattle.std.specs.Prelude.{◌≡◌};
    ghost use Rattle.dsr_envelope.specs.declared.envelope.Envelope.{Envelope};

    ghost Value = { Envelope };

    ghost view = { λ p. p.envelope };

    ghost invariant = { λ p. p.letter ≡ p.envelope };
}

impl Parcel {
    /// Makes a parcel of the envelope, and a letter of it for the poster's own log. `NoMemory` if memory runs out or one more handle is
    /// refused: then the envelope is dropped.
    pub fn of(alloc: Global, envelope: Envelope) -> Result<(Parcel, Letter), Refusal>
        ensures parcel { IfOk result (λ made. made.0 ≡ envelope) }
        ensures own { IfOk result (λ made. made.1 ≡ envelope) }
        ensures refusal { IsOkUnless result Refusal.NoMemory }
    {
        let copy = envelope.try_copy(alloc)?;
        let letter = Letter::of(alloc, envelope)?;
        let own = letter.try_copy()?;
        Ok((
            Parcel {
                envelope: copy,
                letter,
            },
            own,
        ))
    }

    /// Returns the envelope and the letter of it.
    pub fn into_parts(self) -> (Envelope, Letter)
        ensures envelope { result.0 ≡ self }
        ensures letter { result.1 ≡ self }
    {
        (self.envelope, self.letter)
    }
}
