ghost use Rattle.std.specs.Prelude.{◌≡◌, IfOk, IsOkUnless};
ghost use Rattle.dsr_lines.specs.Support.Judged.{IsMade};

use dsr_desk::Key;
use dsr_envelope::Envelope;
use dsr_names::{Refusal, Shape};
use dsr_record::all_keys;
use dsr_script::{Draft, Forged, Known, build, forged_in};
use std::alloc::Global;
use std::marker::Model;

/// Holds a key of each actor of a shape. With these keys it makes, from data, the envelope that a recorded step posts, so that `follow` can
/// compare it with what the actor's protocol posts. Nobody posts what a notary makes. Contracts see a notary as its shape.
#[derive(Drop)]
pub struct Notary {
    shape: Shape,
    keys: Vec<Key>,
}

impl Model for Notary {
    ghost use Rattle.dsr_names.specs.Shape.{Shape};
    ghost use Rattle.dsr_record.specs.Keys.{HasAllKeys};

    ghost Value = { Shape };

    ghost view = { λ n. n.shape };

    ghost invariant = { λ n. HasAllKeys n.shape n.keys.items };
}

/// What a notary returns for a draft.
#[derive(Drop)]
pub(crate) enum Made {
    /// The envelope that the draft describes.
    Whole(Envelope),
    /// No envelope: the notary cannot make this signature, which the draft carries, since its signer is not an actor of the shape.
    Outside(Forged),
}

impl Notary {
    /// Makes the notary of this shape. `NoMemory` if memory runs out.
    pub fn new(alloc: Global, shape: &Shape) -> Result<Notary, Refusal>
        ensures shape { IfOk result (λ notary. notary ≡ shape.now) }
        ensures refusal { IsOkUnless result Refusal.NoMemory }
    {
        let keys = all_keys(alloc, shape)?;
        Ok(Notary {
            shape: *shape,
            keys,
        })
    }

    /// Makes the envelope that the draft describes, or finds a signature in it whose signer is not an actor of the shape. `NoMemory` if memory
    /// runs out.
    pub(crate) fn made(&self, alloc: Global, draft: &Draft) -> Result<Made, Refusal>
        ensures made { IfOk result (IsMade self.now draft.now) }
        ensures refusal { IsOkUnless result Refusal.NoMemory }
    {
        let known = Known::new(alloc);
        if let Some(forged) = forged_in(draft, self.keys.as_slice(), &known) {
            return Ok(Made::Outside(forged));
        }
        match build(alloc, draft, self.keys.as_slice(), &known) {
            Ok(envelope) => Ok(Made::Whole(envelope)),
            Err(Refusal::NoMemory) => Err(Refusal::NoMemory),
            Err(_) => unreachable!(),
        }
    }
}
