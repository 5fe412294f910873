//! The calls of drafts: a holder of keys builds envelopes, and learns signatures.

use crate::desk::{Desk, draft_of};
use crate::said::{Answered, Failure, Said};
use crate::words::{Words, find};
use dsr_desk::{Key, Keys, Signers};
use dsr_names::Shape;
use dsr_script::{Draft, Known, build, forged_in};
use std::alloc::Global;

/// The keys that someone holds, and the signatures that they know.
#[derive(Drop)]
pub struct Forger {
    keys: Vec<Key>,
    known: Known,
}

/// A call with the keys.
#[derive(Clone, Copy)]
enum Call {
    /// `build ENVELOPE`: whether the envelope can be made.
    Build,
    /// `learn ENVELOPE`: learns the signatures that the envelope carries.
    Learn,
    /// `room`: makes room for the signatures of one more envelope.
    Room,
    /// `forged ENVELOPE`: a signature in it that is neither known nor by a held key.
    Forged,
}

/// The calls by their verbs.
const CALLS: [(&str, Call); 4] = [
    ("build", Call::Build),
    ("learn", Call::Learn),
    ("room", Call::Room),
    ("forged", Call::Forged),
];

impl Forger {
    /// Opens `keys ACTORS`: someone who holds the keys of these actors, and knows no signature.
    pub fn open(alloc: Global, words: &mut Words) -> Result<Forger, Failure> {
        let holders = Signers::read(words.rest()).ok_or(Failure::BadRow)?;
        let mut all = Keys::new(alloc, Shape::new(16, 7, 32, 0)?)?;
        let mut keys = Vec::new(alloc);
        for holder in holders.as_slice() {
            keys.push(all.take(*holder).ok_or(Failure::NoCall)?)?;
        }
        let known = Known::new(alloc);
        Ok(Forger { keys, known })
    }

    /// Makes the call of this verb.
    pub fn answer(&mut self, desk: &Desk, verb: &[u8], words: &mut Words) -> Answered {
        match find(&CALLS, verb)? {
            Call::Build => self.build(desk.alloc(), words),
            Call::Learn => {
                self.known.learn(&desk.envelope(words.rest())?)?;
                Ok(Said::Done)
            }
            Call::Room => {
                self.known.room()?;
                Ok(Said::Done)
            }
            Call::Forged => self.forged(desk.alloc(), words),
        }
    }

    /// Answers `build ENVELOPE`. An envelope that differs from the given one is returned.
    fn build(&self, alloc: Global, words: &Words) -> Answered {
        let draft = draft_of(alloc, words.rest())?;
        let envelope = build(alloc, &draft, self.keys.as_slice(), &self.known)?;
        if !envelope.fits() {
            return Err(Failure::NoCall);
        }
        let built = Draft::of(alloc, &envelope)?;
        if built.same(&draft) {
            Ok(Said::Done)
        } else {
            Ok(Said::Envelope(built))
        }
    }

    /// Answers `forged ENVELOPE`.
    fn forged(&self, alloc: Global, words: &Words) -> Answered {
        let draft = draft_of(alloc, words.rest())?;
        match forged_in(&draft, self.keys.as_slice(), &self.known) {
            Some(forged) => {
                let (signer, statement) = (forged.signer, forged.statement);
                Ok(Said::Text(format!(in alloc; "{signer}({statement})")?))
            }
            None => Ok(Said::Nothing),
        }
    }
}
