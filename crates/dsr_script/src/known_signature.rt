ghost use Rattle.std.specs.Prelude.{◌≡◌};
ghost use Rattle.dsr_script.specs.Support.Said.{said_of};

use crate::said::Said;
use dsr_desk::Signature;
use indexmap::Equivalent;
use std::hash::{Hash, Hasher};
use std::marker::Model;

/// A known signature, as an item of a set, in which what a signature says finds it.
#[derive(Drop)]
pub(crate) struct KnownSignature {
    signature: Signature,
}

impl Model for KnownSignature {
    ghost use Rattle.dsr_desk.specs.Signature.{Signature};

    ghost Value = { Signature };

    ghost view = { λ s. s.signature };

    ghost inverse = { λ signature. record { signature = signature } };
}

impl KnownSignature {
    /// Makes the item from the signature.
    pub(crate) fn of(signature: Signature) -> KnownSignature
        ensures { result ≡ signature }
    {
        KnownSignature { signature }
    }

    /// Returns the signature.
    pub(crate) fn signature(&self) -> &Signature
        ensures { result.now ≡ self.now }
    {
        &self.signature
    }

    /// Returns what the signature says.
    fn said(&self) -> Said<'_>
        ensures { said_of result ≡ self.now }
    {
        Said::of(&self.signature)
    }
}

impl PartialEq for KnownSignature {
    ghost use Rattle.dsr_script.specs.Support.SignatureEquality.{signature_eq, signature_eq-per};

    ghost eq = { signature_eq };

    ghost laws = { signature_eq-per };

    fn eq(&self, other: &KnownSignature) -> bool {
        self.signature == other.signature
    }
}

impl Eq for KnownSignature {
    ghost use Rattle.dsr_script.specs.Support.SignatureEquality.{signature_eq-equiv};

    ghost laws = { signature_eq-equiv };
}

impl Hash for KnownSignature {
    ghost use Rattle.dsr_script.specs.Support.SignatureHash.{signature_fed, signature_fed_alike};

    ghost hash_input = { signature_fed };

    ghost respects_eq = { signature_fed_alike };

    fn hash<H: Hasher>(&self, state: &mut H) {
        self.said().hash(state);
    }
}

impl Equivalent<KnownSignature> for &Said<'_> {
    ghost use Rattle.dsr_script.specs.Support.Said.{said_of, says};
    ghost use Rattle.dsr_script.specs.Support.SignatureEquality.{signature_eq-equiv};
    ghost use Rattle.dsr_script.specs.Support.SignatureHash.{signature_fed_alike};

    ghost equivalent = { λ q. says q.now };

    ghost respects_hash = { λ q. signature_fed_alike (said_of q.now) };

    ghost respects_eq = { λ q. signature_eq-equiv.congr (said_of q.now) };

    fn equivalent(&self, known: &KnownSignature) -> bool {
        **self == known.said()
    }
}
