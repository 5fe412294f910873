ghost use Rattle.std.specs.Prelude.{◌≡◌, ◌↔◌, IsOk, IfOk, IsTrue, IsOkUnless};
ghost use Rattle.dsr_request.specs.NameText.{IsName, is_name_byte};

use dsr_base::Exact;
use dsr_names::Refusal;
use std::hash::{Hash, Hasher};
use std::marker::Model;
use std::{fmt, str};

/// The greatest number of bytes of a register's name.
const MOST_NAME_BYTES: usize = 32;

/// The name of a register: 1 to 32 bytes of `a-z`, `0-9`, `.`, `_` and `-`. A name is copied without
/// allocating.
#[derive(Clone, Copy, Debug)]
pub struct Name {
    bytes: [u8; 32],
    len: usize,
}

impl Model for Name {
    ghost use Rattle.std.specs.Prelude.{List, ℕ, length, take};
    ghost use Rattle.dsr_base.specs.Support.Padded.{padded};

    ghost Value = { List ℕ };

    ghost use Rattle.dsr_request.specs.Support.Name.{IsNameFields, name_fields, fields_back};

    ghost view = { λ name. take name.len name.bytes };

    ghost invariant = { IsNameFields };

    ghost inverse = { name_fields };

    ghost inverse_ok = { fields_back };
}

/// Tells whether a name may have this byte.
fn is_allowed(byte: u8) -> bool
    ensures { result ≡ is_name_byte byte }
{
    byte.is_ascii_lowercase()
        || byte.is_ascii_digit()
        || byte == b'.'
        || byte == b'_'
        || byte == b'-'
}

/// Tells whether the bytes are a name.
fn is_name(bytes: &[u8]) -> bool
    ensures { IsTrue result ↔ IsName bytes.now }
{
    let len = bytes.len();
    0 < len && len <= MOST_NAME_BYTES && bytes.iter().all(|byte| is_allowed(*byte))
}

impl Name {
    /// Reads a name's text. `BadName` exactly if the bytes are empty, more than 32, or have a byte
    /// that no name has.
    pub fn read(bytes: &[u8]) -> Result<Name, Refusal>
        ensures ok { IfOk result (λ name. name ≡ bytes.now) }
        ensures when { IsOk result ↔ IsName bytes.now }
        ensures refusal { IsOkUnless result Refusal.BadName }
    {
        if !is_name(bytes) {
            return Err(Refusal::BadName);
        }
        let len = bytes.len();
        let mut places = [0; MOST_NAME_BYTES];
        places[..len].copy_from_slice(bytes);
        Ok(Name { bytes: places, len })
    }

    /// Returns the bytes of the name.
    pub fn as_bytes(&self) -> &[u8]
        ensures same { result.now ≡ self.now }
        ensures name { IsName self.now }
    {
        &self.bytes[..self.len]
    }

    /// Returns the name as text.
    pub fn as_str(&self) -> &str
        ensures { result.now ≡ self.now }
    {
        match str::from_utf8(self.as_bytes()) {
            Ok(text) => text,
            Err(_) => unreachable!(),
        }
    }

    /// Tells whether two names are equal.
    pub fn same(&self, other: &Name) -> bool
        ensures { IsTrue result ↔ (self.now ≡ other.now) }
    {
        self.as_bytes() == other.as_bytes()
    }
}

impl PartialEq for Name {
    ghost use Rattle.std.proofs.Common.{rules};
    ghost use Rattle.std.specs.Str.{bytes_eq};
    ghost use Rattle.std.specs.Cmp.Rules.{comparing};

    ghost eq = { bytes_eq };

    ghost laws = { Prim.search (comparing, rules) };

    fn eq(&self, other: &Name) -> bool {
        self.same(other)
    }
}

impl Eq for Name {
    ghost use Rattle.std.proofs.Common.{rules};
    ghost use Rattle.std.specs.Cmp.Rules.{comparing};

    ghost laws = { Prim.search (comparing, rules) };
}

impl Exact for Name {
    ghost use Rattle.std.proofs.Common.{rules};

    ghost decides = { λ a b. Prim.search rules };

    ghost clones = { λ a b. Prim.search rules };
}

// Only the bytes of the name are hashed.
impl Hash for Name {
    ghost use Rattle.std.proofs.Common.{rules};
    ghost use Rattle.std.specs.Cmp.Rules.{hashing};
    ghost use Rattle.std.specs.Hash as fed;

    ghost hash_input = { fed.slice fed.u8 };

    ghost respects_eq = { Prim.search (hashing, rules) };

    fn hash<H: Hasher>(&self, state: &mut H) {
        self.as_bytes().hash(state);
    }
}

impl fmt::Display for Name {
    ghost use Rattle.std.specs.Prelude.{Some};

    ghost output = { λ name. Some name };

    fn fmt<W: fmt::Write>(&self, f: &mut fmt::Formatter<W>) -> fmt::Result {
        f.write_str(self.as_str())
    }
}
