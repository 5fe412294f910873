ghost use Rattle.std.specs.Prelude.{◌≡◌, ◌↔◌, None, Some, if◌then◌else◌, IfOk, IsTrue, IsOkUnless, box_value};
ghost use Rattle.std.specs.Option.{option_map};
ghost use Rattle.dsr_base.specs.Reads.{Reads};
ghost use Rattle.dsr_desk.specs.StatementText.{IsStatement};
ghost use Rattle.dsr_desk.specs.Support.StatementEquality.{statement_eq};
ghost use Rattle.dsr_script.specs.SignatureText.{spelled_at, spelled_text};
ghost use Rattle.dsr_script.specs.Support.Links.{said_in};
ghost use Rattle.dsr_script.specs.Support.Said.{said_of};
ghost use Rattle.dsr_script.specs.Support.SpelledText.{IsSpelled, closed_text, short_form, long_form, pair_of};

use crate::said::Said;
use dsr_base::split_once;
use dsr_desk::Statement;
use dsr_names::{Actor, Refusal};
use std::alloc::Global;
use std::marker::Model;

/// What a text says about a signature: its signer, and its statement if that is not the one that fits the place. Such a statement is
/// behind a handle, since few signatures have one.
#[derive(Drop)]
pub(crate) struct Brief {
    signer: Actor,
    other: Option<Box<Statement, Global>>,
}

impl Model for Brief {
    ghost use Rattle.std.specs.Prelude.{box_value};
    ghost use Rattle.std.specs.Option.{option_map};
    ghost use Rattle.dsr_script.specs.SignatureText.{Spelled};

    ghost Value = { Spelled };

    ghost view = { λ b. record { signer = b.signer; other = option_map box_value b.other } };
}

impl Brief {
    /// Reads what a text says about a signature, like `r0` or `r0(0/idle/r1)`. The inner `None` means exactly that the bytes are not
    /// such a text. `NoMemory` if memory runs out.
    pub(crate) fn read(alloc: Global, bytes: &[u8]) -> Result<Option<Brief>, Refusal>
        ensures read { IfOk result (λ brief. Reads IsSpelled spelled_text bytes.now brief) }
        ensures refusal { IsOkUnless result Refusal.NoMemory }
    {
        match split_once(bytes, b'(') {
            None => Ok(short_form_of(Actor::read(bytes))),
            Some((signer, rest)) => long_form_of(alloc, Actor::read(signer), read_closed(rest)),
        }
    }

    /// Makes what a text says about the signature at the place that this statement fits. `NoMemory` if memory runs out.
    pub(crate) fn at(alloc: Global, said: &Said<'_>, fitting: &Statement) -> Result<Brief, Refusal>
        ensures same { IfOk result (λ brief. brief ≡ spelled_at fitting.now (said_of said.now)) }
        ensures refusal { IsOkUnless result Refusal.NoMemory }
    {
        let other = other_than(alloc, said.statement(), fitting)?;
        Ok(Brief {
            signer: said.signer(),
            other,
        })
    }

    /// Makes what a text says about this signer's signature on the statement that fits.
    pub(crate) fn by(signer: Actor) -> Brief
        ensures { result ≡ short_form signer }
    {
        Brief {
            signer,
            other: None,
        }
    }

    /// Returns the signer.
    pub(crate) fn signer(&self) -> Actor
        ensures { result ≡ self.now.signer }
    {
        self.signer
    }

    /// Returns the other statement, if the signature is on one that does not fit.
    pub(crate) fn other(&self) -> Option<&Statement>
        ensures { option_map (λ s. s.now) result ≡ self.now.other }
    {
        match &self.other {
            Some(other) => Some(&**other),
            None => None,
        }
    }

    /// Tells whether a text names only the signer, since the signature is on the statement that fits.
    pub(crate) fn is_short(&self) -> bool
        ensures { IsTrue result ↔ (self.now.other ≡ None) }
    {
        match self.other() {
            None => true,
            Some(_) => false,
        }
    }

    /// Returns what the signature says, at the place that this statement fits.
    pub(crate) fn said_in<'a>(&'a self, fitting: &'a Statement) -> Said<'a>
        ensures { said_of result ≡ said_in fitting.now self.now }
    {
        match &self.other {
            Some(other) => Said::by(self.signer, other),
            None => Said::by(self.signer, fitting),
        }
    }

    /// Tells whether a text says this at the place that this statement fits: whether it is not the
    /// long form of that statement.
    pub(crate) fn is_said(&self, fitting: &Statement) -> bool
        ensures { IsTrue result ↔ (self.now ≡ spelled_at fitting.now (said_in fitting.now self.now)) }
    {
        match self.other() {
            Some(other) => !other.same(fitting),
            None => true,
        }
    }
}

/// Returns the statement; `None` if it equals the one that fits. `NoMemory` if memory runs out.
fn other_than(
    alloc: Global,
    statement: &Statement,
    fitting: &Statement,
) -> Result<Option<Box<Statement, Global>>, Refusal>
    ensures other { IfOk result (λ other. option_map box_value other ≡ (if statement_eq statement.now fitting.now then None else Some statement.now)) }
    ensures refusal { IsOkUnless result Refusal.NoMemory }
{
    if statement == fitting {
        Ok(None)
    } else {
        Ok(Some(Box::new(alloc, statement.copy())?))
    }
}

/// Reads a statement with a closing parenthesis after it.
fn read_closed(bytes: &[u8]) -> Option<Statement>
    ensures { Reads IsStatement closed_text bytes.now result }
{
    match bytes {
        [within @ .., b')'] => Statement::read(within),
        _ => None,
    }
}

/// Makes what a text says about this signer's signature on the statement that fits.
fn short_form_of(signer: Option<Actor>) -> Option<Brief>
    ensures { result ≡ option_map short_form signer }
{
    match signer {
        Some(signer) => Some(Brief::by(signer)),
        None => None,
    }
}

/// Makes what a text says about this signer's signature on this other statement. `NoMemory` if memory runs out.
fn long_form_of(
    alloc: Global,
    signer: Option<Actor>,
    other: Option<Statement>,
) -> Result<Option<Brief>, Refusal>
    ensures made { IfOk result (λ brief. brief ≡ option_map long_form (pair_of signer other)) }
    ensures refusal { IsOkUnless result Refusal.NoMemory }
{
    match (signer, other) {
        (Some(signer), Some(other)) => Ok(Some(Brief {
            signer,
            other: Some(Box::new(alloc, other)?),
        })),
        _ => Ok(None),
    }
}
