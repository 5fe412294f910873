ghost use Rattle.std.specs.Prelude.{◌≡◌, ◌↔◌, Some, IfOk, IsOkUnless};
ghost use Rattle.dsr_base.specs.Reads.{Reads};
ghost use Rattle.dsr_desk.specs.Signature.{signed};
ghost use Rattle.dsr_chain.specs.declared.signed_request.SignedRequest.{SignedRequest};
ghost use Rattle.dsr_envelope.specs.Limits.{IsSigned};
ghost use Rattle.dsr_script.specs.ChainText.{signed_text};
ghost use Rattle.dsr_script.specs.Support.AskText.{ask_parts};
ghost use Rattle.dsr_script.specs.Support.Said.{said_of};
ghost use Rattle.dsr_desk.specs.declared.statement.Statement.TheVariants.{Ask};
ghost use Rattle.dsr_script.specs.SignatureText.{spelled_at};
ghost use Rattle.dsr_script.specs.Support.SpelledText.{pair_of};

use crate::brief::Brief;
use dsr_base::split_once;
use dsr_chain::SignedRequest;
use dsr_desk::{Signature, Statement};
use dsr_names::{Actor, Refusal};
use dsr_request::Request;
use std::alloc::Global;
use std::marker::Model;

/// What a signature says: its signer, and a reference to its statement. Anybody can make one, and it is not a signature.
#[derive(Drop)]
pub(crate) struct Said<'a> {
    signer: Actor,
    statement: &'a Statement,
}

impl<'a> Said<'a> {
    /// Returns what the signature says.
    pub(crate) fn of(signature: &'a Signature) -> Said<'a>
        ensures { said_of result ≡ signature.now }
    {
        Said {
            signer: signature.signer(),
            statement: signature.statement(),
        }
    }

    /// Returns what this signer's signature on the statement says.
    pub(crate) fn by(signer: Actor, statement: &'a Statement) -> Said<'a>
        ensures { said_of result ≡ signed signer statement.now }
    {
        Said { signer, statement }
    }

    /// Returns the signer.
    pub(crate) fn signer(&self) -> Actor
        ensures { result ≡ self.now.signer }
    {
        self.signer
    }

    /// Returns the statement.
    pub(crate) fn statement(&self) -> &'a Statement
        ensures { result.now ≡ self.now.statement.now }
    {
        self.statement
    }
}

impl PartialEq for Said<'_> {
    ghost use Rattle.dsr_script.specs.Support.Said.{said_eq, said_eq-per};

    ghost eq = { said_eq };

    ghost laws = { said_eq-per };

    fn eq(&self, other: &Said<'_>) -> bool {
        self.signer == other.signer && self.statement == other.statement
    }
}

impl Eq for Said<'_> {
    ghost use Rattle.dsr_script.specs.Support.Said.{said_eq-equiv};

    ghost laws = { said_eq-equiv };
}

/// A request with what a text says about the signature beside it.
#[derive(Drop)]
pub(crate) struct SaidRequest {
    request: Request,
    brief: Brief,
}

impl Model for SaidRequest {
    ghost use Rattle.std.specs.Prelude.{◌≡◌};
    ghost use Rattle.dsr_desk.specs.declared.statement.Statement.TheVariants.{Ask};
    ghost use Rattle.dsr_chain.specs.declared.signed_request.SignedRequest.{SignedRequest};
    ghost use Rattle.dsr_script.specs.SignatureText.{spelled_at};
    ghost use Rattle.dsr_script.specs.Support.AskText.{ask_of};
    ghost use Rattle.dsr_script.specs.Support.Links.{said_in};

    ghost Value = { SignedRequest };

    ghost view = { λ s. ask_of s.request (said_in (Ask s.request) s.brief) };

    ghost invariant = { λ s. s.brief ≡ spelled_at (Ask s.request) (said_in (Ask s.request) s.brief) };
}

impl SaidRequest {
    /// Makes this from the request and what the signature beside it says. `NoMemory` if memory runs out.
    pub(crate) fn of(alloc: Global, signed: &SignedRequest) -> Result<SaidRequest, Refusal>
        ensures same { IfOk result (λ said. said ≡ signed.now) }
        ensures refusal { IsOkUnless result Refusal.NoMemory }
    {
        let fitting = Statement::Ask(signed.request);
        let brief = Brief::at(alloc, &Said::of(&signed.signature), &fitting)?;
        Ok(SaidRequest {
            request: signed.request,
            brief,
        })
    }

    /// Reads a signed request's text, like `c0#1:read:a~c0`. The inner `None` means exactly that the bytes are not one.
    /// `NoMemory` if memory runs out.
    pub(crate) fn read(alloc: Global, bytes: &[u8]) -> Result<Option<SaidRequest>, Refusal>
        ensures read { IfOk result (λ ask. Reads IsSigned signed_text bytes.now ask) }
        ensures refusal { IsOkUnless result Refusal.NoMemory }
    {
        match split_once(bytes, b'~') {
            None => Ok(None),
            Some((request, brief)) => {
                let brief = Brief::read(alloc, brief)?;
                Ok(SaidRequest::of_parts(Request::read(request), brief))
            }
        }
    }

    /// Makes this from both parts. `None` if one is missing, or the second is the long form of a signature on the request.
    fn of_parts(request: Option<Request>, brief: Option<Brief>) -> Option<SaidRequest>
        ensures { (x : SignedRequest) → (result ≡ Some x) ↔ (pair_of request brief ≡ Some (ask_parts x)) }
    {
        match (request, brief) {
            (Some(request), Some(brief)) => {
                if brief.is_said(&Statement::Ask(request)) {
                    Some(SaidRequest { request, brief })
                } else {
                    None
                }
            }
            _ => None,
        }
    }

    /// Returns the request.
    pub(crate) fn request(&self) -> Request
        ensures { result ≡ self.now.request }
    {
        self.request
    }

    /// Returns the statement that fits the signature beside it: its client's ask for it.
    pub(crate) fn fitting(&self) -> Statement
        ensures { result ≡ Ask self.now.request }
    {
        Statement::Ask(self.request)
    }

    /// Returns what the signature beside it says. Requires that this is the statement that fits there.
    pub(crate) fn said_in<'a>(&'a self, fitting: &'a Statement) -> Said<'a>
        requires { fitting.now ≡ Ask self.now.request }
        ensures { said_of result ≡ self.now.signature }
    {
        self.brief.said_in(fitting)
    }

    /// Returns what a text says about the signature beside it.
    pub(crate) fn brief(&self) -> &Brief
        ensures { result.now ≡ spelled_at (Ask self.now.request) self.now.signature }
    {
        &self.brief
    }
}
