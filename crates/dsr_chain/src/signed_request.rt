ghost use Rattle.std.specs.Prelude.{◌≡◌, ◌↔◌, IsTrue};
ghost use Rattle.dsr_desk.specs.declared.statement.Statement.TheVariants.{Ask};

use dsr_desk::{Key, Signature, Statement};
use dsr_names::{Actor, Shape};
use dsr_request::Request;

/// A request with a signature beside it, copied without allocating.
#[derive(Clone, Copy, Debug, PartialEq, Eq)]
pub struct SignedRequest {
    /// The request.
    pub request: Request,
    /// A signature, which need not be the client's on the request.
    pub signature: Signature,
}

impl SignedRequest {
    ghost use Rattle.dsr_chain.specs.Content.{signed_by};
    ghost use Rattle.dsr_chain.specs.Proper.{IsAsked};

    /// Signs the request with the key.
    pub fn by(request: Request, key: &Key) -> SignedRequest
        ensures { result ≡ signed_by request key.now }
    {
        SignedRequest {
            request,
            signature: key.sign(Statement::Ask(request)),
        }
    }

    /// Returns whether the client is a client of the shape, and the signature beside the request is that client's on that request.
    pub fn is_asked(&self, shape: &Shape) -> bool
        ensures { IsTrue result ↔ IsAsked shape.now self.now }
    {
        let client = self.request.client();
        client.number() < shape.m()
            && self.signature.signer() == Actor::Client(client)
            && is_ask_of(self.signature.statement(), &self.request)
    }

    /// Returns whether two signed requests have the same request and the same signature.
    pub fn same(&self, other: &SignedRequest) -> bool
        ensures { IsTrue result ↔ (self.now ≡ other.now) }
    {
        self == other
    }
}

/// Returns whether the statement is that this request is asked.
fn is_ask_of(statement: &Statement, request: &Request) -> bool
    ensures { IsTrue result ↔ (statement.now ≡ Ask request.now) }
{
    match statement {
        Statement::Ask(asked) => asked == request,
        Statement::Link { .. } => false,
    }
}
