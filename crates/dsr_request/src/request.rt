ghost use Rattle.std.specs.Prelude.{◌≡◌, ◌<◌, ◌^◌, ◌↔◌, IsOk, IfOk, IsTrue, IsOkUnless};
ghost use Rattle.dsr_request.specs.Request.{request_of};
ghost use Rattle.dsr_request.specs.OpText.{IsOp};
ghost use Rattle.dsr_request.specs.RequestText.{IsRequest};

use crate::op::Op;
use dsr_names::{ClientId, NUMBER_END, Refusal};
use std::marker::Model;

/// An operation that a client asks for, under a number of the client's own from 1 to 2^40-1. A request
/// is copied without allocating.
#[derive(Clone, Copy, Debug, PartialEq, Eq)]
pub struct Request {
    client: ClientId,
    number: u64,
    op: Op,
}

impl Model for Request {
    ghost use Rattle.std.specs.Prelude.{◌<◌, ◌^◌};
    ghost use Rattle.dsr_request.specs.Request.{Request};

    ghost Value = { Request };

    ghost view = { λ r. record { client = r.client; number = r.number; op = r.op } };

    ghost invariant = { λ r. (0 < r.number) × (r.number < 2 ^ 40) };

    ghost inverse = { λ r. record { client = r.client; number = r.number; op = r.op } };
}

impl Request {
    /// Makes this client's request for the operation. `BadNumber` if the number is 0, or 2^40 or more.
    pub fn new(client: ClientId, number: u64, op: Op) -> Result<Request, Refusal>
        ensures ok { IfOk result (λ request. request ≡ request_of client number op) }
        ensures when { IsOk result ↔ ((0 < number) × (number < 2 ^ 40)) }
        ensures refusal { IsOkUnless result Refusal.BadNumber }
    {
        if 0 < number && number < NUMBER_END {
            Ok(Request { client, number, op })
        } else {
            Err(Refusal::BadNumber)
        }
    }

    /// Returns the client whose request it is.
    pub fn client(&self) -> ClientId
        ensures { result ≡ self.now.client }
    {
        self.client
    }

    /// Returns its number, from 1 to 2^40-1.
    pub fn number(&self) -> u64
        ensures same { result ≡ self.now.number }
        ensures some { 0 < result }
        ensures small { result < 2 ^ 40 }
        ensures spelled { IsRequest self.now }
    {
        // from here on the prover knows that texts can write the client and the operation
        let _client = self.client.number();
        let _op = self.op();
        self.number
    }

    /// Returns the operation.
    pub fn op(&self) -> Op
        ensures same { result ≡ self.now.op }
        ensures spelled { IsOp result }
    {
        // For the proof: the limits of a name.
        let _name = self.op.name();
        self.op
    }
}
