ghost use Rattle.std.specs.Prelude.{refl};
ghost use Rattle.std.proofs.Common.{lit<, rules};
ghost use Rattle.dsr_request.specs.Support.RequestEquality.{request_eq-Decides};
ghost use Rattle.dsr_request.specs.RequestText.{request_token, IsRequest};
ghost use Rattle.dsr_request.specs.Support.RequestToken.{request_part, request_begun};

use crate::request::Request;
use dsr_base::{Exact, Few, Token};

/// The greatest number of requests in one value.
pub const MOST_REQUESTS: usize = 8;

/// A list of 1 to 8 requests, of fixed size, copied without allocating. In its text commas join them, like
/// `c0#7:write:a:5,c1#1:read:a`.
pub type Requests = Few<Request, MOST_REQUESTS>;

impl Exact for Request {
    ghost decides = { request_eq-Decides };

    ghost clones = { λ a b. Prim.search rules };
}

/// Requests are joined by commas.
impl Token for Request {
    ghost is = { IsRequest };

    ghost text = { request_token };

    ghost MARK = { 44 };

    const MARK: u8 = b',';

    fn read(bytes: &[u8]) -> Option<Request> {
        Request::read(bytes)
    }

    // Every request in hand has a token: the call of `number` says so.
    fn fits(&self) -> bool {
        let _number = self.number();
        true
    }

    ghost ascii = { lit< tt };

    ghost apart = { request_part };

    ghost begun = { request_begun };

    ghost shown = { λ request. refl };
}
