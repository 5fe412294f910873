ghost use Rattle.std.specs.Prelude.{◌≡◌, ◌⊎◌, ◌↔◌, ◌<◌, Some};
ghost use Rattle.std.specs.Fmt.{decimal};
ghost use Rattle.dsr_base.specs.Reads.{Reads};
ghost use Rattle.dsr_names.specs.Actor.{actor_text};
ghost use Rattle.dsr_names.specs.declared.actor.Actor.TheVariants.{Client};
ghost use Rattle.dsr_request.specs.OpText.{op_text};
ghost use Rattle.dsr_request.specs.Request.{Request};
ghost use Rattle.dsr_request.specs.RequestText.{request_text, request_token, IsRequest};

use crate::op::{Joined, Op};
use crate::request::Request;
use dsr_base::split_once;
use dsr_names::{Actor, ClientId, read_num};
use std::fmt;

impl Request {
    /// Reads a request's token, like `c0#7:write:a:5`. `None` exactly if the bytes are not one.
    pub fn read(bytes: &[u8]) -> Option<Request>
        ensures { Reads IsRequest request_token bytes.now result }
    {
        read_request(bytes, b'#', b':')
    }

    /// Reads a request's line without its line feed, like `c0 7 write a 5`. `None` exactly if the bytes are not
    /// one.
    pub fn read_line(bytes: &[u8]) -> Option<Request>
        ensures { Reads IsRequest (request_text 32 32) bytes.now result }
    {
        read_request(bytes, b' ', b' ')
    }
}

impl fmt::Display for Request {
    ghost output = { λ request. Some (request_token request) };

    fn fmt<W: fmt::Write>(&self, f: &mut fmt::Formatter<W>) -> fmt::Result {
        let client = Actor::Client(self.client());
        let number = self.number();
        let op = Joined(self.op());
        write!(f, "{client}#{number}:{op}")
    }
}

/// Reads a request's text with this mark after the client, and this separator between all other parts.
fn read_request(bytes: &[u8], mark: u8, separator: u8) -> Option<Request>
    requires mark { (mark ≡ 32) ⊎ (mark ≡ 35) }
    requires separator { (separator ≡ 32) ⊎ (separator ≡ 58) }
    ensures { Reads IsRequest (request_text mark separator) bytes.now result }
{
    let (client, rest) = split_once(bytes, mark)?;
    let (number, op) = split_once(rest, separator)?;
    read_parts(client, number, op, separator)
}

/// Reads the request of this client with this number for this operation, each as bytes.
fn read_parts(client: &[u8], number: &[u8], op: &[u8], separator: u8) -> Option<Request>
    requires { (separator ≡ 32) ⊎ (separator ≡ 58) }
    ensures { (request : Request) → (result ≡ Some request)
        ↔ (IsRequest request × (client.now ≡ actor_text (Client request.client)) × (number.now ≡ decimal request.number)
        × (op.now ≡ op_text separator request.op)) }
{
    let client = read_client(client)?;
    let number = read_num(number)?;
    let op = Op::read(op, separator)?;
    Request::new(client, number, op).ok()
}

/// Reads a client's token.
fn read_client(bytes: &[u8]) -> Option<ClientId>
    ensures { Reads (λ client. client < 32) (λ client. actor_text (Client client)) bytes.now result }
{
    match Actor::read(bytes)? {
        Actor::Client(client) => Some(client),
        Actor::Replica(_) => None,
    }
}
