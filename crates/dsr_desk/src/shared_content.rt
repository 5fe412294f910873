ghost use Rattle.std.specs.Prelude.{◌≡◌, IfOk, IsOkUnless};

use dsr_names::Refusal;
use dsr_request::{Request, Requests};
use std::alloc::Global;
use std::marker::Model;
use std::sync::Arc;

/// A list of requests that takes no more room than they do.
#[derive(Drop)]
struct RequestList {
    items: Vec<Request>,
}

impl Model for RequestList {
    ghost use Rattle.std.specs.Prelude.{List};
    ghost use Rattle.dsr_request.specs.Request.{Request};

    ghost Value = { List Request };

    ghost view = { λ l. l.items.items };
}

/// The content of a slot that several lists of signatures share: its requests, none if it is idle.
#[derive(Drop)]
pub(crate) struct SharedContent {
    requests: Option<Arc<RequestList, Global>>,
}

impl Model for SharedContent {
    ghost use Rattle.std.specs.Prelude.{List, Option};
    ghost use Rattle.std.specs.Option.{option_map};
    ghost use Rattle.std.specs.Arc.{arc_value};
    ghost use Rattle.dsr_request.specs.Request.{Request};
    ghost use Rattle.dsr_desk.specs.Support.SharedContent.{IsShort};

    ghost Value = { Option (List Request) };

    ghost view = { λ c. option_map arc_value c.requests };

    ghost invariant = { λ c. IsShort (option_map arc_value c.requests) };
}

impl SharedContent {
    /// Puts the content behind a handle, to be shared. Takes no memory if it is idle. `NoMemory` if
    /// memory runs out.
    pub(crate) fn of(alloc: Global, content: &Option<Requests>) -> Result<SharedContent, Refusal>
        ensures made { IfOk result (λ shared. shared ≡ content.now) }
        ensures refusal { IsOkUnless result Refusal.NoMemory }
    {
        let requests = match content {
            None => None,
            Some(requests) => {
                let items = requests.as_slice().to_vec(alloc)?;
                Some(Arc::new(alloc, RequestList { items })?)
            }
        };
        Ok(SharedContent { requests })
    }

    /// Returns another handle of the same content. `NoMemory` if one more handle is refused.
    pub(crate) fn try_share(&self) -> Result<SharedContent, Refusal>
        ensures same { IfOk result (λ shared. shared ≡ self.now) }
        ensures refusal { IsOkUnless result Refusal.NoMemory }
    {
        let requests = match &self.requests {
            None => None,
            Some(requests) => match Arc::try_clone(requests) {
                Ok(requests) => Some(requests),
                Err(_) => return Err(Refusal::NoMemory),
            },
        };
        Ok(SharedContent { requests })
    }

    /// Returns the content itself.
    pub(crate) fn content(&self) -> Option<Requests>
        ensures { result ≡ self.now }
    {
        match &self.requests {
            None => None,
            Some(requests) => Requests::of(requests.items.as_slice()),
        }
    }
}
