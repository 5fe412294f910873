ghost use Rattle.std.specs.Prelude.{◌≡◌};

use dsr_ledger::Reply;
use dsr_names::ClientId;
use dsr_request::Request;
use std::marker::Model;

/// What a run gave.
#[derive(Drop)]
pub struct Verdict {
    entries: u64,
    history: Vec<Request>,
    accepted: Vec<(ClientId, Reply)>,
}

impl Model for Verdict {
    ghost use Rattle.dsr_check.specs.Verdict.{Verdict};

    ghost Value = { Verdict };

    ghost view = { λ v. record { entries = v.entries; history = v.history.items; accepted = v.accepted.items } };
}

impl Verdict {
    /// Makes the verdict from these.
    pub(crate) fn of(
        entries: u64,
        history: Vec<Request>,
        accepted: Vec<(ClientId, Reply)>,
    ) -> Verdict
        ensures { result ≡ record { entries = entries; history = history.items; accepted = accepted.items } }
    {
        Verdict {
            entries,
            history,
            accepted,
        }
    }

    /// Returns how many entries the run has: one for each line after the header.
    pub fn entries(&self) -> u64
        ensures { result ≡ self.now.entries }
    {
        self.entries
    }

    /// Returns the history: the requests that acted, in order.
    pub fn history(&self) -> &[Request]
        ensures { result.now ≡ self.now.history }
    {
        self.history.as_slice()
    }

    /// Returns the replies that clients accepted, each with its client: client by client, and for
    /// each in the order of acceptance.
    pub fn accepted(&self) -> &[(ClientId, Reply)]
        ensures { result.now ≡ self.now.accepted }
    {
        self.accepted.as_slice()
    }
}
