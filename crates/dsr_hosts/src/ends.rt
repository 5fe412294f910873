//! How the hosts of a service ended.

ghost use Rattle.std.specs.Prelude.{◌≡◌, true, None};
ghost use Rattle.dsr_hosts.specs.Ranks.{cause_of, ends_with, first_with, lesser_of};

use dsr_names::Refusal;
use dsr_rounds::End;

/// A refusal that ended a host, with its rank among the faults of all hosts.
#[derive(Clone, Copy)]
pub(crate) struct Fault {
    rank: usize,
    refusal: Refusal,
}

/// How the hosts that came back so far ended.
#[derive(Drop)]
pub(crate) struct Ends {
    /// The lowest-ranked fault.
    first: Option<Fault>,
    /// Whether each client among them is served.
    served: bool,
}

impl Ends {
    /// Returns the ends of no hosts.
    pub(crate) fn none() -> Ends
        ensures first { result.first ≡ None }
        ensures served { result.served ≡ true }
    {
        Ends {
            first: None,
            served: true,
        }
    }

    /// Adds the end of one more host. A fault of that host has rank `rank`.
    pub(crate) fn with(self, rank: usize, is_client: bool, end: &Option<End>) -> Ends
        ensures { result ≡ ends_with self rank is_client end.now }
    {
        let served = self.served && (!is_client || end.is_none());
        let first = first_of(self.first, rank, end);
        Ends { first, served }
    }

    /// Returns the cause of the service's end: the refusal of the lowest-ranked fault, even if all clients are served; without a fault, `Unanswered`
    /// if a client is not served, else `None`.
    pub(crate) fn cause(&self) -> Option<Refusal>
        ensures { result ≡ cause_of self.now.first self.now.served }
    {
        if let Some(fault) = &self.first {
            return Some(fault.refusal);
        }
        if self.served {
            None
        } else {
            Some(Refusal::Unanswered)
        }
    }
}

/// Returns the lowest-ranked fault, given the lowest so far and the end of one more host. A fault of that host has rank `rank`.
fn first_of(first: Option<Fault>, rank: usize, end: &Option<End>) -> Option<Fault>
    ensures { result ≡ first_with first rank end.now }
{
    match end {
        Some(End::Fault(refusal)) => {
            let refusal = *refusal;
            Some(lesser(first, Fault { rank, refusal }))
        }
        Some(End::Told) => first,
        None => first,
    }
}

/// Returns the lower-ranked fault; of equal ranks, `first`.
fn lesser(first: Option<Fault>, other: Fault) -> Fault
    ensures { result ≡ lesser_of first other }
{
    match first {
        Some(fault) => {
            if fault.rank <= other.rank {
                fault
            } else {
                other
            }
        }
        None => other,
    }
}
