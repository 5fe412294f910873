ghost use Rattle.std.specs.Prelude.{◌≡◌, suc, ◌<◌, ◌≤◌, ◌+◌, ◌++◌, ◌∷◌, [], List, Option};
ghost use Rattle.dsr_names.specs.declared.refusal.Refusal.{Refusal};
ghost use Rattle.dsr_world.specs.Outcome.{Counts, starved_by};
ghost use Rattle.std.proofs.Common.{rules};

use dsr_base::Exact;
use dsr_names::Refusal;

/// How a list of events ended.
#[derive(Clone, Copy, Debug, PartialEq, Eq)]
pub struct RunEnd {
    /// How many events were done.
    pub done: u64,
    /// How many events were refused.
    pub refused: u64,
    /// How many of the refused ones were refused because memory ran out.
    pub starved: u64,
    /// The first refusal, with the index of its event, counted from 0.
    pub first: Option<(u64, Refusal)>,
}

impl RunEnd {
    /// Makes the end of an empty list of events.
    pub(crate) fn new() -> RunEnd
        ensures { Counts [] result }
    {
        RunEnd {
            done: 0,
            refused: 0,
            starved: 0,
            first: None,
        }
    }

    /// Counts one more event, with its refusal if there was one.
    pub(crate) fn add(&mut self, outcome: Option<Refusal>)
        requires few { self.old.done + self.old.refused < 18446744073709551615 }
        requires starved { self.old.starved ≤ self.old.refused }
        ensures counts { (outcomes : List (Option Refusal)) → Counts outcomes self.old → Counts (outcomes ++ outcome ∷ []) self.new }
        ensures one { self.new.done + self.new.refused ≡ suc (self.old.done + self.old.refused) }
        ensures starved { self.new.starved ≤ self.new.refused }
    {
        match outcome {
            None => self.done += 1,
            Some(refusal) => {
                self.first = self.first.or(Some((self.done + self.refused, refusal)));
                self.refused += 1;
                self.starved += starved_by(refusal);
            }
        }
    }
}

/// Returns 1 if memory ran out, else 0.
fn starved_by(refusal: Refusal) -> u64
    ensures same { result ≡ starved_by refusal }
    ensures small { result ≤ 1 }
{
    match refusal {
        Refusal::NoMemory => 1,
        _ => 0,
    }
}

impl Exact for RunEnd {
    ghost use Rattle.dsr_world.specs.Support.RunEndEquality.{run_end_eq-Decides};

    ghost decides = { run_end_eq-Decides };

    ghost clones = { λ a b. Prim.search rules };
}
