ghost use Rattle.std.specs.Prelude.{◌≡◌, [], ◌∷◌};
ghost use Rattle.std.specs.Option.{option_map};
ghost use Rattle.dsr_envelope.specs.declared.entry.Entry.TheVariants.{Post as PostEntry, Take as TakeEntry};
ghost use Rattle.dsr_world.specs.Stage.{last_taken};

use crate::local_letter::LocalLetter;
use dsr_envelope::Letter;
use dsr_names::Actor;
use http_server::Log;
use std::marker::Model;

/// What an actor does with a letter: it posts it to another, or takes it that came from another.
#[derive(Drop)]
pub(crate) enum Act {
    Post { from: Actor, to: Actor },
    Take { at: Actor, from: Actor },
}

/// The steps so far, as proofs read them: of all steps only the letter that was taken last is stored.
#[derive(Drop)]
pub(crate) struct Steps {
    log: Log<Act, LocalLetter>,
    taken: Option<LocalLetter>,
}

impl Model for Steps {
    ghost use Rattle.std.specs.Prelude.{List};
    ghost use Rattle.dsr_run.specs.Step.{Step};
    ghost use Rattle.dsr_world.specs.Support.StepsFields.{steps_of, HoldsLastTaken};

    ghost Value = { List Step };

    ghost view = { steps_of };

    ghost invariant = { HoldsLastTaken };
}

impl Steps {
    /// Makes the list without a step.
    pub(crate) fn new() -> Steps
        ensures { result ≡ [] }
    {
        Steps {
            log: Log::new(),
            taken: None,
        }
    }

    /// Returns the letter that was taken last.
    pub(crate) fn last_taken(&self) -> Option<&Letter>
        ensures { option_map (λ letter. letter.now) result ≡ last_taken self.now }
    {
        let local = self.taken.as_ref()?;
        Some(local.letter())
    }

    /// Adds the post of a letter.
    pub(crate) fn add_post(&mut self, from: &Actor, to: &Actor, letter: &LocalLetter)
        ensures { self.new ≡ (from.now, PostEntry to.now letter.now) ∷ self.old }
    {
        let act = Act::Post {
            from: *from,
            to: *to,
        };
        self.log = self.log.and(&act, letter);
    }

    /// Adds the take of a letter, and stores the letter in place of the one before.
    pub(crate) fn add_take(&mut self, at: &Actor, from: &Actor, letter: LocalLetter)
        ensures { self.new ≡ (at.now, TakeEntry from.now letter) ∷ self.old }
    {
        let act = Act::Take {
            at: *at,
            from: *from,
        };
        self.log = self.log.and(&act, &letter);
        self.taken = Some(letter);
    }
}
