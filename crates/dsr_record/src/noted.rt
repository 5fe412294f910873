ghost use Rattle.std.specs.Prelude.{◌≡◌};
ghost use Rattle.dsr_run.specs.Run.{envelope_of};
ghost use Rattle.dsr_record.specs.Support.Noted.{entry_of};

use dsr_names::Actor;
use dsr_script::Draft;
use std::marker::Model;

/// An entry of an actor's log, with its envelope as data.
#[derive(Drop)]
pub enum NotedEntry {
    /// The actor posted the envelope.
    Post {
        /// The actor to which it posted.
        to: Actor,
        /// The envelope that it posted.
        envelope: Draft,
    },
    /// The actor took the envelope.
    Take {
        /// The actor from which it took.
        from: Actor,
        /// The envelope that it took.
        envelope: Draft,
    },
}

/// A step as data: an actor, and the entry that its log got. Contracts see it as that step.
#[derive(Drop)]
pub struct NotedStep {
    actor: Actor,
    entry: NotedEntry,
}

impl Model for NotedStep {
    ghost use Rattle.dsr_run.specs.Step.{Step};
    ghost use Rattle.dsr_record.specs.Support.Noted.{entry_of};

    ghost Value = { Step };

    ghost view = { λ s. (s.actor, entry_of s.entry) };
}

impl NotedStep {
    /// Makes the step in which this actor's log got this entry.
    pub fn new(actor: Actor, entry: NotedEntry) -> NotedStep
        ensures { result ≡ (actor, entry_of entry) }
    {
        NotedStep { actor, entry }
    }

    /// Returns the actor that took the step.
    pub fn actor(&self) -> Actor
        ensures { result ≡ self.now.0 }
    {
        self.actor
    }

    /// Returns the entry that its log got.
    pub fn entry(&self) -> &NotedEntry
        ensures { entry_of result.now ≡ self.now.1 }
    {
        &self.entry
    }

    /// Returns the envelope that was posted or taken.
    pub fn envelope(&self) -> &Draft
        ensures { result.now ≡ envelope_of self.now.1 }
    {
        match &self.entry {
            NotedEntry::Post { envelope, .. } | NotedEntry::Take { envelope, .. } => envelope,
        }
    }
}
