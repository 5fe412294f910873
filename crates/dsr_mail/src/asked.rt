ghost use Rattle.std.specs.Prelude.{◌≡◌, ◌↔◌, length, IsTrue};
ghost use Rattle.dsr_mail.specs.Asked.{IsMarked, none_marked, marks_posted, marks_taken};

use dsr_envelope::Pick;
use dsr_ledger::Reply;
use dsr_names::{Actor, ReplicaId};
use std::marker::Model;

/// The most replicas of a shape.
const MOST_REPLICAS: usize = 16;

/// The replicas that a client asked for its outstanding request. It is of fixed size.
#[derive(Drop)]
pub(crate) struct Asked {
    marks: [bool; MOST_REPLICAS],
}

impl Model for Asked {
    ghost use Rattle.std.specs.Prelude.{◌≡◌, Bool, List, length};

    ghost Value = { List Bool };

    ghost view = { λ a. a.marks };

    ghost invariant = { λ a. length a.marks ≡ 16 };
}

impl Asked {
    /// Creates an empty set of replicas.
    pub(crate) fn none() -> Asked
        ensures { result ≡ none_marked }
    {
        Asked {
            marks: [false; MOST_REPLICAS],
        }
    }

    /// Tells whether this replica was asked.
    pub(crate) fn has(&self, replica: ReplicaId) -> bool
        ensures { IsTrue result ↔ IsMarked self.now replica }
    {
        self.marks[replica.number() as usize]
    }

    /// Notes a post to `to` by the choice `pick`. A new request clears the marks of all other replicas.
    pub(crate) fn note_post(&mut self, to: &Actor, pick: &Pick)
        ensures noted { self.new ≡ marks_posted to.now pick.now self.old }
        ensures long { length self.old ≡ 16 }
    {
        if let Actor::Replica(replica) = to {
            if let Pick::Begin(_) = pick {
                self.marks = [false; MOST_REPLICAS];
            }
            self.marks[replica.number() as usize] = true;
        }
    }

    /// Notes the reply that a take accepted, if any: it clears all marks, because nothing is outstanding any more.
    pub(crate) fn note_reply(&mut self, reply: &Option<Reply>)
        ensures { self.new ≡ marks_taken reply.now self.old }
    {
        if reply.is_some() {
            self.marks = [false; MOST_REPLICAS];
        }
    }
}
