ghost use Rattle.std.specs.Prelude.{◌≡◌, ◌↔◌, true, false, None, length, IsTrue};
ghost use Rattle.dsr_mail.specs.Serving.{IsMarked, nobody, marks_after, picked_after};

use dsr_envelope::Pick;
use dsr_names::{Actor, ClientId};
use std::marker::Model;

/// The most clients of a shape.
const MOST_CLIENTS: usize = 32;

/// The clients that a replica took something from and has not posted to since, and the client that it picked last. It is of fixed size.
#[derive(Drop)]
pub(crate) struct Serving {
    marks: [bool; MOST_CLIENTS],
    picked: Option<ClientId>,
}

impl Model for Serving {
    ghost use Rattle.std.specs.Prelude.{◌≡◌, length};
    ghost use Rattle.dsr_mail.specs.Serving.{Served};

    ghost Value = { Served };

    ghost view = { λ s. record { marks = s.marks; picked = s.picked } };

    ghost invariant = { λ s. length s.marks ≡ 32 };
}

impl Serving {
    /// Creates the state of a replica that took nothing from clients and picked none.
    pub(crate) fn none() -> Serving
        ensures marks { result.marks ≡ nobody }
        ensures picked { result.picked ≡ None }
    {
        Serving {
            marks: [false; MOST_CLIENTS],
            picked: None,
        }
    }

    /// Tells whether the replica took something from the client and has not posted to it since.
    pub(crate) fn has(&self, client: ClientId) -> bool
        ensures { IsTrue result ↔ IsMarked self.now.marks client }
    {
        self.marks[client.number() as usize]
    }

    /// Returns the client that the replica picked last, if any.
    pub(crate) fn picked(&self) -> Option<ClientId>
        ensures { result ≡ self.now.picked }
    {
        self.picked
    }

    /// Notes a take from `from`: a client now waits for an answer.
    pub(crate) fn note_take(&mut self, from: &Actor)
        ensures noted { self.new.marks ≡ marks_after true from.now self.old.marks }
        ensures picked { self.new.picked ≡ self.old.picked }
        ensures long { length self.old.marks ≡ 32 }
    {
        if let Actor::Client(client) = from {
            self.marks[client.number() as usize] = true;
        }
    }

    /// Notes a post to `to` by the choice `pick`: a client is now answered, and the last client that the choice names is the one picked last.
    pub(crate) fn note_post(&mut self, to: &Actor, pick: &Pick)
        ensures noted { self.new.marks ≡ marks_after false to.now self.old.marks }
        ensures picked { self.new.picked ≡ picked_after pick.now self.old.picked }
        ensures long { length self.old.marks ≡ 32 }
    {
        if let Actor::Client(client) = to {
            self.marks[client.number() as usize] = false;
        }
        self.picked = last_of(pick, self.picked);
    }
}

/// Returns the last client that the choice names, or `before` if the choice names none.
fn last_of(pick: &Pick, before: Option<ClientId>) -> Option<ClientId>
    ensures { result ≡ picked_after pick.now before }
{
    match pick {
        Pick::From(clients) => clients.as_slice().last().copied(),
        Pick::Plain | Pick::Begin(_) => before,
    }
}
