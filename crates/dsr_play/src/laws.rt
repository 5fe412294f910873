//! The law that each event can be written in a play: it is the contract
//! of a function that does nothing.

ghost use Rattle.std.specs.Prelude.{◌<◌, All, ℕ};
ghost use Rattle.dsr_names.specs.Actor.{IsNumbered};
ghost use Rattle.dsr_play.specs.Event.{IsSpelledEvent};
ghost use Rattle.dsr_play.specs.PlayText.{IsSpelledPick};

use crate::event::Event;
use dsr_envelope::Pick;
use dsr_names::{Actor, ClientId};
use dsr_script::each_draft_has_a_text;

/// States that a line of a play can write each event.
pub fn each_event_has_a_line(event: &Event)
    ensures { IsSpelledEvent event.now }
{
    match event {
        Event::Post { from, to, pick } => {
            number_actor(from);
            number_actor(to);
            spell_pick(&pick.pick());
        }
        Event::Plant { from, to, draft } => {
            number_actor(from);
            number_actor(to);
            each_draft_has_a_text(draft);
        }
        Event::Take { at, from } => {
            number_actor(at);
            number_actor(from);
        }
        Event::Tell { from, to } => {
            number_actor(from);
            number_actor(to);
        }
    }
}

/// Shows that texts can name the number of any actor.
fn number_actor(actor: &Actor)
    ensures { IsNumbered actor.now }
{
    match actor {
        Actor::Replica(replica) => {
            let _number = replica.number();
        }
        Actor::Client(client) => {
            let _number = client.number();
        }
    }
}

/// Shows that a text can write any choice.
fn spell_pick(pick: &Pick)
    ensures { IsSpelledPick pick.now }
{
    match pick {
        Pick::Plain => {}
        Pick::From(clients) => number_clients(clients.as_slice()),
        Pick::Begin(op) => {
            let _name = op.name();
        }
    }
}

/// Shows that the numbers of any clients are below 32.
fn number_clients(clients: &[ClientId])
    ensures { All (λ (c : ℕ). c < 32) clients.now }
{
    for client in clients {
        let _number = client.number();
    }
}
