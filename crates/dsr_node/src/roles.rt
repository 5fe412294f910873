//! What an actor may not do whatever its log is, and choices.

ghost use Rattle.std.specs.Prelude.{◌≡◌};
ghost use Rattle.dsr_names.specs.Shape.{IsActor};
ghost use Rattle.dsr_envelope.specs.Pick.{IsPick};
ghost use Rattle.dsr_node.specs.Conduct.{HasSpelledOp, are_clients, is_own_client, is_traitor_of};

use dsr_envelope::Pick;
use dsr_names::{Actor, Shape};

/// Tells whether an actor of the shape is a traitor.
pub fn is_traitor(shape: &Shape, actor: &Actor) -> bool
    requires { IsActor shape.now actor.now }
    ensures { result ≡ is_traitor_of shape.now actor.now }
{
    !shape.is_loyal(*actor)
}

/// Tells whether both are clients.
pub fn are_clients(one: &Actor, other: &Actor) -> bool
    ensures { result ≡ are_clients one.now other.now }
{
    match (one, other) {
        (Actor::Client(_), Actor::Client(_)) => true,
        _ => false,
    }
}

/// Tells whether both are one client.
pub fn is_own_client(one: &Actor, other: &Actor) -> bool
    ensures { result ≡ is_own_client one.now other.now }
{
    match (one, other) {
        (Actor::Client(client), Actor::Client(another)) => client.number() == another.number(),
        _ => false,
    }
}

/// States that the choice is an allowed one, and that its operation has a text. It does nothing.
pub fn look_at(pick: &Pick)
    ensures pick { IsPick pick.now }
    ensures spelled { HasSpelledOp pick.now }
{
    match pick {
        Pick::Plain => {}
        Pick::From(clients) => {
            let _clients = clients.as_slice();
        }
        Pick::Begin(op) => {
            let _name = op.name();
        }
    }
}
