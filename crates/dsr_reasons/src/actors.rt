//! The two actors of an event.

ghost use Rattle.std.specs.Prelude.{◌≡◌};
ghost use Rattle.dsr_reasons.specs.Reason.{actor_of, other_of};

use dsr_names::Actor;
use dsr_world::Event;

/// Returns the actor that posts, takes or tells.
pub fn actor_of(event: &Event) -> Actor
    ensures { result ≡ actor_of event.now }
{
    match event {
        Event::Post { from, .. } => *from,
        Event::Plant { from, .. } => *from,
        Event::Take { at, .. } => *at,
        Event::Tell { from, .. } => *from,
    }
}

/// Returns the actor to whom it posts or tells, or from whom it takes.
pub fn other_of(event: &Event) -> Actor
    ensures { result ≡ other_of event.now }
{
    match event {
        Event::Post { to, .. } => *to,
        Event::Plant { to, .. } => *to,
        Event::Take { from, .. } => *from,
        Event::Tell { to, .. } => *to,
    }
}
