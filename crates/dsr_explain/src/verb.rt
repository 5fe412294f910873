//! What an actor does in an event.

ghost use Rattle.std.specs.Prelude.{◌≡◌};
ghost use Rattle.dsr_explain.specs.Told.{verb_of, verb_text};

use dsr_reasons::one_of;
use dsr_world::Event;

/// What an actor does in an event.
#[derive(Clone, Copy, PartialEq)]
pub enum Verb {
    Posts,
    Plants,
    Takes,
    Tells,
}

impl Verb {
    /// Returns what the event's actor does in it.
    pub(crate) fn of(event: &Event) -> Verb
        ensures { result ≡ verb_of event.now }
    {
        match event {
            Event::Post { .. } => Verb::Posts,
            Event::Plant { .. } => Verb::Plants,
            Event::Take { .. } => Verb::Takes,
            Event::Tell { .. } => Verb::Tells,
        }
    }

    /// Returns what this is called: a word if `as_data`, otherwise a verb between two names.
    pub(crate) fn text(self, as_data: bool) -> &'static str
        ensures { result.now ≡ verb_text as_data self }
    {
        match self {
            Verb::Posts => one_of(as_data, "post", " posts to "),
            Verb::Plants => one_of(as_data, "plant", " plants for "),
            Verb::Takes => one_of(as_data, "take", " takes from "),
            Verb::Tells => one_of(as_data, "tell", " tells "),
        }
    }
}
