//! In which line of a play the post is that fills a box.

ghost use Rattle.std.specs.Prelude.{◌<◌};

use crate::pieces::{MOST_ACTORS, place_of};
use dsr_names::{Actor, Refusal};
use dsr_reasons::{actor_of, other_of};
use dsr_world::Event;
use std::alloc::Global;

/// How many boxes there are.
pub(crate) const BOXES: usize = MOST_ACTORS * MOST_ACTORS;

/// For each box, by its place, the line of the last event that filled it. There are none for data.
#[derive(Drop)]
pub(crate) struct PostLines {
    lines: Vec<u64>,
}

impl PostLines {
    /// Creates the lines before any event. `NoMemory` if memory runs out.
    pub(crate) fn new(alloc: Global, as_data: bool) -> Result<PostLines, Refusal> {
        let boxes = if as_data { 0 } else { BOXES };
        let lines = vec![in alloc; 0; boxes]?;
        Ok(PostLines { lines })
    }

    /// Notes the line of an event, which was done, if it filled a box.
    pub(crate) fn note(&mut self, event: &Event, line: u64) {
        let (from, to) = match event {
            Event::Post { from, to, .. }
            | Event::Plant { from, to, .. }
            | Event::Tell { from, to } => (*from, *to),
            Event::Take { .. } => return,
        };
        if let Some(place) = self.lines.get_mut(place_of_box(from, to)) {
            *place = line;
        }
    }

    /// Returns the line of the post that fills the event's box, if the event was refused because the box is full; `None` for data.
    pub(crate) fn full_since(&self, event: &Event, refusal: &Refusal) -> Option<u64> {
        match refusal {
            Refusal::BoxFull => {
                let place = place_of_box(actor_of(event), other_of(event));
                self.lines.get(place).copied()
            }
            _ => None,
        }
    }
}

/// Returns the place of the box from one actor to another.
pub(crate) fn place_of_box(poster: Actor, taker: Actor) -> usize
    ensures { result < 2304 }
{
    place_of(poster) * MOST_ACTORS + place_of(taker)
}
