//! What an explanation in words says at its end about all events: what mattered although nothing was refused, and how many contents were kept. Also the
//! lines since which boxes are full.

use crate::counts::NoteCounts;
use crate::posts::PostLines;
use dsr_envelope::Envelope;
use dsr_names::Refusal;
use dsr_notes::Note;
use dsr_reasons::actor_of;
use dsr_world::{Event, Stage};
use std::alloc::Global;

/// What was counted in the events so far. Nothing is counted for data, which have no summary.
#[derive(Drop)]
pub(crate) struct Summary {
    as_data: bool,
    pub(crate) counts: NoteCounts,
    pub(crate) posts: PostLines,
}

impl Summary {
    /// Creates the summary before any event. `NoMemory` if memory runs out.
    pub(crate) fn new(alloc: Global, as_data: bool) -> Result<Summary, Refusal> {
        Ok(Summary {
            as_data,
            counts: NoteCounts::new(alloc),
            posts: PostLines::new(alloc, as_data)?,
        })
    }

    /// Counts an event of this line, which was done last, with the envelope that it posted or took, and its notes. `NoMemory` if memory runs out.
    pub(crate) fn add(
        &mut self,
        stage: &Stage,
        event: &Event,
        envelope: Option<&Envelope>,
        line: u64,
        notes: &[Note],
    ) -> Result<(), Refusal> {
        if self.as_data {
            return Ok(());
        }
        self.posts.note(event, line);
        self.counts
            .add(stage, &actor_of(event), envelope, line, notes)
    }

    /// Notes an event of this line, which was done, if only refused events are explained.
    pub(crate) fn add_briefly(&mut self, event: &Event, line: u64) {
        if !self.as_data {
            self.posts.note(event, line);
        }
    }
}
