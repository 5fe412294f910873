use crate::letter::Letter;
use dsr_names::Actor;

/// One step of an actor in its log.
#[derive(Drop)]
pub enum Entry {
    /// The actor posted the envelope.
    Post {
        /// The taker.
        to: Actor,
        /// What it posted.
        envelope: Letter,
    },
    /// The actor took the envelope.
    Take {
        /// The poster.
        from: Actor,
        /// What it took.
        envelope: Letter,
    },
}
