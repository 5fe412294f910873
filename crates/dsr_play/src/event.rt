use crate::choice::Choice;
use dsr_names::Actor;
use dsr_script::Draft;

/// An event: something that is to happen in a world. It takes little room, since a play can have a million: what
/// is large is behind a handle.
#[derive(Drop)]
pub enum Event {
    /// A loyal actor posts what its protocol asks for.
    Post {
        /// The actor that posts.
        from: Actor,
        /// The actor to which it posts.
        to: Actor,
        /// Its choice among the posts that its protocol allows.
        pick: Choice,
    },
    /// A traitor posts an envelope of its own.
    Plant {
        /// The actor that posts.
        from: Actor,
        /// The actor to which it posts.
        to: Actor,
        /// The envelope that it posts.
        draft: Draft,
    },
    /// An actor takes the envelope that another one posted to it.
    Take {
        /// The actor that takes.
        at: Actor,
        /// The actor from which it takes.
        from: Actor,
    },
    /// A client posts its seen front to another.
    Tell {
        /// The client that posts.
        from: Actor,
        /// The client to which it posts.
        to: Actor,
    },
}

/// An event takes 24 bytes.
const _: () = prove!(size_of::<Event>() == 24);
