use dsr_envelope::Entry;
use dsr_names::{Actor, Shape};
use std::alloc::Global;
use std::collections::LinkedList;

/// What an actor does with a box between two steps of a run.
pub enum Doing {
    /// It does nothing.
    Resting,
    /// It has claimed its box to this actor, and fills it.
    Filling(Actor),
    /// It has fetched this actor's box to it, and empties it.
    Emptying(Actor),
    /// It does nothing, and was shown this past of the run, the newest step first.
    Recalling(LinkedList<(Actor, Entry), Global>),
}

/// Whom a pass represents.
pub enum Part {
    /// The actors of the lowest places, one for each log; the log of the highest place comes first.
    Keeping(LinkedList<LinkedList<Entry, Global>, Global>),
    /// One actor, with its log, the newest entry first, and what it does.
    Sitting(Actor, LinkedList<Entry, Global>, Doing),
    /// The actors of these logs, in the same order, and past moments: what the run was then, the newest step first.
    Watching(
        LinkedList<LinkedList<Entry, Global>, Global>,
        LinkedList<LinkedList<(Actor, Entry), Global>, Global>,
    ),
}

/// What a pass knows. No code makes a value of it: it is used in proofs alone.
pub struct View {
    pub shape: Shape,
    pub part: Part,
}
