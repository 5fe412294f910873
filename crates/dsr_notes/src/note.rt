use dsr_ledger::Reply;
use dsr_request::Request;
use dsr_slot::{Fate, Kept};

/// What came of an event that was done.
#[derive(Drop)]
pub enum Note {
    /// The envelope that a loyal replica took is not one of the round in progress: none of its chains counts.
    OtherRound {
        /// The round in progress.
        round: u64,
    },
    /// What becomes of a chain that a loyal replica took.
    Chain {
        /// Its place in the envelope.
        place: u64,
        slot: u64,
        fate: ChainFate,
    },
    /// A chain that a loyal replica has kept for the slot that closes.
    Kept(Kept),
    /// A loyal replica closed this round.
    Closed {
        round: u64,
    },
    /// A loyal replica decided a slot, for which it had kept this many chains.
    Decided {
        slot: u64,
        kept: u8,
    },
    /// A request that was decided for the slot acted, at this place of the history.
    Acted {
        slot: u64,
        place: u64,
        request: Request,
    },
    /// A request that was decided for the slot did not act: one of its client with this or a greater number was decided before.
    Stale {
        slot: u64,
        request: Request,
    },
    /// A loyal replica holds the request that it took.
    Held {
        request: Request,
    },
    /// A reply is a vote: `count` replicas have voted for it, and `needed` votes are needed.
    Vote {
        count: u8,
        needed: u8,
    },
    /// The envelope that a client took from a replica is not a vote.
    NoVote {
        why: NoVote,
    },
    /// A client accepted the reply.
    Accepted {
        reply: Reply,
    },
    /// A replica chose to propose nothing in its slot, though it holds this request, which neither acted there nor is in a chain that it keeps.
    Unproposed {
        slot: u64,
        request: Request,
    },
}

/// What becomes of a chain.
#[derive(Clone, Copy, Debug, PartialEq, Eq)]
pub enum ChainFate {
    /// It is read in this round of its slot, counted from 1.
    Read { round: u8, fate: Fate },
    /// Its slot is not in flight.
    NotInFlight,
}

/// Why an envelope that a client took from a replica is not a vote.
#[derive(Clone, Copy, Debug, PartialEq, Eq)]
pub enum NoVote {
    /// It is not a reply.
    NoReply,
    /// No request is outstanding.
    NothingOutstanding,
    /// The outstanding request has another number than the reply.
    OtherNumber { outstanding: u64 },
    /// The replica has voted already: only its first reply counts.
    HasVoted,
}
