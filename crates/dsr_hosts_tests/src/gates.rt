//! The gates of the tests.

ghost use Rattle.std.specs.Prelude.{◌≡◌};

use dsr_names::{Actor, ReplicaId};
use dsr_rounds::Gate;
use std::sync::atomic::Ordering::SeqCst;
use std::sync::atomic::{AtomicBool, AtomicU64};
use std::thread;

/// The maximum number of times that one replica looks for the other.
const MEETING_LOOKS: u64 = 1_000_000;

/// The number of turns that replicas and traitors have together, without a pause, after each turn of a client.
const HASTY_TURNS: u64 = 3_000;

/// The maximum number of times that others may run first in each turn after those.
const YIELDS: u64 = 10_000;

/// The number of turns that r0 has before it first sleeps until r1 posts to it, if there is one client: it looks once for mail of the client, posts to r0,
/// r1 and r2, takes from r0, and tries to take from r1.
pub(crate) const TURNS_BEFORE_SLEEP: u64 = 6;

/// The number of times that others may run while r0 sleeps.
const YIELDS_IN_SLEEP: u64 = 1_000;

/// Lets everybody go on.
#[derive(Drop)]
pub(crate) struct Open;

impl Gate for Open {
    ghost may_refuse = { λ _ _. ⊥ };

    fn pass(&self, _actor: Actor, _turn: u64) -> bool {
        true
    }
}

/// Lets one actor make `turns` turns, and all others any number.
#[derive(Drop)]
pub(crate) struct Until {
    /// The actor.
    pub(crate) actor: Actor,
    /// The number of the first turn that it refuses.
    pub(crate) turns: u64,
}

impl Gate for Until {
    ghost may_refuse = { λ _ _. Unit {0} };

    fn pass(&self, actor: Actor, turn: u64) -> bool {
        actor != self.actor || turn < self.turns
    }
}

/// Refuses r1 already its first turn, but only a while after r0 had its last turn before it sleeps until r1 posts to it; lets all others go on.
#[derive(Drop)]
pub(crate) struct Sleeping {
    /// The number of turns of r0.
    turns: AtomicU64,
}

impl Sleeping {
    /// Creates a gate that was not asked yet.
    pub(crate) fn new() -> Sleeping {
        Sleeping {
            turns: AtomicU64::new(0),
        }
    }

    /// Returns how many turns r0 took.
    pub(crate) fn turns(&self) -> u64 {
        self.turns.load(SeqCst)
    }

    /// Lets others run first until r0 sleeps, and for a while after that.
    fn give_time(&self) {
        for _ in 0..MEETING_LOOKS {
            if self.turns() >= TURNS_BEFORE_SLEEP {
                break;
            }
            thread::yield_now();
        }
        for _ in 0..YIELDS_IN_SLEEP {
            thread::yield_now();
        }
    }
}

impl Gate for Sleeping {
    ghost may_refuse = { λ _ _. Unit {0} };

    fn pass(&self, actor: Actor, _turn: u64) -> bool {
        if actor == Actor::Replica(ReplicaId::of(1)) {
            self.give_time();
            return false;
        }
        if actor == Actor::Replica(ReplicaId::FIRST) {
            self.turns.fetch_add(1, SeqCst);
        }
        true
    }
}

/// Lets everybody go on, but gives a slow client time before replicas and traitors have used up their rounds.
#[derive(Drop)]
struct Patient {
    /// The turns of replicas and traitors since the last one of a client.
    turns: AtomicU64,
}

impl Patient {
    /// Creates a gate that was not asked yet.
    fn new() -> Patient {
        Patient {
            turns: AtomicU64::new(0),
        }
    }

    /// Lets a client run first, for a while, if no client took a turn for long.
    fn give_time(&self) {
        if self.turns.fetch_add(1, SeqCst) < HASTY_TURNS {
            return;
        }
        for _ in 0..YIELDS {
            if self.turns.load(SeqCst) < HASTY_TURNS {
                return;
            }
            thread::yield_now();
        }
    }
}

impl Gate for Patient {
    ghost may_refuse = { λ _ _. ⊥ };

    fn pass(&self, actor: Actor, _turn: u64) -> bool {
        match actor {
            Actor::Replica(_) => self.give_time(),
            Actor::Client(_) => self.turns.store(0, SeqCst),
        }
        true
    }
}

/// Lets everybody go on, and is patient; and counts the turns of r0, r1, r2 and c0.
#[derive(Drop)]
pub(crate) struct Counting {
    patient: Patient,
    first: AtomicU64,
    second: AtomicU64,
    third: AtomicU64,
    client: AtomicU64,
    amiss: AtomicBool,
}

impl Counting {
    /// Creates a gate that was not asked yet.
    pub(crate) fn new() -> Counting {
        Counting {
            patient: Patient::new(),
            first: AtomicU64::new(0),
            second: AtomicU64::new(0),
            third: AtomicU64::new(0),
            client: AtomicU64::new(0),
            amiss: AtomicBool::new(false),
        }
    }

    /// Returns whether the number of some turn differs from its actor's count of turns before it.
    pub(crate) fn is_amiss(&self) -> bool {
        self.amiss.load(SeqCst)
    }

    /// Returns how many turns the actor took.
    pub(crate) fn turns(&self, actor: &Actor) -> u64 {
        self.count(actor).load(SeqCst)
    }

    /// Returns the count of the actor's turns.
    fn count(&self, actor: &Actor) -> &AtomicU64 {
        match actor {
            Actor::Replica(replica) => match replica.number() {
                0 => &self.first,
                1 => &self.second,
                _ => &self.third,
            },
            Actor::Client(_) => &self.client,
        }
    }
}

impl Gate for Counting {
    ghost may_refuse = { λ _ _. ⊥ };

    fn pass(&self, actor: Actor, turn: u64) -> bool {
        if self.count(&actor).fetch_add(1, SeqCst) != turn {
            self.amiss.store(true, SeqCst);
        }
        self.patient.pass(actor, turn)
    }
}

/// One of two replicas that look for each other.
#[derive(Drop)]
struct Party {
    came: AtomicBool,
    met: AtomicBool,
}

impl Party {
    /// Creates a replica that has not come yet.
    fn new() -> Party {
        Party {
            came: AtomicBool::new(false),
            met: AtomicBool::new(false),
        }
    }

    /// Comes, and looks for the other one until that has come too. They meet only if they run at the same time.
    fn meet(&self, other: &Party) {
        self.came.store(true, SeqCst);
        for _ in 0..MEETING_LOOKS {
            if other.came.load(SeqCst) {
                self.met.store(true, SeqCst);
                return;
            }
            thread::yield_now();
        }
    }
}

/// Counts like `Counting`; and in their first turns r0 and r1 look for each other.
#[derive(Drop)]
pub(crate) struct Meeting {
    /// What counts the turns.
    pub(crate) counting: Counting,
    first: Party,
    second: Party,
}

impl Meeting {
    /// Creates a gate that was not asked yet.
    pub(crate) fn new() -> Meeting {
        Meeting {
            counting: Counting::new(),
            first: Party::new(),
            second: Party::new(),
        }
    }

    /// Returns whether both saw each other.
    pub(crate) fn both_met(&self) -> bool {
        self.first.met.load(SeqCst) && self.second.met.load(SeqCst)
    }

    /// Has replica 0 or 1 look for the other of the two; does nothing for any other replica.
    fn meet(&self, replica: &ReplicaId) {
        match replica.number() {
            0 => self.first.meet(&self.second),
            1 => self.second.meet(&self.first),
            _ => {}
        }
    }
}

impl Gate for Meeting {
    ghost may_refuse = { λ _ _. ⊥ };

    fn pass(&self, actor: Actor, turn: u64) -> bool {
        if let (Actor::Replica(replica), 0) = (&actor, turn) {
            self.meet(replica);
        }
        self.counting.pass(actor, turn)
    }
}
