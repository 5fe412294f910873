ghost use Rattle.std.specs.Prelude.{◌≡◌, ◌↔◌, ◌≤◌, true, false, IsTrue};

use std::marker::Model;
use std::sync::atomic::Ordering::SeqCst;
use std::sync::atomic::{AtomicBool, AtomicU64};

/// Whether the hosts of one service were told to stop, and how many of them have ended. A host that runs on its own has a `Stop` that tells it
/// nothing.
#[derive(Drop)]
pub struct Stop {
    serves: bool,
    told: AtomicBool,
    ended: AtomicU64,
}

/// Evidence that the hosts were told to stop. Only `Stop::tell` makes one.
#[derive(Drop)]
pub struct Told {
    first: bool,
}

impl Told {
    /// Returns whether nobody told them before.
    pub fn is_first(&self) -> bool
        ensures { result ≡ self.now.first }
    {
        self.first
    }
}

/// Evidence that the end of one more host was noted. Only `Stop::note_end` makes one.
#[derive(Drop)]
pub struct Noted {
    before: u64,
}

/// How many ends of hosts were noted at a look at the counter. Only `Stop::ended` makes one.
#[derive(Drop)]
pub struct Ended {
    count: u64,
}

impl Ended {
    /// Returns whether at least `hosts` ends were noted.
    pub fn is_all(&self, hosts: u8) -> bool
        ensures { IsTrue result ↔ (hosts ≤ self.now.count) }
    {
        self.count >= hosts as u64
    }
}

impl Model for Stop {
    ghost use Rattle.std.specs.Prelude.{Bool};

    // Whether it can tell hosts to stop.
    ghost Value = { Bool };

    ghost view = { λ s. s.serves };
}

impl Stop {
    /// Makes the `Stop` of a host on its own, which never tells it to stop.
    pub fn never() -> Stop
        ensures { result ≡ false }
    {
        Stop {
            serves: false,
            told: AtomicBool::new(false),
            ended: AtomicU64::new(0),
        }
    }

    /// Makes the `Stop` of the hosts of one service, which were not told to stop yet.
    pub fn of_service() -> Stop
        ensures { result ≡ true }
    {
        Stop {
            serves: true,
            told: AtomicBool::new(false),
            ended: AtomicU64::new(0),
        }
    }

    /// Tells the hosts to stop.
    pub fn tell(&self) -> Told {
        Told {
            first: !self.told.swap(true, SeqCst),
        }
    }

    /// Returns whether the hosts were told to stop; false for a host on its own.
    pub fn is_told(&self) -> bool
        ensures { IsTrue result → self.now ≡ true }
    {
        self.serves && self.told.load(SeqCst)
    }

    /// Notes that one more host has ended.
    pub fn note_end(&self) -> Noted {
        Noted {
            before: self.ended.fetch_add(1, SeqCst),
        }
    }

    /// Returns how many ends of hosts are noted.
    pub fn ended(&self) -> Ended {
        Ended {
            count: self.ended.load(SeqCst),
        }
    }
}
