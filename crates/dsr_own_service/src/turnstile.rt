//! A gate with a schedule, which says whose turn it is.

use dsr_names::{Actor, Outside, Refusal, write_output};
use dsr_rounds::Gate;
use std::alloc::{AllocError, Global};
use std::fmt::Write;
use std::io::{ErrorKind, Read, Stdin, Stdout};
use std::sync::{Condvar, Mutex, Wait};

/// The greatest number of replicas of a shape.
const MOST_REPLICAS: usize = 16;

/// The greatest number of clients of a shape.
const MOST_CLIENTS: usize = 32;

/// The maximum number of tries of a read that signals interrupt.
const MOST_READS: u32 = 1_000;

/// A turn of a schedule.
#[derive(Clone, Copy)]
pub(crate) struct Turn {
    /// The index of the actor.
    index: usize,
    /// Whether the actor goes on; otherwise it is stopped.
    goes_on: bool,
}

impl Turn {
    /// Reads a turn: an actor that goes on, such as `r0`, or one that is stopped, such as `!r0`.
    pub(crate) fn read(word: &[u8]) -> Option<Turn> {
        let (actor, goes_on) = match word {
            [b'!', actor @ ..] => (actor, false),
            actor => (actor, true),
        };
        let index = index_of(Actor::read(actor)?);
        Some(Turn { index, goes_on })
    }
}

/// A gate that lets an actor pass only if the next turn of a schedule is its own. After the last turn it stops everybody. If the actor whose turn is
/// next never comes, all others wait for ever.
///
/// An actor that comes to it writes a line with its name and the number of its turn, such as `r0 5`. Each turn of the schedule begins with a byte of
/// standard input. So whoever writes there can have each turn be over before the next begins, and then the service is the same each time. If standard
/// input has ended, no turn waits; if it cannot be read, the actor is stopped.
#[derive(Drop)]
pub(crate) struct Turnstile<'a, R> {
    rt: &'a R,
    alloc: Global,
    stdin: Stdin,
    stdout: Stdout,
    schedule: Vec<Turn>,
    /// The number of turns that have begun.
    begun: Mutex<usize>,
    /// What the actors wait for, by their indices.
    condvars: Vec<Condvar>,
}

impl<'a, R: Wait> Turnstile<'a, R> {
    /// Creates a gate at which no turn of the schedule has begun.
    pub(crate) fn new(
        rt: &'a R,
        alloc: Global,
        stdin: Stdin,
        stdout: Stdout,
        schedule: Vec<Turn>,
    ) -> Result<Turnstile<'a, R>, AllocError> {
        let mut condvars = Vec::with_capacity(alloc, MOST_REPLICAS + MOST_CLIENTS)?;
        for _ in 0..MOST_REPLICAS + MOST_CLIENTS {
            condvars.push(Condvar::new())?;
        }
        Ok(Turnstile {
            rt,
            alloc,
            stdin,
            stdout,
            schedule,
            begun: Mutex::new(0),
            condvars,
        })
    }

    /// Writes that the actor is here.
    fn tell(&self, actor: &Actor, turn: u64) -> Result<(), Refusal> {
        let mut line = String::new(self.alloc);
        writeln!(line, "{actor} {turn}")?;
        write_output(&mut Outside(self.stdout), line.as_bytes())
    }

    /// Returns whether turn `begun` is that of another actor than the one with this index.
    fn belongs_to_other(&self, begun: usize, index: usize) -> bool {
        self.schedule
            .get(begun)
            .is_some_and(|turn| turn.index != index)
    }

    /// Waits until the next turn is that of the actor with this index, and begins it. Returns whether the actor goes on; false after the last turn.
    fn begin(&self, index: usize, condvar: &Condvar) -> bool {
        let begun = self.begun.lock(self.rt);
        let mut begun = condvar.wait_while(
            self.rt,
            begun,
            |begun| self.belongs_to_other(*begun, index),
        );
        let goes_on = match self.schedule.get(*begun) {
            // The lock is held meanwhile, since no other turn can begin.
            Some(turn) => self.wait_for_step() && turn.goes_on,
            None => return false,
        };
        *begun = begun.saturating_add(1);
        self.call_next(*begun);
        goes_on
    }

    /// Waits for a byte of standard input, or its end. Returns false if it cannot be read.
    fn wait_for_step(&self) -> bool {
        let (mut stdin, mut byte) = (self.stdin, [0u8; 1]);
        for _ in 0..MOST_READS {
            match stdin.read(&mut byte) {
                Ok(_) => return true,
                Err(error) if error.kind() == ErrorKind::Interrupted => {}
                Err(_) => return false,
            }
        }
        false
    }

    /// Calls the actor of turn `begun`; after the last turn, everybody.
    fn call_next(&self, begun: usize) {
        match self.schedule.get(begun) {
            Some(turn) => {
                if let Some(condvar) = self.condvars.get(turn.index) {
                    condvar.notify_one();
                }
            }
            None => {
                for condvar in self.condvars.as_slice() {
                    condvar.notify_one();
                }
            }
        }
    }
}

impl<'a, R: Wait> Gate for Turnstile<'a, R> {
    // it may refuse any actor
    ghost may_refuse = { λ gate actor. Unit {0} };

    fn pass(&self, actor: Actor, turn: u64) -> bool {
        let index = index_of(actor);
        let Some(condvar) = self.condvars.get(index) else {
            return false;
        };
        match self.tell(&actor, turn) {
            Ok(()) => self.begin(index, condvar),
            Err(_) => false,
        }
    }
}

/// Returns the index of an actor among all that a shape can have, replicas first.
fn index_of(actor: Actor) -> usize {
    match actor {
        Actor::Replica(replica) => replica.number() as usize,
        Actor::Client(client) => MOST_REPLICAS + client.number() as usize,
    }
}
