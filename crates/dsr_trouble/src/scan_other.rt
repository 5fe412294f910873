//! Scans the lines of serve scripts, transcripts and request lines, up to the first byte that cannot continue one.

use crate::expected::{Expected, Halt};
use crate::scan::Scan;
use crate::scan_envelope::MOST_NUMBER;
use dsr_names::{Actor, ReplicaId, Shape};
use std::alloc::Global;

static SERVE_WORDS: [&str; 2] = ["ask", "script"];

static STEP_WORDS: [&str; 2] = ["post", "take"];

const A_CLIENT: &str = "a client of the shape";

const A_TRAITOR: &str = "a traitor of the shape";

const AN_ACTOR: &str = "an actor of the shape that has no line yet for this traitor and round";

const A_ROUND: &str = "a round: a decimal from 0 to 1099511627775";

/// The actors that a line of a serve script can name.
#[derive(Clone, Copy)]
pub(crate) struct Names {
    /// The shape's clients.
    clients: [bool; 32],
    /// The traitors.
    traitors: [bool; 16],
    /// The replicas and the clients for which the line's traitor has no line yet in the line's round.
    left_replicas: [bool; 16],
    left_clients: [bool; 32],
}

impl Names {
    /// Returns what the first line after the header can name.
    pub(crate) fn of(shape: &Shape) -> Names {
        let mut names = Names {
            clients: [false; 32],
            traitors: [false; 16],
            left_replicas: [false; 16],
            left_clients: [false; 32],
        };
        for number in 0..16u8 {
            let place = number as usize;
            names.left_replicas[place] = number < shape.n();
            if let Ok(replica) = ReplicaId::new(number) {
                names.traitors[place] = number < shape.n()
                    && !shape.is_loyal(Actor::Replica(replica));
            }
        }
        for number in 0..32u8 {
            let place = number as usize;
            names.clients[place] = number < shape.m();
            names.left_clients[place] = number < shape.m();
        }
        names
    }

    /// Notes that this actor has a line for the traitor and the round.
    pub(crate) fn strike(&mut self, actor: Actor) {
        match actor {
            Actor::Replica(replica) => {
                if let Some(place) = self.left_replicas.get_mut(replica.number() as usize) {
                    *place = false;
                }
            }
            Actor::Client(client) => {
                if let Some(place) = self.left_clients.get_mut(client.number() as usize) {
                    *place = false;
                }
            }
        }
    }

    /// Tells whether any actor is left.
    fn has_left(&self) -> bool {
        has_any(self.left_replicas.as_slice()) || has_any(self.left_clients.as_slice())
    }
}

/// Tells whether any place is set.
fn has_any(places: &[bool]) -> bool {
    for is_set in places {
        if *is_set {
            return true;
        }
    }
    false
}

impl Scan<'_> {
    /// Goes past the header of a serve script.
    pub(crate) fn serve_header(&mut self) -> Result<(), Halt> {
        self.literal("dsr-serve", "dsr-serve, the first word of a serve script")?;
        self.space("1, the version of serve scripts")?;
        self.literal("1", "1, the version of serve scripts")?;
        self.shape()
    }

    /// Goes past the header of a transcript.
    pub(crate) fn transcript_header(&mut self) -> Result<(), Halt> {
        self.literal(
            "dsr-transcript",
            "dsr-transcript, the first word of a transcript",
        )?;
        self.space("1 or 2, the version of the transcript")?;
        if self.is_next(b'2') {
            self.pass();
        } else {
            self.literal("1", "1 or 2, the version of the transcript")?;
        }
        self.shape()
    }

    /// Goes past a line of a serve script, which can name these actors, and its end.
    pub(crate) fn serve_line(&mut self, alloc: Global, names: &Names) -> Result<(), Halt> {
        let count = if has_any(names.traitors.as_slice()) {
            2
        } else {
            1
        };
        match self.word(
            &SERVE_WORDS,
            count,
            Expected::Text("ask, or for a traitor script"),
        )? {
            0 => {
                self.space(A_CLIENT)?;
                self.mark(b'c', Expected::Text(A_CLIENT))?;
                self.id(names.clients.as_slice(), Expected::Text(A_CLIENT))?;
                self.space("an operation: read, write, swap or remove")?;
                self.operation(b' ')?;
                self.end("the end of the line")
            }
            _ => self.scripted(alloc, names),
        }
    }

    /// Goes past the rest of a line `script`, and its end.
    fn scripted(&mut self, alloc: Global, names: &Names) -> Result<(), Halt> {
        self.space(A_TRAITOR)?;
        self.mark(b'r', Expected::Text(A_TRAITOR))?;
        self.id(names.traitors.as_slice(), Expected::Text(A_TRAITOR))?;
        self.space(A_ROUND)?;
        self.number(0, MOST_NUMBER, Expected::Text(A_ROUND))?;
        if !names.has_left() {
            if !self.is_open() {
                self.go_back();
            }
            return Err(self.fault(Expected::Text(
                "another round: in this one the traitor has a line for each actor",
            )));
        }
        self.space(AN_ACTOR)?;
        if self.is_next(b'r') && has_any(names.left_replicas.as_slice()) {
            self.pass();
            self.id(names.left_replicas.as_slice(), Expected::Text(AN_ACTOR))?;
        } else if self.is_next(b'c') && has_any(names.left_clients.as_slice()) {
            self.pass();
            self.id(names.left_clients.as_slice(), Expected::Text(AN_ACTOR))?;
        } else {
            return Err(self.fault(Expected::Text(AN_ACTOR)));
        }
        self.space("an envelope: empty, round, ask, reply or seen")?;
        self.envelope(alloc)
    }

    /// Goes past a line of a transcript, and its end.
    pub(crate) fn step_line(&mut self, alloc: Global) -> Result<(), Halt> {
        self.actor()?;
        self.space("post or take")?;
        self.word(&STEP_WORDS, 2, Expected::Text("post or take"))?;
        self.space("an actor: a replica, r0 to r15, or a client, c0 to c31")?;
        self.actor()?;
        self.space("an envelope: empty, round, ask, reply or seen")?;
        self.envelope(alloc)
    }

    /// Goes past a request line, and its end.
    pub(crate) fn request_line(&mut self) -> Result<(), Halt> {
        self.client()?;
        self.space("a request's number: a decimal from 1 to 1099511627775")?;
        self.number(
            1,
            MOST_NUMBER,
            Expected::Text("a request's number: a decimal from 1 to 1099511627775"),
        )?;
        self.space("an operation: read, write, swap or remove")?;
        self.operation(b' ')?;
        self.end("the end of the line")
    }
}
