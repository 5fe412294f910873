//! Scans the lines of plays, up to the first byte that cannot continue one.

use crate::expected::{Expected, Halt};
use crate::scan::Scan;
use dsr_names::{Actor, ReplicaId, Shape};
use std::alloc::Global;

/// The first words of lines, by the fewest events that such a line represents: one for the first four, the number of loyal replicas for the next,
/// and the number of replicas for the others.
static WORDS: [&str; 10] = [
    "post", "plant", "take", "tell", "replies", "posts", "plants", "takes", "asks", "hears",
];

static CHOICES: [&str; 2] = ["from", "begin"];

const LINES: &str = "post, plant, take, tell, posts, plants, takes, asks, hears or replies";

const AN_ACTOR: &str = "an actor: a replica, r0 to r15, or a client, c0 to c31";

const A_REPLICA: &str = "a replica, r0 to r15";

const A_CLIENT: &str = "a client, c0 to c31";

const AN_ENVELOPE: &str = "an envelope: empty, round, ask, reply or seen";

const CLIENTS: &str = "1 to 8 clients, each once, joined by +, as c0+c1";

const AN_OPERATION: &str = "an operation: read, write, swap or remove";

const THE_END: &str = "the end of the line";

/// The most clients whose requests a replica proposes at once.
const MOST_CLIENTS: usize = 8;

/// How many events a play may still have, and what it takes to count those of a line.
#[derive(Clone, Copy)]
pub(crate) struct Room {
    events: u64,
    replicas: u64,
    loyal: u64,
}

impl Room {
    /// Returns the room of a play with this shape for `events` more events.
    pub(crate) fn of(shape: &Shape, events: u64) -> Room {
        let mut loyal: u64 = 0;
        for number in 0..shape.n() {
            if let Ok(replica) = ReplicaId::new(number) {
                if shape.is_loyal(Actor::Replica(replica)) {
                    loyal = loyal.saturating_add(1);
                }
            }
        }
        Room {
            events,
            replicas: shape.n() as u64,
            loyal,
        }
    }

    /// Returns how many of the words can begin a line for which there is room.
    fn words(&self) -> usize {
        if self.events == 0 {
            0
        } else if self.events < self.loyal {
            4
        } else if self.events < self.replicas {
            5
        } else {
            10
        }
    }

    /// Tells whether there is room for an event of each of these replicas with each replica.
    fn has_all(&self, replicas: u64) -> bool {
        self.events >= self.replicas.saturating_mul(replicas)
    }
}

impl Scan<'_> {
    /// Goes past the header of a play.
    pub(crate) fn header(&mut self) -> Result<(), Halt> {
        self.literal("dsr-play", "dsr-play, the first word of a play")?;
        self.space("1, the version of plays")?;
        self.literal("1", "1, the version of plays")?;
        self.shape()
    }

    /// Goes past a space, a shape and the end of the line.
    pub(crate) fn shape(&mut self) -> Result<(), Halt> {
        let replicas = "N, how many replicas there are: 1 to 16";
        self.space(replicas)?;
        let n = self.number(1, 16, Expected::Text(replicas))?;
        self.space("F, how many of the replicas may be traitors")?;
        let most = n.saturating_sub(1) / 2;
        let f = self.number(0, most, Expected::Traitors { n, most })?;
        let clients = "M, how many clients there are: 1 to 32";
        self.space(clients)?;
        self.number(1, 32, Expected::Text(clients))?;
        self.space("the traitors: - for none, or replicas, as r0+r2")?;
        self.traitors(n, f)?;
        self.end(THE_END)
    }

    /// Goes past the traitors of a shape with `n` replicas, at most `f` of them.
    fn traitors(&mut self, n: u64, f: u64) -> Result<(), Halt> {
        if self.is_next(b'-') {
            self.pass();
            return Ok(());
        }
        if f == 0 {
            return Err(self.fault(Expected::Names { n, f }));
        }
        let mut least: usize = 0;
        for count in 1..17 {
            self.mark(b'r', Expected::Names { n, f })?;
            let ids = ids_between(least, n as usize);
            least = self.id(&ids, Expected::Names { n, f })?.saturating_add(1);
            if !self.is_next(b'+') {
                return Ok(());
            }
            if count >= f {
                return Err(self.fault(Expected::NoMore { f }));
            }
            if least as u64 >= n {
                return Err(self.fault(Expected::NoOther { n }));
            }
            self.pass();
        }
        Ok(())
    }

    /// Goes past a line after the header, which must have no more events than there is room for, and its end.
    pub(crate) fn play_line(&mut self, alloc: Global, room: &Room) -> Result<(), Halt> {
        match self.word(&WORDS, room.words(), Expected::Text(LINES))? {
            0 => {
                self.two_actors()?;
                self.choice()
            }
            1 => {
                self.two_actors()?;
                self.space(AN_ENVELOPE)?;
                self.envelope(alloc)
            }
            2 | 3 => {
                self.two_actors()?;
                self.end(THE_END)
            }
            5 => self.posts(room),
            6 => {
                self.space(A_REPLICA)?;
                self.replica()?;
                self.space(AN_ENVELOPE)?;
                self.envelope(alloc)
            }
            7 => self.takes(room),
            8 => {
                self.space(A_CLIENT)?;
                self.client()?;
                self.choice_of_client()
            }
            _ => {
                self.space(A_CLIENT)?;
                self.client()?;
                self.end(THE_END)
            }
        }
    }

    /// Goes past two actors, with a space before each.
    fn two_actors(&mut self) -> Result<(), Halt> {
        self.space(AN_ACTOR)?;
        self.actor()?;
        self.space(AN_ACTOR)?;
        self.actor()
    }

    /// Goes past the rest of a line `posts`.
    fn posts(&mut self, room: &Room) -> Result<(), Halt> {
        self.space("a replica, r0 to r15, or *")?;
        if self.is_next(b'*') && room.has_all(room.loyal) {
            self.pass();
            return self.end(THE_END);
        }
        if !self.is_next(b'r') {
            return Err(self.fault(Expected::Text("a replica, r0 to r15, or *")));
        }
        self.replica()?;
        self.choice_of_replica()
    }

    /// Goes past the rest of a line `takes`.
    fn takes(&mut self, room: &Room) -> Result<(), Halt> {
        self.space("an actor, r0 to r15 or c0 to c31, or *")?;
        if self.is_next(b'*') && room.has_all(room.replicas) {
            self.pass();
            return self.end(THE_END);
        }
        if !self.is_next(b'r') && !self.is_next(b'c') {
            return Err(self.fault(Expected::Text("an actor, r0 to r15 or c0 to c31, or *")));
        }
        self.actor()?;
        self.end(THE_END)
    }

    /// Goes past an optional choice of any actor, and the end of the line.
    fn choice(&mut self) -> Result<(), Halt> {
        if self.is_at_end() {
            return Ok(());
        }
        self.mark(
            b' ',
            Expected::Text("the end of the line, or a space and from or begin"),
        )?;
        match self.word(&CHOICES, 2, Expected::Text("from or begin"))? {
            0 => self.clients(),
            _ => self.begun(),
        }
    }

    /// Goes past an optional choice of a replica for all its posts of a round, and the end of the line.
    fn choice_of_replica(&mut self) -> Result<(), Halt> {
        if self.is_at_end() {
            return Ok(());
        }
        self.mark(
            b' ',
            Expected::Text("the end of the line, or a space and from"),
        )?;
        self.literal(
            "from",
            "from: a replica begins nothing, it proposes what clients asked",
        )?;
        self.clients()
    }

    /// Goes past an optional choice of a client for all its posts of a request, and the end of the line.
    fn choice_of_client(&mut self) -> Result<(), Halt> {
        if self.is_at_end() {
            return Ok(());
        }
        self.mark(
            b' ',
            Expected::Text("the end of the line, or a space and begin"),
        )?;
        self.literal(
            "begin",
            "begin: a client proposes nothing, it begins a request of its own",
        )?;
        self.begun()
    }

    /// Goes past the clients whose requests a replica proposes, and the end of the line.
    fn clients(&mut self) -> Result<(), Halt> {
        self.space(CLIENTS)?;
        let mut left = [true; 32];
        for _ in 1..MOST_CLIENTS {
            self.one_client(&mut left)?;
            if !self.is_next(b'+') {
                return self.end("the end of the line, or + and another client");
            }
            self.pass();
        }
        self.one_client(&mut left)?;
        self.end("the end of the line: a replica proposes requests of at most 8 clients")
    }

    /// Goes past a client whose place in `left` is set, and clears the place.
    fn one_client(&mut self, left: &mut [bool; 32]) -> Result<(), Halt> {
        self.mark(b'c', Expected::Text(CLIENTS))?;
        let id = self.id(left.as_slice(), Expected::Text(CLIENTS))?;
        if id < 32 {
            left[id] = false;
        }
        Ok(())
    }

    /// Goes past the request that a client begins, and the end of the line.
    fn begun(&mut self) -> Result<(), Halt> {
        self.space(AN_OPERATION)?;
        self.operation(b' ')?;
        self.end(THE_END)
    }
}

/// Returns an array in which the places from `least` to below `end` are set.
fn ids_between(least: usize, end: usize) -> [bool; 16] {
    let mut ids = [false; 16];
    for place in 0..16 {
        ids[place] = least <= place && place < end;
    }
    ids
}
