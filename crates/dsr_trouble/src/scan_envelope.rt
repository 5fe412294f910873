//! Scans envelopes and their parts, up to the first byte that cannot continue one.

use crate::expected::{Expected, Halt};
use crate::scan::Scan;
use dsr_names::Refusal;
use dsr_request::Request;
use dsr_script::Draft;
use std::alloc::Global;

/// The greatest round, slot, place, front and number of a request.
pub(crate) const MOST_NUMBER: u64 = 1_099_511_627_775;

/// The most requests of a value, signatures of a chain, and chains of an envelope.
const MOST_REQUESTS: usize = 8;

const MOST_SIGNATURES: usize = 16;

const MOST_CHAINS: usize = 32;

static OPERATIONS: [&str; 4] = ["read", "write", "swap", "remove"];

static ENVELOPES: [&str; 5] = ["empty", "round", "ask", "reply", "seen"];

static ANSWERS: [&str; 6] = ["written", "swapped", "full", "held", "kept", "removed"];

/// How many of the answers have no value after their word.
const SHORT_ANSWERS: usize = 3;

const AN_ACTOR: &str = "an actor: a replica, r0 to r15, or a client, c0 to c31";

const A_REPLICA: &str = "a replica, r0 to r15";

const A_CLIENT: &str = "a client, c0 to c31";

const AN_ENVELOPE: &str = "an envelope: empty, round, ask, reply or seen";

const AN_OPERATION: &str = "an operation: read, write, swap or remove";

const A_PLAIN_OPERATION: &str = "an operation: read, write or swap, as version 1 has no remove";

const A_NAME: &str = "a register's name: 1 to 32 of a-z 0-9 . _ -";

const A_VALUE: &str = "a value: a decimal from 0 to 18446744073709551615";

const AN_OLD_VALUE: &str =
    "what the register held: none, or a decimal from 0 to 18446744073709551615";

const A_NUMBER: &str = "a request's number: a decimal from 1 to 1099511627775";

const A_DECIMAL: &str = "a decimal from 0 to 1099511627775";

const A_REQUEST: &str = "a request, as c0#1:write:a:5";

const THE_END: &str = "the end of the line";

const A_CHAIN: &str = "a chain, SLOT/VALUE/SIGNATURES, as 0/c0#1:write:a:5~c0/r0+r1 or 0/idle/r0";

const A_VALUE_OF_CHAIN: &str =
    "idle, or 1 to 8 signed requests joined by a comma, as c0#1:write:a:5~c0,c1#1:read:a~c1";

const SIGNATURES: &str = "- for no signatures, or 1 to 16 of them joined by +, as r0+r1";

const A_SIGNATURE: &str =
    "a signature: its signer, and in parentheses what was signed if that does not fit the place";

const A_STATEMENT: &str =
    "what was signed: a request, as c0#1:read:a, or SLOT/CONTENT/SIGNERS, as 0/idle/r1";

const ANOTHER_STATEMENT: &str =
    "something else than what fits the place: a signature on that is its signer alone, without parentheses";

impl Scan<'_> {
    /// Goes past any actor.
    pub(crate) fn actor(&mut self) -> Result<(), Halt> {
        if self.is_next(b'r') {
            return self.replica();
        }
        if self.is_next(b'c') {
            return self.client();
        }
        Err(self.fault(Expected::Text(AN_ACTOR)))
    }

    /// Goes past any replica.
    pub(crate) fn replica(&mut self) -> Result<(), Halt> {
        self.mark(b'r', Expected::Text(A_REPLICA))?;
        let ids = [true; 16];
        self.id(&ids, Expected::Text(A_REPLICA))?;
        Ok(())
    }

    /// Goes past any client.
    pub(crate) fn client(&mut self) -> Result<(), Halt> {
        self.mark(b'c', Expected::Text(A_CLIENT))?;
        let ids = [true; 32];
        self.id(&ids, Expected::Text(A_CLIENT))?;
        Ok(())
    }

    /// Goes past an envelope and the end of the line.
    pub(crate) fn envelope(&mut self, alloc: Global) -> Result<(), Halt> {
        match self.word(&ENVELOPES, 5, Expected::Text(AN_ENVELOPE))? {
            0 => {}
            1 => return self.round(alloc),
            2 => {
                self.space(A_REQUEST)?;
                self.signed(alloc)?;
            }
            3 => self.reply()?,
            _ => {
                self.space(A_DECIMAL)?;
                self.number(0, MOST_NUMBER, Expected::Text(A_DECIMAL))?;
            }
        }
        self.end(THE_END)
    }

    /// Goes past the rest of a round's envelope, and the end of the line.
    fn round(&mut self, alloc: Global) -> Result<(), Halt> {
        self.space("a round: a decimal from 0 to 1099511627775")?;
        self.number(0, MOST_NUMBER, Expected::Text(A_DECIMAL))?;
        for _ in 0..MOST_CHAINS {
            if self.is_at_end() {
                return Ok(());
            }
            self.mark(
                b' ',
                Expected::Text("the end of the line, or a space and a chain"),
            )?;
            self.chain(alloc)?;
        }
        self.end("the end of the line: an envelope has at most 32 chains")
    }

    /// Goes past the rest of a reply's envelope.
    fn reply(&mut self) -> Result<(), Halt> {
        self.space(A_NUMBER)?;
        self.number(1, MOST_NUMBER, Expected::Text(A_NUMBER))?;
        self.space("a place: a decimal from 0 to 1099511627775")?;
        self.number(0, MOST_NUMBER, Expected::Text(A_DECIMAL))?;
        self.space("an answer: held, written, swapped, kept, full or removed")?;
        let which = self.word(
            &ANSWERS,
            self.answers(),
            Expected::Text("an answer: held, written, swapped, kept, full or removed"),
        )?;
        if which >= SHORT_ANSWERS {
            self.space(AN_OLD_VALUE)?;
            self.old()?;
        }
        Ok(())
    }

    /// Goes past a chain.
    fn chain(&mut self, alloc: Global) -> Result<(), Halt> {
        let start = self.place();
        self.number(0, MOST_NUMBER, Expected::Text(A_CHAIN))?;
        self.mark(b'/', Expected::Text("/ and a chain's value"))?;
        self.value_of_chain(alloc)?;
        self.mark(b'/', Expected::Text("/ and a chain's signatures"))?;
        if self.is_next(b'-') {
            self.pass();
            return Ok(());
        }
        if !self.is_next(b'r') && !self.is_next(b'c') {
            return Err(self.fault(Expected::Text(SIGNATURES)));
        }
        for _ in 1..MOST_SIGNATURES {
            self.signature(alloc, b"round 0 ".as_slice(), start)?;
            if !self.is_next(b'+') {
                return Ok(());
            }
            self.pass();
        }
        self.signature(alloc, b"round 0 ".as_slice(), start)
    }

    /// Goes past a chain's value.
    fn value_of_chain(&mut self, alloc: Global) -> Result<(), Halt> {
        if self.is_next(b'i') {
            return self.literal("idle", A_VALUE_OF_CHAIN);
        }
        if !self.is_next(b'c') {
            return Err(self.fault(Expected::Text(A_VALUE_OF_CHAIN)));
        }
        for _ in 1..self.most_requests() {
            self.signed(alloc)?;
            if !self.is_next(b',') {
                return Ok(());
            }
            self.pass();
        }
        self.signed(alloc)
    }

    /// Returns how many requests a value can have.
    fn most_requests(&self) -> usize {
        if self.is_plain() { 1 } else { MOST_REQUESTS }
    }

    /// Returns how many of the words for answers the line can have.
    fn answers(&self) -> usize {
        if self.is_plain() { 5 } else { 6 }
    }

    /// Goes past a signed request.
    fn signed(&mut self, alloc: Global) -> Result<(), Halt> {
        let start = self.place();
        self.request()?;
        self.mark(b'~', Expected::Text("~ and the request's signature"))?;
        self.signature(alloc, b"ask ".as_slice(), start)
    }

    /// Goes past a signature. What it belongs to begins at the place `start`; with `before` in front it is the text of an envelope.
    fn signature(&mut self, alloc: Global, before: &[u8], start: usize) -> Result<(), Halt> {
        if !self.is_next(b'r') && !self.is_next(b'c') {
            return Err(self.fault(Expected::Text(A_SIGNATURE)));
        }
        self.actor()?;
        if !self.is_next(b'(') {
            return Ok(());
        }
        self.pass();
        let begun = self.place();
        let read = self.statement();
        // A byte too many, such as a digit, may come after a request that is whole.
        let is_whole = read.is_ok() || Request::read(self.since(begun)).is_some();
        if is_whole && self.fits(alloc, before, start)? {
            // Only the parenthesis could follow this statement, so its last byte is already wrong.
            if !self.is_open() {
                self.go_back();
            }
            return Err(self.fault(Expected::Text(ANOTHER_STATEMENT)));
        }
        read?;
        self.mark(b')', Expected::Text(") or the rest of what was signed"))
    }

    /// Tells whether the statement just read is the one that fits its place. A signature on that one is written as its signer alone, so the text with
    /// the statement in it is not an envelope's.
    fn fits(&self, alloc: Global, before: &[u8], start: usize) -> Result<bool, Halt> {
        match self.is_spelled(alloc, before, start) {
            Ok(is_spelled) => Ok(!is_spelled),
            Err(_) => Err(Halt::NoMemory),
        }
    }

    /// Tells whether `before`, the bytes read from the place `start` on, and a closing parenthesis together are the text of an envelope.
    fn is_spelled(&self, alloc: Global, before: &[u8], start: usize) -> Result<bool, Refusal> {
        let mut text = Vec::new(alloc);
        text.extend_from_slice(before)?;
        for place in start..self.place() {
            if let Some(byte) = self.byte_at(place) {
                text.push(byte)?;
            }
        }
        text.push(b')')?;
        Ok(Draft::read(alloc, text.as_slice())?.is_some())
    }

    /// Goes past a statement.
    fn statement(&mut self) -> Result<(), Halt> {
        if self.is_next(b'c') {
            return self.request();
        }
        self.number(0, MOST_NUMBER, Expected::Text(A_STATEMENT))?;
        self.mark(b'/', Expected::Text("/ and the slot's content"))?;
        self.content()?;
        self.mark(b'/', Expected::Text("/ and the signers before"))?;
        self.signers()
    }

    /// Goes past a content.
    fn content(&mut self) -> Result<(), Halt> {
        if self.is_next(b'i') {
            return self.literal("idle", "idle, or 1 to 8 requests joined by a comma");
        }
        if !self.is_next(b'c') {
            return Err(self.fault(Expected::Text("idle, or 1 to 8 requests joined by a comma")));
        }
        for _ in 1..self.most_requests() {
            self.request()?;
            if !self.is_next(b',') {
                return Ok(());
            }
            self.pass();
        }
        self.request()
    }

    /// Goes past signers.
    fn signers(&mut self) -> Result<(), Halt> {
        if self.is_next(b'-') {
            self.pass();
            self.set_open(false);
            return Ok(());
        }
        if !self.is_next(b'r') && !self.is_next(b'c') {
            return Err(self.fault(Expected::Text(
                "- for no signers, or 1 to 16 actors joined by +",
            )));
        }
        for _ in 1..MOST_SIGNATURES {
            self.actor()?;
            if !self.is_next(b'+') {
                self.set_open(true);
                return Ok(());
            }
            self.pass();
        }
        self.actor()
    }

    /// Goes past a request.
    fn request(&mut self) -> Result<(), Halt> {
        self.client()?;
        self.mark(b'#', Expected::Text("# and the request's number"))?;
        self.number(1, MOST_NUMBER, Expected::Text(A_NUMBER))?;
        self.mark(b':', Expected::Text(": and an operation"))?;
        self.operation(b':')
    }

    /// Goes past an operation whose parts this byte joins.
    pub(crate) fn operation(&mut self, joint: u8) -> Result<(), Halt> {
        let which = if self.is_plain() {
            self.word(&OPERATIONS, 3, Expected::Text(A_PLAIN_OPERATION))?
        } else {
            self.word(&OPERATIONS, 4, Expected::Text(AN_OPERATION))?
        };
        self.joint(joint, A_NAME)?;
        self.name(Expected::Text(A_NAME))?;
        if which == 2 {
            self.joint(joint, AN_OLD_VALUE)?;
            self.old()?;
        }
        if which == 1 || which == 2 {
            self.joint(joint, A_VALUE)?;
            self.number(0, u64::MAX, Expected::Text(A_VALUE))?;
        }
        Ok(())
    }

    /// Goes past the byte that joins two parts of an operation.
    fn joint(&mut self, joint: u8, next: &'static str) -> Result<(), Halt> {
        if joint == b' ' {
            self.space(next)
        } else {
            self.mark(joint, Expected::Colon(next))
        }
    }

    /// Goes past what a register held.
    fn old(&mut self) -> Result<(), Halt> {
        if self.digit().is_some() {
            self.number(0, u64::MAX, Expected::Text(AN_OLD_VALUE))?;
            return Ok(());
        }
        self.literal("none", AN_OLD_VALUE)
    }
}
