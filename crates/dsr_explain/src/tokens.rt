//! The texts that several lines share, each kept for the lines after the one that has it first.

ghost use Rattle.std.specs.Prelude.{◌≡◌, ◌++◌, IfSome, string_bytes};
ghost use Rattle.dsr_request.specs.RequestText.{request_token};
ghost use Rattle.dsr_explain.specs.Heads.{shared_text};

use crate::pieces::{MOST_ACTORS, place_of};
use crate::shared::Shared;
use dsr_names::Refusal;
use dsr_reasons::Writer;
use dsr_request::Request;
use std::alloc::Global;

/// Initial buffer size in bytes; most texts fit.
const ROOM: usize = 48;

/// The maximum number of clients.
const MOST_CLIENTS: usize = 32;

/// The number of verbs.
const VERBS: usize = 4;

/// The first place of the texts between an event's number and the name of whom it concerns, after the one place of a start.
const BETWEEN: usize = 1;

/// The first place of the names of whom events concern.
const OTHER: usize = BETWEEN + VERBS * MOST_ACTORS;

/// The first place of the starts of data lines for chains.
const CHAIN: usize = OTHER + MOST_ACTORS;

/// The number of places.
const PLACES: usize = CHAIN + MOST_ACTORS;

/// A text with what it says.
#[derive(Drop)]
struct Spelled {
    what: Shared,
    text: String,
    ghost is: { string_bytes text ≡ shared_text what },
}

/// A request with its text. It is no `Shared`, since requests are large: each other text would take as much room.
#[derive(Drop)]
struct SpelledRequest {
    request: Request,
    text: String,
    ghost is: { string_bytes text ≡ request_token request },
}

/// The texts that lines had last, at most one at each place: most lines share each of theirs with a line not long before.
#[derive(Drop)]
pub(crate) struct Tokens {
    alloc: Global,
    texts: Vec<Option<Spelled>>,
    /// For each client the request that a line had last.
    requests: Vec<Option<SpelledRequest>>,
}

impl Tokens {
    /// Creates the places, without any text. `NoMemory` if memory runs out.
    pub(crate) fn new(alloc: Global) -> Result<Tokens, Refusal> {
        Ok(Tokens {
            alloc,
            texts: none_of(alloc, PLACES)?,
            requests: none_of(alloc, MOST_CLIENTS)?,
        })
    }

    /// Appends the text. This and what it calls are inlined where the kind of the text is known: only one branch of each is left there.
    #[inline(always)]
    pub(crate) fn put(&mut self, out: &mut Writer, what: &Shared)
        ensures { out.new ≡ out.old ++ shared_text what.now }
    {
        let place = place_of_text(what);
        match self.text_at(place, what) {
            Some(text) => out.put_text(text),
            None => self.put_anew(out, place, what),
        }
    }

    /// Returns the text at this place if it is this one.
    #[inline(always)]
    fn text_at(&self, place: usize, what: &Shared) -> Option<&String>
        ensures { IfSome result (λ text. string_bytes text.now ≡ shared_text what.now) }
    {
        match self.texts.get(place) {
            Some(Some(spelled)) if spelled.what.same(what) => Some(&spelled.text),
            _ => None,
        }
    }

    /// Appends the text, and keeps it at this place if there is memory for it.
    #[inline(never)]
    fn put_anew(&mut self, out: &mut Writer, place: usize, what: &Shared)
        ensures { out.new ≡ out.old ++ shared_text what.now }
    {
        let mut text = Writer::new(self.alloc);
        text.reserve(ROOM);
        what.write(&mut text);
        let Ok(text) = text.finish() else {
            return what.write(out);
        };
        out.put_text(&text);
        if let Some(kept) = self.texts.get_mut(place) {
            *kept = Some(Spelled { what: *what, text });
        }
    }

    /// Appends the request.
    pub(crate) fn put_request(&mut self, out: &mut Writer, request: &Request)
        ensures { out.new ≡ out.old ++ request_token request.now }
    {
        match self.text_of(request) {
            Some(text) => out.put_text(text),
            None => self.put_request_anew(out, request),
        }
    }

    /// Returns the text of the request; `None` if it is not the client's last.
    fn text_of(&self, request: &Request) -> Option<&String>
        ensures { IfSome result (λ text. string_bytes text.now ≡ request_token request.now) }
    {
        match self.requests.get(request.client().number() as usize) {
            Some(Some(spelled)) if spelled.request == *request => Some(&spelled.text),
            _ => None,
        }
    }

    /// Appends the request, and keeps it as its client's last one if there is memory for it.
    #[inline(never)]
    fn put_request_anew(&mut self, out: &mut Writer, request: &Request)
        ensures { out.new ≡ out.old ++ request_token request.now }
    {
        let mut text = Writer::new(self.alloc);
        text.reserve(ROOM);
        text.put_request(request);
        let Ok(text) = text.finish() else {
            return out.put_request(request);
        };
        out.put_text(&text);
        if let Some(kept) = self.requests.get_mut(request.client().number() as usize) {
            *kept = Some(SpelledRequest {
                request: *request,
                text,
            });
        }
    }
}

/// Creates this many places with nothing at any. `NoMemory` if memory runs out.
fn none_of<T: Drop>(alloc: Global, places: usize) -> Result<Vec<Option<T>>, Refusal> {
    let mut none = Vec::with_capacity(alloc, places)?;
    for _ in 0..places {
        none.push(None)?;
    }
    Ok(none)
}

/// Returns the place of the text: each of its kind, verb and actor has one.
#[inline(always)]
fn place_of_text(what: &Shared) -> usize {
    match what {
        Shared::Start { .. } => 0,
        Shared::Between { verb, actor, .. } => {
            BETWEEN + *verb as usize * MOST_ACTORS + place_of(*actor)
        }
        Shared::Other { actor, .. } => OTHER + place_of(*actor),
        Shared::Chain(actor) => CHAIN + place_of(*actor),
    }
}
