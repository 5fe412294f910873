//! The texts about envelopes, each written once for all events that post or take it.

use crate::chain_texts::ChainText;
use crate::pieces::{MOST_ACTORS, place_of, put_numbered};
use crate::places::Line;
use crate::posts::{BOXES, place_of_box};
use crate::short::{is_short, write_short};
use crate::tokens::Tokens;
use dsr_envelope::{Envelope, Pick};
use dsr_names::{Actor, Refusal, Shape};
use dsr_reasons::{Writer, one_of};
use dsr_script::Draft;
use dsr_world::{Event, Stage};
use std::alloc::Global;
use std::fmt::Write;

/// Initial buffer size in bytes; most lines fit.
const ROOM: usize = 120;

/// How many places there are for the texts about what loyal actors post to replicas: two for each actor, as a replica may not have taken its last envelope but
/// one yet.
const NUMBERED: usize = 2 * MOST_ACTORS;

/// The texts about an envelope.
#[derive(Drop)]
pub(crate) struct Told {
    /// The end of the line of an event that posts or takes it: its text.
    pub(crate) end: String,
    /// The texts about each of its chains.
    pub(crate) chains: Vec<ChainText>,
}

impl Told {
    /// Writes the texts about the envelope, either data or words. `NoMemory` if memory runs out.
    fn of(
        alloc: Global,
        tokens: &mut Tokens,
        shape: &Shape,
        envelope: &Envelope,
        as_data: bool,
    ) -> Result<Told, Refusal> {
        let end = end_of(alloc, tokens, envelope, as_data)?;
        let mut told = Vec::new(alloc);
        if let Envelope::Round { chains, .. } = envelope {
            for chain in chains.as_slice() {
                told.push(ChainText::of(alloc, tokens, shape, chain, as_data)?)?;
            }
        }
        Ok(Told { end, chains: told })
    }

    /// Returns the texts about an envelope without chains, whose line has this end. `NoMemory` if memory runs out.
    fn plain(alloc: Global, text: &'static str) -> Result<Told, Refusal> {
        let mut end = String::new(alloc);
        end.push_str(text)?;
        Ok(Told {
            end,
            chains: Vec::new(alloc),
        })
    }
}

/// Returns the end of the line of an event that posts or takes this envelope: its text. `NoMemory` if memory runs out.
fn end_of(
    alloc: Global,
    tokens: &mut Tokens,
    envelope: &Envelope,
    as_data: bool,
) -> Result<String, Refusal> {
    let mut end = Writer::new(alloc);
    end.reserve(ROOM);
    if is_short(envelope) {
        put_between(&mut end, as_data);
        write_short(&mut end, tokens, envelope);
        end.put("\n");
    } else if envelope.fits() {
        let mut text = String::new(alloc);
        write!(text, "{}", Draft::of(alloc, envelope)?)?;
        put_envelope(&mut end, &text, as_data);
    } else {
        put_none(&mut end, as_data);
    }
    end.finish()
}

/// Writes the end of an event's line: the envelope with this text.
fn put_envelope(out: &mut Writer, text: &String, as_data: bool) {
    put_between(out, as_data);
    out.put_text(text);
    out.put("\n");
}

/// Writes what is between an event and its envelope.
fn put_between(out: &mut Writer, as_data: bool) {
    out.put_one(as_data, " ", ": ")
}

/// Writes the end of an event's line that shows no envelope.
fn put_none(out: &mut Writer, as_data: bool) {
    out.put_one(as_data, " -\n", "\n")
}

/// The end of the line of the event that was refused last. The next one is written in its room.
#[derive(Drop)]
pub(crate) struct RefusedEnd {
    end: Writer,
    /// The text of the last envelope that was to be planted, or of the last request that was to begin.
    shown: String,
}

impl RefusedEnd {
    /// Creates an empty one. It takes no memory.
    pub(crate) fn new(alloc: Global) -> RefusedEnd {
        RefusedEnd {
            end: Writer::new(alloc),
            shown: String::new(alloc),
        }
    }

    /// Writes and returns the end of the line of this event: what it was to post, if the event says so, after the line since which its box is full, if there is
    /// one. `line` represents the event. If memory runs out, returns `NoMemory`, or a writer that `put_all_of` refuses.
    pub(crate) fn write(
        &mut self,
        event: &Event,
        line: &Line,
        as_data: bool,
        since: Option<u64>,
    ) -> Result<&Writer, Refusal> {
        self.end.clear();
        self.shown.clear();
        if let Some(line) = since {
            put_numbered(&mut self.end, " (the box is full since line ", line);
            self.end.put(")");
        }
        match event {
            Event::Plant { draft, .. } => {
                spell_planted(&mut self.shown, draft, line)?;
                put_envelope(&mut self.end, &self.shown, as_data);
            }
            Event::Post { pick, .. } if !as_data => {
                put_choice(&mut self.end, &mut self.shown, &pick.pick())?
            }
            _ => put_none(&mut self.end, as_data),
        }
        Ok(&self.end)
    }
}

/// Writes the envelope of this draft, whose text is a copy of that in the line of the play. `NoMemory` if memory runs out.
fn spell_planted(out: &mut String, draft: &Draft, line: &Line) -> Result<(), Refusal> {
    match line.envelope() {
        Some(envelope) => out.push_str(envelope)?,
        // Each line that plants has an envelope; without one the draft's own text would do.
        None => write!(out, "{draft}")?,
    }
    Ok(())
}

/// Writes the end of the line of a post that was refused: the post's choice; `shown` is room for its text. `NoMemory` if memory runs out.
fn put_choice(out: &mut Writer, shown: &mut String, pick: &Pick) -> Result<(), Refusal> {
    match pick {
        Pick::Plain => {}
        Pick::From(clients) => {
            let mut before = ", to propose what it holds of ";
            for client in clients.as_slice() {
                out.put(before);
                out.put_name(Actor::Client(*client));
                before = "+";
            }
        }
        Pick::Begin(op) => {
            write!(shown, "{op}")?;
            out.put(", to begin the request ");
            out.put_text(shown);
        }
    }
    out.put("\n");
    Ok(())
}

/// The texts about the last envelope of those whose texts have the same place.
#[derive(Drop)]
struct Kept {
    /// Tells the envelope from the others; `None` if there was none yet.
    key: Option<u64>,
    told: Told,
}

/// The texts about the envelopes that may be posted again or taken.
#[derive(Drop)]
pub(crate) struct Texts {
    as_data: bool,
    /// The texts about no envelope, and about the empty one.
    none: Told,
    empty: Told,
    /// The texts about the others, by their places (`place_of_texts`).
    kept: Vec<Kept>,
}

impl Texts {
    /// Creates the table, with the texts about no envelope and the empty one. `as_data` says which texts it will have. `NoMemory` if memory runs out.
    pub(crate) fn new(alloc: Global, as_data: bool) -> Result<Texts, Refusal> {
        let none = Told::plain(alloc, one_of(as_data, " -\n", "\n"))?;
        let empty = Told::plain(alloc, one_of(as_data, " empty\n", ": empty\n"))?;
        let mut kept = Vec::with_capacity(alloc, NUMBERED + BOXES)?;
        for _ in 0..NUMBERED + BOXES {
            let told = Told {
                end: String::new(alloc),
                chains: Vec::new(alloc),
            };
            kept.push(Kept { key: None, told })?;
        }
        Ok(Texts {
            as_data,
            none,
            empty,
            kept,
        })
    }

    /// Returns the texts about the envelope that this event, which was done last, posted or took; writes them if they are missing. Without an envelope, returns
    /// the texts about none. `NoMemory` if memory runs out.
    pub(crate) fn told(
        &mut self,
        alloc: Global,
        tokens: &mut Tokens,
        stage: &Stage,
        event: &Event,
        envelope: Option<&Envelope>,
    ) -> Result<&Told, Refusal> {
        let envelope = match envelope {
            None => return Ok(&self.none),
            Some(Envelope::Empty) => return Ok(&self.empty),
            Some(envelope) => envelope,
        };
        let (place, key) = place_of_texts(stage, event, envelope);
        let Some(kept) = self.kept.get_mut(place) else {
            return Ok(&self.none);
        };
        if kept.key != Some(key) {
            kept.told = Told::of(alloc, tokens, stage.shape(), envelope, self.as_data)?;
            kept.key = Some(key);
        }
        Ok(&kept.told)
    }
}

/// Returns the place of the texts about the envelope that the event posted or took, and their key.
fn place_of_texts(stage: &Stage, event: &Event, envelope: &Envelope) -> (usize, u64) {
    match event {
        Event::Post { from, to, .. } | Event::Plant { from, to, .. } | Event::Tell { from, to } => {
            place_of_posted(stage, from, to, envelope)
        }
        Event::Take { at, from } => place_of_posted(stage, from, at, envelope),
    }
}

/// Returns the place of the texts about the envelope that `poster` posted to `taker`, and their key: a loyal actor posts to replicas one envelope of each
/// number, and any other is the last one in its box.
fn place_of_posted(
    stage: &Stage,
    poster: &Actor,
    taker: &Actor,
    envelope: &Envelope,
) -> (usize, u64) {
    let is_loyal = stage.shape().is_loyal(*poster);
    match number_of(envelope) {
        Some(number) if is_loyal => {
            let place = 2 * place_of(*poster) + (number % 2) as usize;
            (place, number)
        }
        _ => {
            let place = NUMBERED + place_of_box(*poster, *taker);
            (place, posts_to(stage, poster, taker))
        }
    }
}

/// Returns the number of an envelope to replicas: its round, or that of its request. `None` if a loyal actor posts no such envelope to replicas.
fn number_of(envelope: &Envelope) -> Option<u64> {
    match envelope {
        Envelope::Round { round, .. } => Some(*round),
        Envelope::Ask(ask) => Some(ask.signed().request.number()),
        Envelope::Empty | Envelope::Reply(_) | Envelope::Seen(_) => None,
    }
}

/// Returns how many envelopes were posted into the box from one actor to another.
fn posts_to(stage: &Stage, poster: &Actor, taker: &Actor) -> u64 {
    if stage.shape().has(*poster) && stage.shape().has(*taker) {
        stage.posts(poster, taker)
    } else {
        0
    }
}
