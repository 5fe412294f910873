//! Explains a play event by event, in a new stage.

ghost use Rattle.std.specs.Prelude.{◌≡◌, ◌+◌, ◌≤◌, ◌++◌, ℕ, List, Err, IfErr, IfOk, OnOk, IsOkUnless, IsTrue, string_bytes, filter, map, [], true, false, option_map};
ghost use Rattle.dsr_reasons.specs.Reason.{TellsCause, actor_of, other_of};
ghost use Rattle.dsr_run.specs.Step.{log_of};
ghost use Rattle.dsr_world.specs.Event.{MayBeDone};
ghost use Rattle.dsr_explain.specs.Lines.{note_line, note_lines};
ghost use Rattle.dsr_explain.specs.Letters.{box_of, handled};
ghost use Rattle.dsr_names.specs.Streams.{SentAll};
ghost use Rattle.dsr_explain.specs.Outlet.{HasGoneOut, IsUnsure};
ghost use Rattle.dsr_explain.specs.Telling.{GoesOn, HasBegun};
ghost use Rattle.dsr_explain.specs.Told.{HasBrokenOff, LeftOfExplanation, TellsEvents, TellsPlay, TellsRefusal, TellsWanted, chains_in_some, first_line, last_chains, last_envelope, refused_line};
ghost use Rattle.dsr_explain.specs.Wanted.{wants_note};

use crate::chain_texts::ChainText;
use crate::counts::Count;
use crate::heads::{write_done, write_refused};
use crate::lines::write_note;
use crate::outlet::Outflow;
use crate::places::{Line, Places};
use crate::summary::Summary;
use crate::texts::{RefusedEnd, Texts};
use crate::tokens::Tokens;
use crate::wanted::Wanted;
use dsr_chain::Chain;
use dsr_envelope::{Envelope, Letter};
use dsr_names::{Actor, Refusal, Shape, Sink};
use dsr_notes::{Note, Notes, step_noted};
use dsr_reasons::{Writer, write_why};
use dsr_world::{Event, Play, Stage};
use std::alloc::Global;
use std::fmt::Write;

/// How many bytes `make_room` reserves for each event.
const ROOM_OF_AN_EVENT: usize = 176;

/// The explanation of a play so far, and the stage on which its events happen, which is never freed.
pub(crate) struct Story {
    pub(crate) stage: Stage,
    pub(crate) wanted: Wanted,
    /// The text so far, but for the parts that went out.
    pub(crate) out: Writer,
    pub(crate) outflow: Outflow,
    /// The refused events.
    pub(crate) refused: Count,
    /// What else was counted in the events so far.
    pub(crate) summary: Summary,
    texts: Texts,
    /// The texts that lines had last, for the lines after them.
    tokens: Tokens,
    refused_end: RefusedEnd,
    /// The notes of the last event; the next event uses their room.
    notes: Notes,
}

impl Story {
    /// Creates the story before any event; `events` is how many there will be, for the room. `NoMemory` if memory runs out.
    pub(crate) fn begin(
        alloc: Global,
        shape: Shape,
        wanted: &Wanted,
        outflow: Outflow,
        events: usize,
    ) -> Result<Story, Refusal>
        ensures { IfOk result (HasBegun wanted.now shape outflow) }
    {
        let mut out = write_first_line(alloc, shape, wanted.data)?;
        make_room(&mut out, wanted, &outflow, events);
        let texts = Texts::new(alloc, wanted.data)?;
        let summary = Summary::new(alloc, wanted.data)?;
        let tokens = Tokens::new(alloc)?;
        let stage = Stage::open(alloc, shape)?;
        Ok(Story {
            stage,
            wanted: *wanted,
            out,
            outflow,
            refused: Count::NONE,
            summary,
            texts,
            tokens,
            refused_end: RefusedEnd::new(alloc),
            notes: Notes::new(alloc),
        })
    }

    /// Ends the story, and leaves its stage in memory.
    pub(crate) fn leave(self) {
        let Story {
            stage,
            wanted: _wanted,
            out: _out,
            outflow: _outflow,
            refused: _refused,
            summary: _summary,
            texts: _texts,
            tokens: _tokens,
            refused_end: _refused_end,
            notes: _notes,
        } = self;
        stage.leave();
    }

    /// Explains the play with this text: its events, and then the end. `NoMemory` if memory runs out, and `WriteFailed` if writing fails. Requires that the
    /// story has just begun.
    pub(crate) fn tell_play<K: Sink>(
        &mut self,
        alloc: Global,
        text: &[u8],
        play: &Play,
        sink: &mut K,
    ) -> Result<(), Refusal>
        requires shape { self.old.stage.shape ≡ play.now.shape }
        requires empty { self.old.stage.run ≡ [] }
        requires begun { self.old.out ≡ first_line self.old.wanted.data play.now.shape }
        requires unsure { IsTrue self.old.outflow.in_parts → IsUnsure (K.output sink.old) }
        ensures told { OnOk result ((told : List ℕ) × TellsPlay self.old.wanted play.now told × SentAll told (K.output sink.old) (K.output sink.new)) }
        ensures refused { IfErr result (λ refusal. LeftOfExplanation self.old.wanted play.now refusal (K.output sink.old) (K.output sink.new)) }
        ensures calls { (K.output sink.new).calls ≤ (K.output sink.old).calls + self.old.outflow.calls }
    {
        match self.tell_events(alloc, text, play.events(), sink) {
            Ok(_) => {}
            Err(refusal) => return Err(refusal),
        }
        let Ok(_) = self.end(alloc, play.events().len()) else {
            return Err(Refusal::NoMemory);
        };
        let Ok(rest) = self.out.whole() else {
            return Err(Refusal::NoMemory);
        };
        self.outflow.pass_rest(rest, sink)
    }

    /// Explains the events of the play with this text, in turn; a long text goes out in parts. `NoMemory` if memory runs out, and `WriteFailed` if
    /// writing fails; the story must not be used then.
    fn tell_events<K: Sink>(
        &mut self,
        alloc: Global,
        text: &[u8],
        events: &[Event],
        sink: &mut K,
    ) -> Result<(), Refusal>
        ensures told { OnOk result ((told : List ℕ)
            × TellsEvents self.old.wanted 0 self.old.stage.shape self.new.stage.run self.old.stage.run events.now told
            × HasGoneOut self.old.outflow.in_parts (self.old.out ++ told) self.new.out (K.output sink.old) (K.output sink.new)) }
        ensures so_far { OnOk result (HasBrokenOff self.old.wanted self.old.stage.shape self.old.stage.run events.now
            self.old.out Refusal.NoMemory (K.output sink.old) (K.output sink.new)) }
        ensures broke_off { IfErr result (λ refusal. HasBrokenOff self.old.wanted self.old.stage.shape self.old.stage.run events.now
            self.old.out refusal (K.output sink.old) (K.output sink.new)) }
        ensures at_once { self.old.outflow.in_parts ≡ false → IsOkUnless result Refusal.NoMemory × (sink.new ≡ sink.old) }
        ensures wanted { self.new.wanted ≡ self.old.wanted }
        ensures shape { self.new.stage.shape ≡ self.old.stage.shape }
        ensures parts { self.new.outflow.in_parts ≡ self.old.outflow.in_parts }
        ensures calls { (K.output sink.new).calls + self.new.outflow.calls ≤ (K.output sink.old).calls + self.old.outflow.calls }
    {
        let mut places = Places::new(text);
        for place in 0..events.len() {
            let Ok(line) = places.line_of(alloc, place) else {
                return Err(Refusal::NoMemory);
            };
            let Ok(_) = self.tell(alloc, place as u64, &line, &events[place]) else {
                return Err(Refusal::NoMemory);
            };
            match self.outflow.pass_part(&mut self.out, sink) {
                Ok(_) => {}
                Err(refusal) => return Err(refusal),
            }
        }
        Ok(())
    }

    /// Makes the event with this number, which this line represents, happen, and explains it. `NoMemory` if memory runs out.
    fn tell(
        &mut self,
        alloc: Global,
        number: u64,
        line: &Line,
        event: &Event,
    ) -> Result<(), Refusal>
        ensures { GoesOn number event.now result self.old self.new }
    {
        if self.wanted.refused {
            return self.tell_briefly(alloc, number, line, event);
        }
        match step_noted(alloc, &mut self.stage, event, &mut self.notes) {
            Ok(_) => {
                // For the proof: the letter is that of the last step of a run.
                self.stage.steps_are_a_run();
                self.tell_done(alloc, number, line, event)
            }
            Err(Refusal::NoMemory) => Err(Refusal::NoMemory),
            Err(refusal) => self.tell_refusal(number, line, event, &refusal),
        }
    }

    /// Makes the event happen, and explains it if it is refused.
    fn tell_briefly(
        &mut self,
        alloc: Global,
        number: u64,
        line: &Line,
        event: &Event,
    ) -> Result<(), Refusal>
        requires { self.old.wanted.refused ≡ true }
        ensures { GoesOn number event.now result self.old self.new }
    {
        match self.stage.step(alloc, event) {
            Ok(_) => {
                self.summary.add_briefly(event, line.number);
                Ok(())
            }
            Err(Refusal::NoMemory) => Err(Refusal::NoMemory),
            Err(refusal) => self.tell_refusal(number, line, event, &refusal),
        }
    }

    /// Writes the event, which was done last, and those of its notes that the filter wants, if it wants the event.
    fn tell_done(
        &mut self,
        alloc: Global,
        number: u64,
        line: &Line,
        event: &Event,
    ) -> Result<(), Refusal>
        requires { handled self.old.stage.shape self.old.stage.run event.now ≡ last_envelope self.old.stage.run }
        ensures told { OnOk result ((told : List ℕ)
            × TellsWanted self.old.wanted number self.old.stage.shape self.old.stage.run event.now self.old.notes.items told
            × (self.new.out ≡ self.old.out ++ told)) }
        ensures wanted { self.new.wanted ≡ self.old.wanted }
        ensures outflow { self.new.outflow ≡ self.old.outflow }
        ensures stage { self.new.stage ≡ self.old.stage }
    {
        let notes = self.notes.as_slice();
        let envelope = handled(&self.stage, event);
        self.summary
            .add(&self.stage, event, envelope, line.number, notes)?;
        if !self.wanted.has_done(event, notes) {
            return Ok(());
        }
        let told = self
            .texts
            .told(alloc, &mut self.tokens, &self.stage, event, envelope)?;
        write_done(
            &mut self.out,
            &mut self.tokens,
            self.wanted.data,
            number,
            line.number,
            event,
            &told.end,
        );
        write_wanted(
            &mut self.out,
            &mut self.tokens,
            &self.wanted,
            &self.stage,
            event,
            chains_in(envelope),
            told.chains.as_slice(),
            notes,
        );
        Ok(())
    }

    /// Counts the event, which was refused, and writes it and why, if the filter wants it.
    fn tell_refusal(
        &mut self,
        number: u64,
        line: &Line,
        event: &Event,
        refusal: &Refusal,
    ) -> Result<(), Refusal>
        requires { ¬ MayBeDone self.old.stage.shape (log_of self.old.stage.run) event.now }
        ensures told { OnOk result ((told : List ℕ)
            × TellsRefusal self.old.wanted number self.old.stage.shape self.old.stage.run event.now refusal.now told
            × (self.new.out ≡ self.old.out ++ told)) }
        ensures wanted { self.new.wanted ≡ self.old.wanted }
        ensures outflow { self.new.outflow ≡ self.old.outflow }
        ensures stage { self.new.stage ≡ self.old.stage }
    {
        self.refused.add(line.number);
        if self.wanted.has_refused(event) {
            let as_data = self.wanted.data;
            let since = self.summary.posts.full_since(event, refusal);
            write_refusal(
                &mut self.out,
                &mut self.refused_end,
                as_data,
                &self.stage,
                number,
                line,
                event,
                refusal,
                since,
            )
        } else {
            Ok(())
        }
    }
}

/// Writes the event, which the stage refuses with this refusal, and why; `since` is the line of the post that fills its box, if that is why. `NoMemory` if
/// memory runs out.
fn write_refusal(
    out: &mut Writer,
    end: &mut RefusedEnd,
    as_data: bool,
    stage: &Stage,
    number: u64,
    line: &Line,
    event: &Event,
    refusal: &Refusal,
    since: Option<u64>,
) -> Result<(), Refusal>
    requires { ¬ MayBeDone stage.now.shape (log_of stage.now.run) event.now }
    ensures { OnOk result ((shown : List ℕ) × TellsCause stage.now.shape (log_of stage.now.run) event.now as_data
        (out.old ++ refused_line as_data number line.now.number event.now refusal.now shown) out.new) }
{
    let shown = end.write(event, line, as_data, since)?;
    write_refused(out, as_data, number, line.number, event, refusal, shown)?;
    write_why(out, as_data, stage, event);
    Ok(())
}

/// Reserves room for the text about `events` events, if all of it is wanted and it is to go out at once.
fn make_room(out: &mut Writer, wanted: &Wanted, outflow: &Outflow, events: usize)
    ensures { out.new ≡ out.old }
{
    if wanted.is_of_all() && !wanted.refused && !outflow.is_in_parts() {
        out.reserve(events.saturating_mul(ROOM_OF_AN_EVENT));
    }
}

/// Writes the lines of those notes of the event that are wanted; `chains` are those of its envelope, and `texts` describe them.
fn write_wanted(
    out: &mut Writer,
    tokens: &mut Tokens,
    wanted: &Wanted,
    stage: &Stage,
    event: &Event,
    chains: &[Chain],
    texts: &[ChainText],
    notes: &[Note],
)
    requires { chains.now ≡ last_chains stage.now.run }
    ensures { out.new ≡ out.old
        ++ note_lines wanted.now.data stage.now.shape (log_of stage.now.run) (actor_of event.now) (other_of event.now) (last_chains stage.now.run)
        (map (λ text. string_bytes text.shown) texts.now) (filter (wants_note wanted.now) notes.now) }
{
    for note in notes {
        write_if_wanted(out, tokens, wanted, stage, event, chains, texts, note);
    }
}

/// Writes the line of the note of the event if it is wanted; `chains` are those of the event's envelope, and `texts` describe them.
fn write_if_wanted(
    out: &mut Writer,
    tokens: &mut Tokens,
    wanted: &Wanted,
    stage: &Stage,
    event: &Event,
    chains: &[Chain],
    texts: &[ChainText],
    note: &Note,
)
    requires { chains.now ≡ last_chains stage.now.run }
    ensures wanted { wants_note wanted.now note.now ≡ true → out.new ≡ out.old
        ++ note_line wanted.now.data stage.now.shape (log_of stage.now.run) (actor_of event.now) (other_of event.now) (last_chains stage.now.run)
        (map (λ text. string_bytes text.shown) texts.now) note.now }
    ensures unwanted { wants_note wanted.now note.now ≡ false → out.new ≡ out.old }
{
    if wanted.has_note(note) {
        write_note(out, tokens, wanted.data, stage, event, chains, texts, note);
    }
}

/// Returns the letter in the box from one actor to another; `None` if the box is empty or one of them is not in the shape.
pub(crate) fn letter_in_box<'a>(stage: &'a Stage, from: &Actor, to: &Actor) -> Option<&'a Letter>
    ensures { option_map (λ letter. letter.now) result ≡ box_of stage.now.shape (log_of stage.now.run) from.now to.now }
{
    if stage.shape().has(*from) && stage.shape().has(*to) {
        stage.in_box(from, to)
    } else {
        None
    }
}

/// Returns the envelope that the event, which was done last, posted or took.
fn handled<'a>(stage: &'a Stage, event: &Event) -> Option<&'a Envelope>
    ensures { option_map (λ x. x.now) result ≡ handled stage.now.shape stage.now.run event.now }
{
    match event {
        Event::Post { from, to, .. } | Event::Plant { from, to, .. } | Event::Tell { from, to } =>
            envelope_of(letter_in_box(stage, from, to)),
        Event::Take { .. } => envelope_of(stage.last_taken()),
    }
}

/// Returns the envelope of the letter, if there is one.
fn envelope_of(letter: Option<&Letter>) -> Option<&Envelope>
    ensures { option_map (λ x. x.now) result ≡ option_map (λ x. x.now) letter.entry }
{
    match letter {
        Some(letter) => Some(letter.envelope()),
        None => None,
    }
}

/// Returns the chains of the envelope, if there is one.
fn chains_in(envelope: Option<&Envelope>) -> &[Chain]
    ensures { result.now ≡ chains_in_some (option_map (λ x. x.now) envelope.entry) }
{
    match envelope {
        Some(Envelope::Round { chains, .. }) => chains.as_slice(),
        _ => &[],
    }
}

/// Returns the text before any event: empty in words, the version and the shape as data. `NoMemory` if memory runs out.
fn write_first_line(alloc: Global, shape: Shape, as_data: bool) -> Result<Writer, Refusal>
    ensures { IfOk result (λ out. out ≡ first_line as_data shape) }
{
    let mut out = Writer::new(alloc);
    if as_data {
        let mut text = String::new(alloc);
        write!(text, "dsr-explain 1 {shape}\n")?;
        out.put_text(&text);
    }
    Ok(out)
}
