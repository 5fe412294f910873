//! The end of an explanation: the outcome of each slot, who waits for whom, and which envelopes were not taken.

ghost use Rattle.std.specs.Prelude.{◌≡◌, ℕ, ◌<◌, ◌++◌, [], true, List, IfOk, OnOk, string_bytes};
ghost use Rattle.dsr_run.specs.Step.{log_of};
ghost use Rattle.dsr_explain.specs.Waits.{AreBelow, IsWaitOfClient, IsWaitOfReplica, TellsWaits};

use crate::counts::KeptBy;
use crate::nothing::write_nothing;
use crate::parts::Part::{Name, Number, Text};
use crate::parts::put_parts;
use crate::standing::content_of;
use crate::story::{Story, letter_in_box};
use crate::waiting::{write_next, write_waits};
use crate::wanted::Wanted;
use dsr_names::{Actor, ClientId, Refusal, ReplicaId};
use dsr_notes::next_of;
use dsr_reasons::Writer;
use dsr_request::Requests;
use dsr_world::Stage;
use std::alloc::Global;

impl Story {
    /// Writes who waits for whom, in words after the outcome of each slot and before which envelopes were not taken. If the text of words is empty even
    /// then, writes that no event is what was wanted. `NoMemory` if memory runs out.
    pub(crate) fn end(&mut self, alloc: Global, events: usize) -> Result<(), Refusal>
        ensures told { OnOk result ((slots : List ℕ) × (waits : List ℕ) × (boxes : List ℕ)
            × TellsWaits self.old.wanted self.old.stage.shape (log_of self.old.stage.run) waits
            × (self.old.wanted.data ≡ true → (slots ≡ []) × (boxes ≡ []))
            × (self.new.out ≡ self.old.out ++ (slots ++ (waits ++ boxes)))) }
        ensures outflow { self.new.outflow ≡ self.old.outflow }
    {
        let slots = self.tell_slots(alloc)?;
        self.out.put_text(&slots);
        write_all_waits(&mut self.out, &self.stage, &self.wanted);
        let boxes = self.tell_boxes(alloc, events)?;
        self.out.put_text(&boxes);
        Ok(())
    }

    /// Returns, in words, how many events were refused, what else mattered in all of them, and the outcome of each slot. `NoMemory` if memory runs out.
    fn tell_slots(&self, alloc: Global) -> Result<String, Refusal>
        ensures as_data { self.now.wanted.data ≡ true → IfOk result (λ text. string_bytes text ≡ []) }
    {
        let mut out = Writer::new(alloc);
        if self.wanted.data {
            return out.finish();
        }
        if self.wanted.is_of_all() {
            self.refused.write(&mut out, "refused", "; those after it may follow from it\n");
            self.summary.counts.write(&mut out);
        }
        let kept = self.summary.counts.kept.as_slice();
        for slot in 0..kept.len() {
            if self.wanted.has_end_of(slot as u64) {
                write_slot(&mut out, &self.stage, slot, &kept[slot]);
            }
        }
        out.finish()
    }

    /// Returns, in words, for each actor who has not taken what it posted; and, if there is no other text, that no event is what was wanted.
    /// `NoMemory` if memory runs out.
    fn tell_boxes(&self, alloc: Global, events: usize) -> Result<String, Refusal>
        ensures as_data { self.now.wanted.data ≡ true → IfOk result (λ text. string_bytes text ≡ []) }
    {
        let mut out = Writer::new(alloc);
        if self.wanted.data {
            return out.finish();
        }
        let shape = self.stage.shape();
        for place in 0..shape.size() {
            write_untaken(&mut out, &self.stage, &self.wanted, &shape.actor_at(place));
        }
        if !self.outflow.has_begun() && self.out.is_empty() && out.is_empty() {
            write_nothing(
                &mut out,
                &self.stage,
                &self.wanted,
                events as u64,
                self.refused.number,
            );
        }
        out.finish()
    }
}

/// Writes what each loyal replica does next, and what each client waits for, as far as the filter wants it.
fn write_all_waits(out: &mut Writer, stage: &Stage, wanted: &Wanted)
    ensures { (waits : List ℕ) × TellsWaits wanted.now stage.now.shape (log_of stage.now.run) waits
        × (out.new ≡ out.old ++ waits) }
{
    write_waits_of_replicas(out, stage, wanted);
    write_waits_of_clients(out, stage, wanted)
}

/// Writes what each loyal replica does next.
fn write_waits_of_replicas(out: &mut Writer, stage: &Stage, wanted: &Wanted)
    ensures { (waits : List ℕ) × AreBelow (IsWaitOfReplica wanted.now stage.now.shape (log_of stage.now.run)) stage.now.shape.n waits
        × (out.new ≡ out.old ++ waits) }
{
    for number in 0..stage.shape().n() {
        write_wait_of_replica(out, stage, wanted, ReplicaId::of(number));
    }
}

/// Writes what the replica does next, if it is loyal.
fn write_wait_of_replica(out: &mut Writer, stage: &Stage, wanted: &Wanted, replica: ReplicaId)
    requires { replica < stage.now.shape.n }
    ensures { (wait : List ℕ) × IsWaitOfReplica wanted.now stage.now.shape (log_of stage.now.run) replica wait
        × (out.new ≡ out.old ++ wait) }
{
    if !wanted.has_wait_of(Actor::Replica(replica)) {
        return;
    }
    match next_of(stage, replica) {
        Some(next) => write_next(out, wanted.data, replica, &next),
        None => {}
    }
}

/// Writes what each client waits for, in words.
fn write_waits_of_clients(out: &mut Writer, stage: &Stage, wanted: &Wanted)
    ensures { (waits : List ℕ) × AreBelow (IsWaitOfClient wanted.now stage.now.shape (log_of stage.now.run)) stage.now.shape.m waits
        × (out.new ≡ out.old ++ waits) }
{
    for number in 0..stage.shape().m() {
        write_wait_of_client(out, stage, wanted, ClientId::of(number));
    }
}

/// Writes what the client waits for, in words.
fn write_wait_of_client(out: &mut Writer, stage: &Stage, wanted: &Wanted, client: ClientId)
    requires { client < stage.now.shape.m }
    ensures { (wait : List ℕ) × IsWaitOfClient wanted.now stage.now.shape (log_of stage.now.run) client wait
        × (out.new ≡ out.old ++ wait) }
{
    if wanted.data || !wanted.has_wait_of(Actor::Client(client)) {
        return;
    }
    write_waits(out, stage, client)
}

/// Writes who has not taken what this actor posted, if the filter wants the poster or one of these takers.
fn write_untaken(out: &mut Writer, stage: &Stage, wanted: &Wanted, poster: &Actor) {
    if !has_wanted(stage, wanted, poster) {
        return;
    }
    let shape = stage.shape();
    let mut has_begun = false;
    for place in 0..shape.size() {
        let taker = shape.actor_at(place);
        if letter_in_box(stage, poster, &taker).is_some() {
            if has_begun {
                put_parts(out, &[Text(", "), Name(taker)]);
            } else {
                put_parts(
                    out,
                    &[Name(*poster), Text(": what it posted to "), Name(taker)],
                );
            }
            has_begun = true;
        }
    }
    if has_begun {
        out.put(" has not been taken\n");
    }
}

/// Tells whether the filter wants this actor, or one that has not taken what it posted.
fn has_wanted(stage: &Stage, wanted: &Wanted, poster: &Actor) -> bool {
    let shape = stage.shape();
    let mut is_wanted = wanted.has_wait_of(*poster);
    for place in 0..shape.size() {
        let taker = shape.actor_at(place);
        is_wanted = is_wanted
            || (wanted.has_wait_of(taker) && letter_in_box(stage, poster, &taker).is_some());
    }
    is_wanted
}

/// Writes the outcome of a slot.
fn write_slot(out: &mut Writer, stage: &Stage, slot: usize, kept: &KeptBy) {
    let shape = stage.shape();
    let sender = shape.sender(slot as u64);
    let traitor = if shape.is_loyal(Actor::Replica(sender)) {
        ""
    } else {
        ", a traitor"
    };
    put_parts(
        out,
        &[
            Text("slot "),
            Number(slot as u64),
            Text(", sent by "),
            Name(Actor::Replica(sender)),
            Text(traitor),
            Text(": "),
        ],
    );
    out.put_content(&decided_content(stage, slot));
    write_counts(out, kept);
    out.put("\n");
}

/// Writes, for each replica that decided the slot, how many contents it kept.
fn write_counts(out: &mut Writer, kept: &KeptBy) {
    for number in 0..kept.len() {
        if let Some(count) = kept[number] {
            put_parts(
                out,
                &[
                    Text("; r"),
                    Number(number as u64),
                    Text(" kept "),
                    Text(kept_word(count)),
                ],
            );
        }
    }
}

/// Returns the words for a number of contents.
fn kept_word(count: u8) -> &'static str {
    match count {
        0 => "nothing",
        1 => "one content",
        _ => "two contents",
    }
}

/// Returns the requests that the first loyal replica with any decided for the slot; `None` if no loyal replica decided any.
fn decided_content(stage: &Stage, slot: usize) -> Option<Requests> {
    for number in 0..stage.shape().n() {
        let replica = Actor::Replica(ReplicaId::of(number));
        let content = content_of(stage, &replica, slot as u64);
        if content.is_some() {
            return content;
        }
    }
    None
}
