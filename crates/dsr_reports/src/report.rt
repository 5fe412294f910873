//! Writes the outcome of a play in lines of text.

ghost use Rattle.std.specs.Prelude.{◌≡◌, ◌<◌, ◌++◌, Some, IfOk, OnOk, IsOkUnless, codes, length, reverse, string_bytes};
ghost use Rattle.dsr_names.specs.Actor.{replica_text};
ghost use Rattle.dsr_names.specs.Shape.{IsLoyal};
ghost use Rattle.dsr_names.specs.declared.actor.Actor.TheVariants.{Replica as ReplicaNumber};
ghost use Rattle.dsr_run.specs.Agreement.{HasAgreement};
ghost use Rattle.dsr_run.specs.History.{decided_at};
ghost use Rattle.dsr_run.specs.Step.{log_of};
ghost use Rattle.dsr_reports.specs.Support.Spelled.{IsSpelledAt};
ghost use Rattle.dsr_reports.specs.Report.{report_text, end_text, first_text, replies_text, accepted_line, accepted_text, seen_line, seen_text, decided_text, dash_text, history_text, place_line, slots_text};

use dsr_ledger::Reply;
use dsr_names::{Actor, ClientId, Refusal, ReplicaId};
use dsr_reasons::Writer;
use dsr_request::Request;
use dsr_slot::Decision;
use dsr_world::{RunEnd, Stage};
use std::alloc::Global;

/// Returns the report of a stage whose events ended as `end` says: how many were done and refused, what each client accepted, each
/// client's seen front, what each loyal replica decided, and the history. `NoMemory` if memory runs out.
pub(crate) fn report_of(alloc: Global, stage: &Stage, end: &RunEnd) -> Result<String, Refusal>
    ensures text { IfOk result (λ report. string_bytes report ≡ report_text stage.now.shape (log_of stage.now.run) end.now) }
    ensures refusal { IsOkUnless result Refusal.NoMemory }
{
    let mut report = Writer::new(alloc);
    write_end(&mut report, end);
    write_accepted(&mut report, stage);
    write_seen(&mut report, stage);
    write_decided(alloc, &mut report, stage)?;
    write_history(&mut report, stage.history());
    report.finish()
}

/// Writes how many events were done, how many were refused, and the first refusal unless no event was refused.
fn write_end(out: &mut Writer, end: &RunEnd)
    ensures { out.new ≡ out.old ++ end_text end.now }
{
    out.put("done ");
    out.put_number(end.done);
    out.put("\nrefused ");
    out.put_number(end.refused);
    out.put("\n");
    if let Some((index, refusal)) = end.first {
        write_first(out, index, &refusal);
    }
}

/// Writes the line that names the first refused event, and why it was refused.
fn write_first(out: &mut Writer, index: u64, refusal: &Refusal)
    ensures { out.new ≡ out.old ++ first_text (Some (index, refusal.now)) }
{
    out.put("first ");
    out.put_number(index);
    out.put(" E");
    out.put_number(refusal.code() as u64);
    out.put(" ");
    out.put(refusal.word());
    out.put("\n");
}

/// Writes the replies that each client accepted.
fn write_accepted(out: &mut Writer, stage: &Stage)
    ensures { out.new ≡ out.old ++ accepted_text stage.now.shape (log_of stage.now.run) }
{
    for number in 0..stage.shape().m() {
        let client = ClientId::of(number);
        let Ok(replies) = stage.accepted(client) else {
            unreachable!()
        };
        write_replies(out, client, replies);
    }
}

/// Writes the replies that this client accepted, in their order.
pub fn write_replies(out: &mut Writer, client: ClientId, replies: &[Reply])
    ensures { out.new ≡ out.old ++ replies_text client (reverse replies.now) }
{
    for reply in replies {
        write_reply(out, client, reply);
    }
}

/// Writes the line of a reply that this client accepted.
pub(crate) fn write_reply(out: &mut Writer, client: ClientId, reply: &Reply)
    ensures { out.new ≡ out.old ++ accepted_line client reply.now }
{
    out.put("accepted ");
    out.put_name(Actor::Client(client));
    out.put(" ");
    out.put_number(reply.number);
    out.put(" ");
    out.put_number(reply.place);
    out.put(" ");
    out.put_answer(&reply.answer);
    out.put("\n");
}

/// Writes the seen front of each client.
fn write_seen(out: &mut Writer, stage: &Stage)
    ensures { out.new ≡ out.old ++ seen_text stage.now.shape (log_of stage.now.run) }
{
    for number in 0..stage.shape().m() {
        let client = ClientId::of(number);
        let Ok(seen) = stage.seen(client) else {
            unreachable!()
        };
        write_front(out, client, seen);
    }
}

/// Writes the line of this client's seen front.
fn write_front(out: &mut Writer, client: ClientId, front: u64)
    ensures { out.new ≡ out.old ++ seen_line client front }
{
    out.put("seen ");
    out.put_name(Actor::Client(client));
    out.put(" ");
    out.put_number(front);
    out.put("\n");
}

/// What each loyal replica that closed `slots` slots decided, as text.
#[derive(Drop)]
struct Spelled {
    slots: usize,
    text: String,
}

/// Writes what each loyal replica decided. By agreement, those that closed equally many slots decided the same, so this is spelled once for all of
/// them. `NoMemory` if memory runs out while it is spelled; some of the text may have been added then.
fn write_decided(alloc: Global, out: &mut Writer, stage: &Stage) -> Result<(), Refusal>
    ensures text { OnOk result (out.new ≡ out.old ++ decided_text stage.now.shape (log_of stage.now.run)) }
    ensures refusal { IsOkUnless result Refusal.NoMemory }
{
    // For the proof: the steps are a run, and at most f replicas are traitors.
    stage.steps_are_a_run();
    let _n = stage.shape().n();
    let mut spelled = spell(alloc, &[])?;
    for number in 0..stage.shape().n() {
        let replica = ReplicaId::of(number);
        // A traitor is asked for nothing.
        if let Ok(decisions) = stage.decided(replica) {
            spelled = spelled_for(alloc, stage, replica, decisions, spelled)?;
            write_decision_line(out, replica, &spelled.text);
        }
    }
    Ok(())
}

/// Returns what this loyal replica decided, as text: `spelled` again if it is of as many slots, otherwise a new one. `NoMemory` if memory runs out.
fn spelled_for(
    alloc: Global,
    stage: &Stage,
    replica: ReplicaId,
    decisions: &[Decision],
    spelled: Spelled,
) -> Result<Spelled, Refusal>
    requires agree { HasAgreement stage.now.shape stage.now.run }
    requires loyal { IsLoyal stage.now.shape (ReplicaNumber replica) }
    requires decided { decisions.now ≡ reverse (decided_at stage.now.shape (log_of stage.now.run) replica) }
    requires spelled { IsSpelledAt stage.now spelled }
    ensures text { IfOk result (λ s. string_bytes s.text ≡ slots_text (decided_at stage.now.shape (log_of stage.now.run) replica)) }
    ensures spelled { IfOk result (IsSpelledAt stage.now) }
    ensures refusal { IsOkUnless result Refusal.NoMemory }
{
    if decisions.len() == spelled.slots {
        Ok(spelled)
    } else {
        spell(alloc, decisions)
    }
}

/// Writes the line of what this replica decided, which is spelled already.
fn write_decision_line(out: &mut Writer, replica: ReplicaId, spelled: &String)
    ensures { out.new ≡ out.old ++ (codes "decided " ++ (replica_text replica ++ (string_bytes spelled.now ++ codes "\n"))) }
{
    out.put("decided ");
    out.put_name(Actor::Replica(replica));
    out.put_text(spelled);
    out.put("\n");
}

/// Spells what a replica decided, slot by slot. `NoMemory` if memory runs out.
fn spell(alloc: Global, decisions: &[Decision]) -> Result<Spelled, Refusal>
    ensures slots { IfOk result (λ spelled. spelled.slots ≡ length decisions.now) }
    ensures text { IfOk result (λ spelled. string_bytes spelled.text ≡ slots_text (reverse decisions.now)) }
    ensures refusal { IsOkUnless result Refusal.NoMemory }
{
    let mut text = Writer::new(alloc);
    write_dash(&mut text, decisions);
    for decision in decisions {
        text.put(" ");
        text.put_content(&decision.content());
    }
    Ok(Spelled {
        slots: decisions.len(),
        text: text.finish()?,
    })
}

/// Writes a dash if there are no decisions.
fn write_dash(out: &mut Writer, decisions: &[Decision])
    ensures { out.new ≡ out.old ++ dash_text (reverse decisions.now) }
{
    if decisions.is_empty() {
        out.put(" -");
    }
}

/// Writes the number of requests that acted, and then each, after its place.
pub fn write_history(out: &mut Writer, history: &[Request])
    ensures { out.new ≡ out.old ++ history_text (reverse history.now) }
{
    let count = history.len();
    out.put("history ");
    out.put_number(count as u64);
    out.put("\n");
    for place in 0..count {
        write_place(out, place as u64, &history[place]);
    }
}

/// Writes the line of the request that acted at this place.
fn write_place(out: &mut Writer, place: u64, request: &Request)
    ensures { out.new ≡ out.old ++ place_line place request.now }
{
    out.put_number(place);
    out.put(" ");
    out.put_request(request);
    out.put("\n");
}
