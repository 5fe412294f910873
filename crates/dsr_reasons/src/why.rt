//! The text of why an event was refused; `dsr_facts` finds the cause. Each cause has its text at one place: a word with the numbers and names that
//! belong to it if data are wanted, and otherwise a sentence.

ghost use Rattle.std.specs.Prelude.{◌≡◌, ◌++◌};
ghost use Rattle.dsr_names.specs.Actor.{actor_text};
ghost use Rattle.dsr_run.specs.Step.{log_of};
ghost use Rattle.dsr_world.specs.Event.{MayBeDone};
ghost use Rattle.dsr_reasons.specs.Reason.{TellsCause, reason_line, reason_text, part_text, limit_text, undue_text, due_text, sender_text, outstanding_text, forged_text, named};

use crate::actors::{actor_of, other_of};
use crate::writer::Writer;
use dsr_envelope::Due;
use dsr_facts::{Cause, Limit, Part, Undue, why_refused};
use dsr_names::{Actor, ReplicaId};
use dsr_script::Forged;
use dsr_world::{Event, Stage};

/// Writes the line that says why this stage refuses the event: a line of data if `as_data`, otherwise of words. Requires that the stage refuses it.
pub fn write_why(out: &mut Writer, as_data: bool, stage: &Stage, event: &Event)
    requires { ¬ MayBeDone stage.now.shape (log_of stage.now.run) event.now }
    ensures { TellsCause stage.now.shape (log_of stage.now.run) event.now as_data out.old out.new }
{
    let Some(cause) = why_refused(stage, event) else {
        unreachable!()
    };
    write_line(out, as_data, actor_of(event), other_of(event), &cause);
}

/// Writes the line for this cause. The event is of `actor` with `other`.
fn write_line(out: &mut Writer, as_data: bool, actor: Actor, other: Actor, cause: &Cause)
    ensures { out.new ≡ out.old ++ reason_line as_data actor other cause.now }
{
    out.put_one(as_data, "why ", "    because ");
    write_reason(out, as_data, actor, other, cause);
    out.put("\n");
}

/// Writes the cause, without a line feed. The event is of `actor` with `other`.
fn write_reason(out: &mut Writer, as_data: bool, actor: Actor, other: Actor, cause: &Cause)
    ensures { out.new ≡ out.old ++ reason_text as_data actor other cause.now }
{
    match cause {
        Cause::NoActor(outsider) => put_named(
            out,
            as_data,
            "no-actor",
            "",
            *outsider,
            " is no actor of this shape",
        ),
        Cause::WrongRole(part) => write_part(out, as_data, actor, *part),
        Cause::NotDue(why) => write_undue(out, as_data, other, why),
        Cause::Exhausted(limit) => write_limit(out, as_data, *limit),
        Cause::BoxFull => out.put_one(
            as_data,
            "box-full",
            "what was posted there before has not been taken",
        ),
        Cause::BoxEmpty => out.put_one(as_data, "box-empty", "no envelope is waiting there"),
        Cause::Forged(forged) => write_forged(out, as_data, forged),
    }
}

/// Writes why the event is not this actor's part.
fn write_part(out: &mut Writer, as_data: bool, actor: Actor, part: Part)
    ensures { out.new ≡ out.old ++ part_text as_data actor part }
{
    match part {
        Part::Traitor => put_named(
            out,
            as_data,
            "traitor",
            "",
            actor,
            " is a traitor: what it posts is planted",
        ),
        Part::Loyal => put_named(
            out,
            as_data,
            "loyal",
            "",
            actor,
            " is loyal: only traitors plant",
        ),
        Part::BothClients => out.put_one(
            as_data,
            "both-clients",
            "clients post nothing to each other: they tell",
        ),
        Part::FromItself => out.put_one(
            as_data,
            "from-itself",
            "a client takes nothing from itself",
        ),
        Part::NotTwoClients => out.put_one(
            as_data,
            "not-two-clients",
            "only a client tells, and only another client",
        ),
    }
}

/// Writes which counter would pass its limit.
fn write_limit(out: &mut Writer, as_data: bool, limit: Limit)
    ensures { out.new ≡ out.old ++ limit_text as_data limit }
{
    match limit {
        Limit::Rounds => out.put_one(
            as_data,
            "exhausted-rounds",
            "it has closed 2^36 rounds, and closes no more",
        ),
        Limit::Numbers => out.put_one(
            as_data,
            "exhausted-numbers",
            "its last request had the number 2^40-1, and there is no greater one",
        ),
        Limit::Posts => out.put_one(
            as_data,
            "exhausted-posts",
            "2^40-1 envelopes were posted there, and no more may be",
        ),
    }
}

/// Writes why an actor's protocol has no such step with this other actor now.
fn write_undue(out: &mut Writer, as_data: bool, other: Actor, why: &Undue)
    ensures { out.new ≡ out.old ++ undue_text as_data other why.now }
{
    match why {
        Undue::First(next) => write_due(out, as_data, next),
        Undue::ChosenBefore => out.put_one(
            as_data,
            "chosen-before",
            "what it proposes is chosen at its post to r0",
        ),
        Undue::OtherSender { slot, sender } => write_sender(out, as_data, *slot, *sender),
        Undue::NothingHeld { client } => put_named(
            out,
            as_data,
            "nothing-held",
            "it holds no ask of ",
            Actor::Client(*client),
            "",
        ),
        Undue::BeginsNothing => out.put_one(
            as_data,
            "begins-nothing",
            "a replica begins no request",
        ),
        Undue::NothingActed => put_named(
            out,
            as_data,
            "nothing-acted",
            "no request of ",
            other,
            " has acted there yet",
        ),
        Undue::NoChoice => out.put_one(
            as_data,
            "no-choice",
            "a replica has no choice at a post to a client",
        ),
        Undue::ProposesNothing => out.put_one(
            as_data,
            "proposes-nothing",
            "a client proposes nothing",
        ),
        Undue::Outstanding { number } => write_outstanding(out, as_data, *number),
        Undue::NothingOutstanding => out.put_one(
            as_data,
            "nothing-outstanding",
            "no request of it is outstanding",
        ),
    }
}

/// Writes which step with the replicas is due first.
fn write_due(out: &mut Writer, as_data: bool, next: &Due)
    ensures { out.new ≡ out.old ++ due_text as_data next.now }
{
    match next {
        Due::Post(to) => put_named(
            out,
            as_data,
            "due-post",
            "it must first post to ",
            Actor::Replica(*to),
            "",
        ),
        Due::Take(from) => put_named(
            out,
            as_data,
            "due-take",
            "it must first take from ",
            Actor::Replica(*from),
            "",
        ),
    }
}

/// Writes which slot begins with the round, and who is its sender.
fn write_sender(out: &mut Writer, as_data: bool, slot: u64, sender: ReplicaId)
    ensures { out.new ≡ out.old ++ sender_text as_data slot sender }
{
    if as_data {
        out.put("other-sender ");
        out.put_number(slot);
        out.put(" ");
        out.put_name(Actor::Replica(sender));
    } else {
        out.put("the slot that begins with this round, ");
        out.put_number(slot);
        out.put(", has the sender ");
        out.put_name(Actor::Replica(sender));
    }
}

/// Writes the number of the request that is outstanding.
fn write_outstanding(out: &mut Writer, as_data: bool, number: u64)
    ensures { out.new ≡ out.old ++ outstanding_text as_data number }
{
    if as_data {
        out.put("outstanding ");
        out.put_number(number);
    } else {
        out.put("its request ");
        out.put_number(number);
        out.put(" is outstanding");
    }
}

/// Writes which signature is forged.
fn write_forged(out: &mut Writer, as_data: bool, forged: &Forged)
    ensures { out.new ≡ out.old ++ forged_text as_data forged.now.signer forged.now.statement }
{
    if as_data {
        out.put("forged ");
        out.put_name(forged.signer);
        out.put(" ");
        out.put_statement(&forged.statement);
    } else {
        out.put("the signature of ");
        out.put_name(forged.signer);
        out.put(" on ");
        out.put_statement(&forged.statement);
        out.put(" is forged: ");
        out.put_name(forged.signer);
        out.put(" is no traitor of this shape, and has not posted it");
    }
}

/// Writes the word and the name if `as_data`, otherwise the name between the two parts of a sentence.
fn put_named(
    out: &mut Writer,
    as_data: bool,
    word: &'static str,
    before: &'static str,
    name: Actor,
    after: &'static str,
)
    ensures { out.new ≡ out.old ++ named as_data word.now before.now (actor_text name) after.now }
{
    if as_data {
        out.put(word);
        out.put(" ");
        out.put_name(name);
    } else {
        out.put(before);
        out.put_name(name);
        out.put(after);
    }
}
