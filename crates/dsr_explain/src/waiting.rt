//! Who waits for whom at the end of a play, as lines. `specs/Waiting` says which lines.

ghost use Rattle.std.specs.Prelude.{◌≡◌, ◌+◌, ◌<◌, ◌++◌, Some};
ghost use Rattle.dsr_names.specs.Actor.{replica_text};
ghost use Rattle.dsr_client.specs.State.{outstanding};
ghost use Rattle.dsr_run.specs.Step.{log_of};
ghost use Rattle.dsr_explain.specs.Waiting.{due_data, next_line, post_words, standing_part, standing_text, standings_text, take_words, waits_begin, waits_line, waits_line_for};

use crate::parts::Part::{Name, Number, Text};
use crate::parts::put_parts;
use dsr_envelope::Due;
use dsr_names::{Actor, ClientId, ReplicaId};
use dsr_notes::{Next, Standing, standing_of};
use dsr_reasons::Writer;
use dsr_world::Stage;

/// Writes what a replica does next with the replicas: data if `as_data`, otherwise words.
pub(crate) fn write_next(out: &mut Writer, as_data: bool, replica: ReplicaId, next: &Next)
    ensures { out.new ≡ out.old ++ next_line as_data replica next.now }
{
    match next.due {
        Due::Post(to) if as_data => write_due(out, replica, " post ", to, next.round),
        Due::Take(from) if as_data => write_due(out, replica, " take ", from, next.round),
        Due::Post(to) => write_post(out, replica, next.round, next.is_there, to),
        Due::Take(from) => write_take(out, replica, next.round, next.is_there, from),
    }
}

/// Writes, as data, what is due at a replica with this other one in this round.
fn write_due(out: &mut Writer, replica: ReplicaId, word: &'static str, with: ReplicaId, round: u64)
    ensures { out.new ≡ out.old ++ due_data replica word.now with round }
{
    let (replica, with) = (Actor::Replica(replica), Actor::Replica(with));
    put_parts(
        out,
        &[
            Text("waits "),
            Name(replica),
            Text(word),
            Name(with),
            Text(" "),
            Number(round),
            Text("\n"),
        ],
    )
}

/// Writes that a replica posts its envelope of this round to this replica, at once or when its box is empty.
fn write_post(out: &mut Writer, replica: ReplicaId, round: u64, is_there: bool, to: ReplicaId)
    ensures { out.new ≡ out.old ++ (replica_text replica ++ post_words round is_there to) }
{
    let replica = Actor::Replica(replica);
    if is_there {
        put_parts(
            out,
            &[
                Name(replica),
                Text(": posts its envelope of round "),
                Number(round),
                Text(" to "),
                Name(Actor::Replica(to)),
                Text(" once "),
                Name(Actor::Replica(to)),
                Text(" has taken the one before\n"),
            ],
        )
    } else {
        put_parts(
            out,
            &[
                Name(replica),
                Text(": next it posts its envelope of round "),
                Number(round),
                Text(" to "),
                Name(Actor::Replica(to)),
                Text("\n"),
            ],
        )
    }
}

/// Writes that a replica takes what this replica posted to it in this round, or waits for it.
fn write_take(out: &mut Writer, replica: ReplicaId, round: u64, is_there: bool, from: ReplicaId)
    ensures { out.new ≡ out.old ++ (replica_text replica ++ take_words round is_there from) }
{
    let (replica, from) = (Actor::Replica(replica), Actor::Replica(from));
    if is_there {
        put_parts(
            out,
            &[
                Name(replica),
                Text(": in round "),
                Number(round),
                Text(", next it takes what "),
                Name(from),
                Text(" posted to it, which is there\n"),
            ],
        )
    } else {
        put_parts(
            out,
            &[
                Name(replica),
                Text(": in round "),
                Number(round),
                Text(", it waits for "),
                Name(from),
                Text(" to post to it\n"),
            ],
        )
    }
}

/// Writes what a client of the shape waits for, if a request of it is outstanding: in words, with how far each replica is with it.
pub(crate) fn write_waits(out: &mut Writer, stage: &Stage, client: ClientId)
    requires { client < stage.now.shape.m }
    ensures { out.new ≡ out.old ++ waits_line stage.now.shape (log_of stage.now.run) client }
{
    match stage.client(client) {
        Ok(waiting) => write_wait(out, stage, client, waiting.outstanding()),
        Err(_) => unreachable!(),
    }
}

/// Writes what a client waits for whose outstanding request has this number, if one is outstanding.
fn write_wait(out: &mut Writer, stage: &Stage, client: ClientId, outstanding: Option<u64>)
    requires { client < stage.now.shape.m }
    ensures { out.new ≡ out.old
        ++ waits_line_for stage.now.shape (log_of stage.now.run) client outstanding }
{
    let Some(number) = outstanding else {
        return;
    };
    write_wait_begin(out, client, stage.shape().f(), number);
    write_standings(out, stage, client, number);
    out.put("\n");
}

/// Writes that a client waits for matching replies to its request, one more than there may be traitors.
fn write_wait_begin(out: &mut Writer, client: ClientId, most_traitors: u8, number: u64)
    ensures { out.new ≡ out.old ++ waits_begin client (most_traitors + 1) number }
{
    put_parts(
        out,
        &[
            Name(Actor::Client(client)),
            Text(": waits for "),
            Number(most_traitors as u64 + 1),
            Text(" matching replies to request "),
            Number(number),
        ],
    )
}

/// Writes how far each replica is with the client's outstanding request, which has this number.
fn write_standings(out: &mut Writer, stage: &Stage, client: ClientId, number: u64)
    requires { client < stage.now.shape.m }
    ensures { out.new ≡ out.old
        ++ standings_text stage.now.shape (log_of stage.now.run) client number stage.now.shape.n }
{
    for place in 0..stage.shape().n() {
        write_standing(out, stage, client, number, ReplicaId::of(place));
    }
}

/// Writes how far a replica is with the client's outstanding request, which has this number.
fn write_standing(
    out: &mut Writer,
    stage: &Stage,
    client: ClientId,
    number: u64,
    replica: ReplicaId,
)
    requires client { client < stage.now.shape.m }
    requires replica { replica < stage.now.shape.n }
    ensures { out.new ≡ out.old
        ++ standing_part stage.now.shape (log_of stage.now.run) client number replica }
{
    let words = standing_words(&standing_of(stage, client, number, replica));
    put_parts(
        out,
        &[
            Text("; "),
            Name(Actor::Replica(replica)),
            Text(" "),
            Text(words),
        ],
    )
}

/// Returns the words for how far a replica is with a request.
fn standing_words(standing: &Standing) -> &'static str
    ensures { result.now ≡ standing_text standing.now }
{
    match standing {
        Standing::Voted => "has replied, and its reply has been taken",
        Standing::IsTraitor => "is a traitor",
        Standing::ReplyLies => "has replied, and its reply has not been taken",
        Standing::CanReply => "can reply",
        Standing::OtherLies => "can reply once what it posted before has been taken",
        Standing::Holds => "holds it, and no slot that it decided has it",
        Standing::AskLies => "has not taken the ask",
        Standing::OlderLies => "has not taken an older ask, which is in the way",
        Standing::Unasked => "was not asked",
    }
}
