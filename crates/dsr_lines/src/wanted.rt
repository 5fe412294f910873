//! What a loyal actor posts, and which choice makes it post that.

ghost use Rattle.std.specs.Prelude.{◌≡◌, ◌<◌, ℕ, List, None, Some, true, false, IfOk, IfSome, IfNone, IsOkUnless};
ghost use Rattle.std.specs.Option.{is_none};
ghost use Rattle.dsr_names.specs.declared.actor.Actor.TheVariants.{Replica as ReplicaNumber, Client as ClientNumber};
ghost use Rattle.dsr_envelope.specs.declared.entry.Entry.{Entry};
ghost use Rattle.dsr_envelope.specs.declared.envelope.Envelope.TheVariants.{Ask};
ghost use Rattle.dsr_client.specs.Client.{StandsFor as StandsForClient};
ghost use Rattle.dsr_client.specs.Conduct.{ask_to};
ghost use Rattle.dsr_client.specs.State.{outstanding};
ghost use Rattle.dsr_replica.specs.Replica.{StandsFor};
ghost use Rattle.dsr_node.specs.Conduct.{post_of, is_exhausted};
ghost use Rattle.dsr_play.specs.declared.event.Event.TheVariants.{Post};
ghost use Rattle.dsr_run.specs.Step.{log_of};
ghost use Rattle.dsr_world.specs.Event.{refusal_of};
ghost use Rattle.dsr_lines.specs.Line.{begun_by};

use dsr_chain::SignedRequest;
use dsr_client::{Client, asks_tell_choices};
use dsr_envelope::{Envelope, Pick};
use dsr_facts::{client_of, loyal_of};
use dsr_names::{Actor, ClientId, Refusal, ReplicaId};
use dsr_replica::Replica;
use dsr_world::Stage;
use std::alloc::Global;

/// Makes what a loyal actor posts by this choice. Requires that nothing refuses the post. `NoMemory` if memory runs out.
pub(crate) fn wanted_post(
    alloc: Global,
    stage: &Stage,
    from: &Actor,
    to: &Actor,
    pick: &Pick,
) -> Result<Envelope, Refusal>
    requires { refusal_of stage.now.shape (log_of stage.now.run) (Post from.now to.now pick.now) ≡ None }
    ensures given { IfOk result (λ wanted. post_of stage.now.shape (log_of stage.now.run from.now) from.now to.now pick.now ≡ Some wanted) }
    ensures refusal { IsOkUnless result Refusal.NoMemory }
{
    match (from, to) {
        (Actor::Replica(poster), Actor::Replica(taker)) => {
            wanted_round(alloc, stage, *poster, *taker, pick)
        }
        (Actor::Replica(poster), Actor::Client(client)) => {
            Ok(wanted_reply(stage, *poster, *client, pick))
        }
        (Actor::Client(client), Actor::Replica(taker)) => {
            wanted_ask(alloc, stage, *client, *taker, pick)
        }
        (Actor::Client(_), Actor::Client(_)) => unreachable!(),
    }
}

/// Makes what a loyal replica posts to a replica by this choice. Requires that nothing refuses the post. `NoMemory` if memory runs out.
fn wanted_round(
    alloc: Global,
    stage: &Stage,
    from: ReplicaId,
    to: ReplicaId,
    pick: &Pick,
) -> Result<Envelope, Refusal>
    requires { refusal_of stage.now.shape (log_of stage.now.run) (Post (ReplicaNumber from) (ReplicaNumber to) pick.now) ≡ None }
    ensures given { IfOk result (λ wanted.
        post_of stage.now.shape (log_of stage.now.run (ReplicaNumber from)) (ReplicaNumber from) (ReplicaNumber to) pick.now ≡ Some wanted) }
    ensures refusal { IsOkUnless result Refusal.NoMemory }
{
    match loyal_of(stage, from).envelope_for(alloc, to, *pick) {
        Ok(wanted) => Ok(wanted),
        Err(Refusal::NoMemory) => Err(Refusal::NoMemory),
        Err(_) => unreachable!(),
    }
}

/// Returns what a loyal replica posts to a client by this choice. Requires that nothing refuses the post.
fn wanted_reply(stage: &Stage, from: ReplicaId, to: ClientId, pick: &Pick) -> Envelope
    requires { refusal_of stage.now.shape (log_of stage.now.run) (Post (ReplicaNumber from) (ClientNumber to) pick.now) ≡ None }
    ensures { post_of stage.now.shape (log_of stage.now.run (ReplicaNumber from)) (ReplicaNumber from) (ClientNumber to) pick.now ≡ Some result }
{
    match reply_by(loyal_of(stage, from), to, pick) {
        Some(wanted) => wanted,
        None => unreachable!(),
    }
}

/// Returns what a loyal replica posts to a client by this choice; `None` if it posts nothing.
fn reply_by(replica: &Replica, to: ClientId, pick: &Pick) -> Option<Envelope>
    ensures { (log : List Entry) (p : ℕ) → StandsFor replica.now log
        → result ≡ post_of replica.now.shape log (ReplicaNumber p) (ClientNumber to) pick.now }
{
    match pick {
        Pick::Plain => replica.reply_for(to),
        Pick::From(_) | Pick::Begin(_) => None,
    }
}

/// Makes what a client posts to a replica by this choice. Requires that nothing refuses the post. `NoMemory` if memory runs out.
fn wanted_ask(
    alloc: Global,
    stage: &Stage,
    from: ClientId,
    to: ReplicaId,
    pick: &Pick,
) -> Result<Envelope, Refusal>
    requires { refusal_of stage.now.shape (log_of stage.now.run) (Post (ClientNumber from) (ReplicaNumber to) pick.now) ≡ None }
    ensures given { IfOk result (λ wanted.
        post_of stage.now.shape (log_of stage.now.run (ClientNumber from)) (ClientNumber from) (ReplicaNumber to) pick.now ≡ Some wanted) }
    ensures refusal { IsOkUnless result Refusal.NoMemory }
{
    match ask_by(client_of(stage, from), to, pick) {
        Some(ask) => Envelope::ask(alloc, ask),
        None => unreachable!(),
    }
}

/// Returns the request for which a client asks by this choice. `None` if it asks for none, or its number would be past the limit.
fn ask_by(client: &Client, to: ReplicaId, pick: &Pick) -> Option<SignedRequest>
    ensures some { (log : List Entry) → StandsForClient client.now log
        → IfSome result (λ ask. ask_to client.now.shape client.now.me log pick.now ≡ Some (Ask ask)) }
    ensures none { (log : List Entry) (q : ℕ) → StandsForClient client.now log
        → is_exhausted client.now.shape log (ClientNumber client.now.me) (ReplicaNumber q) pick.now ≡ false
        → IfNone result (is_none (ask_to client.now.shape client.now.me log pick.now) ≡ true) }
{
    asks_tell_choices();
    match pick {
        Pick::Plain => client.ask_for(to),
        Pick::Begin(op) => client.first_ask(*op),
        Pick::From(_) => None,
    }
}

/// Returns the choice that a client's post of this envelope to a replica shows.
pub(crate) fn shown_pick(stage: &Stage, client: ClientId, found: &Envelope) -> Pick
    ensures { client < stage.now.shape.m
        → result ≡ begun_by found.now (outstanding stage.now.shape (log_of stage.now.run (ClientNumber client))) }
{
    match stage.client(client) {
        Ok(asking) => pick_beside(asking, found),
        Err(_) => Pick::Plain,
    }
}

/// Returns the choice that the client's post of this envelope to a replica shows.
fn pick_beside(client: &Client, found: &Envelope) -> Pick
    ensures { (log : List Entry) → StandsForClient client.now log → result ≡ begun_by found.now (outstanding client.now.shape log) }
{
    match found {
        Envelope::Ask(ask) => match client.outstanding() {
            Some(_) => Pick::Plain,
            None => Pick::Begin(ask.signed().request.op()),
        },
        Envelope::Empty | Envelope::Round { .. } | Envelope::Reply(_) | Envelope::Seen(_) => {
            Pick::Plain
        }
    }
}
