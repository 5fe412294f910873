ghost use Rattle.std.specs.Prelude.{◌≡◌, ◌&&◌, ◌||◌, ◌<◌, ℕ, true, false, List, None, IfSome, IfNone, IsSome, IsTrue};
ghost use Rattle.std.specs.Option.{is_none};
ghost use Rattle.dsr_names.specs.Shape.{Shape as AShape, IsActor, IsLoyal};
ghost use Rattle.dsr_names.specs.declared.actor.Actor.TheVariants.{Replica as ReplicaNumber, Client as ClientNumber};
ghost use Rattle.dsr_envelope.specs.declared.entry.Entry.{Entry};
ghost use Rattle.dsr_replica.specs.Conduct.{envelope_to};
ghost use Rattle.dsr_replica.specs.Replica.{StandsFor};
ghost use Rattle.dsr_client.specs.Client.{StandsFor as StandsForClient};
ghost use Rattle.dsr_node.specs.Conduct.{post_of, is_exhausted, is_undue, is_actor, is_traitor_of, are_clients, is_own_client};
ghost use Rattle.dsr_play.specs.declared.event.Event.TheVariants.{Post, Plant, Take, Tell};
ghost use Rattle.dsr_desk.specs.Signature.{Signature, signed};
ghost use Rattle.dsr_envelope.specs.Envelope.{Carries};
ghost use Rattle.dsr_envelope.specs.declared.entry.Entry.TheVariants.{Post as PostEntry};
ghost use Rattle.dsr_run.specs.Run.{ForgesNothing, IsMadeOrPosted};
ghost use Rattle.dsr_run.specs.Step.{Logs, log_of};
ghost use Rattle.dsr_world.specs.Event.{is_full, is_used_up, refusal_of, MayBeDone, IsRefusedBy};
ghost use Rattle.dsr_names.specs.declared.actor.Actor.{Actor as AnActor};
ghost use Rattle.dsr_node.specs.Node.{PlaysReplica};
ghost use Rattle.dsr_play.specs.declared.event.Event.{Event as AnEvent};
ghost use Rattle.dsr_facts.specs.declared.cause.Cause.{Cause as ACause};
ghost use Rattle.dsr_facts.specs.Cause.{HoldsCause, refusal_by, IsOutsider, IsUndue, IsUndueAsk, IsUndueReply, IsSpent};
ghost use Rattle.dsr_facts.specs.Undue.{IsUndueRound};

use crate::undue::{Undue, undue_round};
use dsr_client::Client;
use dsr_envelope::{Due, Pick};
use dsr_names::{Actor, ClientId, NUMBER_END, Refusal, ReplicaId, Shape};
use dsr_node::{are_clients, is_own_client, is_traitor};
use dsr_replica::Replica;
use dsr_script::{Draft, Forged};
use dsr_world::{Event, Stage};

/// Why an event is not its actor's part.
#[derive(Clone, Copy, Debug, PartialEq, Eq)]
pub enum Part {
    /// The actor is a traitor: it posts only by `Plant`.
    Traitor,
    /// The actor is loyal: only traitors plant.
    Loyal,
    /// Both are clients: a client posts to another only by `Tell`.
    BothClients,
    /// A client takes nothing from itself.
    FromItself,
    /// `Tell` is only from a client to another.
    NotTwoClients,
}

/// Which counter would pass its limit.
#[derive(Clone, Copy, Debug, PartialEq, Eq)]
pub enum Limit {
    /// The rounds of a loyal replica.
    Rounds,
    /// The numbers of a client's requests.
    Numbers,
    /// The posts in the box.
    Posts,
}

/// Why an event is refused.
#[derive(Clone, Copy, Debug)]
pub enum Cause {
    /// This actor is not one of the shape.
    NoActor(Actor),
    /// The event is not the actor's part.
    WrongRole(Part),
    /// The actor's protocol has no such step now.
    NotDue(Undue),
    /// A counter would pass its limit.
    Exhausted(Limit),
    /// The box holds an envelope.
    BoxFull,
    /// The box holds none.
    BoxEmpty,
    /// This signature is not a traitor's, and its signer has not posted it.
    Forged(Forged),
}

/// Returns why this stage refuses the event. `None` exactly if only a lack of memory can refuse it. Allocates nothing.
pub fn why_refused(stage: &Stage, event: &Event) -> Option<Cause>
    ensures some { IfSome result (HoldsCause stage.now.shape (log_of stage.now.run) event.now) }
    ensures none { IfNone result (MayBeDone stage.now.shape (log_of stage.now.run) event.now) }
{
    match event {
        Event::Post { from, to, pick } => post_cause(stage, from, to, &pick.pick()),
        Event::Plant { from, to, draft } => plant_cause(stage, from, to, draft),
        Event::Take { at, from } => take_cause(stage, at, from),
        Event::Tell { from, to } => tell_cause(stage, from, to),
    }
}

/// Returns why a loyal actor's post is refused; `None` if it is not.
pub(crate) fn post_cause(stage: &Stage, from: &Actor, to: &Actor, pick: &Pick) -> Option<Cause>
    ensures some { IfSome result (HoldsCause stage.now.shape (log_of stage.now.run) (Post from.now to.now pick.now)) }
    ensures none { IfNone result (refusal_of stage.now.shape (log_of stage.now.run) (Post from.now to.now pick.now) ≡ None) }
{
    if let Some(actor) = outsider(stage.shape(), from, to) {
        return Some(Cause::NoActor(actor));
    }
    if is_traitor(stage.shape(), from) {
        return Some(Cause::WrongRole(Part::Traitor));
    }
    if are_clients(from, to) {
        return Some(Cause::WrongRole(Part::BothClients));
    }
    if let Some(why) = undue_post(stage, from, to, pick) {
        return Some(Cause::NotDue(why));
    }
    if let Some(limit) = spent_by_post(stage, from, to, pick) {
        return Some(Cause::Exhausted(limit));
    }
    if is_full(stage, from, to) {
        return Some(Cause::BoxFull);
    }
    None
}

/// Returns why a traitor's post is refused; `None` if it is not.
fn plant_cause(stage: &Stage, from: &Actor, to: &Actor, draft: &Draft) -> Option<Cause>
    ensures some { IfSome result (HoldsCause stage.now.shape (log_of stage.now.run) (Plant from.now to.now draft.now)) }
    ensures none { IfNone result (refusal_of stage.now.shape (log_of stage.now.run) (Plant from.now to.now draft.now) ≡ None) }
    ensures forges { IfNone result (ForgesNothing stage.now.shape (log_of stage.now.run) (PostEntry to.now draft.now)) }
{
    if let Some(actor) = outsider(stage.shape(), from, to) {
        return Some(Cause::NoActor(actor));
    }
    if !is_traitor(stage.shape(), from) {
        return Some(Cause::WrongRole(Part::Loyal));
    }
    if is_used_up(stage, from, to) {
        return Some(Cause::Exhausted(Limit::Posts));
    }
    if is_full(stage, from, to) {
        return Some(Cause::BoxFull);
    }
    let forged = forged_by(stage, from, draft)?;
    Some(Cause::Forged(forged))
}

/// Returns a signature that a traitor who posts the draft would forge; `None` if the traitor forges nothing.
fn forged_by(stage: &Stage, from: &Actor, draft: &Draft) -> Option<Forged>
    requires inside { IsActor stage.now.shape from.now }
    requires traitor { is_traitor_of stage.now.shape from.now ≡ true }
    ensures carried { IfSome result (λ forged. Carries draft.now (signed forged.signer forged.statement)) }
    ensures forged { IfSome result (λ forged. IsMadeOrPosted stage.now.shape (log_of stage.now.run) (signed forged.signer forged.statement) → ⊥) }
    ensures none { IfNone result ((s : Signature) → Carries draft.now s → IsMadeOrPosted stage.now.shape (log_of stage.now.run) s) }
{
    stage.forged_in(draft)
}

/// Returns why a take is refused; `None` if it is not.
pub(crate) fn take_cause(stage: &Stage, at: &Actor, from: &Actor) -> Option<Cause>
    ensures some { IfSome result (HoldsCause stage.now.shape (log_of stage.now.run) (Take at.now from.now)) }
    ensures none { IfNone result (refusal_of stage.now.shape (log_of stage.now.run) (Take at.now from.now) ≡ None) }
    ensures at { IfNone result (IsActor stage.now.shape at.now) }
    ensures from { IfNone result (IsActor stage.now.shape from.now) }
    ensures full { IfNone result (is_full (log_of stage.now.run) from.now at.now ≡ true) }
{
    if let Some(actor) = outsider(stage.shape(), at, from) {
        return Some(Cause::NoActor(actor));
    }
    if is_own_client(at, from) {
        return Some(Cause::WrongRole(Part::FromItself));
    }
    if let Some(why) = undue_take(stage, at, from) {
        return Some(Cause::NotDue(why));
    }
    if !is_full(stage, from, at) {
        return Some(Cause::BoxEmpty);
    }
    None
}

/// Returns why an actor's post of its seen front to another is refused; `None` if it is not.
fn tell_cause(stage: &Stage, from: &Actor, to: &Actor) -> Option<Cause>
    ensures some { IfSome result (HoldsCause stage.now.shape (log_of stage.now.run) (Tell from.now to.now)) }
    ensures none { IfNone result (refusal_of stage.now.shape (log_of stage.now.run) (Tell from.now to.now) ≡ None) }
{
    if let Some(actor) = outsider(stage.shape(), from, to) {
        return Some(Cause::NoActor(actor));
    }
    if !are_clients(from, to) || is_own_client(from, to) {
        return Some(Cause::WrongRole(Part::NotTwoClients));
    }
    if is_used_up(stage, from, to) {
        return Some(Cause::Exhausted(Limit::Posts));
    }
    if is_full(stage, from, to) {
        return Some(Cause::BoxFull);
    }
    None
}

/// Returns why a loyal actor has no such post; `None` if it has one.
fn undue_post(stage: &Stage, from: &Actor, to: &Actor, pick: &Pick) -> Option<Undue>
    requires from { IsActor stage.now.shape from.now }
    requires to { IsActor stage.now.shape to.now }
    requires loyal { is_traitor_of stage.now.shape from.now ≡ false }
    requires apart { are_clients from.now to.now ≡ false }
    ensures some { IfSome result (IsUndue stage.now.shape (log_of stage.now.run) (Post from.now to.now pick.now)) }
    ensures refused { IfSome result (λ why. is_none (post_of stage.now.shape (log_of stage.now.run from.now) from.now to.now pick.now) ≡ true) }
    ensures none { IfNone result (is_none (post_of stage.now.shape (log_of stage.now.run from.now) from.now to.now pick.now) ≡ false) }
{
    match (from, to) {
        (Actor::Replica(poster), Actor::Replica(taker)) => undue_at(stage, *poster, *taker, pick),
        (Actor::Replica(poster), Actor::Client(client)) => {
            undue_reply(loyal_of(stage, *poster), *client, pick)
        }
        (Actor::Client(client), Actor::Replica(_)) => undue_ask(client_of(stage, *client), pick),
        (Actor::Client(_), Actor::Client(_)) => unreachable!(),
    }
}

/// Returns why a loyal replica does not post to this replica by this choice; `None` if it has an envelope for it.
fn undue_at(stage: &Stage, poster: ReplicaId, to: ReplicaId, pick: &Pick) -> Option<Undue>
    requires loyal { IsLoyal stage.now.shape (ReplicaNumber poster) }
    requires to { IsActor stage.now.shape (ReplicaNumber to) }
    ensures some { IfSome result (IsUndueRound stage.now.shape (ReplicaNumber poster) (log_of stage.now.run (ReplicaNumber poster)) to pick.now) }
    ensures none { IfNone result (IsSome (envelope_to stage.now.shape (ReplicaNumber poster) (log_of stage.now.run (ReplicaNumber poster)) to pick.now)) }
{
    let loyal = loyal_of(stage, poster);
    // if the post is due, it has posted there in each closed round
    let round = stage.posts(&Actor::Replica(poster), &Actor::Replica(to));
    undue_round(loyal, &Actor::Replica(poster), round, to, pick)
}

/// Returns why a loyal replica posts no reply to this client by this choice; `None` if it posts one.
fn undue_reply(replica: &Replica, client: ClientId, pick: &Pick) -> Option<Undue>
    ensures some { (log : List Entry) → StandsFor replica.now log → IfSome result (IsUndueReply replica.now.shape log client pick.now) }
    ensures none { (log : List Entry) (p : ℕ) → StandsFor replica.now log
        → IfNone result (is_none (post_of replica.now.shape log (ReplicaNumber p) (ClientNumber client) pick.now) ≡ false) }
{
    match pick {
        Pick::Plain => match replica.reply_for(client) {
            Some(_) => None,
            None => Some(Undue::NothingActed),
        },
        Pick::From(_) | Pick::Begin(_) => Some(Undue::NoChoice),
    }
}

/// Returns why a client asks nothing by this choice; `None` if it asks something.
fn undue_ask(client: &Client, pick: &Pick) -> Option<Undue>
    ensures some { (log : List Entry) → StandsForClient client.now log → IfSome result (IsUndueAsk client.now.shape log pick.now) }
    ensures none { (log : List Entry) (q : ℕ) → StandsForClient client.now log
        → IfNone result (is_none (post_of client.now.shape log (ClientNumber client.now.me) (ReplicaNumber q) pick.now) ≡ false) }
{
    match (pick, client.outstanding()) {
        (Pick::From(_), _) => Some(Undue::ProposesNothing),
        (Pick::Plain, None) => Some(Undue::NothingOutstanding),
        (Pick::Begin(_), Some(number)) => Some(Undue::Outstanding { number }),
        (Pick::Plain, Some(_)) | (Pick::Begin(_), None) => None,
    }
}

/// Returns why a take is not due; `None` if it is due.
fn undue_take(stage: &Stage, at: &Actor, from: &Actor) -> Option<Undue>
    requires at { IsActor stage.now.shape at.now }
    ensures some { IfSome result (IsUndue stage.now.shape (log_of stage.now.run) (Take at.now from.now)) }
    ensures refused { IfSome result (λ why. is_undue stage.now.shape (log_of stage.now.run at.now) at.now from.now ≡ true) }
    ensures none { IfNone result (is_undue stage.now.shape (log_of stage.now.run at.now) at.now from.now ≡ false) }
{
    match (at, from) {
        (Actor::Replica(taker), Actor::Replica(poster)) => match stage.replica(*taker) {
            Ok(loyal) => {
                if loyal.due() == Due::Take(*poster) {
                    None
                } else {
                    Some(Undue::First(loyal.due()))
                }
            }
            Err(_) => None,
        },
        _ => None,
    }
}

/// Returns which counter a loyal actor's post would take past its limit; `None` if no counter. Requires that the protocol has such a post.
fn spent_by_post(stage: &Stage, from: &Actor, to: &Actor, pick: &Pick) -> Option<Limit>
    requires from { IsActor stage.now.shape from.now }
    requires to { IsActor stage.now.shape to.now }
    requires loyal { is_traitor_of stage.now.shape from.now ≡ false }
    requires given { is_none (post_of stage.now.shape (log_of stage.now.run from.now) from.now to.now pick.now) ≡ false }
    ensures some { IfSome result (IsSpent stage.now.shape (log_of stage.now.run) (Post from.now to.now pick.now)) }
    ensures refused { IfSome result (λ limit. (is_exhausted stage.now.shape (log_of stage.now.run from.now) from.now to.now pick.now
        || is_used_up (log_of stage.now.run) from.now to.now) ≡ true) }
    ensures none { IfNone result ((is_exhausted stage.now.shape (log_of stage.now.run from.now) from.now to.now pick.now
        || is_used_up (log_of stage.now.run) from.now to.now) ≡ false) }
{
    match (from, to) {
        (Actor::Replica(poster), Actor::Replica(taker)) => {
            if has_no_round(loyal_of(stage, *poster), *taker, pick) {
                return Some(Limit::Rounds);
            }
        }
        (Actor::Client(client), _) => {
            if has_no_number(client_of(stage, *client), pick) {
                return Some(Limit::Numbers);
            }
        }
        (Actor::Replica(_), Actor::Client(_)) => {}
    }
    if is_used_up(stage, from, to) {
        Some(Limit::Posts)
    } else {
        None
    }
}

/// Tells whether the round in progress is too late for a loyal replica's post, for which there is an envelope.
fn has_no_round(replica: &Replica, to: ReplicaId, pick: &Pick) -> bool
    ensures { (log : List Entry) (p : ℕ) → StandsFor replica.now log → replica.now.me ≡ ReplicaNumber p
        → is_none (post_of replica.now.shape log (ReplicaNumber p) (ReplicaNumber to) pick.now) ≡ false
        → result ≡ is_exhausted replica.now.shape log (ReplicaNumber p) (ReplicaNumber to) pick.now }
{
    match replica.refusal(to, *pick) {
        Some(Refusal::Exhausted) => true,
        _ => false,
    }
}

/// Tells whether a client is to begin a request but has no number left for it.
fn has_no_number(client: &Client, pick: &Pick) -> bool
    ensures { (log : List Entry) (to : AnActor) → StandsForClient client.now log
        → is_none (post_of client.now.shape log (ClientNumber client.now.me) to pick.now) ≡ false
        → result ≡ is_exhausted client.now.shape log (ClientNumber client.now.me) to pick.now }
{
    match pick {
        Pick::Begin(op) => client.first_ask(*op).is_none(),
        Pick::Plain | Pick::From(_) => false,
    }
}

/// Returns the loyal replica with this number. Requires that the shape has it, and that it is no traitor.
pub fn loyal_of(stage: &Stage, number: ReplicaId) -> &Replica
    requires { IsLoyal stage.now.shape (ReplicaNumber number) }
    ensures { PlaysReplica stage.now.shape number (log_of stage.now.run (ReplicaNumber number)) result.now }
{
    match stage.replica(number) {
        Ok(loyal) => loyal,
        Err(_) => unreachable!(),
    }
}

/// Returns the client with this number. Requires that the shape has it.
pub fn client_of(stage: &Stage, number: ClientId) -> &Client
    requires { number < stage.now.shape.m }
    ensures stands { StandsForClient result.now (log_of stage.now.run (ClientNumber number)) }
    ensures me { result.now.me ≡ number }
    ensures shape { result.now.shape ≡ stage.now.shape }
{
    match stage.client(number) {
        Ok(client) => client,
        Err(_) => unreachable!(),
    }
}

/// Returns the first of these two that is not an actor of the shape; `None` if both are actors.
fn outsider(shape: &Shape, one: &Actor, other: &Actor) -> Option<Actor>
    ensures some { IfSome result (IsOutsider shape.now one.now other.now) }
    ensures refused { IfSome result (λ actor. (is_actor shape.now one.now && is_actor shape.now other.now) ≡ false) }
    ensures none { IfNone result ((is_actor shape.now one.now && is_actor shape.now other.now) ≡ true) }
    ensures one { IfNone result (IsActor shape.now one.now) }
    ensures other { IfNone result (IsActor shape.now other.now) }
{
    if !is_inside(shape, one) {
        return Some(*one);
    }
    if !is_inside(shape, other) {
        return Some(*other);
    }
    None
}

/// Tells whether this is an actor of the shape.
fn is_inside(shape: &Shape, actor: &Actor) -> bool
    ensures same { result ≡ is_actor shape.now actor.now }
    ensures inside { IsTrue result → IsActor shape.now actor.now }
{
    shape.has(*actor)
}

/// Tells whether the box from one actor to another holds an envelope.
fn is_full(stage: &Stage, from: &Actor, to: &Actor) -> bool
    requires from { IsActor stage.now.shape from.now }
    requires to { IsActor stage.now.shape to.now }
    ensures { result ≡ is_full (log_of stage.now.run) from.now to.now }
{
    stage.in_box(from, to).is_some()
}

/// Tells whether the posts into the box from one actor to another have reached their limit.
fn is_used_up(stage: &Stage, from: &Actor, to: &Actor) -> bool
    requires from { IsActor stage.now.shape from.now }
    requires to { IsActor stage.now.shape to.now }
    ensures { result ≡ is_used_up (log_of stage.now.run) from.now to.now }
{
    stage.posts(from, to) >= NUMBER_END - 1
}

/// An event that has a cause is refused, with the refusal of that cause.
pub fn causes_refuse()
    ensures { (shape : AShape) (logs : Logs) (event : AnEvent) (cause : ACause) → HoldsCause shape logs event cause
        → IsRefusedBy shape logs event (refusal_by cause) }
{}
