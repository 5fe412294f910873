ghost use Rattle.std.specs.Prelude.{◌≡◌, ◌<◌, ◌∷◌, ◌++◌, [], List, OnOk, IsOkUnless};
ghost use Rattle.dsr_names.specs.Shape.{Shape as AShape};
ghost use Rattle.dsr_names.specs.declared.actor.Actor.TheVariants.{Replica};
ghost use Rattle.dsr_envelope.specs.declared.pick.Pick.TheVariants.{Plain};
ghost use Rattle.dsr_play.specs.declared.event.Event.{Event as AnEvent};
ghost use Rattle.dsr_play.specs.declared.event.Event.TheVariants.{Post, Plant, Take};
ghost use Rattle.dsr_play.specs.PlayText.{events_of, posts_by, takes_at, with_each, with_each_loyal};
ghost use Rattle.dsr_play.specs.TakenEvents.{TakesMore};

use crate::choice::Choice;
use crate::event::Event;
use crate::play_line::PlayLine;
use dsr_names::{Actor, Refusal, ReplicaId, Shape};
use dsr_script::Draft;
use std::alloc::Global;

/// What takes events, one after another.
pub trait TakesEvents {
    // the shape of the world in which the events happen
    ghost shape: { Self → AShape };

    // these events were taken, in this order
    ghost took: { Self → List AnEvent → Type 0 };

    /// Takes one more event. `NoMemory` if memory runs out.
    fn take_event(&mut self, alloc: Global, event: Event) -> Result<(), Refusal>
        ensures took { OnOk result (TakesMore took self.old self.new (event ∷ [])) }
        ensures shape { shape self.new ≡ shape self.old }
        ensures refusal { IsOkUnless result Refusal.NoMemory };
}

impl PlayLine {
    /// Gives the events that the line represents in a world of this shape, in order. `NoMemory` if memory runs out: then some of them
    /// may have been taken.
    pub fn give_events<T: TakesEvents>(
        self,
        alloc: Global,
        shape: &Shape,
        taker: &mut T,
    ) -> Result<(), Refusal>
        ensures took { OnOk result (TakesMore T.took taker.old taker.new (events_of shape.now self)) }
        ensures shape { T.shape taker.new ≡ T.shape taker.old }
        ensures refusal { IsOkUnless result Refusal.NoMemory }
    {
        match self {
            PlayLine::One(event) => taker.take_event(alloc, event),
            PlayLine::Posts { by, pick } => {
                give_posts(alloc, shape, &Actor::Replica(by), pick, taker)
            }
            PlayLine::PostsAll => give_all_posts(alloc, shape, taker),
            PlayLine::Plants { by, draft } => {
                give_plants(alloc, shape, &Actor::Replica(by), &draft, taker)
            }
            PlayLine::Takes { at } => give_takes(alloc, shape, &at, taker),
            PlayLine::TakesAll => give_all_takes(alloc, shape, taker),
            PlayLine::Asks { by, pick } => {
                give_posts(alloc, shape, &Actor::Client(by), pick, taker)
            }
            PlayLine::Hears { from } => give_hears(alloc, shape, &Actor::Client(from), taker),
            PlayLine::Replies { to } => give_replies(alloc, shape, &Actor::Client(to), taker),
        }
    }
}

/// Returns the replica with this number. Requires that it is below 16.
fn replica_of(number: u8) -> Actor
    requires { number < 16 }
    ensures { result ≡ Replica number }
{
    match ReplicaId::new(number) {
        Ok(replica) => Actor::Replica(replica),
        Err(_) => Actor::Replica(ReplicaId::FIRST),
    }
}

/// Gives the actor's posts to each replica, the first with this choice and the others with the plain one.
fn give_posts<T: TakesEvents>(
    alloc: Global,
    shape: &Shape,
    by: &Actor,
    mut pick: Choice,
    taker: &mut T,
) -> Result<(), Refusal>
    ensures took { OnOk result (TakesMore T.took taker.old taker.new (posts_by shape.now by.now pick)) }
    ensures shape { T.shape taker.new ≡ T.shape taker.old }
    ensures refusal { IsOkUnless result Refusal.NoMemory }
{
    for number in 0..shape.n() {
        let event = Event::Post {
            from: *by,
            to: replica_of(number),
            pick: pick.take(),
        };
        taker.take_event(alloc, event)?;
    }
    Ok(())
}

/// Gives the posts of each loyal replica to each replica.
fn give_all_posts<T: TakesEvents>(
    alloc: Global,
    shape: &Shape,
    taker: &mut T,
) -> Result<(), Refusal>
    ensures took { OnOk result (TakesMore T.took taker.old taker.new (with_each_loyal shape.now (λ p. posts_by shape.now (Replica p) Plain))) }
    ensures shape { T.shape taker.new ≡ T.shape taker.old }
    ensures refusal { IsOkUnless result Refusal.NoMemory }
{
    for number in 0..shape.n() {
        if shape.is_loyal(replica_of(number)) {
            give_posts(alloc, shape, &replica_of(number), Choice::plain(), taker)?;
        }
    }
    Ok(())
}

/// Gives the actor's plants: the draft, for each replica.
fn give_plants<T: TakesEvents>(
    alloc: Global,
    shape: &Shape,
    from: &Actor,
    draft: &Draft,
    taker: &mut T,
) -> Result<(), Refusal>
    ensures took { OnOk result (TakesMore T.took taker.old taker.new (with_each shape.now.n (λ q. Plant from.now (Replica q) draft.now ∷ []))) }
    ensures shape { T.shape taker.new ≡ T.shape taker.old }
    ensures refusal { IsOkUnless result Refusal.NoMemory }
{
    for number in 0..shape.n() {
        let event = Event::Plant {
            from: *from,
            to: replica_of(number),
            draft: draft.try_copy()?,
        };
        taker.take_event(alloc, event)?;
    }
    Ok(())
}

/// Gives the actor's takes from each replica.
fn give_takes<T: TakesEvents>(
    alloc: Global,
    shape: &Shape,
    at: &Actor,
    taker: &mut T,
) -> Result<(), Refusal>
    ensures took { OnOk result (TakesMore T.took taker.old taker.new (takes_at shape.now at.now)) }
    ensures shape { T.shape taker.new ≡ T.shape taker.old }
    ensures refusal { IsOkUnless result Refusal.NoMemory }
{
    for number in 0..shape.n() {
        let from = replica_of(number);
        taker.take_event(alloc, Event::Take { at: *at, from })?;
    }
    Ok(())
}

/// Gives the takes of each replica from each replica.
fn give_all_takes<T: TakesEvents>(
    alloc: Global,
    shape: &Shape,
    taker: &mut T,
) -> Result<(), Refusal>
    ensures took { OnOk result (TakesMore T.took taker.old taker.new (with_each shape.now.n (λ p. takes_at shape.now (Replica p)))) }
    ensures shape { T.shape taker.new ≡ T.shape taker.old }
    ensures refusal { IsOkUnless result Refusal.NoMemory }
{
    for number in 0..shape.n() {
        give_takes(alloc, shape, &replica_of(number), taker)?;
    }
    Ok(())
}

/// Gives the takes of each replica from the actor.
fn give_hears<T: TakesEvents>(
    alloc: Global,
    shape: &Shape,
    from: &Actor,
    taker: &mut T,
) -> Result<(), Refusal>
    ensures took { OnOk result (TakesMore T.took taker.old taker.new (with_each shape.now.n (λ q. Take (Replica q) from.now ∷ []))) }
    ensures shape { T.shape taker.new ≡ T.shape taker.old }
    ensures refusal { IsOkUnless result Refusal.NoMemory }
{
    for number in 0..shape.n() {
        let at = replica_of(number);
        taker.take_event(alloc, Event::Take { at, from: *from })?;
    }
    Ok(())
}

/// Gives the posts of each loyal replica to the actor.
fn give_replies<T: TakesEvents>(
    alloc: Global,
    shape: &Shape,
    to: &Actor,
    taker: &mut T,
) -> Result<(), Refusal>
    ensures took { OnOk result (TakesMore T.took taker.old taker.new (with_each_loyal shape.now (λ p. Post (Replica p) to.now Plain ∷ []))) }
    ensures shape { T.shape taker.new ≡ T.shape taker.old }
    ensures refusal { IsOkUnless result Refusal.NoMemory }
{
    for number in 0..shape.n() {
        if shape.is_loyal(replica_of(number)) {
            let event = Event::Post {
                from: replica_of(number),
                to: *to,
                pick: Choice::plain(),
            };
            taker.take_event(alloc, event)?;
        }
    }
    Ok(())
}
