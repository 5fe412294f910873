//! A poster stopped between its claim and its publish, and a taker stopped between its fetch and its release: each leaves one box as it
//! is, and every other box works.
//!
//! The tests use 13 of the 25 boxes between three replicas and two clients, among them the stopped one. They only claim the other 12 (at a claim, a
//! box that is not empty stops its poster) and post nothing there. Two of these are from a client to itself, which never posts there. Six are from
//! clients to replicas, and four from loyal replicas to clients: asks are signed and replies need a decision, so the tests of seats, in
//! `dsr_hosts_tests`, post those.

ghost use Rattle.std.specs.Prelude.{◌≡◌, ◌⊎◌, ◌<◌, IfOk, OnOk, OnErr, [], ◌∷◌, length};
ghost use Rattle.dsr_names.specs.Shape.{shape_of, IsActor};
ghost use Rattle.dsr_names.specs.declared.actor.Actor.TheVariants.{Replica, Client};
ghost use Rattle.dsr_envelope.specs.declared.envelope.Envelope.{Envelope as AnEnvelope};
ghost use Rattle.dsr_envelope.specs.declared.envelope.Envelope.TheVariants.{Empty, Seen};
ghost use Rattle.dsr_envelope.specs.declared.entry.Entry.TheVariants.{Post, Take};
ghost use Rattle.dsr_run.specs.OwnStep.{MayPost};
ghost use Rattle.dsr_base.specs.Growth.{Extends};
ghost use Rattle.dsr_run.specs.Step.{log_of};
ghost use Rattle.dsr_boxes.specs.Moment.{IsMomentOf};
ghost use Rattle.dsr_boxes.specs.Pass.{IsPassOf, MayTake, new_pass, with_entry};

use dsr_boxes::{BoxState, Moment, Parcel, Pass, SharedBoxes};
use dsr_envelope::Envelope;
use dsr_names::{Actor, ClientId, Refusal, ReplicaId, Shape};
use std::alloc::Global;
use std::process::Abort;
use std::test::Fail;

/// How often the tests try a call that must not succeed.
const TRIES: u32 = 1_000;

/// Boxes between three replicas (the first is a traitor) and two clients, and the passes of all five.
#[derive(Drop)]
struct Small {
    boxes: SharedBoxes,
    traitor: Pass,
    one: Pass,
    two: Pass,
    first: Pass,
    second: Pass,
}

fn open_small(alloc: Global) -> Result<Small, Fail>
    ensures shape { IfOk result (λ small. small.boxes.shape ≡ shape_of 3 1 2 1) }
    ensures traitor { IfOk result (λ small. small.traitor ≡ new_pass small.boxes (Replica 0)) }
    ensures one { IfOk result (λ small. small.one ≡ new_pass small.boxes (Replica 1)) }
    ensures two { IfOk result (λ small. small.two ≡ new_pass small.boxes (Replica 2)) }
    ensures first { IfOk result (λ small. small.first ≡ new_pass small.boxes (Client 0)) }
    ensures second { IfOk result (λ small. small.second ≡ new_pass small.boxes (Client 1)) }
{
    let shape = Shape::new(3, 1, 2, 0b001)?;
    let (boxes, mut passes) = SharedBoxes::open(alloc, shape)?;
    let Some(second) = passes.pop() else {
        unreachable!()
    };
    let Some(first) = passes.pop() else {
        unreachable!()
    };
    let Some(two) = passes.pop() else {
        unreachable!()
    };
    let Some(one) = passes.pop() else {
        unreachable!()
    };
    let Some(traitor) = passes.pop() else {
        unreachable!()
    };
    Ok(Small {
        boxes,
        traitor,
        one,
        two,
        first,
        second,
    })
}

fn replica(number: u8) -> Actor
    requires { number < 16 }
    ensures { result ≡ Replica number }
{
    Actor::Replica(ReplicaId::of(number))
}

fn client(number: u8) -> Actor
    requires { number < 32 }
    ensures { result ≡ Client number }
{
    Actor::Client(ClientId::of(number))
}

/// Posts the empty envelope. Fails if the box is not empty.
fn post_empty(
    alloc: Global,
    boxes: &SharedBoxes,
    poster: &mut Pass,
    to: &Actor,
) -> Result<(), Refusal>
    requires boxes { IsPassOf boxes.now poster.old }
    requires to { IsActor poster.old.shape to.now }
    requires conduct { MayPost poster.old.shape poster.old.actor poster.old.log to.now Empty }
    requires few { length poster.old.log < 1000 }
    ensures posted { OnOk result (poster.new ≡ with_entry poster.old (Post to.now Empty)) }
    ensures same { OnErr result (poster.new ≡ poster.old) }
{
    let (parcel, own) = Parcel::of(alloc, Envelope::Empty)?;
    drop(own);
    poster.post(boxes, to, parcel)?;
    Ok(())
}

/// Takes what is in a box. Fails if the box holds nothing.
fn take(boxes: &SharedBoxes, taker: &mut Pass, from: &Actor) -> Result<(), Fail>
    requires boxes { IsPassOf boxes.now taker.old }
    requires from { IsActor taker.old.shape from.now }
    requires conduct { MayTake taker.old.shape taker.old.actor taker.old.log from.now }
    ensures taken { OnOk result ((x : AnEnvelope) × (taker.new ≡ with_entry taker.old (Take from.now x))) }
{
    match taker.take(boxes, from) {
        Some(_) => Ok(()),
        None => Err("there is nothing in the box")?,
    }
}

/// Has the traitor post the empty envelope. Fails if the box is not empty.
fn plant(alloc: Global, boxes: &SharedBoxes, traitor: &mut Pass, to: &Actor) -> Result<(), Refusal>
    requires boxes { IsPassOf boxes.now traitor.old }
    requires shape { traitor.old.shape ≡ shape_of 3 1 2 1 }
    requires traitor { traitor.old.actor ≡ Replica 0 }
    requires to { IsActor traitor.old.shape to.now }
    requires few { length traitor.old.log < 1000 }
    ensures posted { OnOk result (traitor.new ≡ with_entry traitor.old (Post to.now Empty)) }
    ensures same { OnErr result (traitor.new ≡ traitor.old) }
{
    post_empty(alloc, boxes, traitor, to)
}

/// Has the traitor post to each replica.
fn plant_round(alloc: Global, boxes: &SharedBoxes, traitor: &mut Pass) -> Result<(), Fail>
    requires boxes { IsPassOf boxes.now traitor.old }
    requires shape { traitor.old.shape ≡ shape_of 3 1 2 1 }
    requires traitor { traitor.old.actor ≡ Replica 0 }
    requires few { length traitor.old.log < 100 }
    ensures posted { OnOk result (traitor.new ≡ record traitor.old {
      log = Post (Replica 2) Empty ∷ Post (Replica 1) Empty ∷ Post (Replica 0) Empty ∷ traitor.old.log;
    }) }
{
    plant(alloc, boxes, traitor, &replica(0))?;
    plant(alloc, boxes, traitor, &replica(1))?;
    plant(alloc, boxes, traitor, &replica(2))?;
    Ok(())
}

/// Has the traitor take from each replica.
fn take_round(boxes: &SharedBoxes, traitor: &mut Pass) -> Result<(), Fail>
    requires boxes { IsPassOf boxes.now traitor.old }
    requires shape { traitor.old.shape ≡ shape_of 3 1 2 1 }
    requires traitor { traitor.old.actor ≡ Replica 0 }
    ensures taken { OnOk result ((x y z : AnEnvelope) × (traitor.new ≡ record traitor.old {
      log = Take (Replica 2) z ∷ Take (Replica 1) y ∷ Take (Replica 0) x ∷ traitor.old.log;
    })) }
{
    take(boxes, traitor, &replica(0))?;
    take(boxes, traitor, &replica(1))?;
    take(boxes, traitor, &replica(2))?;
    Ok(())
}

/// Has the traitor try to post into a box that is not empty, again and again. Fails if a try succeeds.
fn plant_nothing(
    alloc: Global,
    boxes: &SharedBoxes,
    traitor: &mut Pass,
    to: &Actor,
) -> Result<(), Fail>
    requires boxes { IsPassOf boxes.now traitor.old }
    requires shape { traitor.old.shape ≡ shape_of 3 1 2 1 }
    requires traitor { traitor.old.actor ≡ Replica 0 }
    requires to { IsActor traitor.old.shape to.now }
    requires few { length traitor.old.log < 1000 }
    ensures same { OnOk result (traitor.new ≡ traitor.old) }
{
    for _ in 0..TRIES {
        if plant(alloc, boxes, traitor, to).is_ok() {
            return Err("a post into a box that is not empty")?;
        }
    }
    Ok(())
}

/// Tries to take what is not there, again and again. Fails if a try succeeds.
fn take_nothing(boxes: &SharedBoxes, taker: &mut Pass, from: &Actor) -> Result<(), Fail>
    requires boxes { IsPassOf boxes.now taker.old }
    requires from { IsActor taker.old.shape from.now }
    requires conduct { MayTake taker.old.shape taker.old.actor taker.old.log from.now }
    ensures same { OnOk result (taker.new ≡ taker.old) }
{
    for _ in 0..TRIES {
        if taker.take(boxes, from).is_some() {
            return Err("a take of what is not there")?;
        }
    }
    Ok(())
}

/// Has a loyal replica that has done nothing yet post to each replica: the empty envelope, since the traitor is the sender of slot 0.
fn begin_round(alloc: Global, boxes: &SharedBoxes, loyal: &mut Pass) -> Result<(), Fail>
    requires boxes { IsPassOf boxes.now loyal.old }
    requires shape { loyal.old.shape ≡ shape_of 3 1 2 1 }
    requires loyal { (loyal.old.actor ≡ Replica 1) ⊎ (loyal.old.actor ≡ Replica 2) }
    requires none { loyal.old.log ≡ [] }
    ensures posted { OnOk result (loyal.new ≡ record loyal.old {
      log = Post (Replica 2) Empty ∷ Post (Replica 1) Empty ∷ Post (Replica 0) Empty ∷ [];
    }) }
{
    post_empty(alloc, boxes, loyal, &replica(0))?;
    post_empty(alloc, boxes, loyal, &replica(1))?;
    post_empty(alloc, boxes, loyal, &replica(2))?;
    Ok(())
}

/// Has it take from each replica.
fn end_round(boxes: &SharedBoxes, loyal: &mut Pass) -> Result<(), Fail>
    requires boxes { IsPassOf boxes.now loyal.old }
    requires shape { loyal.old.shape ≡ shape_of 3 1 2 1 }
    requires loyal { (loyal.old.actor ≡ Replica 1) ⊎ (loyal.old.actor ≡ Replica 2) }
    requires begun { loyal.old.log ≡ Post (Replica 2) Empty ∷ Post (Replica 1) Empty ∷ Post (Replica 0) Empty ∷ [] }
{
    take(boxes, loyal, &replica(0))?;
    take(boxes, loyal, &replica(1))?;
    take(boxes, loyal, &replica(2))?;
    Ok(())
}

/// Has both loyal replicas make round 0, for which the traitor has posted. Fails if one of their boxes does not work.
fn make_round(
    alloc: Global,
    boxes: &SharedBoxes,
    one: &mut Pass,
    two: &mut Pass,
) -> Result<(), Fail>
    requires shape { boxes.now.shape ≡ shape_of 3 1 2 1 }
    requires one { one.old ≡ new_pass boxes.now (Replica 1) }
    requires two { two.old ≡ new_pass boxes.now (Replica 2) }
{
    begin_round(alloc, boxes, one)?;
    begin_round(alloc, boxes, two)?;
    end_round(boxes, one)?;
    end_round(boxes, two)?;
    Ok(())
}

/// Has a client that has done nothing yet tell the other one its front, which is 0. Fails if the box is not empty.
fn tell(alloc: Global, boxes: &SharedBoxes, teller: &mut Pass, to: &Actor) -> Result<(), Fail>
    requires boxes { IsPassOf boxes.now teller.old }
    requires shape { teller.old.shape ≡ shape_of 3 1 2 1 }
    requires clients { ((teller.old.actor ≡ Client 0) × (to.now ≡ Client 1)) ⊎ ((teller.old.actor ≡ Client 1) × (to.now ≡ Client 0)) }
    requires none { teller.old.log ≡ [] }
    ensures posted { OnOk result (teller.new ≡ with_entry teller.old (Post to.now (Seen 0))) }
{
    let (parcel, own) = Parcel::of(alloc, Envelope::Seen(0))?;
    drop(own);
    teller.post(boxes, to, parcel)?;
    Ok(())
}

/// Has the traitor stop after the claim of its box to the second client, and the others claim theirs to this actor.
fn claim_beside_a_poster<R: Abort>(rt: &R, alloc: Global, to: &Actor) -> Result<(), Fail>
    requires to { IsActor (shape_of 3 1 2 1) to.now }
{
    let Small {
        boxes,
        traitor,
        one,
        two,
        first,
        second,
    } = open_small(alloc)?;
    assert!(rt; traitor.claim_and_stop(&boxes, &client(1)));
    assert!(rt; one.claim_and_stop(&boxes, to));
    assert!(rt; two.claim_and_stop(&boxes, to));
    assert!(rt; first.claim_and_stop(&boxes, to));
    assert!(rt; second.claim_and_stop(&boxes, to));
    Ok(())
}

/// Has the first client stop after its fetch from the traitor, and the others claim theirs to this actor. The traitor alone cannot claim its own to
/// the client.
fn claim_beside_a_taker<R: Abort>(rt: &R, alloc: Global, to: &Actor) -> Result<(), Fail>
    requires to { IsActor (shape_of 3 1 2 1) to.now }
{
    let Small {
        boxes,
        mut traitor,
        one,
        two,
        first,
        second,
    } = open_small(alloc)?;
    plant(alloc, &boxes, &mut traitor, &client(0))?;
    assert!(rt; first.fetch_and_stop(&boxes, &replica(0)));
    assert_eq!(rt; traitor.claim_and_stop(&boxes, to), *to != client(0));
    assert!(rt; one.claim_and_stop(&boxes, to));
    assert!(rt; two.claim_and_stop(&boxes, to));
    assert!(rt; second.claim_and_stop(&boxes, to));
    Ok(())
}

#[test]
fn beside_a_stopped_poster_each_other_box_can_be_claimed(rt: HostRuntime) -> Result<(), Fail> {
    claim_beside_a_poster(&rt, rt.alloc(), &replica(0))?;
    claim_beside_a_poster(&rt, rt.alloc(), &replica(1))?;
    claim_beside_a_poster(&rt, rt.alloc(), &replica(2))?;
    claim_beside_a_poster(&rt, rt.alloc(), &client(0))?;
    claim_beside_a_poster(&rt, rt.alloc(), &client(1))
}

#[test]
fn beside_a_stopped_taker_each_other_box_can_be_claimed(rt: HostRuntime) -> Result<(), Fail> {
    claim_beside_a_taker(&rt, rt.alloc(), &replica(0))?;
    claim_beside_a_taker(&rt, rt.alloc(), &replica(1))?;
    claim_beside_a_taker(&rt, rt.alloc(), &replica(2))?;
    claim_beside_a_taker(&rt, rt.alloc(), &client(0))?;
    claim_beside_a_taker(&rt, rt.alloc(), &client(1))
}

/// Has the loyal replicas and the clients use the boxes that a stopped poster leaves to them: it posted to each replica and to the first client, and
/// then claimed the box to the second. Fails if a box does not work, or if the second client can take from the box that was only claimed.
fn work_beside_a_poster(
    alloc: Global,
    boxes: &SharedBoxes,
    one: &mut Pass,
    two: &mut Pass,
    first: &mut Pass,
    second: &mut Pass,
) -> Result<(), Fail>
    requires shape { boxes.now.shape ≡ shape_of 3 1 2 1 }
    requires one { one.old ≡ new_pass boxes.now (Replica 1) }
    requires two { two.old ≡ new_pass boxes.now (Replica 2) }
    requires first { first.old ≡ new_pass boxes.now (Client 0) }
    requires second { second.old ≡ new_pass boxes.now (Client 1) }
{
    take_nothing(boxes, second, &replica(0))?;
    make_round(alloc, boxes, one, two)?;
    tell(alloc, boxes, first, &client(1))?;
    tell(alloc, boxes, second, &client(0))?;
    take(boxes, first, &replica(0))?;
    take(boxes, first, &client(1))?;
    take(boxes, second, &client(0))?;
    take_nothing(boxes, second, &replica(0))
}

/// Has the traitor post to each replica and to the first client.
fn plant_for_later(alloc: Global, boxes: &SharedBoxes, traitor: &mut Pass) -> Result<(), Fail>
    requires boxes { IsPassOf boxes.now traitor.old }
    requires shape { traitor.old.shape ≡ shape_of 3 1 2 1 }
    requires traitor { traitor.old.actor ≡ Replica 0 }
    requires few { length traitor.old.log < 100 }
    ensures pass { OnOk result (IsPassOf boxes.now traitor.new) }
{
    plant_round(alloc, boxes, traitor)?;
    plant(alloc, boxes, traitor, &client(0))?;
    Ok(())
}

/// Fails unless the box from the traitor to this actor looks like this.
fn looks_so(boxes: &SharedBoxes, to: &Actor, wanted: &BoxState) -> Result<(), Fail>
    requires shape { boxes.now.shape ≡ shape_of 3 1 2 1 }
    requires to { IsActor (shape_of 3 1 2 1) to.now }
{
    let (state, _moment) = boxes.look_at(&replica(0), to);
    match (&state, wanted) {
        (BoxState::Empty, BoxState::Empty)
        | (BoxState::BeingFilled, BoxState::BeingFilled)
        | (BoxState::Full, BoxState::Full)
        | (BoxState::BeingEmptied, BoxState::BeingEmptied) => Ok(()),
        _ => Err("a box that looks otherwise")?,
    }
}

#[test]
fn a_poster_stopped_after_its_claim_stops_one_box(rt: HostRuntime) -> Result<(), Fail> {
    let Small {
        boxes,
        mut traitor,
        mut one,
        mut two,
        mut first,
        mut second,
    } = open_small(rt.alloc())?;
    plant_for_later(rt.alloc(), &boxes, &mut traitor)?;
    assert!(rt; traitor.claim_and_stop(&boxes, &client(1)));
    looks_so(&boxes, &client(1), &BoxState::BeingFilled)?;
    // What the traitor posted before it stopped is taken after that.
    work_beside_a_poster(
        rt.alloc(),
        &boxes,
        &mut one,
        &mut two,
        &mut first,
        &mut second,
    )
}

/// Has the others use the boxes that the stopped first client leaves to them: it told the second client its front, and then fetched from the traitor.
/// Fails if a box does not work, or if the traitor can post again into the fetched box.
fn work_beside_a_taker(
    alloc: Global,
    boxes: &SharedBoxes,
    traitor: &mut Pass,
    one: &mut Pass,
    two: &mut Pass,
    second: &mut Pass,
) -> Result<(), Fail>
    requires shape { boxes.now.shape ≡ shape_of 3 1 2 1 }
    requires traitor { traitor.old ≡ with_entry (new_pass boxes.now (Replica 0)) (Post (Client 0) Empty) }
    requires one { one.old ≡ new_pass boxes.now (Replica 1) }
    requires two { two.old ≡ new_pass boxes.now (Replica 2) }
    requires second { second.old ≡ new_pass boxes.now (Client 1) }
{
    plant_nothing(alloc, boxes, traitor, &client(0))?;
    plant_round(alloc, boxes, traitor)?;
    plant(alloc, boxes, traitor, &client(1))?;
    make_round(alloc, boxes, one, two)?;
    take_round(boxes, traitor)?;
    tell(alloc, boxes, second, &client(0))?;
    take(boxes, second, &client(0))?;
    take(boxes, second, &replica(0))?;
    // What was taken leaves an empty box.
    plant_round(alloc, boxes, traitor)?;
    plant_nothing(alloc, boxes, traitor, &client(0))
}

#[test]
fn a_taker_stopped_after_its_fetch_stops_one_box(rt: HostRuntime) -> Result<(), Fail> {
    let Small {
        boxes,
        mut traitor,
        mut one,
        mut two,
        mut first,
        mut second,
    } = open_small(rt.alloc())?;
    plant(rt.alloc(), &boxes, &mut traitor, &client(0))?;
    tell(rt.alloc(), &boxes, &mut first, &client(1))?;
    assert!(rt; first.fetch_and_stop(&boxes, &replica(0)));
    looks_so(&boxes, &client(0), &BoxState::BeingEmptied)?;
    // What the client posted before it stopped is taken after that.
    work_beside_a_taker(
        rt.alloc(),
        &boxes,
        &mut traitor,
        &mut one,
        &mut two,
        &mut second,
    )
}

/// Compares how the box of the traitor to the first client looks at its two ends.
fn looks_full<R: Abort>(rt: &R, boxes: &SharedBoxes, traitor: &Pass, first: &Pass, full: bool)
    requires boxes { IsPassOf boxes.now traitor.now × IsPassOf boxes.now first.now }
    requires shape { (traitor.now.shape ≡ shape_of 3 1 2 1) × (first.now.shape ≡ shape_of 3 1 2 1) }
{
    assert_eq!(rt; traitor.looks_empty(boxes, &client(0)), !full);
    assert_eq!(rt; first.looks_full(boxes, &replica(0)), full);
}

#[test]
fn a_look_tells_what_lies_in_a_box(rt: HostRuntime) -> Result<(), Fail> {
    let Small {
        boxes,
        mut traitor,
        first,
        ..
    } = open_small(rt.alloc())?;
    looks_full(&rt, &boxes, &traitor, &first, false);
    plant(rt.alloc(), &boxes, &mut traitor, &client(0))?;
    looks_full(&rt, &boxes, &traitor, &first, true);
    Ok(())
}

#[test]
fn waits_return_where_there_is_nothing_to_wait_for(rt: HostRuntime) -> Result<(), Fail> {
    let Small {
        boxes,
        mut traitor,
        first,
        second,
        ..
    } = open_small(rt.alloc())?;
    traitor.wait_to(&rt, &boxes, &client(0));
    boxes.wake_all();
    plant(rt.alloc(), &boxes, &mut traitor, &client(0))?;
    first.wait_from(&rt, &boxes, &replica(0));
    second.wait_to(&rt, &boxes, &replica(0));
    boxes.wake_all();
    Ok(())
}

/// Has the first client tell the second one its front, hands the moment after that on to the second, and has this one then tell the first. At that
/// moment the first client has told the second one, which has done nothing.
fn tell_in_order(
    alloc: Global,
    boxes: &SharedBoxes,
    first: &mut Pass,
    second: &mut Pass,
) -> Result<Moment, Fail>
    requires shape { boxes.now.shape ≡ shape_of 3 1 2 1 }
    requires first { first.old ≡ new_pass boxes.now (Client 0) }
    requires second { second.old ≡ new_pass boxes.now (Client 1) }
    ensures boxes { IfOk result (λ moment. IsMomentOf boxes.now moment) }
    ensures first { IfOk result (λ moment. log_of moment.run (Client 0) ≡ Post (Client 1) (Seen 0) ∷ []) }
    ensures second { IfOk result (λ moment. Extends [] (log_of moment.run (Client 1))) }
    ensures told { OnOk result ((first.new ≡ with_entry first.old (Post (Client 1) (Seen 0))) × (second.new ≡ with_entry second.old (Post (Client 0) (Seen 0)))) }
{
    tell(alloc, boxes, first, &client(1))?;
    let mut moment = first.moment(boxes);
    second.recall(boxes, moment.copy(boxes));
    tell(alloc, boxes, second, &client(0))?;
    Ok(moment)
}

/// Has the traitor post to the first client. Fails unless the box looks empty before and full after that.
fn plant_into_an_empty_box(
    alloc: Global,
    boxes: &SharedBoxes,
    traitor: &mut Pass,
) -> Result<(), Fail>
    requires boxes { IsPassOf boxes.now traitor.old }
    requires shape { traitor.old.shape ≡ shape_of 3 1 2 1 }
    requires traitor { traitor.old.actor ≡ Replica 0 }
    requires few { length traitor.old.log < 1000 }
    ensures posted { OnOk result (traitor.new ≡ with_entry traitor.old (Post (Client 0) Empty)) }
{
    looks_so(boxes, &client(0), &BoxState::Empty)?;
    plant(alloc, boxes, traitor, &client(0))?;
    looks_so(boxes, &client(0), &BoxState::Full)
}

#[test]
fn the_last_run_goes_on_from_each_moment(rt: HostRuntime) -> Result<(), Fail> {
    let Small {
        boxes,
        mut traitor,
        one,
        two,
        mut first,
        mut second,
    } = open_small(rt.alloc())?;
    let mut moment = boxes.moment();
    plant_into_an_empty_box(rt.alloc(), &boxes, &mut traitor)?;
    let told = tell_in_order(rt.alloc(), &boxes, &mut first, &mut second)?;
    moment.meet(&boxes, told);
    let mut returned = boxes.none_returned();
    returned.take_back(&boxes, traitor);
    returned.take_back(&boxes, one);
    returned.take_back(&boxes, two);
    returned.take_back(&boxes, first);
    returned.take_back(&boxes, second);
    boxes.close_after(returned, moment);
    Ok(())
}
