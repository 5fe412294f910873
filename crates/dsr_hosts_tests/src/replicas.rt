//! The host of a replica that is alone with a client. In a round it tries to take from the client, posts to itself, takes that, and so decides what it
//! proposed in that round; then it tries to reply, if it owes a reply.

use crate::gates::{Counting, Open, Until};
use crate::office::Office;
use crate::told::log_text;
use dsr_ledger::Reply;
use dsr_names::{Actor, ClientId, Refusal, ReplicaId, Shape};
use dsr_request::{Answer, Name, Op};
use std::alloc::Global;
use std::process::Abort;
use std::sync::Wait;
use std::test::Fail;

/// The replica.
const REPLICA: Actor = Actor::Replica(ReplicaId::FIRST);

/// The client.
const CLIENT: Actor = Actor::Client(ClientId::FIRST);

/// What the replica does in `answers_late`.
const LATE: &str = "take c0 ask c0#1:write:a:7~c0\n\
    post r0 round 0 0/c0#1:write:a:7~c0/r0\n\
    take r0 round 0 0/c0#1:write:a:7~c0/r0\n\
    post c0 reply 1 0 written\n\
    post c0 reply 1 0 written\n\
    take c0 ask c0#2:write:a:7~c0\n\
    post r0 round 1 1/c0#2:write:a:7~c0/r0\n\
    take r0 round 1 1/c0#2:write:a:7~c0/r0\n\
    post r0 round 2 2/idle/r0\n\
    take r0 round 2 2/idle/r0\n\
    post c0 reply 2 1 written\n\
    post r0 round 3 3/idle/r0\n\
    take r0 round 3 3/idle/r0\n";

/// Opens a mail of one replica and one client.
fn one(alloc: Global) -> Result<Office, Refusal> {
    let shape = Shape::new(1, 0, 1, 0)?;
    Office::open(alloc, shape)
}

/// Has the client ask for a write of 7 to `a`.
fn ask<R: Abort>(rt: &R, alloc: Global, office: &mut Office) -> Result<(), Fail> {
    let name = Name::read(b"a")?;
    let op = Op::Write { name, value: 7 };
    assert_eq!(rt; office.ask(alloc, &op, 1), Err(Refusal::Unanswered));
    Ok(())
}

/// Has the replica make a round.
fn run<R: Abort + Wait>(rt: &R, alloc: Global, office: &mut Office) {
    assert_eq!(rt; office.run_replica(rt, alloc, &Open, 1), Ok(()));
}

/// Checks that the client has the reply to its request with this number, at this place of the history.
fn is_answered<R: Abort>(rt: &R, alloc: Global, office: &mut Office, number: u64, place: u64) {
    let reply = Reply {
        number,
        place,
        answer: Answer::Written,
    };
    assert_eq!(rt; office.go_on(alloc, 1), Ok(reply));
}

/// Has the reply to the first request fill the box again while the second request is decided.
fn answers_late<R: Abort + Wait>(rt: &R, alloc: Global, office: &mut Office) -> Result<(), Fail> {
    ask(rt, alloc, office)?;
    run(rt, alloc, office);
    is_answered(rt, alloc, office, 1, 0);
    assert_eq!(rt; office.post(alloc, &ReplicaId::FIRST, &CLIENT), Ok(()));
    ask(rt, alloc, office)?;
    run(rt, alloc, office);
    // what it takes is the reply to its first request
    assert_eq!(rt; office.go_on(alloc, 1), Err(Refusal::Unanswered));
    run(rt, alloc, office);
    is_answered(rt, alloc, office, 2, 1);
    run(rt, alloc, office);
    Ok(())
}

#[test]
fn a_reply_that_found_the_box_full_is_posted_later(rt: HostRuntime) -> Result<(), Fail> {
    let mut office = one(rt.alloc())?;
    answers_late(&rt, rt.alloc(), &mut office)?;
    let logs = office.close();
    let told = log_text(rt.alloc(), &logs, &REPLICA)?;
    assert_eq!(rt; told.as_str(), LATE);
    Ok(())
}

#[test]
fn each_try_has_one_turn_which_each_call_counts_from_0(rt: HostRuntime) -> Result<(), Fail> {
    let mut office = one(rt.alloc())?;
    ask(&rt, rt.alloc(), &mut office)?;
    let gate = Counting::new();
    // each of the five rounds has a take from the client, a post and a take; and the first one the reply
    assert_eq!(rt; office.run_replica(&rt, rt.alloc(), &gate, 5), Ok(()));
    assert_eq!(rt; gate.turns(&REPLICA), 16);
    assert!(rt; !gate.is_amiss());
    // the gate counts on, but the turn is 0 again
    assert_eq!(rt; office.run_replica(&rt, rt.alloc(), &gate, 1), Ok(()));
    assert!(rt; gate.is_amiss());
    Ok(())
}

#[test]
fn a_shut_gate_stops_a_replica_before_its_first_try(rt: HostRuntime) -> Result<(), Fail> {
    let mut office = one(rt.alloc())?;
    ask(&rt, rt.alloc(), &mut office)?;
    let gate = Until {
        actor: REPLICA,
        turns: 0,
    };
    assert_eq!(rt; office.run_replica(&rt, rt.alloc(), &gate, 0), Ok(()));
    let ran = office.run_replica(&rt, rt.alloc(), &gate, 1);
    assert_eq!(rt; ran, Err(Refusal::Stopped));
    let logs = office.close();
    assert_eq!(rt; log_text(rt.alloc(), &logs, &REPLICA)?.as_str(), "");
    Ok(())
}
