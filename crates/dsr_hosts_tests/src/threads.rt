//! Services in threads. An actor that cannot go on since memory was refused may end the service in another way, so these tests have ample memory.

use crate::gates::{Meeting, Open, Sleeping, TURNS_BEFORE_SLEEP, Until};
use crate::told::entries;
use dsr_envelope::Entry;
use dsr_hosts::serve;
use dsr_mail::Logs;
use dsr_names::{Actor, ClientId, Refusal, ReplicaId};
use dsr_rounds::Gate;
use dsr_script::Script;
use std::alloc::Global;
use std::process::Abort;
use std::sync::Wait;
use std::test::Fail;
use std::thread::Threads;

/// The number of rounds of each host of a replica or a traitor.
const ROUNDS: u64 = 4_096;

/// A service's logs, and the cause if it failed.
#[derive(Drop)]
struct Outcome {
    logs: Logs,
    cause: Option<Refusal>,
}

/// Serves the script of this text through the gate.
fn serve_text<R: Threads + Wait + Sync, G: Gate + Sync>(
    rt: &R,
    alloc: Global,
    script: &str,
    gate: &G,
) -> Result<Outcome, Refusal> {
    let script = Script::read(alloc, script.as_bytes())?;
    match serve(rt, alloc, &script, gate) {
        Ok(logs) => Ok(Outcome { logs, cause: None }),
        Err(fault) => Ok(Outcome {
            logs: fault.logs,
            cause: Some(fault.cause),
        }),
    }
}

/// Checks that each replica, also the traitor, took at least one turn for each entry of its log, and the client one for each of its two
/// operations.
fn had_turns<R: Abort>(rt: &R, logs: &Logs, gate: &Meeting) {
    for number in 0..3 {
        let replica = Actor::Replica(ReplicaId::of(number));
        let done = entries(logs, &replica).len() as u64;
        assert!(rt; done > 0);
        assert!(rt; gate.counting.turns(&replica) >= done);
    }
    assert!(rt; gate.counting.turns(&Actor::Client(ClientId::FIRST)) >= 2);
}

#[test]
fn two_hosts_run_at_once_and_count_their_turns_from_0(rt: HostRuntime) -> Result<(), Fail> {
    let script = "dsr-serve 1 3 1 1 r2\nask c0 write a 5\nask c0 read a\n";
    let gate = Meeting::new();
    let outcome = serve_text(&rt, rt.alloc(), script, &gate)?;
    assert_eq!(rt; outcome.cause, None);
    assert!(rt; gate.both_met());
    assert!(rt; !gate.counting.is_amiss());
    had_turns(&rt, &outcome.logs, &gate);
    Ok(())
}

/// Returns the script of a service with a traitor, and with one operation more than there are rounds. Each operation of one client needs a slot,
/// and a round begins one slot, so they are never all served.
fn too_many(alloc: Global) -> Result<String, Refusal> {
    let mut text = String::new(alloc);
    text.push_str("dsr-serve 1 3 1 1 r2\n")?;
    for _ in 0..ROUNDS + 1 {
        text.push_str("ask c0 read a\n")?;
    }
    Ok(text)
}

/// Returns the number of posts to the first replica among these entries.
fn posts_to_first(entries: &[Entry]) -> u64 {
    let mut count: u64 = 0;
    for entry in entries {
        if let Entry::Post { to, .. } = entry {
            if *to == Actor::Replica(ReplicaId::FIRST) {
                count = count.saturating_add(1);
            }
        }
    }
    count
}

#[test]
fn all_hosts_make_4096_rounds(rt: HostRuntime) -> Result<(), Fail> {
    let script = too_many(rt.alloc())?;
    let outcome = serve_text(&rt, rt.alloc(), script.as_str(), &Open)?;
    assert_eq!(rt; outcome.cause, Some(Refusal::Unanswered));
    for number in 0..3 {
        let replica = Actor::Replica(ReplicaId::of(number));
        let posts = posts_to_first(entries(&outcome.logs, &replica));
        assert_eq!(rt; posts, ROUNDS);
    }
    Ok(())
}

#[test]
fn one_stopped_replica_stops_a_service(rt: HostRuntime) -> Result<(), Fail> {
    // r1 posts to all replicas in its turns 1, 2 and 3, but takes from each of them at most once: so no slot is closed
    let actor = Actor::Replica(ReplicaId::of(1));
    let script = "dsr-serve 1 3 1 1 -\nask c0 write a 5\n";
    let outcome = serve_text(&rt, rt.alloc(), script, &Until { actor, turns: 7 })?;
    assert_eq!(rt; outcome.cause, Some(Refusal::Stopped));
    assert_eq!(rt; outcome.logs.history().len(), 0);
    Ok(())
}

#[test]
fn a_stopped_traitor_wakes_who_sleeps(rt: HostRuntime) -> Result<(), Fail> {
    // r1 never posts to r0, so nothing but the host of r1 ends the sleep of r0
    let script = "dsr-serve 1 3 1 1 r1\nask c0 write a 5\n";
    let gate = Sleeping::new();
    let outcome = serve_text(&rt, rt.alloc(), script, &gate)?;
    assert_eq!(rt; outcome.cause, Some(Refusal::Stopped));
    assert!(rt; gate.turns() >= TURNS_BEFORE_SLEEP);
    // a wait may end early, but not again and again
    assert!(rt; gate.turns() < TURNS_BEFORE_SLEEP + 10);
    Ok(())
}
