//! The host of a traitor, which posts by a script.

use crate::gates::Counting;
use crate::office::Office;
use crate::told::log_text;
use dsr_names::{Actor, Refusal, ReplicaId, Shape};
use dsr_request::{Name, Op};
use dsr_script::Script;
use std::alloc::Global;
use std::process::Abort;
use std::test::Fail;

/// A script with a draft for r0 that would be forged, one for r1 with the client's signature, and one for the client.
const SCRIPT: &str = "dsr-serve 1 3 1 1 r2\n\
    script r2 0 r0 round 0 2/idle/r1\n\
    script r2 0 r1 round 0 2/c0#1:write:a:7~c0/r2\n\
    script r2 0 c0 reply 1 0 held 9\n";

/// What the traitor does in its first round by this script.
const DONE: &str = "take c0 ask c0#1:write:a:7~c0\n\
    post r0 empty\n\
    post r1 round 0 2/c0#1:write:a:7~c0/r2\n\
    post r2 empty\n\
    post c0 reply 1 0 held 9\n\
    take r0 round 0 0/idle/r0\n\
    take r1 empty\n\
    take r2 empty\n";

/// Has the loyal replica make its due posts to all three replicas.
fn post_all<R: Abort>(rt: &R, alloc: Global, office: &mut Office, replica: &ReplicaId) {
    for number in 0..3 {
        let to = Actor::Replica(ReplicaId::of(number));
        assert_eq!(rt; office.post(alloc, replica, &to), Ok(()));
    }
}

/// Opens a mail of the traitor, two loyal replicas, which have posted in round 0, and a client, which has asked all three: each of its posts takes a
/// turn, and so does each take between them.
fn asked<R: Abort>(rt: &R, alloc: Global) -> Result<Office, Fail> {
    let mut office = Office::open(alloc, Shape::new(3, 1, 1, 0b100)?)?;
    post_all(rt, alloc, &mut office, &ReplicaId::FIRST);
    post_all(rt, alloc, &mut office, &ReplicaId::of(1));
    let name = Name::read(b"a")?;
    let op = Op::Write { name, value: 7 };
    assert_eq!(rt; office.ask(alloc, &op, 5), Err(Refusal::Unanswered));
    Ok(office)
}

#[test]
fn a_traitor_takes_what_a_client_posted_and_sends_it_on(rt: HostRuntime) -> Result<(), Fail> {
    let traitor = Actor::Replica(ReplicaId::of(2));
    let script = Script::read(rt.alloc(), SCRIPT.as_bytes())?;
    let mut office = asked(&rt, rt.alloc())?;
    let gate = Counting::new();
    let ran = office.run_traitor(&rt, rt.alloc(), &traitor, &script, &gate, 1);
    assert_eq!(rt; ran, Ok(()));
    // a take from the client, the forged draft, four posts and three takes
    assert_eq!(rt; gate.turns(&traitor), 9);
    assert!(rt; !gate.is_amiss());
    let logs = office.close();
    let told = log_text(rt.alloc(), &logs, &traitor)?;
    assert_eq!(rt; told.as_str(), DONE);
    Ok(())
}
