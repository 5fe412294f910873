//! The boxes of seats, in one thread: each call succeeds once its box is as the call needs it, and until then it is refused.

use crate::gates::Open;
use crate::office::Office;
use dsr_envelope::Pick;
use dsr_ledger::Reply;
use dsr_names::{Actor, ClientId, Refusal, ReplicaId, Shape};
use dsr_request::{Answer, Name, Op};
use std::alloc::Global;
use std::process::Abort;
use std::test::Fail;

/// The replica.
const REPLICA: Actor = Actor::Replica(ReplicaId::FIRST);

/// The first client.
const CLIENT: Actor = Actor::Client(ClientId::FIRST);

/// The reply to the client's write.
const WRITTEN: Reply = Reply {
    number: 1,
    place: 0,
    answer: Answer::Written,
};

/// Has the client post once more what it asked the replica.
fn ask_once_more(alloc: Global, office: &mut Office) -> Result<(), Refusal> {
    office.client_post(alloc, &ClientId::FIRST, &REPLICA, &Pick::Plain)
}

/// Checks that the client's envelopes lie in its box to the replica until they are taken.
fn asks_lie_in_their_box<R: Abort>(rt: &R, alloc: Global, office: &mut Office) {
    assert!(rt; office.has_mail());
    assert_eq!(rt; ask_once_more(alloc, office), Err(Refusal::BoxFull));
    assert_eq!(rt; office.take(&ReplicaId::FIRST, &CLIENT), Ok(()));
    assert!(rt; !office.has_mail());
    assert_eq!(rt;
        office.take(&ReplicaId::FIRST, &CLIENT),
        Err(Refusal::BoxEmpty)
    );
    assert_eq!(rt; ask_once_more(alloc, office), Ok(()));
}

/// Checks that the replica's replies lie in another box, also while the client's box to the replica is full.
fn replies_lie_in_their_box<R: Abort>(rt: &R, alloc: Global, office: &mut Office) {
    let first = ClientId::FIRST;
    let posted = office.post(alloc, &ReplicaId::FIRST, &CLIENT);
    assert_eq!(rt; posted, Err(Refusal::BoxFull));
    assert_eq!(rt; office.client_take(&first, &REPLICA), Ok(Some(WRITTEN)));
    assert_eq!(rt;
        office.client_take(&first, &REPLICA),
        Err(Refusal::BoxEmpty)
    );
    assert_eq!(rt; office.post(alloc, &ReplicaId::FIRST, &CLIENT), Ok(()));
    assert_eq!(rt; office.client_take(&first, &REPLICA), Ok(None));
    assert_eq!(rt; office.take(&ReplicaId::FIRST, &CLIENT), Ok(()));
}

#[test]
fn a_box_holds_one_envelope(rt: HostRuntime) -> Result<(), Fail> {
    let alloc = rt.alloc();
    let mut office = Office::open(alloc, Shape::new(1, 0, 1, 0)?)?;
    let name = Name::read(b"a")?;
    let op = Op::Write { name, value: 7 };
    assert!(rt; !office.has_mail());
    assert_eq!(rt; office.ask(alloc, &op, 1), Err(Refusal::Unanswered));
    asks_lie_in_their_box(&rt, alloc, &mut office);
    // it takes the second ask, and replies
    assert_eq!(rt; office.run_replica(&rt, alloc, &Open, 1), Ok(()));
    assert_eq!(rt; ask_once_more(alloc, &mut office), Ok(()));
    replies_lie_in_their_box(&rt, alloc, &mut office);
    Ok(())
}

#[test]
fn a_client_tells_another(rt: HostRuntime) -> Result<(), Fail> {
    let alloc = rt.alloc();
    let mut office = Office::open(alloc, Shape::new(1, 0, 2, 0)?)?;
    let (first, second) = (ClientId::FIRST, ClientId::of(1));
    let other = Actor::Client(second);
    assert_eq!(rt;
        office.client_take(&second, &CLIENT),
        Err(Refusal::BoxEmpty)
    );
    assert_eq!(rt; office.tell(alloc, &first, &other), Ok(()));
    assert_eq!(rt; office.tell(alloc, &first, &other), Err(Refusal::BoxFull));
    assert_eq!(rt; office.client_take(&second, &CLIENT), Ok(None));
    assert_eq!(rt; office.tell(alloc, &first, &other), Ok(()));
    Ok(())
}
