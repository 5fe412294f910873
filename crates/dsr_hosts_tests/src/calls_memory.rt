//! The calls of a client, made again after memory runs out. `tests/faults.py allocations` refuses each allocation of these tests in turn, one in each
//! run, and every run must pass: a refused turn leaves the client unchanged, and the repeated call gives the row's reply.

use crate::gates::Open;
use crate::office::Office;
use crate::told::log_text;
use dsr_ledger::Reply;
use dsr_mail::Logs;
use dsr_names::{Actor, ClientId, Refusal, ReplicaId, Shape};
use dsr_request::{Answer, Op};
use std::alloc::Global;
use std::process::Abort;
use std::sync::Wait;
use std::test::Fail;

/// An operation, and the reply to it: its number, its place in the history, and the answer.
type Row = (&'static str, u64, u64, Answer);

/// The client's operations, one after the other. `a` holds nothing at first.
const ROWS: [Row; 6] = [
    ("write a 7", 1, 0, Answer::Written),
    ("read a", 2, 1, Answer::Held(Some(7))),
    ("swap a 7 8", 3, 2, Answer::Swapped),
    ("swap a 7 9", 4, 3, Answer::Kept(Some(8))),
    ("remove a", 5, 4, Answer::Removed(Some(8))),
    ("read a", 6, 5, Answer::Held(None)),
];

/// The log of a client that asks r0 and r1.
const TWO: &str = "post r0 ask c0#1:write:a:7~c0\npost r1 ask c0#1:write:a:7~c0\n";

/// The state of the client that the tests compare: its outstanding request, which of three replicas it asked for that, how many replies it
/// accepted, and its seen front.
#[derive(Clone, Copy, PartialEq, Eq)]
struct Seen {
    outstanding: Option<u64>,
    asked_r0: bool,
    asked_r1: bool,
    asked_r2: bool,
    accepted: usize,
    front: u64,
}

fn look(office: &Office) -> Option<Seen> {
    let seat = office.client()?;
    Some(Seen {
        outstanding: seat.outstanding(),
        asked_r0: seat.asked(ReplicaId::of(0)),
        asked_r1: seat.asked(ReplicaId::of(1)),
        asked_r2: seat.asked(ReplicaId::of(2)),
        accepted: seat.accepted().len(),
        front: seat.seen(),
    })
}

/// Returns the operation that the text encodes.
fn op_of(text: &str) -> Result<Op, Fail> {
    Ok(Op::read(text.as_bytes(), b' ').ok_or("no operation")?)
}

/// Opens a mail of this shape; tries again if memory was refused.
fn open_again(alloc: Global, shape: Shape) -> Result<Office, Refusal> {
    match Office::open(alloc, shape) {
        Err(Refusal::NoMemory) => Office::open(alloc, shape),
        end => end,
    }
}

/// Has the client ask, in one turn; if memory was refused, checks that nothing changed and asks again.
fn ask_again<R: Abort>(
    rt: &R,
    alloc: Global,
    office: &mut Office,
    op: &Op,
) -> Result<Reply, Refusal> {
    let before = look(office);
    match office.ask(alloc, op, 1) {
        Err(Refusal::NoMemory) => {
            assert!(rt; look(office) == before);
            office.ask(alloc, op, 1)
        }
        end => end,
    }
}

/// Has the client go on for `turns` turns; only the last of them may do anything. If memory runs out, checks that nothing changed and tries again.
fn go_on_again<R: Abort>(
    rt: &R,
    alloc: Global,
    office: &mut Office,
    turns: u64,
) -> Result<Reply, Refusal> {
    let before = look(office);
    match office.go_on(alloc, turns) {
        Err(Refusal::NoMemory) => {
            assert!(rt; look(office) == before);
            office.go_on(alloc, turns)
        }
        end => end,
    }
}

/// Has the replica make a round; tries again if memory was refused.
fn run_again<R: Wait>(rt: &R, alloc: Global, office: &mut Office) -> Result<(), Refusal> {
    match office.run_replica(rt, alloc, &Open, 1) {
        Err(Refusal::NoMemory) => office.run_replica(rt, alloc, &Open, 1),
        end => end,
    }
}

/// Returns the client's log as text; tries again if memory was refused.
fn told_again(alloc: Global, logs: &Logs) -> Result<String, Refusal> {
    let client = Actor::Client(ClientId::FIRST);
    match log_text(alloc, logs, &client) {
        Err(Refusal::NoMemory) | Err(Refusal::WriteFailed) => log_text(alloc, logs, &client),
        end => end,
    }
}

/// Compares the reply to the row's operation, after a round of the replica.
fn is_answered<R: Abort + Wait>(
    rt: &R,
    alloc: Global,
    office: &mut Office,
    row: &Row,
) -> Result<(), Fail> {
    let (text, number, place, answer) = row;
    let op = op_of(text)?;
    let reply = Reply {
        number: *number,
        place: *place,
        answer: *answer,
    };
    assert_eq!(rt; ask_again(rt, alloc, office, &op), Err(Refusal::Unanswered));
    assert_eq!(rt; run_again(rt, alloc, office), Ok(()));
    assert_eq!(rt; go_on_again(rt, alloc, office, 1), Ok(reply));
    Ok(())
}

/// Compares what the client did.
fn has_done<R: Abort>(rt: &R, alloc: Global, office: Office, text: &str) -> Result<(), Fail> {
    let logs = office.close();
    let told = told_again(alloc, &logs)?;
    assert_eq!(rt; told.as_str(), text);
    Ok(())
}

#[test]
fn each_row_is_answered_whichever_allocation_is_refused(rt: HostRuntime) -> Result<(), Fail> {
    let mut office = open_again(rt.alloc(), Shape::new(1, 0, 1, 0)?)?;
    for row in &ROWS {
        is_answered(&rt, rt.alloc(), &mut office, row)?;
    }
    Ok(())
}

#[test]
fn who_goes_on_asks_the_next_replica(rt: HostRuntime) -> Result<(), Fail> {
    let op = op_of("write a 7")?;
    let mut office = open_again(rt.alloc(), Shape::new(3, 1, 1, 0)?)?;
    let asked = ask_again(&rt, rt.alloc(), &mut office, &op);
    assert_eq!(rt; asked, Err(Refusal::Unanswered));
    // it finds nothing at r0, and asks r1
    let went_on = go_on_again(&rt, rt.alloc(), &mut office, 2);
    assert_eq!(rt; went_on, Err(Refusal::Unanswered));
    has_done(&rt, rt.alloc(), office, TWO)
}
