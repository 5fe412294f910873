ghost use Rattle.std.specs.Prelude.{◌≡◌, ℕ, ◌<◌, ◌≤◌, ◌↔◌, IsTrue, List, length, reverse, slice_get, take};
ghost use Rattle.dsr_base.specs.Member.{In};
ghost use Rattle.dsr_names.specs.Shape.{Shape, HasFewTraitors};
ghost use Rattle.dsr_run.specs.Run.{IsRun};
ghost use Rattle.dsr_run.specs.Step.{Step};
ghost use Rattle.dsr_history.specs.History.{IsLegal};
ghost use Rattle.dsr_ledger.specs.declared.reply.Reply.{Reply};
ghost use Rattle.dsr_check.specs.Judged.{IsJudgedRight};
ghost use Rattle.dsr_check.specs.Verdict.{Verdict, IsVerdict};
ghost use Rattle.dsr_check.specs.Support.Heads.{head_of, IsNext, IsHead, HasMoved, HasWalked};

use crate::table::Table;
use dsr_ledger::Reply;
use dsr_names::ClientId;
use dsr_request::Request;

/// The most clients of a shape.
const MOST_CLIENTS: usize = 32;

/// For each client a place in the list of accepted replies: the replies to this client before that place are done with.
type Heads = [usize; MOST_CLIENTS];

/// Tells whether the replies are right by this history, wherever both are from: the numbers of each client rise in the history, and
/// each reply answers a request of the client beside it, which is at the reply's place, with the reply's number, and the answer
/// there is that of one directory that goes through the history. It needs no allocator.
///
/// It goes through the history once if the replies of each client are in the order of their places, like those of a verdict;
/// otherwise at most once more for each time that the place of a client's next reply is not a later one.
pub fn judge(history: &[Request], accepted: &[(ClientId, Reply)]) -> bool
    ensures { IsTrue result ↔ IsJudgedRight history.now accepted.now }
{
    if !is_legal(history) {
        return false;
    }
    let mut heads = first_heads(accepted);
    for _ in 0..accepted.len() {
        if are_done(accepted, &heads) {
            return true;
        }
        let moved = walked(history, accepted, &heads);
        if !have_moved(&heads, &moved, accepted.len()) {
            return false;
        }
        heads = moved;
    }
    are_done(accepted, &heads)
}

/// What `judge` finds for a run: if at most f replicas are traitors, the history of a run and the replies that its
/// clients accepted are judged right.
pub fn verdicts_are_judged_right()
    ensures { (shape : Shape) (run : List Step) (verdict : Verdict) → HasFewTraitors shape → IsRun shape run → IsVerdict shape run verdict
        → IsJudgedRight verdict.history verdict.accepted }
{}

/// Tells whether the numbers of each client rise.
fn is_legal(history: &[Request]) -> bool
    ensures { IsTrue result ↔ IsLegal (reverse history.now) }
{
    let mut last = [0; MOST_CLIENTS];
    for request in history {
        let client = request.client().number() as usize;
        let number = request.number();
        if number <= last[client] {
            return false;
        }
        last[client] = number;
    }
    true
}

/// Returns each client's head at the first of its replies.
fn first_heads(accepted: &[(ClientId, Reply)]) -> Heads
    ensures size { length result ≡ 32 }
    ensures first { (client : ℕ) → client < 32 → IsNext accepted.now client 0 (head_of result client) }
{
    let mut heads = [0; MOST_CLIENTS];
    for client in 0..MOST_CLIENTS {
        heads[client] = next_of(accepted, client as u8, 0);
    }
    heads
}

/// Returns the place of the first reply to this client at `from` or later, or the end of the list.
fn next_of(accepted: &[(ClientId, Reply)], client: u8, from: usize) -> usize
    requires { from ≤ length accepted.now }
    ensures { IsNext accepted.now client from result }
{
    for place in from..accepted.len() {
        let entry = &accepted[place];
        if entry.0.number() == client {
            return place;
        }
    }
    accepted.len()
}

/// Tells whether the head of each client that has replies is at the end.
fn are_done(accepted: &[(ClientId, Reply)], heads: &Heads) -> bool
    requires { length heads.now ≡ 32 }
    ensures done { IsTrue result → (client : ℕ) (reply : Reply) → In (client, reply) accepted.now
        → (client < 32) × (length accepted.now ≤ head_of heads.now client) }
    ensures some { ¬ IsTrue result → (client : ℕ) × (client < 32) × (head_of heads.now client < length accepted.now) }
{
    for entry in accepted {
        if heads[entry.0.number() as usize] < accepted.len() {
            return false;
        }
    }
    true
}

/// Tells whether each head that is not at the end has moved.
fn have_moved(before: &Heads, after: &Heads, end: usize) -> bool
    requires before { length before.now ≡ 32 }
    requires after { length after.now ≡ 32 }
    ensures all { IsTrue result → (client : ℕ) → client < 32 → head_of after.now client < end
        → ¬ (head_of after.now client ≡ head_of before.now client) }
    ensures one { ¬ IsTrue result → (client : ℕ) × (client < 32) × (head_of after.now client < end)
        × (head_of after.now client ≡ head_of before.now client) }
{
    for client in 0..MOST_CLIENTS {
        if after[client] < end && after[client] == before[client] {
            return false;
        }
    }
    true
}

/// Walks along the history, and returns the heads after that: each client's head passes the replies that it comes to in turn.
fn walked(history: &[Request], accepted: &[(ClientId, Reply)], heads: &Heads) -> Heads
    requires size { length heads.now ≡ 32 }
    requires heads { (client : ℕ) → client < 32 → IsHead (reverse history.now) accepted.now client (head_of heads.now client) }
    ensures size { length result ≡ 32 }
    ensures walked { (client : ℕ) → client < 32
        → HasWalked (reverse history.now) (reverse history.now) accepted.now client (head_of heads.now client) (head_of result client) }
{
    let mut moved = *heads;
    let mut table = Table::new();
    for place in 0..history.len() {
        let request = &history[place];
        let client = request.client().number();
        let answer = table.apply(&request.op());
        let reply = Reply {
            number: request.number(),
            place: place as u64,
            answer,
        };
        moved[client as usize] = passed(accepted, client, moved[client as usize], &reply);
    }
    moved
}

/// Returns the client's head after this reply: at its next reply, if this one was at the head.
fn passed(accepted: &[(ClientId, Reply)], client: u8, head: usize, reply: &Reply) -> usize
    requires within { head ≤ length accepted.now }
    requires own { (entry : ℕ × Reply) → slice_get accepted.now head ≡ Some entry → entry.0 ≡ client }
    ensures { HasMoved accepted.now client reply.now head result }
{
    if head < accepted.len() && accepted[head].1 == *reply {
        next_of(accepted, client, head + 1)
    } else {
        head
    }
}
