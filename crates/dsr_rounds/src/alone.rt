//! Runs one host on its own, for a service that a user writes.

ghost use Rattle.std.specs.Prelude.{IfErr, OnOk};
ghost use Rattle.dsr_boxes.specs.Pass.{IsPassOf};
ghost use Rattle.dsr_calls.specs.Calls.{GoesOn};
ghost use Rattle.dsr_rounds.specs.Eagerness.{WasEager};
ghost use Rattle.dsr_rounds.specs.Ends.{HostRefusal};
ghost use Rattle.dsr_rounds.specs.Replicas.{HasClosed, AnswersOwed};
ghost use Rattle.dsr_rounds.specs.Traitors.{RanScript, IsBetweenRounds, Follows};
ghost use Rattle.dsr_rounds.specs.Turns.{HasTurns};

use crate::end::End;
use crate::gate::Gate;
use crate::host::Host;
use crate::stop::Stop;
use dsr_mail::{Mail, ReplicaSeat, TraitorSeat};
use dsr_names::Refusal;
use dsr_script::Script;
use std::alloc::Global;
use std::sync::Wait;

/// Makes `rounds` rounds of a loyal replica, and waits for the other actors. In each round the replica tries once to take from each client, posts to
/// all replicas, takes from all replicas, and tries once to post to each client to which it owes a reply. If a round is begun already, it is the first
/// of them.
///
/// Returns `Ok` once exactly `rounds` more rounds are closed. However the call ends, the replica posts to a client only a reply that it owes: it has not
/// answered the client since the last take from it, and the client's pending request is the one that the reply is for. The replica begins each of its own
/// slots with the requests that are next: the pending requests of the first 8 waiting clients, in turn after the client that it proposed last. The gate
/// may let pass the turn of each post and each take, and each has a later turn than the one before it; only the last turn, 2^40-1, may have several.
///
/// `Exhausted` if the replica's next post is past a limit, `Stopped` if the gate answers false, `NoMemory` if memory runs out. What the replica did
/// before an error stays in the seat's log, and a later call can go on from there. Requires a seat of this mail.
pub fn run_replica<R: Wait, G: Gate>(
    rt: &R,
    alloc: Global,
    mail: &Mail,
    seat: &mut ReplicaSeat,
    gate: &G,
    rounds: u64,
) -> Result<(), Refusal>
    requires mail { IsPassOf mail.now seat.old }
    ensures closed { OnOk result (HasClosed seat.old seat.new rounds) }
    ensures log { GoesOn seat.new seat.old }
    ensures answers { AnswersOwed seat.new seat.old }
    ensures eager { WasEager seat.new seat.old }
    ensures turns { HasTurns (G.may_pass gate.now) seat.old seat.new }
    ensures refused { IfErr result (HostRefusal (G.may_refuse gate.now) seat.new) }
{
    let stop = Stop::never();
    let host = Host {
        rt,
        alloc,
        mail,
        gate,
        stop: &stop,
    };
    match host.run_replica(seat, rounds) {
        Ok(()) => Ok(()),
        Err(End::Fault(refusal)) => Err(refusal),
        Err(End::Told) => unreachable!(),
    }
}

/// Makes `rounds` rounds of a traitor by the script, from its round 0 on, and waits for the other actors. In each round the traitor tries once to take
/// from each client; posts the round's draft to each replica, or the empty envelope if the script has no draft there or the draft would be forged;
/// tries once to post to each client for which the script has a draft that would not be forged; and takes from all replicas.
///
/// Returns `Ok` once the traitor has posted to each replica exactly `rounds` times, each time what the script says, and has taken from each replica
/// `rounds` times. However the call ends, the traitor posts only what the script says: to a replica the round's draft or the empty envelope; to a
/// client the round's draft, after the round's posts to all replicas. The gate may let pass the turn of each post and each take, and each has a later
/// turn than the one before it; only the last turn, 2^40-1, may have several.
///
/// `Exhausted` if a box has no posts left, `Stopped` if the gate answers false, `NoMemory` if memory runs out. What the traitor did before an error
/// stays in the seat's log. Requires a seat of this mail.
///
/// After an error a round may be open at the seat. Do not give such a seat to another call: the call would begin a new round and might wait for ever,
/// because an envelope that the traitor posted to itself may fill its box, and it takes that envelope only after its posts. With `Ok` no round is open
/// if none was open before; at a new seat none is.
pub fn run_traitor<R: Wait, G: Gate>(
    rt: &R,
    alloc: Global,
    mail: &Mail,
    seat: &mut TraitorSeat,
    script: &Script,
    gate: &G,
    rounds: u64,
) -> Result<(), Refusal>
    requires mail { IsPassOf mail.now seat.old }
    ensures ran { OnOk result (RanScript script.now rounds seat.old seat.new) }
    ensures between { OnOk result (IsBetweenRounds seat.old → IsBetweenRounds seat.new) }
    ensures follows { Follows script.now seat.old seat.new }
    ensures turns { HasTurns (G.may_pass gate.now) seat.old seat.new }
    ensures log { GoesOn seat.new seat.old }
    ensures refused { IfErr result (HostRefusal (G.may_refuse gate.now) seat.new) }
{
    let stop = Stop::never();
    let host = Host {
        rt,
        alloc,
        mail,
        gate,
        stop: &stop,
    };
    match host.run_traitor(seat, script, rounds) {
        Ok(()) => Ok(()),
        Err(End::Fault(refusal)) => Err(refusal),
        Err(End::Told) => unreachable!(),
    }
}
