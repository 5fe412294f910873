//! A service of a script.

ghost use Rattle.std.specs.Prelude.{◌≡◌, ◌≢◌, ℕ, ◌<◌, map, IfOk, IfErr, IsOkUnless};
ghost use Rattle.dsr_names.specs.declared.actor.Actor.TheVariants.{Client as ClientNumber};
ghost use Rattle.dsr_names.specs.declared.refusal.Refusal.{Refusal};
ghost use Rattle.dsr_script.specs.Script.{ops_of};
ghost use Rattle.dsr_run.specs.Run.{AreLogs};
ghost use Rattle.dsr_boxes.specs.Pass.{new_pass};
ghost use Rattle.dsr_mail.specs.Logs.{logs_of, HasAllLogs};
ghost use Rattle.dsr_mail.specs.Seats.{is_loyal_replica, is_traitor_replica, is_client, actors_of};
ghost use Rattle.dsr_hosts.specs.Causes.{CauseOf};
ghost use Rattle.dsr_hosts.specs.Posted.{AreAllOwed, AreAllEager, AreAllPlanned};
ghost use Rattle.dsr_hosts.specs.Served.{HasAll};

use crate::threads::run_all;
use dsr_desk::Keys;
use dsr_mail::{Logs, Mail, Seats};
use dsr_names::{Refusal, Shape};
use dsr_rounds::Gate;
use dsr_script::Script;
use std::alloc::Global;
use std::sync::Wait;
use std::thread::Threads;

/// Why a service failed, with the logs until then.
#[derive(Drop)]
pub struct ServeFault {
    /// The refusal of the lowest-ranked fault of a host; `Unanswered` if no host has a fault and a client is not served.
    pub cause: Refusal,
    /// The logs of all actors.
    pub logs: Logs,
}

/// Opens a mail, runs a host for each replica, traitor and client of the script, each in a thread of its own, and returns the logs of all actors
/// once all hosts have ended.
///
/// A client makes its operations in the script's order, and asks again if no reply comes. When all clients are served, the service tells the
/// replicas and traitors to stop; they also end after 4,096 rounds. Until then they wait for each other.
///
/// After `Ok` each client has accepted the replies to exactly its operations, in order. After an error the cause is `Exhausted` if some host's
/// next post is past a limit, `Stopped` if the gate answers false, `Unanswered` if a client gets no reply before all replicas end, so that it
/// accepts fewer replies than it has operations, `NoMemory` if memory runs out, or `NoThread` if a thread cannot start.
///
/// The logs until then come with the cause. They are those of all actors; after `NoMemory` they may be empty, if memory runs out before there is a
/// mail. They are always the logs of a run. In them loyal replicas begin each of their own slots with the requests whose turn it is, and post to
/// clients only the replies that they owe; traitors post only what the script says.
pub fn serve<R: Threads + Wait + Sync, G: Gate + Sync>(
    rt: &R,
    alloc: Global,
    script: &Script,
    gate: &G,
) -> Result<Logs, ServeFault>
    ensures shape { IfOk result (λ logs. logs.shape ≡ script.now.shape) }
    ensures run { IfOk result (λ logs. AreLogs logs.shape (logs_of logs)) }
    ensures served { IfOk result (λ logs. (c : ℕ) → c < logs.shape.m → HasAll logs.shape c (logs_of logs (ClientNumber c)) (ops_of script.now c)) }
    ensures all { IfOk result HasAllLogs }
    ensures owed { IfOk result (λ logs. AreAllOwed logs) }
    ensures eager { IfOk result (λ logs. AreAllEager logs) }
    ensures planned { IfOk result (λ logs. AreAllPlanned script.now logs) }
    ensures fault_shape { IfErr result (λ fault. fault.logs.shape ≡ script.now.shape) }
    ensures fault_run { IfErr result (λ fault. AreLogs fault.logs.shape (logs_of fault.logs)) }
    ensures fault_all { IfErr result (λ fault. fault.cause ≢ Refusal.NoMemory → HasAllLogs fault.logs) }
    ensures fault_owed { IfErr result (λ fault. AreAllOwed fault.logs) }
    ensures fault_eager { IfErr result (λ fault. AreAllEager fault.logs) }
    ensures fault_planned { IfErr result (λ fault. AreAllPlanned script.now fault.logs) }
    ensures cause { IfErr result (λ fault. CauseOf (G.may_refuse gate.now) script.now fault.logs fault.cause) }
{
    let shape = script.shape();
    let (mail, seats) = match open(alloc, shape) {
        Ok(opened) => opened,
        Err(cause) => {
            let logs = Logs::empty(shape);
            // For the proof: what its contract says.
            let _shape = logs.shape();
            return Err(ServeFault { cause, logs });
        }
    };
    let ran = run_all(rt, alloc, &mail, script, gate, seats);
    let cause = ran.ends.cause();
    let logs = mail.close(ran.seats);
    match cause {
        None => Ok(logs),
        Some(cause) => Err(ServeFault { cause, logs }),
    }
}

/// Opens a mail of the shape. `NoMemory` if memory runs out.
fn open(alloc: Global, shape: Shape) -> Result<(Mail, Seats), Refusal>
    ensures shape { IfOk result (λ opened. opened.0.shape ≡ shape) }
    ensures replicas { IfOk result (λ opened. opened.1.replicas.items ≡ map (new_pass opened.0) (actors_of is_loyal_replica opened.0.shape)) }
    ensures traitors { IfOk result (λ opened. opened.1.traitors.items ≡ map (new_pass opened.0) (actors_of is_traitor_replica opened.0.shape)) }
    ensures clients { IfOk result (λ opened. opened.1.clients.items ≡ map (new_pass opened.0) (actors_of is_client opened.0.shape)) }
    ensures refusal { IsOkUnless result Refusal.NoMemory }
{
    let keys = Keys::new(alloc, shape)?;
    Mail::open(alloc, shape, keys)
}
