//! Merges the logs of a closed mail into one record.

ghost use Rattle.std.specs.Prelude.{◌≡◌, ◌↔◌, ◌<◌, [], List, All, IfOk, IfErr, IfSome, IfNone, OnOk, IsOkUnless, IsTrue};
ghost use Rattle.dsr_names.specs.Shape.{IsActor};
ghost use Rattle.dsr_mail.specs.Logs.{logs_of};
ghost use Rattle.dsr_run.specs.Step.{Step, log_of};
ghost use Rattle.dsr_record.specs.Merge.{CanGoOn, IsMerge, IsMergeRefusal, IsWhole};
ghost use Rattle.dsr_record.specs.RecordText.{Fits, IsStepOf};
ghost use Rattle.dsr_record.specs.Support.Merging.{AreRests, HasTurnIn, IsStuckIn, Stands, left_of, merged_of};
ghost use Rattle.dsr_record.specs.declared.version.Version.TheVariants.{One};

use crate::laws::each_step_has_a_line;
use crate::mailboxes::{Held, can_move, move_envelope};
use crate::noted::NotedStep;
use crate::record::Record;
use crate::recording::{least_version, noted};
use dsr_base::Boxes;
use dsr_envelope::Entry;
use dsr_mail::Logs;
use dsr_names::{Actor, Refusal};
use dsr_run::{counters_are_kept, own_logs_are_enough};
use std::alloc::Global;

impl Record {
    /// Makes a record of all entries of the logs, in one order: again and again the next entry of the lowest actor, replicas before clients,
    /// whose next entry can go on. A post can go on if its box is empty, a take if its box holds that envelope. The record is of version 1 if
    /// each step can be in a transcript of version 1, else of version 2. The steps need not be a run.
    ///
    /// `NotARun` if entries are left and none of them can go on: its line is the first that the transcript lacks.
    /// `NoMemory` if memory runs out.
    pub fn of_logs(alloc: Global, logs: &Logs) -> Result<Record, Refusal>
        ensures shape { IfOk result (λ recorded. recorded.shape ≡ logs.now.shape) }
        ensures logs { IfOk result (λ recorded. IsWhole (logs_of logs.now) recorded.run) }
        ensures merged { IfOk result (λ recorded. IsMerge logs.now.shape (logs_of logs.now) recorded.run) }
        ensures version { IfOk result (λ recorded. (recorded.version ≡ One) ↔ All (IsStepOf One) recorded.run) }
        ensures fits { IfOk result Fits }
        ensures only { (run : List Step) → IsMerge logs.now.shape (logs_of logs.now) run → IsWhole (logs_of logs.now) run
            → IfOk result (λ recorded. recorded.run ≡ run) }
        ensures when { (run : List Step) → IsMerge logs.now.shape (logs_of logs.now) run → IsWhole (logs_of logs.now) run
            → IsOkUnless result Refusal.NoMemory }
        ensures refused { IfErr result (IsMergeRefusal logs.now.shape (logs_of logs.now)) }
    {
        own_logs_are_enough();
        let mut merging = Merging::new(alloc, logs)?;
        merging.run(alloc)?;
        if merging.is_whole() {
            let version = least_version(merging.steps.as_slice());
            Ok(Record::of(version, *logs.shape(), merging.steps))
        } else {
            let line = merging.steps.len() as u64 + 2;
            Err(Refusal::NotARun { line })
        }
    }
}

/// The rest of an actor's log that is not merged yet.
#[derive(Drop)]
pub(crate) struct Rest<'a> {
    entries: &'a [Entry],
}

/// A merge of logs in progress.
#[derive(Drop)]
pub(crate) struct Merging<'a> {
    logs: &'a Logs,
    /// What is left of each log, by the actors' places.
    rests: Vec<Rest<'a>>,
    /// The boxes as the steps have left them.
    boxes: Boxes<Held<'a>>,
    steps: Vec<NotedStep>,
}

impl<'a> Merging<'a> {
    /// Makes the merge of these logs before any step. `NoMemory` if memory runs out.
    fn new(alloc: Global, logs: &'a Logs) -> Result<Merging<'a>, Refusal>
        ensures logs { IfOk result (λ merging. merging.logs.now ≡ logs.now) }
        ensures stands { IfOk result Stands }
        ensures refusal { IsOkUnless result Refusal.NoMemory }
    {
        let count = logs.shape().size();
        let rests = rests_of(alloc, logs)?;
        let boxes = Boxes::new(alloc, count)?;
        Ok(Merging {
            logs,
            rests,
            boxes,
            steps: Vec::new(alloc),
        })
    }

    /// Merges until no next entry can go on. `NoMemory` if memory runs out.
    fn run(&mut self, alloc: Global) -> Result<(), Refusal>
        requires { Stands self.old }
        ensures logs { self.new.logs.now ≡ self.old.logs.now }
        ensures stands { OnOk result (Stands self.new) }
        ensures stuck { OnOk result (IsStuckIn self.new) }
        ensures refusal { IsOkUnless result Refusal.NoMemory }
    {
        while let Some(actor) = self.next_actor() {
            self.advance(alloc, &actor)?;
        }
        Ok(())
    }

    /// Returns the lowest actor whose next entry can go on.
    fn next_actor(&self) -> Option<Actor>
        requires { Stands self.now }
        ensures turn { IfSome result (HasTurnIn self.now) }
        ensures none { IfNone result (IsStuckIn self.now) }
    {
        for place in 0..self.rests.len() {
            let actor = self.logs.shape().actor_at(place);
            if self.can_go_on(&actor) {
                return Some(actor);
            }
        }
        None
    }

    /// Tells whether the actor's next entry can go on.
    fn can_go_on(&self, actor: &Actor) -> bool
        requires stands { Stands self.now }
        requires actor { IsActor self.now.logs.now.shape actor.now }
        ensures { IsTrue result ↔ CanGoOn (logs_of self.now.logs.now) (merged_of self.now) actor.now }
    {
        let shape = self.logs.shape();
        match self.rests[shape.place(actor)].entries.first() {
            Some(entry) => can_move(shape, &self.boxes, actor, entry),
            None => false,
        }
    }

    /// Merges the next entry of this actor. `NoMemory` if memory runs out. Requires that it is the actor's turn.
    fn advance(&mut self, alloc: Global, actor: &Actor) -> Result<(), Refusal>
        requires stands { Stands self.old }
        requires turn { HasTurnIn self.old actor.now }
        ensures logs { self.new.logs.now ≡ self.old.logs.now }
        ensures stands { OnOk result (Stands self.new) }
        ensures less { OnOk result (left_of self.new < left_of self.old) }
        ensures refusal { IsOkUnless result Refusal.NoMemory }
    {
        counters_are_kept();
        let shape = self.logs.shape();
        let place = shape.place(actor);
        let Some((entry, rest)) = self.rests[place].entries.split_first() else {
            unreachable!()
        };
        let step = NotedStep::new(*actor, noted(alloc, entry)?);
        each_step_has_a_line(&step);
        self.steps.push(step)?;
        move_envelope(shape, &mut self.boxes, actor, entry);
        self.rests[place] = Rest { entries: rest };
        Ok(())
    }

    /// Tells whether each log is merged whole.
    fn is_whole(&self) -> bool
        ensures { IsTrue result ↔ All (λ rest. rest.entries.now ≡ []) self.now.rests.items }
    {
        self.rests.iter().all(|rest| rest.entries.is_empty())
    }
}

/// Returns all logs, with nothing of them merged. `NoMemory` if memory runs out.
fn rests_of<'a>(alloc: Global, logs: &'a Logs) -> Result<Vec<Rest<'a>>, Refusal>
    ensures rests { IfOk result (λ rests. AreRests logs.now.shape (logs_of logs.now) (log_of []) rests.items) }
    ensures refusal { IsOkUnless result Refusal.NoMemory }
{
    let shape = logs.shape();
    let mut rests = Vec::with_capacity(alloc, shape.size())?;
    for place in 0..shape.size() {
        let entries = logs.of(shape.actor_at(place));
        rests.push(Rest { entries })?;
    }
    Ok(rests)
}
