//! Records what a world did.

ghost use Rattle.std.specs.Prelude.{◌≡◌, ◌↔◌, All, IfOk, OnOk, IsOkUnless};
ghost use Rattle.dsr_envelope.specs.Limits.{IsEnvelope};
ghost use Rattle.dsr_run.specs.Run.{IsRun, envelope_of};
ghost use Rattle.dsr_record.specs.RecordText.{Fits, IsSpelledStep, IsStepOf};
ghost use Rattle.dsr_record.specs.Support.Noted.{entry_of};
ghost use Rattle.dsr_record.specs.declared.version.Version.TheVariants.{One};

use crate::laws::each_step_has_a_line;
use crate::noted::{NotedEntry, NotedStep};
use crate::record::{Record, are_steps_of};
use crate::version::Version;
use dsr_envelope::Entry;
use dsr_names::Refusal;
use dsr_script::Draft;
use dsr_world::World;
use std::alloc::Global;

impl Record {
    /// Makes the record of all steps of the world, in order: of version 1 if each of them can be in a transcript of version 1, else of
    /// version 2. `NoMemory` if memory runs out.
    pub fn of_world(alloc: Global, world: &World) -> Result<Record, Refusal>
        ensures shape { IfOk result (λ recorded. recorded.shape ≡ world.now.shape) }
        ensures run { IfOk result (λ recorded. recorded.run ≡ world.now.run) }
        ensures is_run { IfOk result (λ recorded. IsRun recorded.shape recorded.run) }
        ensures version { IfOk result (λ recorded. (recorded.version ≡ One) ↔ All (IsStepOf One) recorded.run) }
        ensures fits { IfOk result Fits }
        ensures refusal { IsOkUnless result Refusal.NoMemory }
    {
        let mut steps = Vec::new(alloc);
        for (actor, entry) in world.entries() {
            let entry = noted(alloc, entry)?;
            let step = NotedStep::new(*actor, entry);
            each_step_has_a_line(&step);
            steps.push(step)?;
        }
        let version = least_version(steps.as_slice());
        Ok(Record::of(version, *world.shape(), steps))
    }
}

/// Returns the first version whose transcripts can have all of these steps. Requires that texts can write each.
pub(crate) fn least_version(steps: &[NotedStep]) -> Version
    requires { All IsSpelledStep steps.now }
    ensures least { (result ≡ One) ↔ All (IsStepOf One) steps.now }
    ensures fits { All (IsStepOf result) steps.now }
{
    if are_steps_of(Version::One, steps) {
        Version::One
    } else {
        Version::Two
    }
}

/// Makes the entry with its envelope as data. `NoMemory` if memory runs out. Requires that the envelope is within the limits.
pub(crate) fn noted(alloc: Global, entry: &Entry) -> Result<NotedEntry, Refusal>
    requires { IsEnvelope (envelope_of entry.now) }
    ensures same { IfOk result (λ noted. entry_of noted ≡ entry.now) }
    ensures refusal { IsOkUnless result Refusal.NoMemory }
{
    match entry {
        Entry::Post { to, envelope } => {
            let envelope = Draft::of(alloc, envelope.envelope())?;
            Ok(NotedEntry::Post { to: *to, envelope })
        }
        Entry::Take { from, envelope } => {
            let envelope = Draft::of(alloc, envelope.envelope())?;
            Ok(NotedEntry::Take {
                from: *from,
                envelope,
            })
        }
    }
}
