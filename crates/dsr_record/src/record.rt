ghost use Rattle.std.specs.Prelude.{◌≡◌, ◌↔◌, All, reverse, IsTrue, IfOk, IfErr, IsOkUnless};
ghost use Rattle.dsr_record.specs.Record.{Record as ARecord};
ghost use Rattle.dsr_record.specs.RecordText.{Fits, IsStepOf, Spells, IsRecordRefusal};

use crate::laws::each_step_has_a_line;
use crate::noted::NotedStep;
use crate::transcript::read_record;
use crate::version::Version;
use dsr_names::{Refusal, Shape};
use std::alloc::Global;
use std::marker::Model;

/// Recorded data: a shape, and steps of actors in one order. The steps need not be a run.
#[derive(Drop)]
pub struct Record {
    version: Version,
    shape: Shape,
    entries: Vec<NotedStep>,
}

impl Model for Record {
    ghost use Rattle.dsr_record.specs.Record.{Record};
    ghost use Rattle.std.specs.Prelude.{reverse};

    ghost Value = { Record };

    ghost view = { λ r. record { version = r.version; shape = r.shape; run = reverse r.entries.items } };
}

impl Record {
    /// Makes the record of these steps, in their order, to be written in this version.
    pub fn of(version: Version, shape: Shape, entries: Vec<NotedStep>) -> Record
        ensures version { result.version ≡ version }
        ensures shape { result.shape ≡ shape }
        ensures entries { result.run ≡ reverse entries.items }
    {
        Record {
            version,
            shape,
            entries,
        }
    }

    /// Reads a transcript: a header `dsr-transcript 1 SHAPE` or `dsr-transcript 2 SHAPE`, then a line for each step.
    ///
    /// `BadShape` if the header's shape is outside the limits, whatever follows it. `BadText` names the first bad line, counted from 1:
    /// line 1 if the text begins with a header of neither version, else a line that does not fit this grammar, that has no line feed,
    /// or, in version 1, that only version 2 has. `NoMemory` if memory runs out.
    pub fn of_text(alloc: Global, text: &[u8]) -> Result<Record, Refusal>
        ensures spelled { IfOk result (Spells text.now) }
        ensures refused { IfErr result (IsRecordRefusal text.now) }
        ensures when { (other : ARecord) → Spells text.now other → IsOkUnless result Refusal.NoMemory }
        ensures only { (other : ARecord) → Spells text.now other → IfOk result (λ recorded. recorded ≡ other) }
    {
        read_record(alloc, text)
    }

    /// Returns the version of its transcript.
    pub fn version(&self) -> Version
        ensures { result ≡ self.now.version }
    {
        self.version
    }

    /// Returns the shape.
    pub fn shape(&self) -> Shape
        ensures { result ≡ self.now.shape }
    {
        self.shape
    }

    /// Returns the steps, in order: who took each, and the entry of that actor's log.
    pub fn entries(&self) -> &[NotedStep]
        ensures { reverse result.now ≡ self.now.run }
    {
        self.entries.as_slice()
    }

    /// Tells whether its steps can be in a transcript of its version.
    pub fn fits(&self) -> bool
        ensures { IsTrue result ↔ Fits self.now }
    {
        are_steps_of(self.version, self.entries.as_slice())
    }
}

/// Tells whether a transcript of this version can have all of these steps.
pub(crate) fn are_steps_of(version: Version, steps: &[NotedStep]) -> bool
    ensures { IsTrue result ↔ All (IsStepOf version) steps.now }
{
    steps.iter().all(|step| is_step_of(version, step))
}

/// Tells whether a transcript of this version can have the step.
pub(crate) fn is_step_of(version: Version, step: &NotedStep) -> bool
    ensures { IsTrue result ↔ IsStepOf version step.now }
{
    each_step_has_a_line(step);
    match version {
        Version::One => step.envelope().is_plain(),
        Version::Two => true,
    }
}
