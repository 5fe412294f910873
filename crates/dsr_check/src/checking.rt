ghost use Rattle.std.specs.Prelude.{◌≡◌, ◌⊎◌, ℕ, [], length, reverse, Err, IfErr, IfOk, IsOkUnless, OnOk};
ghost use Rattle.dsr_record.specs.FirstBad.{IsFirstBad};
ghost use Rattle.dsr_check.specs.Support.Audit.{StandsFor};
ghost use Rattle.dsr_check.specs.Verdict.{IsVerdict};
ghost use Rattle.dsr_run.specs.Agreement.{HasAgreement};
ghost use Rattle.dsr_run.specs.Linearizable.{IsLinearization};
ghost use Rattle.dsr_run.specs.Right.{IsRight};
ghost use Rattle.dsr_run.specs.Run.{IsRun};

use crate::audit::Audit;
use crate::verdict::Verdict;
use dsr_names::Refusal;
use dsr_record::{NotedStep, Record};
use std::alloc::Global;

/// The line of a transcript's header; the first step is in the next one.
const HEADER_LINE: u64 = 1;

/// Checks whether the recorded steps are a run, and returns what that run gave.
///
/// `NotARun` names the line of the first step that may not be next: the header is line 1, the first step is in line 2. `NoMemory` if
/// memory runs out. No other refusal comes. What is proved for runs holds for each that passes: its loyal replicas agree, each reply
/// that a client accepted is right, and the history of the verdict linearizes it.
pub fn check(alloc: Global, recorded: &Record) -> Result<Verdict, Refusal>
    ensures run { OnOk result (IsRun recorded.now.shape recorded.now.run) }
    ensures verdict { IfOk result (IsVerdict recorded.now.shape recorded.now.run) }
    ensures right { OnOk result (IsRight recorded.now.shape recorded.now.run) }
    ensures linearizes { IfOk result (λ verdict. IsLinearization recorded.now.shape recorded.now.run (reverse verdict.history)) }
    ensures agreement { OnOk result (HasAgreement recorded.now.shape recorded.now.run) }
    ensures line { (line : ℕ) → result ≡ Err (Refusal.NotARun line) → IsFirstBad recorded.now.shape recorded.now.run line }
    ensures names { (line : ℕ) → IsFirstBad recorded.now.shape recorded.now.run line
        → result ≡ Err (Refusal.NotARun line) ⊎ result ≡ Err Refusal.NoMemory }
    ensures accepts { IsRun recorded.now.shape recorded.now.run → IsOkUnless result Refusal.NoMemory }
    ensures refusal { IfErr result (λ refusal. refusal ≡ Refusal.NoMemory ⊎ ((line : ℕ) × (refusal ≡ Refusal.NotARun line))) }
{
    let shape = recorded.shape();
    // For the proof: at most f replicas are traitors.
    let _n = shape.n();
    let mut audit = Audit::open(alloc, shape)?;
    let entries = match follow_all(alloc, &mut audit, recorded.entries()) {
        Ok(entries) => entries,
        Err(refusal) => return Err(refusal),
    };
    let verdict = audit.verdict(alloc, entries)?;
    Ok(verdict)
}

/// Follows all steps, and returns how many there are. `NotARun` names the line of the first one that may not be next.
/// `NoMemory` if memory runs out.
fn follow_all<'a>(
    alloc: Global,
    audit: &mut Audit<'a>,
    steps: &'a [NotedStep],
) -> Result<u64, Refusal>
    requires { StandsFor audit.old [] }
    ensures shape { audit.new.shape ≡ audit.old.shape }
    ensures stands { OnOk result (StandsFor audit.new (reverse steps.now)) }
    ensures entries { IfOk result (λ entries. entries ≡ length steps.now) }
    ensures line { (line : ℕ) → result ≡ Err (Refusal.NotARun line) → IsFirstBad audit.old.shape (reverse steps.now) line }
    ensures refusal { IfErr result (λ refusal. refusal ≡ Refusal.NoMemory ⊎ ((line : ℕ) × (refusal ≡ Refusal.NotARun line))) }
{
    let mut line = HEADER_LINE;
    for step in steps {
        line += 1;
        let next = audit.follow(alloc, step)?;
        if !next {
            return Err(Refusal::NotARun { line });
        }
    }
    Ok(line - HEADER_LINE)
}
