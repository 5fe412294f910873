ghost use Rattle.std.specs.Prelude.{◌≡◌, ◌≢◌, ◌⊎◌, ℕ, Err, IfErr, IfOk, IsOkUnless, length};
ghost use Rattle.dsr_record.specs.FirstBad.{IsFirstBad};
ghost use Rattle.dsr_names.specs.Refusal.{code_of};
ghost use Rattle.dsr_record.specs.Record.{Record as ARecord};
ghost use Rattle.dsr_record.specs.RecordText.{Spells};
ghost use Rattle.dsr_run.specs.Run.{IsRun};
ghost use Rattle.dsr_check_c.specs.Report.{IsRunReport, IsRefusalReport, IsVerdictOn, IsCheckRefusal, line_of};

use dsr_check::{Verdict, check};
use dsr_names::Refusal;
use dsr_record::Record;
use std::alloc::Global;

/// What was found about a text.
#[repr(C)]
#[derive(Clone, Copy, Debug)]
pub struct Report {
    /// 0 for a run, or the number of the refusal.
    pub status: u64,
    /// The line that the refusal names, counted from 1; 0 if it names none.
    pub line: u64,
    /// How many entries the run has; this number and those that follow are 0 after a refusal.
    pub entries: u64,
    /// How many requests its history has.
    pub history: u64,
    /// How many replies its clients accepted.
    pub accepted: u64,
}

/// Returns the report on the text.
pub(crate) fn report_on(alloc: Global, text: &[u8]) -> Report
    ensures run { result.status ≡ 0 → IsRunReport text.now result }
    ensures refused { result.status ≢ 0 → IsRefusalReport text.now result }
    ensures accepts { (recorded : ARecord) → Spells text.now recorded → IsRun recorded.shape recorded.run
        → result.status ≡ 0 ⊎ result.status ≡ 12 }
    ensures names { (recorded : ARecord) (line : ℕ) → Spells text.now recorded → IsFirstBad recorded.shape recorded.run line
        → ((result.status ≡ 14) × (result.line ≡ line)) ⊎ result.status ≡ 12 }
{
    match checked(alloc, text) {
        Ok(verdict) => Report {
            status: 0,
            line: 0,
            entries: verdict.entries(),
            history: verdict.history().len() as u64,
            accepted: verdict.accepted().len() as u64,
        },
        Err(refusal) => Report {
            status: refusal.code() as u64,
            line: named_line(&refusal),
            entries: 0,
            history: 0,
            accepted: 0,
        },
    }
}

/// Returns the line that the refusal names; 0 if it names none.
fn named_line(refusal: &Refusal) -> u64
    ensures { result ≡ line_of refusal.now }
{
    match refusal {
        Refusal::BadText { line } | Refusal::NotARun { line } => *line,
        _ => 0,
    }
}

/// Reads the transcript that the text is, and returns the verdict on its run. The refusals are those of `Record::of_text` and of `check`.
fn checked(alloc: Global, text: &[u8]) -> Result<Verdict, Refusal>
    ensures run { IfOk result (IsVerdictOn text.now) }
    ensures refused { IfErr result (IsCheckRefusal text.now) }
    ensures accepts { (recorded : ARecord) → Spells text.now recorded → IsRun recorded.shape recorded.run → IsOkUnless result Refusal.NoMemory }
    ensures names { (recorded : ARecord) (line : ℕ) → Spells text.now recorded → IsFirstBad recorded.shape recorded.run line
        → result ≡ Err (Refusal.NotARun line) ⊎ result ≡ Err Refusal.NoMemory }
{
    match Record::of_text(alloc, text) {
        Ok(recorded) => check(alloc, &recorded),
        Err(refusal) => Err(refusal),
    }
}
