//! The checker of recorded runs, for programs in C: `include/dsr_check.h`.
#![tactic(auto)]

ghost use Rattle.std.specs.Prelude.{◌≡◌, ◌≢◌, ◌⊎◌, ℕ};
ghost use Rattle.dsr_record.specs.FirstBad.{IsFirstBad};
ghost use Rattle.dsr_record.specs.Record.{Record};
ghost use Rattle.dsr_record.specs.RecordText.{Spells};
ghost use Rattle.dsr_run.specs.Run.{IsRun};
ghost use Rattle.dsr_check_c.specs.Report.{IsRunReport, IsRefusalReport};

mod report;

pub use report::Report;
use std::alloc::Global;

/// Checks the transcript that the text is, and reports what was found.
///
/// The status is 0 exactly if the text is the transcript of a run and memory does not run out; otherwise it is the number
/// of the refusal: 1 if the header's shape is not allowed, 13 if a line is not one of a transcript, 14 if a step may not
/// be next, 12 if memory ran out.
#[unsafe(no_mangle)]
pub extern "C" fn dsr_check_text(alloc: Global, text: &[u8], report: &mut Report)
    ensures run { report.new.status ≡ 0 → IsRunReport text.now report.new }
    ensures refused { report.new.status ≢ 0 → IsRefusalReport text.now report.new }
    ensures accepts { (recorded : Record) → Spells text.now recorded → IsRun recorded.shape recorded.run
        → report.new.status ≡ 0 ⊎ report.new.status ≡ 12 }
    ensures names { (recorded : Record) (line : ℕ) → Spells text.now recorded → IsFirstBad recorded.shape recorded.run line
        → ((report.new.status ≡ 14) × (report.new.line ≡ line)) ⊎ report.new.status ≡ 12 }
{
    *report = report::report_on(alloc, text);
}
