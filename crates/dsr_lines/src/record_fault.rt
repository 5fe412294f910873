ghost use Rattle.std.specs.Prelude.{◌≡◌, IfOk, IfSome, IfNone, IsOkUnless};
ghost use Rattle.dsr_record.specs.FirstBad.{IsFirstBad};
ghost use Rattle.dsr_run.specs.Run.{IsRun};
ghost use Rattle.dsr_run.specs.Step.{log_of};
ghost use Rattle.dsr_lines.specs.Line.{HoldsItsCause};
ghost use Rattle.dsr_lines.specs.Record.{IsFaultAt};

use crate::following::follow;
use crate::line_fault::LineFault;
use crate::notary::Notary;
use dsr_names::Refusal;
use dsr_record::Record;
use dsr_world::Stage;
use std::alloc::Global;

/// The line of a transcript's header; the first step is in the next one.
const HEADER_LINE: u64 = 1;

/// Where a record stops being a run.
#[derive(Drop)]
pub struct Stop {
    /// The line of the first step that may not follow; the header is line 1.
    pub line: u64,
    /// Why it may not follow.
    pub fault: LineFault,
}

/// A stage that has gone on with recorded steps, up to the first that may not follow.
#[derive(Drop)]
pub struct Followed {
    /// The stage: its run has the steps before that one, or all of them.
    pub stage: Stage,
    /// Where the steps stop being a run, if they do.
    pub stop: Option<Stop>,
}

/// Lets a new stage go on with the recorded steps, and tells where and why they stop being a run. They are a run exactly if there is no such
/// line. `NoMemory` if memory runs out.
pub fn follow_all(alloc: Global, recorded: &Record) -> Result<Followed, Refusal>
    ensures shape { IfOk result (λ followed. followed.stage.shape ≡ recorded.now.shape) }
    ensures run { IfOk result (λ followed. IfNone followed.stop (followed.stage.run ≡ recorded.now.run)) }
    ensures none { IfOk result (λ followed. IfNone followed.stop (IsRun recorded.now.shape recorded.now.run)) }
    ensures line { IfOk result (λ followed. IfSome followed.stop (λ stop. IsFirstBad recorded.now.shape recorded.now.run stop.line)) }
    ensures fault { IfOk result (λ followed. IfSome followed.stop (λ stop.
        IsFaultAt recorded.now.shape recorded.now.run followed.stage.run stop.line stop.fault)) }
    ensures cause { IfOk result (λ followed. IfSome followed.stop (λ stop.
        HoldsItsCause followed.stage.shape (log_of followed.stage.run) stop.fault)) }
    ensures refusal { IsOkUnless result Refusal.NoMemory }
{
    let shape = recorded.shape();
    let mut stage = Stage::open(alloc, shape)?;
    let notary = Notary::new(alloc, &shape)?;
    let mut line = HEADER_LINE;
    for step in recorded.entries() {
        line += 1;
        // For the proof: the steps before this one are a run.
        stage.steps_are_a_run();
        let fault = follow(alloc, &mut stage, &notary, step)?;
        if let Some(fault) = fault {
            return Ok(Followed {
                stage,
                stop: Some(Stop { line, fault }),
            });
        }
    }
    // For the proof: all the steps are a run.
    stage.steps_are_a_run();
    Ok(Followed { stage, stop: None })
}
