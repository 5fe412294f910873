ghost use Rattle.std.specs.Prelude.{List};
ghost use Rattle.dsr_names.specs.Shape.{Shape};
ghost use Rattle.dsr_run.specs.Run.{IsNextStep, IsRun};
ghost use Rattle.dsr_run.specs.Step.{Step, log_of};
ghost use Rattle.dsr_lines.specs.Line.{HoldsFault};
ghost use Rattle.dsr_lines.specs.declared.line_fault.LineFault.{LineFault as ALineFault};

use dsr_envelope::Envelope;
use dsr_facts::{Cause, Difference};
use dsr_names::ClientId;
use dsr_script::Forged;
use dsr_world::Event;

/// Why a recorded step may not follow.
#[derive(Drop)]
pub enum LineFault {
    /// The step would be this event, which is refused for this cause.
    Refused {
        event: Event,
        cause: Cause,
    },
    /// The box holds another envelope than the one that the step takes.
    OtherHeld,
    /// The actor posts `wanted` there, from which what the step posts differs by `how`.
    OtherPosted {
        wanted: Envelope,
        posted: Envelope,
        how: Difference,
    },
    /// The envelope that the step posts carries this signature, whose signer is not an actor of the shape.
    SignedOutside(Forged),
    /// The replica begins a slot of its own with two requests of this client, which no loyal replica does.
    ClientTwice(ClientId),
}

/// If a fault holds of a step after a run, the step may not follow.
pub fn line_faults_stop()
    ensures { (shape : Shape) (run : List Step) (step : Step) (fault : ALineFault) → IsRun shape run
        → HoldsFault shape (log_of run) step fault → IsNextStep shape (log_of run) step → ⊥ }
{}
