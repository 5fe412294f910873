//! The tasks, by their numbers.

ghost use Rattle.std.specs.Prelude.{◌≡◌, IfSome};
ghost use Rattle.dsr_cli.specs.Status.{IsAlone};
ghost use Rattle.dsr_page.specs.Tasks.{task_numbered};

use dsr_command::{Narrowing, Task};

/// The whole explanation in data lines.
const AS_DATA: Narrowing = Narrowing {
    slot: None,
    actor: None,
    refused: false,
    as_data: true,
};

/// Returns the task of this number.
pub(crate) fn task_numbered(number: u64) -> Option<Task>
    ensures task { result ≡ task_numbered number }
    ensures alone { IfSome result IsAlone }
{
    match number {
        0 => Some(Task::Apply),
        1 => Some(Task::Play {
            strict: false,
            transcript: false,
        }),
        2 => Some(Task::Play {
            strict: false,
            transcript: true,
        }),
        3 => Some(Task::Check),
        4 => Some(Task::Explain(Narrowing::ALL)),
        5 => Some(Task::Explain(AS_DATA)),
        _ => None,
    }
}
