//! Does a task with a text in memory, and puts what it writes into memory that the caller lends.

ghost use Rattle.std.specs.Prelude.{◌≡◌, length};
ghost use Rattle.dsr_cli.specs.Status.{IsAlone};
ghost use Rattle.dsr_page.specs.Done.{HasDone, HasPrefixOf};

use dsr_cli::{USAGE_FAULT, run_task};
use dsr_command::Task;
use std::alloc::Global;

/// How a task ended, and how much it wrote.
#[repr(C)]
#[derive(Clone, Copy, Debug)]
pub struct Done {
    /// The exit status of `dsr`.
    pub status: u64,
    /// How many bytes were written on standard output.
    pub written: u64,
    /// How many bytes were written on standard error.
    pub told: u64,
}

/// The outcome for a number that no task has: the call did nothing.
pub(crate) const UNKNOWN: Done = Done {
    status: USAGE_FAULT as u64,
    written: 0,
    told: 0,
};

/// Does the task with the text, and puts as much as there is room for of what it writes into `output` and `errors`.
pub(crate) fn perform(
    alloc: Global,
    task: Task,
    text: &[u8],
    output: &mut [u8],
    errors: &mut [u8],
) -> Done
    requires { IsAlone task }
    ensures { HasDone task text.now result output.new errors.new }
{
    let mut input = text;
    let mut written: Vec<u8> = Vec::new(alloc);
    let mut told: Vec<u8> = Vec::new(alloc);
    let status = run_task(alloc, task, &mut input, &mut written, &mut told);
    give(written.as_slice(), output);
    give(told.as_slice(), errors);
    Done {
        status: status as u64,
        written: written.len() as u64,
        told: told.len() as u64,
    }
}

/// Copies to the beginning of the room as many of the first bytes as it can hold.
fn give(bytes: &[u8], room: &mut [u8])
    ensures given { HasPrefixOf bytes.now room.new }
    ensures room { length room.new ≡ length room.old }
{
    let count = bytes.len().min(room.len());
    room[..count].copy_from_slice(&bytes[..count]);
}
