//! A static library for the page: the tasks of `dsr` that start no threads. They read a text in memory, and write into memory from the caller.
#![tactic(auto)]

ghost use Rattle.std.specs.Prelude.{IfNone, IfSome};
ghost use Rattle.dsr_page.specs.Done.{HasDone, IsUnknown};
ghost use Rattle.dsr_page.specs.Tasks.{task_numbered};

mod memory;
mod task;

pub use memory::Done;
use std::alloc::Global;

/// Does the task of this number with the text, like `dsr` with its standard input. What `dsr` writes on standard output goes to `output`, and
/// what it writes on standard error to `errors`: of each as much as there is room for. `done` gets the exit status, and the whole length of each.
/// The numbers are those of `task_numbered`; for any other number the call does nothing, and the status is 2.
///
/// The call does not free the memory of a play, so it is for a module that the caller drops afterwards.
#[unsafe(no_mangle)]
pub extern "C" fn dsr_page_run(
    alloc: Global,
    number: u64,
    text: &[u8],
    output: &mut [u8],
    errors: &mut [u8],
    done: &mut Done,
)
    ensures done { IfSome (task_numbered number) (λ named. HasDone named text.now done.new output.new errors.new) }
    ensures unknown { IfNone (task_numbered number) (IsUnknown done.new) }
{
    *done = match task::task_numbered(number) {
        Some(named) => memory::perform(alloc, named, text, output, errors),
        None => memory::UNKNOWN,
    };
}
