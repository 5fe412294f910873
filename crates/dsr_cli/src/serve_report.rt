//! Writes the outcome of a service in lines of text.

ghost use Rattle.std.specs.Prelude.{◌≡◌, ◌<◌, ◌++◌, IfOk, IsOkUnless, string_bytes};
ghost use Rattle.dsr_run.specs.History.{accepted_by};
ghost use Rattle.dsr_mail.specs.Logs.{logs_of};
ghost use Rattle.dsr_reports.specs.Report.{accepted_text, replies_text};
ghost use Rattle.dsr_cli.specs.Served.{served_text};

use dsr_mail::Logs;
use dsr_names::{ClientId, Refusal};
use dsr_reasons::Writer;
use dsr_reports::{write_history, write_replies};
use std::alloc::Global;

/// Returns the report of a service with these logs: what each client accepted, and the history. `NoMemory` if memory runs out.
pub(crate) fn report_of(alloc: Global, logs: &Logs) -> Result<String, Refusal>
    ensures text { IfOk result (λ report. string_bytes report ≡ served_text logs.now) }
    ensures refusal { IsOkUnless result Refusal.NoMemory }
{
    let mut report = Writer::new(alloc);
    write_accepted(&mut report, logs);
    write_history(&mut report, logs.history());
    report.finish()
}

/// Writes the replies that each client accepted.
fn write_accepted(out: &mut Writer, logs: &Logs)
    ensures { out.new ≡ out.old ++ accepted_text logs.now.shape (logs_of logs.now) }
{
    for number in 0..logs.shape().m() {
        write_accepted_by(out, logs, ClientId::of(number));
    }
}

/// Writes the replies that this client accepted. Requires a client of the shape.
fn write_accepted_by(out: &mut Writer, logs: &Logs, client: ClientId)
    requires { client < logs.now.shape.m }
    ensures { out.new ≡ out.old ++ replies_text client (accepted_by logs.now.shape (logs_of logs.now) client) }
{
    write_replies(out, client, logs.accepted(client));
}
