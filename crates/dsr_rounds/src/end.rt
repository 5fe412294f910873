use dsr_names::Refusal;

/// Why a host ended before its work was done.
#[derive(Clone, Copy, Debug, PartialEq, Eq)]
pub enum End {
    /// The service told its hosts to stop.
    Told,
    /// Something refused it: its gate, a limit of its log, or memory that ran out.
    Fault(Refusal),
}
