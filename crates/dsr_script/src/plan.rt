use crate::said::SaidRequest;
use crate::said_chain::SaidChains;
use dsr_ledger::Reply;

/// The cases of a draft: those of an envelope that is not empty.
#[derive(Drop)]
pub(crate) enum Plan {
    /// The chains of a global round.
    Round {
        /// The global round.
        round: u64,
        /// The chains.
        chains: SaidChains,
    },
    /// A client's request.
    Ask(SaidRequest),
    /// A replica's reply.
    Reply(Reply),
    /// A client's seen front.
    Seen(u64),
}
