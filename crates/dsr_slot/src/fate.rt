use dsr_chain::ChainFault;

/// What becomes of a chain that is read in a round of a slot.
#[derive(Clone, Copy, Debug, PartialEq, Eq)]
pub enum Fate {
    /// It is kept as the first.
    First,
    /// It is kept beside one chain with another content.
    Second,
    /// It is proper, but its content is kept already.
    NotNew,
    /// It is proper, but two other contents are kept already.
    OneTooMany,
    /// It is not proper, and this is the first fault that holds.
    Improper(ChainFault),
}
