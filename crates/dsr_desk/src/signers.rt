use dsr_base::UpTo;
use dsr_names::Actor;

/// The greatest number of signers in one list.
pub const MOST_SIGNERS: usize = 16;

/// A list of at most 16 actors, of fixed size, copied without allocating. In its text plus signs join them, like
/// `r0+r1`; the text of an empty list is `-`.
pub type Signers = UpTo<Actor, MOST_SIGNERS>;
