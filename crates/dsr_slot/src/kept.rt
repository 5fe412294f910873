ghost use Rattle.std.specs.Prelude.{◌≡◌, IfOk, IsOkUnless};

use dsr_chain::Chain;
use dsr_names::Refusal;

/// A chain that a replica keeps (extracts, in the words of Dolev and Strong 1983).
#[derive(Drop)]
pub struct Kept {
    /// The round of the slot in which it was read, counted from 1.
    pub round: u8,
    /// The chain. In the state of a slot it is proper for that round.
    pub chain: Chain,
}

impl Kept {
    /// Returns a copy, which shares what the chain holds. `NoMemory` if one more handle is refused.
    pub fn try_copy(&self) -> Result<Kept, Refusal>
        ensures same { IfOk result (λ copy. copy ≡ self.now) }
        ensures refusal { IsOkUnless result Refusal.NoMemory }
    {
        let chain = self.chain.try_copy()?;
        Ok(Kept {
            round: self.round,
            chain,
        })
    }
}
