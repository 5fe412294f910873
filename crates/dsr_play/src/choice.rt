ghost use Rattle.std.specs.Prelude.{◌≡◌, IsOk, IfOk, IsOkUnless};
ghost use Rattle.dsr_envelope.specs.declared.pick.Pick.TheVariants.{Plain};

use dsr_envelope::Pick;
use dsr_names::Refusal;
use std::alloc::Global;
use std::marker::Model;

/// The choice of a post, in little room: a choice that is not the plain one is behind a handle.
/// Contracts see it as that `Pick`.
#[derive(Drop)]
pub struct Choice {
    other: Option<Box<Pick, Global>>,
}

impl Model for Choice {
    ghost use Rattle.std.specs.Prelude.{box_value, unwrap_or};
    ghost use Rattle.std.specs.Option.{option_map};
    ghost use Rattle.dsr_envelope.specs.declared.pick.Pick.{Pick};
    ghost use Rattle.dsr_envelope.specs.declared.pick.Pick.TheVariants.{Plain};

    ghost Value = { Pick };

    ghost view = { λ c. unwrap_or (option_map box_value c.other) Plain };
}

impl Choice {
    /// Makes the plain choice. It takes no memory.
    pub fn plain() -> Choice
        ensures { result ≡ Plain }
    {
        Choice { other: None }
    }

    /// Puts the choice in little room. `NoMemory` if memory runs out: a plain choice takes none.
    pub fn of(alloc: Global, pick: Pick) -> Result<Choice, Refusal>
        ensures made { IfOk result (λ choice. choice ≡ pick) }
        ensures plain { pick ≡ Plain → IsOk result }
        ensures refusal { IsOkUnless result Refusal.NoMemory }
    {
        match pick {
            Pick::Plain => Ok(Choice::plain()),
            other => {
                let other = Box::new(alloc, other)?;
                Ok(Choice { other: Some(other) })
            }
        }
    }

    /// Returns the choice, and leaves the plain one in its place.
    pub(crate) fn take(&mut self) -> Choice
        ensures taken { result ≡ self.old }
        ensures plain { self.new ≡ Plain }
    {
        Choice {
            other: self.other.take(),
        }
    }

    /// Returns the choice.
    pub fn pick(&self) -> Pick
        ensures { result ≡ self.now }
    {
        match &self.other {
            Some(other) => **other,
            None => Pick::Plain,
        }
    }
}
