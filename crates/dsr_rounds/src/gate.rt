//! Gates, which let a host go on or stop it.

ghost use Rattle.std.specs.Prelude.{◌≡◌, ℕ, true, false};
ghost use Rattle.dsr_names.specs.declared.actor.Actor.{Actor};

use dsr_names::Actor;

/// Decides whether a host goes on. A replica's or a traitor's host asks it before each try, a client's before each call.
pub trait Gate {
    // The actors to which it may answer false.
    ghost may_refuse: { Self → Actor → Type 0 };

    // The turns of an actor to which it may answer true: all, unless a gate says otherwise.
    ghost may_pass: { Self → Actor → ℕ → Type 0 } = { λ _ _ _. Unit {0} };

    /// Returns whether the actor goes on with this turn. The turns of a host are counted from 0, and its turn stays at 2^40-1 once it is there.
    /// It answers false for a turn that the gate may not let pass, and true to an actor that the gate may not refuse.
    fn pass(&self, actor: Actor, turn: u64) -> bool
        ensures passed { result ≡ true → may_pass self.now actor turn }
        ensures refused { result ≡ false → may_refuse self.now actor };
}
