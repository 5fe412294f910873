ghost use Rattle.std.specs.Prelude.{◌≡◌};
ghost use Rattle.dsr_rounds.specs.Ends.{turn_after};

use dsr_names::NUMBER_END;

/// The number of a host's next turn, which the host tells its gate.
#[derive(Drop)]
pub struct Turn {
    number: u64,
}

impl Turn {
    /// Returns the first turn, number 0.
    pub fn first() -> Turn
        ensures { result.number ≡ 0 }
    {
        Turn { number: 0 }
    }

    /// Returns the turn's number, and moves on to the next turn, whose number is one higher; 2^40-1
    /// is the last number, and stays.
    pub fn count(&mut self) -> u64
        ensures now { result ≡ self.old.number }
        ensures next { self.new.number ≡ turn_after self.old.number }
    {
        let number = self.number;
        if number < NUMBER_END - 1 {
            self.number = number + 1;
        }
        number
    }
}
