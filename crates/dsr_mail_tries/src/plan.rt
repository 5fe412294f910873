//! What the command line asks for.

ghost use Rattle.std.specs.Prelude.{◌<◌};

use dsr_base::read_decimal;
use dsr_names::Shape;

/// The tries to make.
#[derive(Drop)]
pub(crate) struct Plan {
    /// The seed of the random choices.
    pub(crate) seed: u64,
    /// The number of tries that each thread makes.
    pub(crate) tries: u64,
    /// The shape of the mail.
    pub(crate) shape: Shape,
    /// The maximum number of seats at which a thread takes turns.
    seats: usize,
    ghost some: { 0 < seats },
}

impl Plan {
    /// Reads a plan: the seed, the tries of a thread, the maximum number of seats of a thread, and the shape. `None` if the words are wrong.
    pub(crate) fn read(words: &[String]) -> Option<Plan> {
        let [seed, tries, seats, shape] = words else {
            return None;
        };
        let seats = read_decimal(seats.as_bytes())?;
        if seats == 0 {
            return None;
        }
        Some(Plan {
            seed: read_decimal(seed.as_bytes())?,
            tries: read_decimal(tries.as_bytes())?,
            shape: Shape::read(shape.as_bytes())?.ok()?,
            seats: seats as usize,
        })
    }

    /// Returns the maximum number of seats at which a thread takes turns.
    pub(crate) fn seats(&self) -> usize
        ensures { 0 < result }
    {
        self.seats
    }
}
