ghost use Rattle.std.specs.Prelude.{◌≡◌, ℕ, ◌≤◌, ◌↔◌, ◌∷◌, [], List, nat_le, length, if◌then◌else◌, IfOk, IsTrue, IsOkUnless};
ghost use Rattle.std.specs.List.{IsDistinct};
ghost use Rattle.std.specs.Map.{keys_of};
ghost use Rattle.std.specs.Str.{bytes_eq};
ghost use Rattle.dsr_request.specs.declared.op.Op.{Op};
ghost use Rattle.dsr_register.specs.Values.{value, count_held, answer_after, answer_on, left_by, most_registers};
ghost use Rattle.dsr_register.specs.Table.{held_in, StandsFor};

use crate::table::Table;
use dsr_names::Refusal;
use dsr_request::{Answer, Name, Op};
use std::alloc::Global;
use std::marker::Model;

/// The registers that hold a value, at most 1,024, by their names. `new` allocates all its memory.
#[derive(Drop)]
pub struct Directory {
    table: Table,
}

impl Model for Directory {
    ghost use Rattle.std.specs.Prelude.{List, ℕ};

    ghost Value = { List (List ℕ × ℕ) };

    ghost view = { λ d. d.table };
}

impl Directory {
    /// Creates a directory in which no register holds a value, with the room for all that it can ever
    /// hold. `NoMemory` if that room is refused.
    pub fn new(alloc: Global) -> Result<Directory, Refusal>
        ensures empty { IfOk result (λ directory. StandsFor directory []) }
        ensures refusal { IsOkUnless result Refusal.NoMemory }
    {
        let table = Table::new(alloc)?;
        Ok(Directory { table })
    }

    /// Takes every value out, and keeps the room.
    pub fn clear(&mut self)
        ensures { StandsFor self.new [] }
    {
        self.table.clear();
    }

    /// Returns what the register holds, or `None` if it holds nothing.
    pub fn get(&self, name: &Name) -> Option<u64>
        ensures held_in { result ≡ held_in self.now name.now }
        ensures value { (ops : List Op) → StandsFor self.now ops → result ≡ value ops name.now }
    {
        self.table.get(name)
    }

    /// Returns the number of registers that hold a value, at most 1,024.
    pub fn len(&self) -> usize
        ensures entries { result ≡ length self.now }
        ensures count { (ops : List Op) → StandsFor self.now ops → result ≡ count_held ops }
        ensures few { result ≤ most_registers }
    {
        self.table.len()
    }

    /// Tells whether no register holds a value.
    pub fn is_empty(&self) -> bool
        ensures { (ops : List Op) → StandsFor self.now ops → IsTrue result ↔ (count_held ops ≡ 0) }
    {
        self.len() == 0
    }

    /// Does the operation and returns its answer. Allocates nothing.
    pub fn apply(&mut self, op: Op) -> Answer
        ensures answer { (ops : List Op) → StandsFor self.old ops → result ≡ answer_after ops op }
        ensures change { (ops : List Op) → StandsFor self.old ops → StandsFor self.new (op ∷ ops) }
    {
        match op {
            Op::Read { name } => Answer::Held(self.get(&name)),
            Op::Write { name, value } => self.write(name, value),
            Op::Swap { name, from, to } => self.swap(name, from, to),
            Op::Remove { name } => Answer::Removed(self.table.take(&name)),
        }
    }

    /// Lets the register hold the value. Changes nothing and answers `Full` if it holds none and 1,024
    /// registers hold one.
    fn write(&mut self, name: Name, value: u64) -> Answer
        ensures distinct { IsDistinct bytes_eq (keys_of self.old) }
        ensures answer { result ≡ answer_on (Op.Write name value) (held_in self.old name) (nat_le most_registers (length self.old)) }
        ensures contents { (other : List ℕ) → held_in self.new other ≡ (if bytes_eq name other
            then left_by (Op.Write name value) (held_in self.old other) (nat_le most_registers (length self.old))
            else held_in self.old other) }
    {
        if self.table.put(name, value) {
            Answer::Written
        } else {
            Answer::Full
        }
    }

    /// Lets the register hold `to`. Changes nothing and answers `Kept` if it does not hold `from`, or
    /// else `Full` if it holds none and 1,024 registers hold one.
    fn swap(&mut self, name: Name, from: Option<u64>, to: u64) -> Answer
        ensures distinct { IsDistinct bytes_eq (keys_of self.old) }
        ensures answer { result ≡ answer_on (Op.Swap name from to) (held_in self.old name) (nat_le most_registers (length self.old)) }
        ensures contents { (other : List ℕ) → held_in self.new other ≡ (if bytes_eq name other
            then left_by (Op.Swap name from to) (held_in self.old other) (nat_le most_registers (length self.old))
            else held_in self.old other) }
    {
        let held = self.table.get(&name);
        if held != from {
            Answer::Kept(held)
        } else if self.table.put(name, to) {
            Answer::Swapped
        } else {
            Answer::Full
        }
    }
}
