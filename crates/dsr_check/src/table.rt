ghost use Rattle.std.specs.Prelude.{◌≡◌, ℕ, ◌<◌, ◌∷◌, [], List, None, nat_le, length, if◌then◌else◌, IfOk, IfErr, IsSome};
ghost use Rattle.std.specs.Cmp.Lexicographic.{slice_cmp};
ghost use Rattle.std.specs.Ordering.{nat_cmp};
ghost use Rattle.std.specs.Str.{bytes_eq};
ghost use Rattle.dsr_request.specs.declared.op.Op.{Op};
ghost use Rattle.dsr_register.specs.Values.{answer_after, answer_on, left_by, most_registers};
ghost use Rattle.dsr_register.specs.Table.{held_in, StandsFor};
ghost use Rattle.dsr_check.specs.Support.Table.{IsAt, IsGap, IsInOrder};

use arrayvec::ArrayVec;
use dsr_request::{Answer, Name, Op};
use std::cmp::Ordering;
use std::marker::Model;

/// The most registers that hold a value.
const MOST_REGISTERS: usize = 1024;

/// A register that holds a value.
#[derive(Clone, Copy, Debug)]
struct Register {
    name: Name,
    value: u64,
}

impl Model for Register {
    ghost use Rattle.std.specs.Prelude.{List, ℕ};

    ghost Value = { List ℕ × ℕ };

    ghost view = { λ r. (r.name, r.value) };

    ghost inverse = { λ p. record { name = p.0; value = p.1 } };
}

impl Default for Register {
    fn default() -> Self {
        match Name::read(b"-") {
            Ok(name) => Register { name, value: 0 },
            Err(_) => unreachable!(),
        }
    }
}

/// The registers that hold a value, at most 1,024, in the order of their names. The table is of fixed size, so it
/// needs no allocator; a name is found by halving.
#[derive(Drop)]
pub(crate) struct Table {
    registers: ArrayVec<Register, MOST_REGISTERS>,
}

impl Model for Table {
    ghost use Rattle.std.specs.Prelude.{List, ℕ};
    ghost use Rattle.dsr_check.specs.Support.Table.{IsInOrder};

    ghost Value = { List (List ℕ × ℕ) };

    ghost view = { λ t. t.registers.items };

    ghost invariant = { λ t. IsInOrder t.registers.items };
}

/// Compares the register's name with this one, byte by byte.
fn compared(register: &Register, name: &Name) -> Ordering
    ensures { result ≡ slice_cmp nat_cmp register.now.0 name.now }
{
    register.name.as_bytes().cmp(name.as_bytes())
}

/// Returns what the operation leaves in its register, which held this.
fn leaves(op: &Op, held: Option<u64>, full: bool) -> Option<u64>
    ensures { result ≡ left_by op.now held full }
{
    let blocked = held.is_none() && full;
    match op {
        Op::Read { .. } => held,
        Op::Write { value, .. } => { if blocked { held } else { Some(*value) } }
        Op::Swap { from, to, .. } => {
            if held == *from && !blocked {
                Some(*to)
            } else {
                held
            }
        }
        Op::Remove { .. } => None,
    }
}

/// Returns what the operation answers on its register, which held this.
fn answers(op: &Op, held: Option<u64>, full: bool) -> Answer
    ensures { result ≡ answer_on op.now held full }
{
    let blocked = held.is_none() && full;
    match op {
        Op::Read { .. } => Answer::Held(held),
        Op::Write { .. } if blocked => Answer::Full,
        Op::Write { .. } => Answer::Written,
        Op::Swap { from, .. } if held != *from => Answer::Kept(held),
        Op::Swap { .. } if blocked => Answer::Full,
        Op::Swap { .. } => Answer::Swapped,
        Op::Remove { .. } => Answer::Removed(held),
    }
}

impl Table {
    /// Makes a table in which no register holds a value.
    pub(crate) fn new() -> Table
        ensures { result ≡ [] }
    {
        Table {
            registers: ArrayVec::new(),
        }
    }

    /// Does the operation, and returns its answer.
    pub(crate) fn apply(&mut self, op: &Op) -> Answer
        ensures answer { (ops : List Op) → StandsFor self.old ops → result ≡ answer_after ops op.now }
        ensures change { (ops : List Op) → StandsFor self.old ops → StandsFor self.new (op.now ∷ ops) }
    {
        let name = op.name();
        let held = self.get(&name);
        let full = self.registers.len() >= MOST_REGISTERS;
        let left = leaves(op, held, full);
        if left != held {
            self.put(&name, left);
        }
        answers(op, held, full)
    }

    /// Returns what the register holds.
    fn get(&self, name: &Name) -> Option<u64>
        ensures held { result ≡ held_in self.now name.now }
        ensures order { IsInOrder self.now }
    {
        match self.search(name) {
            Ok(place) => {
                let register = &self.registers[place];
                Some(register.value)
            }
            Err(_) => None,
        }
    }

    /// Makes the register hold this, or nothing. If it holds nothing and is to hold a value, requires room for it.
    fn put(&mut self, name: &Name, left: Option<u64>)
        requires room { IsSome left → held_in self.old name.now ≡ None → length self.old < most_registers }
        ensures { (other : List ℕ) → held_in self.new other ≡ (if bytes_eq name.now other then left else held_in self.old other) }
    {
        match (self.search(name), left) {
            (Ok(place), Some(value)) => self.registers[place] = Register { name: *name, value },
            (Ok(place), None) => {
                self.registers.remove(place);
            }
            (Err(place), Some(value)) => self
                .registers
                .insert(place, Register { name: *name, value }),
            (Err(_), None) => {}
        }
    }

    /// Returns the register's place as `Ok`, or the place that it would get as `Err`.
    fn search(&self, name: &Name) -> Result<usize, usize>
        ensures found { IfOk result (IsAt self.now name.now) }
        ensures absent { IfErr result (IsGap self.now name.now) }
        ensures order { IsInOrder self.now }
    {
        self.registers
            .as_slice()
            .binary_search_by(|register| compared(register, name))
    }
}
