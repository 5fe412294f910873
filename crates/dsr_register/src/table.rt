ghost use Rattle.std.specs.Prelude.{◌≡◌, ℕ, ◌<◌, ◌≤◌, ◌&&◌, [], List, None, Some, not, nat_le, length, if◌then◌else◌, IfOk, IfSome, IfNone, IsOkUnless};
ghost use Rattle.std.specs.List.{IsDistinct};
ghost use Rattle.std.specs.Map.{keys_of};
ghost use Rattle.std.specs.Str.{bytes_eq};
ghost use Rattle.indexmap.specs.IndexMap.{get, index_map_len, IsUnchanged};
ghost use Rattle.dsr_register.specs.Values.{is_blocked, most_registers};
ghost use Rattle.dsr_register.specs.Table.{held_in};
ghost use Rattle.dsr_register.specs.Support.Table.{held_entries, Changes, IsRoomy, most_entries};

use dsr_names::Refusal;
use dsr_request::Name;
use indexmap::IndexMap;
use std::alloc::Global;
use std::marker::Model;
use std::mem::replace;

/// The greatest number of registers that hold a value.
const MOST_REGISTERS: usize = 1024;

/// The greatest number of entries of a table: twice as many as can hold a value.
const MOST_ENTRIES: usize = 2 * MOST_REGISTERS;

/// Registers by their names, each with the value that it holds, or `None`.
type Entries = IndexMap<Name, Option<u64>>;

/// The registers that hold a value, at most 1,024, by their names. `new` allocates all its memory.
///
/// A register whose value is taken out keeps its entry, since no hash map guarantees that a removed entry gives its
/// room back. If a register needs an entry and all are in use, the table is swept: the entries that hold a value move
/// to the front, and the others are cut off, at least half of all. A map guarantees to give back the room of half of
/// its entries.
#[derive(Drop)]
pub(crate) struct Table {
    entries: Entries,
    held: usize,
}

impl Model for Table {
    ghost use Rattle.std.specs.Prelude.{List, ℕ};
    ghost use Rattle.dsr_register.specs.Support.Table.{held_entries};
    ghost use Rattle.dsr_register.specs.Support.TableFields.{IsTable};

    ghost Value = { List (List ℕ × ℕ) };

    ghost view = { λ t. held_entries t.entries.entries };

    ghost invariant = { IsTable };
}

/// Lets the register hold `held` and returns what it held before. Without an entry for the register, changes nothing
/// and returns `None`.
fn write(entries: &mut Entries, name: &Name, held: Option<u64>) -> Option<Option<u64>>
    requires { IsRoomy entries.old }
    ensures changes { IfSome result (λ before.
        Changes (held_entries entries.old.entries) (held_entries entries.new.entries) name.now before held) }
    ensures absent { IfNone result (get bytes_eq entries.old name.now ≡ None) }
    ensures unchanged { IfNone result (IsUnchanged entries.old entries.new) }
    ensures nothing { IfNone result
        (Changes (held_entries entries.old.entries) (held_entries entries.new.entries) name.now None None) }
    ensures roomy { IsRoomy entries.new }
{
    match entries.get_mut(name) {
        Some(place) => Some(replace(place, held)),
        None => None,
    }
}

/// Removes the entries that hold no value.
fn sweep(entries: &mut Entries)
    requires few { length (held_entries entries.old.entries) < most_registers }
    requires many { most_entries ≤ index_map_len entries.old }
    requires roomy { IsRoomy entries.old }
    ensures held { held_entries entries.new.entries ≡ held_entries entries.old.entries }
    ensures absent { (name : List ℕ) → get bytes_eq entries.old name ≡ None → get bytes_eq entries.new name ≡ None }
    ensures len { index_map_len entries.new < most_registers }
    ensures roomy { IsRoomy entries.new }
{
    let mut kept = 0;
    for place in 0..entries.len() {
        if entries[place].is_some() {
            entries.swap_indices(kept, place);
            kept += 1;
        }
    }
    entries.truncate(kept);
}

/// Makes room for an entry. Allocates nothing.
fn make_room(entries: &mut Entries)
    requires few { length (held_entries entries.old.entries) < most_registers }
    requires roomy { IsRoomy entries.old }
    ensures held { held_entries entries.new.entries ≡ held_entries entries.old.entries }
    ensures absent { (name : List ℕ) → get bytes_eq entries.old name ≡ None → get bytes_eq entries.new name ≡ None }
    ensures len { index_map_len entries.new < most_entries }
    ensures roomy { IsRoomy entries.new }
{
    if entries.len() >= MOST_ENTRIES {
        sweep(entries);
    }
}

/// Gives the register, which has none, an entry that holds the value.
fn add(entries: &mut Entries, name: Name, value: u64)
    requires absent { get bytes_eq entries.old name ≡ None }
    requires len { index_map_len entries.old < most_entries }
    requires roomy { IsRoomy entries.old }
    ensures changes { Changes (held_entries entries.old.entries) (held_entries entries.new.entries) name None (Some value) }
    ensures roomy { IsRoomy entries.new }
{
    entries.insert(name, Some(value)).unwrap();
}

impl Table {
    /// Creates a table in which no register holds a value. `NoMemory` if its room is refused.
    pub(crate) fn new(alloc: Global) -> Result<Table, Refusal>
        ensures empty { IfOk result (λ table. table ≡ []) }
        ensures refusal { IsOkUnless result Refusal.NoMemory }
    {
        let entries = IndexMap::with_capacity(alloc, MOST_ENTRIES)?;
        Ok(Table { entries, held: 0 })
    }

    /// Takes every value out, and keeps the room.
    pub(crate) fn clear(&mut self)
        ensures { self.new ≡ [] }
    {
        self.entries.clear();
        self.held = 0;
    }

    /// Returns what the register holds, or `None` if it holds nothing.
    pub(crate) fn get(&self, name: &Name) -> Option<u64>
        ensures held { result ≡ held_in self.now name.now }
        ensures distinct { IsDistinct bytes_eq (keys_of self.now) }
    {
        self.entries.get(name).copied().flatten()
    }

    /// Returns the number of registers that hold a value.
    pub(crate) fn len(&self) -> usize
        ensures count { result ≡ length self.now }
        ensures few { result ≤ most_registers }
        ensures distinct { IsDistinct bytes_eq (keys_of self.now) }
    {
        self.held
    }

    /// Tells whether the register may hold a value: it holds one, or fewer than 1,024 registers do.
    fn may_hold(&self, name: &Name) -> bool
        ensures may { result ≡ not (is_blocked (held_in self.now name.now) (nat_le most_registers (length self.now))) }
        ensures distinct { IsDistinct bytes_eq (keys_of self.now) }
    {
        self.len() < MOST_REGISTERS || self.get(name).is_some()
    }

    /// Lets the register hold the value and returns true. If it holds none and 1,024 registers hold one, changes nothing
    /// and returns false. Allocates nothing.
    pub(crate) fn put(&mut self, name: Name, value: u64) -> bool
        ensures done { result ≡ not (is_blocked (held_in self.old name) (nat_le most_registers (length self.old))) }
        ensures contents { (other : List ℕ) → held_in self.new other
            ≡ (if bytes_eq name other && result then Some value else held_in self.old other) }
        ensures distinct { IsDistinct bytes_eq (keys_of self.old) }
    {
        if !self.may_hold(&name) {
            return false;
        }
        let before = match write(&mut self.entries, &name, Some(value)) {
            Some(before) => before,
            None => {
                make_room(&mut self.entries);
                add(&mut self.entries, name, value);
                None
            }
        };
        if before.is_none() {
            self.held += 1;
        }
        true
    }

    /// Takes the register's value out and returns it, or `None` if it held nothing.
    pub(crate) fn take(&mut self, name: &Name) -> Option<u64>
        ensures held { result ≡ held_in self.old name.now }
        ensures contents { (other : List ℕ) → held_in self.new other
            ≡ (if bytes_eq name.now other then None else held_in self.old other) }
    {
        let before = write(&mut self.entries, name, None)?;
        if before.is_some() {
            self.held -= 1;
        }
        before
    }
}
