ghost use Rattle.std.specs.Prelude.{◌≡◌, ◌<◌, ◌∷◌, [], Some, true, false, IfOk, OnOk, IsOkUnless, reverse, vec_len, vec_capacity};
ghost use Rattle.dsr_envelope.specs.declared.entry.Entry.TheVariants.{Post as PostEntry, Take as TakeEntry};
ghost use Rattle.dsr_envelope.specs.declared.envelope.Envelope.{Envelope};

use crate::local_letter::LocalLetter;
use dsr_envelope::{Entry, Letter};
use dsr_names::{Actor, Refusal};
use std::alloc::Global;

/// The steps of a run in order, if they are kept: who took each, and the entry of that actor's log.
#[derive(Drop)]
pub(crate) struct Entries {
    are_kept: bool,
    items: Vec<(Actor, Entry)>,
}

impl Entries {
    /// Keeps each step from now on.
    pub(crate) fn kept(alloc: Global) -> Entries
        ensures kept { result.are_kept ≡ true }
        ensures none { result.items.items ≡ [] }
    {
        Entries {
            are_kept: true,
            items: Vec::new(alloc),
        }
    }

    /// Keeps no step.
    pub(crate) fn not_kept(alloc: Global) -> Entries {
        Entries {
            are_kept: false,
            items: Vec::new(alloc),
        }
    }

    /// Returns the kept steps.
    pub(crate) fn as_slice(&self) -> &[(Actor, Entry)]
        ensures { result.now ≡ self.now.items.items }
    {
        self.items.as_slice()
    }

    /// Makes room for one more step if steps are kept. `NoMemory` if that is refused; if there is room already, it cannot fail.
    pub(crate) fn make_room(&mut self) -> Result<(), Refusal>
        ensures kept { self.new.are_kept ≡ self.old.are_kept }
        ensures same { self.new.items.items ≡ self.old.items.items }
        ensures room { OnOk result (self.new.are_kept ≡ true → vec_len self.new.items < vec_capacity self.new.items) }
        ensures refusal { IsOkUnless result Refusal.NoMemory }
    {
        if !self.are_kept {
            return Ok(());
        }
        if self.items.len() < self.items.capacity() {
            return Ok(());
        }
        match self.items.reserve(1) {
            Ok(()) => Ok(()),
            Err(_) => Err(Refusal::NoMemory),
        }
    }

    /// Makes room for one more step, and returns a handle of its letter to keep, if steps are kept. `NoMemory` if memory runs out or one more
    /// handle is refused.
    #[inline(always)]
    pub(crate) fn make_room_for(&mut self, letter: &LocalLetter) -> Result<Option<Letter>, Refusal>
        ensures kept { self.new.are_kept ≡ self.old.are_kept }
        ensures same { self.new.items.items ≡ self.old.items.items }
        ensures room { OnOk result (self.new.are_kept ≡ true → vec_len self.new.items < vec_capacity self.new.items) }
        ensures copy { self.old.are_kept ≡ true → IfOk result (λ copy. copy ≡ Some letter.now) }
        ensures refusal { IsOkUnless result Refusal.NoMemory }
    {
        if !self.are_kept {
            return Ok(None);
        }
        self.make_room()?;
        let copy = letter.letter().try_copy()?;
        Ok(Some(copy))
    }

    /// Adds a post if steps are kept. Requires that there is room then.
    #[inline(always)]
    pub(crate) fn keep_post(&mut self, from: &Actor, to: &Actor, copy: Option<Letter>)
        requires { self.old.are_kept ≡ true → vec_len self.old.items < vec_capacity self.old.items }
        ensures kept { self.new.are_kept ≡ self.old.are_kept }
        ensures added { (x : Envelope) → self.old.are_kept ≡ true → copy ≡ Some x
            → reverse self.new.items.items ≡ (from.now, PostEntry to.now x) ∷ reverse self.old.items.items }
    {
        if !self.are_kept {
            return;
        }
        let Some(envelope) = copy else {
            return;
        };
        self.items
            .push_reserved((*from, Entry::Post { to: *to, envelope }));
    }

    /// Adds a take if steps are kept. Requires that there is room then.
    #[inline(always)]
    pub(crate) fn keep_take(&mut self, at: &Actor, from: &Actor, copy: Option<Letter>)
        requires { self.old.are_kept ≡ true → vec_len self.old.items < vec_capacity self.old.items }
        ensures kept { self.new.are_kept ≡ self.old.are_kept }
        ensures added { (x : Envelope) → self.old.are_kept ≡ true → copy ≡ Some x
            → reverse self.new.items.items ≡ (at.now, TakeEntry from.now x) ∷ reverse self.old.items.items }
    {
        if !self.are_kept {
            return;
        }
        let Some(envelope) = copy else {
            return;
        };
        self.items.push_reserved((
            *at,
            Entry::Take {
                from: *from,
                envelope,
            },
        ));
    }
}
