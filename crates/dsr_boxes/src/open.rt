//! Opens the boxes, with one pass for each actor.

ghost use Rattle.std.specs.Prelude.{◌≡◌, ◌<◌, ◌*◌, [], ◌∷◌, IfOk, OnOk, IsOkUnless, replicate, vec_len};
ghost use Rattle.dsr_names.specs.Places.{size, actor_at};
ghost use Rattle.dsr_names.specs.Shape.{IsAllowed};
ghost use Rattle.dsr_boxes.specs.Pass.{new_pass, new_passes};
ghost use Rattle.dsr_boxes.specs.View.{keeping};

use crate::pass::Pass;
use crate::rule::{Deal, Memory, Token};
use crate::shared_boxes::SharedBoxes;
use dsr_names::{Refusal, Shape};
use std::alloc::Global;
use std::sync::atomic::AtomicU64;

impl SharedBoxes {
    /// Makes the boxes between the actors of the shape, all empty, and a pass with an empty log for each actor, in order of place. `NoMemory` if
    /// memory runs out.
    pub fn open(alloc: Global, shape: Shape) -> Result<(SharedBoxes, Vec<Pass>), Refusal>
        ensures shape { IfOk result (λ made. made.0.shape ≡ shape) }
        ensures passes { IfOk result (λ made. made.1.items ≡ new_passes made.0 (size made.0.shape)) }
        ensures refusal { IsOkUnless result Refusal.NoMemory }
    {
        let words = first_words(alloc, &shape)?;
        let sleepers = no_sleepers(alloc, shape.size())?;
        let count = shape.size() * shape.size();
        let (memory, token): (Memory, Token) = Memory::vacant(
            alloc,
            words.as_slice(),
            count,
            &shape,
        )?;
        let boxes = SharedBoxes {
            memory,
            shape,
            sleepers,
        };
        let passes = boxes.deal(alloc, token)?;
        Ok((boxes, passes))
    }

    /// Splits the first token into a pass for each actor. `NoMemory` if memory runs out.
    fn deal(&self, alloc: Global, token: Token) -> Result<Vec<Pass>, Refusal>
        requires id { token.table_id ≡ self.now.id }
        requires all { token.me ≡ (keeping self.now.shape (replicate (size self.now.shape) []), []) }
        ensures passes { IfOk result (λ passes. passes.items ≡ new_passes self.now (size self.now.shape)) }
        ensures refusal { IsOkUnless result Refusal.NoMemory }
    {
        let mut token = token;
        let mut left = self.shape.size();
        let mut passes = Vec::with_capacity(alloc, left)?;
        while left > 0 {
            left -= 1;
            let pass = self.part(&mut token, left);
            passes.push(pass)?;
        }
        passes.reverse();
        Ok(passes)
    }

    /// Returns the pass of the actor at `place`, split from the token of all actors up to it.
    fn part(&self, token: &mut Token, place: usize) -> Pass
        requires id { token.old.table_id ≡ self.now.id }
        requires place { place < size self.now.shape }
        requires all { token.old.me ≡ (keeping self.now.shape ([] ∷ replicate place []), []) }
        ensures id { token.new.table_id ≡ token.old.table_id }
        ensures rest { token.new.me ≡ (keeping self.now.shape (replicate place []), []) }
        ensures pass { result ≡ new_pass self.now (actor_at self.now.shape place) }
    {
        let actor = self.shape.actor_at(place);
        let own = self.memory.shared.split_seat::<Deal>(token);
        Pass { token: own, actor }
    }
}

/// Makes the words of new boxes: four that hold the shape, and a 0 for each box. `NoMemory` if memory runs out.
fn first_words(alloc: Global, shape: &Shape) -> Result<Vec<u64>, Refusal>
    ensures words { IfOk result (λ words. words.items
        ≡ shape.now.n ∷ shape.now.f ∷ shape.now.m ∷ shape.now.traitors ∷ replicate (size shape.now * size shape.now) 0) }
    ensures allowed { OnOk result (IsAllowed shape.now) }
    ensures refusal { IsOkUnless result Refusal.NoMemory }
{
    let mut words = Vec::from_elem(alloc, 0u64, 4 + shape.size() * shape.size())?;
    words[0] = shape.n() as u64;
    words[1] = shape.f() as u64;
    words[2] = shape.m() as u64;
    words[3] = shape.traitors() as u64;
    Ok(words)
}

/// Makes `places` notes of actors that do not sleep. `NoMemory` if memory runs out.
fn no_sleepers(alloc: Global, places: usize) -> Result<Vec<AtomicU64>, Refusal>
    ensures count { IfOk result (λ sleepers. vec_len sleepers ≡ places) }
    ensures refusal { IsOkUnless result Refusal.NoMemory }
{
    let mut sleepers = Vec::with_capacity(alloc, places)?;
    for _ in 0..places {
        sleepers.push(AtomicU64::new(0))?;
    }
    Ok(sleepers)
}
