ghost use Rattle.std.specs.Prelude.{◌≡◌, ◌↔◌, ◌⊎◌, ℕ, ◌<◌, true, false, None, Some, Any, IfOk, OnOk, OnErr, IsOkUnless, IsSome, length, slice_index_or};
ghost use Rattle.dsr_base.specs.Member.{In};
ghost use Rattle.dsr_base.specs.Boxes.{box_at, row_of};
ghost use Rattle.dsr_names.specs.declared.actor.Actor.{Actor};
ghost use Rattle.dsr_desk.specs.Signature.{Signature};
ghost use Rattle.dsr_envelope.specs.Envelope.{Carries};
ghost use Rattle.dsr_world.specs.Support.StageFields.{is_posted_again, kept_of, with_letter};

use crate::local_letter::LocalLetter;
use dsr_base::Boxes;
use dsr_desk::Key;
use dsr_envelope::Envelope;
use dsr_names::{Actor, Refusal};
use dsr_script::Known;
use std::alloc::Global;

/// Returns `count` entries, all `None`: no letter is stored. `NoMemory` if memory runs out.
pub(crate) fn no_letters(alloc: Global, count: usize) -> Result<Vec<Option<LocalLetter>>, Refusal>
    ensures count { IfOk result (λ letters. length letters.items ≡ count) }
    ensures none { IfOk result (λ letters. (place : ℕ) → slice_index_or letters.items place None ≡ None) }
    ensures refusal { IsOkUnless result Refusal.NoMemory }
{
    let mut letters = Vec::with_capacity(alloc, count)?;
    for _ in 0..count {
        letters.push(None)?;
    }
    Ok(letters)
}

/// Returns a copy of the letter if it is to be stored: if it is posted to replica 0. `NoMemory`
/// if one more handle is refused.
pub(crate) fn kept_of(to: &Actor, letter: &LocalLetter) -> Result<Option<LocalLetter>, Refusal>
    ensures kept { IfOk result (λ kept. kept ≡ kept_of to.now letter.now) }
    ensures refusal { IsOkUnless result Refusal.NoMemory }
{
    match to {
        Actor::Replica(taker) if taker.number() == 0 => Ok(Some(letter.try_copy()?)),
        _ => Ok(None),
    }
}

/// Stores the letter of a post at its poster's place; does nothing for `None`.
#[inline(always)]
pub(crate) fn keep_letter(
    letters: &mut Vec<Option<LocalLetter>>,
    place: usize,
    letter: Option<LocalLetter>,
)
    requires { place < length letters.old.items }
    ensures { letters.new.items ≡ with_letter place letter letters.old.items }
{
    if let Some(letter) = letter {
        letters[place] = Some(letter);
    }
}

/// Returns the letter in the box from one actor to another. Requires that the box holds one.
pub(crate) fn lent(boxes: &Boxes<LocalLetter>, from: usize, to: usize) -> &LocalLetter
    requires inside { from < length boxes.now }
    requires row { to < length (row_of boxes.now from) }
    requires full { IsSome (box_at boxes.now from to).item }
    ensures { (box_at boxes.now from to).item ≡ Some result.now }
{
    match boxes.item(from, to) {
        Some(letter) => letter,
        None => unreachable!(),
    }
}

/// Notes the signatures of a loyal actor's post as known. It notes nothing of a replica's post to a replica other than replica 0: the same
/// was posted to replica 0, so those signatures are already known. Without a traitor's key it notes nothing, because nobody could send
/// them on. `NoMemory` if memory runs out: then nothing changes.
#[inline(always)]
pub(crate) fn learn(
    known: &mut Known,
    keys: &[Key],
    from: &Actor,
    to: &Actor,
    envelope: &Envelope,
) -> Result<(), Refusal>
    ensures learned { is_posted_again from.now to.now ≡ false → (holder : Actor) → Any (λ h. h ≡ holder) keys.now → (s : Signature)
        → OnOk result (In s known.new.signatures ↔ (In s known.old.signatures ⊎ Carries envelope.now s)) }
    ensures again { is_posted_again from.now to.now ≡ true → known.new.signatures ≡ known.old.signatures }
    ensures stays { OnErr result (known.new.signatures ≡ known.old.signatures) }
    ensures refusal { IsOkUnless result Refusal.NoMemory }
{
    if keys.is_empty() || is_posted_again(from, to) {
        Ok(())
    } else {
        known.learn(envelope)
    }
}

/// Tells whether a replica posts to a replica other than replica 0. A loyal one has posted the same to replica 0 already.
fn is_posted_again(from: &Actor, to: &Actor) -> bool
    ensures { result ≡ is_posted_again from.now to.now }
{
    match (from, to) {
        (Actor::Replica(_), Actor::Replica(taker)) => taker.number() > 0,
        _ => false,
    }
}
