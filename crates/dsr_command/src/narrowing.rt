//! Which parts of a play to explain, and how the words after `explain` name them.

ghost use Rattle.std.specs.Prelude.{◌≡◌, None, Some, length, map};
ghost use Rattle.std.specs.Option.{option_and_then};
ghost use Rattle.dsr_command.specs.Asked.{all_of_it, an_option, asked_after_explain, asked_by_other};
ghost use Rattle.dsr_command.specs.Values.{actor_of, slot_of};
ghost use Rattle.dsr_command.specs.Wishes.{asked_by, first_of, is_short_help};
ghost use Rattle.std.proofs.Common.{rules};

use dsr_base::Exact;
use dsr_names::{Actor, read_num};
use std::convert::AsStr;

/// Which parts of a play to explain: those that pass every filter here; without filters, all of it.
#[derive(Clone, Copy, Debug, PartialEq, Eq)]
pub struct Narrowing {
    /// Only this slot, if `Some`.
    pub slot: Option<u64>,
    /// Only this actor, if `Some`.
    pub actor: Option<Actor>,
    /// Only the refused events.
    pub refused: bool,
    /// Whether to write lines for programs in place of sentences.
    pub as_data: bool,
}

impl Narrowing {
    /// All of a play, in sentences.
    pub const ALL: Narrowing = Narrowing {
        slot: None,
        actor: None,
        refused: false,
        as_data: false,
    };
}

impl Exact for Narrowing {
    ghost use Rattle.dsr_command.specs.Support.TaskEquality.{narrowing_eq-Decides};

    ghost decides = { narrowing_eq-Decides };

    ghost clones = { λ a b. Prim.search rules };
}

/// What the words after `explain` ask for.
#[derive(Drop)]
pub(crate) enum Wish {
    /// An explanation of a play, narrowed like this.
    Explain(Narrowing),
    /// The help.
    Help,
    /// Something that the program does not know.
    Unknown,
}

/// Returns what the words after `explain` ask for.
pub(crate) fn wish_of<S: AsStr>(words: &[S]) -> Wish
    ensures { asked_by result ≡ asked_after_explain an_option all_of_it (map S.text words.now) }
{
    further_wish(words, Narrowing::ALL)
}

/// Returns what the words ask for if those before them have narrowed the explanation to `so_far`. Each option may be
/// given at most once, so it calls itself at most four times.
fn further_wish<S: AsStr>(words: &[S], so_far: Narrowing) -> Wish
    ensures { asked_by result ≡ asked_after_explain an_option so_far (map S.text words.now) }
{
    let [word, rest @ ..] = words else {
        return Wish::Explain(so_far);
    };
    let word = word.as_str();
    if word == "--slot" && so_far.slot.is_none() {
        let Some(slot) = first_slot(rest) else {
            return Wish::Unknown;
        };
        let slot = Some(slot);
        return further_wish(&rest[1..], Narrowing { slot, ..so_far });
    }
    if word == "--actor" && so_far.actor.is_none() {
        let Some(actor) = first_actor(rest) else {
            return Wish::Unknown;
        };
        let actor = Some(actor);
        return further_wish(&rest[1..], Narrowing { actor, ..so_far });
    }
    if word == "--refused" && !so_far.refused {
        let refused = true;
        return further_wish(rest, Narrowing { refused, ..so_far });
    }
    if word == "--data" && !so_far.as_data {
        let as_data = true;
        return further_wish(rest, Narrowing { as_data, ..so_far });
    }
    other_wish(word)
}

/// Returns the slot that the first word names; `None` if it does not name one, and for an empty list.
#[tactic(auto, using(crate::proofs::WishLemmas::slot_read))]
fn first_slot<S: AsStr>(words: &[S]) -> Option<u64>
    ensures { result ≡ option_and_then slot_of (first_of (map S.text words.now)) }
{
    match words {
        [] => None,
        [word, ..] => read_num(word.as_str().as_bytes()),
    }
}

/// Returns the actor that the first word names; `None` if it does not name one, and for an empty list.
#[tactic(auto, using(crate::proofs::WishLemmas::actor_read))]
fn first_actor<S: AsStr>(words: &[S]) -> Option<Actor>
    ensures { result ≡ option_and_then actor_of (first_of (map S.text words.now)) }
{
    match words {
        [] => None,
        [word, ..] => Actor::read(word.as_str().as_bytes()),
    }
}

/// Returns what a word that is not an option asks for: the help, or nothing known.
fn other_wish(word: &str) -> Wish
    ensures { asked_by result ≡ asked_by_other word.now }
{
    if word == "--help" || is_short_help(word) {
        Wish::Help
    } else {
        Wish::Unknown
    }
}

/// Tells whether the word is a hyphen followed by characters that begin with `h`.
fn is_short_help(word: &str) -> bool
    ensures { result ≡ is_short_help word.now }
{
    match word.strip_prefix('-') {
        Some(flags) => flags.chars().next() == Some('h'),
        None => false,
    }
}
