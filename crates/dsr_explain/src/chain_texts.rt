//! The texts about a chain, each written once for all that take it.

ghost use Rattle.std.specs.Prelude.{◌≡◌, ℕ, IfSome, string_bytes};
ghost use Rattle.std.specs.Option.{option_map};
ghost use Rattle.dsr_explain.specs.Lines.{not_new_end, or_empty};
ghost use Rattle.dsr_notes.specs.declared.note.ChainFate.TheVariants.{Read as ReadIn};
ghost use Rattle.dsr_slot.specs.declared.fate.Fate.TheVariants.{NotNew as KeptBefore};

use crate::chain_lines::{write_data_end, write_shown_data, write_shown_words, write_words};
use crate::tokens::Tokens;
use dsr_chain::Chain;
use dsr_names::{Refusal, Shape};
use dsr_notes::ChainFate;
use dsr_reasons::Writer;
use dsr_slot::Fate;
use std::alloc::Global;

/// Initial buffer size in bytes; most texts fit.
const ROOM: usize = 120;

/// The text that describes a chain, and the end of its line if its content is not new: most actors that take a chain have already kept its content.
#[derive(Drop)]
pub(crate) struct ChainText {
    as_data: bool,
    /// What describes the chain, which does not depend on its fate.
    pub(crate) shown: String,
    /// The chain's slot, and the slot's round in which a proper chain with as many signatures is read.
    slot: u64,
    round: u8,
    /// The end of its line in that round, if its content is not new.
    not_new: String,
    ghost is: { string_bytes not_new ≡ not_new_end as_data (string_bytes shown) slot round },
}

impl ChainText {
    /// Writes the texts about the chain, either data or words. `NoMemory` if memory runs out.
    pub(crate) fn of(
        alloc: Global,
        tokens: &mut Tokens,
        shape: &Shape,
        chain: &Chain,
        as_data: bool,
    ) -> Result<ChainText, Refusal> {
        let shown = show(alloc, tokens, chain, as_data).finish()?;
        let (slot, round) = (chain.slot(), chain.signature_count() as u8);
        let not_new = end_of_not_new(alloc, tokens, shape, as_data, &shown, slot, round).finish()?;
        Ok(ChainText {
            as_data,
            shown,
            slot,
            round,
            not_new,
        })
    }
}

/// Writes the text that describes the chain.
fn show(alloc: Global, tokens: &mut Tokens, chain: &Chain, as_data: bool) -> Writer {
    let mut shown = Writer::new(alloc);
    shown.reserve(ROOM);
    if as_data {
        write_shown_data(&mut shown, tokens, chain);
    } else {
        write_shown_words(&mut shown, chain);
    }
    shown
}

/// Writes the end of the line of a chain that is not new in this round of its slot, and that `shown` describes.
fn end_of_not_new(
    alloc: Global,
    tokens: &mut Tokens,
    shape: &Shape,
    as_data: bool,
    shown: &String,
    slot: u64,
    round: u8,
) -> Writer
    ensures { result ≡ not_new_end as_data (string_bytes shown.now) slot round }
{
    let mut end = Writer::new(alloc);
    end.reserve(ROOM);
    let fate = ChainFate::Read {
        round,
        fate: Fate::NotNew,
    };
    if as_data {
        write_data_end(&mut end, Some(shown), slot, &fate);
    } else {
        write_words(&mut end, tokens, shape, None, Some(shown), slot, &fate);
    }
    end
}

/// Returns what describes the chain, if there is a text that does.
pub(crate) fn shown_in(text: Option<&ChainText>) -> Option<&String>
    ensures { option_map (λ s. string_bytes s.now) result ≡ option_map (λ t. string_bytes t.now.shown) text.entry }
{
    match text {
        Some(text) => Some(&text.shown),
        None => None,
    }
}

/// Returns the end of the chain's line, if the chain is not new and the end is written for this form, this slot, and the round of it in which the chain is
/// read.
pub(crate) fn end_if_not_new<'a>(
    text: Option<&'a ChainText>,
    as_data: bool,
    slot: u64,
    fate: &ChainFate,
) -> Option<&'a String>
    ensures { IfSome result (λ end. (round : ℕ) × (fate.now ≡ ReadIn round KeptBefore)
        × (string_bytes end.now ≡ not_new_end as_data (or_empty (option_map (λ t. string_bytes t.now.shown) text.entry)) slot round)) }
{
    let Some(text) = text else {
        return None;
    };
    match fate {
        ChainFate::Read {
            round,
            fate: Fate::NotNew,
        } if text.as_data == as_data && text.slot == slot && text.round == *round => Some(
            &text.not_new,
        ),
        _ => None,
    }
}
