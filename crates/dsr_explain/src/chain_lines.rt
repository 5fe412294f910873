//! The line of a chain that a replica takes: data if `as_data`, otherwise words. `specs/Lines` says which line.

ghost use Rattle.std.specs.Prelude.{◌≡◌, ◌++◌, [], codes, false, true, if◌then◌else◌, string_bytes};
ghost use Rattle.std.specs.Option.{option_map};
ghost use Rattle.dsr_names.specs.Actor.{actor_text};
ghost use Rattle.dsr_desk.specs.ContentText.{content_text};
ghost use Rattle.dsr_desk.specs.SignersText.{signers_text};
ghost use Rattle.dsr_chain.specs.Chain.{link_after, signers_of};
ghost use Rattle.dsr_chain.specs.Content.{content};
ghost use Rattle.dsr_explain.specs.Lines.{chain_line, chain_data, chain_data_end, chain_words, or_empty, chain_word, chain_end, round_of, fate_content, fate_detail, fate_text, fault_detail, fault_text, misfit_text, misfit_told, shown_data, shown_words};

use crate::chain_texts::{ChainText, end_if_not_new, shown_in};
use crate::pieces::{put_content, put_named, put_numbered};
use crate::shared::Shared;
use crate::tokens::Tokens;
use dsr_chain::{Chain, ChainFault};
use dsr_desk::{Signature, Signers, Statement};
use dsr_names::{Actor, Shape};
use dsr_notes::ChainFate;
use dsr_reasons::{Writer, one_of};
use dsr_slot::Fate;

/// Writes what becomes of a chain of this slot, which `text` describes. In words its content and the details of its fault come from the chain itself.
pub(crate) fn write_chain(
    out: &mut Writer,
    tokens: &mut Tokens,
    as_data: bool,
    shape: &Shape,
    at: Actor,
    chain: Option<&Chain>,
    text: Option<&ChainText>,
    slot: u64,
    fate: &ChainFate,
)
    ensures { out.new ≡ out.old
        ++ chain_line as_data shape.now at (option_map (λ c. c.now) chain.entry) (or_empty (option_map (λ t. string_bytes t.now.shown) text.entry)) slot fate.now }
{
    if let Some(end) = end_if_not_new(text, as_data, slot, fate) {
        return write_not_new(out, tokens, as_data, at, end);
    }
    let shown = shown_in(text);
    if as_data {
        write_data(out, tokens, at, shown, slot, fate)
    } else {
        write_words(out, tokens, shape, chain, shown, slot, fate)
    }
}

/// Writes the line of a chain that is not new, which ends so; words are all in this end.
fn write_not_new(out: &mut Writer, tokens: &mut Tokens, as_data: bool, at: Actor, end: &String)
    ensures { out.new ≡ out.old
        ++ (if as_data then codes "chain " ++ (actor_text at ++ string_bytes end.now) else string_bytes end.now) }
{
    if as_data {
        tokens.put(out, &Shared::Chain(at));
    }
    out.put_text(end);
}

/// Writes a text that describes a chain, as data: its signers and its content.
pub(crate) fn write_shown_data(out: &mut Writer, tokens: &mut Tokens, chain: &Chain)
    ensures { out.new ≡ out.old ++ shown_data chain.now }
{
    write_signed(out, tokens, chain);
    out.put(" ");
}

/// Writes who signed a chain, and its content, as data.
pub(crate) fn write_signed(out: &mut Writer, tokens: &mut Tokens, chain: &Chain)
    ensures { out.new ≡ out.old
        ++ (codes " " ++ (signers_text (signers_of chain.now.signatures) ++ (codes " " ++ content_text (content chain.now.value)))) }
{
    out.put(" ");
    out.put_signers(chain.signers().as_slice());
    out.put(" ");
    put_content(out, tokens, chain);
}

/// Writes a text that describes a chain, in words: its signers.
pub(crate) fn write_shown_words(out: &mut Writer, chain: &Chain)
    ensures { out.new ≡ out.old ++ shown_words chain.now }
{
    out.put(", signed by ");
    out.put_signers(chain.signers().as_slice());
}

/// Writes what describes a chain, if there is a text that does.
fn put_shown(out: &mut Writer, shown: Option<&String>)
    ensures { out.new ≡ out.old ++ or_empty (option_map (λ s. string_bytes s.now) shown.entry) }
{
    match shown {
        Some(shown) => out.put_text(shown),
        None => {}
    }
}

/// Writes what becomes of a chain that this actor took, as data.
fn write_data(
    out: &mut Writer,
    tokens: &mut Tokens,
    at: Actor,
    shown: Option<&String>,
    slot: u64,
    fate: &ChainFate,
)
    ensures { out.new ≡ out.old ++ chain_data at (or_empty (option_map (λ s. string_bytes s.now) shown.entry)) slot fate.now }
{
    tokens.put(out, &Shared::Chain(at));
    write_data_end(out, shown, slot, fate)
}

/// Writes what becomes of a chain, as data, after whose chain it is.
pub(crate) fn write_data_end(out: &mut Writer, shown: Option<&String>, slot: u64, fate: &ChainFate)
    ensures { out.new ≡ out.old ++ chain_data_end (or_empty (option_map (λ s. string_bytes s.now) shown.entry)) slot fate.now }
{
    put_numbered(out, " ", slot);
    put_numbered(out, " ", round_of(fate));
    put_shown(out, shown);
    write_word(out, fate);
    out.put("\n");
}

/// Returns the round of its slot in which a chain is read; 0 if its slot is not in flight.
fn round_of(fate: &ChainFate) -> u64
    ensures { result ≡ round_of fate.now }
{
    match fate {
        ChainFate::Read { round, .. } => *round as u64,
        ChainFate::NotInFlight => 0,
    }
}

/// Writes the word for what becomes of a chain.
fn write_word(out: &mut Writer, fate: &ChainFate)
    ensures { out.new ≡ out.old ++ chain_word fate.now }
{
    match fate {
        ChainFate::Read { fate, .. } => out.put(fate_text(true, fate)),
        ChainFate::NotInFlight => out.put("not-in-flight"),
    }
}

/// Writes what becomes of a chain, in words.
pub(crate) fn write_words(
    out: &mut Writer,
    tokens: &mut Tokens,
    shape: &Shape,
    chain: Option<&Chain>,
    shown: Option<&String>,
    slot: u64,
    fate: &ChainFate,
)
    ensures { out.new ≡ out.old
        ++ chain_words shape.now (option_map (λ c. c.now) chain.entry) (or_empty (option_map (λ s. string_bytes s.now) shown.entry)) slot fate.now }
{
    put_numbered(out, "    chain of slot ", slot);
    put_shown(out, shown);
    write_end(out, tokens, shape, chain, fate);
    out.put("\n");
}

/// Writes the end of a chain's line of words.
fn write_end(
    out: &mut Writer,
    tokens: &mut Tokens,
    shape: &Shape,
    chain: Option<&Chain>,
    fate: &ChainFate,
)
    ensures { out.new ≡ out.old
        ++ chain_end shape.now (option_map (λ c. c.now) chain.entry) fate.now }
{
    match fate {
        ChainFate::NotInFlight => out.put(": dropped, as the slot is not in flight"),
        ChainFate::Read { round, fate } => {
            write_fate_content(out, tokens, chain, fate);
            put_numbered(out, ", in its round ", *round as u64);
            out.put(": ");
            out.put(fate_text(false, fate));
            write_fate_detail(out, shape, chain, fate)
        }
    }
}

/// Writes the content of a chain with this fate. Only the text of the envelope shows a content that is kept already.
fn write_fate_content(out: &mut Writer, tokens: &mut Tokens, chain: Option<&Chain>, fate: &Fate)
    ensures { out.new ≡ out.old ++ fate_content (option_map (λ c. c.now) chain.entry) fate.now }
{
    let Some(chain) = chain else {
        return;
    };
    match fate {
        Fate::NotNew => {}
        Fate::First | Fate::Second | Fate::OneTooMany | Fate::Improper(_) => {
            out.put(", for ");
            put_content(out, tokens, chain)
        }
    }
}

/// Returns what becomes of a chain that is read.
fn fate_text(as_data: bool, fate: &Fate) -> &'static str
    ensures { result.now ≡ fate_text as_data fate.now }
{
    match fate {
        Fate::First => one_of(as_data, "first", "kept, as the first content"),
        Fate::Second => one_of(
            as_data,
            "second",
            "kept, as the second content: the slot will be idle",
        ),
        Fate::NotNew => one_of(
            as_data,
            "not-new",
            "not new, as its content is kept already",
        ),
        Fate::OneTooMany => one_of(
            as_data,
            "one-too-many",
            "one too many, as two other contents are kept already",
        ),
        Fate::Improper(fault) => fault_text(as_data, fault),
    }
}

/// Returns why a chain is not proper.
fn fault_text(as_data: bool, fault: &ChainFault) -> &'static str
    ensures { result.now ≡ fault_text as_data fault.now }
{
    match fault {
        ChainFault::OtherSlot => one_of(
            as_data,
            "other-slot",
            "not proper (other-slot): the chain is of another slot",
        ),
        ChainFault::WrongCount => one_of(
            as_data,
            "wrong-count",
            "not proper (wrong-count): the chain does not have as many signatures as the round's number",
        ),
        ChainFault::WrongSender => one_of(
            as_data,
            "wrong-sender",
            "not proper (wrong-sender): the first signer is not the sender of the slot",
        ),
        ChainFault::NoReplica => one_of(
            as_data,
            "no-replica",
            "not proper (no-replica): a signer is no replica of the shape",
        ),
        ChainFault::SignedTwice => one_of(
            as_data,
            "signed-twice",
            "not proper (signed-twice): a signer signed twice",
        ),
        ChainFault::Misfit => one_of(
            as_data,
            "misfit",
            "not proper (misfit): a signature is on a statement that does not fit its place",
        ),
        ChainFault::BadRequest => one_of(
            as_data,
            "bad-request",
            "not proper (bad-request): a request is not signed by its client, a client of the shape",
        ),
    }
}

/// Writes the details of a chain's fate.
fn write_fate_detail(out: &mut Writer, shape: &Shape, chain: Option<&Chain>, fate: &Fate)
    ensures { out.new ≡ out.old ++ fate_detail shape.now (option_map (λ c. c.now) chain.entry) fate.now }
{
    let Some(chain) = chain else {
        return;
    };
    match fate {
        Fate::First | Fate::Second | Fate::NotNew | Fate::OneTooMany => {}
        Fate::Improper(fault) => write_fault_detail(out, shape, chain, fault),
    }
}

/// Writes the details of a chain's fault: how many signatures the chain has, who is the sender of its slot, or which statement does not fit.
fn write_fault_detail(out: &mut Writer, shape: &Shape, chain: &Chain, fault: &ChainFault)
    ensures { out.new ≡ out.old ++ fault_detail shape.now chain.now fault.now }
{
    match fault {
        ChainFault::WrongCount => put_numbered(out, ", but ", chain.signature_count() as u64),
        ChainFault::WrongSender => {
            let sender = Actor::Replica(shape.sender(chain.slot()));
            put_named(out, ", which is ", sender)
        }
        ChainFault::Misfit => write_misfit(out, chain),
        ChainFault::OtherSlot
        | ChainFault::NoReplica
        | ChainFault::SignedTwice
        | ChainFault::BadRequest => {}
    }
}

/// Writes who signed the first statement that does not fit its place, this statement, and the one that would fit there.
fn write_misfit(out: &mut Writer, chain: &Chain)
    ensures { out.new ≡ out.old
        ++ misfit_text chain.now.slot chain.now.value [] chain.now.signatures }
{
    let mut before = Signers::new();
    for place in 0..chain.signature_count() {
        let signature = chain.signature(place);
        let link = link_after(chain, before);
        if !signature.statement().same(&link) {
            return tell_misfit(out, &signature, &link);
        }
        before.push(signature.signer());
    }
}

/// Writes who signed a statement that does not fit its place, this statement, and the one that would fit there.
fn tell_misfit(out: &mut Writer, signature: &Signature, link: &Statement)
    ensures { out.new ≡ out.old ++ misfit_told signature.now link.now }
{
    put_named(out, ": ", signature.signer());
    out.put(" signed ");
    out.put_statement(signature.statement());
    out.put(", where ");
    out.put_statement(link);
    out.put(" fits");
}

/// Returns the statement that fits in the chain after these signers.
fn link_after(chain: &Chain, before: Signers) -> Statement
    ensures { result ≡ link_after chain.now.slot chain.now.value before }
{
    Statement::Link {
        slot: chain.slot(),
        value: chain.content(),
        before,
    }
}
