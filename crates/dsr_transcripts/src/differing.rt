//! How an envelope differs from the one that its actor posts there.

ghost use Rattle.std.specs.Prelude.{◌≡◌, ◌<◌, ◌++◌, length, slice_get};
ghost use Rattle.dsr_facts.specs.Difference.{IsDifference};
ghost use Rattle.dsr_facts.specs.declared.difference.Difference.TheVariants.{OtherRound, Chains, OtherAsk};
ghost use Rattle.dsr_transcripts.specs.Why.{ask_text, chain_text, chains_in, difference_text, new_ask_text, number_in, parted_of, parted_text, parting_end, parting_word, round_in, rounds_text};

use crate::words::put_numbers;
use dsr_chain::Chain;
use dsr_envelope::Envelope;
use dsr_facts::{Difference, Parting};
use dsr_reasons::Writer;

/// Writes how the posted envelope differs from the wanted one. Requires that it differs like this. `current` is the number of the actor's outstanding
/// request.
pub(crate) fn write_difference(
    out: &mut Writer,
    as_data: bool,
    current: Option<u64>,
    wanted: &Envelope,
    posted: &Envelope,
    how: &Difference,
)
    requires { IsDifference wanted.now posted.now how.now }
    ensures { out.new ≡ out.old ++ difference_text as_data current wanted.now posted.now how.now }
{
    match how {
        Difference::OtherKind => out.put_one(
            as_data,
            "other-kind",
            "it posts an envelope of another kind there",
        ),
        Difference::OtherRound => write_rounds(out, as_data, wanted, posted),
        Difference::Chains { place, how } => write_chains(
            out, as_data, wanted, posted, *place, *how,
        ),
        Difference::OtherAsk => write_ask(out, as_data, current, wanted, posted),
        Difference::OtherReply => out.put_one(
            as_data,
            "other-reply",
            "it gives another reply there",
        ),
        Difference::OtherFront => out.put_one(as_data, "other-front", "its seen front is another"),
    }
}

/// Writes which round is in progress, and the round of the envelope. Requires that both envelopes are of rounds, and differ in them.
fn write_rounds(out: &mut Writer, as_data: bool, wanted: &Envelope, posted: &Envelope)
    requires { IsDifference wanted.now posted.now OtherRound }
    ensures { out.new ≡ out.old ++ rounds_text as_data (round_in wanted.now) (round_in posted.now) }
{
    let Some(ours) = round_of(wanted) else {
        unreachable!()
    };
    let Some(theirs) = round_of(posted) else {
        unreachable!()
    };
    put_numbers(
        out,
        as_data,
        "other-round ",
        "it is in round ",
        ours,
        ", and the envelope is of round ",
        theirs,
    )
}

/// Returns the round of the envelope, if it is of one.
fn round_of(envelope: &Envelope) -> Option<u64>
    ensures { result ≡ round_in envelope.now }
{
    match envelope {
        Envelope::Round { round, .. } => Some(*round),
        Envelope::Empty | Envelope::Ask(_) | Envelope::Reply(_) | Envelope::Seen(_) => None,
    }
}

/// Writes what is wrong with a chain. Requires that the chains of both envelopes part at this place.
fn write_chains(
    out: &mut Writer,
    as_data: bool,
    wanted: &Envelope,
    posted: &Envelope,
    place: u64,
    how: Parting,
)
    requires { IsDifference wanted.now posted.now (Chains place how) }
    ensures { out.new ≡ out.old
        ++ parted_text as_data place (slice_get (chains_in (parted_of how wanted.now posted.now)) place) how }
{
    let chains = chains_of(parted_of(how, wanted, posted));
    write_parted(out, as_data, chains, place, how)
}

/// Returns the envelope that has the wrong chain.
fn parted_of<'a>(how: Parting, wanted: &'a Envelope, posted: &'a Envelope) -> &'a Envelope
    ensures { result.now ≡ parted_of how wanted.now posted.now }
{
    match how {
        Parting::Missing => wanted,
        Parting::TooMany | Parting::Misplaced | Parting::OtherContent => posted,
    }
}

/// Returns the chains of the envelope.
fn chains_of(envelope: &Envelope) -> &[Chain]
    ensures { result.now ≡ chains_in envelope.now }
{
    match envelope {
        Envelope::Round { chains, .. } => chains.as_slice(),
        Envelope::Empty | Envelope::Ask(_) | Envelope::Reply(_) | Envelope::Seen(_) => &[],
    }
}

/// Writes what is wrong with the chain at this place. Requires that there is one.
fn write_parted(out: &mut Writer, as_data: bool, chains: &[Chain], place: u64, how: Parting)
    requires { place < length chains.now }
    ensures { out.new ≡ out.old ++ parted_text as_data place (slice_get chains.now place) how }
{
    // For the proof: the number of chains fits.
    let _count = chains.len();
    write_chain(out, as_data, place + 1, &chains[place as usize], how)
}

/// Writes what is wrong with the chain, which has this number in its envelope.
fn write_chain(out: &mut Writer, as_data: bool, number: u64, chain: &Chain, how: Parting)
    ensures { out.new ≡ out.old ++ chain_text as_data number chain.now how }
{
    out.put_one(as_data, parting_word(how), "its chain ");
    out.put_number(number);
    out.put_one(as_data, " ", ", of slot ");
    out.put_number(chain.slot());
    out.put_one(as_data, " ", " and signed by ");
    out.put_signers(chain.signers().as_slice());
    out.put_one(as_data, "", parting_end(how));
}

/// Returns the word for what is wrong with a chain.
fn parting_word(how: Parting) -> &'static str
    ensures { result.now ≡ parting_word how }
{
    match how {
        Parting::TooMany => "chain-too-many ",
        Parting::Missing => "chain-missing ",
        Parting::Misplaced => "chain-misplaced ",
        Parting::OtherContent => "chain-other-content ",
    }
}

/// Returns the end of the sentence about it.
fn parting_end(how: Parting) -> &'static str
    ensures { result.now ≡ parting_end how }
{
    match how {
        Parting::TooMany => ", is one too many",
        Parting::Missing => ", is missing",
        Parting::Misplaced => ", is in the wrong place",
        Parting::OtherContent => ", has another content or signature there",
    }
}

/// Writes what is wrong with the ask. Requires that both envelopes are asks, and differ.
fn write_ask(
    out: &mut Writer,
    as_data: bool,
    current: Option<u64>,
    wanted: &Envelope,
    posted: &Envelope,
)
    requires { IsDifference wanted.now posted.now OtherAsk }
    ensures { out.new ≡ out.old ++ ask_text as_data current (number_in wanted.now) (number_in posted.now) }
{
    let Some(next) = number_of(wanted) else {
        unreachable!()
    };
    let Some(number) = number_of(posted) else {
        unreachable!()
    };
    match current {
        None => write_new_ask(out, as_data, next, number),
        Some(_) => put_numbers(
            out,
            as_data,
            "other-outstanding ",
            "its ask ",
            number,
            " is not for its outstanding request ",
            next,
        ),
    }
}

/// Returns the number of the request that the envelope asks for, if it is an ask.
fn number_of(envelope: &Envelope) -> Option<u64>
    ensures { result ≡ number_in envelope.now }
{
    match envelope {
        Envelope::Ask(ask) => Some(ask.signed().request.number()),
        Envelope::Empty | Envelope::Round { .. } | Envelope::Reply(_) | Envelope::Seen(_) => None,
    }
}

/// Writes what is wrong with an ask of this number, if no request is outstanding and the client's next request has the number `next`.
fn write_new_ask(out: &mut Writer, as_data: bool, next: u64, number: u64)
    ensures { out.new ≡ out.old ++ new_ask_text as_data next number }
{
    if number < next {
        return put_numbers(
            out,
            as_data,
            "number-used ",
            "its request ",
            number,
            " is answered, and its next one is ",
            next,
        );
    }
    if next < number {
        return put_numbers(
            out,
            as_data,
            "number-too-high ",
            "the number ",
            number,
            " is too high: its next request is ",
            next,
        );
    }
    out.put_one(
        as_data,
        "not-own",
        "the request or its signature is not its own",
    )
}
