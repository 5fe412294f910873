//! The line of each note: data if `as_data`, otherwise words. `specs/Lines` says which line; each kind of note has its words at one place.

ghost use Rattle.std.specs.Prelude.{◌≡◌, ◌++◌, if◌then◌else◌, map, codes, slice_get, string_bytes};
ghost use Rattle.std.specs.Option.{option_map};
ghost use Rattle.dsr_request.specs.RequestText.{request_token};
ghost use Rattle.dsr_desk.specs.ContentText.{content_text};
ghost use Rattle.dsr_run.specs.Step.{log_of};
ghost use Rattle.dsr_reasons.specs.Reason.{actor_of, other_of};
ghost use Rattle.dsr_explain.specs.Lines.{about, about_reply, kept_data, kept_words, note_line, other_round_line, kept_line, closed_line, decided_content, decided_line, kept_text, acted_line, stale_line, held_line, unproposed_line, vote_line, no_vote_text, no_vote_line, accepted_line};

use crate::chain_lines::{write_chain, write_shown_words, write_signed};
use crate::chain_texts::ChainText;
use crate::pieces::{put_content, put_decision, put_named, put_numbered};
use crate::standing::decision_of;
use crate::tokens::Tokens;
use dsr_chain::Chain;
use dsr_ledger::Reply;
use dsr_names::Actor;
use dsr_notes::{NoVote, Note};
use dsr_reasons::{Writer, actor_of, one_of, other_of};
use dsr_request::Request;
use dsr_slot::Kept;
use dsr_world::{Event, Stage};

/// Writes the line of the note, which is one of the event. `chains` are those of the envelope that it posted or took, and `texts` describe them.
pub(crate) fn write_note(
    out: &mut Writer,
    tokens: &mut Tokens,
    as_data: bool,
    stage: &Stage,
    event: &Event,
    chains: &[Chain],
    texts: &[ChainText],
    note: &Note,
)
    ensures { out.new ≡ out.old
        ++ note_line as_data stage.now.shape (log_of stage.now.run) (actor_of event.now) (other_of event.now) chains.now
        (map (λ text. string_bytes text.shown) texts.now) note.now }
{
    let (at, other) = (actor_of(event), other_of(event));
    match note {
        Note::OtherRound { round } => write_other_round(out, as_data, at, *round),
        Note::Chain { place, slot, fate } => {
            let chain = chain_at(chains, *place as usize);
            let text = text_at(texts, *place as usize);
            write_chain(
                out,
                tokens,
                as_data,
                stage.shape(),
                at,
                chain,
                text,
                *slot,
                fate,
            )
        }
        Note::Kept(kept) => write_kept(out, tokens, as_data, at, kept),
        Note::Closed { round } => write_closed(out, as_data, at, *round),
        Note::Decided { slot, kept } => {
            write_decided(out, tokens, as_data, stage, at, *slot, *kept)
        }
        Note::Acted { place, request, .. } => {
            write_acted(out, tokens, as_data, at, *place, request)
        }
        Note::Stale { request, .. } => write_stale(out, tokens, as_data, at, request),
        Note::Held { request } => write_held(out, tokens, as_data, at, request),
        Note::Vote { count, needed } => write_vote(out, as_data, at, other, *count, *needed),
        Note::NoVote { why } => write_no_vote(out, as_data, at, other, *why),
        Note::Accepted { reply } => write_accepted(out, as_data, at, reply),
        Note::Unproposed { slot, request } => write_unproposed(out, as_data, at, *slot, request),
    }
}

/// Returns the chain at this place; `None` if there is none.
fn chain_at(chains: &[Chain], place: usize) -> Option<&Chain>
    ensures { option_map (λ c. c.now) result ≡ slice_get chains.now place }
{
    chains.get(place)
}

/// Returns the texts at this place; `None` if there are none.
fn text_at(texts: &[ChainText], place: usize) -> Option<&ChainText>
    ensures { option_map (λ t. string_bytes t.now.shown) result ≡ slice_get (map (λ text. string_bytes text.shown) texts.now) place }
{
    texts.get(place)
}

/// Writes the beginning of a line: the word, the actor and the number if `as_data`, otherwise the actor, the verb and the number.
pub(crate) fn put_about(
    out: &mut Writer,
    as_data: bool,
    word: &'static str,
    at: Actor,
    verb: &'static str,
    number: u64,
)
    ensures { out.new ≡ out.old ++ about as_data word.now at verb.now number }
{
    out.put_one(as_data, word, "    ");
    out.put_name(at);
    out.put_one(as_data, " ", verb);
    out.put_number(number);
}

/// Ends a line with the text and the request.
fn end_with(out: &mut Writer, tokens: &mut Tokens, text: &'static str, request: &Request)
    ensures { out.new ≡ out.old ++ (text.now ++ (request_token request.now ++ codes "\n")) }
{
    out.put(text);
    tokens.put_request(out, request);
    out.put("\n");
}

/// Writes that an envelope is not one of the round in progress.
fn write_other_round(out: &mut Writer, as_data: bool, at: Actor, round: u64)
    ensures { out.new ≡ out.old ++ other_round_line as_data at round }
{
    put_about(out, as_data, "silence ", at, " is in round ", round);
    out.put_one(
        as_data,
        "\n",
        ": this is not its envelope, and counts as no chains\n",
    )
}

/// Writes that a chain was kept.
fn write_kept(out: &mut Writer, tokens: &mut Tokens, as_data: bool, at: Actor, kept: &Kept)
    ensures { out.new ≡ out.old ++ kept_line as_data at kept.now }
{
    let slot = kept.chain.slot();
    put_about(out, as_data, "kept ", at, " has kept of slot ", slot);
    put_kept(out, tokens, as_data, kept);
    out.put("\n");
}

/// Appends how a chain was kept: the round of its slot in which it was read, its signers and its content.
fn put_kept(out: &mut Writer, tokens: &mut Tokens, as_data: bool, kept: &Kept)
    ensures { out.new ≡ out.old ++ (if as_data then kept_data kept.now else kept_words kept.now) }
{
    let round = kept.round as u64;
    if as_data {
        put_numbered(out, " ", round);
        write_signed(out, tokens, &kept.chain);
    } else {
        out.put(": ");
        put_content(out, tokens, &kept.chain);
        put_numbered(out, ", read in the slot's round ", round);
        write_shown_words(out, &kept.chain);
    }
}

/// Writes that a round is closed.
fn write_closed(out: &mut Writer, as_data: bool, at: Actor, round: u64)
    ensures { out.new ≡ out.old ++ closed_line as_data at round }
{
    let verb = " has taken from all replicas, and closes round ";
    put_about(out, as_data, "close ", at, verb, round);
    out.put("\n");
}

/// Writes what was decided for a slot, for which this many chains were kept.
fn write_decided(
    out: &mut Writer,
    tokens: &mut Tokens,
    as_data: bool,
    stage: &Stage,
    at: Actor,
    slot: u64,
    kept: u8,
)
    ensures { out.new ≡ out.old
        ++ decided_line as_data at slot kept (decided_content stage.now.shape (log_of stage.now.run) at slot) }
{
    put_about(out, as_data, "decide ", at, " decides slot ", slot);
    if as_data {
        put_numbered(out, " ", kept as u64);
        put_decided(out, tokens, " ", stage, &at, slot);
        out.put("\n");
    } else {
        put_decided(out, tokens, ": ", stage, &at, slot);
        out.put(reason_of(kept));
        out.put("\n");
    }
}

/// Appends the text and the content that the actor decided for the slot.
fn put_decided(
    out: &mut Writer,
    tokens: &mut Tokens,
    text: &'static str,
    stage: &Stage,
    at: &Actor,
    slot: u64,
)
    ensures { out.new ≡ out.old
        ++ (text.now ++ content_text (decided_content stage.now.shape (log_of stage.now.run) at.now slot)) }
{
    out.put(text);
    match decision_of(stage, at, slot) {
        Some(decision) => put_decision(out, tokens, decision),
        None => out.put("idle"),
    }
}

/// Returns the words for why a slot has its content, by how many chains were kept for it.
fn reason_of(kept: u8) -> &'static str
    ensures { result.now ≡ kept_text kept }
{
    match kept {
        0 => ", as it kept no chain",
        1 => ", the one content that it kept",
        _ => ", as it kept two contents",
    }
}

/// Writes that a request acted, at this place of the history.
fn write_acted(
    out: &mut Writer,
    tokens: &mut Tokens,
    as_data: bool,
    at: Actor,
    place: u64,
    request: &Request,
)
    ensures { out.new ≡ out.old ++ acted_line as_data at place request.now }
{
    if as_data {
        put_about(out, true, "act ", at, "", place);
        end_with(out, tokens, " ", request);
    } else {
        out.put("    ");
        tokens.put_request(out, request);
        put_named(out, " acts at ", at);
        put_numbered(out, ", at place ", place);
        out.put(" of the history\n");
    }
}

/// Writes that a request did not act.
fn write_stale(out: &mut Writer, tokens: &mut Tokens, as_data: bool, at: Actor, request: &Request)
    ensures { out.new ≡ out.old ++ stale_line as_data at request.now }
{
    if as_data {
        put_named(out, "stale ", at);
        end_with(out, tokens, " ", request);
    } else {
        out.put("    ");
        tokens.put_request(out, request);
        put_named(out, " does not act at ", at);
        out.put(": a request of its client with this number or a greater one has acted already\n");
    }
}

/// Writes that a replica holds a request.
fn write_held(out: &mut Writer, tokens: &mut Tokens, as_data: bool, at: Actor, request: &Request)
    ensures { out.new ≡ out.old ++ held_line as_data at request.now }
{
    put_named(out, one_of(as_data, "hold ", "    "), at);
    let text = one_of(as_data, " ", " holds the request ");
    end_with(out, tokens, text, request);
}

/// Writes that a replica proposes nothing in a slot, though it holds a request.
fn write_unproposed(out: &mut Writer, as_data: bool, at: Actor, slot: u64, request: &Request)
    ensures { out.new ≡ out.old ++ unproposed_line as_data at slot request.now }
{
    let verb = " proposes nothing in slot ";
    put_about(out, as_data, "unproposed ", at, verb, slot);
    out.put_one(as_data, " ", ", though it holds ");
    out.put_request(request);
    out.put("\n");
}

/// Writes that a reply is a vote: how many there are for it then, and how many are needed.
fn write_vote(out: &mut Writer, as_data: bool, at: Actor, other: Actor, count: u8, needed: u8)
    ensures { out.new ≡ out.old ++ vote_line as_data at other count needed }
{
    put_reply(out, as_data, "vote ", at, "    a vote of ", other);
    out.put_number(count as u64);
    put_numbered(out, one_of(as_data, " ", " of "), needed as u64);
    out.put_one(as_data, "\n", " needed\n");
}

/// Writes the beginning of a line about the reply of `other`: the word and both actors if `as_data`, otherwise the words, and both in the other order.
fn put_reply(
    out: &mut Writer,
    as_data: bool,
    word: &'static str,
    at: Actor,
    words: &'static str,
    other: Actor,
)
    ensures { out.new ≡ out.old ++ about_reply as_data word.now at words.now other }
{
    if as_data {
        put_named(out, word, at);
        put_named(out, " ", other);
        out.put(" ");
    } else {
        put_named(out, words, other);
        put_named(out, " at ", at);
        out.put(": ");
    }
}

/// Writes that an envelope is not a vote.
fn write_no_vote(out: &mut Writer, as_data: bool, at: Actor, other: Actor, why: NoVote)
    ensures { out.new ≡ out.old ++ no_vote_line as_data at other why }
{
    put_reply(out, as_data, "no-vote ", at, "    no vote of ", other);
    write_why_not(out, as_data, why);
    out.put("\n");
}

/// Writes why an envelope is not a vote.
fn write_why_not(out: &mut Writer, as_data: bool, why: NoVote)
    ensures { out.new ≡ out.old ++ no_vote_text as_data why }
{
    match why {
        NoVote::NoReply => out.put_one(as_data, "no-reply", "it is no reply"),
        NoVote::NothingOutstanding => out.put_one(
            as_data,
            "nothing-outstanding",
            "no request is outstanding",
        ),
        NoVote::OtherNumber { outstanding } => {
            out.put_one(as_data, "other-number ", "request ");
            out.put_number(outstanding);
            out.put_one(as_data, "", " is outstanding")
        }
        NoVote::HasVoted => out.put_one(
            as_data,
            "has-voted",
            "it has voted, and only its first reply counts",
        ),
    }
}

/// Writes that a client accepts a reply.
fn write_accepted(out: &mut Writer, as_data: bool, at: Actor, reply: &Reply)
    ensures { out.new ≡ out.old ++ accepted_line as_data at reply.now }
{
    let verb = " accepts the reply to its request ";
    put_about(out, as_data, "accept ", at, verb, reply.number);
    if as_data {
        put_numbered(out, " ", reply.place);
        out.put(" ");
        out.put_answer(&reply.answer);
        out.put("\n");
    } else {
        out.put(": ");
        out.put_answer(&reply.answer);
        put_numbered(out, ", at place ", reply.place);
        out.put("\n");
    }
}
