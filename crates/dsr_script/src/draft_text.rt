ghost use Rattle.std.specs.Prelude.{◌≡◌, ◌≢◌, ◌↔◌, ◌++◌, codes, Some, IfOk, IsOkUnless};
ghost use Rattle.std.specs.Option.{option_map};
ghost use Rattle.std.specs.Fmt.{decimal};
ghost use Rattle.dsr_base.specs.Reads.{Reads};
ghost use Rattle.dsr_script.specs.EnvelopeText.{envelope_text, reply_text, IsSpelledEnvelope};
ghost use Rattle.dsr_script.specs.Support.Described.{described};
ghost use Rattle.dsr_script.specs.Support.EnvelopeParts.{IsSpelledReply, IsNumber, reply_parts, round_of};
ghost use Rattle.dsr_script.specs.Support.SpelledText.{pair_of};
ghost use Rattle.dsr_ledger.specs.declared.reply.Reply.{Reply as AReply};

use crate::draft::Draft;
use crate::plan::Plan;
use crate::said::SaidRequest;
use crate::said_chain::{SaidChain, SaidChains};
use dsr_base::split_once;
use dsr_ledger::Reply;
use dsr_names::{Refusal, read_num};
use dsr_request::Answer;
use dsr_text::{read_items, write_more};
use std::alloc::Global;
use std::fmt;

/// The most chains that an envelope may have in a text.
const MOST_CHAINS: usize = 32;

impl Draft {
    /// Reads a draft's text, like `round 0 0/c0#1:write:a:5~c0/r0`. The inner `None` means exactly that the bytes are not one.
    /// `NoMemory` if memory runs out.
    pub fn read(alloc: Global, bytes: &[u8]) -> Result<Option<Draft>, Refusal>
        ensures read { IfOk result (λ draft. Reads IsSpelledEnvelope envelope_text bytes.now draft) }
        ensures refusal { IsOkUnless result Refusal.NoMemory }
    {
        if bytes == b"empty".as_slice() {
            return Ok(Some(Draft::empty()));
        }
        match read_plan(alloc, bytes)? {
            Some(plan) => Ok(Some(Draft::of_plan(alloc, plan)?)),
            None => Ok(None),
        }
    }
}

/// Writes the text of the envelope that the draft describes.
impl fmt::Display for Draft {
    ghost output = { λ draft. Some (envelope_text draft) };

    fn fmt<W: fmt::Write>(&self, f: &mut fmt::Formatter<W>) -> fmt::Result {
        match self.plan() {
            None => f.write_str("empty"),
            Some(Plan::Round { round, chains }) => {
                write!(f, "round {round}")?;
                write_more(chains.as_slice(), f)
            }
            Some(Plan::Ask(ask)) => write!(f, "ask {ask}"),
            Some(Plan::Reply(reply)) => {
                let number = reply.number;
                let place = reply.place;
                let answer = reply.answer;
                write!(f, "reply {number} {place} {answer}")
            }
            Some(Plan::Seen(front)) => write!(f, "seen {front}"),
        }
    }
}

/// Reads the cases of a draft that is not the empty one.
fn read_plan(alloc: Global, bytes: &[u8]) -> Result<Option<Plan>, Refusal>
    ensures read { bytes.now ≢ codes "empty"
        → IfOk result (λ plan. Reads IsSpelledEnvelope envelope_text bytes.now (option_map described plan)) }
    ensures refusal { IsOkUnless result Refusal.NoMemory }
{
    if let Some(rest) = bytes.strip_prefix(b"round ".as_slice()) {
        read_round(alloc, rest)
    } else if let Some(rest) = bytes.strip_prefix(b"ask ".as_slice()) {
        read_ask(alloc, rest)
    } else if let Some(rest) = bytes.strip_prefix(b"reply ".as_slice()) {
        Ok(read_told(rest))
    } else if let Some(rest) = bytes.strip_prefix(b"seen ".as_slice()) {
        Ok(read_seen(rest))
    } else {
        Ok(None)
    }
}

/// Reads the chains of a global round, from the text after its word.
fn read_round(alloc: Global, bytes: &[u8]) -> Result<Option<Plan>, Refusal>
    ensures read { IfOk result (λ plan. Reads IsSpelledEnvelope envelope_text (codes "round " ++ bytes.now) (option_map described plan)) }
    ensures refusal { IsOkUnless result Refusal.NoMemory }
{
    match split_once(bytes, b' ') {
        None => Ok(round_of_parts(read_num(bytes), Some(Vec::new(alloc)))),
        Some((round, chains)) => {
            let chains = read_items(alloc, chains, MOST_CHAINS)?;
            Ok(round_of_parts(read_num(round), chains))
        }
    }
}

/// Makes the chains of a global round from its parts; `None` if one is missing.
fn round_of_parts(round: Option<u64>, chains: Option<Vec<SaidChain>>) -> Option<Plan>
    ensures { option_map described result ≡ option_map round_of (pair_of round (option_map (λ list. list.items) chains)) }
{
    match (round, chains) {
        (Some(round), Some(chains)) => Some(Plan::Round {
            round,
            chains: SaidChains::of_vec(chains),
        }),
        _ => None,
    }
}

/// Reads a request, from the text after its word.
fn read_ask(alloc: Global, bytes: &[u8]) -> Result<Option<Plan>, Refusal>
    ensures read { IfOk result (λ plan. Reads IsSpelledEnvelope envelope_text (codes "ask " ++ bytes.now) (option_map described plan)) }
    ensures refusal { IsOkUnless result Refusal.NoMemory }
{
    match SaidRequest::read(alloc, bytes)? {
        Some(ask) => Ok(Some(Plan::Ask(ask))),
        None => Ok(None),
    }
}

/// Reads a reply, from the text after its word.
fn read_told(bytes: &[u8]) -> Option<Plan>
    ensures { Reads IsSpelledEnvelope envelope_text (codes "reply " ++ bytes.now) (option_map described result) }
{
    match read_reply(bytes) {
        Some(reply) => Some(Plan::Reply(reply)),
        None => None,
    }
}

/// Reads a seen front, from the text after its word.
fn read_seen(bytes: &[u8]) -> Option<Plan>
    ensures { Reads IsSpelledEnvelope envelope_text (codes "seen " ++ bytes.now) (option_map described result) }
{
    match read_num(bytes) {
        Some(front) => Some(Plan::Seen(front)),
        None => None,
    }
}

/// Reads a reply's text, like `1 0 written`.
fn read_reply(bytes: &[u8]) -> Option<Reply>
    ensures { Reads IsSpelledReply reply_text bytes.now result }
{
    match split_once(bytes, b' ') {
        None => None,
        Some((number, rest)) => match split_once(rest, b' ') {
            None => None,
            Some((place, answer)) => {
                reply_of_parts(read_number(number), read_num(place), Answer::read(answer))
            }
        },
    }
}

/// Reads a decimal number that is at least 1 and below 2^40.
fn read_number(bytes: &[u8]) -> Option<u64>
    ensures { Reads IsNumber decimal bytes.now result }
{
    match read_num(bytes) {
        Some(number) if number > 0 => Some(number),
        _ => None,
    }
}

/// Makes the reply from its parts; `None` if one is missing.
fn reply_of_parts(number: Option<u64>, place: Option<u64>, answer: Option<Answer>) -> Option<Reply>
    ensures { (x : AReply) → (result ≡ Some x) ↔ (pair_of number (pair_of place answer) ≡ Some (reply_parts x)) }
{
    match (number, place, answer) {
        (Some(number), Some(place), Some(answer)) => Some(Reply {
            number,
            place,
            answer,
        }),
        _ => None,
    }
}
