//! Maps each verb to its call.

use crate::histories::History;
use crate::{plays, records};
use dsr_desk::Keys;
use dsr_play::Play;
use dsr_record::Record;
use dsr_register::Directory;
use dsr_row_calls::{
    Answered, Customer, Desk, Failure, Forger, Logged, Replies, Votes, Words, Works, calendars,
    chains, directories, envelopes, keys, replicas, same, scripts, slots, tokens,
};
use dsr_script::Script;
use dsr_slot::SlotState;
use std::alloc::Global;

/// The open value: later calls of a row use it.
#[derive(Drop)]
pub(crate) enum Opened {
    /// No value is open yet.
    Nothing,
    /// The keys of a shape.
    Keys(Keys),
    /// A tally.
    Votes(Votes),
    /// A directory.
    Directory(Directory),
    /// A machine.
    Works(Works),
    /// A ledger.
    Replies(Replies),
    /// A slot.
    Slot(SlotState),
    /// A client.
    Customer(Customer),
    /// A replica.
    Logged(Logged),
    /// Keys and known signatures.
    Forger(Forger),
    /// A serve script.
    Script(Script),
    /// A play.
    Play(Play),
    /// A history to judge replies by.
    History(History),
    /// A transcript.
    Record(Record),
}

/// A verb that opens a value.
#[derive(Clone, Copy)]
pub(crate) enum Opening {
    /// `keys-of SHAPE`.
    Keys,
    /// `tally F N`.
    Tally,
    /// `directory`.
    Directory,
    /// `machine CLIENTS`.
    Machine,
    /// `ledger CLIENTS`.
    Ledger,
    /// `slot SHAPE SLOT`.
    Slot,
    /// `client SHAPE CLIENT`.
    Client,
    /// `replica SHAPE REPLICA`.
    Replica,
    /// `keys ACTORS`.
    Drafts,
    /// `script TEXT`.
    Script,
    /// `play TEXT`.
    Play,
    /// `judge`.
    Judge,
    /// `transcript TEXT`.
    Transcript,
}

/// The verbs that open a value.
pub(crate) const OPENINGS: [(&str, Opening); 13] = [
    ("keys-of", Opening::Keys),
    ("tally", Opening::Tally),
    ("directory", Opening::Directory),
    ("machine", Opening::Machine),
    ("ledger", Opening::Ledger),
    ("slot", Opening::Slot),
    ("client", Opening::Client),
    ("replica", Opening::Replica),
    ("keys", Opening::Drafts),
    ("script", Opening::Script),
    ("play", Opening::Play),
    ("judge", Opening::Judge),
    ("transcript", Opening::Transcript),
];

/// Opens a value.
pub(crate) fn open(alloc: Global, opening: Opening, words: &mut Words) -> Result<Opened, Failure> {
    match opening {
        Opening::Keys => keys::open(alloc, words).map(Opened::Keys),
        Opening::Tally => Votes::open(words).map(Opened::Votes),
        Opening::Directory => directories::open(alloc).map(Opened::Directory),
        Opening::Machine => Works::open(alloc, words).map(Opened::Works),
        Opening::Ledger => Replies::open(alloc, words).map(Opened::Replies),
        Opening::Slot => slots::open(words).map(Opened::Slot),
        Opening::Client => Customer::open(alloc, words).map(Opened::Customer),
        Opening::Replica => replicas::open(alloc, words).map(Opened::Logged),
        Opening::Drafts => Forger::open(alloc, words).map(Opened::Forger),
        Opening::Script => scripts::open(alloc, words).map(Opened::Script),
        Opening::Play => plays::open(alloc, words).map(Opened::Play),
        Opening::Judge => Ok(Opened::History(History::open(alloc))),
        Opening::Transcript => records::open(alloc, words).map(Opened::Record),
    }
}

/// Makes the call of this verb at the value.
pub(crate) fn call_at(
    desk: &Desk,
    opened: &mut Opened,
    verb: &[u8],
    words: &mut Words,
) -> Answered {
    let alloc = desk.alloc();
    match opened {
        Opened::Nothing => Err(Failure::Skip),
        Opened::Keys(keys) => keys::answer(keys, verb, words),
        Opened::Votes(votes) => votes.answer(verb, words),
        Opened::Directory(directory) => directories::answer(alloc, directory, verb, words),
        Opened::Works(works) => works.answer(alloc, verb, words),
        Opened::Replies(replies) => replies.answer(verb, words),
        Opened::Slot(state) => slots::answer(desk, state, verb, words),
        Opened::Customer(customer) => customer.answer(desk, verb, words),
        Opened::Logged(logged) => replicas::answer(desk, logged, verb, words),
        Opened::Forger(forger) => forger.answer(desk, verb, words),
        Opened::Script(script) => scripts::answer(alloc, script, verb, words),
        Opened::Play(play) => plays::answer(alloc, play, verb),
        Opened::History(history) => history.answer(alloc, verb, words),
        Opened::Record(recorded) => records::answer(alloc, recorded, verb, words),
    }
}

/// A call that needs no value before it.
#[derive(Clone, Copy)]
pub(crate) enum Plain {
    /// `token KIND BYTES`.
    Token,
    /// `same KIND ONE | OTHER`.
    Same,
    /// `plain ENVELOPE`.
    PlainDraft,
    /// `fits KIND PARTS`.
    Fits,
    /// `check SHAPE SLOT ROUND CHAIN`.
    Check,
    /// `asked SHAPE SIGNED-REQUEST`.
    Asked,
    /// `parts CHAIN`.
    Parts,
    /// `signature PLACE CHAIN`.
    Signature,
    /// `has-signer ACTOR CHAIN`.
    HasSigner,
    /// `has-misfit CHAIN`.
    HasMisfit,
    /// `start ACTOR SLOT VALUE`.
    Start,
    /// `extend ACTOR CHAIN`.
    Extend,
    /// `fault FAULT`.
    Fault,
    /// `calendar SHAPE ROUND`.
    Calendar,
    /// `round-of SHAPE SLOT ROUND`.
    RoundOf,
    /// `sign ACTOR STATEMENT`.
    Sign,
    /// `link-fits SLOT CONTENT SIGNERS`.
    LinkFits,
    /// `links SLOT CONTENT SIGNERS`.
    Links,
    /// `are-links SLOT CONTENT SIGNATURE ..`.
    AreLinks,
    /// `header TITLE | TEXT`.
    Header,
}

/// The calls that need no value before them, by their verbs.
pub(crate) const PLAIN: [(&str, Plain); 20] = [
    ("token", Plain::Token),
    ("same", Plain::Same),
    ("plain", Plain::PlainDraft),
    ("fits", Plain::Fits),
    ("check", Plain::Check),
    ("asked", Plain::Asked),
    ("parts", Plain::Parts),
    ("signature", Plain::Signature),
    ("has-signer", Plain::HasSigner),
    ("has-misfit", Plain::HasMisfit),
    ("start", Plain::Start),
    ("extend", Plain::Extend),
    ("fault", Plain::Fault),
    ("calendar", Plain::Calendar),
    ("round-of", Plain::RoundOf),
    ("sign", Plain::Sign),
    ("link-fits", Plain::LinkFits),
    ("links", Plain::Links),
    ("are-links", Plain::AreLinks),
    ("header", Plain::Header),
];

/// Makes the call.
pub(crate) fn call_plain(desk: &Desk, call: Plain, words: &mut Words) -> Answered {
    let alloc = desk.alloc();
    match call {
        Plain::Token => tokens::token(alloc, words),
        Plain::Same => same::same(desk, words),
        Plain::PlainDraft => envelopes::plain(alloc, words),
        Plain::Fits => envelopes::fits(desk, words),
        Plain::Check => chains::check(desk, words),
        Plain::Asked => chains::asked(desk, words),
        Plain::Parts => chains::parts(desk, words),
        Plain::Signature => chains::signature(desk, words),
        Plain::HasSigner => chains::has_signer(desk, words),
        Plain::HasMisfit => chains::has_misfit(desk, words),
        Plain::Start => chains::start(desk, words),
        Plain::Extend => chains::extend(desk, words),
        Plain::Fault => chains::fault(alloc, words),
        Plain::Calendar => calendars::calendar(alloc, words),
        Plain::RoundOf => calendars::round_of(words),
        Plain::Sign => keys::sign(desk, words),
        Plain::LinkFits => keys::link_fits(words),
        Plain::Links => keys::links(desk, words),
        Plain::AreLinks => keys::are_links(desk, words),
        Plain::Header => scripts::header(alloc, words),
    }
}
