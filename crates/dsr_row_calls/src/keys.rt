//! The calls of keys and signatures.

use crate::desk::Desk;
use crate::said::{Answered, Failure, Said};
use crate::texts::listed;
use crate::words::{Words, find};
use dsr_base::split_once;
use dsr_desk::{Key, Keys, Links, Signature, Signers, Statement, read_content};
use dsr_request::Requests;
use std::alloc::Global;
use std::fmt;

/// A call at the keys of a shape.
#[derive(Clone, Copy)]
enum Call {
    /// `take ACTOR`: takes the actor's key; answers with the key's signer, or with `Nothing` if the key is missing.
    Take,
    /// `whole`: whether no key was taken yet.
    Whole,
    /// `shape`: the shape that the keys are for.
    Shape,
}

/// The calls by their verbs.
const CALLS: [(&str, Call); 3] = [
    ("take", Call::Take),
    ("whole", Call::Whole),
    ("shape", Call::Shape),
];

/// Opens `keys-of SHAPE`: all keys of the shape.
pub fn open(alloc: Global, words: &mut Words) -> Result<Keys, Failure> {
    Ok(Keys::new(alloc, words.shape()?)?)
}

/// Makes the call of this verb at the keys.
pub fn answer(keys: &mut Keys, verb: &[u8], words: &mut Words) -> Answered {
    match find(&CALLS, verb)? {
        Call::Take => match keys.take(words.actor()?) {
            Some(key) => Ok(Said::Actor(key.signer())),
            None => Ok(Said::Nothing),
        },
        Call::Whole => Ok(Said::Whether(keys.whole())),
        Call::Shape => Ok(Said::Shape(keys.shape())),
    }
}

/// A signature as text: its signer, and the signed statement in parentheses.
#[derive(Drop)]
pub(crate) struct Signed(pub(crate) Signature);

impl fmt::Display for Signed {
    fn fmt<W: fmt::Write>(&self, f: &mut fmt::Formatter<W>) -> fmt::Result {
        let (signer, statement) = (self.0.signer(), self.0.statement());
        write!(f, "{signer}({statement})")
    }
}

/// Answers `sign ACTOR STATEMENT`: the actor's signature on the statement.
pub fn sign(desk: &Desk, words: &mut Words) -> Answered {
    let key = desk.key(words.actor()?)?;
    let statement = Statement::read(words.rest()).ok_or(Failure::BadRow)?;
    let signed = Signed(key.sign(statement));
    Ok(Said::Text(signed.to_string(desk.alloc())?))
}

/// Answers `link-fits SLOT CONTENT SIGNERS`: whether the statement has a text.
pub fn link_fits(words: &mut Words) -> Answered {
    let slot = words.number()?;
    let value = content(words)?;
    let before = signers(words)?;
    let link = Statement::Link {
        slot,
        value,
        before,
    };
    Ok(Said::Whether(link.fits()))
}

/// Takes the content of a slot.
fn content(words: &mut Words) -> Result<Option<Requests>, Failure> {
    read_content(words.next()).ok_or(Failure::BadRow)
}

/// Takes signers in their order.
fn signers(words: &mut Words) -> Result<Signers, Failure> {
    Signers::read(words.next()).ok_or(Failure::BadRow)
}

/// Answers `links SLOT CONTENT SIGNERS`: the signatures that these signers make in turn on the content of the slot.
pub fn links(desk: &Desk, words: &mut Words) -> Answered {
    let slot = words.number()?;
    let content = content(words)?;
    let signers = signers(words)?;
    let [first, rest @ ..] = signers.as_slice() else {
        return Err(Failure::NoCall);
    };
    let mut links = Links::start(desk.alloc(), slot, &content, desk.key(*first)?)?;
    for signer in rest {
        links = longer(links, desk.key(*signer)?)?;
    }
    said_links(desk.alloc(), &links)
}

/// Adds the signature of this key to the links.
fn longer(links: Links, key: &Key) -> Result<Links, Failure> {
    if links.signers().len() >= 16 {
        return Err(Failure::NoCall);
    }
    Ok(links.extend(key)?)
}

/// Answers with the signatures in their order.
fn said_links(alloc: Global, links: &Links) -> Answered {
    let mut signed = Vec::new(alloc);
    for place in 0..links.signers().len() {
        signed.push(Signed(links.signature(place)))?;
    }
    Ok(listed(alloc, signed.as_slice(), " ")?)
}

/// Answers `are-links SLOT CONTENT SIGNATURE ..`: who signed, if the signatures were made in turn on the content of the slot.
pub fn are_links(desk: &Desk, words: &mut Words) -> Answered {
    let slot = words.number()?;
    let content = content(words)?;
    let signatures = signatures(desk, words)?;
    if signatures.len() > 16 {
        return Err(Failure::NoCall);
    }
    match Links::of(desk.alloc(), slot, &content, signatures.as_slice())? {
        Some(links) => Ok(Said::Text(links.signers().to_string(desk.alloc())?)),
        None => Ok(Said::Nothing),
    }
}

/// Takes signatures, with a space between them.
fn signatures(desk: &Desk, words: &mut Words) -> Result<Vec<Signature>, Failure> {
    let mut signatures = Vec::new(desk.alloc());
    for _ in 0..words.rest().len() {
        if words.is_empty() {
            break;
        }
        signatures.push(desk.signature(words.next())?)?;
    }
    Ok(signatures)
}
