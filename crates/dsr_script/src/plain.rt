//! Tells whether a draft is plain: whether no value in it has more than one request, and nothing in it is removed.

ghost use Rattle.std.specs.Prelude.{◌↔◌, All, IsTrue};
ghost use Rattle.dsr_script.specs.Plain.{IsPlain, IsPlainChain, IsPlainAsk, IsPlainStatement, IsPlainContent, IsPlainRequest, IsPlainOp, IsPlainAnswer};
ghost use Rattle.dsr_script.specs.Support.PlainSaid.{IsPlainSaid};

use crate::brief::Brief;
use crate::draft::Draft;
use crate::plan::Plan;
use crate::said::SaidRequest;
use crate::said_chain::SaidChain;
use crate::said_text::content_of;
use dsr_desk::Statement;
use dsr_request::{Answer, Op, Request, Requests};

impl Draft {
    /// Tells whether no value in the draft has more than one request, and nothing in it is removed or reports a removal. The
    /// statements of its signatures count too.
    pub fn is_plain(&self) -> bool
        ensures { IsTrue result ↔ IsPlain self.now }
    {
        match self.plan() {
            None | Some(Plan::Seen(_)) => true,
            Some(Plan::Round { chains, .. }) => {
                chains.as_slice().iter().all(|chain| is_plain_chain(chain))
            }
            Some(Plan::Ask(ask)) => is_plain_ask(ask),
            Some(Plan::Reply(reply)) => is_plain_answer(&reply.answer),
        }
    }
}

/// Tells whether the chain's value, and all that is signed on it, is plain.
fn is_plain_chain(chain: &SaidChain) -> bool
    ensures { IsTrue result ↔ IsPlainChain chain.now }
{
    let content = content_of(chain.asks());
    are_plain_parts(&content, chain.asks(), chain.links())
}

/// Tells whether the content, the requests and the other statements of a chain are plain.
fn are_plain_parts(content: &Option<Requests>, asks: &[SaidRequest], links: &[Brief]) -> bool
    ensures { IsTrue result ↔ (IsPlainContent content.now × All IsPlainAsk asks.now × All IsPlainSaid links.now) }
{
    is_plain_content(content) && are_plain_asks(asks) && are_plain_briefs(links)
}

/// Tells whether the requests, and the statements of the signatures beside them, are plain.
fn are_plain_asks(asks: &[SaidRequest]) -> bool
    ensures { IsTrue result ↔ All IsPlainAsk asks.now }
{
    asks.iter().all(|ask| is_plain_ask(ask))
}

/// Tells whether the statements that do not fit are plain.
fn are_plain_briefs(links: &[Brief]) -> bool
    ensures { IsTrue result ↔ All IsPlainSaid links.now }
{
    links.iter().all(|link| is_plain_brief(link))
}

/// Tells whether the request, and the statement of the signature beside it, is plain.
fn is_plain_ask(ask: &SaidRequest) -> bool
    ensures { IsTrue result ↔ IsPlainAsk ask.now }
{
    is_plain_request(&ask.request()) && is_plain_brief(ask.brief())
}

/// Tells whether the description has no other statement than the fitting one, or a plain one.
fn is_plain_brief(brief: &Brief) -> bool
    ensures { IsTrue result ↔ IsPlainSaid brief.now }
{
    match brief.other() {
        None => true,
        Some(statement) => is_plain_statement(statement),
    }
}

/// Tells whether the request or the content of the statement is plain.
fn is_plain_statement(statement: &Statement) -> bool
    ensures { IsTrue result ↔ IsPlainStatement statement.now }
{
    match statement {
        Statement::Ask(request) => is_plain_request(request),
        Statement::Link { value, .. } => is_plain_content(value),
    }
}

/// Tells whether there is at most one request, and it removes nothing.
fn is_plain_content(content: &Option<Requests>) -> bool
    ensures { IsTrue result ↔ IsPlainContent content.now }
{
    match content {
        None => true,
        Some(requests) => {
            requests.as_slice().len() <= 1
                && requests
                    .as_slice()
                    .iter()
                    .all(|request| is_plain_request(request))
        }
    }
}

/// Tells whether the request removes nothing.
fn is_plain_request(request: &Request) -> bool
    ensures { IsTrue result ↔ IsPlainRequest request.now }
{
    is_plain_op(&request.op())
}

/// Tells whether the operation removes nothing.
fn is_plain_op(op: &Op) -> bool
    ensures { IsTrue result ↔ IsPlainOp op.now }
{
    match op {
        Op::Read { .. } | Op::Write { .. } | Op::Swap { .. } => true,
        Op::Remove { .. } => false,
    }
}

/// Tells whether the answer reports no removal.
fn is_plain_answer(answer: &Answer) -> bool
    ensures { IsTrue result ↔ IsPlainAnswer answer.now }
{
    match answer {
        Answer::Held(_) | Answer::Written | Answer::Swapped | Answer::Kept(_) | Answer::Full => {
            true
        }
        Answer::Removed(_) => false,
    }
}
