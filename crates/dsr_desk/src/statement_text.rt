ghost use Rattle.std.specs.Prelude.{◌≡◌, ◌↔◌, Some, IsTrue};
ghost use Rattle.dsr_base.specs.Reads.{Reads};
ghost use Rattle.dsr_desk.specs.declared.statement.Statement.{Statement};
ghost use Rattle.dsr_desk.specs.StatementText.{statement_text, IsStatement, HasParts};

use crate::content_text::{Content, content_fits, read_content};
use crate::signers::Signers;
use crate::statement::Statement;
use dsr_base::{Token, split_once};
use dsr_names::{NUMBER_END, read_num};
use dsr_request::Request;
use std::fmt;

impl Statement {
    /// Reads a statement's text: a request, or slot (below 2^40), content and signers before with slashes
    /// between them, like `0/c0#1:write:a:5/r1`. `None` exactly if the bytes are not such a text.
    pub fn read(bytes: &[u8]) -> Option<Statement>
        ensures { Reads IsStatement statement_text bytes.now result }
    {
        match split_once(bytes, b'/') {
            None => {
                let request = Request::read(bytes)?;
                Some(Statement::Ask(request))
            }
            Some((slot, rest)) => {
                let (content, before) = split_once(rest, b'/')?;
                read_link(slot, content, before)
            }
        }
    }

    /// Returns whether the statement has a text. The code shows that only a link whose slot is 2^40 or more
    /// has none; no clause says so.
    pub fn fits(&self) -> bool
        ensures { IsTrue result ↔ IsStatement self.now }
    {
        match self {
            Statement::Ask(request) => request.fits(),
            Statement::Link {
                slot,
                value,
                before,
            } => *slot < NUMBER_END && content_fits(value) && before.fits(),
        }
    }
}

impl fmt::Display for Statement {
    ghost output = { λ statement. Some (statement_text statement) };

    fn fmt<W: fmt::Write>(&self, f: &mut fmt::Formatter<W>) -> fmt::Result {
        match self {
            Statement::Ask(request) => write!(f, "{request}"),
            Statement::Link {
                slot,
                value,
                before,
            } => {
                let content = Content(*value);
                write!(f, "{slot}/{content}/{before}")
            }
        }
    }
}

/// Reads the link of the slot, the content and the signers before, each as bytes.
fn read_link(slot: &[u8], content: &[u8], before: &[u8]) -> Option<Statement>
    ensures { (statement : Statement) → (result ≡ Some statement)
        ↔ (IsStatement statement × HasParts slot.now content.now before.now statement) }
{
    let slot = read_num(slot)?;
    let value = read_content(content)?;
    let before = Signers::read(before)?;
    Some(Statement::Link {
        slot,
        value,
        before,
    })
}
