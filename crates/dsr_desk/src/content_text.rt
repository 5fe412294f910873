ghost use Rattle.std.specs.Prelude.{◌↔◌, Some, IsTrue};
ghost use Rattle.dsr_base.specs.Reads.{Reads};
ghost use Rattle.dsr_desk.specs.ContentText.{content_text, IsContent};
ghost use Rattle.std.proofs.Common.{rules};

use dsr_base::Exact;
use dsr_request::Requests;
use std::fmt;

/// Reads a content's token: `idle`, or 1 to 8 requests joined by commas. The outer `None` means
/// exactly that the bytes are not such a token.
pub fn read_content(bytes: &[u8]) -> Option<Option<Requests>>
    ensures { Reads IsContent content_text bytes.now result }
{
    if bytes == b"idle".as_slice() {
        return Some(None);
    }
    Requests::read(bytes).map(Some)
}

/// Returns whether the content has a token: each of its requests has one.
pub(crate) fn content_fits(content: &Option<Requests>) -> bool
    ensures { IsTrue result ↔ IsContent content.now }
{
    match content {
        None => true,
        Some(requests) => requests.fits(),
    }
}

/// The content of a slot as texts write it: `idle`, or its requests joined by commas.
#[derive(Clone, Copy, Debug, PartialEq, Eq)]
pub struct Content(pub Option<Requests>);

impl fmt::Display for Content {
    ghost output = { λ content. Some (content_text content.0) };

    fn fmt<W: fmt::Write>(&self, f: &mut fmt::Formatter<W>) -> fmt::Result {
        match &self.0 {
            None => f.write_str("idle"),
            Some(requests) => write!(f, "{requests}"),
        }
    }
}

impl Exact for Content {
    ghost use Rattle.dsr_desk.specs.Support.ContentEquality.{content_eq-Decides};

    ghost decides = { content_eq-Decides };

    ghost clones = { λ a b. Prim.search rules };
}
