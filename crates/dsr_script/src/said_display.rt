//! Writes the parts of drafts.

ghost use Rattle.std.specs.Prelude.{Some};
ghost use Rattle.std.specs.Fmt.{DisplaysOnOk};
ghost use Rattle.dsr_base.specs.Joined.{joined_or_dash};
ghost use Rattle.dsr_chain.specs.Support.SignedLists.{value_of};
ghost use Rattle.dsr_script.specs.ChainText.{signed_text, value_text, chain_text};
ghost use Rattle.dsr_script.specs.SignatureText.{spelled_text};

use crate::brief::Brief;
use crate::said::SaidRequest;
use crate::said_chain::SaidChain;
use dsr_text::write_more;
use std::fmt;

impl fmt::Display for Brief {
    ghost output = { λ brief. Some (spelled_text brief) };

    fn fmt<W: fmt::Write>(&self, f: &mut fmt::Formatter<W>) -> fmt::Result {
        let signer = self.signer();
        match self.other() {
            None => write!(f, "{signer}"),
            Some(other) => write!(f, "{signer}({other})"),
        }
    }
}

impl fmt::Display for SaidRequest {
    ghost output = { λ ask. Some (signed_text ask) };

    fn fmt<W: fmt::Write>(&self, f: &mut fmt::Formatter<W>) -> fmt::Result {
        let request = self.request();
        let brief = self.brief();
        write!(f, "{request}~{brief}")
    }
}

impl fmt::Display for SaidChain {
    ghost output = { λ chain. Some (chain_text chain) };

    fn fmt<W: fmt::Write>(&self, f: &mut fmt::Formatter<W>) -> fmt::Result {
        let slot = self.slot();
        write!(f, "{slot}/")?;
        write_value(self.asks(), f)?;
        f.write_str("/")?;
        write_links(self.links(), f)
    }
}

/// Writes the value with these requests: `idle` for an empty list.
fn write_value<W: fmt::Write>(asks: &[SaidRequest], f: &mut fmt::Formatter<W>) -> fmt::Result
    ensures { DisplaysOnOk W.write_str_gives f.old result (Some (value_text (value_of asks.now))) f.new }
{
    match asks {
        [] => f.write_str("idle"),
        [first, rest @ ..] => {
            write!(f, "{first}")?;
            write_more(rest, f)
        }
    }
}

/// Writes what a text says about the signatures of a chain: a dash for an empty list.
fn write_links<W: fmt::Write>(links: &[Brief], f: &mut fmt::Formatter<W>) -> fmt::Result
    ensures { DisplaysOnOk W.write_str_gives f.old result (Some (joined_or_dash 43 spelled_text links.now)) f.new }
{
    match links {
        [] => f.write_str("-"),
        [first, rest @ ..] => {
            write!(f, "{first}")?;
            write_more(rest, f)
        }
    }
}
