//! What was expected at the first byte that cannot continue a line.

use dsr_names::Refusal;
use std::fmt::Write;

/// Why a scan stops before the end of the line.
#[derive(Clone, Copy)]
pub(crate) enum Halt {
    /// The next byte cannot continue the line.
    Fault(Fault),
    /// Memory ran out.
    NoMemory,
}

/// The place at which a line is wrong, and what was expected there.
#[derive(Clone, Copy)]
pub(crate) struct Fault {
    /// The column, counted from 1, of the first byte that cannot continue the line.
    pub(crate) column: usize,
    /// What was expected there.
    pub(crate) expected: Expected,
}

/// What was expected at a place of a line.
#[derive(Clone, Copy)]
pub(crate) enum Expected {
    /// What this text says.
    Text(&'static str),
    /// A space, and then what this text says.
    Space(&'static str),
    /// A colon, and then what this text says.
    Colon(&'static str),
    /// F for `n` replicas: at most `most`.
    Traitors { n: u64, most: u64 },
    /// The names of the traitors: at most `f` of `n` replicas.
    Names { n: u64, f: u64 },
    /// The end of a header that already names `f` traitors.
    NoMore { f: u64 },
    /// The end of a header that already names the last of `n` replicas.
    NoOther { n: u64 },
}

impl Expected {
    /// Writes what was expected. `NoMemory` if memory runs out.
    pub(crate) fn write(&self, out: &mut String) -> Result<(), Refusal> {
        match self {
            Expected::Text(text) => out.push_str(*text)?,
            Expected::Space(text) => {
                out.push_str("a space, and then ")?;
                out.push_str(*text)?;
            }
            Expected::Colon(text) => {
                out.push_str(": and then ")?;
                out.push_str(*text)?;
            }
            Expected::Traitors { n, most } => write!(
                out,
                "F, how many of the replicas may be traitors: at most {most}, since N is {n} and must be at least 2F+1"
            )?,
            Expected::Names { n, f } => write_names(out, *n, *f)?,
            Expected::NoMore { f } => write!(
                out,
                "the end of the line: F is {f}, so at most {f} of the replicas can be traitors"
            )?,
            Expected::NoOther { n } => write!(
                out,
                "the end of the line: N is {n}, so no replica comes after the last one named"
            )?,
        }
        Ok(())
    }
}

/// Writes how to name the traitors: at most `f` of `n` replicas.
fn write_names(out: &mut String, n: u64, f: u64) -> Result<(), Refusal> {
    if f == 0 {
        out.push_str("-, since F is 0 and no replica may be a traitor")?;
        return Ok(());
    }
    let last = n.saturating_sub(1);
    write!(
        out,
        "the traitors: - for none, or at most {f} of r0 to r{last}, by rising numbers and joined by +, and then the end of the line"
    )?;
    Ok(())
}
