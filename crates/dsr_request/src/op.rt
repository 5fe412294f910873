ghost use Rattle.std.specs.Prelude.{◌≡◌, Some, ◌↔◌, ◌⊎◌, codes};
ghost use Rattle.dsr_base.specs.Reads.{Reads};
ghost use Rattle.dsr_request.specs.declared.op.Op.{Op};
ghost use Rattle.dsr_request.specs.NameText.{IsName};
ghost use Rattle.dsr_request.specs.OpText.{IsOp, op_text, verb_of, operands_text};
ghost use Rattle.dsr_request.specs.Register.{register_of};
ghost use Rattle.std.proofs.Common.{rules};

use crate::name::Name;
use dsr_base::{Exact, read_decimal, split_once};
use dsr_names::{Old, read_old};
use std::fmt;

/// One operation on one register.
#[derive(Clone, Copy, Debug, PartialEq, Eq)]
pub enum Op {
    /// Returns what the register holds.
    Read {
        /// The register.
        name: Name,
    },
    /// Lets the register hold this value.
    Write {
        /// The register.
        name: Name,
        /// What the register is to hold.
        value: u64,
    },
    /// Lets the register hold `to` if it holds `from`.
    Swap {
        /// The register.
        name: Name,
        /// What the register must hold before, `None` if it must hold nothing.
        from: Option<u64>,
        /// What the register is to hold then.
        to: u64,
    },
    /// Lets the register hold nothing.
    Remove {
        /// The register.
        name: Name,
    },
}

impl Op {
    /// Reads an operation's text, with the separator between its parts: a space (`swap a none 1`)
    /// or a colon (`swap:a:none:1`). `None` exactly if the bytes are not such a text.
    pub fn read(bytes: &[u8], separator: u8) -> Option<Op>
        requires { (separator ≡ 32) ⊎ (separator ≡ 58) }
        ensures { Reads IsOp (op_text separator) bytes.now result }
    {
        let (verb, operands) = split_once(bytes, separator)?;
        read_operands(verb, operands, separator)
    }

    /// Returns the register that the operation is on.
    pub fn name(&self) -> Name
        ensures same { result ≡ register_of self.now }
        ensures spelled { IsOp self.now }
    {
        let op = *self;
        let name = match op {
            Op::Read { name } | Op::Write { name, .. } => name,
            Op::Swap { name, .. } | Op::Remove { name } => name,
        };
        // from here on the prover knows that it is a name
        let _bytes = name.as_bytes();
        name
    }
}

impl fmt::Display for Op {
    ghost use Rattle.dsr_request.specs.OpText.{op_text};

    ghost output = { λ op. Some (op_text 32 op) };

    fn fmt<W: fmt::Write>(&self, f: &mut fmt::Formatter<W>) -> fmt::Result {
        match self {
            Op::Read { name } => write!(f, "read {name}"),
            Op::Write { name, value } => write!(f, "write {name} {value}"),
            Op::Swap { name, from, to } => {
                let from = Old(*from);
                write!(f, "swap {name} {from} {to}")
            }
            Op::Remove { name } => write!(f, "remove {name}"),
        }
    }
}

/// An operation that is printed with colons instead of spaces, like `swap:a:none:1`.
#[derive(Clone, Copy, Debug, PartialEq, Eq)]
pub struct Joined(pub Op);

impl fmt::Display for Joined {
    ghost use Rattle.dsr_request.specs.OpText.{op_text};

    ghost output = { λ joined. Some (op_text 58 joined.0) };

    fn fmt<W: fmt::Write>(&self, f: &mut fmt::Formatter<W>) -> fmt::Result {
        match &self.0 {
            Op::Read { name } => write!(f, "read:{name}"),
            Op::Write { name, value } => write!(f, "write:{name}:{value}"),
            Op::Swap { name, from, to } => {
                let from = Old(*from);
                write!(f, "swap:{name}:{from}:{to}")
            }
            Op::Remove { name } => write!(f, "remove:{name}"),
        }
    }
}

/// Reads the operation that begins with this word and goes on with these operands.
fn read_operands(verb: &[u8], operands: &[u8], separator: u8) -> Option<Op>
    requires { (separator ≡ 32) ⊎ (separator ≡ 58) }
    ensures { (op : Op) → (result ≡ Some op)
        ↔ (IsOp op × (verb.now ≡ verb_of op) × (operands.now ≡ operands_text separator op)) }
{
    if verb == b"read".as_slice() {
        read_name(operands).map(|name| Op::Read { name })
    } else if verb == b"write".as_slice() {
        read_write(operands, separator)
    } else if verb == b"swap".as_slice() {
        read_swap(operands, separator)
    } else if verb == b"remove".as_slice() {
        read_name(operands).map(|name| Op::Remove { name })
    } else {
        None
    }
}

/// Reads the operands of a write.
fn read_write(operands: &[u8], separator: u8) -> Option<Op>
    requires { (separator ≡ 32) ⊎ (separator ≡ 58) }
    ensures { (op : Op) → (result ≡ Some op)
        ↔ (IsOp op × (verb_of op ≡ codes "write") × (operands.now ≡ operands_text separator op)) }
{
    let (name, value) = split_once(operands, separator)?;
    let name = read_name(name)?;
    let value = read_decimal(value)?;
    Some(Op::Write { name, value })
}

/// Reads the operands of a swap.
fn read_swap(operands: &[u8], separator: u8) -> Option<Op>
    requires { (separator ≡ 32) ⊎ (separator ≡ 58) }
    ensures { (op : Op) → (result ≡ Some op)
        ↔ (IsOp op × (verb_of op ≡ codes "swap") × (operands.now ≡ operands_text separator op)) }
{
    let (name, values) = split_once(operands, separator)?;
    let (from, to) = split_once(values, separator)?;
    let name = read_name(name)?;
    let from = read_old(from)?;
    let to = read_decimal(to)?;
    Some(Op::Swap { name, from, to })
}

/// Reads a name's text.
fn read_name(bytes: &[u8]) -> Option<Name>
    ensures { Reads IsName (λ name. name) bytes.now result }
{
    Name::read(bytes).ok()
}

impl Exact for Op {
    ghost decides = { λ a b. Prim.search rules };

    ghost clones = { λ a b. Prim.search rules };
}

impl Exact for Joined {
    ghost decides = { λ a b. Prim.search rules };

    ghost clones = { λ a b. Prim.search rules };
}
