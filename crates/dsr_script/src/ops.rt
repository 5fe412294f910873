ghost use Rattle.std.specs.Prelude.{◌≡◌, ◌∷◌, ◌++◌, [], OnOk, IsOkUnless};

use dsr_names::Refusal;
use dsr_request::Op;
use std::alloc::Global;
use std::marker::Model;

/// The operations of one client, in order.
#[derive(Drop)]
pub(crate) struct Ops {
    items: Vec<Op>,
}

impl Model for Ops {
    ghost use Rattle.std.specs.Prelude.{List};
    ghost use Rattle.dsr_request.specs.declared.op.Op.{Op};

    ghost Value = { List Op };

    ghost view = { λ ops. ops.items.items };
}

impl Ops {
    /// Makes an empty list. It takes no memory.
    pub(crate) fn new(alloc: Global) -> Ops
        ensures { result ≡ [] }
    {
        Ops {
            items: Vec::new(alloc),
        }
    }

    /// Adds the operation as the last one. `NoMemory` if memory runs out.
    pub(crate) fn push(&mut self, op: Op) -> Result<(), Refusal>
        ensures added { OnOk result (self.new ≡ self.old ++ op ∷ []) }
        ensures refusal { IsOkUnless result Refusal.NoMemory }
    {
        match self.items.push(op) {
            Ok(()) => Ok(()),
            Err(_) => Err(Refusal::NoMemory),
        }
    }

    /// Returns the operations, in order.
    pub(crate) fn as_slice(&self) -> &[Op]
        ensures { result.now ≡ self.now }
    {
        self.items.as_slice()
    }
}
