ghost use Rattle.std.specs.Prelude.{◌≡◌, ◌↔◌, ℕ, ◌<◌, ◌∷◌, ◌++◌, [], List, None, Some, if◌then◌else◌, nat_eq, IfOk, IfErr, IsTrue, IsOkUnless};
ghost use Rattle.std.specs.Option.{option_map};
ghost use Rattle.dsr_names.specs.Shape.{IsActor};
ghost use Rattle.dsr_script.specs.declared.place.Place.{Place};
ghost use Rattle.dsr_script.specs.declared.serve_line.ServeLine.{ServeLine};
ghost use Rattle.dsr_script.specs.ServeText.{CanFollow, IsTraitor};
ghost use Rattle.dsr_script.specs.Script.{Script, ops_of, draft_at, place_of, Gives, Spells, SaysTheSame, IsScriptRefusal};
ghost use Rattle.dsr_script.specs.Support.PlaceEquality.{place_eq};

use crate::draft::Draft;
use crate::ops::Ops;
use crate::place::Place;
use crate::serve_line::ServeLine;
use dsr_names::{Actor, ClientId, Refusal, ReplicaId, Shape};
use dsr_request::Op;
use dsr_text::{TakesLines, read_header, take_lines};
use indexmap::IndexMap;
use std::alloc::Global;
use std::marker::Model;

/// What is to happen in one run of the service: its shape, the operations that each client asks for, in order, and what its traitors
/// post. A client's operations and a draft are each found at once, however many there are.
#[derive(Drop)]
pub struct Script {
    shape: Shape,
    ops: Vec<Ops>,
    drafts: IndexMap<Place, Draft>,
}

impl Model for Script {
    ghost use Rattle.std.specs.Prelude.{◌≡◌, length};
    ghost use Rattle.dsr_script.specs.Script.{Script};

    ghost Value = { Script };

    ghost view = { λ s. record { shape = s.shape; ops = s.ops.items; drafts = s.drafts.entries } };

    ghost invariant = { λ s. length s.ops.items ≡ s.shape.m };
}

impl Script {
    /// Reads a script: a header `dsr-serve 1 SHAPE`, then lines `ask CLIENT OPERATION` and `script TRAITOR ROUND ACTOR ENVELOPE`, in any order.
    ///
    /// `BadShape` if the header's shape is outside the limits, whatever follows it. `BadText` names the first bad line, counted from 1:
    /// a line that does not fit this grammar, that has no line feed, whose client or actor is not of the shape, whose traitor is not a
    /// traitor of the shape, or that is the second for the same traitor, round and actor. `NoMemory` if memory runs out.
    pub fn read(alloc: Global, text: &[u8]) -> Result<Script, Refusal>
        ensures script { IfOk result (Spells text.now) }
        ensures refused { IfErr result (IsScriptRefusal text.now) }
        ensures when { (other : Script) → Spells text.now other → IsOkUnless result Refusal.NoMemory }
        ensures only { (other : Script) → Spells text.now other → IfOk result (SaysTheSame other) }
    {
        let header = match read_header(b"dsr-serve 1".as_slice(), text) {
            Ok(header) => header,
            Err(refusal) => return Err(refusal),
        };
        let script = Script::new(alloc, header.shape)?;
        let mut reading = Reading { script };
        match take_lines(&mut reading, alloc, header.rest) {
            Ok(()) => Ok(reading.script),
            Err(refusal) => Err(refusal),
        }
    }

    /// Returns the shape.
    pub fn shape(&self) -> Shape
        ensures { result ≡ self.now.shape }
    {
        self.shape
    }

    /// Returns the operations of the client, in the order in which it asks for them; none for a client outside the shape.
    pub fn ops(&self, client: ClientId) -> &[Op]
        ensures { result.now ≡ ops_of self.now client }
    {
        match self.ops.get(client.number() as usize) {
            Some(ops) => ops.as_slice(),
            None => &[],
        }
    }

    /// Returns what the traitor is to post to the actor in this round, counted from 0; `None` if the script leaves it open.
    pub fn draft(&self, from: ReplicaId, round: u64, to: Actor) -> Option<&Draft>
        ensures { option_map (λ d. d.now) result ≡ draft_at self.now (place_of from round to) }
    {
        self.drafts.get(&Place { from, round, to })
    }

    /// Makes a script of this shape, without operations and drafts. `NoMemory` if memory runs out.
    fn new(alloc: Global, shape: Shape) -> Result<Script, Refusal>
        ensures shape { IfOk result (λ script. script.shape ≡ shape) }
        ensures none { IfOk result (Gives []) }
        ensures refusal { IsOkUnless result Refusal.NoMemory }
    {
        let mut ops = Vec::new(alloc);
        for _ in 0..shape.m() {
            ops.push(Ops::new(alloc))?;
        }
        Ok(Script {
            shape,
            ops,
            drafts: IndexMap::new(alloc),
        })
    }

    /// Takes in what the line gives and returns true. If the line cannot follow the lines that were taken in, returns false:
    /// then nothing but the shape is known about the script.
    fn take(&mut self, line: ServeLine) -> Result<bool, Refusal>
        ensures taken { IfOk result (λ can. IsTrue can → (lines : List ServeLine) → Gives lines self.old → Gives (line ∷ lines) self.new) }
        ensures when { IfOk result (λ can. (lines : List ServeLine) → Gives lines self.old → IsTrue can ↔ CanFollow self.old.shape lines line) }
        ensures shape { self.new.shape ≡ self.old.shape }
        ensures refusal { IsOkUnless result Refusal.NoMemory }
    {
        match line {
            ServeLine::Ask { client, op } => self.take_op(client, op),
            ServeLine::Post { place, draft } => self.take_draft(place, draft),
        }
    }

    /// Adds the operation to those of the client, and returns whether the client is of the shape.
    fn take_op(&mut self, client: ClientId, op: Op) -> Result<bool, Refusal>
        ensures when { IfOk result (λ can. IsTrue can ↔ client < self.old.shape.m) }
        ensures taken { IfOk result (λ can. IsTrue can → (other : ℕ) → ops_of self.new other
            ≡ (if nat_eq client other then ops_of self.old other ++ op ∷ [] else ops_of self.old other)) }
        ensures drafts { self.new.drafts ≡ self.old.drafts }
        ensures shape { self.new.shape ≡ self.old.shape }
        ensures refusal { IsOkUnless result Refusal.NoMemory }
    {
        let number = client.number() as usize;
        if number >= self.ops.len() {
            return Ok(false);
        }
        self.ops[number].push(op)?;
        Ok(true)
    }

    /// Stores the draft under its place, and returns whether the script may have it there: a traitor's draft to an actor of the
    /// shape, the first for its place.
    fn take_draft(&mut self, place: Place, draft: Draft) -> Result<bool, Refusal>
        ensures when { IfOk result (λ can. IsTrue can
            ↔ (IsTraitor self.old.shape place.from × IsActor self.old.shape place.to × (draft_at self.old place ≡ None))) }
        ensures taken { IfOk result (λ can. IsTrue can → (other : Place) → draft_at self.new other
            ≡ (if place_eq place other then Some draft else draft_at self.old other)) }
        ensures ops { self.new.ops ≡ self.old.ops }
        ensures shape { self.new.shape ≡ self.old.shape }
        ensures refusal { IsOkUnless result Refusal.NoMemory }
    {
        if !is_traitor(&self.shape, place.from) || !self.shape.has(place.to) {
            return Ok(false);
        }
        match self.drafts.insert(place, draft) {
            Ok(earlier) => Ok(earlier.is_none()),
            Err(_) => Err(Refusal::NoMemory),
        }
    }
}

/// A script while its lines are read.
#[derive(Drop)]
struct Reading {
    script: Script,
}

impl Model for Reading {
    ghost use Rattle.dsr_script.specs.Script.{Script};

    ghost Value = { Script };

    ghost view = { λ r. r.script };
}

impl TakesLines for Reading {
    type Line = ServeLine;

    ghost use Rattle.dsr_script.specs.Script.{Gives};
    ghost use Rattle.dsr_script.specs.ServeText.{serve_scripts};

    ghost kind = { serve_scripts };

    ghost shape = { λ script. script.shape };

    ghost gives = { λ script lines. Gives lines script };

    fn read_line(&mut self, alloc: Global, bytes: &[u8]) -> Result<Option<ServeLine>, Refusal> {
        ServeLine::read(alloc, bytes)
    }

    fn take(&mut self, _alloc: Global, line: ServeLine) -> Result<bool, Refusal> {
        self.script.take(line)
    }
}

/// Tells whether the replica is one of the shape, and a traitor.
fn is_traitor(shape: &Shape, replica: ReplicaId) -> bool
    ensures { IsTrue result ↔ IsTraitor shape.now replica }
{
    shape.has(Actor::Replica(replica)) && !shape.is_loyal(Actor::Replica(replica))
}
