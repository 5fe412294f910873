ghost use Rattle.std.specs.Prelude.{◌≡◌, ◌⊎◌, ℕ, ◌<◌, true, [], reverse, IfSome, IfNone};
ghost use Rattle.dsr_base.specs.Member.{In};
ghost use Rattle.dsr_names.specs.Shape.{IsActor, is_traitor};
ghost use Rattle.dsr_names.specs.declared.actor.Actor.{Actor};
ghost use Rattle.dsr_names.specs.declared.actor.Actor.TheVariants.{Replica as ReplicaNumber, Client as ClientNumber};
ghost use Rattle.dsr_ledger.specs.declared.reply.Reply.{Reply as AReply};
ghost use Rattle.dsr_history.specs.History.{IsLegal};
ghost use Rattle.dsr_node.specs.Node.{Plays, PlaysReplica};
ghost use Rattle.dsr_run.specs.History.{accepted_by, decided_at, history};
ghost use Rattle.dsr_run.specs.Linearizable.{LinearizesLogs};
ghost use Rattle.dsr_run.specs.Right.{IsRightReply, TookAllReplies, HasReplyTo};
ghost use Rattle.dsr_run.specs.Run.{AreLogs};
ghost use Rattle.dsr_boxes.specs.Pass.{logs_in};
ghost use Rattle.dsr_mail.specs.Logs.{logs_of};
ghost use Rattle.dsr_mail.specs.Played.{ArePlayed};

use crate::log::Log;
use dsr_envelope::Entry;
use dsr_ledger::Reply;
use dsr_names::{Actor, ClientId, ReplicaId, Shape};
use dsr_node::Node;
use dsr_replica::Replica;
use dsr_request::Request;
use std::marker::Model;

/// The logs of all actors, once their mail is closed: the logs of a run.
#[derive(Drop)]
pub struct Logs {
    shape: Shape,
    /// `None` in the logs that `Logs::empty` returns.
    actors: Option<Actors>,
}

/// The actors' logs, and the nodes that represent them, by the actors' places.
#[derive(Drop)]
struct Actors {
    nodes: Vec<Node>,
    logs: Vec<Log>,
}

impl Model for Logs {
    ghost use Rattle.dsr_mail.specs.Logs.{Logs};
    ghost use Rattle.dsr_mail.specs.LogsFields.{AreLogsFields, logs_value};

    ghost Value = { Logs };

    ghost view = { logs_value };

    ghost invariant = { λ l. AreLogsFields l.shape l.actors };
}

impl Logs {
    /// Joins the logs of all actors, by their places, with the nodes that represent them. It allocates nothing.
    pub(crate) fn joined(shape: Shape, nodes: Vec<Node>, logs: Vec<Log>) -> Logs
        requires played { ArePlayed shape (logs_in shape (reverse logs.items)) nodes.items }
        requires run { AreLogs shape (logs_in shape (reverse logs.items)) }
        ensures shape { result.shape ≡ shape }
        ensures lists { result.lists ≡ reverse logs.items }
    {
        let actors = Some(Actors { nodes, logs });
        Logs { shape, actors }
    }

    /// Returns the logs of the run without steps. It allocates nothing.
    pub fn empty(shape: Shape) -> Logs
        ensures shape { result.shape ≡ shape }
        ensures none { (a : Actor) → logs_of result a ≡ [] }
    {
        Logs {
            shape,
            actors: None,
        }
    }

    /// Returns the shape. The logs are those of a run of this shape.
    pub fn shape(&self) -> &Shape
        ensures same { result.now ≡ self.now.shape }
        ensures run { AreLogs self.now.shape (logs_of self.now) }
    {
        &self.shape
    }

    /// Returns the entries of the actor's log, the oldest first. Requires an actor of the shape.
    pub fn of(&self, actor: Actor) -> &[Entry]
        requires { IsActor self.now.shape actor }
        ensures same { result.now ≡ reverse (logs_of self.now actor) }
        ensures run { AreLogs self.now.shape (logs_of self.now) }
    {
        let Some(actors) = &self.actors else {
            return &[];
        };
        match actors.logs.get(self.shape.place(&actor)) {
            Some(log) => log.entries(),
            None => &[],
        }
    }

    /// Returns the replies that the client accepted, in the order of acceptance. Requires a client of the shape.
    pub fn accepted(&self, client: ClientId) -> &[Reply]
        requires { client < self.now.shape.m }
        ensures same { result.now ≡ reverse (accepted_by self.now.shape (logs_of self.now) client) }
        ensures right { (reply : AReply) → In reply result.now
            → IsRightReply self.now.shape (history self.now.shape (logs_of self.now)) (logs_of self.now (ClientNumber client)) reply }
        ensures answered { (number : ℕ) → TookAllReplies self.now.shape (logs_of self.now (ClientNumber client)) number
            → HasReplyTo number result.now }
    {
        // For the proof: what its contract says.
        let _m = self.shape.m();
        match self.node(&Actor::Client(client)) {
            Some(node) => node.accepted(),
            None => &[],
        }
    }

    /// Returns the history: the requests that acted at the loyal replica with the most closed slots, in their order.
    pub fn history(&self) -> &[Request]
        ensures same { result.now ≡ reverse (history self.now.shape (logs_of self.now)) }
        ensures linearizes { LinearizesLogs self.now.shape (logs_of self.now) (reverse result.now) }
        ensures legal { IsLegal (history self.now.shape (logs_of self.now)) }
    {
        let mut history: &[Request] = &[];
        let mut closed = 0;
        for number in 0..self.shape.n() {
            if let Some(replica) = self.loyal(number) {
                let decided = replica.decided();
                if decided.len() > closed {
                    closed = decided.len();
                    history = replica.history();
                }
            }
        }
        history
    }

    /// Returns the loyal replica with this number, over its log. `None` if the replica is a traitor, or if the logs come from `Logs::empty`.
    fn loyal(&self, number: u8) -> Option<&Replica>
        requires { number < self.now.shape.n }
        ensures loyal { IfSome result (λ replica. PlaysReplica self.now.shape number (logs_of self.now (ReplicaNumber number)) replica.now) }
        ensures none { IfNone result ((is_traitor self.now.shape number ≡ true) ⊎ (decided_at self.now.shape (logs_of self.now) number ≡ [])) }
    {
        // For the proof: what its contract says.
        let _n = self.shape.n();
        match self.node(&Actor::Replica(ReplicaId::of(number))) {
            Some(node) => node.replica(),
            None => None,
        }
    }

    /// Returns the node of an actor of the shape, over its log. `None` if the logs come from `Logs::empty`.
    fn node(&self, actor: &Actor) -> Option<&Node>
        requires { IsActor self.now.shape actor.now }
        ensures plays { IfSome result (λ node. Plays self.now.shape actor.now (logs_of self.now actor.now) node.now) }
        ensures none { IfNone result ((a : Actor) → logs_of self.now a ≡ []) }
    {
        match &self.actors {
            Some(actors) => Some(&actors.nodes[self.shape.place(actor)]),
            None => None,
        }
    }
}
