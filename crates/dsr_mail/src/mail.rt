ghost use Rattle.std.specs.Prelude.{◌≡◌, ◌<◌, ◌++◌, List, [], map, reverse, vec_capacity, IfOk, IsOkUnless};
ghost use Rattle.dsr_base.specs.Growth.{Extends};
ghost use Rattle.dsr_base.specs.Member.{In};
ghost use Rattle.dsr_names.specs.Places.{size};
ghost use Rattle.dsr_names.specs.declared.actor.Actor.TheVariants.{Client};
ghost use Rattle.dsr_request.specs.Request.{Request};
ghost use Rattle.dsr_ledger.specs.declared.reply.Reply.{Reply as AReply};
ghost use Rattle.dsr_desk.specs.Keys.{IsWhole};
ghost use Rattle.dsr_envelope.specs.declared.entry.Entry.{Entry};
ghost use Rattle.dsr_run.specs.Linearizable.{HasResponse};
ghost use Rattle.dsr_run.specs.Run.{AreLogs};
ghost use Rattle.dsr_run.specs.Step.{log_of};
ghost use Rattle.dsr_boxes.specs.Moment.{IsMomentOf, AreLogsAfter};
ghost use Rattle.dsr_boxes.specs.Pass.{Pass, IsReturnedTo, new_pass};
ghost use Rattle.dsr_mail.specs.Leaving.{IsLogged, IsRoomForAll, AreJoined};
ghost use Rattle.dsr_mail.specs.Logs.{logs_of, HasAllLogs};
ghost use Rattle.dsr_mail.specs.Responses.{HasInvoked};
ghost use Rattle.dsr_mail.specs.Seats.{is_loyal_replica, is_traitor_replica, is_client, actors_of, AreSeatsOf};

use crate::leaving::Leaving;
use crate::log::Log;
use crate::logs::Logs;
use crate::seats::Seats;
use dsr_boxes::{Moment, Returned, SharedBoxes};
use dsr_desk::Keys;
use dsr_names::{Refusal, Shape};
use dsr_node::Node;
use std::alloc::Global;
use std::marker::Model;

/// The boxes between the actors of a shape, for all seats to share.
#[derive(Drop)]
pub struct Mail {
    boxes: SharedBoxes,
    /// Room for the logs of all actors, so that closing allocates nothing.
    logs: Vec<Log>,
    /// Room for their nodes.
    nodes: Vec<Node>,
}

impl Model for Mail {
    ghost use Rattle.std.specs.Prelude.{◌≡◌, [], vec_capacity};
    ghost use Rattle.dsr_boxes.specs.Pass.{SharedBoxes};
    ghost use Rattle.dsr_mail.specs.Leaving.{IsRoomForAll};

    ghost Value = { SharedBoxes };

    ghost view = { λ m. m.boxes };

    ghost invariant = { λ m. (m.logs.items ≡ []) × (m.nodes.items ≡ []) × IsRoomForAll m.boxes.shape (vec_capacity m.logs)
        × IsRoomForAll m.boxes.shape (vec_capacity m.nodes) };
}

impl Mail {
    /// Opens the mail between the actors of a shape, with all boxes empty, and returns it with the seat of each actor, which holds the actor's
    /// key. `NoMemory` if memory runs out: then the keys are dropped. Requires whole keys of this shape.
    pub fn open(alloc: Global, shape: Shape, keys: Keys) -> Result<(Mail, Seats), Refusal>
        requires whole { IsWhole keys }
        requires same { keys.shape ≡ shape }
        ensures shape { IfOk result (λ made. made.0.shape ≡ shape) }
        ensures replicas { IfOk result (λ made. made.1.replicas.items ≡ map (new_pass made.0) (actors_of is_loyal_replica made.0.shape)) }
        ensures traitors { IfOk result (λ made. made.1.traitors.items ≡ map (new_pass made.0) (actors_of is_traitor_replica made.0.shape)) }
        ensures clients { IfOk result (λ made. made.1.clients.items ≡ map (new_pass made.0) (actors_of is_client made.0.shape)) }
        ensures refusal { IsOkUnless result Refusal.NoMemory }
    {
        let size = shape.size();
        let logs = Vec::with_capacity(alloc, size)?;
        let nodes = Vec::with_capacity(alloc, size)?;
        let (boxes, passes) = SharedBoxes::open(alloc, shape)?;
        let seats = Seats::of(alloc, &boxes, passes, keys)?;
        Ok((Mail { boxes, logs, nodes }, seats))
    }

    /// Returns the shape.
    pub fn shape(&self) -> &Shape
        ensures { result.now ≡ self.now.shape }
    {
        self.boxes.shape()
    }

    /// Closes the mail and returns the actors' logs, which are those of a run. It allocates nothing, and drops the envelopes that nobody took.
    /// Requires the seats of all actors of this mail.
    pub fn close(self, seats: Seats) -> Logs
        requires replicas { AreSeatsOf self is_loyal_replica seats.replicas.items }
        requires traitors { AreSeatsOf self is_traitor_replica seats.traitors.items }
        requires clients { AreSeatsOf self is_client seats.clients.items }
        ensures shape { result.shape ≡ self.shape }
        ensures own { (seat : Pass) → In seat (seats.replicas.items ++ (seats.traitors.items ++ seats.clients.items))
            → logs_of result seat.actor ≡ seat.log }
        ensures all { HasAllLogs result }
        ensures run { AreLogs result.shape (logs_of result) }
    {
        let shape = *self.boxes.shape();
        let mut logs = self.logs;
        let mut nodes = self.nodes;
        let returned = return_all(&self.boxes, seats, &mut logs, &mut nodes);
        self.boxes.close(returned);
        Logs::joined(shape, nodes, logs)
    }

    /// Closes the mail like `close`, and returns the logs of a run that goes on from the moment. So if a request has a response at the moment, and a
    /// client asks for another one only after it has recalled the moment, the first has the lower place. Requires a moment and the seats of all
    /// actors of this mail.
    pub fn close_after(self, seats: Seats, moment: Moment) -> Logs
        requires replicas { AreSeatsOf self is_loyal_replica seats.replicas.items }
        requires traitors { AreSeatsOf self is_traitor_replica seats.traitors.items }
        requires clients { AreSeatsOf self is_client seats.clients.items }
        requires moment { IsMomentOf self moment }
        ensures shape { result.shape ≡ self.shape }
        ensures own { (seat : Pass) → In seat (seats.replicas.items ++ (seats.traitors.items ++ seats.clients.items))
            → logs_of result seat.actor ≡ seat.log }
        ensures all { HasAllLogs result }
        ensures after { AreLogsAfter self.shape moment.run (logs_of result) }
        ensures places { (first second : Request) (reply later : AReply) (own : List Entry) → HasResponse self.shape (log_of moment.run) first reply
            → Extends own (log_of moment.run (Client second.client)) → ¬ HasInvoked own second → HasResponse self.shape (logs_of result) second later
            → reply.place < later.place }
    {
        let shape = *self.boxes.shape();
        // For the proof: that at most f replicas are traitors.
        let _n = shape.n();
        let mut logs = self.logs;
        let mut nodes = self.nodes;
        let returned = return_all(&self.boxes, seats, &mut logs, &mut nodes);
        self.boxes.close_after(returned, moment);
        Logs::joined(shape, nodes, logs)
    }

    /// Returns a copy of the moment, for another thread, or to close the mail after it. Requires a moment of this mail.
    pub fn copy_moment(&self, moment: &mut Moment) -> Moment
        requires moment { IsMomentOf self.now moment.old }
        ensures same { moment.new ≡ moment.old }
        ensures copy { result ≡ moment.old }
    {
        moment.copy(&self.boxes)
    }

    /// Replaces the moment by the present one, which comes after it and after `other`: so one moment is enough to close the mail after both.
    /// Requires moments of this mail.
    pub fn meet_moments(&self, moment: &mut Moment, other: Moment)
        requires moment { IsMomentOf self.now moment.old }
        requires other { IsMomentOf self.now other }
        ensures mail { IsMomentOf self.now moment.new }
        ensures own { Extends moment.new.run moment.old.run }
        ensures other { Extends moment.new.run other.run }
    {
        moment.meet(&self.boxes, other);
    }

    pub(crate) fn boxes(&self) -> &SharedBoxes
        ensures { result.now ≡ self.now }
    {
        &self.boxes
    }
}

/// Returns all passes to the boxes, and adds the seats' logs and nodes to these lists, by the places of their actors. Requires room for all.
fn return_all(
    boxes: &SharedBoxes,
    seats: Seats,
    logs: &mut Vec<Log>,
    nodes: &mut Vec<Node>,
) -> Returned
    requires replicas { AreSeatsOf boxes.now is_loyal_replica seats.replicas.items }
    requires traitors { AreSeatsOf boxes.now is_traitor_replica seats.traitors.items }
    requires clients { AreSeatsOf boxes.now is_client seats.clients.items }
    requires no_logs { logs.old.items ≡ [] }
    requires no_nodes { nodes.old.items ≡ [] }
    requires room_logs { IsRoomForAll boxes.now.shape (vec_capacity logs.old) }
    requires room_nodes { IsRoomForAll boxes.now.shape (vec_capacity nodes.old) }
    ensures boxes { IsReturnedTo boxes.now result }
    ensures logs { result.logs ≡ reverse logs.new.items }
    ensures joined { AreJoined boxes.now.shape (size boxes.now.shape) logs.new.items nodes.new.items }
    ensures replicas { (seat : Pass) → In seat seats.replicas.items → IsLogged boxes.now.shape logs.new.items seat }
    ensures traitors { (seat : Pass) → In seat seats.traitors.items → IsLogged boxes.now.shape logs.new.items seat }
    ensures clients { (seat : Pass) → In seat seats.clients.items → IsLogged boxes.now.shape logs.new.items seat }
{
    let mut leaving = Leaving::all(seats);
    let mut returned = boxes.none_returned();
    for place in 0..boxes.shape().size() {
        let (pass, log, node) = leaving.next(boxes, place);
        returned.take_back(boxes, pass);
        logs.push_reserved(log);
        nodes.push_reserved(node);
    }
    returned
}
