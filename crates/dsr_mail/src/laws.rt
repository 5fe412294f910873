//! A law about the order that a moment gives to requests if one client hands it on to another, stated as the contract of a function that does nothing.

ghost use Rattle.std.specs.Prelude.{◌≡◌};
ghost use Rattle.dsr_base.specs.Growth.{Extends};
ghost use Rattle.dsr_names.specs.Shape.{Shape};
ghost use Rattle.dsr_names.specs.declared.actor.Actor.TheVariants.{Client};
ghost use Rattle.dsr_request.specs.Request.{Request};
ghost use Rattle.dsr_ledger.specs.declared.reply.Reply.{Reply as AReply};
ghost use Rattle.dsr_run.specs.Linearizable.{Precedes};
ghost use Rattle.dsr_run.specs.Step.{Logs, log_of};
ghost use Rattle.dsr_boxes.specs.Moment.{Moment, AreLogsAfter};
ghost use Rattle.dsr_boxes.specs.Pass.{Pass};
ghost use Rattle.dsr_mail.specs.Responses.{HasInvoked, HasReceived};

/// If one client accepts a reply to a first request before a moment, and another client asks for a second request only after it recalls the moment, the
/// first request precedes the second in real time. In detail: the log of one seat is the same at the moment (`ClientSeat::moment`: `own`), and in it
/// the client has received a response. The log of the other seat extends its log at the moment (`ClientSeat::recall`: `past`), and in it the client has
/// not invoked the second request. Then the first request precedes the second in the run that goes on from the moment to the end
/// (`Mail::close_after`: `after`).
pub fn moments_order_clients()
    ensures { (shape : Shape) (moment : Moment) (one other : Pass) (logs : Logs) (first second : Request) (reply : AReply)
        → log_of moment.run one.actor ≡ one.log → Extends other.log (log_of moment.run other.actor)
        → one.actor ≡ Client first.client → HasReceived shape one.log first reply → other.actor ≡ Client second.client → ¬ HasInvoked other.log second
        → (after : AreLogsAfter shape moment.run logs) → Precedes shape after.run first second }
{}
