//! A law about what calls wait for, stated as the contract of a function that does nothing.

ghost use Rattle.std.specs.Prelude.{◌≡◌, ℕ, List, Option, Some};
ghost use Rattle.dsr_names.specs.Shape.{Shape};
ghost use Rattle.dsr_request.specs.declared.op.Op.{Op};
ghost use Rattle.dsr_ledger.specs.declared.reply.Reply.{Reply as AReply};
ghost use Rattle.dsr_chain.specs.declared.signed_request.SignedRequest.{SignedRequest};
ghost use Rattle.dsr_envelope.specs.declared.entry.Entry.{Entry};
ghost use Rattle.dsr_calls.specs.Calls.{awaited, IsBegun, IsAwaited, IsAnswered};

/// Calls that follow each other act like one call: if a request is not answered between two calls, what is true of it after the second call is
/// true after both together. So a call that is refused can be made again, and the reply to the second call answers what the first call waited for.
/// Until then the calls wait for the same request: `ask` with the same operation, and, once the request is begun, `go_on`.
pub fn calls_follow_each_other()
    ensures awaited { (shape : Shape) (ask : SignedRequest) (older log later : List Entry) → IsAwaited shape ask older log
        → IsAwaited shape ask log later → IsAwaited shape ask older later }
    ensures answered { (shape : Shape) (ask : SignedRequest) (older log later : List Entry) (reply : AReply) → IsAwaited shape ask older log
        → IsAnswered shape ask log later reply → IsAnswered shape ask older later reply }
    ensures again { (shape : Shape) (me : ℕ) (older log : List Entry) (op : Option Op) (ask : SignedRequest) → awaited shape me older op ≡ Some ask
        → IsAwaited shape ask older log → awaited shape me log op ≡ Some ask }
    ensures begun { (shape : Shape) (me : ℕ) (older log : List Entry) (op : Option Op) (ask : SignedRequest) → IsBegun shape ask older log
        → awaited shape me log op ≡ Some ask }
{}
