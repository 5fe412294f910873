//! States the laws of a client's log as contracts of functions that do nothing.

ghost use Rattle.std.specs.Prelude.{◌≡◌, ◌≢◌, ◌⊎◌, ◌↔◌, ℕ, suc, ◌*◌, max, ◌<◌, ◌≤◌, List, [], ◌∷◌, ◌++◌, None, Some, length};
ghost use Rattle.std.specs.Option.{option_map};
ghost use Rattle.dsr_base.specs.Growth.{Extends};
ghost use Rattle.dsr_base.specs.Member.{In};
ghost use Rattle.dsr_names.specs.Shape.{Shape, IsActor, IsLoyal, HasFewTraitors, AgreeButForTraitors};
ghost use Rattle.dsr_names.specs.declared.actor.Actor.{Actor};
ghost use Rattle.dsr_names.specs.declared.actor.Actor.TheVariants.{Replica, Client};
ghost use Rattle.dsr_request.specs.declared.op.Op.{Op};
ghost use Rattle.dsr_ledger.specs.declared.reply.Reply.{Reply as AReply};
ghost use Rattle.dsr_chain.specs.declared.signed_request.SignedRequest.{SignedRequest};
ghost use Rattle.dsr_quorum.specs.Votes.{first_of};
ghost use Rattle.dsr_envelope.specs.Limits.{IsCount};
ghost use Rattle.dsr_envelope.specs.declared.envelope.Envelope.{Envelope};
ghost use Rattle.dsr_envelope.specs.declared.envelope.Envelope.TheVariants.{Ask, Reply, Seen};
ghost use Rattle.dsr_envelope.specs.declared.entry.Entry.{Entry};
ghost use Rattle.dsr_envelope.specs.declared.entry.Entry.TheVariants.{Post, Take};
ghost use Rattle.dsr_envelope.specs.declared.pick.Pick.{Pick};
ghost use Rattle.dsr_envelope.specs.declared.pick.Pick.TheVariants.{Plain, Begin};
ghost use Rattle.dsr_client.specs.Accepted.{WasTaken, WasAccepted, AreNumbered, WasPosted, AcceptsNone, Accepts};
ghost use Rattle.dsr_client.specs.Conduct.{ask_of, next_number, ask_to, told_choice, IsClientLog};
ghost use Rattle.dsr_client.specs.Issue.{issue_front, IsUnasked, IsIssued};
ghost use Rattle.dsr_client.specs.State.{state_after, outstanding, accepted, told, seen};

/// The log of a `Client` is a client's log: the empty log is, and so is a client's log with the entry that a call adds. The entry is
/// an ask posted to a replica of the shape, by an allowed choice: a new one if nothing is outstanding, else the outstanding one again.
/// Or it is the seen front posted to another client of the shape, or a take from another actor of the shape.
pub fn calls_keep_a_clients_log()
    ensures empty { (shape : Shape) (me : ℕ) → IsClientLog shape me [] }
    ensures posted { (shape : Shape) (me : ℕ) (log : List Entry) → IsClientLog shape me log
        → (q : ℕ) → q < shape.n → (pick : Pick) (envelope : Envelope) → ask_to shape me log pick ≡ Some envelope
        → IsClientLog shape me (Post (Replica q) envelope ∷ log) }
    ensures begun { (shape : Shape) (me : ℕ) (log : List Entry) → IsClientLog shape me log
        → (q : ℕ) → q < shape.n → outstanding shape log ≡ None → (op : Op)
        → IsClientLog shape me (Post (Replica q) (Ask (ask_of me (next_number shape log) op)) ∷ log) }
    ensures again { (shape : Shape) (me : ℕ) (log : List Entry) → IsClientLog shape me log
        → (q : ℕ) → q < shape.n → (ask : SignedRequest) → outstanding shape log ≡ Some ask
        → IsClientLog shape me (Post (Replica q) (Ask ask) ∷ log) }
    ensures told { (shape : Shape) (me : ℕ) (log : List Entry) → IsClientLog shape me log
        → (c : ℕ) → c < shape.m → c ≢ me → IsClientLog shape me (Post (Client c) (Seen (seen shape log)) ∷ log) }
    ensures taken { (shape : Shape) (me : ℕ) (log : List Entry) → IsClientLog shape me log
        → (from : Actor) → IsActor shape from → from ≢ Client me → (envelope : Envelope) → IsClientLog shape me (Take from envelope ∷ log) }
{}

/// An ask shows the choice of its post: if a request was outstanding, the plain one, which asks for that again; else the choice to
/// begin a request with the ask's operation, which asks for the next number.
pub fn asks_tell_choices()
    ensures choice { (shape : Shape) (me : ℕ) (log : List Entry) (pick : Pick) (ask : SignedRequest)
        → ask_to shape me log pick ≡ Some (Ask ask) → pick ≡ told_choice (outstanding shape log) ask }
    ensures operation { (shape : Shape) (me : ℕ) (log : List Entry) (op : Op) (ask : SignedRequest)
        → ask_to shape me log (Begin op) ≡ Some (Ask ask) → ask.request.op ≡ op }
    ensures new { (shape : Shape) (me : ℕ) (log : List Entry) (op : Op) (ask : SignedRequest) → ask_to shape me log (Begin op) ≡ Some (Ask ask)
        → (outstanding shape log ≡ None) × (ask_of me (next_number shape log) op ≡ ask) }
    ensures begun { (shape : Shape) (me : ℕ) (log : List Entry) → outstanding shape log ≡ None → (op : Op)
        → ask_to shape me log (Begin op) ≡ Some (Ask (ask_of me (next_number shape log) op)) }
    ensures plain { (shape : Shape) (me : ℕ) (log : List Entry) → ask_to shape me log Plain ≡ option_map Ask (outstanding shape log) }
    ensures asks { (shape : Shape) (me : ℕ) (log : List Entry) (pick : Pick) (envelope : Envelope) → ask_to shape me log pick ≡ Some envelope
        → (ask : SignedRequest) × (Ask ask ≡ envelope) }
{}

/// More than f replicas gave each accepted reply, each in a take of the log when a request with the reply's number was outstanding. If
/// at most f replicas are traitors, one of those is loyal. What is accepted stays accepted. A reply counts for nothing if no request
/// with its number is outstanding, or if the replica has replied to that request before.
pub fn accepted_replies_have_enough_votes()
    ensures votes { (shape : Shape) (log : List Entry) (reply : AReply) → In reply (accepted shape log) → WasAccepted shape log reply }
    ensures loyal { (shape : Shape) (log : List Entry) (reply : AReply) → HasFewTraitors shape → In reply (accepted shape log)
        → (p : ℕ) × IsLoyal shape (Replica p) × WasTaken shape log p reply }
    ensures stay { (shape : Shape) (entry : Entry) (log : List Entry) → Extends (accepted shape (entry ∷ log)) (accepted shape log) }
    ensures early { (shape : Shape) (log : List Entry) (p : ℕ) (reply : AReply)
        → ((ask : SignedRequest) → outstanding shape log ≡ Some ask → reply.number ≢ ask.request.number)
        → state_after shape (Take (Replica p) (Reply reply) ∷ log) ≡ state_after shape log }
    ensures again { (shape : Shape) (log : List Entry) (p : ℕ) (reply first : AReply) → first_of p (state_after shape log).notes ≡ Some first
        → (accepted shape (Take (Replica p) (Reply reply) ∷ log) ≡ accepted shape log)
        × (outstanding shape (Take (Replica p) (Reply reply) ∷ log) ≡ outstanding shape log) }
{}

/// An entry either accepts the reply that it takes, to a request that was outstanding, and then nothing is outstanding; or it accepts
/// nothing, and an outstanding request stays outstanding. If nothing is outstanding, a take changes nothing but the seen front, and an
/// ask that is posted to a replica becomes the outstanding one. No post accepts anything.
pub fn takes_settle()
    ensures settles { (shape : Shape) (entry : Entry) (log : List Entry)
        → AcceptsNone shape entry log ⊎ ((reply : AReply) × Accepts shape entry log reply) }
    ensures quiet { (shape : Shape) (from : Actor) (envelope : Envelope) (log : List Entry) → outstanding shape log ≡ None
        → state_after shape (Take from envelope ∷ log) ≡ state_after shape log }
    ensures begins { (shape : Shape) (q : ℕ) (ask : SignedRequest) (log : List Entry) → outstanding shape log ≡ None
        → outstanding shape (Post (Replica q) (Ask ask) ∷ log) ≡ Some ask }
    ensures posts { (shape : Shape) (to : Actor) (envelope : Envelope) (log : List Entry) → AcceptsNone shape (Post to envelope) log }
{}

/// Let at most f replicas be traitors, and n be at least 2f+1. If a client took, while its request was outstanding, one and the same
/// reply to it from every loyal replica, and in its whole log no other reply with that number from any of them, it has accepted that
/// reply. What traitors reply, and when, does not matter.
pub fn loyal_replies_are_accepted()
    ensures { (shape : Shape) (older newer : List Entry) (ask : SignedRequest) (reply : AReply)
        → HasFewTraitors shape → 2 * shape.f < shape.n
        → outstanding shape older ≡ Some ask → reply.number ≡ ask.request.number
        → ((p : ℕ) → IsLoyal shape (Replica p) → In (Take (Replica p) (Reply reply)) newer)
        → ((p : ℕ) (other : AReply) → IsLoyal shape (Replica p) → In (Take (Replica p) (Reply other)) (newer ++ older)
        → other.number ≡ ask.request.number → other ≡ reply)
        → In reply (accepted shape (newer ++ older)) }
{}

/// A client only ever posts one request under a number; all are its own, with its signature; and the outstanding one has
/// the number after the count of accepted replies. What is outstanding was posted to some replica.
pub fn numbers_name_one_request()
    ensures once { (shape : Shape) (me : ℕ) (log : List Entry) → IsClientLog shape me log
        → (q r : ℕ) (ask other : SignedRequest) → In (Post (Replica q) (Ask ask)) log → In (Post (Replica r) (Ask other)) log
        → ask.request.number ≡ other.request.number → ask ≡ other }
    ensures own { (shape : Shape) (me : ℕ) (log : List Entry) → IsClientLog shape me log
        → (q : ℕ) (ask : SignedRequest) → In (Post (Replica q) (Ask ask)) log → (op : Op) × (ask_of me ask.request.number op ≡ ask) }
    ensures next { (shape : Shape) (me : ℕ) (log : List Entry) → IsClientLog shape me log
        → (ask : SignedRequest) → outstanding shape log ≡ Some ask → ask.request.number ≡ suc (length (accepted shape log)) }
    ensures posted { (shape : Shape) (log : List Entry) (ask : SignedRequest) → outstanding shape log ≡ Some ask → WasPosted log ask }
{}

/// A client's accepted replies have the numbers 1, 2, 3 .. in their order: no two have one number, and each is at most their count. In
/// any log each answers a request that was posted to some replica, so its number is below 2^40 if those of all such requests are.
pub fn accepted_replies_are_numbered()
    ensures numbered { (shape : Shape) (me : ℕ) (log : List Entry) → IsClientLog shape me log → AreNumbered (accepted shape log) }
    ensures once { (shape : Shape) (me : ℕ) (log : List Entry) → IsClientLog shape me log
        → (reply other : AReply) → In reply (accepted shape log) → In other (accepted shape log) → reply.number ≡ other.number → reply ≡ other }
    ensures counted { (shape : Shape) (me : ℕ) (log : List Entry) → IsClientLog shape me log
        → (reply : AReply) → In reply (accepted shape log) → (0 < reply.number) × (reply.number ≤ length (accepted shape log)) }
    ensures posted { (shape : Shape) (log : List Entry) (reply : AReply) → In reply (accepted shape log)
        → (ask : SignedRequest) × WasPosted log ask × (ask.request.number ≡ reply.number) }
    ensures below { (shape : Shape) (log : List Entry) → ((ask : SignedRequest) → WasPosted log ask → IsCount ask.request.number)
        → (reply : AReply) → In reply (accepted shape log) → IsCount reply.number }
{}

/// The issue front of a number is the seen front of the client just before it first posts an ask with that number to a replica; a
/// number has no issue front exactly if the client never posted such an ask. The next number, for example, has none while nothing is
/// outstanding. An issue front stays the same as the log goes on, and is at most the seen front.
pub fn issue_fronts_are_of_first_asks()
    ensures issued { (shape : Shape) (number : ℕ) (log : List Entry) (front : ℕ)
        → (issue_front shape number log ≡ Some front) ↔ IsIssued shape number log front }
    ensures first { (shape : Shape) (number : ℕ) (log : List Entry) → IsUnasked number log
        → (q : ℕ) (ask : SignedRequest) → ask.request.number ≡ number
        → issue_front shape number (Post (Replica q) (Ask ask) ∷ log) ≡ Some (seen shape log) }
    ensures never { (shape : Shape) (number : ℕ) (log : List Entry) → (issue_front shape number log ≡ None) ↔ IsUnasked number log }
    ensures next { (shape : Shape) (me : ℕ) (log : List Entry) → IsClientLog shape me log → outstanding shape log ≡ None
        → issue_front shape (next_number shape log) log ≡ None }
    ensures stays { (shape : Shape) (number : ℕ) (log later : List Entry) (front : ℕ) → issue_front shape number log ≡ Some front
        → Extends later log → issue_front shape number later ≡ Some front }
    ensures seen { (shape : Shape) (number : ℕ) (log : List Entry) (front : ℕ) → issue_front shape number log ≡ Some front
        → front ≤ seen shape log }
{}

/// The seen front is 0 at first and never falls, and it is above the place of each accepted reply. Two entries move it: a `Seen` taken
/// from a client, to the front that it reports, and an entry that accepts a reply, to just past the reply's place, in each case if
/// that is greater. Every other entry leaves it. So neither a `Seen` from a replica nor a reply from a client counts.
pub fn seen_fronts_only_grow()
    ensures start { (shape : Shape) → seen shape [] ≡ 0 }
    ensures grows { (shape : Shape) (entry : Entry) (log : List Entry) → seen shape log ≤ seen shape (entry ∷ log) }
    ensures above { (shape : Shape) (log : List Entry) (reply : AReply) → In reply (accepted shape log) → reply.place < seen shape log }
    ensures replicas { (p front : ℕ) (shape : Shape) (log : List Entry) → seen shape (Take (Replica p) (Seen front) ∷ log) ≡ seen shape log }
    ensures clients { (c : ℕ) (envelope : Envelope) (shape : Shape) (log : List Entry)
        → state_after shape (Take (Client c) envelope ∷ log) ≡ state_after shape log }
    ensures told { (c front : ℕ) (shape : Shape) (log : List Entry)
        → seen shape (Take (Client c) (Seen front) ∷ log) ≡ max (seen shape log) front }
    ensures accepted { (shape : Shape) (entry : Entry) (log : List Entry) (reply : AReply) → Accepts shape entry log reply
        → seen shape (entry ∷ log) ≡ max (seen shape log) (suc reply.place) }
    ensures moves { (shape : Shape) (entry : Entry) (log : List Entry)
        → ((c : ℕ) × (front : ℕ) × (entry ≡ Take (Client c) (Seen front))) ⊎ ((reply : AReply) × Accepts shape entry log reply)
        ⊎ (seen shape (entry ∷ log) ≡ seen shape log) }
{}

/// A client never looks at who is a traitor. Under two shapes that differ at most in their traitors, it accepts and sees the
/// same, and asks for the same; and the same logs are a client's.
pub fn clients_are_blind()
    ensures accepted { (shape other : Shape) → AgreeButForTraitors shape other → (log : List Entry) → state_after shape log ≡ state_after other log }
    ensures seen { (shape other : Shape) → AgreeButForTraitors shape other → (log : List Entry) → seen shape log ≡ seen other log }
    ensures asked { (shape other : Shape) → AgreeButForTraitors shape other → (me : ℕ) (log : List Entry) (pick : Pick)
        → ask_to shape me log pick ≡ ask_to other me log pick }
    ensures conduct { (shape other : Shape) → AgreeButForTraitors shape other → (me : ℕ) (log : List Entry)
        → IsClientLog shape me log → IsClientLog other me log }
{}
