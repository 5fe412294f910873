//! States the laws of one loyal replica's log as contracts of functions that do nothing.

ghost use Rattle.std.specs.Prelude.{◌≡◌, ◌≢◌, ◌⊎◌, ◌↔◌, ℕ, ◌+◌, ◌*◌, ◌^◌, ◌<◌, ◌≤◌, List, [], ◌∷◌, length, map, None, Some, IsSome, slice_get};
ghost use Rattle.dsr_base.specs.Growth.{Extends};
ghost use Rattle.dsr_base.specs.Member.{In};
ghost use Rattle.dsr_names.specs.Shape.{Shape, IsAllowed, AgreeButForTraitors};
ghost use Rattle.dsr_names.specs.declared.actor.Actor.{Actor};
ghost use Rattle.dsr_names.specs.declared.actor.Actor.TheVariants.{Replica, Client};
ghost use Rattle.dsr_request.specs.Request.{Request};
ghost use Rattle.dsr_request.specs.RequestText.{IsRequest};
ghost use Rattle.dsr_request.specs.declared.answer.Answer.{Answer};
ghost use Rattle.dsr_ledger.specs.declared.reply.Reply.{Reply as AReply};
ghost use Rattle.dsr_history.specs.History.{acted, StandsAt, IsReplyTo};
ghost use Rattle.dsr_rotation.specs.Calendar.{first_round};
ghost use Rattle.dsr_desk.specs.Signature.{Signature};
ghost use Rattle.dsr_chain.specs.Chain.{Chain};
ghost use Rattle.dsr_chain.specs.Proper.{IsReplica, IsAsked, sender_of};
ghost use Rattle.dsr_chain.specs.declared.signed_request.SignedRequest.{SignedRequest};
ghost use Rattle.dsr_chain.specs.declared.slot_value.SlotValue.{SlotValue};
ghost use Rattle.dsr_chain.specs.declared.slot_value.SlotValue.TheVariants.{Idle, Act};
ghost use Rattle.dsr_envelope.specs.declared.envelope.Envelope.{Envelope};
ghost use Rattle.dsr_envelope.specs.declared.envelope.Envelope.TheVariants.{Empty, Round, Ask, Reply, Seen};
ghost use Rattle.dsr_envelope.specs.declared.entry.Entry.{Entry};
ghost use Rattle.dsr_envelope.specs.declared.entry.Entry.TheVariants.{Post, Take};
ghost use Rattle.dsr_envelope.specs.declared.due.Due.TheVariants.{Post as PostTo, Take as TakeFrom};
ghost use Rattle.dsr_envelope.specs.declared.pick.Pick.{Pick};
ghost use Rattle.dsr_envelope.specs.declared.pick.Pick.TheVariants.{Plain, From};
ghost use Rattle.dsr_replica.specs.Conduct.{proposed, envelope_to, reply_to, IsNext, IsLoyalLog};
ghost use Rattle.dsr_replica.specs.Counts.{HasCounts};
ghost use Rattle.dsr_replica.specs.Decided.{read_in, slot_kept, decided_values, decided_requests};
ghost use Rattle.dsr_envelope.specs.Envelope.{chains_for, Carries};
ghost use Rattle.dsr_replica.specs.Held.{held, all_held};
ghost use Rattle.dsr_envelope.specs.Limits.{IsEnvelope};
ghost use Rattle.dsr_envelope.specs.Log.{posted_to, due, rounds};
ghost use Rattle.dsr_envelope.specs.Pick.{IsPick};
ghost use Rattle.dsr_replica.specs.Posts.{IsOfRound, IsPosted, WasTaken};
ghost use Rattle.dsr_replica.specs.Shown.{shown_value, shown_clients, shown_choice, IsOwnLast};

/// The log of a `Replica` is loyal: the empty log is loyal, and so is a loyal log with the entry that a call adds. The entry is a post to
/// a replica by an allowed choice, the reply posted to a client, a take that is due, or a take from a client.
pub fn calls_keep_a_log_loyal()
    ensures empty { (shape : Shape) (me : Actor) → IsLoyalLog shape me [] }
    ensures posted { (shape : Shape) (me : Actor) (log : List Entry) → IsLoyalLog shape me log
        → (q : ℕ) (pick : Pick) → IsPick pick → (envelope : Envelope) → envelope_to shape me log q pick ≡ Some envelope
        → IsLoyalLog shape me (Post (Replica q) envelope ∷ log) }
    ensures replied { (shape : Shape) (me : Actor) (log : List Entry) → IsLoyalLog shape me log
        → (c : ℕ) → c < shape.m → (envelope : Envelope) → reply_to shape log c ≡ Some envelope
        → IsLoyalLog shape me (Post (Client c) envelope ∷ log) }
    ensures taken { (shape : Shape) (me : Actor) (log : List Entry) → IsLoyalLog shape me log
        → (p : ℕ) → due shape log ≡ TakeFrom p → (envelope : Envelope) → IsLoyalLog shape me (Take (Replica p) envelope ∷ log) }
    ensures asked { (shape : Shape) (me : Actor) (log : List Entry) → IsLoyalLog shape me log
        → (c : ℕ) → c < shape.m → (envelope : Envelope) → IsLoyalLog shape me (Take (Client c) envelope ∷ log) }
{}

/// At each point of a round a loyal replica has posted to each replica, and taken from each, once for each closed round,
/// and once more if it made this round's post or take already.
pub fn posts_and_takes_keep_step()
    ensures { (shape : Shape) (me : Actor) (log : List Entry) → 0 < shape.n → IsLoyalLog shape me log
        → HasCounts shape log (rounds shape log) }
{}

/// A post that is due can be made: the plain choice gives an envelope for it.
pub fn due_posts_can_be_made()
    ensures { (shape : Shape) (me : Actor) (log : List Entry) → 0 < shape.n → IsLoyalLog shape me log
        → (q : ℕ) → due shape log ≡ PostTo q → IsSome (envelope_to shape me log q Plain) }
{}

/// A loyal replica posts the same envelope to all in a round: the one that its present log gives for that round. Each chain in it is the
/// replica's part in a round of some slot, and proper for that round.
pub fn posts_follow_the_log()
    ensures equal { (shape : Shape) (me : Actor) (log : List Entry) → 0 < shape.n → IsLoyalLog shape me log
        → (q : ℕ) → q < shape.n → (round : ℕ) (envelope : Envelope) → slice_get (posted_to (Replica q) log) round ≡ Some envelope
        → slice_get (posted_to (Replica 0) log) round ≡ Some envelope }
    ensures lawful { (shape : Shape) (me : Actor) (log : List Entry) → 0 < shape.n → IsLoyalLog shape me log
        → (q : ℕ) → q < shape.n → (round : ℕ) (envelope : Envelope) → slice_get (posted_to (Replica q) log) round ≡ Some envelope
        → IsOfRound shape me log round envelope }
    ensures chains { (shape : Shape) (me : Actor) (log : List Entry) → 0 < shape.n → IsReplica shape me → IsLoyalLog shape me log
        → (q : ℕ) → q < shape.n → (round : ℕ) (envelope : Envelope) → slice_get (posted_to (Replica q) log) round ≡ Some envelope
        → (chain : Chain) → In chain (chains_for round envelope) → IsPosted shape me log round chain }
{}

/// Each signature in an envelope that a loyal replica posts is its own, or is in an envelope that it took before: on a
/// chain, beside a request of a chain's value, or beside a request that was asked.
pub fn signatures_are_own_or_taken()
    ensures { (shape : Shape) (me : Actor) (log : List Entry) → 0 < shape.n → IsLoyalLog shape me log
        → (to : Actor) (envelope : Envelope) → IsNext shape me log (Post to envelope)
        → (s : Signature) → Carries envelope s → (s.signer ≡ me) ⊎ WasTaken log s }
{}

/// As a loyal log goes on, it says the same about its closed rounds: what was read and kept in them stays, what was decided
/// stays decided, with later values before it, and the history only grows.
pub fn closed_rounds_stay()
    ensures read { (shape : Shape) (me : Actor) (later log : List Entry) → 0 < shape.n → IsLoyalLog shape me later
        → Extends later log → (round : ℕ) → round < rounds shape log → read_in shape later round ≡ read_in shape log round }
    ensures kept { (shape : Shape) (me : Actor) (later log : List Entry) → 0 < shape.n → IsLoyalLog shape me later
        → Extends later log → (slot closed : ℕ) → first_round shape slot + closed ≤ rounds shape log
        → slot_kept shape later slot closed ≡ slot_kept shape log slot closed }
    ensures decided { (shape : Shape) (me : Actor) (later log : List Entry) → 0 < shape.n → IsLoyalLog shape me later
        → Extends later log → Extends (decided_values shape later) (decided_values shape log) }
    ensures history { (shape : Shape) (me : Actor) (later log : List Entry) → 0 < shape.n → IsLoyalLog shape me later
        → Extends later log → Extends (acted (decided_requests shape later)) (acted (decided_requests shape log)) }
{}

/// A loyal replica that took nothing past the limits posts nothing past them, in rounds up to 2^36; and its history has at most 8
/// requests for each closed round, all within the limits.
pub fn limits_are_kept()
    ensures posts { (shape : Shape) (p : ℕ) (log : List Entry) → IsAllowed shape → p < shape.n → IsLoyalLog shape (Replica p) log
        → ((from : Actor) (envelope : Envelope) → In (Take from envelope) log → IsEnvelope envelope) → rounds shape log ≤ 2 ^ 36
        → (to : Actor) (envelope : Envelope) → IsNext shape (Replica p) log (Post to envelope) → IsEnvelope envelope }
    ensures history { (shape : Shape) (log : List Entry) → ((from : Actor) (envelope : Envelope) → In (Take from envelope) log → IsEnvelope envelope)
        → length (acted (decided_requests shape log)) ≤ 8 * rounds shape log }
    ensures requests { (shape : Shape) (log : List Entry) → ((from : Actor) (envelope : Envelope) → In (Take from envelope) log → IsEnvelope envelope)
        → (request : Request) → In request (acted (decided_requests shape log)) → IsRequest request }
{}

/// A loyal replica never looks at who is a traitor. Under two shapes that differ at most in their traitors, the same is due, kept,
/// decided and held; the same envelopes are posted; and the same logs are loyal.
pub fn conduct_is_blind()
    ensures due { (shape other : Shape) → AgreeButForTraitors shape other → (log : List Entry) → due shape log ≡ due other log }
    ensures kept { (shape other : Shape) → AgreeButForTraitors shape other → (log : List Entry) (slot closed : ℕ)
        → slot_kept shape log slot closed ≡ slot_kept other log slot closed }
    ensures decided { (shape other : Shape) → AgreeButForTraitors shape other → (log : List Entry)
        → decided_values shape log ≡ decided_values other log }
    ensures held { (shape other : Shape) → AgreeButForTraitors shape other → (client : ℕ) (log : List Entry)
        → held shape client log ≡ held other client log }
    ensures posted { (shape other : Shape) → AgreeButForTraitors shape other → (me : Actor) (log : List Entry) (to : ℕ) (pick : Pick)
        → envelope_to shape me log to pick ≡ envelope_to other me log to pick }
    ensures conduct { (shape other : Shape) → AgreeButForTraitors shape other → (me : Actor) (log : List Entry)
        → IsLoyalLog shape me log → IsLoyalLog other me log }
{}

/// An envelope to a replica shows the choice of its post: whatever the log, a choice that gives the envelope is the one that the envelope
/// shows. In the round that begins a slot of its own, a replica's chain for that slot comes last: on the requests of the chosen clients,
/// in their order, or on idle for the plain choice. All posts to the replicas after the first are by the plain choice.
pub fn envelopes_tell_choices()
    ensures choice { (shape : Shape) (me : Actor) (log : List Entry) (q : ℕ) (pick : Pick) (envelope : Envelope) → IsPick pick
        → envelope_to shape me log q pick ≡ Some envelope → pick ≡ shown_choice shape me q envelope }
    ensures clients { (shape : Shape) (me : Actor) (log : List Entry) (clients : List ℕ) (envelope : Envelope)
        → envelope_to shape me log 0 (From clients) ≡ Some envelope → shown_clients envelope ≡ clients }
    ensures sender { (shape : Shape) (me : Actor) (log : List Entry) (clients : List ℕ) (envelope : Envelope)
        → envelope_to shape me log 0 (From clients) ≡ Some envelope → me ≡ sender_of shape (rounds shape log) }
    ensures idle { (shape : Shape) (me : Actor) (log : List Entry) (envelope : Envelope) → me ≡ sender_of shape (rounds shape log)
        → envelope_to shape me log 0 Plain ≡ Some envelope → shown_value envelope ≡ Idle }
    ensures last { (shape : Shape) (me : Actor) (log : List Entry) (pick : Pick) (envelope : Envelope) → me ≡ sender_of shape (rounds shape log)
        → envelope_to shape me log 0 pick ≡ Some envelope
        → (value : SlotValue) × (proposed shape me log pick ≡ Some value) × IsOwnLast shape me (rounds shape log) value envelope }
{}

/// What a replica holds for a client changes by that client's own asks alone. If an ask with the client's signature is taken from it,
/// and its number is not below that of the held one, it is held from then on; if its number is smaller, it is not. Nothing else that
/// is taken or posted changes what is held. At first nothing is held.
pub fn own_asks_are_held()
    ensures start { (shape : Shape) (c : ℕ) → held shape c [] ≡ None }
    ensures newer { (shape : Shape) (c : ℕ) (log : List Entry) (ask : SignedRequest) → ask.request.client ≡ c → IsAsked shape ask
        → ((before : SignedRequest) → held shape c log ≡ Some before → before.request.number ≤ ask.request.number)
        → held shape c (Take (Client c) (Ask ask) ∷ log) ≡ Some ask }
    ensures older { (shape : Shape) (c : ℕ) (log : List Entry) (ask before : SignedRequest) → held shape c log ≡ Some before
        → ask.request.number < before.request.number → held shape c (Take (Client c) (Ask ask) ∷ log) ≡ held shape c log }
    ensures foreign { (shape : Shape) (c : ℕ) (log : List Entry) (ask : SignedRequest) → (ask.request.client ≡ c → IsAsked shape ask → ⊥)
        → held shape c (Take (Client c) (Ask ask) ∷ log) ≡ held shape c log }
    ensures no_ask { (shape : Shape) (c : ℕ) (log : List Entry) (envelope : Envelope) → ((ask : SignedRequest) → envelope ≢ Ask ask)
        → held shape c (Take (Client c) envelope ∷ log) ≡ held shape c log }
    ensures others { (shape : Shape) (c other : ℕ) (log : List Entry) (envelope : Envelope) → other ≢ c
        → held shape c (Take (Client other) envelope ∷ log) ≡ held shape c log }
    ensures replicas { (shape : Shape) (c p : ℕ) (log : List Entry) (envelope : Envelope)
        → held shape c (Take (Replica p) envelope ∷ log) ≡ held shape c log }
    ensures posts { (shape : Shape) (c : ℕ) (to : Actor) (log : List Entry) (envelope : Envelope)
        → held shape c (Post to envelope ∷ log) ≡ held shape c log }
{}

/// Held asks can be proposed in each round in which the replica is the sender, and in no other: if the post to replica 0 is due, there is
/// an envelope with the asks held for the chosen clients, and the replica's own chain on them comes last. There are such asks exactly if
/// one is held for each of these clients, and they are these, in the clients' order.
pub fn held_asks_can_be_proposed()
    ensures sender { (shape : Shape) (me : Actor) (log : List Entry) (clients : List ℕ) (asks : List SignedRequest) → due shape log ≡ PostTo 0
        → me ≡ sender_of shape (rounds shape log) → all_held shape log clients ≡ Some asks
        → (envelope : Envelope) × (envelope_to shape me log 0 (From clients) ≡ Some envelope) × IsOwnLast shape me (rounds shape log) (Act asks) envelope }
    ensures others { (shape : Shape) (me : Actor) (log : List Entry) (clients : List ℕ) → me ≢ sender_of shape (rounds shape log)
        → envelope_to shape me log 0 (From clients) ≡ None }
    ensures held { (shape : Shape) (log : List Entry) (clients : List ℕ)
        → IsSome (all_held shape log clients) ↔ ((c : ℕ) → In c clients → IsSome (held shape c log)) }
    ensures order { (shape : Shape) (log : List Entry) (clients : List ℕ) (asks : List SignedRequest) → all_held shape log clients ≡ Some asks
        → map (λ c. held shape c log) clients ≡ map Some asks }
{}

/// If a request of a client acted, the client has a reply: to its last request that acted, with that request's number, its place and its
/// answer there. So for each request that acted its client has a reply, to that request or to a later one. A client without a request
/// that acted has no reply.
pub fn last_requests_are_replied()
    ensures some { (shape : Shape) (log : List Entry) (request : Request) → In request (acted (decided_requests shape log))
        → (reply : AReply) × (reply_to shape log request.client ≡ Some (Reply reply))
        × IsReplyTo (acted (decided_requests shape log)) request.client reply × (request.number ≤ reply.number) }
    ensures last { (shape : Shape) (log : List Entry) (place : ℕ) (request : Request) (answer : Answer)
        → (stands : StandsAt (acted (decided_requests shape log)) place request answer)
        → ((newer : Request) → In newer stands.newer → newer.client ≢ request.client)
        → reply_to shape log request.client ≡ Some (Reply (record { number = request.number; place = place; answer = answer })) }
    ensures none { (shape : Shape) (log : List Entry) (c : ℕ)
        → ((request : Request) → In request (acted (decided_requests shape log)) → request.client ≢ c) → reply_to shape log c ≡ None }
{}

/// From an envelope of the round in which it is taken a replica reads all chains, and from an envelope of another round or kind none.
pub fn other_envelopes_are_silent()
    ensures own { (t : ℕ) (chains : List Chain) → chains_for t (Round t chains) ≡ chains }
    ensures others { (t round : ℕ) (chains : List Chain) → round ≢ t → chains_for t (Round round chains) ≡ [] }
    ensures empty { (t : ℕ) → chains_for t Empty ≡ [] }
    ensures asks { (t : ℕ) (ask : SignedRequest) → chains_for t (Ask ask) ≡ [] }
    ensures replies { (t : ℕ) (reply : AReply) → chains_for t (Reply reply) ≡ [] }
    ensures fronts { (t front : ℕ) → chains_for t (Seen front) ≡ [] }
{}
