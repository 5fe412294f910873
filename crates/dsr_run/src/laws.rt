//! States the laws of runs as contracts of functions that do nothing.

ghost use Rattle.std.specs.Prelude.{◌≡◌, ◌⊎◌, ℕ, ◌^◌, ◌<◌, ◌≤◌, List, [], ◌∷◌, ◌++◌, Some, length};
ghost use Rattle.dsr_base.specs.Growth.{Extends};
ghost use Rattle.dsr_base.specs.Member.{In};
ghost use Rattle.dsr_names.specs.Shape.{Shape, IsAllowed, HasFewTraitors, IsActor, IsLoyal};
ghost use Rattle.dsr_names.specs.declared.actor.Actor.{Actor};
ghost use Rattle.dsr_names.specs.declared.actor.Actor.TheVariants.{Replica, Client};
ghost use Rattle.dsr_history.specs.History.{acted, IsLegal};
ghost use Rattle.dsr_rotation.specs.Calendar.{closed_slots};
ghost use Rattle.dsr_desk.specs.Signature.{Signature};
ghost use Rattle.dsr_chain.specs.Proper.{sender_of};
ghost use Rattle.dsr_chain.specs.declared.signed_request.SignedRequest.{SignedRequest};
ghost use Rattle.dsr_chain.specs.declared.slot_value.SlotValue.{SlotValue};
ghost use Rattle.dsr_envelope.specs.declared.envelope.Envelope.{Envelope};
ghost use Rattle.dsr_envelope.specs.declared.envelope.Envelope.TheVariants.{Ask};
ghost use Rattle.dsr_envelope.specs.declared.entry.Entry.{Entry};
ghost use Rattle.dsr_envelope.specs.declared.entry.Entry.TheVariants.{Post, Take};
ghost use Rattle.dsr_replica.specs.Conduct.{IsNext, IsLoyalLog};
ghost use Rattle.dsr_replica.specs.Decided.{slot_decided, decided_requests};
ghost use Rattle.dsr_envelope.specs.Envelope.{Carries};
ghost use Rattle.dsr_envelope.specs.Limits.{IsEnvelope};
ghost use Rattle.dsr_envelope.specs.Log.{posted_to, taken_from, rounds};
ghost use Rattle.dsr_replica.specs.Posts.{WasTaken};
ghost use Rattle.dsr_client.specs.Conduct.{IsClientLog};
ghost use Rattle.dsr_client.specs.State.{outstanding};
ghost use Rattle.dsr_run.specs.Agreement.{HasProposed, HasFewLinks, HasAgreement};
ghost use Rattle.dsr_run.specs.History.{decided_at, history};
ghost use Rattle.dsr_run.specs.Run.{IsRun, IsNextStep, AreLogs, HasPosted, IsMadeOrPosted, other_of, envelope_of};
ghost use Rattle.dsr_run.specs.Step.{Step, Logs, with_step, log_of};

/// In a run the log of each loyal replica is loyal, and that of each client is a client's; only actors of the shape have entries, and only
/// with actors of the shape; and at each earlier time the run was a run too.
pub fn runs_keep_conduct()
    ensures replicas { (shape : Shape) (run : List Step) → IsRun shape run → (p : ℕ) → IsLoyal shape (Replica p)
        → IsLoyalLog shape (Replica p) (log_of run (Replica p)) }
    ensures clients { (shape : Shape) (run : List Step) → IsRun shape run → (c : ℕ) → IsClientLog shape c (log_of run (Client c)) }
    ensures actors { (shape : Shape) (run : List Step) → IsRun shape run → (a : Actor) (entry : Entry) → In entry (log_of run a)
        → IsActor shape a × IsActor shape (other_of entry) }
    ensures earlier { (shape : Shape) (run earlier : List Step) → IsRun shape run → Extends run earlier → IsRun shape earlier }
{}

/// The logs of a run: empty logs are those of one, and so are the logs of a run with one more step that may be next. Whether a step may
/// be next depends only on the logs, not on the order in which they came about.
pub fn runs_go_on()
    ensures empty { (shape : Shape) → AreLogs shape (λ a. []) }
    ensures step { (shape : Shape) (logs : Logs) (step : Step) → AreLogs shape logs → IsNextStep shape logs step
        → AreLogs shape (with_step step logs) }
{}

/// In a run each box is empty or holds one envelope: an actor has taken from another all that this one posted to it, in its order,
/// or all but the last envelope. So what was taken was posted.
pub fn boxes_hold_one_envelope()
    ensures boxes { (shape : Shape) (run : List Step) → IsRun shape run → (a b : Actor)
        → (posted_to b (log_of run a) ≡ taken_from a (log_of run b))
        ⊎ ((envelope : Envelope) × (posted_to b (log_of run a) ≡ taken_from a (log_of run b) ++ envelope ∷ [])) }
    ensures posted { (shape : Shape) (run : List Step) → IsRun shape run → (a b : Actor) (envelope : Envelope)
        → In (Take a envelope) (log_of run b) → In (Post b envelope) (log_of run a) }
{}

/// Nobody's signature is forged in a run: each signature that a step carries, on a chain, beside a request of a chain's value, or
/// beside a request that is asked, is by a traitor of the shape, or is in what its signer posted, in that step or earlier. So a
/// traitor that sends on what it took, or what anybody posted, forges nothing.
pub fn no_signature_is_forged()
    ensures steps { (shape : Shape) (run older : List Step) (step : Step) → IsRun shape run → Extends run (step ∷ older)
        → (s : Signature) → Carries (envelope_of step.1) s → IsMadeOrPosted shape (log_of (step ∷ older)) s }
    ensures taken { (shape : Shape) (run : List Step) → IsRun shape run → (a : Actor) (s : Signature) → WasTaken (log_of run a) s
        → IsMadeOrPosted shape (log_of run) s }
    ensures posted { (shape : Shape) (run : List Step) → IsRun shape run → (a : Actor) (s : Signature) → HasPosted (log_of run a) s
        → IsMadeOrPosted shape (log_of run) s }
{}

/// Agreement: if at most f replicas are traitors, the values that one of two loyal replicas has decided are a prefix of those that
/// the other has decided. Values are listed latest first, so one list is the other with later values before it. If both have closed
/// a slot, they decided it alike.
pub fn loyal_replicas_agree()
    ensures lists { (shape : Shape) (run : List Step) → HasFewTraitors shape → IsRun shape run
        → (p q : ℕ) → IsLoyal shape (Replica p) → IsLoyal shape (Replica q)
        → Extends (decided_at shape (log_of run) p) (decided_at shape (log_of run) q)
        ⊎ Extends (decided_at shape (log_of run) q) (decided_at shape (log_of run) p) }
    ensures slots { (shape : Shape) (run : List Step) → HasFewTraitors shape → IsRun shape run
        → (p q : ℕ) → IsLoyal shape (Replica p) → IsLoyal shape (Replica q) → (slot : ℕ)
        → slot < closed_slots shape (rounds shape (log_of run (Replica p))) → slot < closed_slots shape (rounds shape (log_of run (Replica q)))
        → slot_decided shape (log_of run (Replica p)) slot ≡ slot_decided shape (log_of run (Replica q)) slot }
{}

/// Validity: a slot of a loyal sender, closed at a loyal replica, is decided as the value that the sender posted, however many are traitors.
/// The value is the one for which the sender's envelope of the slot's first round has the chain that it starts; there is exactly one.
pub fn loyal_senders_values_are_decided()
    ensures decided { (shape : Shape) (run : List Step) → IsRun shape run → (slot : ℕ) → IsLoyal shape (sender_of shape slot)
        → (p : ℕ) → IsLoyal shape (Replica p) → slot < closed_slots shape (rounds shape (log_of run (Replica p)))
        → (value : SlotValue) → HasProposed shape (sender_of shape slot) (log_of run (sender_of shape slot)) slot value
        → slot_decided shape (log_of run (Replica p)) slot ≡ value }
    ensures proposed { (shape : Shape) (run : List Step) → IsRun shape run → (slot : ℕ) → IsLoyal shape (sender_of shape slot)
        → (p : ℕ) → IsLoyal shape (Replica p) → slot < closed_slots shape (rounds shape (log_of run (Replica p)))
        → HasProposed shape (sender_of shape slot) (log_of run (sender_of shape slot)) slot (slot_decided shape (log_of run (Replica p)) slot) }
{}

/// What a loyal replica posts carries its signature on at most two different links of one slot, and on at most one if the
/// slot's sender is loyal, however many are traitors.
pub fn loyal_replicas_sign_few_links()
    ensures two { (shape : Shape) (run : List Step) → IsRun shape run → (slot : ℕ) → (p : ℕ) → IsLoyal shape (Replica p)
        → HasFewLinks (Replica p) (log_of run (Replica p)) slot 2 }
    ensures one { (shape : Shape) (run : List Step) → IsRun shape run → (slot : ℕ) → (p : ℕ) → IsLoyal shape (Replica p)
        → IsLoyal shape (sender_of shape slot) → HasFewLinks (Replica p) (log_of run (Replica p)) slot 1 }
{}

/// Agreement, validity, no forgery and few signatures in one: every run has them, if at most f replicas are traitors.
pub fn runs_agree()
    ensures { (shape : Shape) (run : List Step) → HasFewTraitors shape → IsRun shape run → HasAgreement shape run }
{}

/// One history: if at most f replicas are traitors, what each loyal replica has processed is a prefix of the history, and the
/// history is what one of them has processed, or empty. It only grows, with time and with logs that go on; and the numbers of
/// each client in it rise strictly, whatever the logs.
pub fn history_only_grows()
    ensures each { (shape : Shape) (run : List Step) → HasFewTraitors shape → IsRun shape run → (p : ℕ) → IsLoyal shape (Replica p)
        → Extends (history shape (log_of run)) (acted (decided_requests shape (log_of run (Replica p)))) }
    ensures one { (shape : Shape) (logs : Logs) → (history shape logs ≡ [])
        ⊎ ((p : ℕ) × IsLoyal shape (Replica p) × (history shape logs ≡ acted (decided_requests shape (logs (Replica p))))) }
    ensures times { (shape : Shape) (run earlier : List Step) → HasFewTraitors shape → IsRun shape run → Extends run earlier
        → Extends (history shape (log_of run)) (history shape (log_of earlier)) }
    ensures logs { (shape : Shape) (run : List Step) (earlier : Logs) → HasFewTraitors shape → IsRun shape run
        → ((a : Actor) → Extends (log_of run a) (earlier a)) → Extends (history shape (log_of run)) (history shape earlier) }
    ensures legal { (shape : Shape) (logs : Logs) → IsLegal (history shape logs) }
{}

/// The limits hold in a run: all that is posted or taken is within them, a loyal replica closes at most 2^36 rounds, and the history
/// has at most 2^39 requests. And what a loyal replica may post next is within the limits of envelopes, if the shape is within those
/// of shapes; so is what a client asks again.
pub fn limits_are_kept_in_runs()
    ensures posted { (shape : Shape) (run : List Step) → IsRun shape run → (a to : Actor) (envelope : Envelope)
        → In (Post to envelope) (log_of run a) → IsEnvelope envelope }
    ensures taken { (shape : Shape) (run : List Step) → IsRun shape run → (a from : Actor) (envelope : Envelope)
        → In (Take from envelope) (log_of run a) → IsEnvelope envelope }
    ensures rounds { (shape : Shape) (run : List Step) → IsRun shape run → (p : ℕ) → IsLoyal shape (Replica p)
        → rounds shape (log_of run (Replica p)) ≤ 2 ^ 36 }
    ensures history { (shape : Shape) (run : List Step) → IsRun shape run → length (history shape (log_of run)) ≤ 2 ^ 39 }
    ensures next { (shape : Shape) (run : List Step) → IsAllowed shape → IsRun shape run → (p : ℕ) → IsLoyal shape (Replica p)
        → (to : Actor) (envelope : Envelope) → IsNext shape (Replica p) (log_of run (Replica p)) (Post to envelope) → IsEnvelope envelope }
    ensures again { (shape : Shape) (run : List Step) → IsRun shape run → (c : ℕ) (ask : SignedRequest)
        → outstanding shape (log_of run (Client c)) ≡ Some ask → IsEnvelope (Ask ask) }
{}
