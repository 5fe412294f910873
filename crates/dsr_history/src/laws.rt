//! Laws over the definitions: each is the contract of a function that does nothing.

ghost use Rattle.std.specs.Prelude.{◌≡◌, ◌≢◌, ℕ, ◌<◌, ◌≤◌, None, Some, List, ◌++◌, length};
ghost use Rattle.dsr_base.specs.Growth.{Extends};
ghost use Rattle.dsr_base.specs.Member.{In};
ghost use Rattle.dsr_request.specs.Request.{Request};
ghost use Rattle.dsr_request.specs.declared.answer.Answer.{Answer};
ghost use Rattle.dsr_ledger.specs.declared.reply.Reply.{Reply};
ghost use Rattle.dsr_history.specs.History.{acted, answer_at, reply_in, IsLegal, StandsAt, IsReplyTo};

/// The history only grows: if newer values follow some values, the history of all is the history of the first values
/// with newer requests, and each of its places keeps its answer.
pub fn history_only_grows()
    ensures grows { (newer values : List (List Request)) → Extends (acted (newer ++ values)) (acted values) }
    ensures answers { (newer values : List (List Request)) (place : ℕ) → place < length (acted values)
        → answer_at (acted (newer ++ values)) place ≡ answer_at (acted values) place }
{}

/// Within each client the numbers of a history rise strictly, so none is in it twice.
pub fn history_is_legal()
    ensures { (values : List (List Request)) → IsLegal (acted values) }
{}

/// A history has requests from the values alone. A request stays at its place as the history grows, and was there before if the
/// place was. A client's number is at one place alone. A client's last reply is the answer to its last request in the history, at
/// that request's place. Only a client without a request there has no reply.
pub fn requests_keep_their_places()
    ensures from_values { (values : List (List Request)) (request : Request) → In request (acted values)
        → (requests : List Request) × In requests values × In request requests }
    ensures somewhere { (history : List Request) (request : Request) → In request history
        → (place : ℕ) × (answer : Answer) × StandsAt history place request answer }
    ensures answered { (history : List Request) (place : ℕ) (request : Request) (answer : Answer)
        → StandsAt history place request answer → answer_at history place ≡ Some answer }
    ensures stays { (later earlier : List Request) (place : ℕ) (request : Request) (answer : Answer)
        → Extends later earlier → StandsAt earlier place request answer → StandsAt later place request answer }
    ensures stood { (later earlier : List Request) (place : ℕ) (request : Request) (answer : Answer)
        → Extends later earlier → place < length earlier
        → StandsAt later place request answer → StandsAt earlier place request answer }
    ensures once { (history : List Request) (place other : ℕ) (request again : Request) (answer told : Answer)
        → IsLegal history → StandsAt history place request answer → StandsAt history other again told
        → request.client ≡ again.client → request.number ≡ again.number
        → (request ≡ again) × (place ≡ other) × (answer ≡ told) }
    ensures replies { (history : List Request) (client : ℕ) (reply : Reply)
        → reply_in history client ≡ Some reply → IsReplyTo history client reply }
    ensures last { (history : List Request) (place : ℕ) (request : Request) (answer : Answer)
        → (stands : StandsAt history place request answer)
        → ((newer : Request) → In newer stands.newer → newer.client ≢ request.client)
        → reply_in history request.client ≡ Some (record { number = request.number; place = place; answer = answer }) }
    ensures replied { (history : List Request) (request : Request) → IsLegal history → In request history
        → (reply : Reply) × (reply_in history request.client ≡ Some reply) × (request.number ≤ reply.number) }
    ensures unreplied { (history : List Request) (client : ℕ)
        → ((request : Request) → In request history → request.client ≢ client) → reply_in history client ≡ None }
{}
