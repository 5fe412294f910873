//! States laws over the definitions as contracts of functions that do nothing.

ghost use Rattle.std.specs.Prelude.{◌≡◌, ◌↔◌, ℕ, List, [], Option, None, Some, Any, IsTrue};
ghost use Rattle.dsr_names.specs.Shape.{Shape};
ghost use Rattle.dsr_names.specs.declared.actor.Actor.{Actor};
ghost use Rattle.dsr_request.specs.Request.{Request};
ghost use Rattle.dsr_chain.specs.Chain.{Chain};
ghost use Rattle.dsr_chain.specs.declared.signed_request.SignedRequest.{SignedRequest};
ghost use Rattle.dsr_chain.specs.declared.slot_value.SlotValue.{SlotValue};
ghost use Rattle.dsr_chain.specs.Content.{content, requests_in};
ghost use Rattle.dsr_chain.specs.Proper.{IsProper, IsAsked};
ghost use Rattle.dsr_chain.specs.ProperTest.{is_proper, is_asked, same_content, is_signer};
ghost use Rattle.dsr_names.specs.Support.ActorEquality.{actor_eq};
ghost use Rattle.dsr_chain.specs.Faults.{HasNoFault};

/// A chain is proper exactly if no fault holds.
pub fn proper_means_no_fault()
    ensures { (shape : Shape) (slot round : ℕ) (chain : Chain)
        → IsProper shape slot round chain ↔ HasNoFault shape slot round chain }
{}

/// The tests on which definitions branch decide the facts: `is_proper` holds exactly for proper chains, `is_asked` exactly for a request of a client of the
/// shape with that client's signature beside it, `same_content` exactly for equal contents, `is_signer` exactly if one of the signatures is the actor's, and
/// `actor_eq` exactly for equal actors.
pub fn tests_decide_the_facts()
    ensures proper { (shape : Shape) (slot round : ℕ) (chain : Chain)
        → IsTrue (is_proper shape slot round chain) ↔ IsProper shape slot round chain }
    ensures asked { (shape : Shape) (s : SignedRequest) → IsTrue (is_asked shape s) ↔ IsAsked shape s }
    ensures content { (a b : Option (List Request)) → IsTrue (same_content a b) ↔ (a ≡ b) }
    ensures signer { (actor : Actor) (chain : Chain) → IsTrue (is_signer actor chain) ↔ Any (λ s. s.signer ≡ actor) chain.signatures }
    ensures actor { (a b : Actor) → IsTrue (actor_eq a b) ↔ (a ≡ b) }
{}

/// A content determines the requests of each value that has it: they are those in the content, and none if it is idle.
pub fn content_determines_requests()
    ensures requests { (value : SlotValue) (requests : List Request) → content value ≡ Some requests → requests_in value ≡ requests }
    ensures idle { (value : SlotValue) → content value ≡ None → requests_in value ≡ [] }
{}
