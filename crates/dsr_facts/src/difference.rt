ghost use Rattle.std.specs.Prelude.{◌≡◌, ◌≢◌, ◌↔◌, ◌⊎◌, ℕ, ◌<◌, ◌≤◌, [], Some, IfSome, IfNone, IsTrue, length, slice_get};
ghost use Rattle.dsr_chain.specs.Chain.{Chain as AChain};
ghost use Rattle.dsr_facts.specs.Difference.{AreAlike, IsOneOf, ArePartedAt, DifferInChains, DifferInRounds, IsDifference, IsParting};

use dsr_chain::Chain;
use dsr_envelope::Envelope;

/// What is wrong at the first place at which a found list of chains differs from the wanted one.
#[derive(Clone, Copy, Debug, PartialEq, Eq)]
pub enum Parting {
    /// The wanted list has ended, or it has nowhere the chain that the found one has here.
    TooMany,
    /// The found list has ended, or it has nowhere the chain that the wanted one has here; its own chain here is in the wanted list.
    Missing,
    /// Each list has, at another place, the chain that the other one has here.
    Misplaced,
    /// Both chains here have the same slot and signers, but their value or a signature differs.
    OtherContent,
}

/// How an envelope differs from the one that an actor posts there.
#[derive(Clone, Copy, Debug, PartialEq, Eq)]
pub enum Difference {
    /// It is of another kind.
    OtherKind,
    /// It is of another round.
    OtherRound,
    /// The chains are the wanted ones before this place, counted from 0, and differ at it, or one list has ended there.
    Chains { place: u64, how: Parting },
    /// It is another ask.
    OtherAsk,
    /// It is another reply.
    OtherReply,
    /// It is another seen front.
    OtherFront,
}

/// Returns how the envelope that was found differs from the wanted one. `None` exactly if it does not. Allocates nothing.
pub fn how_differs(wanted: &Envelope, found: &Envelope) -> Option<Difference>
    ensures some { IfSome result (IsDifference wanted.now found.now) }
    ensures none { IfNone result (wanted.now ≡ found.now) }
{
    if wanted.same(found) {
        return None;
    }
    Some(match (wanted, found) {
        (
            Envelope::Round { round, chains },
            Envelope::Round {
                round: other_round,
                chains: other_chains,
            },
        ) => {
            if round == other_round {
                parted(chains.as_slice(), other_chains.as_slice())
            } else {
                Difference::OtherRound
            }
        }
        (Envelope::Empty, Envelope::Round { chains, .. }) => in_chains(&[], chains.as_slice()),
        (Envelope::Round { chains, .. }, Envelope::Empty) => in_chains(chains.as_slice(), &[]),
        (Envelope::Ask(_), Envelope::Ask(_)) => Difference::OtherAsk,
        (Envelope::Reply(_), Envelope::Reply(_)) => Difference::OtherReply,
        (Envelope::Seen(_), Envelope::Seen(_)) => Difference::OtherFront,
        _ => Difference::OtherKind,
    })
}

/// Returns how the chains of two envelopes differ. Requires that one of them has none.
fn in_chains(ours: &[Chain], theirs: &[Chain]) -> Difference
    requires { (ours.now ≡ []) ⊎ (theirs.now ≡ []) }
    ensures { DifferInChains ours.now theirs.now result }
{
    if ours.is_empty() && theirs.is_empty() {
        Difference::OtherKind
    } else {
        parted(ours, theirs)
    }
}

/// Returns how two lists of chains differ. Requires that they do.
fn parted(ours: &[Chain], theirs: &[Chain]) -> Difference
    requires { ours.now ≢ theirs.now }
    ensures chains { DifferInChains ours.now theirs.now result }
    ensures round { (round : ℕ) → DifferInRounds round round ours.now theirs.now result }
{
    let place = agreed(ours, theirs);
    let how = parting_at(ours, theirs, place);
    Difference::Chains {
        place: place as u64,
        how,
    }
}

/// Returns the first place at which two lists of chains differ, or the end of the shorter one.
fn agreed(ours: &[Chain], theirs: &[Chain]) -> usize
    ensures before { (i : ℕ) → i < result → slice_get ours.now i ≡ slice_get theirs.now i }
    ensures ours { result ≤ length ours.now }
    ensures theirs { result ≤ length theirs.now }
    ensures apart { (x y : AChain) → slice_get ours.now result ≡ Some x → slice_get theirs.now result ≡ Some y → x ≢ y }
{
    for place in 0..ours.len() {
        if place >= theirs.len() || !ours[place].same(&theirs[place]) {
            return place;
        }
    }
    ours.len()
}

/// Returns what is wrong at this place. Requires that two lists of chains agree before it, differ at it,
/// and have not both ended there.
fn parting_at(ours: &[Chain], theirs: &[Chain], place: usize) -> Parting
    requires before { (i : ℕ) → i < place → slice_get ours.now i ≡ slice_get theirs.now i }
    requires apart { (x y : AChain) → slice_get ours.now place ≡ Some x → slice_get theirs.now place ≡ Some y → x ≢ y }
    requires some { place < length ours.now ⊎ place < length theirs.now }
    ensures { ArePartedAt place ours.now theirs.now result }
{
    let how = parting_on(ours, theirs, place);
    how
}

/// Returns what is wrong if two lists of chains go on with what is at this place.
fn parting_on(ours: &[Chain], theirs: &[Chain], place: usize) -> Parting
    requires some { place < length ours.now ⊎ place < length theirs.now }
    ensures { IsParting ours.now theirs.now (slice_get ours.now place) (slice_get theirs.now place) result }
{
    if place >= ours.len() {
        return Parting::TooMany;
    }
    if place >= theirs.len() {
        return Parting::Missing;
    }
    parting_of(ours, theirs, &ours[place], &theirs[place])
}

/// Returns what is wrong if two lists of chains go on with these.
fn parting_of(ours: &[Chain], theirs: &[Chain], next: &Chain, other: &Chain) -> Parting
    ensures { IsParting ours.now theirs.now (Some next.now) (Some other.now) result }
{
    if are_alike(next, other) {
        Parting::OtherContent
    } else if !has(ours, other) {
        Parting::TooMany
    } else if !has(theirs, next) {
        Parting::Missing
    } else {
        Parting::Misplaced
    }
}

/// Tells whether two chains are for one slot, and have the same signers.
fn are_alike(one: &Chain, other: &Chain) -> bool
    ensures { IsTrue result ↔ AreAlike one.now other.now }
{
    one.slot() == other.slot() && one.signers().same(&other.signers())
}

/// Tells whether the chain is one of these.
fn has(chains: &[Chain], chain: &Chain) -> bool
    ensures { IsTrue result ↔ IsOneOf chain.now chains.now }
{
    chains.iter().any(|one| one.same(chain))
}
