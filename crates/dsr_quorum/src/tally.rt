ghost use Rattle.std.specs.Prelude.{◌≡◌, ℕ, ◌<◌, ◌≤◌, ◌∷◌, [], List, None, Some, nat_lt, if◌then◌else◌};
ghost use Rattle.dsr_quorum.specs.Tally.{StandsFor};
ghost use Rattle.dsr_quorum.specs.Support.Tally.{vote_in, votes_in};
ghost use Rattle.dsr_quorum.specs.Votes.{Note, first_of, votes, winner};

use dsr_ledger::Reply;
use dsr_names::ReplicaId;
use std::marker::Model;

/// The greatest number of replicas of a shape.
const MOST_REPLICAS: usize = 16;

/// Which replica gave which reply first, and which reply was the first to have more than f votes. It is of
/// fixed size.
#[derive(Drop)]
pub struct Tally {
    f: u8,
    n: u8,
    firsts: [Option<Reply>; MOST_REPLICAS],
    winner: Option<Reply>,
}

impl Model for Tally {
    ghost use Rattle.std.specs.Prelude.{length, ◌≡◌, ◌≤◌};
    ghost use Rattle.dsr_quorum.specs.Tally.{Tally};

    ghost Value = { Tally };

    ghost view = { λ t. record { f = t.f; n = t.n; firsts = t.firsts; winner = t.winner } };

    ghost invariant = { λ t. (t.n ≤ 16) × (length t.firsts ≡ 16) };
}

impl Tally {
    /// Creates an empty tally for n replicas, at most f of them traitors. Requires that n is at most 16.
    pub fn new(f: u8, n: u8) -> Tally
        requires { n ≤ 16 }
        ensures f { result.f ≡ f }
        ensures n { result.n ≡ n }
        ensures stands { StandsFor result [] }
    {
        Tally {
            f,
            n,
            firsts: [None; MOST_REPLICAS],
            winner: None,
        }
    }

    /// Forgets all notes.
    pub fn clear(&mut self)
        ensures f { self.new.f ≡ self.old.f }
        ensures n { self.new.n ≡ self.old.n }
        ensures stands { StandsFor self.new [] }
    {
        *self = Tally::new(self.f, self.n);
    }

    /// Notes that the replica gave the reply; only its first reply counts. Requires that the replica is
    /// below n.
    pub fn note(&mut self, replica: ReplicaId, reply: Reply)
        requires { replica < self.old.n }
        ensures f { self.new.f ≡ self.old.f }
        ensures n { self.new.n ≡ self.old.n }
        ensures stands { (notes : List Note) → StandsFor self.old notes
            → StandsFor self.new (record { replica = replica; reply = reply } ∷ notes) }
    {
        let place = replica.number() as usize;
        if self.firsts[place].is_none() {
            self.firsts[place] = Some(reply);
            self.winner = self.winner.or(self.elected(reply));
        }
    }

    /// Returns the reply that was the first to have more than f votes, or `None` while none has.
    pub fn winner(&self) -> Option<Reply>
        ensures same { result ≡ self.now.winner }
        ensures stands { (notes : List Note) → StandsFor self.now notes → result ≡ winner self.now.f self.now.n notes }
    {
        self.winner
    }

    /// Returns the reply that the replica gave first, or `None` while it gave none. Requires that the
    /// replica is below n.
    pub fn vote_of(&self, replica: ReplicaId) -> Option<Reply>
        requires { replica < self.now.n }
        ensures { (notes : List Note) → StandsFor self.now notes → result ≡ first_of replica notes }
    {
        self.firsts[replica.number() as usize]
    }

    /// Returns the reply if more than f replicas gave it first.
    fn elected(&self, reply: Reply) -> Option<Reply>
        ensures { result ≡ (if nat_lt self.now.f (votes_in self.now reply) then Some reply else None) }
    {
        if self.votes(&reply) > self.f {
            Some(reply)
        } else {
            None
        }
    }

    /// Returns the number of replicas that gave this reply first, at most n.
    pub fn votes(&self, reply: &Reply) -> u8
        ensures same { result ≡ votes_in self.now reply.now }
        ensures stands { (notes : List Note) → StandsFor self.now notes → result ≡ votes self.now.n notes reply.now }
    {
        let mut count = 0;
        for place in 0..self.n as usize {
            count += self.vote(place, reply);
        }
        count
    }

    /// Returns 1 if the replica with this number gave this reply first, else 0.
    fn vote(&self, replica: usize, reply: &Reply) -> u8
        requires { replica < 16 }
        ensures { result ≡ vote_in self.now reply.now replica }
    {
        match self.firsts[replica] {
            Some(first) => u8::from(first == *reply),
            None => 0,
        }
    }
}
