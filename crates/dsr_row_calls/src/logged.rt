//! A replica, and the length of the log that it represents.

ghost use Rattle.std.specs.Prelude.{◌≡◌, suc, IfOk};

use crate::said::Failure;
use dsr_desk::Key;
use dsr_names::{ClientId, ReplicaId, Shape};
use dsr_replica::{Due, Envelope, Pick, Replica};
use std::alloc::Global;
use std::marker::Model;

/// A replica, and the number of entries of its log. It is an invariant that the replica represents a loyal log with
/// `entries` entries; each step is proved to keep it.
#[derive(Drop)]
pub struct Logged {
    replica: Replica,
    entries: u64,
}

impl Model for Logged {
    ghost use Rattle.std.specs.Prelude.{ℕ};
    ghost use Rattle.dsr_row_calls.specs.LoyalLogs.{HasLog};

    ghost Value = { ℕ };

    ghost view = { λ l. l.entries };

    ghost invariant = { λ l. HasLog l.replica l.entries };
}

impl Logged {
    /// Creates the replica that holds this key, with an empty log. `NoCall` if the key's signer is not an actor of the shape.
    pub(crate) fn new(alloc: Global, key: Key, shape: &Shape) -> Result<Logged, Failure> {
        if !shape.has(key.signer()) {
            return Err(Failure::NoCall);
        }
        let replica = Replica::new(alloc, key, shape)?;
        Ok(Logged {
            replica,
            entries: 0,
        })
    }

    /// Returns the replica.
    pub(crate) fn replica(&self) -> &Replica {
        &self.replica
    }

    /// Returns the number of entries of its log.
    pub(crate) fn entries(&self) -> u64 {
        self.entries
    }

    /// Posts to this replica with this choice, and returns the envelope.
    pub(crate) fn post(
        &mut self,
        alloc: Global,
        to: ReplicaId,
        pick: &Pick,
    ) -> Result<Envelope, Failure> {
        let entries = one_more(self.entries)?;
        let envelope = self.replica.envelope_for(alloc, to, *pick)?;
        if !self.replica.allows(to, *pick) {
            return Err(Failure::NoCall);
        }
        self.replica.posted(to, *pick);
        self.entries = entries;
        Ok(envelope)
    }

    /// Makes room for what the replica decides, and takes the envelope from the replica `from`.
    pub(crate) fn take(&mut self, from: ReplicaId, envelope: Envelope) -> Result<(), Failure> {
        let entries = one_more(self.entries)?;
        self.replica.room()?;
        if !self.replica.has_room() || self.replica.due() != Due::Take(from) {
            return Err(Failure::NoCall);
        }
        self.replica.taken(from, envelope);
        self.entries = entries;
        Ok(())
    }

    /// Takes the envelope from the replica `from` if it would keep no chain of it, and returns whether it did.
    pub(crate) fn pass_over(
        &mut self,
        from: ReplicaId,
        envelope: &Envelope,
    ) -> Result<bool, Failure> {
        let entries = one_more(self.entries)?;
        self.replica.room()?;
        if !self.replica.has_room() || self.replica.due() != Due::Take(from) {
            return Err(Failure::NoCall);
        }
        let passed = self.replica.passed_over(from, envelope);
        if passed {
            self.entries = entries;
        }
        Ok(passed)
    }

    /// Takes the envelope from this client.
    pub(crate) fn take_ask(&mut self, client: ClientId, envelope: Envelope) -> Result<(), Failure> {
        let entries = one_more(self.entries)?;
        if client.number() >= self.replica.shape().m() {
            return Err(Failure::NoCall);
        }
        self.replica.ask_taken(client, envelope);
        self.entries = entries;
        Ok(())
    }

    /// Returns the reply that it would post to this client; `None` if it has no reply to the client.
    pub(crate) fn owed(&self, client: ClientId) -> Result<Option<Envelope>, Failure> {
        if client.number() >= self.replica.shape().m() {
            return Err(Failure::NoCall);
        }
        Ok(self.replica.reply_for(client))
    }

    /// Posts its reply to this client and returns it; `None` if it has no reply to the client.
    pub(crate) fn reply(&mut self, client: ClientId) -> Result<Option<Envelope>, Failure> {
        let entries = one_more(self.entries)?;
        if client.number() >= self.replica.shape().m() {
            return Err(Failure::NoCall);
        }
        let Some(envelope) = self.replica.reply_for(client) else {
            return Ok(None);
        };
        self.entries = entries;
        Ok(Some(envelope))
    }
}

/// Returns `entries` + 1. `NoCall` if the number would be too great.
fn one_more(entries: u64) -> Result<u64, Failure>
    ensures { IfOk result (λ more. more ≡ suc entries) }
{
    entries.checked_add(1).ok_or(Failure::NoCall)
}
