ghost use Rattle.std.specs.Prelude.{◌≡◌, reverse};

use dsr_envelope::Entry;
use std::marker::Model;

/// One actor's log: what it posted and took, in its order. Contracts see it newest entry first.
#[derive(Drop)]
pub(crate) struct Log {
    entries: Vec<Entry>,
}

impl Model for Log {
    ghost use Rattle.std.specs.Prelude.{List, reverse};
    ghost use Rattle.dsr_envelope.specs.declared.entry.Entry.{Entry};

    ghost Value = { List Entry };

    ghost view = { λ l. reverse l.entries.items };
}

impl Log {
    /// Creates the log of these entries.
    pub(crate) fn of(entries: Vec<Entry>) -> Log
        ensures { result ≡ reverse entries.items }
    {
        Log { entries }
    }

    /// Returns the entries, the oldest first.
    pub(crate) fn entries(&self) -> &[Entry]
        ensures { result.now ≡ reverse self.now }
    {
        self.entries.as_slice()
    }
}
