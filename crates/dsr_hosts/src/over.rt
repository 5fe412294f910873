ghost use Rattle.std.specs.Prelude.{◌≡◌, ◌↔◌, ◌≤◌, false, is_some, IsSome};

use dsr_mail::Mail;
use dsr_rounds::Ended;

/// Evidence that the hosts of all replicas and traitors of a mail have ended, by a look at the counter. Only `Over::of` makes one.
#[derive(Drop)]
pub(crate) struct Over {
    ended: Ended,
}

impl Over {
    /// Returns an `Over` if at least as many hosts have ended as the mail has replicas, traitors among them.
    pub(crate) fn of(ended: Ended, mail: &Mail) -> Option<Over>
        ensures { IsSome result ↔ (mail.now.shape.n ≤ ended.count) }
    {
        if ended.is_all(mail.shape().n()) {
            Some(Over { ended })
        } else {
            None
        }
    }
}

/// What is known about the calls for one operation of a client: whether all replicas' and traitors' hosts ended before the next
/// call, and before the last call that began.
#[derive(Drop)]
pub(crate) struct Calls {
    over: bool,
    last: bool,
}

impl Calls {
    /// Creates the state before the first look and the first call.
    pub(crate) fn none() -> Calls {
        Calls {
            over: false,
            last: false,
        }
    }

    /// Notes this look, before the next call, at whether all have ended.
    pub(crate) fn begin(&mut self, over: Option<Over>)
        ensures over { self.new.over ≡ is_some over }
        ensures last { self.new.last ≡ false }
    {
        self.over = over.is_some();
        self.last = false;
    }

    /// Notes that the next call is begun.
    pub(crate) fn note(&mut self)
        ensures over { self.new.over ≡ self.old.over }
        ensures last { self.new.last ≡ self.old.over }
    {
        self.last = self.over;
    }

    /// Returns whether all hosts ended before the look that preceded the last call.
    pub(crate) fn is_last(&self) -> bool
        ensures { result ≡ self.now.last }
    {
        self.last
    }
}
