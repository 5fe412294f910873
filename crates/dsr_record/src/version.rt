ghost use Rattle.std.specs.Prelude.{◌≡◌};
ghost use Rattle.std.proofs.Common.{rules};
ghost use Rattle.dsr_record.specs.RecordText.{version_title};

use dsr_base::Exact;

/// A version of transcripts.
#[derive(Clone, Copy, Debug, PartialEq, Eq)]
pub enum Version {
    /// Its lines are plain: no value in them has more than one request, and nothing is removed or reports a removal.
    One,
    /// Its lines may have lists of requests and removals.
    Two,
}

impl Exact for Version {
    ghost decides = { λ a b. Prim.search rules };

    ghost clones = { λ a b. Prim.search rules };
}

impl Version {
    /// Returns the title of its header.
    pub(crate) fn title(&self) -> &'static str
        ensures { result.now ≡ version_title self.now }
    {
        match self {
            Version::One => "dsr-transcript 1",
            Version::Two => "dsr-transcript 2",
        }
    }
}
