// Why a commit is refused.
use dup_names::NoMemory;
use dup_template::SiteRefusal;
use thiserror::Error;

/// Why a commit is refused. The numbers are those of the change that fails first, counted from 1.
#[derive(Clone, Copy, Debug, PartialEq, Eq, Error)]
pub enum CommitRefusal {
    /// The site has no such kind.
    #[error("unknown kind at {0}")]
    UnknownKind(u16),
    /// The kind has no such field.
    #[error("unknown field at {0}")]
    UnknownField(u16),
    /// A row that is to be removed isn't there.
    #[error("no row at {0}")]
    NoRow(u16),
    /// The kind has no room for a new row.
    #[error("kind full at {0}")]
    KindFull(u16),
    /// The journal holds no more: it has so many commits, of so many bytes.
    #[error("journal full: {commits} commits, {bytes} bytes")]
    JournalFull { commits: u64, bytes: u64 },
    /// The site has no such template.
    #[error("unknown template at {0}")]
    UnknownTemplate(u16),
    /// The body breaks this rule as that of its template.
    #[error("bad body at {0}: {1}")]
    BadBody(u16, SiteRefusal),
    /// Want of memory.
    #[error("out of memory")]
    NoMemory,
}

impl From<NoMemory> for CommitRefusal {
    ghost use Rattle.std.specs.Prelude.{◌≡◌};
    ghost use Rattle.dup_records.specs.declared.refusal.CommitRefusal.TheVariants.{NoMemory as Wanting};

    ghost from_gives = { λ _ e. e ≡ Wanting };

    fn from(_: NoMemory) -> CommitRefusal {
        CommitRefusal::NoMemory
    }
}
