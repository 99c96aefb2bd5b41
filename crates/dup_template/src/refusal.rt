// What sites and their texts are refused for.
ghost use Rattle.std.specs.Prelude.{◌≡◌};

use dup_names::{Name, NoMemory, Path};
use thiserror::Error;

/// What a site may have too many of.
#[derive(Clone, Copy, Debug, PartialEq, Eq)]
pub enum What {
    Kinds,
    Fields,
    Templates,
    Pages,
    Statements,
    Nesting,
}

/// The first rule that parts break.
#[derive(Clone, Copy, Debug, PartialEq, Eq, Error)]
pub enum SiteRefusal {
    /// A kind, a template or a field of a kind has the name of an earlier one, or a template has two pages.
    #[error("twice {0}")]
    Twice(Name),
    /// There is no kind, field or template of this name.
    #[error("unknown {0}")]
    Unknown(Name),
    /// A template embeds itself, or one that stands behind it.
    #[error("later {0}")]
    LaterTemplate(Name),
    /// A template has a kind where it may have none, has none where it needs one, or has another.
    #[error("wrong kind {0}")]
    WrongKind(Name),
    /// A link leads to a template without a page.
    #[error("no page {0}")]
    NoPage(Name),
    /// A path or prefix meets that of an earlier page.
    #[error("path clash {0}")]
    PathClash(Path),
    /// There is more than the limit.
    #[error("too many {0:?}")]
    TooMany(What),
    /// Want of memory.
    #[error("out of memory")]
    NoMemory,
}

/// Why a text is no good site's. It stands beside the rules, so that what is written of it is said below
/// the crate that reads site texts.
#[derive(Clone, Copy, Debug, PartialEq, Eq, Error)]
pub enum SiteTextRefusal {
    /// The line of this number, from 1, may not stand where it stands.
    #[error("bad line {0}")]
    BadLine(u64),
    /// Each line may, and this is the first rule that the parts break.
    #[error("{0}")]
    Check(SiteRefusal),
    /// Want of memory.
    #[error("out of memory")]
    NoMemory,
}

impl From<NoMemory> for SiteTextRefusal {
    ghost use Rattle.dup_template.specs.declared.refusal.SiteTextRefusal.TheVariants as refusal;

    ghost from_gives = { λ _ e. e ≡ refusal.NoMemory };

    fn from(_fault: NoMemory) -> SiteTextRefusal {
        SiteTextRefusal::NoMemory
    }
}
