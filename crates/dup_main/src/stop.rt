ghost use Rattle.std.specs.Prelude.{◌≡◌};

use dup_io::{Failed, LineFault};
use dup_names::NoMemory;
use dup_site::SiteTextRefusal;

/// Why a run ends before it has done all.
#[derive(Clone, Copy, PartialEq, Eq)]
pub(crate) enum Stop {
    ReadFault,
    WriteFault,
    BadSite(SiteTextRefusal),
    NoMemory,
    LineTooLong(u64),
    InputTooLong,
}

impl From<Failed> for Stop {
    ghost use Rattle.dup_main.specs.declared.stop.Stop.TheVariants.{WriteFault};

    ghost from_gives = { λ _ stop. stop ≡ WriteFault };

    fn from(_: Failed) -> Stop {
        Stop::WriteFault
    }
}

impl From<NoMemory> for Stop {
    ghost use Rattle.dup_main.specs.declared.stop.Stop.TheVariants as stops;

    ghost from_gives = { λ _ stop. stop ≡ stops.NoMemory };

    fn from(_: NoMemory) -> Stop {
        Stop::NoMemory
    }
}

impl From<SiteTextRefusal> for Stop {
    ghost use Rattle.dup_main.specs.LineStops.{site_stop};

    ghost from_gives = { λ why stop. stop ≡ site_stop why };

    fn from(why: SiteTextRefusal) -> Stop {
        match why {
            SiteTextRefusal::NoMemory => Stop::NoMemory,
            why => Stop::BadSite(why),
        }
    }
}

impl From<LineFault> for Stop {
    ghost use Rattle.dup_main.specs.LineStops.{stop_of};

    ghost from_gives = { λ fault stop. stop ≡ stop_of fault };

    fn from(fault: LineFault) -> Stop {
        match fault {
            LineFault::ReadFault => Stop::ReadFault,
            LineFault::LineTooLong(number) => Stop::LineTooLong(number),
            LineFault::InputTooLong => Stop::InputTooLong,
            LineFault::NoMemory => Stop::NoMemory,
        }
    }
}
