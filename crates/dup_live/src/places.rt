// Places for windows, and the opening.
ghost use Rattle.std.specs.Prelude.{◌≡◌, ◌≤◌, ◌<◌, ◌^◌, ◌++◌, ◌∷◌, [], ℕ, All, IfErr, IfOk, OnOk, vec_len};
ghost use Rattle.dup_io.specs.Causes.{HasCause};
ghost use Rattle.dup_live.specs.Refusals.{HasPlaces};
ghost use Rattle.dup_live.specs.Windows.{new_pane};

use crate::book::{Naming, Opened};
use crate::outlet::LiveOutlet;
use crate::window::LiveWindow;
use dup_names::NoMemory;
use dup_template::Site;
use std::alloc::Global;
use std::marker::Model;
use std::sync::{Arc, Wait};

/// No place for one more window.
#[derive(Debug, Clone, Copy, Drop, PartialEq, Eq)]
pub struct Failed;

/// Gives windows, and counts its faults.
pub trait Places: Drop {
    /// How many faults came, up to 2^64 - 1.
    ghost faults: { Self → ℕ };

    /// One more window of the published log of the first one, which shows edition 0. Failed comes only where
    /// the faults rose.
    fn another<J: Naming>(&mut self, first: &LiveWindow<J>) -> Result<LiveWindow<J>, Failed>
        requires { first.now.log ≡ [] }
        ensures new { IfOk result (λ made. made ≡ new_pane first.now.eye.told) }
        ensures cause { HasCause (faults self.old) (faults self.new) result };
}

/// Gives a window wherever there is room for one. Contracts see it as its count of faults.
#[derive(Drop)]
pub struct RealPlaces {
    faults: u64,
}

impl Model for RealPlaces {
    ghost use Rattle.std.specs.Prelude.{ℕ};

    ghost Value = { ℕ };

    ghost view = { λ p. p.faults };
}

impl RealPlaces {
    /// No fault came yet.
    pub fn new() -> RealPlaces
        ensures { result ≡ 0 }
    {
        RealPlaces { faults: 0 }
    }
}

impl Places for RealPlaces {
    ghost faults = { λ p. p };

    fn another<J: Naming>(&mut self, first: &LiveWindow<J>) -> Result<LiveWindow<J>, Failed> {
        match first.another() {
            Ok(window) => Ok(window),
            Err(_) => {
                self.faults = self.faults.saturating_add(1);
                Err(Failed)
            }
        }
    }
}

/// Fails the calls whose numbers, counted from 1, it was given, and else does what `RealPlaces` does.
/// Contracts see it as its count of faults.
#[derive(Drop)]
pub struct FewPlaces {
    fails: Vec<u64>,
    calls: u64,
    faults: u64,
}

impl Model for FewPlaces {
    ghost use Rattle.std.specs.Prelude.{ℕ};

    ghost Value = { ℕ };

    ghost view = { λ p. p.faults };
}

impl FewPlaces {
    /// Fails these calls. No fault came yet.
    pub fn new(fails: Vec<u64>) -> FewPlaces
        ensures { result ≡ 0 }
    {
        FewPlaces {
            fails,
            calls: 0,
            faults: 0,
        }
    }
}

impl Places for FewPlaces {
    ghost faults = { λ p. p };

    fn another<J: Naming>(&mut self, first: &LiveWindow<J>) -> Result<LiveWindow<J>, Failed> {
        self.calls = self.calls.saturating_add(1);
        let fails = self.fails.contains(&self.calls);
        match first.another() {
            Ok(window) if !fails => Ok(window),
            _ => {
                self.faults = self.faults.saturating_add(1);
                Err(Failed)
            }
        }
    }
}

/// Why an opening is refused.
#[derive(Debug, Clone, Copy, Drop, PartialEq, Eq)]
pub enum LiveRefusal {
    NoMemory,
    NoPlace,
}

fn add<J: Naming>(
    windows: &mut Vec<LiveWindow<J>>,
    window: LiveWindow<J>,
) -> Result<(), LiveRefusal>
    ensures ok { OnOk result (windows.new.items ≡ windows.old.items ++ window ∷ []) }
    ensures err { IfErr result (λ why. why ≡ LiveRefusal.NoMemory) }
{
    match windows.push(window) {
        Ok(()) => Ok(()),
        Err(_) => Err(LiveRefusal::NoMemory),
    }
}

// An outlet with its first window.
fn open_first<J: Naming, R: Wait + Drop>(
    alloc: Global,
    rt: R,
    opened: Opened,
    site: Arc<Site, Global>,
    windows: usize,
) -> Result<(LiveOutlet<J, R>, LiveWindow<J>), NoMemory>
    requires windows { (0 < windows) × (windows < 2 ^ 32) }
    requires book { opened ≡ J.book }
    requires site { site.value ≡ J.site }
    ensures outlet { IfOk result (λ made. made.0 ≡ record { site = site.value; log = [] }) }
    ensures first { IfOk result (λ made. made.1 ≡ new_pane []) }
{
    let outlet = LiveOutlet::open(alloc, rt, opened, site, windows)?;
    let first = outlet.window()?;
    Ok((outlet, first))
}

// So many windows like the first one, which is the last of them.
#[tactic(auto, using(crate::proofs::Panes::one_more))]
fn all_windows<J: Naming, P: Places>(
    alloc: Global,
    first: LiveWindow<J>,
    windows: u16,
    places: &mut P,
) -> Result<Vec<LiveWindow<J>>, LiveRefusal>
    requires count { 0 < windows }
    requires first { first ≡ new_pane [] }
    ensures count { IfOk result (λ all. vec_len all ≡ windows) }
    ensures new { IfOk result (λ all. All (λ w. w ≡ new_pane []) all.items) }
    ensures cause { HasPlaces (P.faults places.old) (P.faults places.new) result }
{
    let mut all = Vec::new(alloc);
    for _i in 1..windows {
        match places.another(&first) {
            Ok(window) => add(&mut all, window)?,
            Err(_) => return Err(LiveRefusal::NoPlace),
        }
    }
    add(&mut all, first)?;
    Ok(all)
}

/// Opens an outlet at edition 0 of the site, and so many windows, 1 to 17, that read its published log. No
/// place comes only where the faults of `places` rose in this call.
pub fn open_live<J: Naming, R: Wait + Drop, P: Places>(
    alloc: Global,
    rt: R,
    opened: Opened,
    site: Arc<Site, Global>,
    windows: u16,
    places: &mut P,
) -> Result<(LiveOutlet<J, R>, Vec<LiveWindow<J>>), LiveRefusal>
    requires windows { (1 ≤ windows) × (windows ≤ 17) }
    requires book { opened ≡ J.book }
    requires site { site.value ≡ J.site }
    ensures outlet { IfOk result (λ made. made.0 ≡ record { site = site.value; log = [] }) }
    ensures count { IfOk result (λ made. vec_len made.1 ≡ windows) }
    ensures new { IfOk result (λ made. All (λ w. w ≡ new_pane []) made.1.items) }
    ensures cause { HasPlaces (P.faults places.old) (P.faults places.new) result }
{
    let Ok((outlet, first)) = open_first(alloc, rt, opened, site, windows as usize) else {
        return Err(LiveRefusal::NoMemory);
    };
    let all = all_windows(alloc, first, windows, places)?;
    Ok((outlet, all))
}
