// Openings with few places and with many.
ghost use Rattle.std.specs.Prelude.{◌≡◌, ◌≤◌};

use crate::shared::events_site;
use dup_live::{FewPlaces, LiveRefusal, Naming, Opened, Places, RealPlaces, open_live};
use dup_template::Site;
use std::alloc::Global;
use std::marker::Brand;
use std::sync::{Arc, Wait};
use std::test::Fail;

// How many windows an opening gives, or why it is refused.
fn open<J: Naming, R: Wait + Drop + Copy, P: Places>(
    rt: &R,
    alloc: Global,
    opened: Opened,
    site: Arc<Site, Global>,
    windows: u16,
    places: &mut P,
) -> Result<usize, LiveRefusal>
    requires windows { (1 ≤ windows) × (windows ≤ 17) }
    requires book { opened ≡ J.book }
    requires site { site.value ≡ J.site }
{
    let (_outlet, all) = open_live::<J, R, P>(alloc, *rt, opened, site, windows, places)?;
    Ok(all.len())
}

#[test]
fn two_windows_open(rt: HostRuntime) -> Result<(), Fail> {
    let site = events_site(rt.alloc())?;
    let mut places = RealPlaces::new();
    let made = open::<Brand, _, RealPlaces>(&rt, rt.alloc(), Opened::new(), site, 2, &mut places);
    assert_eq!(&rt; made, Ok(2));
    Ok(())
}

#[test]
fn seventeen_windows_open(rt: HostRuntime) -> Result<(), Fail> {
    let site = events_site(rt.alloc())?;
    let mut places = RealPlaces::new();
    let made = open::<Brand, _, RealPlaces>(&rt, rt.alloc(), Opened::new(), site, 17, &mut places);
    assert_eq!(&rt; made, Ok(17));
    Ok(())
}

#[test]
fn a_place_that_fails_refuses_the_opening(rt: HostRuntime) -> Result<(), Fail> {
    let site = events_site(rt.alloc())?;
    let mut fails = Vec::new(rt.alloc());
    fails.push(1)?;
    let mut places = FewPlaces::new(fails);
    let made = open::<Brand, _, FewPlaces>(&rt, rt.alloc(), Opened::new(), site, 2, &mut places);
    assert_eq!(&rt; made, Err(LiveRefusal::NoPlace));
    Ok(())
}
