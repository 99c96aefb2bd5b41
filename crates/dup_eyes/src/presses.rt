// Windows beside a press.
ghost use Rattle.std.specs.Prelude.{◌≡◌};

use crate::shared::{LivePress, commit, event_path, events_site, read, settle};
use dup_cache::Window;
use dup_live::{LiveOutlet, LiveWindow, Naming, Notice, Opened};
use dup_names::Meter;
use dup_press::{Press, Published};
use dup_records::Limits;
use dup_render::expand;
use dup_template::Site;
use std::alloc::Global;
use std::marker::Brand;
use std::sync::{Arc, Wait};
use std::test::Fail;
use std::thread::Threads;

// Expands what waits first, and takes it back.
fn expand_one<J: Naming, R: Wait + Drop>(
    alloc: Global,
    press: &mut LivePress<J, R>,
) -> Result<(), Fail> {
    let job = press.hand(alloc)?.ok_or("a job")?;
    let mut meter = Meter::new();
    let made = expand(alloc, &job.content, &job.obj, &mut meter)?;
    press.put(alloc, Arc::new(alloc, made)?)?;
    Ok(())
}

// Publishes the next bundle, and gives its notice.
fn publish<J: Naming, R: Wait + Drop>(
    alloc: Global,
    press: &mut LivePress<J, R>,
) -> Result<Notice<J>, Fail> {
    match press.publish(alloc)? {
        Published::Bundle { notice, .. } => Ok(notice),
        Published::Nothing => Err("a bundle".into()),
    }
}

// Gives the first event a title, call by call, and gives the notice of the bundle.
fn send<J: Naming, R: Wait + Threads + Sync + Drop>(
    rt: &R,
    alloc: Global,
    press: &mut LivePress<J, R>,
    title: &str,
) -> Result<Notice<J>, Fail> {
    commit(alloc, press, title).ok_or("a version")?;
    press.begin(alloc)?;
    expand_one(alloc, press)?;
    press.join(rt, alloc)?;
    press.finish(alloc)?;
    publish(alloc, press)
}

// The first bundle goes out, and both windows show it. Of the second one window hears the notice.
fn show_both<J: Naming, R: Wait + Threads + Sync + Drop>(
    rt: &R,
    alloc: Global,
    press: &mut LivePress<J, R>,
    hears: &mut LiveWindow<J>,
    other: &mut LiveWindow<J>,
) -> Result<bool, Fail> {
    let path = event_path()?;
    let settled = settle(rt, alloc, press, "A");
    let first = (read(alloc, hears, &path)?, read(alloc, other, &path)?);
    let notice = send(rt, alloc, press, "B")?;
    hears.hear(notice);
    let second = (read(alloc, hears, &path)?, read(alloc, other, &path)?);
    Ok(settled == Some(1) && first == ((1, 1), (1, 1)) && second == ((2, 2), (2, 2)))
}

// A press of the site, with two windows.
fn two_windows<J: Naming, R: Wait + Threads + Sync + Drop + Copy>(
    rt: &R,
    alloc: Global,
    opened: Opened,
    site: Arc<Site, Global>,
) -> Result<bool, Fail>
    requires book { opened ≡ J.book }
    requires site { site.value ≡ J.site }
{
    let outlet = LiveOutlet::<J, R>::open(alloc, *rt, opened, Arc::try_clone(&site)?, 2)?;
    let mut hears = outlet.window()?;
    let mut other = hears.another()?;
    let mut press = Press::new(alloc, site, Limits::default(), outlet)?;
    show_both(rt, alloc, &mut press, &mut hears, &mut other)
}

#[test]
fn windows_show_what_a_press_publishes(rt: HostRuntime) -> Result<(), Fail> {
    let site = events_site(rt.alloc())?;
    let shown = two_windows::<Brand, _>(&rt, rt.alloc(), Opened::new(), site)?;
    assert!(&rt; shown, "both windows");
    Ok(())
}
