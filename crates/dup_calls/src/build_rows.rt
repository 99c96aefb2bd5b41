// Rows of works, one after the other and moved.
use crate::builds::Call::{Again, Begin, Expand, Finish, Hand, Join, Look, Put};
use crate::builds::{Row, begin, next_expanded, plays, put, works_of};
use crate::sites::{LISTED_SITE, MEDALS_SITE};
use dup_build::Build;
use dup_render::Expanded;
use dup_samples::{EVENTS_SITE, RESULTS_SITE};
use std::alloc::Global;
use std::sync::Arc;
use std::test::Fail;

const RESULTS: Row = &[
    (
        Begin(
            "+event e1 title=100m; +result r1 event=e1 place=2 who=Ann; +result r2 event=e1 place=10 who=Bob; +result r3 event=e1 place=9 who=Cy",
        ),
        "work 1 waiting 1",
    ),
    (Hand, "handed event_page:e1"),
    (Put, "kept event_page:e1 waiting 3"),
    (Expand, "expanded 3"),
    (Join, "joined 3"),
    (Join, "joined 1"),
    (Join, "done"),
    (
        Finish,
        "target 1 expanded 4 joined 4 kept 0 touched /event/e1",
    ),
    (
        Look("/event/e1"),
        "<h1>100m</h1><li>2:Ann</li><li>9:Cy</li><li>10:Bob</li>",
    ),
    (Begin("+result r1 who=Ana"), "work 2 waiting 1"),
    (Hand, "handed line:r1"),
    (Put, "kept line:r1 waiting 0"),
    (Hand, "none"),
    (Join, "joined 1"),
    (Join, "joined 1"),
    (Join, "done"),
    (
        Finish,
        "target 2 expanded 1 joined 2 kept 2 touched /event/e1",
    ),
    (
        Look("/event/e1"),
        "<h1>100m</h1><li>2:Ana</li><li>9:Cy</li><li>10:Bob</li>",
    ),
    (Begin("+result r1 who=Ana"), "work 3 waiting 0"),
    (Join, "done"),
    (Finish, "target 3 expanded 0 joined 0 kept 4 touched -"),
];

const STALE: Row = &[
    (Begin("+event e1 title=A"), "work 1 waiting 1"),
    (Hand, "handed event_page:e1"),
    (Begin("+event e1 title=B"), "work 2 waiting 1"),
    (Put, "stale field event:e1.title had \"A\" now \"B\""),
    (Hand, "handed event_page:e1"),
    (Put, "kept event_page:e1 waiting 0"),
];

const MOVED: Row = &[
    (Begin("+event e1 title=A"), "work 1 waiting 1"),
    (Hand, "handed event_page:e1"),
    (Begin("+event e2 title=B"), "work 2 waiting 2"),
    (Put, "kept event_page:e1 waiting 1"),
    (Hand, "handed event_page:e2"),
    (Put, "kept event_page:e2 waiting 0"),
    (Join, "joined 2"),
    (Begin("+event e2 title=C"), "work 3 waiting 1"),
    (Expand, "expanded 1"),
    (Join, "joined 1"),
    (
        Finish,
        "target 3 expanded 3 joined 3 kept 0 touched /event/e1,/event/e2",
    ),
    (Look("/event/e2"), "<h1>C</h1>"),
];

const EACH_CALL: Row = &[
    (Join, "idle"),
    (Finish, "idle"),
    (Hand, "none"),
    (Begin("+event e1 title=A"), "work 1 waiting 1"),
    (Finish, "waiting 1"),
    (Join, "waiting 1"),
    (Hand, "handed event_page:e1"),
    (Hand, "handed event_page:e1"),
    (Put, "kept event_page:e1 waiting 0"),
    (Put, "unasked event_page:e1"),
    (Hand, "none"),
    (Finish, "unjoined 1"),
    (Join, "joined 1"),
    (Join, "done"),
    (Again, "same 1"),
    (
        Finish,
        "target 1 expanded 1 joined 1 kept 0 touched /event/e1",
    ),
    (Finish, "idle"),
    (Again, "nothing 1"),
];

// The page of an event is embedded by another page.
const LISTED: Row = &[
    (Begin("+event e1 title=A"), "work 1 waiting 2"),
    (Expand, "expanded 2"),
    (Join, "joined 1"),
    (Join, "joined 1"),
    (
        Finish,
        "target 1 expanded 2 joined 2 kept 0 touched /event/e1,/list",
    ),
    (Begin("+event e1 title=B"), "work 2 waiting 1"),
    (Hand, "handed line:e1"),
    (Put, "kept line:e1 waiting 0"),
    (Join, "joined 1"),
    (Join, "joined 1"),
    (
        Finish,
        "target 2 expanded 1 joined 2 kept 0 touched /event/e1,/list",
    ),
    (Look("/event/e1"), "<li>B"),
    (Look("/list"), "<li>B"),
    (Begin("-event e1"), "work 3 waiting 1"),
    (Hand, "handed list"),
    (Put, "kept list waiting 0"),
    (Join, "joined 1"),
    (
        Finish,
        "target 3 expanded 1 joined 1 kept 0 touched /event/e1,/list",
    ),
    (Look("/event/e1"), "-"),
    (Look("/list"), ""),
];

const LEAVES_AND_COMES_BACK: Row = &[
    (Begin("+event e1 title=A"), "work 1 waiting 1"),
    (Expand, "expanded 1"),
    (Join, "joined 1"),
    (
        Finish,
        "target 1 expanded 1 joined 1 kept 0 touched /event/e1",
    ),
    (Begin("-event e1"), "work 2 waiting 0"),
    (Begin("+event e1 title=A"), "work 3 waiting 1"),
    (Expand, "expanded 1"),
    (Join, "joined 1"),
    (
        Finish,
        "target 3 expanded 1 joined 1 kept 0 touched /event/e1",
    ),
];

const LEAVES_ONCE_DONE: Row = &[
    (
        Begin("+event e1 title=A; +event e2 title=B"),
        "work 1 waiting 2",
    ),
    (Hand, "handed event_page:e1"),
    (Put, "kept event_page:e1 waiting 1"),
    (Begin("-event e1"), "work 2 waiting 1"),
    (Begin("+event e1 title=A"), "work 3 waiting 2"),
    (Expand, "expanded 2"),
    (Join, "joined 2"),
    (
        Finish,
        "target 3 expanded 3 joined 2 kept 0 touched /event/e1,/event/e2",
    ),
    (Look("/event/e1"), "<h1>A</h1>"),
];

// A part that nothing embeds any more, and that is embedded again in the same work.
const PART_LEAVES_AND_COMES_BACK: Row = &[
    (Begin("+athlete a1 gold=1 name=Ann"), "work 1 waiting 2"),
    (Expand, "expanded 3"),
    (Join, "joined 1"),
    (Join, "joined 2"),
    (
        Finish,
        "target 1 expanded 3 joined 3 kept 0 touched /,/athlete/a1",
    ),
    (
        Begin("~home = none; ~athlete_page field name"),
        "work 2 waiting 2",
    ),
    (Expand, "expanded 2"),
    (
        Begin("~home embed medals; ~athlete_page field name|embed medals"),
        "work 3 waiting 2",
    ),
    (Expand, "expanded 2"),
    (Join, "joined 2"),
    (
        Finish,
        "target 3 expanded 4 joined 2 kept 1 touched /,/athlete/a1",
    ),
    (Look("/athlete/a1"), "Ann[1]"),
];

#[test]
fn works_do_what_commits_affect(rt: HostRuntime) -> Result<(), Fail> {
    let rows: [(&str, &[u8], Row); 8] = [
        ("results in their places", RESULTS_SITE, RESULTS),
        ("a stale expansion", EVENTS_SITE, STALE),
        ("a moved work", EVENTS_SITE, MOVED),
        ("each call", EVENTS_SITE, EACH_CALL),
        ("embedded by another page", LISTED_SITE, LISTED),
        ("leaves and comes back", EVENTS_SITE, LEAVES_AND_COMES_BACK),
        ("leaves once done", EVENTS_SITE, LEAVES_ONCE_DONE),
        (
            "a part leaves and comes back",
            MEDALS_SITE,
            PART_LEAVES_AND_COMES_BACK,
        ),
    ];
    for (name, site, row) in rows {
        plays(&rt, name, site, row)?;
    }
    Ok(())
}

// An expansion over a site that has other kinds.
fn foreign_expanded(alloc: Global) -> Result<Arc<Expanded, Global>, Fail> {
    let mut works = works_of(alloc, EVENTS_SITE)?;
    begin(alloc, &mut works, "+event e1 title=100m")?;
    let made = next_expanded(alloc, &mut works.build)?.ok_or("an object that waits")?;
    Ok(made)
}

// What a put of it is answered.
fn foreign_text(alloc: Global, build: &mut Build) -> Result<String, Fail> {
    let made = foreign_expanded(alloc)?;
    put(alloc, build, made)
}

#[test]
fn an_expansion_of_another_site_is_refused_first(rt: HostRuntime) -> Result<(), Fail> {
    let alloc = rt.alloc();
    let mut works = works_of(alloc, RESULTS_SITE)?;
    let told = foreign_text(alloc, &mut works.build)?;
    assert_eq!(rt; told.as_str(), "foreign", "with no work open");
    Ok(())
}
