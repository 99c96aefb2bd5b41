// Rows of commits and settles.
use crate::presses::Call::{Commit, Page, Record, Settle, Status};
use crate::presses::{Row, plays};
use crate::sites::{CHAIN_SITE, HALVES_SITE, MEDALS_SITE};
use dup_records::Limits;
use dup_samples::{EVENTS_SITE, RESULTS_SITE};
use std::test::Fail;

const RESULTS: Row = &[
    (
        Commit(
            "+event e1 title=100m; +result r1 event=e1 place=2 who=Ann; +result r2 event=e1 place=10 who=Bob; +result r3 event=e1 place=9 who=Cy",
        ),
        "committed 1",
    ),
    (
        Settle,
        "settled 1 edition 1 bundles 1 expanded 4 joined 4 kept 0",
    ),
    (
        Page("/event/e1"),
        "1 <h1>100m</h1><li>2:Ann</li><li>9:Cy</li><li>10:Bob</li>",
    ),
    (Commit("+result r1 who=Ana"), "committed 2"),
    (
        Settle,
        "settled 2 edition 2 bundles 1 expanded 1 joined 2 kept 2",
    ),
    (Commit("+result r1 who=Ana"), "committed 3"),
    (
        Settle,
        "settled 3 edition 2 bundles 0 expanded 0 joined 0 kept 4",
    ),
    (
        Page("/event/e1"),
        "2 <h1>100m</h1><li>2:Ana</li><li>9:Cy</li><li>10:Bob</li>",
    ),
];

const LINKED_COMES: Row = &[
    (Commit("+event e1 next=e2 title=A"), "committed 1"),
    (
        Settle,
        "settled 1 edition 1 bundles 1 expanded 1 joined 1 kept 0",
    ),
    (Page("/event/e1"), "1 Anext"),
    (Commit("+event e2 title=B"), "committed 2"),
    (
        Settle,
        "settled 2 edition 3 bundles 2 expanded 2 joined 2 kept 0",
    ),
    (Record(2), "version 2 put /event/e2 drop -"),
    (Record(3), "version 2 put /event/e1 drop -"),
    (Page("/event/e1"), "2 A<a href=\"/event/e2\">next</a>"),
];

const LINKED_VANISHES: Row = &[
    (
        Commit("+event e1 title=A; +event e2 next=e1 title=B"),
        "committed 1",
    ),
    (
        Settle,
        "settled 1 edition 2 bundles 2 expanded 2 joined 2 kept 0",
    ),
    (Record(1), "version 1 put /event/e1 drop -"),
    (Record(2), "version 1 put /event/e2 drop -"),
    (Commit("-event e1"), "committed 2"),
    (
        Settle,
        "settled 2 edition 4 bundles 2 expanded 1 joined 1 kept 0",
    ),
    (Record(3), "version 2 put /event/e2 drop -"),
    (Record(4), "version 2 put - drop /event/e1"),
    (Page("/event/e1"), "-"),
    (Page("/event/e2"), "2 Bnext"),
];

const PART_IS_SHARED: Row = &[
    (Commit("+athlete a1 gold=1 name=Ann"), "committed 1"),
    (
        Settle,
        "settled 1 edition 2 bundles 2 expanded 3 joined 3 kept 0",
    ),
    (Record(1), "version 1 put / drop -"),
    (Record(2), "version 1 put /athlete/a1 drop -"),
    (Commit("+athlete a1 gold=2 name=Anna"), "committed 2"),
    (
        Settle,
        "settled 2 edition 3 bundles 1 expanded 2 joined 3 kept 0",
    ),
    (Record(3), "version 2 put /,/athlete/a1 drop -"),
    (Commit("+athlete a1 name=Ann"), "committed 3"),
    (
        Settle,
        "settled 3 edition 4 bundles 1 expanded 1 joined 1 kept 2",
    ),
    (Record(4), "version 3 put /athlete/a1 drop -"),
    (Page("/"), "2 [2]"),
    (Page("/athlete/a1"), "3 Ann[2]"),
];

const BYTES_STAY: Row = &[
    (Commit("+pair p1 a=x b=yz"), "committed 1"),
    (
        Settle,
        "settled 1 edition 1 bundles 1 expanded 3 joined 3 kept 0",
    ),
    (Page("/pair/p1"), "1 xyz"),
    (Commit("+pair p1 a=xy b=z"), "committed 2"),
    (
        Settle,
        "settled 2 edition 2 bundles 1 expanded 2 joined 3 kept 0",
    ),
    (Page("/pair/p1"), "2 xyz"),
];

const EACH_NEEDS_THE_OTHER: Row = &[
    (
        Commit("+event e1 next=e2 title=A; +event e2 next=e1 title=B"),
        "committed 1",
    ),
    (
        Settle,
        "settled 1 edition 1 bundles 1 expanded 2 joined 2 kept 0",
    ),
    (Record(1), "version 1 put /event/e1,/event/e2 drop -"),
];

const NOTHING_IS_THERE: Row = &[
    (Status, "version 0 work - target - edition 0 pending yes"),
    (
        Settle,
        "settled 0 edition 0 bundles 0 expanded 0 joined 0 kept 0",
    ),
    (Status, "version 0 work - target 0 edition 0 pending no"),
];

const NO_PAGES: Row = &[
    (Commit("+event e1 title=A"), "committed 1"),
    (Status, "version 1 work - target - edition 0 pending yes"),
    (
        Settle,
        "settled 1 edition 0 bundles 0 expanded 0 joined 0 kept 0",
    ),
    (Status, "version 1 work - target 1 edition 0 pending no"),
    (Page("/"), "-"),
];

const BODY_BETWEEN: Row = &[
    (Commit("+event e1 title=A"), "committed 1"),
    (
        Settle,
        "settled 1 edition 1 bundles 1 expanded 1 joined 1 kept 0",
    ),
    (
        Commit("~event_page = <b>|field title|= </b>"),
        "committed 2",
    ),
    (
        Settle,
        "settled 2 edition 2 bundles 1 expanded 1 joined 1 kept 0",
    ),
    (Page("/event/e1"), "2 <b>A</b>"),
    (
        Commit("~event_page = <b>|field title|= </b>"),
        "committed 3",
    ),
    (
        Settle,
        "settled 3 edition 2 bundles 0 expanded 0 joined 0 kept 1",
    ),
];

const SHARED_BODY_BETWEEN: Row = &[
    (Commit("+athlete a1 gold=1 name=Ann"), "committed 1"),
    (
        Settle,
        "settled 1 edition 2 bundles 2 expanded 3 joined 3 kept 0",
    ),
    (
        Commit("~medals = (|each athlete|field gold|end|= )"),
        "committed 2",
    ),
    (
        Settle,
        "settled 2 edition 3 bundles 1 expanded 1 joined 3 kept 0",
    ),
    (Record(3), "version 2 put /,/athlete/a1 drop -"),
    (Page("/athlete/a1"), "2 Ann(1)"),
];

#[test]
fn settles_publish_what_commits_change(rt: HostRuntime) -> Result<(), Fail> {
    let rows: [(&str, &[u8], Row); 10] = [
        ("results in their places", RESULTS_SITE, RESULTS),
        ("a linked page comes", CHAIN_SITE, LINKED_COMES),
        ("a linked page vanishes", CHAIN_SITE, LINKED_VANISHES),
        ("a part is shared", MEDALS_SITE, PART_IS_SHARED),
        ("the bytes of a page stay", HALVES_SITE, BYTES_STAY),
        ("each needs the other", CHAIN_SITE, EACH_NEEDS_THE_OTHER),
        ("an empty site", b"", NOTHING_IS_THERE),
        ("no pages", b"kind event title\n", NO_PAGES),
        ("a body between two settles", EVENTS_SITE, BODY_BETWEEN),
        ("a shared body", MEDALS_SITE, SHARED_BODY_BETWEEN),
    ];
    for (name, site, row) in rows {
        plays(&rt, name, site, Limits::default(), row)?;
    }
    Ok(())
}

const FULL: Row = &[
    (Commit("+event e1 title=A"), "committed 1"),
    (Commit("+event e2 title=A"), "kind full at 1"),
    (Commit("+event e1 title=B"), "committed 2"),
    (
        Commit("+event e1 title=C"),
        "journal full: 2 commits, 26 bytes",
    ),
    (Commit("-event e9"), "journal full: 2 commits, 26 bytes"),
    (Status, "version 2 work - target - edition 0 pending yes"),
];

#[test]
fn a_press_takes_what_its_limits_have_room_for(rt: HostRuntime) -> Result<(), Fail> {
    let limits = Limits {
        rows: 1,
        commits: 2,
        bytes: 1000,
    };
    plays(&rt, "room for two", EVENTS_SITE, limits, FULL)
}
