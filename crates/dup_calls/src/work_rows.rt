// Rows of presses whose works are done call by call.
use crate::presses::Call::{
    Begin, Commit, Expand, Finish, Hand, Join, Page, Publish, Put, Record, Settle, Status,
};
use crate::presses::{Row, plays};
use dup_records::Limits;
use dup_samples::EVENTS_SITE;
use std::test::Fail;

const STALE: Row = &[
    (Commit("+event e1 title=A"), "committed 1"),
    (Begin, "work 1 waiting 1"),
    (Hand, "handed event_page:e1"),
    (Commit("+event e1 title=B"), "committed 2"),
    (Begin, "work 2 waiting 1"),
    (Put, "stale field event:e1.title had \"A\" now \"B\""),
    (Hand, "handed event_page:e1"),
    (Put, "kept event_page:e1 waiting 0"),
];

const STILL_TRUE: Row = &[
    (Commit("+event e1 title=A"), "committed 1"),
    (Begin, "work 1 waiting 1"),
    (Hand, "handed event_page:e1"),
    (Commit("+event e2 title=B"), "committed 2"),
    (Begin, "work 2 waiting 2"),
    (Put, "kept event_page:e1 waiting 1"),
];

const EACH_CALL: Row = &[
    (Commit("+event e1 title=A"), "committed 1"),
    (Join, "idle"),
    (Begin, "work 1 waiting 1"),
    (Status, "version 1 work 1 target - edition 0 pending yes"),
    (Finish, "waiting 1"),
    (Join, "waiting 1"),
    (Hand, "handed event_page:e1"),
    (Hand, "handed event_page:e1"),
    (Put, "kept event_page:e1 waiting 0"),
    (Put, "unasked event_page:e1"),
    (Hand, "none"),
    (Finish, "unjoined 1"),
    (Join, "joined 1"),
    (Join, "done"),
    (Begin, "same 1"),
    (Finish, "target 1 expanded 1 joined 1 kept 0"),
    (Finish, "idle"),
    (Begin, "nothing 1"),
    (Status, "version 1 work - target 1 edition 0 pending yes"),
    (Publish, "edition 1 version 1 puts 1 drops 0"),
    (Publish, "nothing"),
    (Status, "version 1 work - target 1 edition 1 pending no"),
];

const CHANGED_OVER_TWO_TARGETS: Row = &[
    (
        Commit("+event e1 title=A; +event e2 title=A; +event e3 title=A"),
        "committed 1",
    ),
    (
        Settle,
        "settled 1 edition 3 bundles 3 expanded 3 joined 3 kept 0",
    ),
    (
        Commit("+event e1 title=B; +event e2 title=B"),
        "committed 2",
    ),
    (Begin, "work 2 waiting 2"),
    (Hand, "handed event_page:e1"),
    (Put, "kept event_page:e1 waiting 1"),
    (Hand, "handed event_page:e2"),
    (Put, "kept event_page:e2 waiting 0"),
    (Join, "joined 2"),
    (Finish, "target 2 expanded 2 joined 2 kept 1"),
    (Publish, "edition 4 version 2 puts 1 drops 0"),
    (Commit("+event e2 title=C"), "committed 3"),
    (Begin, "work 3 waiting 1"),
    (Hand, "handed event_page:e2"),
    (Put, "kept event_page:e2 waiting 0"),
    (Join, "joined 1"),
    (Finish, "target 3 expanded 1 joined 1 kept 2"),
    (Publish, "edition 5 version 3 puts 1 drops 0"),
    (Publish, "nothing"),
    (Page("/event/e1"), "2 <h1>B</h1>"),
    (Page("/event/e2"), "3 <h1>C</h1>"),
    (Page("/event/e3"), "1 <h1>A</h1>"),
];

const CHANGED_AND_UNTOUCHED: Row = &[
    (
        Commit("+event e1 title=A; +event e2 title=A; +event e3 title=A"),
        "committed 1",
    ),
    (
        Settle,
        "settled 1 edition 3 bundles 3 expanded 3 joined 3 kept 0",
    ),
    (
        Commit("+event e1 title=B; +event e2 title=B"),
        "committed 2",
    ),
    (Begin, "work 2 waiting 2"),
    (Expand, "expanded 2"),
    (Join, "joined 2"),
    (Finish, "target 2 expanded 2 joined 2 kept 1"),
    (Commit("+event e1 title=A; -event e3"), "committed 3"),
    (Begin, "work 3 waiting 1"),
    (Expand, "expanded 1"),
    (Join, "joined 1"),
    (Finish, "target 3 expanded 1 joined 1 kept 1"),
    (Publish, "edition 4 version 3 puts 1 drops 0"),
    (Record(4), "version 3 put /event/e2 drop -"),
    (Publish, "edition 5 version 3 puts 0 drops 1"),
    (Record(5), "version 3 put - drop /event/e3"),
    (Publish, "nothing"),
    (Page("/event/e1"), "1 <h1>A</h1>"),
    (Page("/event/e2"), "3 <h1>B</h1>"),
];

const BODY_WHILE_OPEN: Row = &[
    (Commit("+event e1 title=A"), "committed 1"),
    (Begin, "work 1 waiting 1"),
    (Hand, "handed event_page:e1"),
    (Commit("~event_page = <b>|field title"), "committed 2"),
    (Put, "kept event_page:e1 waiting 0"),
    (Join, "joined 1"),
    (Finish, "target 1 expanded 1 joined 1 kept 0"),
    (Publish, "edition 1 version 1 puts 1 drops 0"),
    (Page("/event/e1"), "1 <h1>A</h1>"),
    (
        Settle,
        "settled 2 edition 2 bundles 1 expanded 1 joined 1 kept 0",
    ),
    (Page("/event/e1"), "2 <b>A"),
];

const BODY_MOVES_THE_WORK: Row = &[
    (Commit("+event e1 title=A"), "committed 1"),
    (Begin, "work 1 waiting 1"),
    (Hand, "handed event_page:e1"),
    (
        Commit("~event_page = <b>|field title|= </b>"),
        "committed 2",
    ),
    (Begin, "work 2 waiting 1"),
    (Put, "stale template event_page had body 3 now body 3"),
    (Hand, "handed event_page:e1"),
    (Put, "kept event_page:e1 waiting 0"),
    (Commit("~event_page = <i>|field title"), "committed 3"),
    (Begin, "work 3 waiting 1"),
    (Expand, "expanded 1"),
    (Join, "joined 1"),
    (Finish, "target 3 expanded 2 joined 1 kept 0"),
    (Publish, "edition 1 version 3 puts 1 drops 0"),
    (Page("/event/e1"), "3 <i>A"),
];

const SETTLED_WHILE_OPEN: Row = &[
    (
        Commit("+event e1 title=A; +event e2 title=A"),
        "committed 1",
    ),
    (Begin, "work 1 waiting 2"),
    (Hand, "handed event_page:e1"),
    (Put, "kept event_page:e1 waiting 1"),
    (Commit("+event e2 title=B"), "committed 2"),
    (
        Settle,
        "settled 2 edition 2 bundles 2 expanded 2 joined 2 kept 0",
    ),
    (Status, "version 2 work - target 2 edition 2 pending no"),
    (Page("/event/e1"), "2 <h1>A</h1>"),
    (Page("/event/e2"), "2 <h1>B</h1>"),
];

#[test]
fn works_are_done_call_by_call(rt: HostRuntime) -> Result<(), Fail> {
    let rows = [
        ("a stale expansion", STALE),
        ("an expansion that is still true", STILL_TRUE),
        ("each call", EACH_CALL),
        ("changed over two targets", CHANGED_OVER_TWO_TARGETS),
        ("changed, and untouched again", CHANGED_AND_UNTOUCHED),
        ("a body while a work is open", BODY_WHILE_OPEN),
        ("a body that moves the work", BODY_MOVES_THE_WORK),
        ("settled while a work is open", SETTLED_WHILE_OPEN),
    ];
    for (name, row) in rows {
        plays(&rt, name, EVENTS_SITE, Limits::default(), row)?;
    }
    Ok(())
}
