// What a status tells, and lines that change nothing.
use crate::plays::SITE;
use crate::settles::row_holds;
use std::test::Fail;

#[test]
fn a_site_without_rows_is_pending_until_it_is_settled(rt: HostRuntime) -> Result<(), Fail> {
    row_holds(
        &rt,
        b"---\n",
        &[
            ("status", "version 0 work - target - edition 0 pending yes"),
            (
                "settle",
                "settled 0 edition 0 bundles 0 expanded 0 joined 0 kept 0",
            ),
            ("status", "version 0 work - target 0 edition 0 pending no"),
            (
                "  status  ",
                "version 0 work - target 0 edition 0 pending no",
            ),
        ],
    )
}

#[test]
fn refused_commits_and_bad_lines_leave_the_status(rt: HostRuntime) -> Result<(), Fail> {
    row_holds(
        &rt,
        SITE,
        &[
            (
                "commit {\"changes\":[{\"put\":\"event\",\"key\":\"e2\",\"fields\":{\"title\":\"x\"}},{\"remove\":\"event\",\"key\":\"e9\"}]}",
                "refused no row at 2",
            ),
            ("status", "version 0 work - target - edition 0 pending yes"),
            ("+race e1 title=x", "refused unknown kind at 1"),
            ("+event e1 name=x", "refused unknown field at 1"),
            ("commit {}", "refused shape 0"),
            ("commit [", "refused not json"),
            (
                "commit {\"changes\":[{\"remove\":\"event\",\"key\":\"e1\"},7]}",
                "refused shape 2",
            ),
            ("hello", "bad line 16"),
            ("begin", "not built 17"),
            ("status", "version 0 work - target - edition 0 pending yes"),
        ],
    )
}

#[test]
fn a_status_tells_what_is_settled_and_what_isnt(rt: HostRuntime) -> Result<(), Fail> {
    row_holds(
        &rt,
        SITE,
        &[
            ("+event e1 title=A", "committed 1"),
            ("status", "version 1 work - target - edition 0 pending yes"),
            (
                "settle",
                "settled 1 edition 1 bundles 1 expanded 1 joined 1 kept 0",
            ),
            ("status", "version 1 work - target 1 edition 1 pending no"),
            ("+event e2 title=B", "committed 2"),
            ("+event e3 title=C", "committed 3"),
            ("status", "version 3 work - target 1 edition 1 pending yes"),
            (
                "settle",
                "settled 3 edition 3 bundles 2 expanded 2 joined 2 kept 1",
            ),
            ("status", "version 3 work - target 3 edition 3 pending no"),
        ],
    )
}
