// Settles of sites whose pages embed and link, and of sites without pages.
use crate::plays::{SITE, joined};
use crate::settles::row_holds;
use dup_samples::RESULTS_SITE;
use std::test::Fail;

// Events that link to the next one.
const CHAIN: &[u8] = b"kind event title next
template event_page of event
field title
link event_page via next
= next
end
end
family /event event_page
---
";

// Athletes, whose medals stand on each page.
const MEDALS: &[u8] = b"kind athlete name gold
template medals
= [
each athlete
field gold
end
= ]
end
template home
embed medals
end
template athlete_page of athlete
field name
embed medals
end
page / home
family /athlete athlete_page
---
";

// Pages of two halves.
const HALVES: &[u8] = b"kind pair a b
template left of pair
field a
end
template right of pair
field b
end
template pair_page of pair
embed left
embed right
end
family /pair pair_page
---
";

#[test]
fn a_page_lists_what_it_embeds(rt: HostRuntime) -> Result<(), Fail> {
    let site = joined(rt.alloc(), &[RESULTS_SITE, b"---\n"])?;
    row_holds(
        &rt,
        &site,
        &[
            (
                "commit {\"changes\":[{\"put\":\"event\",\"key\":\"e1\",\"fields\":{\"title\":\"100m\"}},{\"put\":\"result\",\"key\":\"r1\",\"fields\":{\"event\":\"e1\",\"place\":\"2\",\"who\":\"Ann\"}},{\"put\":\"result\",\"key\":\"r2\",\"fields\":{\"event\":\"e1\",\"place\":\"10\",\"who\":\"Bob\"}},{\"put\":\"result\",\"key\":\"r3\",\"fields\":{\"event\":\"e1\",\"place\":\"9\",\"who\":\"Cy\"}}]}",
                "committed 1",
            ),
            (
                "settle",
                "settled 1 edition 1 bundles 1 expanded 4 joined 4 kept 0",
            ),
            ("node 1 4 update", "node 1"),
            (
                "get 1 0 /event/e1",
                "found 1 1 miss 55\n<h1>100m</h1><li>2:Ann</li><li>9:Cy</li><li>10:Bob</li>",
            ),
            ("+result r1 who=Ana", "committed 2"),
            (
                "settle",
                "settled 2 edition 2 bundles 1 expanded 1 joined 2 kept 2",
            ),
            ("+result r1 who=Ana", "committed 3"),
            (
                "settle",
                "settled 3 edition 2 bundles 0 expanded 0 joined 0 kept 4",
            ),
        ],
    )
}

#[test]
fn a_linked_page_goes_out_first(rt: HostRuntime) -> Result<(), Fail> {
    row_holds(
        &rt,
        CHAIN,
        &[
            (
                "commit {\"changes\":[{\"put\":\"event\",\"key\":\"e1\",\"fields\":{\"next\":\"e2\",\"title\":\"A\"}}]}",
                "committed 1",
            ),
            (
                "settle",
                "settled 1 edition 1 bundles 1 expanded 1 joined 1 kept 0",
            ),
            ("node 1 4 update", "node 1"),
            ("get 1 0 /event/e1", "found 1 1 miss 5\nAnext"),
            ("+event e2 title=B", "committed 2"),
            (
                "settle",
                "settled 2 edition 3 bundles 2 expanded 2 joined 2 kept 0",
            ),
            (
                "get 1 2 /event/e1",
                "found 3 2 hit 29\nA<a href=\"/event/e2\">next</a>",
            ),
        ],
    )
}

#[test]
fn a_page_that_vanishes_goes_last(rt: HostRuntime) -> Result<(), Fail> {
    row_holds(
        &rt,
        CHAIN,
        &[
            (
                "commit {\"changes\":[{\"put\":\"event\",\"key\":\"e1\",\"fields\":{\"title\":\"A\"}},{\"put\":\"event\",\"key\":\"e2\",\"fields\":{\"next\":\"e1\",\"title\":\"B\"}}]}",
                "committed 1",
            ),
            (
                "settle",
                "settled 1 edition 2 bundles 2 expanded 2 joined 2 kept 0",
            ),
            (
                "commit {\"changes\":[{\"remove\":\"event\",\"key\":\"e1\"}]}",
                "committed 2",
            ),
            (
                "settle",
                "settled 2 edition 4 bundles 2 expanded 1 joined 1 kept 0",
            ),
            ("node 1 4 update", "node 1"),
            ("get 1 0 /event/e1", "absent 4"),
            ("get 1 0 /event/e2", "found 4 2 miss 5\nBnext"),
        ],
    )
}

#[test]
fn two_pages_that_need_each_other_go_out_together(rt: HostRuntime) -> Result<(), Fail> {
    row_holds(
        &rt,
        CHAIN,
        &[
            (
                "commit {\"changes\":[{\"put\":\"event\",\"key\":\"e1\",\"fields\":{\"next\":\"e2\",\"title\":\"A\"}},{\"put\":\"event\",\"key\":\"e2\",\"fields\":{\"next\":\"e1\",\"title\":\"B\"}}]}",
                "committed 1",
            ),
            (
                "settle",
                "settled 1 edition 1 bundles 1 expanded 2 joined 2 kept 0",
            ),
        ],
    )
}

#[test]
fn pages_that_show_the_same_go_out_together(rt: HostRuntime) -> Result<(), Fail> {
    row_holds(
        &rt,
        MEDALS,
        &[
            (
                "commit {\"changes\":[{\"put\":\"athlete\",\"key\":\"a1\",\"fields\":{\"gold\":\"1\",\"name\":\"Ann\"}}]}",
                "committed 1",
            ),
            (
                "settle",
                "settled 1 edition 2 bundles 2 expanded 3 joined 3 kept 0",
            ),
            (
                "commit {\"changes\":[{\"put\":\"athlete\",\"key\":\"a1\",\"fields\":{\"gold\":\"2\",\"name\":\"Anna\"}}]}",
                "committed 2",
            ),
            (
                "settle",
                "settled 2 edition 3 bundles 1 expanded 2 joined 3 kept 0",
            ),
            ("+athlete a1 name=Ann", "committed 3"),
            (
                "settle",
                "settled 3 edition 4 bundles 1 expanded 1 joined 1 kept 2",
            ),
        ],
    )
}

#[test]
fn a_page_whose_bytes_stay_goes_out_where_its_parts_change(rt: HostRuntime) -> Result<(), Fail> {
    row_holds(
        &rt,
        HALVES,
        &[
            (
                "commit {\"changes\":[{\"put\":\"pair\",\"key\":\"p1\",\"fields\":{\"a\":\"x\",\"b\":\"yz\"}}]}",
                "committed 1",
            ),
            (
                "settle",
                "settled 1 edition 1 bundles 1 expanded 3 joined 3 kept 0",
            ),
            (
                "commit {\"changes\":[{\"put\":\"pair\",\"key\":\"p1\",\"fields\":{\"a\":\"xy\",\"b\":\"z\"}}]}",
                "committed 2",
            ),
            (
                "settle",
                "settled 2 edition 2 bundles 1 expanded 2 joined 3 kept 0",
            ),
            ("node 1 1 update", "node 1"),
            ("get 1 0 /pair/p1", "found 2 2 miss 3\nxyz"),
        ],
    )
}

#[test]
fn a_site_without_pages_is_settled(rt: HostRuntime) -> Result<(), Fail> {
    row_holds(
        &rt,
        b"kind event title\n---\n",
        &[
            ("+event e1 title=A", "committed 1"),
            (
                "settle",
                "settled 1 edition 0 bundles 0 expanded 0 joined 0 kept 0",
            ),
            ("node 1 4 update", "node 1"),
            ("get 1 0 /", "absent 0"),
        ],
    )
}

#[test]
fn an_empty_site_is_settled(rt: HostRuntime) -> Result<(), Fail> {
    row_holds(
        &rt,
        b"---\n",
        &[(
            "settle",
            "settled 0 edition 0 bundles 0 expanded 0 joined 0 kept 0",
        )],
    )
}

#[test]
fn a_body_is_replaced_between_two_settles(rt: HostRuntime) -> Result<(), Fail> {
    row_holds(
        &rt,
        SITE,
        &[
            ("+event e1 title=A", "committed 1"),
            (
                "settle",
                "settled 1 edition 1 bundles 1 expanded 1 joined 1 kept 0",
            ),
            (
                "commit {\"changes\":[{\"template\":\"event_page\",\"body\":[\"= <b>\",\"field title\",\"= </b>\"]}]}",
                "committed 2",
            ),
            (
                "settle",
                "settled 2 edition 2 bundles 1 expanded 1 joined 1 kept 0",
            ),
            ("node 1 4 update", "node 1"),
            ("get 1 0 /event/e1", "found 2 2 miss 8\n<b>A</b>"),
        ],
    )
}
