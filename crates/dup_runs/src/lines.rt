// The worked runs, the words of the command line, and the answers to single lines.
use crate::plays::{SITE, Setting, answers, each_answers, ends, in_pieces, joined};
use std::test::Fail;

const USAGE: &[u8] =
    b"usage: dup_top play | check | render | games N | serve PORT NODES CAPACITY MODE WORKERS\n";

#[test]
fn the_first_run_is_the_same_in_pieces_of_any_size(rt: HostRuntime) -> Result<(), Fail> {
    let script =
        b"commit {\"changes\":[{\"put\":\"event\",\"key\":\"e1\",\"fields\":{\"title\":\"100m\"}}]}
settle
node 1 4 update
get 1 0 /event/e1
";
    let output = b"site ok
committed 1
settled 1 edition 1 bundles 1 expanded 1 joined 1 kept 0
node 1
found 1 1 miss 13
<h1>100m</h1>
";
    let input = joined(rt.alloc(), &[SITE, script])?;
    for piece in [1, 7, 4096] {
        ends(&rt, in_pieces(piece), &input, 0, output)?;
    }
    Ok(())
}

#[test]
fn requests_that_find_no_page_are_answered(rt: HostRuntime) -> Result<(), Fail> {
    answers(
        &rt,
        b"commit {\"changes\":[{\"put\":\"event\",\"key\":\"e1\",\"fields\":{\"title\":\"100m\"}}]}
settle
node 1 4 update
get 1 0 /event/e1
get 1 0 /event/e2
get 2 0 /
hello
node 1 4 update
get 1 99 /event/e1
get 1 18446744073709551615 /
",
        b"committed 1
settled 1 edition 1 bundles 1 expanded 1 joined 1 kept 0
node 1
found 1 1 miss 13
<h1>100m</h1>
absent 1
no node 2
bad line 15
node 1 taken
ahead 99 1
ahead 18446744073709551615 1
",
    )
}

#[test]
fn five_characters_are_escaped(rt: HostRuntime) -> Result<(), Fail> {
    answers(
        &rt,
        b"commit {\"changes\":[{\"put\":\"event\",\"key\":\"e1\",\"fields\":{\"title\":\"&<>\\\"'\"}}]}
settle
node 1 1 update
get 1 0 /event/e1
",
        b"committed 1
settled 1 edition 1 bundles 1 expanded 1 joined 1 kept 0
node 1
found 1 1 miss 33
<h1>&amp;&lt;&gt;&quot;&#39;</h1>
",
    )
}

#[test]
fn other_words_read_nothing(rt: HostRuntime) -> Result<(), Fail> {
    let all: [&[&str]; 14] = [
        &[],
        &["games", "3"],
        &["serve", "8080", "2", "4", "update", "1"],
        &["render", "x"],
        &["check", "x"],
        &["check", "check"],
        &["check", "play"],
        &["play", "check"],
        &["play", "now"],
        &["Play"],
        &["Check"],
        &["check "],
        &["chec"],
        &[""],
    ];
    for words in all {
        let setting = Setting {
            words,
            piece: 64,
            source_fails: &[1],
            sink_fails: &[],
        };
        ends(&rt, setting, SITE, 2, USAGE)?;
    }
    Ok(())
}

#[test]
fn lines_that_say_nothing_have_no_answer(rt: HostRuntime) -> Result<(), Fail> {
    each_answers(
        &rt,
        &[b"", b"\n", b"   \n", b"\r\n", b"# settle\n", b"  #\n", b"#"],
        b"",
    )?;
    answers(
        &rt,
        b"  settle  \r\n\n# x\nnode   16  65536   invalidate",
        b"settled 0 edition 0 bundles 0 expanded 0 joined 0 kept 0\nnode 16\n",
    )
}

#[test]
fn lines_outside_the_table_are_bad(rt: HostRuntime) -> Result<(), Fail> {
    let lines: [&[u8]; 50] = [
        b"hello",
        b"Settle",
        b"settle now",
        b"settle\t",
        b"node",
        b"node 0 4 update",
        b"node 17 4 update",
        b"node 01 4 update",
        b"node 1 0 update",
        b"node 1 65537 update",
        b"node 1 4 Update",
        b"node 1 4 update now",
        b"node -1 4 update",
        b"get 1 0",
        b"get 0 0 /",
        b"get 17 0 /",
        b"get 1 00 /",
        b"get 1 18446744073709551616 /",
        b"get 1 0 event/e1",
        b"get 1 0 /event//e1",
        b"get 1 0 /event/",
        b"get 1 0 /Event",
        b"get 1 0 / now",
        b"deliver",
        b"deliver 0",
        b"deliver 17",
        b"deliver 01",
        b"deliver 1 now",
        b"evict",
        b"evict 1",
        b"evict 0 /",
        b"evict 17 /",
        b"evict 1 event/e1",
        b"evict 1 / now",
        b"status now",
        b"Status",
        b"begin 1",
        b"hand",
        b"hand 0",
        b"hand 65",
        b"hand 01",
        b"hand 1 2",
        b"put",
        b"put 0",
        b"put 65",
        b"put one",
        b"join 1",
        b"finish now",
        b"publish 1",
        b"\xff",
    ];
    each_answers(&rt, &lines, b"bad line 9\n")
}

#[test]
fn commits_without_a_message_are_bad(rt: HostRuntime) -> Result<(), Fail> {
    let lines: [&[u8]; 3] = [b"commit", b"commit   ", b"commit\t{}"];
    each_answers(&rt, &lines, b"bad line 9\n")
}

#[test]
fn commands_of_works_are_not_built(rt: HostRuntime) -> Result<(), Fail> {
    let lines: [&[u8]; 9] = [
        b"begin",
        b"hand 1",
        b"  hand   64  ",
        b"put 1",
        b"put 64",
        b"join",
        b"finish",
        b" finish ",
        b"publish",
    ];
    each_answers(&rt, &lines, b"not built 9\n")
}

#[test]
fn commits_of_any_form_are_answered(rt: HostRuntime) -> Result<(), Fail> {
    answers(
        &rt,
        b"commit {\"changes\":[{\"remove\":\"event\",\"key\":\"e1\"}]}
commit {\"changes\":[{\"put\":\"event\",\"key\":\"e1\",\"fields\":{}},{\"put\":\"event\",\"key\":\"e2\",\"fields\":{}}]}
commit {\"changes\":[{\"remove\":\"event\",\"key\":\"e1\"}]}
",
        b"refused no row at 1\ncommitted 1\ncommitted 2\n",
    )
}

#[test]
fn messages_that_say_no_commit_are_refused(rt: HostRuntime) -> Result<(), Fail> {
    let groups: [(&[&[u8]], &[u8]); 3] = [
        (
            &[b"commit [", b"commit e1", b"commit \xff"],
            b"refused not json\n",
        ),
        (
            &[
                b"commit {}",
                b"commit []",
                b"commit {\"changes\":[]}",
                b"commit {\"changes\":{}}",
                b"commit {\"changes\":[{\"put\":\"event\",\"key\":\"e1\",\"fields\":{}}],\"more\":1}",
            ],
            b"refused shape 0\n",
        ),
        (
            &[
                b"commit {\"changes\":[{\"put\":\"event\",\"key\":\"e1\",\"fields\":{},\"more\":1}]}",
                b"commit {\"changes\":[{\"put\":\"event\",\"key\":\"e1\"}]}",
                b"commit {\"changes\":[{\"put\":\"event\",\"key\":\"e1\",\"fields\":{\"title\":1}}]}",
                b"commit {\"changes\":[{\"put\":\"event\",\"key\":\"e1\",\"fields\":{\"Title\":\"x\"}}]}",
                b"commit {\"changes\":[{\"put\":\"event\",\"key\":\"E1\",\"fields\":{}}]}",
                b"commit {\"changes\":[{\"put\":\"event\",\"key\":\"\",\"fields\":{}}]}",
                b"commit {\"changes\":[{\"put\":\"2nd\",\"key\":\"e1\",\"fields\":{}}]}",
                b"commit {\"changes\":[{\"put\":\"event\",\"key\":\"e1\",\"fields\":[]}]}",
                b"commit {\"changes\":[{\"template\":\"event_page\",\"body\":[\"end\"]}]}",
            ],
            b"refused shape 1\n",
        ),
    ];
    for (lines, answer) in groups {
        each_answers(&rt, lines, answer)?;
    }
    Ok(())
}

#[test]
fn a_commit_that_does_not_fit_is_refused(rt: HostRuntime) -> Result<(), Fail> {
    answers(
        &rt,
        b"commit {\"changes\":[{\"put\":\"race\",\"key\":\"e1\",\"fields\":{\"title\":\"x\"}}]}
commit {\"changes\":[{\"put\":\"race\",\"key\":\"e1\",\"fields\":{\"name\":\"x\"}}]}
commit {\"changes\":[{\"put\":\"event\",\"key\":\"e1\",\"fields\":{\"name\":\"x\"}}]}
commit {\"changes\":[{\"put\":\"event\",\"key\":\"e1\",\"fields\":{\"title\":\"x\",\"zone\":\"x\"}}]}
settle
commit {\"changes\":[{\"fields\":{\"title\":\"x\"},\"key\":\"e1\",\"put\":\"event\"}]}
settle
",
        b"refused unknown kind at 1
refused unknown kind at 1
refused unknown field at 1
refused unknown field at 1
settled 0 edition 0 bundles 0 expanded 0 joined 0 kept 0
committed 1
settled 1 edition 1 bundles 1 expanded 1 joined 1 kept 0
",
    )
}
