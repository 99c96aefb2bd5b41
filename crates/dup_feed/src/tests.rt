use crate::{FeedRefusal, commit_text, read_commit};
use std::alloc::{AllocError, Global};

#[test]
fn messages_are_told_apart(rt: HostRuntime) {
    let alloc = rt.alloc();
    let rows: [(&str, FeedRefusal); 17] = [
        ("", FeedRefusal::NotJson),
        ("\t", FeedRefusal::NotJson),
        ("{\"changes\":[]", FeedRefusal::NotJson),
        ("[]", FeedRefusal::Shape(0)),
        ("{}", FeedRefusal::Shape(0)),
        ("{\"changes\":[]}", FeedRefusal::Shape(0)),
        ("{\"changes\":{}}", FeedRefusal::Shape(0)),
        ("{\"changes\":[1],\"more\":1}", FeedRefusal::Shape(0)),
        ("{\"changes\":[1]}", FeedRefusal::Shape(1)),
        ("{\"changes\":[{\"remove\":\"k\"}]}", FeedRefusal::Shape(1)),
        (
            "{\"changes\":[{\"remove\":\"k\",\"key\":\"a b\"}]}",
            FeedRefusal::Shape(1),
        ),
        (
            "{\"changes\":[{\"remove\":\"K\",\"key\":\"a\"}]}",
            FeedRefusal::Shape(1),
        ),
        (
            "{\"changes\":[{\"remove\":\"k\",\"key\":\"a\",\"x\":1}]}",
            FeedRefusal::Shape(1),
        ),
        (
            "{\"changes\":[{\"remove\":\"k\",\"key\":\"a\"},{\"put\":\"k\",\"key\":\"a\"}]}",
            FeedRefusal::Shape(2),
        ),
        (
            "{\"changes\":[{\"put\":\"k\",\"key\":\"a\",\"fields\":{\"F\":\"\"}}]}",
            FeedRefusal::Shape(1),
        ),
        (
            "{\"changes\":[{\"put\":\"k\",\"key\":\"a\",\"fields\":{\"f\":1}}]}",
            FeedRefusal::Shape(1),
        ),
        (
            "{\"changes\":[{\"put\":\"k\",\"key\":\"a\",\"fields\":[]}]}",
            FeedRefusal::Shape(1),
        ),
    ];
    for (text, refusal) in rows {
        let read = read_commit(alloc, text.as_bytes()).err();
        assert!(rt; read == Some(refusal), "{text}");
    }
    let bytes = read_commit(alloc, b"\xff").err();
    assert!(rt; bytes == Some(FeedRefusal::NotJson));
}

#[test]
fn members_stand_in_any_order(rt: HostRuntime) {
    let alloc = rt.alloc();
    let text =
        "{\"changes\":[{\"key\":\"e1\",\"fields\":{\"title\":\"100m\",\"place\":\"\"},\"put\":\"event\"},{\"key\":\"e1\",\"remove\":\"event\"}]}";
    let commit = read_commit(alloc, text.as_bytes())
        .ok()
        .expect(&rt, "a commit");
    assert_eq!(rt; commit.changes().len(), 2);
}

fn many(alloc: Global, count: usize) -> Result<Vec<u8>, AllocError> {
    let mut text = Vec::new(alloc);
    text.extend_from_slice(b"{\"changes\":[")?;
    for _ in 0..count {
        text.extend_from_slice(b"{\"remove\":\"k\",\"key\":\"a\"},")?;
    }
    text.extend_from_slice(b"{\"remove\":\"k\",\"key\":\"a\"}]}")?;
    Ok(text)
}

#[test]
fn changes_are_counted(rt: HostRuntime) {
    let alloc = rt.alloc();
    let most = many(alloc, 255).ok().expect(&rt, "memory");
    assert!(rt; read_commit(alloc, most.as_slice()).is_ok());
    let over = many(alloc, 256).ok().expect(&rt, "memory");
    let refusal = read_commit(alloc, over.as_slice()).err();
    assert!(rt; refusal == Some(FeedRefusal::TooMany(257)));
}

#[test]
fn commits_are_written(rt: HostRuntime) {
    let alloc = rt.alloc();
    let rows: [(&str, &str); 4] = [
        (
            "{\"changes\":[{\"put\":\"event\",\"key\":\"e1\",\"fields\":{\"title\":\"100m\"}}]}",
            "{\"changes\":[{\"fields\":{\"title\":\"100m\"},\"key\":\"e1\",\"put\":\"event\"}]}",
        ),
        (
            "{\"changes\":[{\"put\":\"event\",\"key\":\"e-1\",\"fields\":{}},{\"remove\":\"event\",\"key\":\"e1\"}]}",
            "{\"changes\":[{\"fields\":{},\"key\":\"e-1\",\"put\":\"event\"},{\"key\":\"e1\",\"remove\":\"event\"}]}",
        ),
        (
            "{\"changes\":[{\"template\":\"t\",\"body\":[\"# none\",\"if  a\",\"= \\u0022 b\",\"end\"]}]}",
            "{\"changes\":[{\"body\":[\"if a\",\"= \\\" b\",\"end\"],\"template\":\"t\"}]}",
        ),
        (
            "{\"changes\":[{\"put\":\"k\",\"key\":\"a\",\"fields\":{\"b\":\"\\u00e9\\u0001\",\"a\":\"/\\n\"}}]}",
            "{\"changes\":[{\"fields\":{\"a\":\"/\\n\",\"b\":\"é\\u0001\"},\"key\":\"a\",\"put\":\"k\"}]}",
        ),
    ];
    for (read, written) in rows {
        let commit = read_commit(alloc, read.as_bytes())
            .ok()
            .expect(&rt, "a commit");
        let text = commit_text(alloc, &commit).ok().expect(&rt, "memory");
        assert!(rt; text.as_slice() == written.as_bytes(), "{written}");
    }
}
