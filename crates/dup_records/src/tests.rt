use crate::{Change, Commit, CommitRefusal, Content, Limits, apply};
use dup_lists::Listed;
use dup_names::{Item, Key, Name, Text};
use dup_template::{KindPart, Parts, Site, Value};
use std::alloc::Global;
use std::sync::Arc;
use std::test::Fail;

fn name(text: &str) -> Result<Name, Fail> {
    let name = Name::read(text.as_bytes()).ok_or("a name")?;
    Ok(name)
}

fn key(text: &str) -> Result<Key, Fail> {
    let key = Key::read(text.as_bytes()).ok_or("a key")?;
    Ok(key)
}

// Content 0 of a site with the kind `result`, which has the fields `event` and `who`.
pub(crate) fn results(alloc: Global) -> Result<Content, Fail> {
    let fields = Listed::of(vec![in alloc; name("event")?, name("who")?]?);
    let kind = KindPart {
        name: name("result")?,
        fields,
    };
    let parts = Parts {
        kinds: Listed::of(vec![in alloc; kind]?),
        templates: Listed::of(Vec::new(alloc)),
        pages: Listed::of(Vec::new(alloc)),
    };
    let site = Site::check(parts).ok().ok_or("a good site")?;
    let site = Arc::new(alloc, site).ok().ok_or("memory")?;
    let content = Content::start(alloc, site)?;
    Ok(content)
}

pub(crate) fn put(
    alloc: Global,
    kind: &str,
    row: &str,
    fields: &[(&str, &str)],
) -> Result<Change, Fail> {
    let mut named = Vec::new(alloc);
    for (field, text) in fields {
        let text = Text::read(alloc, text.as_bytes())?.ok_or("a text")?;
        named.push((name(field)?, text))?;
    }
    let change = Change::put(name(kind)?, key(row)?, named).ok_or("a change")?;
    Ok(change)
}

pub(crate) fn remove(kind: &str, row: &str) -> Result<Change, Fail> {
    Ok(Change::remove(name(kind)?, key(row)?))
}

pub(crate) fn commit(changes: Vec<Change>) -> Result<Commit, Fail> {
    let commit = Commit::of(changes).ok_or("a commit")?;
    Ok(commit)
}

fn puts(alloc: Global) -> Result<Vec<Change>, Fail> {
    let mut changes = Vec::new(alloc);
    changes.push(put(alloc, "result", "r2", &[("event", "e1"), ("who", "Ada")])?)?;
    changes.push(put(alloc, "result", "r1", &[("event", "e1")])?)?;
    changes.push(put(alloc, "result", "r1", &[("who", "Bo")])?)?;
    Ok(changes)
}

// The content after the puts, with the rows `r1` and `r2`.
pub(crate) fn two_rows(alloc: Global) -> Result<Content, Fail> {
    let empty = results(alloc)?;
    let first = commit(puts(alloc)?)?.copy(alloc)?;
    let content = apply(alloc, &empty, &first, Limits::default().rows)?;
    let content = content.copy(alloc)?;
    Ok(content)
}

#[test]
fn rows_are_put(rt: HostRuntime) -> Result<(), Fail> {
    let alloc = rt.alloc();
    let content = two_rows(alloc)?;
    let row = key("r1")?;
    assert_eq!(rt; content.text(0, &row, 0), b"e1".as_slice());
    assert_eq!(rt; content.text(0, &row, 1), b"Bo".as_slice());
    Ok(())
}

#[test]
fn keys_are_listed(rt: HostRuntime) -> Result<(), Fail> {
    let alloc = rt.alloc();
    let content = two_rows(alloc)?;
    let event = key("e1")?;
    assert_eq!(rt; content.keys(alloc, 0)?.items().len(), 2);
    assert_eq!(rt; content.group(alloc, 0, 0, &event)?.items().len(), 2);
    Ok(())
}

fn agrees_with_itself(alloc: Global, content: &Content, item: &Item) -> Result<bool, Fail> {
    let value = content.value(alloc, item)?;
    Ok(content.agrees(item, &value) && !content.agrees(item, &Value::Exists(false)))
}

#[test]
fn a_content_agrees_with_its_values(rt: HostRuntime) -> Result<(), Fail> {
    let alloc = rt.alloc();
    let content = two_rows(alloc)?;
    let key = key("r1")?;
    for item in [
        Item::Field {
            kind: 0,
            key,
            field: 1,
        },
        Item::Row { kind: 0, key },
        Item::List { kind: 0 },
        Item::Group {
            kind: 0,
            field: 0,
            key,
        },
    ] {
        assert!(rt; agrees_with_itself(alloc, &content, &item)?, "at {item:?}");
    }
    Ok(())
}

#[test]
fn a_row_is_removed(rt: HostRuntime) -> Result<(), Fail> {
    let alloc = rt.alloc();
    let content = two_rows(alloc)?;
    let mut changes = Vec::new(alloc);
    changes.push(remove("result", "r1")?)?;
    let content = apply(alloc, &content, &commit(changes)?, 1)?;
    assert!(rt; !content.has_row(0, &key("r1")?));
    Ok(())
}

fn text_of(alloc: Global, refusal: CommitRefusal) -> Result<String, Fail> {
    let text = refusal.to_string(alloc)?;
    Ok(text)
}

// Why a put of a first row, then this change, is refused where a kind has one row at most.
fn refused(alloc: Global, second: Change) -> Result<String, Fail> {
    let content = results(alloc)?;
    let mut changes = Vec::new(alloc);
    changes.push(put(alloc, "result", "r1", &[])?)?;
    changes.push(second)?;
    let both = commit(changes)?;
    match apply(alloc, &content, &both, 1) {
        Ok(_) => Err(Fail::from("it was made")),
        Err(refusal) => text_of(alloc, refusal),
    }
}

#[test]
fn what_is_unknown_is_refused(rt: HostRuntime) -> Result<(), Fail> {
    let alloc = rt.alloc();
    let kind = put(alloc, "event", "r2", &[("why", "")])?;
    assert_eq!(rt; refused(alloc, kind)?.as_str(), "unknown kind at 2");
    let field = put(alloc, "result", "r2", &[("why", "")])?;
    assert_eq!(rt; refused(alloc, field)?.as_str(), "unknown field at 2");
    Ok(())
}

#[test]
fn rows_that_cannot_be_are_refused(rt: HostRuntime) -> Result<(), Fail> {
    let alloc = rt.alloc();
    let absent = remove("result", "r2")?;
    assert_eq!(rt; refused(alloc, absent)?.as_str(), "no row at 2");
    let one_more = put(alloc, "result", "r2", &[])?;
    assert_eq!(rt; refused(alloc, one_more)?.as_str(), "kind full at 2");
    Ok(())
}

#[test]
fn refusals_are_told(rt: HostRuntime) -> Result<(), Fail> {
    let alloc = rt.alloc();
    for (refusal, text) in [
        (CommitRefusal::UnknownKind(1), "unknown kind at 1"),
        (CommitRefusal::UnknownField(2), "unknown field at 2"),
        (CommitRefusal::NoRow(3), "no row at 3"),
        (CommitRefusal::KindFull(256), "kind full at 256"),
        (
            CommitRefusal::JournalFull {
                commits: 4,
                bytes: 5,
            },
            "journal full: 4 commits, 5 bytes",
        ),
        (CommitRefusal::NoMemory, "out of memory"),
    ] {
        assert_eq!(rt; refusal.to_string(alloc)?.as_str(), text, "at {text}");
    }
    Ok(())
}
