// Commits as rows write them: `+KIND KEY FIELD=TEXT ..` is a put, `-KIND KEY` a removal, and
// `~TEMPLATE LINE|LINE ..` another body, with `; ` between changes.
use dup_names::{Key, Name, Path, Text};
use dup_records::{Change, Commit};
use dup_site::read_body;
use std::alloc::Global;
use std::test::Fail;

fn name_of(text: &str) -> Result<Name, Fail> {
    let name = Name::read(text.as_bytes()).ok_or("a name")?;
    Ok(name)
}

fn key_of(text: &str) -> Result<Key, Fail> {
    let key = Key::read(text.as_bytes()).ok_or("a key")?;
    Ok(key)
}

fn text_of(alloc: Global, text: &str) -> Result<Text, Fail> {
    let text = Text::read(alloc, text.as_bytes())?.ok_or("a text")?;
    Ok(text)
}

/// The path of a text.
pub(crate) fn path_of(text: &str) -> Result<Path, Fail> {
    let path = Path::read(text.as_bytes()).ok_or("a path")?;
    Ok(path)
}

fn put_of(alloc: Global, words: &str) -> Result<Change, Fail> {
    let (kind, rest) = words.split_once(" ").ok_or("a kind")?;
    let (key, fields) = rest.split_once(" ").unwrap_or((rest, ""));
    let mut set = Vec::new(alloc);
    for field in fields.split_whitespace() {
        let (field, text) = field.split_once("=").ok_or("a field")?;
        set.push((name_of(field)?, text_of(alloc, text)?))?;
    }
    let change = Change::put(name_of(kind)?, key_of(key)?, set).ok_or("a put")?;
    Ok(change)
}

fn removal_of(words: &str) -> Result<Change, Fail> {
    let (kind, key) = words.split_once(" ").ok_or("a kind")?;
    Ok(Change::remove(name_of(kind)?, key_of(key)?))
}

fn body_of(alloc: Global, words: &str) -> Result<Change, Fail> {
    let (template, said) = words.split_once(" ").ok_or("a template")?;
    let mut lines = Vec::new(alloc);
    for line in said.split("|") {
        lines.push(text_of(alloc, line)?)?;
    }
    let body = read_body(alloc, &lines)?.ok_or("a body")?;
    let change = Change::body(name_of(template)?, body).ok_or("short lines")?;
    Ok(change)
}

fn change_of(alloc: Global, change: &str) -> Result<Change, Fail> {
    if let Some(words) = change.strip_prefix("+") {
        return put_of(alloc, words);
    }
    if let Some(words) = change.strip_prefix("-") {
        return removal_of(words);
    }
    let words = change.strip_prefix("~").ok_or("a change")?;
    body_of(alloc, words)
}

/// The commit that a row writes so.
pub(crate) fn commit_of(alloc: Global, row: &str) -> Result<Commit, Fail> {
    let mut changes = Vec::new(alloc);
    for change in row.split("; ") {
        changes.push(change_of(alloc, change)?)?;
    }
    let commit = Commit::of(changes).ok_or("a commit")?;
    Ok(commit)
}
