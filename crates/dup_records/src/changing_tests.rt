use crate::tests::{commit, put, remove, two_rows};
use crate::{Change, Content, Limits, apply, changed};
use dup_names::Item;
use std::alloc::Global;
use std::sync::Arc;
use std::test::Fail;

// A row's key, and the fields that are put, or none where the row is removed.
type Step<'a> = (&'a str, Option<&'a [(&'a str, &'a str)]>);

// What is tried, its changes, and the items that differ after them.
type Row<'a> = (&'a str, &'a [Step<'a>], &'a str);

// On `r1` with the texts `e1` and `Bo`, and `r2` with `e1` and `Ada`.
const ROWS: &[Row] = &[
    ("the same text", &[("r1", Some(&[("event", "e1")]))], ""),
    (
        "a text that is no key",
        &[("r1", Some(&[("who", "Cy")]))],
        "field r1 1; ",
    ),
    (
        "another group",
        &[("r1", Some(&[("event", "e2")]))],
        "field r1 0; group 0 e1; group 0 e2; ",
    ),
    (
        "there and back",
        &[
            ("r1", Some(&[("event", "e2")])),
            ("r1", Some(&[("event", "e1")])),
        ],
        "",
    ),
    (
        "a new row",
        &[("r3", Some(&[("event", "e1")]))],
        "field r3 0; row r3; list; group 0 e1; ",
    ),
    (
        "a row without texts",
        &[("r3", Some(&[]))],
        "row r3; list; ",
    ),
    (
        "a removed row",
        &[("r1", None)],
        "field r1 0; field r1 1; row r1; list; group 0 e1; ",
    ),
    ("put and removed", &[("r3", Some(&[])), ("r3", None)], ""),
    (
        "two rows that change places",
        &[
            ("r1", Some(&[("event", "e2")])),
            ("r2", None),
            ("r0", Some(&[("event", "e1")])),
        ],
        "field r0 0; field r1 0; field r2 0; field r2 1; row r0; row r2; list; group 0 e1; group 0 e2; ",
    ),
];

fn changes(alloc: Global, steps: &[Step]) -> Result<Vec<Change>, Fail> {
    let mut changes = Vec::new(alloc);
    for (key, fields) in steps {
        let change = match fields {
            Some(fields) => put(alloc, "result", key, fields)?,
            None => remove("result", key)?,
        };
        changes.push(change)?;
    }
    Ok(changes)
}

fn told(alloc: Global, item: &Item) -> Result<String, Fail> {
    let text = match item {
        Item::Field { key, field, .. } => format!(in alloc; "field {key} {field}; ")?,
        Item::Row { key, .. } => format!(in alloc; "row {key}; ")?,
        Item::List { .. } => format!(in alloc; "list; ")?,
        Item::Group { field, key, .. } => format!(in alloc; "group {field} {key}; ")?,
        Item::Template { template } => format!(in alloc; "template {template}; ")?,
    };
    Ok(text)
}

// The items that differ after one commit of these changes.
fn changed_by(alloc: Global, old: &Content, changes: Vec<Change>) -> Result<Vec<Item>, Fail> {
    let commit = commit(changes)?;
    let new = apply(alloc, old, &commit, Limits::default().rows)?;
    let mut commits = Vec::new(alloc);
    commits.push(Arc::new(alloc, commit)?)?;
    let items = changed(alloc, old, &new, &commits)?;
    Ok(items)
}

fn told_by(alloc: Global, steps: &[Step]) -> Result<String, Fail> {
    let old = two_rows(alloc)?;
    let mut text = String::new(alloc);
    for item in &changed_by(alloc, &old, changes(alloc, steps)?)? {
        text.push_str(told(alloc, item)?.as_str())?;
    }
    Ok(text)
}

#[test]
fn what_differs_is_listed(rt: HostRuntime) -> Result<(), Fail> {
    let alloc = rt.alloc();
    for (name, steps, wanted) in ROWS {
        assert_eq!(rt; told_by(alloc, steps)?.as_str(), *wanted, "at {name}");
    }
    Ok(())
}
