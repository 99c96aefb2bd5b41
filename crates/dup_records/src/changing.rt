// The items that commits changed.
ghost use Rattle.std.specs.Prelude.{◌≡◌, OnOk, IfOk, length, map};
ghost use Rattle.std.specs.List.{fold};
ghost use Rattle.dup_names.specs.Grammar.{is_key};
ghost use Rattle.dup_model.specs.Commits.{after};
ghost use Rattle.dup_model.specs.Names.{fields_at, template_at};
ghost use Rattle.dup_model.specs.Touched.{AreChanged};
ghost use Rattle.dup_records.specs.Moved.{AreNoted, Notes, one, group_named, moved_field, moved_fields};
ghost use Rattle.dup_records.specs.Moved.{moved_at, moved_body, moved_by, moved_by_commit, moved_row};

use crate::commit::Commit;
use crate::content::Content;
use dup_model::Edit;
use dup_names::{Item, Key, Name, NoMemory};
use std::alloc::Global;
use std::collections::BTreeSet;
use std::sync::Arc;

type Items = BTreeSet<Item>;

// The number of a kind's fields, at most 32.
fn field_count(content: &Content, kind: u16) -> u16
    ensures { result ≡ length (fields_at content.now.frame kind) }
{
    content.site().fields(kind).len() as u16
}

// Notes an item.
fn note(noted: &mut Items, item: Item) -> Result<(), NoMemory>
    ensures { OnOk result (Notes noted.old.keys noted.new.keys (one item)) }
{
    noted.insert(item)?;
    Ok(())
}

// Notes the group of a field that has this text, where the text is a key.
fn note_group(noted: &mut Items, kind: u16, field: u16, text: &[u8]) -> Result<(), NoMemory>
    ensures { OnOk result (Notes noted.old.keys noted.new.keys (group_named kind field text.now)) }
{
    match Key::read(text) {
        Some(key) => note(noted, Item::Group { kind, field, key }),
        None => Ok(()),
    }
}

// Notes a row's field where its text differs, and the groups that the row left and joined.
fn note_field(
    noted: &mut Items,
    old: &Content,
    new: &Content,
    kind: u16,
    key: &Key,
    field: u16,
) -> Result<(), NoMemory>
    ensures { OnOk result (
        Notes noted.old.keys noted.new.keys (moved_field old.now new.now kind key.now field)) }
{
    let before = old.text(kind, key, field);
    let after = new.text(kind, key, field);
    if before == after {
        return Ok(());
    }
    let key = *key;
    note(noted, Item::Field { kind, key, field })?;
    note_group(noted, kind, field, before)?;
    note_group(noted, kind, field, after)
}

// The same for each field of a row.
fn note_fields(
    noted: &mut Items,
    old: &Content,
    new: &Content,
    kind: u16,
    key: &Key,
) -> Result<(), NoMemory>
    ensures { OnOk result (let count = length (fields_at old.now.frame kind) in
        Notes noted.old.keys noted.new.keys (moved_fields old.now new.now kind key.now count)) }
{
    for field in 0..field_count(old, kind) {
        note_field(noted, old, new, kind, key, field)?;
    }
    Ok(())
}

// Notes a row that is there in one content alone, and the list of its kind.
fn note_row(
    noted: &mut Items,
    old: &Content,
    new: &Content,
    kind: u16,
    key: &Key,
) -> Result<(), NoMemory>
    ensures { OnOk result (Notes noted.old.keys noted.new.keys (moved_row old.now new.now kind key.now)) }
{
    if old.has_row(kind, key) == new.has_row(kind, key) {
        return Ok(());
    }
    let key = *key;
    note(noted, Item::Row { kind, key })?;
    note(noted, Item::List { kind })
}

// Notes what differs by the row that a change names.
fn note_edit(
    noted: &mut Items,
    old: &Content,
    new: &Content,
    name: &Name,
    key: &Key,
) -> Result<(), NoMemory>
    ensures { OnOk result (Notes noted.old.keys noted.new.keys (moved_at old.now new.now name.now key.now)) }
{
    let kind = old.kind_number(name);
    note_row(noted, old, new, kind, key)?;
    note_fields(noted, old, new, kind, key)
}

// Notes a template whose body differs.
fn note_body(noted: &mut Items, old: &Content, new: &Content, name: &Name) -> Result<(), NoMemory>
    ensures { OnOk result (Notes noted.old.keys noted.new.keys
        (moved_body old.now new.now (template_at old.now.frame name.now))) }
{
    let template = old.template_number(name);
    if old.body_of(template) == new.body_of(template) {
        return Ok(());
    }
    note(noted, Item::Template { template })
}

fn note_commit(
    noted: &mut Items,
    old: &Content,
    new: &Content,
    commit: &Commit,
) -> Result<(), NoMemory>
    ensures { OnOk result (Notes noted.old.keys noted.new.keys (moved_by_commit old.now new.now commit.now)) }
{
    for change in commit.changes() {
        match change.edit() {
            Edit::Put { kind, key, .. } => note_edit(noted, old, new, kind, key)?,
            Edit::Remove { kind, key } => note_edit(noted, old, new, kind, key)?,
            Edit::Replace { template, .. } => note_body(noted, old, new, template)?,
        }
    }
    Ok(())
}

// The items that differ.
fn noted_by(
    alloc: Global,
    old: &Content,
    new: &Content,
    commits: &[Arc<Commit, Global>],
) -> Result<Items, NoMemory>
    ensures { IfOk result (λ noted.
        AreNoted noted.keys (moved_by old.now new.now (map (λ c. c.value) commits.now))) }
{
    let mut noted = BTreeSet::new(alloc);
    for commit in commits {
        note_commit(&mut noted, old, new, commit)?;
    }
    Ok(noted)
}

// The same items as a list.
fn listed(alloc: Global, items: Items) -> Result<Vec<Item>, NoMemory>
    ensures { IfOk result (λ made. made.items ≡ items.keys) }
{
    Ok(items.into_iter().collect(alloc)?)
}

/// The items whose values differ from a content to the one that these commits make of it, in item
/// order. It looks at the rows and the bodies that the changes name, and at no other: each costs a
/// search in the rows of its kind before and after, or a walk over the two bodies, and a place for each
/// item that differs.
pub fn changed(
    alloc: Global,
    old: &Content,
    new: &Content,
    commits: &[Arc<Commit, Global>],
) -> Result<Vec<Item>, NoMemory>
    requires { new.now ≡ fold after old.now (map (λ c. c.value) commits.now) }
    ensures { IfOk result (λ items. AreChanged old.now new.now items.items) }
{
    old.keeps_rows();
    new.keeps_rows();
    let noted = noted_by(alloc, old, new, commits)?;
    listed(alloc, noted)
}
