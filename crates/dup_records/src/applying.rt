// What a commit does to a content, or why it is refused.
ghost use Rattle.std.specs.Prelude.{◌≡◌, ◌≢◌, ◌≤◌, ◌<◌, ◌^◌, ℕ, Err, IfOk, IfErr, OnOk, None};
ghost use Rattle.dup_model.specs.declared.edit.Edit.TheVariants.{Put, Remove, Replace};
ghost use Rattle.dup_model.specs.Commits.{after, edited, knows, refusal};
ghost use Rattle.dup_records.specs.Refusals.{Names, due};

use crate::commit::Commit;
use crate::content::Content;
use crate::refusal::CommitRefusal;
use dup_model::Edit;
use dup_names::{Key, Name, Text, place_of};
use dup_template::{SharedBody, SiteRefusal};
use std::alloc::Global;

fn are_known(names: &[Name], fields: &[(Name, Text)]) -> bool
    ensures { result ≡ knows names.now fields.now }
{
    fields
        .iter()
        .all(|field| place_of(names, &field.0) < names.len())
}

fn put(
    alloc: Global,
    content: &Content,
    name: &Name,
    key: &Key,
    fields: &[(Name, Text)],
    number: u16,
    rows: u32,
) -> Result<Content, CommitRefusal>
    ensures after { IfOk result (λ made. made ≡ edited content.now (Put name.now key.now fields.now)) }
    ensures fits { OnOk result (due content.now rows number (Put name.now key.now fields.now) ≡ None) }
    ensures refused { IfErr result
        (λ e. Names e (due content.now rows number (Put name.now key.now fields.now))) }
{
    let kind = content.kind_number(name);
    if kind >= content.kind_count() {
        return Err(CommitRefusal::UnknownKind(number));
    }
    if !are_known(content.fields(kind), fields) {
        return Err(CommitRefusal::UnknownField(number));
    }
    if !content.has_row(kind, key) && content.rows(kind).has_at_least(rows as usize) {
        return Err(CommitRefusal::KindFull(number));
    }
    Ok(content.with_put(alloc, kind, key, fields)?)
}

fn remove(
    alloc: Global,
    content: &Content,
    name: &Name,
    key: &Key,
    number: u16,
    rows: u32,
) -> Result<Content, CommitRefusal>
    ensures after { IfOk result (λ made. made ≡ edited content.now (Remove name.now key.now)) }
    ensures fits { OnOk result (due content.now rows number (Remove name.now key.now) ≡ None) }
    ensures refused { IfErr result (λ e. Names e (due content.now rows number (Remove name.now key.now))) }
{
    let kind = content.kind_number(name);
    if kind >= content.kind_count() {
        return Err(CommitRefusal::UnknownKind(number));
    }
    if !content.has_row(kind, key) {
        return Err(CommitRefusal::NoRow(number));
    }
    Ok(content.without(alloc, kind, key)?)
}

fn replace(
    alloc: Global,
    content: &Content,
    name: &Name,
    body: &SharedBody,
    number: u16,
    rows: u32,
) -> Result<Content, CommitRefusal>
    ensures after { IfOk result (λ made. made ≡ edited content.now (Replace name.now body.now)) }
    ensures fits { OnOk result (due content.now rows number (Replace name.now body.now) ≡ None) }
    ensures refused { IfErr result
        (λ e. Names e (due content.now rows number (Replace name.now body.now))) }
{
    let template = content.template_number(name);
    if template >= content.template_count() {
        return Err(CommitRefusal::UnknownTemplate(number));
    }
    match content.with_body(alloc, template, body) {
        Ok(made) => Ok(made),
        Err(SiteRefusal::NoMemory) => Err(CommitRefusal::NoMemory),
        Err(why) => Err(CommitRefusal::BadBody(number, why)),
    }
}

fn edit(
    alloc: Global,
    content: &Content,
    change: &Edit,
    number: u16,
    rows: u32,
) -> Result<Content, CommitRefusal>
    ensures after { IfOk result (λ made. made ≡ edited content.now change.now) }
    ensures fits { OnOk result (due content.now rows number change.now ≡ None) }
    ensures refused { IfErr result (λ e. Names e (due content.now rows number change.now)) }
{
    match change {
        Edit::Put { kind, key, fields } => {
            put(alloc, content, kind, key, fields.items(), number, rows)
        }
        Edit::Remove { kind, key } => remove(alloc, content, kind, key, number, rows),
        Edit::Replace { template, body } => replace(alloc, content, template, body, number, rows),
    }
}

/// Makes the changes of a commit in order, whole or not at all; the content stays as it is. A put sets
/// the named fields of its row and leaves the others; it makes the row where it is absent, with empty
/// texts. A kind takes no new row past so many. A new body stands in place of its template's. The
/// first change that fails decides; in it the kind is looked at first, then the fields, then the row,
/// and the template first, then its body. It never answers `JournalFull`. A change of a row costs a
/// search and the chunk of its place, in the rows of its kind and in the index of each field whose text
/// differs, and one more owner of each other chunk; one of a body costs the body and the site's frame.
pub fn apply(
    alloc: Global,
    content: &Content,
    commit: &Commit,
    rows: u32,
) -> Result<Content, CommitRefusal>
    ensures fits { OnOk result (refusal content.now commit.now rows ≡ None) }
    ensures after { IfOk result (λ made. made ≡ after content.now commit.now) }
    ensures refused { IfErr result (λ e. Names e (refusal content.now commit.now rows)) }
    ensures no_journal { (commits bytes : ℕ) → result ≢ Err (CommitRefusal.JournalFull commits bytes) }
{
    let mut made = content.copy(alloc)?;
    let mut number = 1;
    for change in commit.changes() {
        made = edit(alloc, &made, change.edit(), number, rows)?;
        number += 1;
    }
    Ok(made)
}
