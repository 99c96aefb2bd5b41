// Where links lead.
ghost use Rattle.std.specs.Prelude.{◌≡◌, ◌++◌, IfOk, OnOk, codes};
ghost use Rattle.dup_model.specs.Links as links;

use crate::marks::{Marks, put};
use dup_lists::Listed;
use dup_model::Mark;
use dup_names::{Item, Key, Name, NoMemory, Path};
use dup_records::Content;
use dup_template::page_path;
use std::alloc::Global;

fn row_path(content: &Content, template: &Name, kind: u16, key: &Key) -> Option<Path>
    ensures { result ≡ links.target_path content.now template.now (Some kind) (Some key.now) }
{
    if content.has_row(kind, key) {
        page_path(content.site(), template, &Some(*key))
    } else {
        None
    }
}

/// The path of the page of a template, of this kind if it has one, where the page exists.
pub(crate) fn target_path(
    content: &Content,
    template: &Name,
    kind: Option<u16>,
    key: &Option<Key>,
) -> Option<Path>
    ensures { result ≡ links.target_path content.now template.now kind key.now }
{
    match kind {
        None => page_path(content.site(), template, &None),
        Some(kind) => match key {
            None => None,
            Some(key) => row_path(content, template, kind, key),
        },
    }
}

/// Puts the mark that the target's row is read, where there is one to read.
pub(crate) fn put_target_read(
    kind: Option<u16>,
    key: &Option<Key>,
    out: &mut Marks,
) -> Result<(), NoMemory>
    ensures { OnOk result (out.new.items ≡ out.old.items ++ links.target_read kind key.now) }
{
    match kind {
        None => Ok(()),
        Some(kind) => match key {
            None => Ok(()),
            Some(key) => put(Mark::Read(Item::Row { kind, key: *key }), out),
        },
    }
}

fn anchor(alloc: Global, path: &[u8]) -> Result<Vec<u8>, NoMemory>
    ensures { IfOk result (λ made. made.items ≡ codes "<a href=\"" ++ path.now ++ codes "\">") }
{
    let mut out = Vec::new(alloc);
    out.extend_from_slice(b"<a href=\"")?;
    out.extend_from_slice(path)?;
    out.extend_from_slice(b"\">")?;
    Ok(out)
}

/// Puts the marks before the body of a link that leads somewhere.
pub(crate) fn put_opening(alloc: Global, path: &Path, out: &mut Marks) -> Result<(), NoMemory>
    ensures { OnOk result (out.new.items ≡ out.old.items ++ links.opening path.now) }
{
    let before = anchor(alloc, path.bytes())?;
    put(Mark::Plain(Listed::of(before)), out)?;
    put(Mark::Goes(*path), out)
}
