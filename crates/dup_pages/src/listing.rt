// The pages of a content.
ghost use Rattle.std.specs.Prelude.{◌≡◌, IfOk, OnOk};
ghost use Rattle.std.specs.Option.{option_map};
ghost use Rattle.dup_template.specs.declared.site.PageRule.TheVariants.{Family};
ghost use Rattle.dup_model.specs.Names.{kind_at, kind_of};
ghost use Rattle.dup_model.specs.Pages.{keys_of, pages, pages_of};
ghost use Rattle.dup_pages.specs.Listing.{pages_for, with_pages};

use dup_lists::Listed;
use dup_names::{Key, KeyList, Name, NoMemory, Obj, Path};
use dup_records::Content;
use dup_template::{PageRule, Prefix, row_path};
use std::alloc::Global;
use std::collections::BTreeMap;

type Pages = BTreeMap<Path, Obj>;

// Puts a page for each row, under a prefix.
fn put_rows(made: &mut Pages, prefix: &Prefix, template: u16, keys: &[Key]) -> Result<(), NoMemory>
    ensures { OnOk result (made.new.entries
        ≡ with_pages made.old.entries (pages_for prefix.now template keys.now)) }
{
    for key in keys {
        let key = *key;
        let obj = Obj {
            template,
            key: Some(key),
        };
        made.insert(row_path(prefix, &key), obj)?;
    }
    Ok(())
}

// The keys of the rows of a template's kind, none where it is of none.
fn keys_shown(alloc: Global, content: &Content, template: u16) -> Result<KeyList, NoMemory>
    ensures { IfOk result (λ made. made
        ≡ keys_of content.now (option_map (kind_at content.now.frame) (kind_of content.now.frame template))) }
{
    match content.kind_number_of(template) {
        None => Ok(Listed::of(Vec::new(alloc))),
        Some(kind) => content.keys(alloc, kind),
    }
}

fn put_family(
    alloc: Global,
    made: &mut Pages,
    content: &Content,
    prefix: &Prefix,
    template: &Name,
) -> Result<(), NoMemory>
    ensures { OnOk result (made.new.entries
        ≡ with_pages made.old.entries (pages_of content.now (Family prefix.now template.now))) }
{
    let number = content.template_number(template);
    let keys = keys_shown(alloc, content, number)?;
    put_rows(made, prefix, number, keys.items())
}

// Puts the pages of a declaration.
fn put_declared(
    alloc: Global,
    made: &mut Pages,
    content: &Content,
    rule: &PageRule,
) -> Result<(), NoMemory>
    ensures { OnOk result (made.new.entries ≡ with_pages made.old.entries (pages_of content.now rule.now)) }
{
    match rule {
        PageRule::Fixed { path, template } => {
            let template = content.template_number(template);
            let key = None;
            made.insert(*path, Obj { template, key })?;
            Ok(())
        }
        PageRule::Family { prefix, template } => {
            put_family(alloc, made, content, prefix, template)
        },
    }
}

// The pages in a tree by their paths.
fn pages_by_path(alloc: Global, content: &Content) -> Result<Pages, NoMemory>
    ensures { IfOk result (λ made. made.entries ≡ pages content.now) }
{
    let mut made = BTreeMap::new(alloc);
    for rule in content.site().page_rules() {
        put_declared(alloc, &mut made, content, rule)?;
    }
    Ok(made)
}

/// The pages of a content in the order of their paths: each path with the object that it shows.
///
/// The cost is n log n in the number of pages. A declaration's names are looked up once, not for
/// each of its rows: by walking the at most 256 templates, and the at most 64 kinds.
pub fn pages(alloc: Global, content: &Content) -> Result<Vec<(Path, Obj)>, NoMemory>
    ensures { IfOk result (λ made. made.items ≡ pages content.now) }
{
    let made = pages_by_path(alloc, content)?;
    Ok(made.into_iter().collect(alloc)?)
}
