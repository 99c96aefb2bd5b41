// The rows of an `each` in the order of a field; what is read, and where links lead, in order.
ghost use Rattle.std.specs.Prelude.{◌≡◌};
ghost use Rattle.dup_names.specs.Order.{item_cmp, text_cmp};
ghost use Rattle.dup_names.specs.Words as words;
ghost use Rattle.dup_model.specs.Here as here;
ghost use Rattle.dup_model.specs.Turns as turns;

use dup_names::{Item, Key, Name, Path};
use dup_records::Content;
use std::cmp::Ordering;

fn by_field(content: &Content, kind: u16, field: u16, a: &Key, b: &Key) -> Ordering
    ensures { result ≡ here.by_field content.now kind field a.now b.now }
{
    let x = content.text(kind, a, field);
    let y = content.text(kind, b, field);
    x.len().cmp(&y.len()).then(x.cmp(y)).then(a.cmp(b))
}

/// These keys of a kind in the order of a field, each once.
fn in_order(content: &Content, kind: u16, field: u16, keys: Vec<Key>) -> Vec<Key>
    ensures { result.items ≡ words.in_order (here.by_field content.now kind field) keys.items }
{
    let mut keys = keys;
    keys.sort_unstable_by(|a, b| by_field(content, kind, field, a, b));
    keys.dedup();
    keys
}

/// The keys of rows of a kind as they are, or by a field's length, bytes and key. Each comparison
/// finds both rows.
pub(crate) fn rows_by(
    content: &Content,
    kind: u16,
    order: &Option<Name>,
    keys: Vec<Key>,
) -> Vec<Key>
    ensures { result.items ≡ turns.rows_by content.now kind order.now keys.items }
{
    match order {
        None => keys,
        Some(order) => {
            let field = content.field_number(kind, order);
            in_order(content, kind, field, keys)
        }
    }
}

/// These items in their order, each once.
pub(crate) fn items_in_order(items: Vec<Item>) -> Vec<Item>
    ensures { result.items ≡ words.in_order item_cmp items.items }
{
    let mut items = items;
    items.sort_unstable();
    items.dedup();
    items
}

/// These paths in their order, each once.
pub fn paths_in_order(paths: Vec<Path>) -> Vec<Path>
    ensures { result.items ≡ words.in_order text_cmp paths.items }
{
    let mut paths = paths;
    paths.sort_unstable();
    paths.dedup();
    paths
}
