// The lists and groups that were read.
ghost use Rattle.std.specs.Prelude.{◌≡◌, IfOk, OnOk};
ghost use Rattle.dup_model.specs.Content.{value};
ghost use Rattle.dup_render.specs.Lists.{AreRead};
ghost use Rattle.dup_render.specs.Rows.{keys_of};

use crate::rows::Rows;
use dup_names::{Item, Key, KeyList, NoMemory};
use dup_records::Content;
use dup_template::Value;
use std::alloc::Global;
use std::collections::BTreeMap;

/// The keys of each list and group that was read of a content, by its item.
pub(crate) type Lists = BTreeMap<Item, KeyList>;

/// The keys of rows, in order. They are read of the content where they weren't before, and kept.
pub(crate) fn keys_once(
    alloc: Global,
    content: &Content,
    rows: &Rows,
    lists: &mut Lists,
) -> Result<Vec<Key>, NoMemory>
    requires { AreRead content.now lists.old }
    ensures keys { IfOk result (λ made. made.items ≡ keys_of content.now rows.now) }
    ensures lists { OnOk result (AreRead content.now lists.new) }
{
    let item = rows.item();
    if let Some(keys) = lists.get(&item) {
        return Ok(Vec::from_slice(alloc, keys.items())?);
    }
    let keys = rows.keys(alloc, content)?;
    let copied = Vec::from_slice(alloc, keys.items())?;
    lists.insert(item, keys)?;
    Ok(copied)
}

/// The value of an item: keys that were read are taken out, and all else is read of the content.
pub(crate) fn take_value(
    alloc: Global,
    content: &Content,
    item: &Item,
    lists: &mut Lists,
) -> Result<Value, NoMemory>
    requires { AreRead content.now lists.old }
    ensures value { IfOk result (λ made. made ≡ value content.now item.now) }
    ensures lists { AreRead content.now lists.new }
{
    match lists.remove(item) {
        Some(keys) => Ok(Value::Keys(keys)),
        None => content.value(alloc, item),
    }
}
