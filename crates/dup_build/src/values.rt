// Values and notes.
ghost use Rattle.std.specs.Prelude.{◌≡◌, IfOk};
ghost use Rattle.std.specs.Option.{option_copied};
ghost use Rattle.dup_model.specs.Expansions.{stale};

use dup_lists::Listed;
use dup_names::{Item, NoMemory};
use dup_records::Content;
use dup_template::Value;
use std::alloc::Global;

/// An equal value; a text or a body is shared.
pub(crate) fn copy_value(alloc: Global, value: &Value) -> Result<Value, NoMemory>
    ensures { IfOk result (λ made. made ≡ value.now) }
{
    match value {
        Value::Text(text) => Ok(Value::Text(text.share()?)),
        Value::Exists(exists) => Ok(Value::Exists(*exists)),
        Value::Keys(keys) => {
            let keys = Vec::from_slice(alloc, keys.items())?;
            Ok(Value::Keys(Listed::of(keys)))
        }
        Value::Body(body) => Ok(Value::Body(body.share()?)),
    }
}

/// The first note whose value isn't that of a content.
pub(crate) fn first_stale<'a>(
    content: &Content,
    notes: &'a [(Item, Value)],
) -> Option<&'a (Item, Value)>
    ensures { option_copied result ≡ stale content.now notes.now }
{
    for note in notes {
        if !content.agrees(&note.0, &note.1) {
            return Some(note);
        }
    }
    None
}
