// A feed message is written.
ghost use Rattle.std.specs.Prelude.{◌≡◌, ◌≤◌, Some, Ok, IfOk, OnOk, IsTrue, IsUtf8, map};
ghost use Rattle.serde_json.specs.Data.{string};
ghost use Rattle.serde_json.specs.View.{view, items_of, members_view};
ghost use Rattle.dup_names.specs.Grammar.{is_name, is_key};
ghost use Rattle.dup_names.specs.declared.limits.TheConstants.{MAX_TEXT_BYTES};
ghost use Rattle.dup_template.specs.BodyLines.{body_text, longest_of};
ghost use Rattle.dup_model.specs.Commits.{rise};
ghost use Rattle.dup_model.specs.declared.edit.Edit.TheVariants.{Put, Remove, Replace};
ghost use Rattle.dup_feed.specs.Feed.{change_of, data_says, feed_says, fields_of, lines_of};
ghost use Rattle.dup_feed.specs.Message as message;

use dup_model::Edit;
use dup_names::{Key, Name, NoMemory, Text};
use dup_records::{Change, Commit};
use dup_site::body_lines;
use dup_template::SharedBody;
use serde_json::value::Map;
use serde_json::{Value, json};
use std::alloc::Global;
use std::str;

fn str_of(bytes: &[u8]) -> &str
    requires { IsUtf8 bytes.now }
    ensures { result.now ≡ bytes.now }
{
    let Ok(text) = str::from_utf8(bytes) else {
        unreachable!()
    };
    text
}

fn name_str(name: &Name) -> &str
    ensures value { result.now ≡ name.now }
    ensures valid { IsTrue (is_name name.now) }
{
    str_of(name.bytes())
}

fn key_str(key: &Key) -> &str
    ensures value { result.now ≡ key.now }
    ensures valid { IsTrue (is_key key.now) }
{
    str_of(key.bytes())
}

/// The member of each field, the texts as strings.
fn fields_value(alloc: Global, fields: &[(Name, Text)]) -> Result<Map<String, Value>, NoMemory>
    requires { IsTrue (rise fields.now) }
    ensures value { IfOk result (λ made. members_view made.entries ≡ message.fields_data fields.now) }
    ensures said { OnOk result (fields_of (message.fields_data fields.now) ≡ Some fields.now) }
{
    let mut made = Map::new(alloc);
    for field in fields {
        let name = name_str(&field.0);
        let text = Value::try_from_str(alloc, str_of(field.1.bytes()))?;
        serde_json::put(&mut made, alloc, name, text)?;
    }
    Ok(made)
}

fn put_value(
    alloc: Global,
    kind: &Name,
    key: &Key,
    fields: &[(Name, Text)],
) -> Result<Value, NoMemory>
    requires { IsTrue (rise fields.now) }
    ensures value { IfOk result (λ made. view made ≡ message.change_data (Put kind.now key.now fields.now)) }
    ensures said { OnOk result (message.IsSaid (Put kind.now key.now fields.now)) }
{
    let fields = fields_value(alloc, fields)?;
    let made = json!(in alloc; {
        "put": name_str(kind),
        "key": key_str(key),
        "fields": fields
    })?;
    Ok(made)
}

fn remove_value(alloc: Global, kind: &Name, key: &Key) -> Result<Value, NoMemory>
    ensures value { IfOk result (λ made. view made ≡ message.change_data (Remove kind.now key.now)) }
    ensures said { OnOk result (message.IsSaid (Remove kind.now key.now)) }
{
    let made = json!(in alloc; {
        "remove": name_str(kind),
        "key": key_str(key)
    })?;
    Ok(made)
}

fn lines_value(alloc: Global, lines: &[Text]) -> Result<Vec<Value>, NoMemory>
    ensures value { IfOk result (λ made. map view made.items ≡ map string lines.now) }
    ensures said { OnOk result (lines_of (items_of (map string lines.now)) ≡ Some lines.now) }
{
    let mut made = Vec::with_capacity(alloc, lines.len())?;
    for line in lines {
        made.push(Value::try_from_str(alloc, str_of(line.bytes()))?)?;
    }
    Ok(made)
}

fn replace_value(alloc: Global, template: &Name, body: &SharedBody) -> Result<Value, NoMemory>
    requires { longest_of (body_text body.now) ≤ MAX_TEXT_BYTES }
    ensures value { IfOk result (λ made. view made ≡ message.change_data (Replace template.now body.now)) }
    ensures said { OnOk result (message.IsSaid (Replace template.now body.now)) }
{
    let lines = body_lines(alloc, body)?;
    let lines = lines_value(alloc, &lines)?;
    let made = json!(in alloc; {
        "template": name_str(template),
        "body": lines
    })?;
    Ok(made)
}

fn change_value(alloc: Global, change: &Change) -> Result<Value, NoMemory>
    ensures value { IfOk result (λ made. view made ≡ message.change_data change.now) }
    ensures said { OnOk result (message.IsSaid change.now) }
{
    match change.edit() {
        Edit::Put { kind, key, fields } => put_value(alloc, kind, key, fields.items()),
        Edit::Remove { kind, key } => remove_value(alloc, kind, key),
        Edit::Replace { template, body } => replace_value(alloc, template, body),
    }
}

fn changes_value(alloc: Global, changes: &[Change]) -> Result<Vec<Value>, NoMemory>
    ensures value { IfOk result (λ made. map view made.items ≡ map message.change_data changes.now) }
    ensures said { OnOk result (map change_of (map message.change_data changes.now) ≡ map Some changes.now) }
{
    let mut made = Vec::with_capacity(alloc, changes.len())?;
    for change in changes {
        made.push(change_value(alloc, change)?)?;
    }
    Ok(made)
}

fn commit_value(alloc: Global, commit: &Commit) -> Result<Value, NoMemory>
    ensures value { IfOk result (λ made. view made ≡ message.commit_data commit.now) }
    ensures said { OnOk result (data_says (Some (message.commit_data commit.now)) ≡ Ok commit.now) }
{
    let changes = changes_value(alloc, commit.changes())?;
    let made = json!(in alloc; {"changes": changes})?;
    Ok(made)
}

/// The feed message of a commit: a JSON text with no space, the members of an object in the order of their
/// names. Read again, it says the commit. It costs the message, in time and in memory.
pub fn commit_text(alloc: Global, commit: &Commit) -> Result<Vec<u8>, NoMemory>
    ensures text { IfOk result (λ text. text.items ≡ message.commit_text commit.now) }
    ensures again { IfOk result (λ text. feed_says text.items ≡ Ok commit.now) }
{
    let value = commit_value(alloc, commit)?;
    let text = value.to_vec(alloc)?;
    Ok(text)
}
