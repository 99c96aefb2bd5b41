ghost use Rattle.std.specs.Prelude.{◌≡◌, ◌≤◌, Some, None, IfOk, IfSome, IsTrue, codes, string_bytes, option_map};
ghost use Rattle.std.specs.Option.{option_copied};
ghost use Rattle.serde_json.specs.View.{view, items_view, members_view};
ghost use Rattle.serde_json.specs.Find.{get, as_object, as_str};
ghost use Rattle.dup_names.specs.Grammar.{is_name, is_key};
ghost use Rattle.dup_names.specs.declared.limits.TheConstants.{MAX_TEXT_BYTES};
ghost use Rattle.dup_template.specs.BodyLines.{body_text, longest_of};
ghost use Rattle.dup_model.specs.Commits.{rise};
ghost use Rattle.dup_feed.specs.Feed as feed;

use dup_names::{Key, Name, NoMemory, Text};
use dup_records::Change;
use dup_site::read_body;
use dup_template::SharedBody;
use serde_json::Value;
use serde_json::value::Map;
use std::alloc::Global;

/// How many members an object has.
pub(crate) fn count(value: &Value) -> usize
    ensures { result ≡ feed.count_of (as_object (view value.now)) }
{
    match value.as_object() {
        None => 0,
        Some(members) => members.len(),
    }
}

fn name_at(value: &Value, member: &str) -> Option<Name>
    ensures { result ≡ feed.word_at member.now is_name (view value.now) }
{
    let Some(found) = value.get(member) else {
        return None;
    };
    let Some(word) = found.as_str() else {
        return None;
    };
    Name::read(word.as_bytes())
}

fn key_at(value: &Value, member: &str) -> Option<Key>
    ensures { result ≡ feed.word_at member.now is_key (view value.now) }
{
    let Some(found) = value.get(member) else {
        return None;
    };
    let Some(word) = found.as_str() else {
        return None;
    };
    Key::read(word.as_bytes())
}

fn field(alloc: Global, name: &str, value: &Value) -> Result<Option<(Name, Text)>, NoMemory>
    ensures { IfOk result (λ read. read ≡ feed.field_of name.now (view value.now)) }
{
    let Some(name) = Name::read(name.as_bytes()) else {
        return Ok(None);
    };
    let Some(word) = value.as_str() else {
        return Ok(None);
    };
    let Some(text) = Text::read(alloc, word.as_bytes())? else {
        return Ok(None);
    };
    Ok(Some((name, text)))
}

fn fields(
    alloc: Global,
    members: &Map<String, Value>,
) -> Result<Option<Vec<(Name, Text)>>, NoMemory>
    ensures value { IfOk result (λ read.
        option_map (λ fields. fields.items) read ≡ feed.fields_of (members_view members.now.entries)) }
    ensures rising { IfOk result (λ read. IfSome read (λ fields. IsTrue (rise fields.items))) }
{
    let mut fields = Vec::with_capacity(alloc, members.len())?;
    for (name, value) in members {
        let Some(field) = field(alloc, name.as_str(), value)? else {
            return Ok(None);
        };
        fields.push(field)?;
    }
    Ok(Some(fields))
}

fn put(alloc: Global, value: &Value) -> Result<Option<Change>, NoMemory>
    ensures { IfOk result (λ read. read ≡ feed.put_of (view value.now)) }
{
    let Some(kind) = name_at(value, "put") else {
        return Ok(None);
    };
    let Some(key) = key_at(value, "key") else {
        return Ok(None);
    };
    let Some(found) = value.get("fields") else {
        return Ok(None);
    };
    let Some(members) = found.as_object() else {
        return Ok(None);
    };
    let Some(fields) = fields(alloc, members)? else {
        return Ok(None);
    };
    Ok(Change::put(kind, key, fields))
}

fn line(alloc: Global, value: &Value) -> Result<Option<Text>, NoMemory>
    ensures { IfOk result (λ read. read ≡ feed.line_of (view value.now)) }
{
    let Some(word) = value.as_str() else {
        return Ok(None);
    };
    Text::read(alloc, word.as_bytes())
}

fn lines(alloc: Global, elements: &[Value]) -> Result<Option<Vec<Text>>, NoMemory>
    ensures { IfOk result (λ read. option_map (λ lines. lines.items) read ≡ feed.lines_of (items_view elements.now)) }
{
    let mut lines = Vec::with_capacity(alloc, elements.len())?;
    for element in elements {
        let Some(line) = line(alloc, element)? else {
            return Ok(None);
        };
        lines.push(line)?;
    }
    Ok(Some(lines))
}

/// The body that the lines of a value's member say.
fn body(alloc: Global, value: &Value) -> Result<Option<SharedBody>, NoMemory>
    ensures value { IfOk result (λ read. read ≡ feed.body_of (view value.now)) }
    ensures fits { IfOk result (λ read. IfSome read (λ body. longest_of (body_text body) ≤ MAX_TEXT_BYTES)) }
{
    let Some(found) = value.get("body") else {
        return Ok(None);
    };
    let Some(elements) = found.as_array() else {
        return Ok(None);
    };
    let Some(lines) = lines(alloc, elements.as_slice())? else {
        return Ok(None);
    };
    read_body(alloc, &lines)
}

fn replace(alloc: Global, value: &Value) -> Result<Option<Change>, NoMemory>
    ensures { IfOk result (λ read. read ≡ feed.replace_of (view value.now)) }
{
    let Some(template) = name_at(value, "template") else {
        return Ok(None);
    };
    let Some(body) = body(alloc, value)? else {
        return Ok(None);
    };
    Ok(Change::body(template, body))
}

fn remove(value: &Value) -> Option<Change>
    ensures { result ≡ feed.remove_of (view value.now) }
{
    let Some(kind) = name_at(value, "remove") else {
        return None;
    };
    let Some(key) = key_at(value, "key") else {
        return None;
    };
    Some(Change::remove(kind, key))
}

/// The change that a value is, where it is one.
pub(crate) fn change(alloc: Global, value: &Value) -> Result<Option<Change>, NoMemory>
    ensures { IfOk result (λ read. read ≡ feed.change_of (view value.now)) }
{
    match count(value) {
        3 => put(alloc, value),
        2 if value.get("template").is_some() => replace(alloc, value),
        2 => Ok(remove(value)),
        _ => Ok(None),
    }
}
