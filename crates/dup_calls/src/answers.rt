// Answers in words, as rows write them.
use dup_build::{Begun, Finish, Joined, Put};
use dup_names::{Item, Name, Obj, Path};
use dup_template::{Site, Value};
use std::alloc::Global;
use std::str;
use std::test::Fail;

/// A text of its own.
pub(crate) fn owned(alloc: Global, text: &str) -> Result<String, Fail> {
    Ok(String::from_str(alloc, text)?)
}

fn template_name(site: &Site, template: u16) -> Result<&Name, Fail> {
    let parts = site.parts();
    let part = parts
        .templates
        .items()
        .get(template as usize)
        .ok_or("a template")?;
    Ok(&part.name)
}

/// An object: the name of its template, and its key behind a colon.
pub(crate) fn obj_text(alloc: Global, site: &Site, obj: &Obj) -> Result<String, Fail> {
    let name = str::from_utf8(template_name(site, obj.template)?.bytes())?;
    match &obj.key {
        None => owned(alloc, name),
        Some(key) => {
            let key = str::from_utf8(key.bytes())?;
            Ok(format!(in alloc; "{name}:{key}")?)
        }
    }
}

fn field_text(
    alloc: Global,
    site: &Site,
    kind: u16,
    key: &[u8],
    field: u16,
) -> Result<String, Fail> {
    let parts = site.parts();
    let kind = parts.kinds.items().get(kind as usize).ok_or("a kind")?;
    let field = kind.fields.items().get(field as usize).ok_or("a field")?;
    let kind = str::from_utf8(kind.name.bytes())?;
    let key = str::from_utf8(key)?;
    let field = str::from_utf8(field.bytes())?;
    Ok(format!(in alloc; "field {kind}:{key}.{field}")?)
}

// An item: a field or a template with its names, of the others what they are alone.
fn item_text(alloc: Global, site: &Site, item: &Item) -> Result<String, Fail> {
    match item {
        Item::Field { kind, key, field } => field_text(alloc, site, *kind, key.bytes(), *field),
        Item::Row { .. } => owned(alloc, "row"),
        Item::List { .. } => owned(alloc, "list"),
        Item::Group { .. } => owned(alloc, "group"),
        Item::Template { template } => {
            let name = str::from_utf8(template_name(site, *template)?.bytes())?;
            Ok(format!(in alloc; "template {name}")?)
        }
    }
}

// A value: a text, or how many keys or lines there are.
fn value_text(alloc: Global, value: &Value) -> Result<String, Fail> {
    match value {
        Value::Text(text) => {
            let text = str::from_utf8(text.bytes())?;
            Ok(format!(in alloc; "\"{text}\"")?)
        }
        Value::Exists(true) => owned(alloc, "yes"),
        Value::Exists(false) => owned(alloc, "no"),
        Value::Keys(keys) => {
            let count = keys.items().len();
            Ok(format!(in alloc; "keys {count}")?)
        }
        Value::Body(body) => {
            let count = body.lines();
            Ok(format!(in alloc; "body {count}")?)
        }
    }
}

/// Paths with commas between them, or a dash where there is none.
pub(crate) fn paths_text(alloc: Global, paths: &[Path]) -> Result<String, Fail> {
    if paths.is_empty() {
        return owned(alloc, "-");
    }
    let mut text = String::new(alloc);
    for path in paths {
        if !text.is_empty() {
            text.push_str(",")?;
        }
        text.push_str(str::from_utf8(path.bytes())?)?;
    }
    Ok(text)
}

/// What `begin` answers.
pub(crate) fn begun_text(alloc: Global, begun: &Begun) -> Result<String, Fail> {
    let text = match begun {
        Begun::Same(version) => format!(in alloc; "same {version}")?,
        Begun::Nothing(version) => format!(in alloc; "nothing {version}")?,
        Begun::Work { version, waiting } => {
            format!(in alloc; "work {version} waiting {waiting}")?
        }
    };
    Ok(text)
}

/// What `put` answers for an expansion of this object of a site.
pub(crate) fn put_text(alloc: Global, site: &Site, obj: &str, put: &Put) -> Result<String, Fail> {
    let text = match put {
        Put::Foreign => owned(alloc, "foreign")?,
        Put::Unasked => format!(in alloc; "unasked {obj}")?,
        Put::Stale {
            item,
            noted,
            present,
        } => {
            let item = item_text(alloc, site, item)?;
            let noted = value_text(alloc, noted)?;
            let present = value_text(alloc, present)?;
            format!(in alloc; "stale {item} had {noted} now {present}")?
        }
        Put::Kept { waiting } => format!(in alloc; "kept {obj} waiting {waiting}")?,
    };
    Ok(text)
}

/// What `join` answers.
pub(crate) fn joined_text(alloc: Global, joined: &Joined) -> Result<String, Fail> {
    let text = match joined {
        Joined::Idle => owned(alloc, "idle")?,
        Joined::Waiting(count) => format!(in alloc; "waiting {count}")?,
        Joined::Done => owned(alloc, "done")?,
        Joined::Level(count) => format!(in alloc; "joined {count}")?,
    };
    Ok(text)
}

/// What `finish` answers, without the paths that the work touched.
pub(crate) fn finish_text(alloc: Global, finish: &Finish) -> Result<String, Fail> {
    let text = match finish {
        Finish::Idle => owned(alloc, "idle")?,
        Finish::Waiting(count) => format!(in alloc; "waiting {count}")?,
        Finish::Unjoined(count) => format!(in alloc; "unjoined {count}")?,
        Finish::Report {
            version,
            expanded,
            joined,
            kept,
            ..
        } => {
            format!(in alloc; "target {version} expanded {expanded} joined {joined} kept {kept}")?
        }
    };
    Ok(text)
}
