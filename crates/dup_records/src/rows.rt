// The texts of rows.
ghost use Rattle.std.specs.Prelude.{◌≡◌, [], IfOk};
ghost use Rattle.std.specs.Option.{option_map, option_copied, unwrap_or};
ghost use Rattle.dup_model.specs.Content.{texts_at};
ghost use Rattle.dup_model.specs.Commits.{blank, with_fields};

use crate::entry::Entry;
use dup_names::{Name, NoMemory, Text, place_of};
use std::alloc::Global;

/// A field of a row, where both are there.
pub(crate) fn text_of<'a>(row: Option<&'a Entry>, field: usize) -> Option<&'a Text>
    ensures { unwrap_or (option_copied result) []
        ≡ texts_at (option_map (λ e. e.1) (option_copied row.entry)) field }
{
    match row {
        None => None,
        Some(row) => row.texts().get(field),
    }
}

/// A text without bytes.
pub(crate) fn empty_text(alloc: Global) -> Result<Text, NoMemory>
    ensures { IfOk result (λ made. made ≡ []) }
{
    match Text::read(alloc, b"")? {
        Some(text) => Ok(text),
        None => unreachable!(),
    }
}

/// A text that was found, which is shared, or one without bytes.
pub(crate) fn text_or_empty(alloc: Global, found: Option<&Text>) -> Result<Text, NoMemory>
    ensures { IfOk result (λ made. made ≡ unwrap_or (option_copied found.entry) []) }
{
    match found {
        None => empty_text(alloc),
        Some(text) => Ok(text.share()?),
    }
}

/// The same texts, which are shared.
pub(crate) fn shared_texts(alloc: Global, texts: &[Text]) -> Result<Vec<Text>, NoMemory>
    ensures { IfOk result (λ made. made.items ≡ texts.now) }
{
    let mut made = Vec::with_capacity(alloc, texts.len())?;
    for text in texts {
        made.push(text.share()?)?;
    }
    Ok(made)
}

/// An empty text for each of these fields.
pub(crate) fn blank_texts(alloc: Global, names: &[Name]) -> Result<Vec<Text>, NoMemory>
    ensures { IfOk result (λ made. made.items ≡ blank names.now) }
{
    let mut made = Vec::with_capacity(alloc, names.len())?;
    for _name in names {
        made.push(empty_text(alloc)?)?;
    }
    Ok(made)
}

/// Sets the named fields.
pub(crate) fn set_fields(
    names: &[Name],
    fields: &[(Name, Text)],
    texts: &mut Vec<Text>,
) -> Result<(), NoMemory>
    ensures { IfOk result (λ _. texts.new.items ≡ with_fields names.now fields.now texts.old.items) }
{
    for field in fields {
        let at = place_of(names, &field.0);
        let text = field.1.share()?;
        if at < texts.len() {
            texts[at] = text;
        }
    }
    Ok(())
}

/// The texts of a row, or an empty text for each of these fields where it isn't there.
pub(crate) fn texts_or_blank(
    alloc: Global,
    row: Option<&Entry>,
    names: &[Name],
) -> Result<Vec<Text>, NoMemory>
    ensures { IfOk result (λ made.
        made.items ≡ unwrap_or (option_map (λ e. e.1) (option_copied row.entry)) (blank names.now)) }
{
    match row {
        Some(row) => shared_texts(alloc, row.texts()),
        None => blank_texts(alloc, names),
    }
}
