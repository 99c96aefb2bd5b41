// The fields of a head.
ghost use Rattle.std.specs.Prelude.{◌≡◌, ◌∷◌, [], length, map, option_map, IfOk, All, MatchOption};
ghost use Rattle.httparse.specs.Spans.{IsHeaderWithin, header_bytes};
ghost use Rattle.dup_http.specs.Fields.{seen, taken, all_taken, found};

use dup_names::NoMemory;
use http_header::{HeaderName, HeaderNameError, HeaderValue, HeaderValueError};
use httparse::spans::HeaderSpan;
use std::alloc::Global;

/// A field: its name in lower case, and its value.
#[derive(Drop)]
pub(crate) struct Field {
    name: HeaderName,
    value: HeaderValue,
}

/// The field at this place, where `http_header` takes its name and its value.
fn take(alloc: Global, window: &[u8], span: &HeaderSpan) -> Result<Option<Field>, NoMemory>
    requires { IsHeaderWithin (length window.now) span.now }
    ensures { IfOk result (λ read. option_map seen read ≡ taken (header_bytes window.now span.now)) }
{
    let name = match HeaderName::from_bytes(alloc, span.name.of(window)) {
        Ok(name) => name,
        Err(HeaderNameError::Invalid) => return Ok(None),
        Err(HeaderNameError::OutOfMemory) => return Err(NoMemory),
    };
    match HeaderValue::from_bytes(alloc, span.value.of(window)) {
        Ok(value) => Ok(Some(Field { name, value })),
        Err(HeaderValueError::Invalid) => Ok(None),
        Err(HeaderValueError::OutOfMemory) => Err(NoMemory),
    }
}

/// The fields of a head, where `http_header` takes them all.
pub(crate) fn fields(
    alloc: Global,
    window: &[u8],
    spans: &[HeaderSpan],
) -> Result<Option<Vec<Field>>, NoMemory>
    requires { All (IsHeaderWithin (length window.now)) spans.now }
    ensures { IfOk result (λ read. option_map (λ fields. map seen fields.items) read
        ≡ all_taken (map (header_bytes window.now) spans.now)) }
{
    let mut fields = Vec::with_capacity(alloc, spans.len())?;
    for span in spans {
        let Some(field) = take(alloc, window, span)? else {
            return Ok(None);
        };
        fields.push(field)?;
    }
    Ok(Some(fields))
}

/// The value of the first field with this name, and the fields behind it.
pub(crate) fn first<'f>(fields: &'f [Field], name: &str) -> Option<(&'f [u8], &'f [Field])>
    ensures { MatchOption result (found (map seen fields.now) name.now ≡ [])
        (λ p. found (map seen fields.now) name.now ≡ p.0.now ∷ found (map seen p.1.now) name.now) }
{
    for i in 0..fields.len() {
        if fields[i].name.as_str() == name {
            return Some((fields[i].value.as_bytes(), &fields[i + 1..]));
        }
    }
    None
}
