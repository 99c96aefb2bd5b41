// A site with another body for a template.
ghost use Rattle.std.specs.Prelude.{◌≡◌, ◌++◌, ◌<◌, IfOk, OnOk, length, map};
ghost use Rattle.dup_template.specs.Frame.{set_body};

use crate::shared_body::SharedBody;
use crate::site::{KindPart, PageRule, Parts, TemplatePart};
use dup_lists::Listed;
use dup_names::NoMemory;
use std::alloc::Global;

fn copied_kinds(alloc: Global, kinds: &[KindPart]) -> Result<Listed<KindPart>, NoMemory>
    ensures { IfOk result (λ made. made ≡ kinds.now) }
{
    let mut made = Vec::with_capacity(alloc, kinds.len())?;
    for kind in kinds {
        let fields = Vec::from_slice(alloc, kind.fields.items())?;
        made.push(KindPart {
            name: kind.name,
            fields: Listed::of(fields),
        })?;
    }
    Ok(Listed::of(made))
}

fn copied_pages(alloc: Global, pages: &[PageRule]) -> Result<Listed<PageRule>, NoMemory>
    ensures { IfOk result (λ made. made ≡ pages.now) }
{
    let made = Vec::from_slice(alloc, pages)?;
    Ok(Listed::of(made))
}

fn with_shared(part: &TemplatePart, body: &SharedBody) -> Result<TemplatePart, NoMemory>
    ensures { IfOk result (λ made. made ≡ record part.now { body = body.now }) }
{
    let body = body.share()?;
    Ok(TemplatePart {
        name: part.name,
        kind: part.kind,
        body,
    })
}

fn put_parts(parts: &[TemplatePart], out: &mut Vec<TemplatePart>) -> Result<(), NoMemory>
    ensures { OnOk result (out.new.items ≡ out.old.items ++ parts.now) }
{
    for part in parts {
        out.push(with_shared(part, &part.body)?)?;
    }
    Ok(())
}

fn replaced(
    alloc: Global,
    parts: &[TemplatePart],
    template: usize,
    body: &SharedBody,
) -> Result<Listed<TemplatePart>, NoMemory>
    requires { template < length parts.now }
    ensures { IfOk result (λ made. made ≡ set_body parts.now template body.now) }
{
    let mut made = Vec::with_capacity(alloc, parts.len())?;
    put_parts(&parts[..template], &mut made)?;
    made.push(with_shared(&parts[template], body)?)?;
    put_parts(&parts[template + 1..], &mut made)?;
    Ok(Listed::of(made))
}

/// These parts with this body in place of that of a template; the other bodies are shared.
pub(crate) fn parts_with_body(
    alloc: Global,
    parts: &Parts,
    template: usize,
    body: &SharedBody,
) -> Result<Parts, NoMemory>
    requires { template < length parts.now.templates }
    ensures { IfOk result (λ made. made
        ≡ record parts.now { templates = set_body parts.now.templates template body.now }) }
{
    let kinds = copied_kinds(alloc, parts.kinds.items())?;
    let templates = replaced(alloc, parts.templates.items(), template, body)?;
    let pages = copied_pages(alloc, parts.pages.items())?;
    Ok(Parts {
        kinds,
        templates,
        pages,
    })
}
