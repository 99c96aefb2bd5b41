// The rules on the statements of templates.
ghost use Rattle.std.specs.Prelude.{◌≡◌, ◌≤◌, ◌<◌, ◌+◌, length};
ghost use Rattle.std.specs.Option.{option_copied};
ghost use Rattle.std.specs.Result.{result_err};
ghost use Rattle.dup_names.specs.declared.limits.TheConstants.{MAX_STATEMENTS};
ghost use Rattle.dup_template.specs.Frame.{frame_of, head_of, heads_of};
ghost use Rattle.dup_template.specs.Good as good;

use crate::check::{
    Checked, at_most, find_template, has_name, has_template, is_declared, kind_known,
};
use crate::refusal::{SiteRefusal, What};
use crate::site::{KindPart, Parts, TemplatePart};
use crate::statement::Statement;
use dup_names::{MAX_NESTING, MAX_STATEMENTS, Name};

fn find_kind<'a>(kinds: &'a [KindPart], name: &Name) -> Option<&'a KindPart>
    ensures { option_copied result ≡ good.find_kind kinds.now name.now }
{
    for kind in kinds {
        if kind.name == *name {
            return Some(kind);
        }
    }
    None
}

fn has_field(site: &Parts, kind: &Name, field: &Name) -> bool
    ensures { result ≡ good.has field.now (good.fields_of (good.find_kind site.now.kinds kind.now)) }
{
    match find_kind(site.kinds.items(), kind) {
        None => false,
        Some(kind) => has_name(kind.fields.items(), field),
    }
}

fn field_known(site: &Parts, kind: &Name, field: &Name) -> Checked
    ensures { result_err result ≡ good.field_known (frame_of site.now) kind.now field.now }
{
    if has_field(site, kind, field) {
        Ok(())
    } else {
        Err(SiteRefusal::Unknown(*field))
    }
}

fn field_holds(site: &Parts, own: &Name, kind: &Option<Name>, field: &Name) -> Checked
    ensures { result_err result ≡ good.field_fault (frame_of site.now) own.now kind.now field.now }
{
    match kind {
        None => Err(SiteRefusal::WrongKind(*own)),
        Some(kind) => field_known(site, kind, field),
    }
}

fn key_holds(own: &Name, kind: &Option<Name>) -> Checked
    ensures { result_err result ≡ good.key_fault own.now kind.now }
{
    match kind {
        None => Err(SiteRefusal::WrongKind(*own)),
        Some(_) => Ok(()),
    }
}

fn by_holds(site: &Parts, own: &Name, kind: &Option<Name>, of: &Name, by: &Option<Name>) -> Checked
    ensures { result_err result ≡ good.by_fault (frame_of site.now) own.now kind.now of.now by.now }
{
    match by {
        None => Ok(()),
        Some(field) => {
            key_holds(own, kind)?;
            field_known(site, of, field)
        }
    }
}

fn order_holds(site: &Parts, of: &Name, order: &Option<Name>) -> Checked
    ensures { result_err result ≡ good.order_fault (frame_of site.now) of.now order.now }
{
    match order {
        None => Ok(()),
        Some(field) => field_known(site, of, field),
    }
}

fn each_holds(
    site: &Parts,
    own: &Name,
    kind: &Option<Name>,
    of: &Name,
    by: &Option<Name>,
    order: &Option<Name>,
) -> Checked
    ensures { result_err result
        ≡ good.each_fault (frame_of site.now) own.now kind.now of.now by.now order.now }
{
    kind_known(site.kinds.items(), &Some(*of))?;
    by_holds(site, own, kind, of, by)?;
    order_holds(site, of, order)
}

fn is_current(current: &Option<Name>, kind: &Option<Name>) -> bool
    ensures { result ≡ good.is_current current.now kind.now }
{
    match kind {
        None => true,
        Some(kind) => match current {
            None => false,
            Some(current) => current == kind,
        },
    }
}

fn to_holds(
    site: &Parts,
    own: &Name,
    current: &Option<Name>,
    name: &Name,
    via: &Option<Name>,
    kind: &Option<Name>,
) -> Checked
    ensures { result_err result
        ≡ good.to_fault (frame_of site.now) own.now current.now name.now via.now kind.now }
{
    match via {
        None => {
            if is_current(current, kind) {
                Ok(())
            } else {
                Err(SiteRefusal::WrongKind(*name))
            }
        }
        Some(via) => {
            if kind.is_none() {
                return Err(SiteRefusal::WrongKind(*name));
            }
            field_holds(site, own, current, via)
        }
    }
}

fn embed_holds(
    site: &Parts,
    earlier: &[TemplatePart],
    own: &Name,
    current: &Option<Name>,
    name: &Name,
    via: &Option<Name>,
) -> Checked
    ensures { result_err result
        ≡ good.embed_fault (frame_of site.now) (heads_of earlier.now) own.now current.now name.now via.now
        (good.find_template (heads_of site.now.templates) name.now) }
{
    match find_template(site.templates.items(), name) {
        None => Err(SiteRefusal::Unknown(*name)),
        Some(template) => {
            if !has_template(earlier, name) {
                return Err(SiteRefusal::LaterTemplate(*name));
            }
            to_holds(site, own, current, name, via, &template.kind)
        }
    }
}

fn link_holds(
    site: &Parts,
    own: &Name,
    current: &Option<Name>,
    name: &Name,
    via: &Option<Name>,
) -> Checked
    ensures { result_err result
        ≡ good.link_fault (frame_of site.now) own.now current.now name.now via.now
        (good.find_template (heads_of site.now.templates) name.now) }
{
    match find_template(site.templates.items(), name) {
        None => Err(SiteRefusal::Unknown(*name)),
        Some(template) => {
            if !is_declared(site.pages.items(), name) {
                return Err(SiteRefusal::NoPage(*name));
            }
            to_holds(site, own, current, name, via, &template.kind)
        }
    }
}

#[cycle(rules)]
fn statement_holds(
    site: &Parts,
    earlier: &[TemplatePart],
    own: &Name,
    statement: &Statement,
    kind: &Option<Name>,
    depth: usize,
) -> Checked
    ensures { result_err result
        ≡ good.statement_fault (frame_of site.now) (heads_of earlier.now) own.now statement.now
        kind.now depth }
{
    at_most(MAX_NESTING, What::Nesting, depth)?;
    match statement {
        Statement::Say(_) => Ok(()),
        Statement::Nl => Ok(()),
        Statement::Field(field) => field_holds(site, own, kind, field),
        Statement::Key => key_holds(own, kind),
        Statement::If { field, body } => {
            field_holds(site, own, kind, field)?;
            body_holds(site, earlier, own, body.items(), kind, depth + 1)
        }
        Statement::Each {
            kind: of,
            by,
            order,
            body,
        } => {
            each_holds(site, own, kind, of, by, order)?;
            body_holds(site, earlier, own, body.items(), &Some(*of), depth + 1)
        }
        Statement::Embed { template, via } => {
            embed_holds(site, earlier, own, kind, template, via)
        }
        Statement::Link {
            template,
            via,
            body,
        } => {
            link_holds(site, own, kind, template, via)?;
            body_holds(site, earlier, own, body.items(), kind, depth + 1)
        }
    }
}

#[cycle(rules)]
fn body_holds(
    site: &Parts,
    earlier: &[TemplatePart],
    own: &Name,
    body: &[Statement],
    kind: &Option<Name>,
    depth: usize,
) -> Checked
    ensures { result_err result
        ≡ good.body_fault (frame_of site.now) (heads_of earlier.now) own.now body.now kind.now depth }
{
    for statement in body {
        statement_holds(site, earlier, own, statement, kind, depth)?;
    }
    Ok(())
}

fn capped(n: usize) -> usize
    ensures value { result ≡ good.capped n }
    ensures fits { result ≤ MAX_STATEMENTS + 1 }
{
    if MAX_STATEMENTS < n {
        MAX_STATEMENTS + 1
    } else {
        n
    }
}

#[cycle(sizes)]
fn size(statement: &Statement) -> usize
    ensures value { result ≡ good.capped (good.size statement.now) }
    ensures fits { result ≤ MAX_STATEMENTS + 1 }
{
    match statement {
        Statement::Say(_) | Statement::Nl | Statement::Field(_) | Statement::Key => 1,
        Statement::If { field: _, body } => capped(1 + body_size(body.items())),
        Statement::Each {
            kind: _,
            by: _,
            order: _,
            body,
        } => capped(1 + body_size(body.items())),
        Statement::Embed {
            template: _,
            via: _,
        } => 1,
        Statement::Link {
            template: _,
            via: _,
            body,
        } => capped(1 + body_size(body.items())),
    }
}

#[cycle(sizes)]
fn body_size(body: &[Statement]) -> usize
    ensures value { result ≡ good.capped (good.body_size body.now) }
    ensures fits { result ≤ MAX_STATEMENTS + 1 }
{
    let mut n = 0;
    for statement in body {
        n = capped(n + size(statement));
    }
    n
}

fn own_body_holds(
    site: &Parts,
    earlier: &[TemplatePart],
    template: &TemplatePart,
    body: &[Statement],
) -> Checked
    ensures { result_err result
        ≡ good.body_broken (frame_of site.now) (heads_of earlier.now) (head_of template.now) body.now }
{
    at_most(MAX_STATEMENTS, What::Statements, body_size(body))?;
    body_holds(site, earlier, &template.name, body, &template.kind, 1)
}

fn template_holds(site: &Parts, earlier: &[TemplatePart], template: &TemplatePart) -> Checked
    ensures { result_err result ≡ good.template_fault (frame_of site.now) earlier.now template.now }
{
    own_body_holds(site, earlier, template, template.body.items())
}

/// Whether the rules hold of a body as that of the template with this number.
pub(crate) fn new_body_holds(site: &Parts, template: usize, body: &[Statement]) -> Checked
    requires { template < length site.now.templates }
    ensures { result_err result ≡ good.new_body_fault (frame_of site.now) template body.now }
{
    let templates = site.templates.items();
    own_body_holds(site, &templates[..template], &templates[template], body)
}

pub(crate) fn bodies_hold(site: &Parts) -> Checked
    ensures { result_err result ≡ good.bodies_fault site.now }
{
    let templates = site.templates.items();
    for i in 0..templates.len() {
        template_holds(site, &templates[..i], &templates[i])?;
    }
    Ok(())
}
