// The rules on kinds, on heads of templates and on page declarations.
ghost use Rattle.std.specs.Prelude.{◌≡◌, Some, [], map, ◌≤◌, OnOk};
ghost use Rattle.std.specs.List.{list_any};
ghost use Rattle.std.specs.Option.{option_copied, option_map};
ghost use Rattle.std.specs.Result.{result_err};
ghost use Rattle.dup_template.specs.Frame.{head_of, heads_of};
ghost use Rattle.dup_template.specs.Good as good;

use crate::plain::Prefix;
use crate::refusal::{SiteRefusal, What};
use crate::site::{KindPart, PageRule, TemplatePart};
use dup_names::{Key, MAX_FIELDS, MAX_KINDS, MAX_PAGE_RULES, MAX_TEMPLATES, Name, Path};

pub(crate) type Checked = Result<(), SiteRefusal>;

pub(crate) fn at_most(limit: usize, what: What, n: usize) -> Checked
    ensures fault { result_err result ≡ good.at_most limit what n }
    ensures fits { OnOk result (n ≤ limit) }
{
    if limit < n {
        return Err(SiteRefusal::TooMany(what));
    }
    Ok(())
}

pub(crate) fn has_name(names: &[Name], name: &Name) -> bool
    ensures { result ≡ good.has name.now names.now }
{
    for found in names {
        if found == name {
            return true;
        }
    }
    false
}

fn new_name(earlier: &[Name], name: &Name) -> Checked
    ensures { result_err result ≡ good.new_name earlier.now name.now }
{
    if has_name(earlier, name) {
        return Err(SiteRefusal::Twice(*name));
    }
    Ok(())
}

fn new_names(names: &[Name]) -> Checked
    ensures { result_err result ≡ good.first_from good.new_name [] names.now }
{
    for i in 0..names.len() {
        new_name(&names[..i], &names[i])?;
    }
    Ok(())
}

fn fields_fit(fields: &[Name]) -> Checked
    ensures { result_err result ≡ good.fields_fault fields.now }
{
    at_most(MAX_FIELDS, What::Fields, fields.len())?;
    new_names(fields)
}

fn has_kind(kinds: &[KindPart], name: &Name) -> bool
    ensures { result ≡ good.has name.now (good.kind_names kinds.now) }
{
    for kind in kinds {
        if kind.name == *name {
            return true;
        }
    }
    false
}

fn new_kind(earlier: &[KindPart], kind: &KindPart) -> Checked
    ensures { result_err result ≡ good.kind_fault earlier.now kind.now }
{
    if has_kind(earlier, &kind.name) {
        return Err(SiteRefusal::Twice(kind.name));
    }
    fields_fit(kind.fields.items())
}

fn new_kinds(kinds: &[KindPart]) -> Checked
    ensures { result_err result ≡ good.first_from good.kind_fault [] kinds.now }
{
    for i in 0..kinds.len() {
        new_kind(&kinds[..i], &kinds[i])?;
    }
    Ok(())
}

pub(crate) fn kinds_fit(kinds: &[KindPart]) -> Checked
    ensures { result_err result ≡ good.kinds_fault kinds.now }
{
    at_most(MAX_KINDS, What::Kinds, kinds.len())?;
    new_kinds(kinds)
}

pub(crate) fn has_template(templates: &[TemplatePart], name: &Name) -> bool
    ensures { result ≡ good.has name.now (good.template_names (heads_of templates.now)) }
{
    for template in templates {
        if template.name == *name {
            return true;
        }
    }
    false
}

pub(crate) fn kind_known(kinds: &[KindPart], kind: &Option<Name>) -> Checked
    ensures { result_err result ≡ good.kind_known kinds.now kind.now }
{
    match kind {
        None => Ok(()),
        Some(name) => {
            if has_kind(kinds, name) {
                Ok(())
            } else {
                Err(SiteRefusal::Unknown(*name))
            }
        }
    }
}

fn new_head(kinds: &[KindPart], earlier: &[TemplatePart], template: &TemplatePart) -> Checked
    ensures { result_err result ≡ good.head_fault kinds.now (heads_of earlier.now) (head_of template.now) }
{
    if has_template(earlier, &template.name) {
        return Err(SiteRefusal::Twice(template.name));
    }
    kind_known(kinds, &template.kind)
}

fn new_heads(kinds: &[KindPart], templates: &[TemplatePart]) -> Checked
    ensures { result_err result ≡ good.first_from (good.head_fault kinds.now) [] (heads_of templates.now) }
{
    for i in 0..templates.len() {
        new_head(kinds, &templates[..i], &templates[i])?;
    }
    Ok(())
}

pub(crate) fn heads_fit(kinds: &[KindPart], templates: &[TemplatePart]) -> Checked
    ensures { result_err result ≡ good.heads_fault kinds.now (heads_of templates.now) }
{
    at_most(MAX_TEMPLATES, What::Templates, templates.len())?;
    new_heads(kinds, templates)
}

pub(crate) fn shown_by(rule: &PageRule) -> Name
    ensures { result ≡ good.shown_by rule.now }
{
    match rule {
        PageRule::Fixed { path: _, template } => *template,
        PageRule::Family {
            prefix: _,
            template,
        } => *template,
    }
}

fn place_of(rule: &PageRule) -> Path
    ensures { result ≡ good.place_of rule.now }
{
    match rule {
        PageRule::Fixed { path, template: _ } => *path,
        PageRule::Family {
            prefix,
            template: _,
        } => prefix.path(),
    }
}

pub(crate) fn behind<'a>(prefix: &Prefix, path: &'a [u8]) -> Option<&'a [u8]>
    ensures { option_copied result ≡ good.behind prefix.now path.now }
{
    path.strip_prefix(prefix.bytes())
}

fn is_slash_key(rest: &[u8]) -> bool
    ensures { result ≡ good.is_slash_key (Some rest.now) }
{
    match rest {
        [b'/', key @ ..] => Key::read(key).is_some(),
        _ => false,
    }
}

fn is_in_family(prefix: &Prefix, path: &Path) -> bool
    ensures { result ≡ good.is_in_family prefix.now path.now }
{
    match behind(prefix, path.bytes()) {
        None => false,
        Some(rest) => is_slash_key(rest),
    }
}

fn meet(a: &PageRule, b: &PageRule) -> bool
    ensures { result ≡ good.meet a.now b.now }
{
    match a {
        PageRule::Fixed {
            path: p,
            template: _,
        } => match b {
            PageRule::Fixed {
                path: q,
                template: _,
            } => p == q,
            PageRule::Family {
                prefix,
                template: _,
            } => is_in_family(prefix, p),
        },
        PageRule::Family {
            prefix: p,
            template: _,
        } => match b {
            PageRule::Fixed {
                path: q,
                template: _,
            } => is_in_family(p, q),
            PageRule::Family {
                prefix: q,
                template: _,
            } => p == q,
        },
    }
}

fn meets_one(rules: &[PageRule], rule: &PageRule) -> bool
    ensures { result ≡ list_any (λ r. good.meet r rule.now) rules.now }
{
    for earlier in rules {
        if meet(earlier, rule) {
            return true;
        }
    }
    false
}

pub(crate) fn is_declared(rules: &[PageRule], name: &Name) -> bool
    ensures { result ≡ good.declared rules.now name.now }
{
    for rule in rules {
        if shown_by(rule) == *name {
            return true;
        }
    }
    false
}

pub(crate) fn find_template<'a>(
    templates: &'a [TemplatePart],
    name: &Name,
) -> Option<&'a TemplatePart>
    ensures { option_map head_of (option_copied result)
        ≡ good.find_template (heads_of templates.now) name.now }
{
    for template in templates {
        if template.name == *name {
            return Some(template);
        }
    }
    None
}

fn is_of_its_kind(rule: &PageRule, kind: &Option<Name>) -> bool
    ensures { result ≡ good.is_of_its_kind rule.now kind.now }
{
    match rule {
        PageRule::Fixed {
            path: _,
            template: _,
        } => kind.is_none(),
        PageRule::Family {
            prefix: _,
            template: _,
        } => kind.is_some(),
    }
}

fn shows_one(templates: &[TemplatePart], rule: &PageRule) -> Checked
    ensures { result_err result
        ≡ good.shows_fault rule.now (good.find_template (heads_of templates.now) (good.shown_by rule.now)) }
{
    let name = shown_by(rule);
    match find_template(templates, &name) {
        None => Err(SiteRefusal::Unknown(name)),
        Some(template) => {
            if is_of_its_kind(rule, &template.kind) {
                Ok(())
            } else {
                Err(SiteRefusal::WrongKind(name))
            }
        }
    }
}

fn new_page(templates: &[TemplatePart], earlier: &[PageRule], rule: &PageRule) -> Checked
    ensures { result_err result ≡ good.page_fault (heads_of templates.now) earlier.now rule.now }
{
    shows_one(templates, rule)?;
    let name = shown_by(rule);
    if is_declared(earlier, &name) {
        return Err(SiteRefusal::Twice(name));
    }
    if meets_one(earlier, rule) {
        return Err(SiteRefusal::PathClash(place_of(rule)));
    }
    Ok(())
}

fn new_pages(templates: &[TemplatePart], rules: &[PageRule]) -> Checked
    ensures { result_err result ≡ good.first_from (good.page_fault (heads_of templates.now)) [] rules.now }
{
    for i in 0..rules.len() {
        new_page(templates, &rules[..i], &rules[i])?;
    }
    Ok(())
}

pub(crate) fn pages_fit(templates: &[TemplatePart], rules: &[PageRule]) -> Checked
    ensures { result_err result ≡ good.pages_fault (heads_of templates.now) rules.now }
{
    at_most(MAX_PAGE_RULES, What::Pages, rules.len())?;
    new_pages(templates, rules)
}
