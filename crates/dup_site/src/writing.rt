// The canonical text of a site. What is written is spelled as the types of its parts keep it.
ghost use Rattle.std.specs.Prelude.{◌≡◌, ◌++◌, ◌∷◌, [], OnOk, IfOk, map, true, Ok};
ghost use Rattle.std.specs.List.{list_all, flat_map};
ghost use Rattle.dup_names.specs.Grammar.{is_name};
ghost use Rattle.dup_site.specs.Reads.{site_says};
ghost use Rattle.dup_site.specs.Spelling.{are_spelled, is_named, is_spelled, is_spelled_head};
ghost use Rattle.dup_site.specs.Spelling.{is_spelled_page};
ghost use Rattle.dup_site.specs.Spelling.{line_text, text_says, texts, written};
ghost use Rattle.dup_template.specs.BodyLines.{with_word};
ghost use Rattle.dup_names.specs.LineWords.{spaced};
ghost use Rattle.dup_site.specs.Canonical.{enclosed, site_lines, statement_lines, template_lines};
ghost use Rattle.dup_site.specs.declared.site_line.SiteLine.TheVariants as line;
ghost use Rattle.dup_site.specs.declared.site_line.Head.TheVariants as head;

use crate::site_line::Head;
use dup_names::{Name, NoMemory};
use dup_template::{KindPart, PageRule, Parts, Plain, Site, Statement, TemplatePart};
use std::alloc::{AllocError, Global};

type Out = Vec<u8>;

fn put_end_of_line(out: &mut Out) -> Result<(), AllocError>
    ensures { OnOk result (out.new.items ≡ out.old.items ++ 10 ∷ []) }
{
    out.push(b'\n')?;
    Ok(())
}

fn put_word(word: &[u8], out: &mut Out) -> Result<(), AllocError>
    ensures { OnOk result (out.new.items ≡ out.old.items ++ 32 ∷ word.now) }
{
    out.push(b' ')?;
    out.extend_from_slice(word)?;
    Ok(())
}

fn put_marked(mark: &[u8], name: &Option<Name>, out: &mut Out) -> Result<(), AllocError>
    ensures text { OnOk result (out.new.items
        ≡ out.old.items ++ flat_map (λ v. 32 ∷ v) (with_word mark.now name.now)) }
    ensures named { OnOk result (is_named name.now ≡ true) }
{
    match name {
        None => Ok(()),
        Some(name) => {
            put_word(mark, out)?;
            put_word(name.bytes(), out)?;
            Ok(())
        }
    }
}

/// A keyword, a name, and perhaps a mark and a name.
#[tactic(auto, using(dup_names::proofs::SpacedWords::spaced_cons))]
fn put_named(
    keyword: &[u8],
    name: &Name,
    mark: &[u8],
    other: &Option<Name>,
    out: &mut Out,
) -> Result<(), AllocError>
    ensures text { OnOk result (out.new.items
        ≡ out.old.items ++ (spaced (keyword.now ∷ name.now ∷ with_word mark.now other.now) ++ 10 ∷ [])) }
    ensures name { OnOk result (is_name name.now ≡ true) }
    ensures other { OnOk result (is_named other.now ≡ true) }
{
    out.extend_from_slice(keyword)?;
    put_word(name.bytes(), out)?;
    put_marked(mark, other, out)?;
    put_end_of_line(out)?;
    Ok(())
}

fn put_line(line: &[u8], out: &mut Out) -> Result<(), AllocError>
    ensures { OnOk result (out.new.items ≡ out.old.items ++ (line.now ++ 10 ∷ [])) }
{
    out.extend_from_slice(line)?;
    put_end_of_line(out)
}

#[tactic(auto, using(crate::proofs::SpelledLines::utf8_is, std::proofs::lemmas::Bool::and_from))]
fn put_say(text: &Plain, out: &mut Out) -> Result<(), AllocError>
    ensures text { OnOk result (out.new.items ≡ out.old.items ++ texts (line.Say text.now ∷ [])) }
    ensures spelled { OnOk result (is_spelled (line.Say text.now) ≡ true) }
{
    out.extend_from_slice(b"= ")?;
    put_line(text.bytes(), out)?;
    Ok(())
}

#[tactic(auto, using(dup_names::proofs::SpacedWords::spaced_cons, std::proofs::lemmas::Bool::and_from))]
fn put_each(
    kind: &Name,
    by: &Option<Name>,
    order: &Option<Name>,
    out: &mut Out,
) -> Result<(), AllocError>
    ensures text { OnOk result (out.new.items
        ≡ out.old.items ++ (line_text (line.Open (head.Each kind.now by.now order.now)) ++ 10 ∷ [])) }
    ensures spelled { OnOk result (is_spelled_head (head.Each kind.now by.now order.now) ≡ true) }
{
    out.extend_from_slice(b"each")?;
    put_word(kind.bytes(), out)?;
    put_marked(b"by", by, out)?;
    put_marked(b"order", order, out)?;
    put_end_of_line(out)?;
    Ok(())
}

#[tactic(auto, using(std::proofs::lemmas::Bool::and_from))]
fn put_head(head: &Head, out: &mut Out) -> Result<(), AllocError>
    ensures text { OnOk result (out.new.items
        ≡ out.old.items ++ (line_text (line.Open head.now) ++ 10 ∷ [])) }
    ensures spelled { OnOk result (is_spelled_head head.now ≡ true) }
{
    match head {
        Head::Template { name, kind } => {
            put_named(b"template", name, b"of", kind, out)?;
            Ok(())
        }
        Head::If(field) => {
            put_named(b"if", field, b"", &None, out)?;
            Ok(())
        }
        Head::Each { kind, by, order } => put_each(kind, by, order, out),
        Head::Link { template, via } => {
            put_named(b"link", template, b"via", via, out)?;
            Ok(())
        }
    }
}

#[tactic(auto, using(crate::proofs::SpelledLines::enclosed_spelled))]
#[cycle(lines)]
fn put_enclosed(head: &Head, body: &[Statement], out: &mut Out) -> Result<(), AllocError>
    ensures text { OnOk result (out.new.items
        ≡ out.old.items ++ texts (enclosed (line.Open head.now) (map statement_lines body.now))) }
    ensures spelled { OnOk result (are_spelled
        (enclosed (line.Open head.now) (map statement_lines body.now))) }
{
    put_head(head, out)?;
    put_body(body, out)?;
    put_line(b"end", out)?;
    Ok(())
}

#[tactic(auto, using(crate::proofs::SpelledLines::all_append))]
#[cycle(lines)]
pub(crate) fn put_body(body: &[Statement], out: &mut Out) -> Result<(), AllocError>
    ensures text { OnOk result (out.new.items
        ≡ out.old.items ++ texts (flat_map (λ b. b) (map statement_lines body.now))) }
    ensures spelled { OnOk result (are_spelled (flat_map (λ b. b) (map statement_lines body.now))) }
{
    for statement in body {
        put_statement(statement, out)?;
    }
    Ok(())
}

#[tactic(auto, using(crate::proofs::SpelledLines::one_spelled, std::proofs::lemmas::Bool::and_from))]
#[cycle(lines)]
fn put_statement(statement: &Statement, out: &mut Out) -> Result<(), AllocError>
    ensures text { OnOk result (out.new.items ≡ out.old.items ++ texts (statement_lines statement.now)) }
    ensures spelled { OnOk result (are_spelled (statement_lines statement.now)) }
{
    match statement {
        Statement::Say(text) => {
            put_say(text, out)?;
            Ok(())
        }
        Statement::Nl => {
            put_line(b"nl", out)?;
            Ok(())
        }
        Statement::Field(field) => {
            put_named(b"field", field, b"", &None, out)?;
            Ok(())
        }
        Statement::Key => {
            put_line(b"key", out)?;
            Ok(())
        }
        Statement::If { field, body } => put_enclosed(&Head::If(*field), body.items(), out),
        Statement::Each {
            kind,
            by,
            order,
            body,
        } => put_enclosed(
            &Head::Each {
                kind: *kind,
                by: *by,
                order: *order,
            },
            body.items(),
            out,
        ),
        Statement::Embed { template, via } => {
            put_named(b"embed", template, b"via", via, out)?;
            Ok(())
        }
        Statement::Link {
            template,
            via,
            body,
        } => put_enclosed(
            &Head::Link {
                template: *template,
                via: *via,
            },
            body.items(),
            out,
        ),
    }
}

fn put_names(names: &[Name], out: &mut Out) -> Result<(), AllocError>
    ensures text { OnOk result (out.new.items ≡ out.old.items ++ flat_map (λ v. 32 ∷ v) names.now) }
    ensures names { OnOk result (list_all is_name names.now ≡ true) }
{
    for name in names {
        put_word(name.bytes(), out)?;
    }
    Ok(())
}

#[tactic(auto, using(dup_names::proofs::SpacedWords::spaced_cons))]
fn put_listed(keyword: &[u8], name: &Name, names: &[Name], out: &mut Out) -> Result<(), AllocError>
    ensures text { OnOk result (out.new.items
        ≡ out.old.items ++ (spaced (keyword.now ∷ name.now ∷ names.now) ++ 10 ∷ [])) }
    ensures name { OnOk result (is_name name.now ≡ true) }
    ensures names { OnOk result (list_all is_name names.now ≡ true) }
{
    out.extend_from_slice(keyword)?;
    put_word(name.bytes(), out)?;
    put_names(names, out)?;
    put_end_of_line(out)?;
    Ok(())
}

#[tactic(auto, using(std::proofs::lemmas::Bool::and_from))]
fn put_kind(kind: &KindPart, out: &mut Out) -> Result<(), AllocError>
    ensures text { OnOk result (out.new.items
        ≡ out.old.items ++ (line_text (line.Kind kind.now.name kind.now.fields) ++ 10 ∷ [])) }
    ensures spelled { OnOk result (is_spelled (line.Kind kind.now.name kind.now.fields) ≡ true) }
{
    put_listed(b"kind", &kind.name, kind.fields.items(), out)?;
    Ok(())
}

#[tactic(auto, using(dup_names::proofs::SpacedWords::spaced_cons))]
fn put_two(keyword: &[u8], place: &[u8], name: &Name, out: &mut Out) -> Result<(), AllocError>
    ensures text { OnOk result (out.new.items
        ≡ out.old.items ++ (spaced (keyword.now ∷ place.now ∷ name.now ∷ []) ++ 10 ∷ [])) }
    ensures name { OnOk result (is_name name.now ≡ true) }
{
    out.extend_from_slice(keyword)?;
    put_word(place, out)?;
    put_word(name.bytes(), out)?;
    put_end_of_line(out)?;
    Ok(())
}

#[tactic(auto, using(std::proofs::lemmas::Bool::and_from))]
fn put_page(rule: &PageRule, out: &mut Out) -> Result<(), AllocError>
    ensures text { OnOk result (out.new.items
        ≡ out.old.items ++ (line_text (line.Page rule.now) ++ 10 ∷ [])) }
    ensures spelled { OnOk result (is_spelled_page rule.now ≡ true) }
{
    match rule {
        PageRule::Fixed { path, template } => {
            put_two(b"page", path.bytes(), template, out)?;
            Ok(())
        }
        PageRule::Family { prefix, template } => {
            put_two(b"family", prefix.bytes(), template, out)?;
            Ok(())
        }
    }
}

fn put_kinds(kinds: &[KindPart], out: &mut Out) -> Result<(), AllocError>
    ensures text { OnOk result (out.new.items
        ≡ out.old.items ++ texts (map (λ k. line.Kind k.name k.fields) kinds.now)) }
    ensures spelled { OnOk result (are_spelled (map (λ k. line.Kind k.name k.fields) kinds.now)) }
{
    for kind in kinds {
        put_kind(kind, out)?;
    }
    Ok(())
}

fn put_template(template: &TemplatePart, out: &mut Out) -> Result<(), AllocError>
    ensures text { OnOk result (out.new.items ≡ out.old.items ++ texts (template_lines template.now)) }
    ensures spelled { OnOk result (are_spelled (template_lines template.now)) }
{
    let head = Head::Template {
        name: template.name,
        kind: template.kind,
    };
    put_enclosed(&head, template.body.items(), out)
}

#[tactic(auto, using(crate::proofs::SpelledLines::all_append))]
fn put_templates(templates: &[TemplatePart], out: &mut Out) -> Result<(), AllocError>
    ensures text { OnOk result (out.new.items
        ≡ out.old.items ++ texts (flat_map template_lines templates.now)) }
    ensures spelled { OnOk result (are_spelled (flat_map template_lines templates.now)) }
{
    for template in templates {
        put_template(template, out)?;
    }
    Ok(())
}

fn put_pages(rules: &[PageRule], out: &mut Out) -> Result<(), AllocError>
    ensures text { OnOk result (out.new.items ≡ out.old.items ++ texts (map line.Page rules.now)) }
    ensures spelled { OnOk result (are_spelled (map line.Page rules.now)) }
{
    for rule in rules {
        put_page(rule, out)?;
    }
    Ok(())
}

#[tactic(auto, using(crate::proofs::SpelledLines::all_append))]
fn put_site(site: &Parts, out: &mut Out) -> Result<(), AllocError>
    ensures text { OnOk result (out.new.items ≡ out.old.items ++ written site.now) }
    ensures spelled { OnOk result (are_spelled (site_lines site.now)) }
{
    put_kinds(site.kinds.items(), out)?;
    put_templates(site.templates.items(), out)?;
    put_pages(site.pages.items(), out)?;
    Ok(())
}

/// The canonical text. Read again, it gives the same site.
pub fn site_text(alloc: Global, site: &Site) -> Result<Vec<u8>, NoMemory>
    ensures text { IfOk result (λ text. text.items ≡ written site.now) }
    ensures again { IfOk result (λ text. text_says text.items ≡ Ok site.now) }
    ensures read_again { IfOk result (λ text. site_says text.items ≡ Ok site.now) }
{
    let mut out = Vec::new(alloc);
    let parts = site.parts();
    put_site(parts, &mut out)?;
    Ok(out)
}
