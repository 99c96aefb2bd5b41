// How many canonical lines a body has, and how long they are.
ghost use Rattle.std.specs.Prelude.{◌≡◌, ◌<◌, ℕ, List, ◌∷◌, length, map};
ghost use Rattle.std.specs.List.{flat_map};
ghost use Rattle.dup_names.specs.LineWords.{spaced};
ghost use Rattle.dup_template.specs.BodyLines.{between, body_text, each_text, measure_of};
ghost use Rattle.dup_template.specs.BodyLines.{statement_text, with_word};
ghost use Rattle.dup_template.specs.BodyLines.{joined as behind};

use crate::statement::Statement;
use dup_names::Name;

/// The number of lines, the greatest length of one, and the sum of their lengths, each at most
/// `u64::MAX`.
#[derive(Clone, Copy)]
pub(crate) struct Measure {
    pub lines: u64,
    pub longest: u64,
    pub length: u64,
}

fn one(length: usize) -> Measure
    ensures { result ≡ record { lines = 1; longest = length; length = length } }
{
    Measure {
        lines: 1,
        longest: length as u64,
        length: length as u64,
    }
}

fn joined(a: Measure, b: Measure) -> Measure
    ensures { result ≡ behind a b }
{
    Measure {
        lines: a.lines.saturating_add(b.lines),
        longest: a.longest.max(b.longest),
        length: a.length.saturating_add(b.length),
    }
}

fn marked(mark: &[u8], name: &Option<Name>) -> usize
    requires { length mark.now < 100 }
    ensures value { result ≡ length (flat_map (λ v. 32 ∷ v) (with_word mark.now name.now)) }
    ensures small { result < 200 }
{
    match name {
        None => 0,
        Some(name) => mark.len() + name.bytes().len() + 2,
    }
}

/// The length of a keyword, a name, and perhaps a mark and a name.
#[tactic(auto, using(dup_names::proofs::SpacedWords::spaced_cons))]
fn named(keyword: &[u8], name: &Name, mark: &[u8], other: &Option<Name>) -> usize
    requires keyword { length keyword.now < 100 }
    requires mark { length mark.now < 100 }
    ensures { result ≡ length (spaced (keyword.now ∷ name.now ∷ with_word mark.now other.now)) }
{
    keyword.len() + 1 + name.bytes().len() + marked(mark, other)
}

#[tactic(auto, using(dup_names::proofs::SpacedWords::spaced_cons))]
fn each(kind: &Name, by: &Option<Name>, order: &Option<Name>) -> usize
    ensures { result ≡ length (each_text kind.now by.now order.now) }
{
    5 + kind.bytes().len() + marked(b"by", by) + marked(b"order", order)
}

#[cycle(measures)]
fn enclosed(first: usize, body: &[Statement]) -> Measure
    ensures { (text : List ℕ) → length text ≡ first →
        result ≡ measure_of (between text (map statement_text body.now)) }
{
    joined(joined(one(first), body_measure(body)), one(3))
}

#[cycle(measures)]
fn statement_measure(statement: &Statement) -> Measure
    ensures { result ≡ measure_of (statement_text statement.now) }
{
    match statement {
        Statement::Say(text) => one(text.bytes().len() + 2),
        Statement::Nl => one(2),
        Statement::Field(field) => one(named(b"field", field, b"", &None)),
        Statement::Key => one(3),
        Statement::If { field, body } => enclosed(named(b"if", field, b"", &None), body.items()),
        Statement::Each {
            kind,
            by,
            order,
            body,
        } => enclosed(each(kind, by, order), body.items()),
        Statement::Embed { template, via } => one(named(b"embed", template, b"via", via)),
        Statement::Link {
            template,
            via,
            body,
        } => enclosed(named(b"link", template, b"via", via), body.items()),
    }
}

/// The measure of the canonical lines of these statements. It walks them.
#[cycle(measures)]
pub(crate) fn body_measure(body: &[Statement]) -> Measure
    ensures { result ≡ measure_of (body_text body.now) }
{
    let mut found = Measure {
        lines: 0,
        longest: 0,
        length: 0,
    };
    for statement in body {
        found = joined(found, statement_measure(statement));
    }
    found
}
