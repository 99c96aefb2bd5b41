// When two bodies are the same.
ghost use Rattle.std.specs.Prelude.{◌≡◌, ◌&&◌};
ghost use Rattle.dup_names.specs.Words.{same};
ghost use Rattle.dup_template.specs.SameBody.{same_body as bodies, same_name, same_statement as statements};

use crate::statement::Statement;
use dup_names::Name;

fn same_marked(a: &Name, b: &Name, via: &Option<Name>, through: &Option<Name>) -> bool
    ensures { result ≡ (same a.now b.now && same_name via.now through.now) }
{
    a == b && via == through
}

fn same_each(
    a: &Name,
    b: &Name,
    by: &Option<Name>,
    group: &Option<Name>,
    order: &Option<Name>,
    sorted: &Option<Name>,
) -> bool
    ensures { result
        ≡ (same a.now b.now && (same_name by.now group.now && same_name order.now sorted.now)) }
{
    a == b && by == group && order == sorted
}

#[tactic(auto, using(crate::specs::SameStatement::same_If, crate::specs::SameStatement::same_Each, crate::specs::SameStatement::same_Link))]
#[cycle(same)]
pub(crate) fn same_statement(a: &Statement, b: &Statement) -> bool
    ensures { result ≡ statements a.now b.now }
{
    match a {
        Statement::Say(text) => match b {
            Statement::Say(other) => text == other,
            _ => false,
        },
        Statement::Nl => match b {
            Statement::Nl => true,
            _ => false,
        },
        Statement::Field(field) => match b {
            Statement::Field(other) => field == other,
            _ => false,
        },
        Statement::Key => match b {
            Statement::Key => true,
            _ => false,
        },
        Statement::If { field, body } => match b {
            Statement::If {
                field: other,
                body: behind,
            } => field == other && same_body(body.items(), behind.items()),
            _ => false,
        },
        Statement::Each {
            kind,
            by,
            order,
            body,
        } => match b {
            Statement::Each {
                kind: other,
                by: group,
                order: sorted,
                body: behind,
            } => {
                same_each(kind, other, by, group, order, sorted)
                    && same_body(body.items(), behind.items())
            }
            _ => false,
        },
        Statement::Embed { template, via } => match b {
            Statement::Embed {
                template: other,
                via: through,
            } => same_marked(template, other, via, through),
            _ => false,
        },
        Statement::Link {
            template,
            via,
            body,
        } => match b {
            Statement::Link {
                template: other,
                via: through,
                body: behind,
            } => same_marked(template, other, via, through)
                && same_body(body.items(), behind.items()),
            _ => false,
        },
    }
}

#[cycle(same)]
pub(crate) fn same_body(a: &[Statement], b: &[Statement]) -> bool
    ensures { result ≡ bodies a.now b.now }
{
    if a.len() != b.len() {
        return false;
    }
    for i in 0..a.len() {
        if !same_statement(&a[i], &b[i]) {
            return false;
        }
    }
    true
}
