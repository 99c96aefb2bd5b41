// The numbers that names have in a site.
ghost use Rattle.std.specs.Prelude.{◌≡◌, ◌≤◌, length};
ghost use Rattle.dup_names.specs.Words.{place};
ghost use Rattle.dup_template.specs.Frame.{heads_of};
ghost use Rattle.dup_template.specs.Good.{kind_names, template_names};

use crate::site::{KindPart, TemplatePart};
use dup_names::Name;

/// The place of the kind with this name, or their number where there is none.
pub(crate) fn kind_place(kinds: &[KindPart], name: &Name) -> usize
    ensures value { result ≡ place name.now (kind_names kinds.now) }
    ensures within { result ≤ length kinds.now }
{
    for (index, kind) in kinds.iter().enumerate() {
        if kind.name == *name {
            return index;
        }
    }
    kinds.len()
}

/// The place of the template with this name, or their number where there is none.
pub(crate) fn template_place(templates: &[TemplatePart], name: &Name) -> usize
    ensures value { result ≡ place name.now (template_names (heads_of templates.now)) }
    ensures within { result ≤ length templates.now }
{
    for (index, template) in templates.iter().enumerate() {
        if template.name == *name {
            return index;
        }
    }
    templates.len()
}
