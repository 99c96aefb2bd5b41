// Two looks beside each other.
ghost use Rattle.std.specs.Prelude.{◌≡◌, not, ◌&&◌, bytes_eq};
ghost use Rattle.std.specs.List.{list_any};
ghost use Rattle.std.specs.Option.{option_copied, option_eq, option_map};
ghost use Rattle.dup_model.specs.Needs.{clash, links, same_look};
ghost use Rattle.dup_names.specs.Objects.{same_obj};

use dup_names::{Bytes, Look, Obj, Path};
use std::alloc::Global;
use std::sync::Arc;

type Shared = Arc<Look, Global>;

// Whether these show the object with other bytes.
fn shows_otherwise(uses: &[(Obj, Bytes)], obj: &Obj, bytes: &Bytes) -> bool
    ensures { result ≡ list_any (λ y. same_obj obj.now y.0 && not (bytes_eq bytes.now y.1)) uses.now }
{
    uses.iter()
        .any(|other| *obj == other.0 && *bytes != other.1)
}

// Whether some object is shown by both, with different bytes.
fn looks_clash(a: &Look, b: &Look) -> bool
    ensures { result ≡
        list_any (λ x. list_any (λ y. same_obj x.0 y.0 && not (bytes_eq x.1 y.1)) b.now.uses) a.now.uses }
{
    a.uses
        .items()
        .iter()
        .any(|x| shows_otherwise(b.uses.items(), &x.0, &x.1))
}

/// Whether some object is shown by both, with different bytes.
pub(crate) fn clash(a: Option<&Shared>, b: Option<&Shared>) -> bool
    ensures { result ≡
        clash (option_map (λ l. l.value) (option_copied a.entry)) (option_map (λ l.
        l.value) (option_copied b.entry)) }
{
    match a {
        None => false,
        Some(a) => match b {
            None => false,
            Some(b) => looks_clash(a, b),
        },
    }
}

fn has_link(links: &[Path], path: &Path) -> bool
    ensures { result ≡ list_any (bytes_eq path.now) links.now }
{
    links.iter().any(|link| *path == *link)
}

/// Whether a page links to a path.
pub(crate) fn links(look: Option<&Shared>, path: &Path) -> bool
    ensures { result ≡ links (option_map (λ l. l.value) (option_copied look.entry)) path.now }
{
    match look {
        None => false,
        Some(look) => has_link(look.links.items(), path),
    }
}

fn is_same_look(a: &Look, b: &Look) -> bool
    ensures { result ≡ same_look a.now b.now }
{
    a.obj == b.obj && a.bytes == b.bytes && a.uses == b.uses && a.links == b.links
}

/// Whether two looks are the same, absence counted as a look.
pub(crate) fn are_same(a: Option<&Shared>, b: Option<&Shared>) -> bool
    ensures { result ≡
        option_eq same_look (option_map (λ l. l.value) (option_copied a.entry)) (option_map (λ l.
        l.value) (option_copied b.entry)) }
{
    match a {
        None => b.is_none(),
        Some(a) => match b {
            None => false,
            Some(b) => is_same_look(a, b),
        },
    }
}
