// The path of an object's page, and the object of a path.
ghost use Rattle.std.specs.Prelude.{◌≡◌, Some, ◌++◌, ◌∷◌, ◌+◌, IfSome, length, IsTrue};
ghost use Rattle.std.specs.Option.{option_copied, option_map};
ghost use Rattle.dup_template.specs.Paths as paths;
ghost use Rattle.dup_names.specs.Grammar.{is_path as path_grammar};

use crate::check::{behind, shown_by};
use crate::plain::Prefix;
use crate::site::{PageRule, Parts, Site};
use dup_names::{Key, Name, Obj, Path};

fn rule_of<'a>(rules: &'a [PageRule], name: &Name) -> Option<&'a PageRule>
    ensures { option_copied result ≡ paths.rule_of rules.now name.now }
{
    for rule in rules {
        if shown_by(rule) == *name {
            return Some(rule);
        }
    }
    None
}

fn fill(out: &mut [u8], front: &[u8], last: &[u8])
    requires { length out.old ≡ length front.now + 1 + length last.now }
    ensures { out.new ≡ front.now ++ 47 ∷ last.now }
{
    let (start, rest) = out.split_at_mut(front.len());
    start.copy_from_slice(front);
    let (slash, end) = rest.split_at_mut(1);
    slash[0] = b'/';
    end.copy_from_slice(last);
}

fn read_known(bytes: &[u8]) -> Option<Path>
    requires { IsTrue (path_grammar bytes.now) }
    ensures { result ≡ Some bytes.now }
{
    Path::read(bytes)
}

/// The path of a family's page.
fn joined(prefix: &Prefix, key: &Key) -> Option<Path>
    ensures { result ≡ Some (prefix.now ++ 47 ∷ key.now) }
{
    let front = prefix.bytes();
    let last = key.bytes();
    let mut bytes = [0; 169];
    let end = front.len() + 1 + last.len();
    fill(&mut bytes[..end], front, last);
    read_known(&bytes[..end])
}

/// The path of the page that a family has for the row under a key.
pub fn row_path(prefix: &Prefix, key: &Key) -> Path
    ensures { result ≡ prefix.now ++ 47 ∷ key.now }
{
    joined(prefix, key).unwrap()
}

fn path_by(rule: &PageRule, key: &Option<Key>) -> Option<Path>
    ensures { result ≡ paths.path_by (Some rule.now) key.now }
{
    match rule {
        PageRule::Fixed { path, template: _ } => match key {
            None => Some(*path),
            Some(_) => None,
        },
        PageRule::Family {
            prefix,
            template: _,
        } => match key {
            None => None,
            Some(key) => joined(prefix, key),
        },
    }
}

fn find_path(site: &Parts, obj: &Obj) -> Option<Path>
    ensures { result ≡ paths.path_at site.now obj.now }
{
    match site.templates.items().get(usize::from(obj.template)) {
        None => None,
        Some(template) => match rule_of(site.pages.items(), &template.name) {
            None => None,
            Some(rule) => path_by(rule, &obj.key),
        },
    }
}

// That a key is in its grammar is a fact of its type, which a proof learns by a call on the key: the path
// that is made of it is told back as this very object. It costs nothing that grows.
fn key_known(key: &Option<Key>)
    ensures { paths.KeyOk key.now }
{
    match key {
        None => {}
        Some(key) => {
            key.bytes();
        }
    }
}

/// The path of an object's page.
pub fn path_of(site: &Site, obj: &Obj) -> Option<Path>
    ensures value { result ≡ paths.path_at site.now obj.now }
    ensures back { IfSome result (λ path. paths.obj_at site.now path ≡ Some obj.now) }
{
    key_known(&obj.key);
    find_path(site.parts(), obj)
}

/// The path of a template's page, by the template's name: without key of a fixed page, with one of
/// a family's. It takes no memory.
pub fn page_path(site: &Site, template: &Name, key: &Option<Key>) -> Option<Path>
    ensures { result ≡ paths.path_by (paths.rule_of site.now.pages template.now) key.now }
{
    match rule_of(site.page_rules(), template) {
        None => None,
        Some(rule) => path_by(rule, key),
    }
}

fn keyed(of: &Name, rest: &[u8]) -> Option<(Name, Option<Key>)>
    ensures { result ≡ paths.keyed of.now (Some rest.now) }
{
    match rest {
        [b'/', key @ ..] => match Key::read(key) {
            None => None,
            Some(key) => Some((*of, Some(key))),
        },
        _ => None,
    }
}

fn shown_at(path: &Path, rule: &PageRule) -> Option<(Name, Option<Key>)>
    ensures { result ≡ paths.shown_at path.now rule.now }
{
    match rule {
        PageRule::Fixed { path: p, template } => {
            if p == path {
                Some((*template, None))
            } else {
                None
            }
        }
        PageRule::Family { prefix, template } => match behind(prefix, path.bytes()) {
            None => None,
            Some(rest) => keyed(template, rest),
        },
    }
}

fn first_shown(path: &Path, rules: &[PageRule]) -> Option<(Name, Option<Key>)>
    ensures { result ≡ paths.first_shown path.now rules.now }
{
    for rule in rules {
        let shown = shown_at(path, rule);
        if shown.is_some() {
            return shown;
        }
    }
    None
}

/// The object whose page is at a path; its row may be absent.
pub fn obj_of(site: &Site, path: &Path) -> Option<Obj>
    ensures { result ≡ paths.obj_at site.now path.now }
{
    match first_shown(path, site.page_rules()) {
        None => None,
        Some((name, key)) => {
            let template = site.template_number(&name);
            Some(Obj { template, key })
        }
    }
}
