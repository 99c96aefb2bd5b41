// The unions of what looks use, and of where they link.
ghost use Rattle.std.specs.Prelude.{◌≡◌, ◌∷◌, ◌++◌, [], IfOk, OnOk, map};
ghost use Rattle.std.specs.List.{flat_map};
ghost use Rattle.dup_names.specs.Order.{text_cmp};
ghost use Rattle.dup_names.specs.Words.{in_order};
ghost use Rattle.dup_model.specs.JoinedLooks.{use_cmp};
ghost use Rattle.dup_join.specs.Uses.{with_uses};

use dup_names::{Bytes, Look, NoMemory, Obj, Path};
use dup_render::paths_in_order;
use std::alloc::Global;
use std::collections::BTreeMap;
use std::sync::Arc;

type Uses = BTreeMap<Obj, Bytes>;

fn put_uses(made: &mut Uses, more: &[(Obj, Bytes)]) -> Result<(), NoMemory>
    ensures { OnOk result (made.new.entries ≡ with_uses made.old.entries more.now) }
{
    for one in more {
        let Obj { template, key } = one.0;
        made.insert(Obj { template, key }, one.1.share()?)?;
    }
    Ok(())
}

// The uses of looks in a tree by their objects.
fn put_parts(made: &mut Uses, parts: &[Arc<Look, Global>]) -> Result<(), NoMemory>
    ensures { OnOk result (made.new.entries
        ≡ with_uses made.old.entries (flat_map (λ look. look.uses) (map (λ p. p.value) parts.now))) }
{
    for part in parts {
        put_uses(made, part.uses.items())?;
    }
    Ok(())
}

// An object with its bytes, and all that these looks use, in a tree by their objects.
fn uses_by_object(
    alloc: Global,
    obj: &Obj,
    bytes: &Bytes,
    parts: &[Arc<Look, Global>],
) -> Result<Uses, NoMemory>
    ensures { IfOk result (λ made. made.entries ≡ with_uses []
        ((obj.now, bytes.now) ∷ flat_map (λ look. look.uses) (map (λ p. p.value) parts.now))) }
{
    let mut made = BTreeMap::new(alloc);
    let Obj { template, key } = *obj;
    made.insert(Obj { template, key }, bytes.share()?)?;
    put_parts(&mut made, parts)?;
    Ok(made)
}

// The same uses as a list.
fn listed(alloc: Global, uses: Uses) -> Result<Vec<(Obj, Bytes)>, NoMemory>
    ensures { IfOk result (λ made. made.items ≡ uses.entries) }
{
    Ok(uses.into_iter().collect(alloc)?)
}

/// An object with its bytes, and all that these looks use, in object order, each object once.
pub(crate) fn uses_with(
    alloc: Global,
    obj: &Obj,
    bytes: &Bytes,
    parts: &[Arc<Look, Global>],
) -> Result<Vec<(Obj, Bytes)>, NoMemory>
    ensures { IfOk result (λ made. made.items ≡ in_order use_cmp
        ((obj.now, bytes.now) ∷ flat_map (λ look. look.uses) (map (λ p. p.value) parts.now))) }
{
    let made = uses_by_object(alloc, obj, bytes, parts)?;
    let made = listed(alloc, made)?;
    Ok(made)
}

/// These paths, and those where these looks link, in path order, each once.
pub(crate) fn links_with(
    alloc: Global,
    own: &[Path],
    parts: &[Arc<Look, Global>],
) -> Result<Vec<Path>, NoMemory>
    ensures { IfOk result (λ made. made.items ≡ in_order text_cmp
        (own.now ++ flat_map (λ look. look.links) (map (λ p. p.value) parts.now))) }
{
    let mut links = Vec::from_slice(alloc, own)?;
    for part in parts {
        links.extend_from_slice(part.links.items())?;
    }
    Ok(paths_in_order(links))
}
