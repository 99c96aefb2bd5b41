// Paths as keys of a table.
ghost use Rattle.std.specs.Prelude.{◌≡◌, nat_eq};
ghost use Rattle.std.specs.Hash as fed;
ghost use Rattle.std.specs.Hash.{items_Alike, on_Alike, same_Alike};
ghost use Rattle.std.proofs.Common.{rules};

use dup_names::Path;
use std::hash::{Hash, Hasher};

/// A path as a key of a table, hashed by its bytes.
#[derive(Clone, Copy, PartialEq, Eq)]
pub(crate) struct PathKey {
    pub(crate) path: Path,
}

impl Hash for PathKey {
    ghost use Rattle.dup_cache.specs.declared.path_key.PathKey.{PathKey as Keyed};

    ghost hash_input = { λ k. fed.slice fed.u8 k.path };

    ghost respects_eq = { (on_Alike (λ (k : Keyed). k.path)
        (items_Alike (same_Alike {E = nat_eq} fed.u8 (λ x y. Prim.search rules)))).fed };

    fn hash<H: Hasher>(&self, state: &mut H) {
        self.path.bytes().hash(state);
    }
}

impl PathKey {
    pub(crate) fn of(path: &Path) -> PathKey
        ensures { result.path ≡ path.now }
    {
        PathKey { path: *path }
    }
}
