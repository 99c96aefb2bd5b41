// Texts of few bytes, which lie in the value itself.
ghost use Rattle.std.specs.Prelude.{◌≡◌, ◌≤◌, Some, length, refl, nat_eq};
ghost use Rattle.std.specs.Ordering.{nat_cmp};
ghost use Rattle.std.specs.Cmp.{partial_equiv_from_equiv};
ghost use Rattle.std.specs.Hash as fed;
ghost use Rattle.std.specs.Hash.{items_Alike, same_Alike};
ghost use Rattle.std.proofs.Common.{rules};
ghost use Rattle.std.specs.Cmp.Lexicographic.{pointwise, slice_cmp, nat_list_eq_equiv};
ghost use Rattle.std.specs.Cmp.Lexicographic.{nat_list_cmp_total, texts_po, texts_ties};

use std::cmp::Ordering;
use std::fmt::{self, Debug, Display, Formatter, Write};
use std::hash::{Hash, Hasher};
use std::marker::Model;
use std::str;

/// At most `N` bytes, which lie in the value itself.
#[derive(Clone, Copy)]
pub struct Short<const N: usize> {
    bytes: [u8; N],
    len: usize,
}

impl<const N: usize> Model for Short<N> {
    ghost use Rattle.std.specs.Prelude.{List, ℕ, take};

    ghost Value = { List ℕ };

    ghost use Rattle.dup_names.specs.Short.{IsKept, kept_of, kept_of-take};

    ghost view = { λ s. take s.len s.bytes };

    ghost invariant = { IsKept N };

    ghost inverse = { kept_of N };

    ghost inverse_ok = { kept_of-take N };
}

impl<const N: usize> Short<N> {
    pub fn of(bytes: &[u8]) -> Short<N>
        requires { length bytes.now ≤ N }
        ensures { result ≡ bytes.now }
    {
        let mut kept = [0; N];
        kept[..bytes.len()].copy_from_slice(bytes);
        Short {
            bytes: kept,
            len: bytes.len(),
        }
    }

    pub fn as_slice(&self) -> &[u8]
        ensures value { result.now ≡ self.now }
        ensures fits { length self.now ≤ N }
    {
        &self.bytes[..self.len]
    }
}

impl<const N: usize> Display for Short<N> {
    fn fmt<W: Write>(&self, f: &mut Formatter<W>) -> fmt::Result {
        match str::from_utf8(self.as_slice()) {
            Ok(text) => write!(f, "{text}"),
            Err(_) => write!(f, "{:?}", self.as_slice()),
        }
    }
}

impl<const N: usize> Debug for Short<N> {
    fn fmt<W: Write>(&self, f: &mut Formatter<W>) -> fmt::Result {
        write!(f, "{self}")
    }
}

impl<const N: usize> PartialEq for Short<N> {
    ghost eq = { pointwise nat_eq };

    ghost laws = { partial_equiv_from_equiv nat_list_eq_equiv };

    fn eq(&self, other: &Short<N>) -> bool {
        self.as_slice() == other.as_slice()
    }
}

impl<const N: usize> Eq for Short<N> {
    ghost laws = { nat_list_eq_equiv };
}

impl<const N: usize> Hash for Short<N> {
    ghost hash_input = { fed.slice fed.u8 };

    ghost respects_eq = { (items_Alike (same_Alike {E = nat_eq} fed.u8 (λ x y. Prim.search rules))).fed };

    fn hash<H: Hasher>(&self, state: &mut H) {
        self.as_slice().hash(state);
    }
}

impl<const N: usize> PartialOrd for Short<N> {
    ghost partial_cmp = { λ a b. Some (slice_cmp nat_cmp a b) };

    ghost laws = { texts_po };

    fn partial_cmp(&self, other: &Short<N>) -> Option<Ordering> {
        Some(self.cmp(other))
    }
}

impl<const N: usize> Ord for Short<N> {
    ghost cmp = { slice_cmp nat_cmp };

    ghost total = { nat_list_cmp_total };

    ghost matches_partial_cmp = { λ a b. refl };

    ghost matches_eq = { texts_ties };

    fn cmp(&self, other: &Short<N>) -> Ordering {
        self.as_slice().cmp(other.as_slice())
    }
}
