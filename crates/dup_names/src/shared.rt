// Bytes and texts, which are shared.
ghost use Rattle.std.specs.Prelude.{◌≡◌, ◌↔◌, ◌≤◌, IfOk, IsSome, IfSome, length, IsUtf8, nat_eq};
ghost use Rattle.dup_names.specs.declared.limits.TheConstants.{MAX_TEXT_BYTES};
ghost use Rattle.std.specs.Cmp.{partial_equiv_from_equiv};
ghost use Rattle.std.specs.Cmp.Lexicographic.{pointwise, nat_list_eq_equiv};

use crate::limits::MAX_TEXT_BYTES;
use crate::no_memory::NoMemory;
use std::alloc::Global;
use std::marker::Model;
use std::str;
use std::sync::Arc;

/// A shared string of bytes, of any length.
#[derive(Debug, Drop)]
pub struct Bytes {
    bytes: Arc<Vec<u8>, Global>,
}

impl Model for Bytes {
    ghost use Rattle.std.specs.Prelude.{List, ℕ};

    ghost Value = { List ℕ };

    ghost view = { λ t. t.bytes.value.items };
}

impl Bytes {
    /// Shares these bytes, which aren't copied.
    pub fn of(alloc: Global, bytes: Vec<u8>) -> Result<Bytes, NoMemory>
        ensures { IfOk result (λ made. made ≡ bytes.items) }
    {
        let bytes = Arc::new(alloc, bytes)?;
        Ok(Bytes { bytes })
    }

    /// The bytes.
    pub fn bytes(&self) -> &[u8]
        ensures { result.now ≡ self.now }
    {
        self.bytes.as_slice()
    }

    /// One more owner of the same bytes, which aren't copied.
    pub fn share(&self) -> Result<Bytes, NoMemory>
        ensures { IfOk result (λ made. made ≡ self.now) }
    {
        let bytes = Arc::try_clone(&self.bytes)?;
        Ok(Bytes { bytes })
    }
}

impl PartialEq for Bytes {
    ghost eq = { pointwise nat_eq };

    ghost laws = { partial_equiv_from_equiv nat_list_eq_equiv };

    fn eq(&self, other: &Bytes) -> bool {
        self.bytes() == other.bytes()
    }
}

impl Eq for Bytes {
    ghost laws = { nat_list_eq_equiv };
}

/// A shared text: UTF-8 of at most 4,096 bytes.
#[derive(Debug, Drop, PartialEq, Eq)]
pub struct Text {
    bytes: Bytes,
}

impl Model for Text {
    ghost use Rattle.std.specs.Prelude.{List, ℕ, IsUtf8, ◌≤◌, length};
    ghost use Rattle.dup_names.specs.declared.limits.TheConstants.{MAX_TEXT_BYTES};

    ghost Value = { List ℕ };

    ghost view = { λ t. t.bytes };

    ghost invariant = { λ t. (length t.bytes ≤ MAX_TEXT_BYTES) × ∥ IsUtf8 t.bytes ∥₁ };

    ghost inverse = { λ xs. record { bytes = xs } };
}

impl Text {
    /// The text of these bytes, which are copied, or `None` where they are none.
    pub fn read(alloc: Global, bytes: &[u8]) -> Result<Option<Text>, NoMemory>
        ensures some { IfOk result (λ read.
            IsSome read ↔ ((length bytes.now ≤ MAX_TEXT_BYTES) × IsUtf8 bytes.now)) }
        ensures value { IfOk result (λ read. IfSome read (λ text. text ≡ bytes.now)) }
    {
        if bytes.len() > MAX_TEXT_BYTES || str::from_utf8(bytes).is_err() {
            return Ok(None);
        }
        let bytes = Bytes::of(alloc, Vec::from_slice(alloc, bytes)?)?;
        Ok(Some(Text { bytes }))
    }

    /// The bytes.
    pub fn bytes(&self) -> &[u8]
        ensures value { result.now ≡ self.now }
        ensures fits { length self.now ≤ MAX_TEXT_BYTES }
        ensures utf8 { IsUtf8 self.now }
    {
        self.bytes.bytes()
    }

    /// One more owner of the same text, which isn't copied.
    pub fn share(&self) -> Result<Text, NoMemory>
        ensures { IfOk result (λ made. made ≡ self.now) }
    {
        let bytes = self.bytes.share()?;
        Ok(Text { bytes })
    }
}
