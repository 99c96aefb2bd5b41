// Texts of statements, and prefixes of families.
ghost use Rattle.std.specs.Prelude.{◌≡◌, ◌↔◌, ◌≤◌, IsTrue, IfOk, IsSome, IfSome, length, IsUtf8};
ghost use Rattle.std.specs.List.{list_all};
ghost use Rattle.dup_template.specs.Texts.{is_line_byte as line_byte_grammar, is_plain as plain_grammar};
ghost use Rattle.dup_template.specs.Texts.{is_prefix as prefix_grammar};
ghost use Rattle.dup_names.specs.Grammar.{is_path as path_grammar};

use dup_names::{Bytes, MAX_PREFIX_BYTES, MAX_TEXT_BYTES, NoMemory, Path};
use std::alloc::Global;
use std::marker::Model;
use std::str;

/// UTF-8 of 1 to 4,096 bytes without the bytes 10 and 13.
#[derive(Debug, Drop, PartialEq, Eq)]
pub struct Plain {
    bytes: Bytes,
}

impl Model for Plain {
    ghost use Rattle.std.specs.Prelude.{List, ℕ, IsUtf8, IsTrue};
    ghost use Rattle.dup_template.specs.Texts.{is_plain};

    ghost Value = { List ℕ };

    ghost view = { λ t. t.bytes };

    ghost invariant = { λ t. IsTrue (is_plain t.bytes) × ∥ IsUtf8 t.bytes ∥₁ };

    ghost inverse = { λ xs. record { bytes = xs } };
}

fn is_line_byte(byte: u8) -> bool
    ensures { result ≡ line_byte_grammar byte }
{
    byte != b'\n' && byte != b'\r'
}

fn are_line_bytes(bytes: &[u8]) -> bool
    ensures { result ≡ list_all line_byte_grammar bytes.now }
{
    bytes.iter().all(|byte| is_line_byte(*byte))
}

fn is_plain(bytes: &[u8]) -> bool
    ensures { result ≡ plain_grammar bytes.now }
{
    1 <= bytes.len() && are_line_bytes(bytes) && bytes.len() <= MAX_TEXT_BYTES
}

impl Plain {
    pub fn read(alloc: Global, bytes: &[u8]) -> Result<Option<Plain>, NoMemory>
        ensures some { IfOk result (λ read.
            IsSome read ↔ (IsTrue (plain_grammar bytes.now) × IsUtf8 bytes.now)) }
        ensures value { IfOk result (λ read. IfSome read (λ text. text ≡ bytes.now)) }
    {
        if !is_plain(bytes) || str::from_utf8(bytes).is_err() {
            return Ok(None);
        }
        let bytes = Bytes::of(alloc, Vec::from_slice(alloc, bytes)?)?;
        Ok(Some(Plain { bytes }))
    }

    pub fn bytes(&self) -> &[u8]
        ensures value { result.now ≡ self.now }
        ensures valid { IsTrue (plain_grammar self.now) }
        ensures utf8 { IsUtf8 self.now }
    {
        self.bytes.bytes()
    }
}

/// A path of 2 to 120 bytes.
#[derive(Clone, Copy, Debug, PartialEq, Eq)]
pub struct Prefix {
    path: Path,
}

impl Model for Prefix {
    ghost use Rattle.std.specs.Prelude.{List, ℕ, IsTrue};
    ghost use Rattle.dup_template.specs.Texts.{is_prefix};

    ghost Value = { List ℕ };

    ghost view = { λ n. n.path };

    ghost invariant = { λ n. IsTrue (is_prefix n.path) };

    ghost inverse = { λ xs. record { path = xs } };
}

impl Prefix {
    pub fn read(path: Path) -> Option<Prefix>
        ensures some { IsSome result ↔ IsTrue (prefix_grammar path) }
        ensures value { IfSome result (λ prefix. prefix ≡ path) }
    {
        let len = path.bytes().len();
        if len < 2 || MAX_PREFIX_BYTES < len {
            return None;
        }
        Some(Prefix { path })
    }

    pub fn bytes(&self) -> &[u8]
        ensures value { result.now ≡ self.now }
        ensures valid { IsTrue (prefix_grammar self.now) }
    {
        self.path.bytes()
    }

    pub fn path(&self) -> Path
        ensures { result ≡ self.now }
    {
        self.path
    }
}
