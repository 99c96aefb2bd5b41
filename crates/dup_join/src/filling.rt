// Skeletons with their holes filled.
ghost use Rattle.std.specs.Prelude.{◌≡◌, IfOk, map};
ghost use Rattle.std.specs.List.{flat_map};
ghost use Rattle.dup_model.specs.JoinedLooks as joined;

use dup_names::{Look, NoMemory, Obj, Piece};
use std::alloc::Global;
use std::sync::Arc;

// What the first of these looks that is of an object shows, nothing where none is of it.
fn shown_in<'a>(parts: &'a [Arc<Look, Global>], obj: &Obj) -> &'a [u8]
    ensures { result.now ≡ joined.shown_in (map (λ p. p.value) parts.now) obj.now }
{
    for part in parts {
        if *obj == part.obj {
            return part.bytes.bytes();
        }
    }
    &[]
}

// What a piece shows.
fn piece_bytes<'a>(parts: &'a [Arc<Look, Global>], piece: &'a Piece) -> &'a [u8]
    ensures { result.now ≡ joined.filled (joined.shown_in (map (λ p. p.value) parts.now)) piece.now }
{
    match piece {
        Piece::Plain(bytes) => bytes.bytes(),
        Piece::Hole(obj) => shown_in(parts, obj),
    }
}

/// The bytes of pieces, where each hole is filled with what the look of its object shows.
pub(crate) fn fill(
    alloc: Global,
    pieces: &[Piece],
    parts: &[Arc<Look, Global>],
) -> Result<Vec<u8>, NoMemory>
    ensures { IfOk result (λ made. made.items
        ≡ flat_map (joined.filled (joined.shown_in (map (λ p. p.value) parts.now))) pieces.now) }
{
    let mut bytes = Vec::new(alloc);
    for piece in pieces {
        bytes.extend_from_slice(piece_bytes(parts, piece))?;
    }
    Ok(bytes)
}
