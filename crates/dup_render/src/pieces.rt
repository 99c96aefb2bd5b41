// The pieces of a skeleton.
ghost use Rattle.std.specs.Prelude.{◌≡◌, ◌++◌, [], ◌∷◌, List, IfOk, OnOk};
ghost use Rattle.dup_names.specs.declared.value.Piece.{Piece as Pieces};
ghost use Rattle.dup_model.specs.declared.mark.Mark.{Mark as Marks};
ghost use Rattle.dup_model.specs.Skeletons as skeletons;
ghost use Rattle.dup_render.specs.Pieces.{with_rest};

use dup_model::Mark;
use dup_names::{Bytes, NoMemory, Piece};
use std::alloc::Global;

// Puts the loose bytes as a piece, where there are any.
fn put_loose(alloc: Global, loose: &mut Vec<u8>, out: &mut Vec<Piece>) -> Result<(), NoMemory>
    ensures piece { OnOk result (out.new.items ≡ out.old.items ++ skeletons.before loose.old.items []) }
    ensures none { OnOk result (loose.new.items ≡ []) }
{
    if loose.is_empty() {
        return Ok(());
    }
    let bytes = Vec::from_slice(alloc, loose)?;
    out.push(Piece::Plain(Bytes::of(alloc, bytes)?))?;
    loose.clear();
    Ok(())
}

// Puts a mark: its bytes become loose, and its hole follows the bytes that are.
fn put_mark(
    alloc: Global,
    mark: &Mark,
    loose: &mut Vec<u8>,
    out: &mut Vec<Piece>,
) -> Result<(), NoMemory>
    ensures { OnOk result ((rest : List Marks) →
        with_rest out.new.items loose.new.items rest
        ≡ with_rest out.old.items loose.old.items (mark.now ∷ rest)) }
{
    match mark {
        Mark::Plain(bytes) => {
            loose.extend_from_slice(bytes.items())?;
            Ok(())
        }
        Mark::Hole(obj) => {
            put_loose(alloc, loose, out)?;
            out.push(Piece::Hole(*obj))?;
            Ok(())
        }
        Mark::Read(_) => Ok(()),
        Mark::Goes(_) => Ok(()),
    }
}

/// The pieces that marks give: bytes that stand together are one.
pub(crate) fn pieces(alloc: Global, marks: &[Mark]) -> Result<Vec<Piece>, NoMemory>
    ensures { IfOk result (λ made. made.items ≡ skeletons.pieces marks.now) }
{
    let mut loose = Vec::new(alloc);
    let mut out = Vec::new(alloc);
    for mark in marks {
        put_mark(alloc, mark, &mut loose, &mut out)?;
    }
    put_loose(alloc, &mut loose, &mut out)?;
    Ok(out)
}
