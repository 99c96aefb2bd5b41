// What is shown.
use crate::object::Obj;
use crate::path::Path;
use crate::shared::Bytes;
use dup_lists::Listed;

/// A part of a skeleton.
#[derive(Debug, Drop, PartialEq, Eq)]
pub enum Piece {
    /// Bytes as they are shown.
    Plain(Bytes),
    /// The place of an embedded object.
    Hole(Obj),
}

/// What an object's own statements show, with a hole for each object that they embed.
#[derive(Debug, Drop, PartialEq, Eq)]
pub struct Skeleton {
    /// The parts, in the order in which they are shown.
    pub pieces: Listed<Piece>,
    /// The targets of the links, in path order, each once.
    pub links: Listed<Path>,
}

/// What an object shows, with all that it embeds.
#[derive(Debug, Drop, PartialEq, Eq)]
pub struct Look {
    /// The object.
    pub obj: Obj,
    /// What it shows.
    pub bytes: Bytes,
    /// It and all that it embeds, followed down, each with what it shows, in object order.
    pub uses: Listed<(Obj, Bytes)>,
    /// The targets of the links in all of these, in path order, each once.
    pub links: Listed<Path>,
}
