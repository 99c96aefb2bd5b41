// The current row.
use dup_names::Key;
use std::marker::Model;

/// The kind of the current row, and its key where there is a row.
#[derive(Drop)]
pub(crate) struct Here {
    pub(crate) kind: u16,
    pub(crate) key: Option<Key>,
}

impl Model for Here {
    ghost use Rattle.dup_model.specs.Here.{Here as Current, row_at};

    ghost Value = { Current };

    ghost view = { λ h. row_at h.kind h.key };
}
