// What an outlet does, as proofs see it.
ghost use Rattle.logbook.specs.Pages.{Book, book_coded};

use dup_edition::{BundleRec, Edition};
use std::collections::LinkedList;
use std::marker::Model;

/// A log. No value of it is made.
pub type Log = LinkedList<BundleRec>;

/// It tries a record, or has published what it tried last. No value of it is made.
pub enum Deed {
    Try(BundleRec),
    Done,
}

/// Names a book, in proofs alone.
pub struct Which {
    none: u8,
}

impl Model for Which {
    ghost Value = { Book };

    ghost coded = { book_coded };

    ghost view = { λ _. record { number = 0; log_name = 0; cells_name = 0 } };
}

/// Deeds of a book. No value of it is made.
pub struct Story {
    pub which: Which,
    pub deeds: LinkedList<Deed>,
}
