//! The parts of a command, split into words.

use std::marker::Model;
use zcalls::{Expected, Kind};

/// A word that hasn't been read yet.
#[derive(Drop)]
pub(crate) struct Word<'a> {
    pub(crate) text: &'a str,
}

impl<'a> Model for Word<'a> {
    ghost use Rattle.std.specs.Prelude.{List, ℕ};

    ghost Value = { List ℕ };

    ghost view = { λ word. word.text.now };
}

/// A change whose shape has been tested; its path and data haven't been read yet.
#[derive(Drop)]
pub(crate) enum ChangeWords<'a> {
    /// create PATH KIND DATA
    Create(Word<'a>, Kind, Word<'a>),
    /// delete PATH VERSION
    Delete(Word<'a>, Expected),
    /// set PATH VERSION DATA
    SetData(Word<'a>, Expected, Word<'a>),
}

/// A part of a multi, in the same state.
#[derive(Drop)]
pub(crate) enum PartWords<'a> {
    /// A change.
    Change(ChangeWords<'a>),
    /// check PATH VERSION
    Check(Word<'a>, Expected),
}
