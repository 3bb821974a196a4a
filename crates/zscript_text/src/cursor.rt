//! The words of a line, one after the other.

ghost use Rattle.std.specs.Prelude.{◌≡◌, [], ◌∷◌, List, ℕ, IfSome, IfNone};
ghost use Rattle.std.specs.Bool.{OnTrue, OnFalse};
ghost use Rattle.zscript_text.specs.LineWords.{words_of};
ghost use Rattle.zscript_text.specs.support.Words.{HasWord};

use std::marker::Model;

/// The remaining words of a line.
#[derive(Drop)]
pub(crate) struct Cursor<'a> {
    left: Option<&'a str>,
}

impl<'a> Model for Cursor<'a> {
    ghost use Rattle.std.specs.Prelude.{List, ℕ};

    ghost Value = { List (List ℕ) };

    ghost use Rattle.zscript_text.specs.support.Left.{words_left};

    ghost view = { words_left };
}

impl<'a> Cursor<'a> {
    /// Returns a cursor at the first word of a line.
    pub(crate) fn new(line: &'a str) -> Cursor<'a>
        ensures { result ≡ words_of line.now }
    {
        Cursor { left: Some(line) }
    }

    /// Returns the next word, or `None` at the end.
    pub(crate) fn next(&mut self) -> Option<&'a str>
        ensures word { IfSome result (λ word. self.old ≡ word.now ∷ self.new) }
        ensures none { IfNone result ((self.old ≡ []) × (self.new ≡ [])) }
    {
        let left = self.left?;
        let bytes = left.as_bytes();
        // Words are short, so a simple loop over their bytes will do.
        let mut end = 0;
        while end < bytes.len() && bytes[end] != b' ' {
            end += 1;
        }
        if end == left.len() {
            self.left = None;
            return Some(left);
        }
        self.left = Some(&left[end + 1..]);
        Some(&left[..end])
    }

    /// Returns whether no word remains.
    pub(crate) fn is_done(&self) -> bool
        ensures done { OnTrue result (self.now ≡ []) }
        ensures more { OnFalse result (HasWord self.now) }
    {
        self.left.is_none()
    }
}
