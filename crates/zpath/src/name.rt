//! One name of a path.

ghost use Rattle.std.specs.Prelude.{◌≡◌, ◌≤◌, ◌+◌, ◌++◌, length, Some, IfOk, refl, nat_eq};
ghost use Rattle.std.specs.Cmp;
ghost use Rattle.std.specs.Cmp.Lexicographic.{pointwise, bytes_decides, nat_list_cmp_total, nat_list_eq_equiv, texts_po, texts_ties};
ghost use Rattle.std.specs.Hash as fed;
ghost use mathlib.Core.Path.{ap};
ghost use Rattle.zpath.specs.Grammar.{name_cmp};
ghost use Rattle.zpath.specs.Numbered.{digits};
ghost use Rattle.zpath.specs.declared.limits.TheConstants.{COUNTER_DIGITS, MAX_NAME_LEN};

use crate::limits::COUNTER_DIGITS;
use crate::numbered::push_digits;
use crate::text::Text;
use arrayvec::ArrayString;
use std::alloc::{AllocError, Global};
use std::cmp::Ordering;
use std::fmt;
use std::hash::{Hash, Hasher};
use std::marker::Model;
use zalloc::Memory;

/// A name: 1 to `MAX_NAME_LEN` visible bytes without a slash, and neither `.` nor `..`.
///
/// A caller gets names from a parsed path. Names are ordered by their bytes.
#[derive(Debug, Drop)]
pub struct Name {
    text: Text,
}

impl Model for Name {
    ghost use Rattle.std.specs.Prelude.{ℕ, List};
    ghost use Rattle.zpath.specs.Grammar.{IsName};
    ghost use Rattle.zpath.specs.support.Texts.{bytes_of};

    ghost Value = { List ℕ };

    ghost view = { λ name. bytes_of name.text };

    ghost invariant = { λ name. IsName (bytes_of name.text) };
}

impl Name {
    ghost use Rattle.zpath.specs.Grammar.{IsName};

    /// Makes the name with this text.
    pub(crate) fn from_text(alloc: Global, text: &str) -> Result<Name, Memory>
        requires { IsName text.now }
        ensures { IfOk result (λ name. name ≡ text.now) }
    {
        Ok(Name {
            text: Text::from_str(alloc, text)?,
        })
    }

    /// Returns the name with a counter's digits appended.
    pub(crate) fn numbered(&self, alloc: Global, counter: u64) -> Result<Name, Memory>
        requires { length self.now + COUNTER_DIGITS ≤ MAX_NAME_LEN }
        ensures { IfOk result (λ name. name ≡ self.now ++ digits COUNTER_DIGITS counter) }
    {
        let mut digits = ArrayString::new();
        push_digits(&mut digits, COUNTER_DIGITS, counter);
        Ok(Name {
            text: Text::joined(alloc, self.as_str(), digits.as_str())?,
        })
    }

    /// Returns the name's text.
    pub fn as_str(&self) -> &str
        ensures text { result.now ≡ self.now }
        ensures name { IsName self.now }
    {
        self.text.as_str()
    }

    /// An invariant of every name: its bytes are a name's. The function does nothing.
    pub(crate) fn keeps_its_form(&self)
        ensures { IsName self.now }
    {
        let _ = &self.text;
    }
}

impl fmt::Display for Name {
    ghost output = { λ name. Some name };

    fn fmt<W: fmt::Write>(&self, f: &mut fmt::Formatter<W>) -> fmt::Result {
        f.write_str(self.as_str())
    }
}

impl Clone for Name {
    ghost is_clone = { λ name copy. copy ≡ name };

    fn clone(&self) -> Result<Self, AllocError> {
        Ok(Name {
            text: self.text.clone()?,
        })
    }
}

impl PartialEq for Name {
    ghost eq = { pointwise nat_eq };

    ghost laws = { Cmp.partial_equiv_from_equiv nat_list_eq_equiv };

    fn eq(&self, other: &Name) -> bool {
        self.as_str() == other.as_str()
    }
}

impl Eq for Name {
    ghost laws = { nat_list_eq_equiv };
}

// A name hashes as its text.
impl Hash for Name {
    ghost hash_input = { fed.str };

    ghost respects_eq = { λ left right equal. ap fed.str ((bytes_decides left right).0 equal) };

    fn hash<H: Hasher>(&self, state: &mut H) {
        self.as_str().hash(state);
    }
}

impl PartialOrd for Name {
    ghost partial_cmp = { λ left right. Some (name_cmp left right) };

    ghost laws = { texts_po };

    fn partial_cmp(&self, other: &Name) -> Option<Ordering> {
        Some(self.cmp(other))
    }
}

impl Ord for Name {
    ghost cmp = { name_cmp };

    ghost total = { nat_list_cmp_total };

    ghost matches_partial_cmp = { λ left right. refl };

    ghost matches_eq = { texts_ties };

    fn cmp(&self, other: &Name) -> Ordering {
        self.as_str().cmp(other.as_str())
    }
}
