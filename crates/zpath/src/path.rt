//! Paths: parsing, parents and children, order and display.
//!
//! # Why
//! A path is made once and then shared, also between threads, so a copy only counts one more owner.
//! A parent is the same list with one name less. No parent is ever stored, so it can't hold a long
//! list.

ghost use Rattle.std.specs.Prelude.{◌≡◌, ◌≢◌, ◌≤◌, ◌⊎◌, ◌++◌, ℕ, length, take, true, false, List, [], ◌∷◌, Some, None, IfOk, IfErr, IfSome, IfNone, OnOk, refl, nat_eq};
ghost use Rattle.std.specs.Cmp;
ghost use Rattle.std.specs.Cmp.Lexicographic.{pointwise, bytes_decides, nat_list_cmp_total, nat_list_eq_equiv, texts_ties, lists_total, lists_equiv, lists_ties};
ghost use Rattle.std.specs.Hash as fed;
ghost use Rattle.std.specs.Hash.{items_Alike, same_Alike};
ghost use Rattle.zpath.specs.Grammar.{name_cmp, path_cmp};
ghost use Rattle.zpath.specs.Faults.{fault_of, child_fault, IsMemoryOr};
ghost use Rattle.zpath.specs.Numbered.{numbered_path, is_over, numbered_fault, IsMemoryOrOver};

use crate::fault::PathFault;
use crate::list::NameList;
use crate::name::Name;
use crate::{numbered, quick, scan};
use arrayvec::ArrayVec;
use std::alloc::{AllocError, Global};
use std::cmp::Ordering;
use std::fmt;
use std::hash::{Hash, Hasher};
use std::marker::Model;
use std::sync::Arc;
use zalloc::Memory;

/// An absolute path: the names from the root down.
///
/// Paths are ordered name by name, so a path comes directly before its descendants.
// Copies share one list of names, and an ancestor shows a prefix of it. The root has no list.
#[derive(Debug, Drop)]
pub struct Path {
    list: Option<Arc<NameList>>,
    depth: usize,
}

impl Model for Path {
    ghost use Rattle.std.specs.Prelude.{ℕ, List, take};
    ghost use Rattle.zpath.specs.support.Shared.{listed, ShowsPath};

    ghost Value = { List (List ℕ) };

    ghost view = { λ path. take path.depth (listed path.list) };

    ghost invariant = { λ path. ShowsPath path.depth (listed path.list) };
}

impl Path {
    ghost use Rattle.zpath.specs.Grammar.{IsPath, IsTextOfPath, text_of, EndsWith, IsFrontOf};
    ghost use Rattle.zpath.specs.support.Lists.{items_of};

    /// Returns the root, which has no names. Allocates nothing.
    pub fn root() -> Path
        ensures { result ≡ [] }
    {
        Path {
            list: None,
            depth: 0,
        }
    }

    /// Parses a text: returns its path, the text's first fault, or `Memory`.
    pub fn parse(alloc: Global, text: &str) -> Result<Path, PathFault>
        ensures found { IfOk result (λ path. IsPath path × (text.now ≡ text_of path)) }
        // The text of a path is refused only for out of memory.
        ensures only { IfErr result (λ fault. IsTextOfPath text.now → fault ≡ PathFault.Memory) }
        ensures fault { IfErr result (IsMemoryOr (fault_of text.now)) }
    {
        let mut lens = ArrayVec::new();
        if let Some(rest) = quick::plain_rest(text, &mut lens) {
            let names = quick::names_by(alloc, rest, &lens)?;
            return Ok(Path::of(alloc, names)?);
        }
        let rest = scan::faultless_rest(text)?;
        if rest.is_empty() {
            return Ok(Path::root());
        }
        let names = scan::names_after(alloc, rest)?;
        Ok(Path::of(alloc, names)?)
    }

    /// Returns the names from the root down.
    pub fn names(&self) -> &[Name]
        ensures names { result.now ≡ self.now }
        ensures path { IsPath self.now }
    {
        match &self.list {
            Some(list) => &list.as_slice()[..self.depth],
            None => &[],
        }
    }

    /// An invariant of every path: its names are a path's. The function does nothing.
    pub fn keeps_its_form(&self)
        ensures { IsPath self.now }
    {
        let _ = self.names();
    }

    /// Returns the last name, or `None` at the root.
    pub fn name(&self) -> Option<&Name>
        ensures root { IfNone result (self.now ≡ []) }
        ensures last { IfSome result (λ name. EndsWith self.now name.now) }
    {
        self.names().last()
    }

    /// Returns the path without its last name, or `None` at the root.
    pub fn parent(&self) -> Result<Option<Path>, Memory>
        ensures root { IfOk result (λ parent. IfNone parent (self.now ≡ [])) }
        ensures path { IsPath self.now }
        ensures front { IfOk result (λ parent. IfSome parent (IsFrontOf self.now)) }
    {
        if self.depth == 0 {
            return Ok(None);
        }
        Ok(Some(self.front(self.depth - 1)?))
    }

    /// Returns the path extended by one name. Fails if it would be too long, too deep or reserved,
    /// or if memory runs out.
    pub fn child(&self, alloc: Global, name: &Name) -> Result<Path, PathFault>
        ensures child { IfOk result (λ child. IsPath child × (child ≡ self.now ++ name.now ∷ [])) }
        ensures only { OnOk result (child_fault self.now name.now ≡ None) }
        ensures fault { IfErr result (IsMemoryOr (child_fault self.now name.now)) }
    {
        if let Some(fault) = scan::child_fault(self.names(), name) {
            return Err(fault);
        }
        name.keeps_its_form();
        let last = name.clone()?;
        let names = NameList::with_last(alloc, self.names(), last)?;
        Ok(Path::of(alloc, names)?)
    }

    /// Returns the path with a counter appended to its last name, as `COUNTER_DIGITS` digits. This
    /// names a sequential node: "n-" and 1 give "n-0000000001" (ZooKeeper Programmer's Guide,
    /// "Sequence Nodes -- Unique Naming"). Of a counter with more digits only the last ones are
    /// taken.
    ///
    /// Fails with `NameTooLong` or `PathTooLong` if the result would be over a limit, or with
    /// `Memory`.
    pub fn numbered(&self, alloc: Global, counter: u64) -> Result<Path, PathFault>
        requires below_root { self.now ≢ [] }
        ensures numbered { IfOk result (λ path.
            IsPath path × (path ≡ numbered_path self.now counter)) }
        ensures fits { OnOk result (numbered_fault self.now counter ≡ None) }
        ensures within { OnOk result (is_over (numbered_path self.now counter) ≡ false) }
        ensures fault { IfErr result (IsMemoryOr (numbered_fault self.now counter)) }
        ensures over { IfErr result (IsMemoryOrOver self.now counter) }
    {
        let Some((last, front)) = self.names().split_last() else {
            unreachable!()
        };
        if let Some(fault) = numbered::numbered_fault(front, last) {
            return Err(fault);
        }
        let name = last.numbered(alloc, counter)?;
        let names = NameList::with_last(alloc, front, name)?;
        Ok(Path::of(alloc, names)?)
    }

    // Makes the path with a list's names.
    fn of(alloc: Global, names: NameList) -> Result<Path, Memory>
        requires { IsPath (items_of names) }
        ensures { IfOk result (λ path. IsPath path × (path ≡ items_of names)) }
    {
        let depth = names.as_slice().len();
        let list = Arc::new(alloc, names)?;
        Ok(Path {
            list: Some(list),
            depth,
        })
    }

    // Shares the list, and shows the first `depth` names of the path.
    fn front(&self, depth: usize) -> Result<Path, AllocError>
        requires { depth ≤ length self.now }
        ensures { IfOk result (λ front. front ≡ take depth self.now) }
    {
        let list = match &self.list {
            Some(list) if depth > 0 => Some(Arc::try_clone(list)?),
            _ => None,
        };
        Ok(Path { list, depth })
    }
}

impl Clone for Path {
    ghost is_clone = { λ path copy. copy ≡ path };

    fn clone(&self) -> Result<Self, AllocError> {
        self.front(self.depth)
    }
}

impl fmt::Display for Path {
    ghost use Rattle.zpath.specs.Grammar.{text_of};

    ghost output = { λ path. Some (text_of path) };

    fn fmt<W: fmt::Write>(&self, f: &mut fmt::Formatter<W>) -> fmt::Result {
        if self.depth == 0 {
            return f.write_str("/");
        }
        for name in self.names() {
            write!(f, "/{name}")?;
        }
        Ok(())
    }
}

impl PartialEq for Path {
    ghost eq = { pointwise (pointwise nat_eq) };

    ghost laws = { Cmp.partial_equiv_from_equiv (lists_equiv nat_list_eq_equiv) };

    fn eq(&self, other: &Path) -> bool {
        self.names() == other.names()
    }
}

impl Eq for Path {
    ghost laws = { lists_equiv nat_list_eq_equiv };
}

// A path hashes as its names: how many there are, then each name.
impl Hash for Path {
    ghost hash_input = { fed.slice fed.str };

    ghost respects_eq = { (items_Alike (same_Alike fed.str bytes_decides)).fed };

    fn hash<H: Hasher>(&self, state: &mut H) {
        self.names().hash(state);
    }
}

impl PartialOrd for Path {
    ghost partial_cmp = { λ left right. Some (path_cmp left right) };

    ghost laws = { Cmp.po (lists_total nat_list_cmp_total) (lists_ties name_cmp texts_ties) };

    fn partial_cmp(&self, other: &Path) -> Option<Ordering> {
        Some(self.cmp(other))
    }
}

impl Ord for Path {
    ghost cmp = { path_cmp };

    ghost total = { lists_total nat_list_cmp_total };

    ghost matches_partial_cmp = { λ left right. refl };

    ghost matches_eq = { lists_ties name_cmp texts_ties };

    fn cmp(&self, other: &Path) -> Ordering {
        self.names().cmp(other.names())
    }
}
