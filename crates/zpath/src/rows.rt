//! Worked examples of the definitions, as clauses: faults of texts, texts of paths, and names of
//! sequential nodes.

ghost use Rattle.std.specs.Prelude.{◌≡◌, ◌+◌, [], ◌∷◌, None, Some, codes, replicate};
ghost use Rattle.zpath.specs.declared.fault.PathFault.TheVariants.{Empty, NotAbsolute, EmptyName, DotName, BadByte, NameTooLong, PathTooLong, TooDeep, Reserved};
ghost use Rattle.zpath.specs.declared.limits.TheConstants.{MAX_NAME_LEN, MAX_TEXT_LEN, MAX_DEPTH, COUNTER_DIGITS};
ghost use Rattle.zpath.specs.declared.fault.PathFault.TheVariants as fault;
ghost use Rattle.zpath.specs.Faults.{fault_of, child_fault, fault_name};
ghost use Rattle.zpath.specs.Grammar.{text_of};
ghost use Rattle.zpath.specs.Numbered.{numbered_path};

/// The first fault of a text.
#[tactic(auto, unfolding(crate::specs::Faults::fault_of))]
pub fn faults_of_texts()
    ensures empty { fault_of (codes "") ≡ Some Empty }
    ensures relative { fault_of (codes "a") ≡ Some NotAbsolute }
    ensures double_slash { fault_of (codes "/a//b") ≡ Some EmptyName }
    ensures last_slash { fault_of (codes "/a/") ≡ Some EmptyName }
    ensures first_fault { fault_of (codes "/../") ≡ Some EmptyName }
    ensures dots { fault_of (codes "/..") ≡ Some DotName }
    ensures space { fault_of (codes "/a b") ≡ Some BadByte }
    ensures reserved { fault_of (codes "/zookeeper/x") ≡ Some Reserved }
    ensures root { fault_of (codes "/") ≡ None }
    ensures path { fault_of (codes "/a/zookeeper") ≡ None }
{}

/// For each two neighbours in the order of faults: a text with both has the first one.
#[tactic(auto, unfolding(crate::specs::Faults::fault_of))]
pub fn first_faults()
    ensures empty { fault_of (codes "") ≡ Some Empty }
    ensures relative { fault_of (codes "a//b") ≡ Some NotAbsolute }
    ensures empty_name { fault_of (codes "/..//b") ≡ Some EmptyName }
    ensures dots { fault_of (codes "/a b/..") ≡ Some DotName }
    ensures bad_byte { fault_of (47 ∷ 32 ∷ replicate MAX_NAME_LEN 97) ≡ Some BadByte }
    ensures long_name { fault_of (47 ∷ replicate (MAX_TEXT_LEN + 1) 97) ≡ Some NameTooLong }
    ensures long_text { fault_of (text_of (replicate 600 (codes "a"))) ≡ Some PathTooLong }
    ensures deep { fault_of (text_of (codes "zookeeper" ∷ replicate 64 (97 ∷ []))) ≡ Some TooDeep }
{}

/// The fault of a path extended by one name.
#[tactic(auto, unfolding(crate::specs::Faults::child_fault))]
pub fn faults_of_children()
    ensures reserved { child_fault [] (codes "zookeeper") ≡ Some Reserved }
    ensures path { child_fault (codes "a" ∷ []) (codes "zookeeper") ≡ None }
{}

/// The text of a path.
pub fn texts()
    ensures root { text_of [] ≡ codes "/" }
    ensures names { text_of (codes "a" ∷ codes "b" ∷ []) ≡ codes "/a/b" }
{}

/// The path of a sequential node.
pub fn numbered_paths()
    ensures first { numbered_path (codes "n-" ∷ []) 0 ≡ codes "n-0000000000" ∷ [] }
    ensures next { numbered_path (codes "n-" ∷ []) 1 ≡ codes "n-0000000001" ∷ [] }
    ensures last { numbered_path (codes "a" ∷ []) 2147483647 ≡ codes "a2147483647" ∷ [] }
    ensures text { text_of (numbered_path (codes "q" ∷ codes "n" ∷ []) 4) ≡ codes "/q/n0000000004" }
{}

/// The text shown for each fault.
pub fn names_of_faults()
    ensures empty { fault_name Empty ≡ codes "Empty" }
    ensures relative { fault_name NotAbsolute ≡ codes "NotAbsolute" }
    ensures empty_name { fault_name EmptyName ≡ codes "EmptyName" }
    ensures dots { fault_name DotName ≡ codes "DotName" }
    ensures bad_byte { fault_name BadByte ≡ codes "BadByte" }
    ensures long_name { fault_name NameTooLong ≡ codes "NameTooLong" }
    ensures long_text { fault_name PathTooLong ≡ codes "PathTooLong" }
    ensures deep { fault_name TooDeep ≡ codes "TooDeep" }
    ensures reserved { fault_name Reserved ≡ codes "Reserved" }
    ensures memory { fault_name fault.Memory ≡ codes "Memory" }
{}

/// The limits as numbers.
pub fn limits_are_numbers()
    ensures name { MAX_NAME_LEN ≡ 255 }
    ensures text { MAX_TEXT_LEN ≡ 1024 }
    ensures depth { MAX_DEPTH ≡ 64 }
    ensures digits { COUNTER_DIGITS ≡ 10 }
{}
