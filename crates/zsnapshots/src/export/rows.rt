//! Worked examples of the definitions. Each function's contract has some; its body is empty.

ghost use Rattle.std.specs.Prelude.{◌≡◌, [], ◌∷◌, ◌++◌, codes, None, Some};
ghost use Rattle.ztree.specs.declared.term.Term.TheVariants.{Unlimited, Timed};
ghost use Rattle.ztree.specs.Tree.{opening_tree};
ghost use Rattle.zsnapshots.specs.export.Counts.{counts_of};
ghost use Rattle.zsnapshots.specs.export.Export.{export_lines, export_text, kind_text};
ghost use Rattle.zsnapshots.specs.export.Laws.{said_if};
ghost use Rattle.zsnapshots.specs.export.Texts.{left_out_text, stat_text};
ghost use Rattle.zsnapshots.specs.export.support.Samples.{node_with, owned_counts, owned_tree, timed_tree};
ghost use Rattle.zsnapshots.specs.export.support.Samples.{some_stat};

/// The lines of trees: of the initial one; of one whose root has data; and of one with an ephemeral
/// node.
pub fn trees_have_lines()
    ensures opening { export_lines opening_tree ≡ [] }
    ensures timed { export_text timed_tree
        ≡ codes "1 set / any aGk=\n1 create /a c -\n1 create /a/b t:12 aGk=\n" }
    ensures owned { export_text owned_tree ≡ [] }
    ensures for_good { kind_text Unlimited ≡ codes "p" }
    ensures for_a_tick { kind_text (Timed 1) ≡ codes "t:1" }
{}

/// What lines say of a node.
pub fn lines_say_little()
    ensures nothing { said_if None ≡ None }
    ensures owned { said_if (Some (node_with [] 9 Unlimited)) ≡ None }
    ensures some { said_if (Some (node_with (codes "hi") 0 (Timed 12)))
        ≡ Some (record { bytes = codes "hi"; term = Timed 12 }) }
{}

/// The counts of trees, and how they are printed.
pub fn trees_are_counted()
    ensures opening { counts_of opening_tree ≡ record {
      nodes = 1;
      bytes = 0;
      ephemerals = 0;
      counters = 0;
      sessions = 0;
      changes = 0;
      ticks = 0;
    } }
    ensures timed { counts_of timed_tree ≡ record {
      nodes = 3;
      bytes = 4;
      ephemerals = 0;
      counters = 0;
      sessions = 0;
      changes = 40;
      ticks = 30;
    } }
    ensures owned { counts_of owned_tree ≡ owned_counts }
{}

/// What is printed.
pub fn numbers_are_reported()
    ensures left_out { left_out_text owned_counts
        ≡ codes "zk: export: ephemeral nodes left out: 1\n"
        ++ codes "zk: export: sessions left out: 1\n"
        ++ codes "zk: export: versions begin again at 0, zxids too (the last is 40), "
        ++ codes "and ticks (it is 30)\n"
        ++ codes "zk: export: counters of sequential names begin again at 0 "
        ++ codes "(above 0: 1): a name may be taken\n" }
    ensures stat { stat_text some_stat
        ≡ codes "nodes: 2\nbytes of data: 2\nsessions: 1\nchanges: 40\n"
        ++ codes "bytes of the journal: 300\n"
        ++ codes "bytes of the snapshot with which it begins: 80\n" }
{}
