//! The laws.

ghost use Rattle.zlinearizability.specs.legal.Laws.{ItemsExplain, ItemsExplainFrom};

/// A list of items that fits a history and a committed log makes a legal order of the history.
pub fn items_explain()
    ensures { ItemsExplain }
{}

/// So it does over the plain tree that begins with another tree.
pub fn items_explain_from_a_tree()
    ensures { ItemsExplainFrom }
{}
