//! Laws of the definitions. Each function's contract is a law; its body is empty.

ghost use Rattle.zsnapshots.specs.export.Laws.{ExportsMakeNoEphemerals, ExportsMakeTheirTree};

/// The lines of a lawful tree within the limits of a script are read by the language of lines and
/// applied in order to the plain tree. They make a tree that has the same nodes but those that a
/// session owns. Each has the same data and the same term, and no session owns it.
pub fn exports_make_their_tree()
    ensures same { ExportsMakeTheirTree }
    ensures none { ExportsMakeNoEphemerals }
{}
