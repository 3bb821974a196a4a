//! What holds of all files. Each contract is a law, and the bodies are empty.

ghost use Rattle.zjournal.specs.Laws.{FilesHaveOneReading, WhatStandsHasNoFault};

/// A file represents one list of batches, however it is read.
pub fn files_have_one_reading()
    ensures { FilesHaveOneReading }
{}

/// A file that represents batches has no fault, so whatever a crash leaves of a journal can be
/// opened. This doesn't rely on checksums.
pub fn what_stands_has_no_fault()
    ensures { WhatStandsHasNoFault }
{}
