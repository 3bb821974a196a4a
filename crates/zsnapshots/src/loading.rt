//! A machine, read from rows that each have bytes of their own.

ghost use Rattle.std.specs.Prelude.{◌≡◌, ◌≤◌, [], ◌∷◌, ◌++◌, false, None, Some, IsTrue, IsFalse};
ghost use Rattle.std.specs.Prelude.{IfSome, IfNone, OnOk, OnErr, IfErr};
ghost use Rattle.zops.specs.declared.limits.TheConstants.{MAX_APPLIED};
ghost use Rattle.zops.specs.Machine.{MachineState};
ghost use Rattle.zops.specs.RestoredLaws.{IsSettled};
ghost use Rattle.zsnapshots.specs.States.{rows_of, rows_so_far, is_done, IsReadable, IsNextFault};
ghost use Rattle.zsnapshots.specs.Loading.{nothing_loaded, rows_loaded, bytes_loaded, IsLoaded};
ghost use Rattle.zsnapshots.specs.Loading.{IsFollowed, NeverRefusesAlone, AreOfNone, IsFaultFrom};
ghost use Rattle.zsnapshots.specs.Loading.{IsLoadingFault, is_whole};
ghost use Rattle.zsnapshots.specs.support.Loading.{NeverRefusesNext};

use crate::fault::RowFault;
use crate::head::Head;
use crate::header::Header;
use crate::reading::Reading;
use crate::row_reading::read_header_row;
use std::alloc::Global;
use std::marker::Model;
use zops::Machine;
use zwire::cut_frame;

/// A machine that is read from rows, each in bytes of its own: the header first, then the root, and
/// so on in their order.
#[derive(Drop)]
pub struct Loading {
    alloc: Global,
    // The header, once it was taken.
    header: Option<Head>,
    // What was read, once the root was taken.
    reading: Option<Reading>,
}

impl Model for Loading {
    ghost use Rattle.zsnapshots.specs.Loading.{LoadingView};
    ghost use Rattle.zsnapshots.specs.support.Loading.{coded_loading, IsLoading};

    ghost Value = { LoadingView };

    ghost coded = { coded_loading };

    ghost view = { λ l. record { header = l.header; reading = l.reading } };

    ghost invariant = { λ l. IsLoading l.header l.reading };
}

impl Loading {
    /// Begins with no row.
    pub fn new(alloc: Global) -> Loading
        ensures { result ≡ nothing_loaded }
    {
        Loading {
            alloc,
            header: None,
            reading: None,
        }
    }

    /// Takes the next row: these bytes are it, and nothing else. If it is refused, nothing has
    /// changed.
    pub fn take(&mut self, row: &[u8]) -> Result<(), RowFault>
        ensures taken { OnOk result
            (IsLoaded (rows_loaded self.old) (rows_loaded self.new) row.now) }
        ensures bytes { OnOk result
            (bytes_loaded self.new ≡ bytes_loaded self.old ++ row.now ∷ []) }
        // The next row of a state that can be read is never refused.
        ensures only { NeverRefusesAlone (bytes_loaded self.old) result row.now }
        ensures fault { IfErr result (IsLoadingFault self.old row.now) }
        ensures err { OnErr result (self.new ≡ self.old) }
    {
        let alloc = self.alloc;
        self.take_row(alloc, row)
    }

    // The same, by the rows so far.
    fn take_row(&mut self, alloc: Global, row: &[u8]) -> Result<(), RowFault>
        ensures taken { OnOk result
            (IsLoaded (rows_loaded self.old) (rows_loaded self.new) row.now) }
        ensures only { NeverRefusesNext (rows_loaded self.old) (rows_loaded self.new)
            result row.now }
        ensures fault { IfErr result (IsLoadingFault self.old row.now) }
        ensures err { OnErr result (self.new ≡ self.old) }
    {
        if is_followed(row) {
            return Err(RowFault::Trailing);
        }
        self.take_alone(alloc, row)
    }

    // Takes the next row, which nothing follows.
    fn take_alone(&mut self, alloc: Global, row: &[u8]) -> Result<(), RowFault>
        requires alone { IsFollowed row.now → ⊥ }
        ensures taken { OnOk result
            (IsLoaded (rows_loaded self.old) (rows_loaded self.new) row.now) }
        ensures only { NeverRefusesNext (rows_loaded self.old) (rows_loaded self.new)
            result row.now }
        ensures fault { IfErr result (IsFaultFrom self.old.header self.old.reading row.now) }
        ensures err { OnErr result (self.new ≡ self.old) }
    {
        let Some(reading) = &mut self.reading else {
            return self.take_first(alloc, row);
        };
        take_further(reading, row)
    }

    // Takes the header, or the root after it.
    fn take_first(&mut self, alloc: Global, row: &[u8]) -> Result<(), RowFault>
        requires none { self.old.reading ≡ None }
        requires alone { IsFollowed row.now → ⊥ }
        ensures taken { OnOk result
            (IsLoaded (rows_loaded self.old) (rows_loaded self.new) row.now) }
        ensures only { NeverRefusesNext (rows_loaded self.old) (rows_loaded self.new)
            result row.now }
        ensures fault { IfErr result (IsFaultFrom self.old.header self.old.reading row.now) }
        ensures err { OnErr result (self.new ≡ self.old) }
    {
        let Some(header) = &self.header else {
            return self.take_header(row);
        };
        let header = header.header();
        self.take_root(alloc, header, row)
    }

    // Takes the header.
    fn take_header(&mut self, row: &[u8]) -> Result<(), RowFault>
        requires nothing { self.old ≡ nothing_loaded }
        requires alone { IsFollowed row.now → ⊥ }
        ensures taken { OnOk result
            (IsLoaded (rows_loaded self.old) (rows_loaded self.new) row.now) }
        ensures only { NeverRefusesNext (rows_loaded self.old) (rows_loaded self.new)
            result row.now }
        ensures fault { IfErr result (IsFaultFrom self.old.header self.old.reading row.now) }
        ensures err { OnErr result (self.new ≡ self.old) }
    {
        let (header, _) = match read_header_row(row) {
            Ok(read) => read,
            Err(fault) => return Err(RowFault::from(fault)),
        };
        self.header = Some(Head::of(header));
        Ok(())
    }

    // Takes the root after this header.
    fn take_root(&mut self, alloc: Global, header: Header, row: &[u8]) -> Result<(), RowFault>
        requires header { self.old.header ≡ Some header }
        requires none { self.old.reading ≡ None }
        requires alone { IsFollowed row.now → ⊥ }
        ensures taken { OnOk result
            (IsLoaded (rows_loaded self.old) (rows_loaded self.new) row.now) }
        ensures only { NeverRefusesNext (rows_loaded self.old) (rows_loaded self.new)
            result row.now }
        ensures fault { IfErr result (IsFaultFrom self.old.header self.old.reading row.now) }
        ensures err { OnErr result (self.new ≡ self.old) }
    {
        let (reading, _) = match Reading::new(alloc, header, row) {
            Ok(read) => read,
            Err(fault) => return Err(fault),
        };
        self.reading = Some(reading);
        Ok(())
    }

    /// Returns whether all rows that the header announces were taken.
    pub fn is_whole(&self) -> bool
        ensures whole { result ≡ is_whole self.now }
        // If not, no state that can be read has exactly these rows.
        ensures part { IsFalse result → AreOfNone (bytes_loaded self.now) }
    {
        match &self.reading {
            Some(reading) => reading.is_done(),
            None => false,
        }
    }

    /// Returns the machine, once all rows were taken: these are its rows, and they can be read.
    pub fn finish(self) -> Option<Machine>
        ensures rows { IfSome result (λ m. rows_of m.state ≡ rows_loaded self) }
        ensures readable { IfSome result (λ m. IsReadable m.state) }
        ensures whole { IfSome result (λ m. m.is_broken ≡ false) }
        // Otherwise no state that can be read has exactly these rows.
        ensures none { IfNone result (AreOfNone (bytes_loaded self)) }
        ensures part { IfNone result (is_whole self ≡ false) }
    {
        match self.reading {
            Some(reading) => finished(reading),
            None => None,
        }
    }
}

// Takes a row after the root.
fn take_further(reading: &mut Reading, row: &[u8]) -> Result<(), RowFault>
    requires alone { IsFollowed row.now → ⊥ }
    ensures taken { OnOk result
        (IsLoaded (rows_so_far reading.old) (rows_so_far reading.new) row.now) }
    ensures only { NeverRefusesNext (rows_so_far reading.old) (rows_so_far reading.new)
        result row.now }
    ensures fault { IfErr result (IsNextFault reading.old row.now) }
    ensures err { OnErr result (reading.new ≡ reading.old) }
{
    let taken = reading.take(row);
    match taken {
        Ok(_) => Ok(()),
        Err(fault) => Err(fault),
    }
}

// Returns the machine that was read, if none of its rows is missing.
fn finished(reading: Reading) -> Option<Machine>
    ensures rows { IfSome result (λ m. rows_of m.state ≡ rows_so_far reading) }
    ensures settled { IfSome result (λ m. IsSettled m.state.service.plain) }
    ensures few { IfSome result (λ m. m.state.applied ≤ MAX_APPLIED) }
    ensures whole { IfSome result (λ m. m.is_broken ≡ false) }
    ensures none { IfNone result ((s : MachineState) → rows_of s ≡ rows_so_far reading → ⊥) }
    ensures part { IfNone result (is_done reading ≡ false) }
{
    match reading.finish() {
        Some(machine) => {
            let _ = machine.applied();
            Some(machine)
        }
        None => None,
    }
}

// Returns whether the bytes begin with a whole frame, and more follows.
fn is_followed(bytes: &[u8]) -> bool
    ensures yes { IsTrue result → IsFollowed bytes.now }
    ensures no { IsFalse result → IsFollowed bytes.now → ⊥ }
{
    match cut_frame(bytes) {
        Ok((_, rest)) => !rest.is_empty(),
        Err(_) => false,
    }
}
