//! Two machines to which the same entries are given. One of them was read from rows.

ghost use Rattle.std.specs.Prelude.{◌≡◌, false, IfOk, OnOk};

use crate::rounds::{read_again, rows, tree_rows};
use crate::trouble::Trouble;
use std::alloc::Global;
use zcalls::{CallNumber, ClientId, Entry, Query, Reply};
use zops::{MAX_APPLIED, Machine};
use zpath::Path;
use zscript_text::write_reply;

/// A machine, and one that was read from its rows when they were compared last.
#[derive(Drop)]
pub(crate) struct Pair {
    alloc: Global,
    machine: Machine,
    again: Machine,
}

impl Pair {
    ghost use Rattle.zfolder_drill.specs.Pair.{IsWhole};

    /// Makes two new machines.
    pub(crate) fn new(alloc: Global) -> Result<Pair, Trouble>
        ensures { IfOk result IsWhole }
    {
        let machine = Machine::new(alloc)?;
        let again = Machine::new(alloc)?;
        Ok(Pair {
            alloc,
            machine,
            again,
        })
    }

    /// Returns the number of a client's next entry, if the machines count another one.
    pub(crate) fn next(&self) -> Option<CallNumber> {
        let applied = self.machine.applied();
        CallNumber::new(applied.saturating_add(1))
    }

    /// Returns the number of a client's last entry that acted.
    pub(crate) fn last(&self, client: ClientId) -> Option<CallNumber>
        requires { IsWhole self.now }
    {
        match self.machine.kept(client) {
            Some(kept) => Some(kept.0),
            None => None,
        }
    }

    /// Gives both an entry. They answer alike.
    pub(crate) fn apply(&mut self, entry: &Entry) -> Result<(), Trouble>
        requires { IsWhole self.old }
        ensures { OnOk result (IsWhole self.new) }
    {
        let first = answer(self.alloc, &mut self.machine, entry)?;
        let second = answer(self.alloc, &mut self.again, entry)?;
        if first.as_str() != second.as_str() {
            return Err(Trouble::Answers);
        }
        Ok(())
    }

    /// Compares them, and reads the second one from the rows of the first. Returns how many rows
    /// there are.
    pub(crate) fn compare(&mut self) -> Result<usize, Trouble>
        requires { IsWhole self.old }
        ensures { OnOk result (IsWhole self.new) }
    {
        let written = rows(self.alloc, &self.machine)?;
        if rows(self.alloc, &self.again)? != written {
            return Err(Trouble::Rows);
        }
        self.again = read_again(self.alloc, &written)?;
        self.compare_tree()?;
        self.compare_answers()?;
        Ok(written.len())
    }

    // The rows of the tree alone are read again.
    fn compare_tree(&self) -> Result<(), Trouble>
        requires { IsWhole self.now }
    {
        let written = tree_rows(self.alloc, &self.machine)?;
        drop(read_again(self.alloc, &written)?);
        Ok(())
    }

    // Both are asked for each node.
    fn compare_answers(&self) -> Result<(), Trouble>
        requires { IsWhole self.now }
    {
        for path in self.machine.paths()? {
            self.compare_at(path)?;
        }
        Ok(())
    }

    // Both are asked for one node and for its children.
    fn compare_at(&self, path: Path) -> Result<(), Trouble> {
        let data = Query::GetData(path.clone()?);
        self.compare_query(&data)?;
        drop(data);
        self.compare_query(&Query::GetChildren(path))
    }

    fn compare_query(&self, query: &Query) -> Result<(), Trouble> {
        let first = text_of(self.alloc, self.machine.ask(query)?)?;
        let second = text_of(self.alloc, self.again.ask(query)?)?;
        if first.as_str() != second.as_str() {
            return Err(Trouble::Answers);
        }
        Ok(())
    }
}

// Applies an entry. Returns the text of its reply, which is empty where there is none.
fn answer(alloc: Global, machine: &mut Machine, entry: &Entry) -> Result<String, Trouble>
    ensures { OnOk result (machine.new.is_broken ≡ false) }
{
    if machine.applied() >= MAX_APPLIED {
        return Err(Trouble::Full);
    }
    match machine.apply(entry)? {
        Some(reply) => text_of(alloc, reply),
        None => Ok(String::new(alloc)),
    }
}

fn text_of(alloc: Global, reply: Reply) -> Result<String, Trouble> {
    let mut text = String::new(alloc);
    write_reply(&reply, &mut text)?;
    Ok(text)
}
