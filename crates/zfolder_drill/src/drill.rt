//! A drill: lines are taken, and the states that they come to are compared.

ghost use Rattle.std.specs.Prelude.{IfOk, OnOk};

use crate::folder::Folder;
use crate::pair::Pair;
use crate::trouble::Trouble;
use std::alloc::Global;
use zcalls::{Call, CallNumber, ClientId, Entry, Update};
use zscript_text::{Line, LineFault, Request, read_line};

/// How much was compared.
#[derive(Clone, Copy, Debug, PartialEq, Eq)]
pub(crate) struct Tally {
    /// How many changes there were.
    pub(crate) changes: usize,
    /// How many states were compared.
    pub(crate) states: usize,
    /// The most rows that one of them had.
    pub(crate) most: usize,
}

/// The machines and the folder, and how much was compared.
#[derive(Drop)]
pub(crate) struct Drill {
    alloc: Global,
    pub(crate) pair: Pair,
    folder: Folder,
    tally: Tally,
    // The rows of the state that was compared last, and how many changes there were since.
    rows: usize,
    since: usize,
}

impl Drill {
    ghost use Rattle.zfolder_drill.specs.Pair.{IsWhole};

    /// Begins with the initial tree.
    pub(crate) fn new(alloc: Global) -> Result<Drill, Trouble>
        ensures { IfOk result (λ drill. IsWhole drill.pair) }
    {
        let pair = Pair::new(alloc)?;
        let folder = Folder::new(alloc)?;
        Ok(Drill {
            alloc,
            pair,
            folder,
            tally: Tally {
                changes: 0,
                states: 0,
                most: 0,
            },
            rows: 0,
            since: 0,
        })
    }

    /// Returns how much was compared.
    pub(crate) fn tally(&self) -> Tally {
        self.tally
    }

    /// Takes a line of a script.
    pub(crate) fn take(&mut self, line: &[u8]) -> Result<(), Trouble>
        requires { IsWhole self.old.pair }
        ensures { OnOk result (IsWhole self.new.pair) }
    {
        match read_line(self.alloc, line) {
            Ok(asked) => self.asked(asked),
            Err(LineFault::Memory) => Err(Trouble::Memory),
            Err(_) => Ok(()),
        }
    }

    // Takes what a line asks for.
    fn asked(&mut self, asked: Line) -> Result<(), Trouble>
        requires { IsWhole self.old.pair }
        ensures { OnOk result (IsWhole self.new.pair) }
    {
        match asked {
            Line::Call(request) => self.request(request),
            Line::Begin(request) => self.request(request),
            Line::Retry(client) => self.retry(client),
            Line::Take(_, _) | Line::Ignore(_, _) => Ok(()),
            Line::Fail(_) | Line::Order(_) | Line::Settle => Ok(()),
        }
    }

    // Takes a call; a query changes nothing.
    fn request(&mut self, request: Request) -> Result<(), Trouble>
        requires { IsWhole self.old.pair }
        ensures { OnOk result (IsWhole self.new.pair) }
    {
        let Request { client, call } = request;
        match call {
            Call::Update(update) => self.update(client, update),
            Call::Query(_) => Ok(()),
        }
    }

    // Takes an update, as one with a number that is above those of all before it.
    fn update(&mut self, client: ClientId, update: Update) -> Result<(), Trouble>
        requires { IsWhole self.old.pair }
        ensures { OnOk result (IsWhole self.new.pair) }
    {
        let Some(number) = self.pair.next() else {
            return Err(Trouble::Full);
        };
        let update = self.folder.apply(update)?;
        self.enter(Entry {
            client,
            number,
            update,
        })
    }

    // Sends a client's last number once more, which is answered with its reply.
    fn retry(&mut self, client: ClientId) -> Result<(), Trouble>
        requires { IsWhole self.old.pair }
        ensures { OnOk result (IsWhole self.new.pair) }
    {
        match self.pair.last(client) {
            Some(number) => self.enter(Entry {
                client,
                number,
                update: Update::Tick,
            }),
            None => Ok(()),
        }
    }

    // Gives the machines an entry, and compares the state if it is time to.
    fn enter(&mut self, entry: Entry) -> Result<(), Trouble>
        requires { IsWhole self.old.pair }
        ensures { OnOk result (IsWhole self.new.pair) }
    {
        self.pair.apply(&entry)?;
        drop(entry);
        self.tally.changes = self.tally.changes.saturating_add(1);
        self.since = self.since.saturating_add(1);
        if self.since.saturating_mul(16) < self.rows {
            return Ok(());
        }
        self.compare()
    }

    /// Compares the state with what is read of it.
    pub(crate) fn compare(&mut self) -> Result<(), Trouble>
        requires { IsWhole self.old.pair }
        ensures { OnOk result (IsWhole self.new.pair) }
    {
        self.rows = self.pair.compare()?;
        self.folder.compare()?;
        self.tally.most = self.tally.most.max(self.rows);
        self.tally.states = self.tally.states.saturating_add(1);
        self.since = 0;
        Ok(())
    }
}
