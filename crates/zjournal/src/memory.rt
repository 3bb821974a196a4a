//! A file in memory, whose writes tear.
//!
//! # Why
//! It holds two contents: what a read returns, and what torn writes left. A crash may leave either,
//! so one run shows what power cuts leave at each moment. The moments count its failures too: a
//! separate counter could overflow, and each contract would have to exclude that.

ghost use Rattle.std.specs.Prelude.{◌≡◌, ◌⊎◌, [], ◌∷◌, ◌++◌, length, true};
ghost use Rattle.std.specs.Prelude.{IfOk, OnOk, OnErr};
ghost use Rattle.std.proofs.Common.{inl};
ghost use Rattle.zjournal.specs.Device.{Elapses, HasCause, Only};
ghost use Rattle.zjournal.specs.Past.{CanBe, IsCopy, Since, only_bytes};

use crate::tearing::{next_chance, shortened, torn, torn_cut, written};
use crate::{Device, DeviceError, Moment};
use std::alloc::{AllocError, Global};

/// A file in memory with what a power cut would leave of it, now and at each moment so far. Each
/// write and each cut tears: a number that the test gives chooses what a power cut leaves. From
/// some call on the disk fails. A new file beside it tears, too, until it is synced.
#[derive(Drop)]
pub struct MemoryFile {
    alloc: Global,
    current: Moment,
    past: Vec<Moment>,
    beside: Moment,
    chance: u64,
    calls: u64,
}

impl MemoryFile {
    ghost use Rattle.zjournal.specs.Memory.{current_of, past_of};

    /// Makes a file with these bytes, all durable. `chance` chooses what power cuts leave. The
    /// first `calls` steps succeed, and no later one does. A write, a cut and a sync are one step
    /// each, as is each call that begins the new file or appends to it. Replacing this file with
    /// the new one takes three.
    pub fn new(alloc: Global, bytes: &[u8], chance: u64, calls: u64) -> Result<Self, AllocError>
        ensures seen { IfOk result (λ file. (current_of file).seen.items ≡ bytes.now) }
        ensures disk { IfOk result (λ file. (current_of file).disk.items ≡ bytes.now) }
        ensures past { IfOk result (λ file. past_of file ≡ []) }
        ensures durable { IfOk result (λ file. Only (current_of file).seen.items
            (CanBe (current_of file))) }
    {
        let disk = bytes.to_vec(alloc)?;
        let seen = bytes.to_vec(alloc)?;
        Ok(MemoryFile {
            alloc,
            current: Moment { disk, seen },
            past: Vec::new(alloc),
            beside: Moment {
                disk: Vec::new(alloc),
                seen: Vec::new(alloc),
            },
            chance,
            calls,
        })
    }

    /// Returns the file as it is now.
    pub fn current(&self) -> &Moment
        ensures { result.now ≡ current_of self.now }
    {
        &self.current
    }

    /// Returns the file as it was before each step so far.
    pub fn past(&self) -> &[Moment]
        ensures { result.now ≡ past_of self.now }
    {
        &self.past
    }

    // Does a step that leaves both files as they are.
    fn pass(&mut self) -> Result<(), DeviceError>
        ensures copy { IsCopy self.new.current self.old.current }
        ensures beside { self.new.beside ≡ self.old.beside }
        ensures time { Elapses (length self.old.past.items) (length self.new.past.items)
            (Since self.old.past.items self.old.current)
            (Since self.new.past.items self.new.current) (CanBe self.new.current) }
        ensures cause { HasCause (length self.old.past.items) (length self.new.past.items) result }
    {
        let disk = self.current.disk.to_vec(self.alloc)?;
        let seen = self.current.seen.to_vec(self.alloc)?;
        replace(
            self.alloc,
            &mut self.current,
            &mut self.past,
            Moment { disk, seen },
        )?;
        if self.calls == 0 {
            return Err(DeviceError::Failed);
        }
        self.calls -= 1;
        self.chance = next_chance(self.chance);
        Ok(())
    }

    // Makes the new file durable.
    fn sync_beside(&mut self) -> Result<(), DeviceError>
        ensures copy { IsCopy self.new.current self.old.current }
        ensures same { self.new.beside.seen.items ≡ self.old.beside.seen.items }
        ensures whole { OnOk result (self.new.beside.disk.items ≡ self.new.beside.seen.items) }
        ensures time { Elapses (length self.old.past.items) (length self.new.past.items)
            (Since self.old.past.items self.old.current)
            (Since self.new.past.items self.new.current) (CanBe self.new.current) }
        ensures cause { HasCause (length self.old.past.items) (length self.new.past.items) result }
    {
        self.pass()?;
        self.beside.disk = self.beside.seen.to_vec(self.alloc)?;
        Ok(())
    }

    // Gives the name to the new file. A power cut leaves the old file, or what is durable of the
    // new one.
    fn take_name(&mut self) -> Result<(), DeviceError>
        ensures seen { OnOk result (self.new.current.seen.items ≡ self.old.beside.seen.items) }
        ensures seen_err { OnErr result (self.new.current.seen.items
            ≡ self.old.current.seen.items) }
        ensures disk { (self.new.current.disk.items ≡ self.old.current.disk.items)
            ⊎ (self.new.current.disk.items ≡ self.old.beside.disk.items) }
        ensures time { Elapses (length self.old.past.items) (length self.new.past.items)
            (Since self.old.past.items self.old.current)
            (Since self.new.past.items self.new.current) (CanBe self.new.current) }
        ensures cause { HasCause (length self.old.past.items) (length self.new.past.items) result }
    {
        let disk = self.left_of_name()?;
        if self.calls == 0 {
            let seen = self.current.seen.to_vec(self.alloc)?;
            replace(
                self.alloc,
                &mut self.current,
                &mut self.past,
                Moment { disk, seen },
            )?;
            return Err(DeviceError::Failed);
        }
        let seen = self.beside.seen.to_vec(self.alloc)?;
        replace(
            self.alloc,
            &mut self.current,
            &mut self.past,
            Moment { disk, seen },
        )?;
        self.calls -= 1;
        Ok(())
    }

    // Returns what a power cut leaves once the new file has taken the name.
    fn left_of_name(&self) -> Result<Vec<u8>, AllocError>
        ensures { IfOk result (λ disk. (disk.items ≡ self.now.current.disk.items)
            ⊎ (disk.items ≡ self.now.beside.disk.items)) }
    {
        if self.chance / 65536 % 2 == 0 {
            return self.current.disk.to_vec(self.alloc);
        }
        self.beside.disk.to_vec(self.alloc)
    }
}

// Continues to the next moment, and saves a copy of the one before it.
fn replace(
    alloc: Global,
    current: &mut Moment,
    past: &mut Vec<Moment>,
    next: Moment,
) -> Result<(), AllocError>
    ensures ok { OnOk result (current.new ≡ next) }
    ensures err { OnErr result (current.new ≡ current.old) }
    ensures past { OnOk result ((v : Moment) × IsCopy v current.old
        × (past.new.items ≡ past.old.items ++ v ∷ [])) }
    ensures past_err { OnErr result (past.new.items ≡ past.old.items) }
{
    let disk = current.disk.to_vec(alloc)?;
    let seen = current.seen.to_vec(alloc)?;
    past.push(Moment { disk, seen })?;
    *current = next;
    Ok(())
}

impl Device for MemoryFile {
    ghost seen = { λ m. m.current.seen.items };

    ghost may_leave = { λ m c. CanBe m.current c };

    ghost moment = { λ m. length m.past.items };

    ghost left_since = { λ m. Since m.past.items m.current };

    ghost faults = { λ m. length m.past.items };

    ghost beside = { λ m. m.beside.seen.items };

    ghost asks_disk = { λ _. true };

    ghost counts_now = { λ m t c le now. inl now };

    ghost only_now = { λ m c left. only_bytes m.past.items m.current c left };

    fn read(&mut self, alloc: Global) -> Result<Vec<u8>, DeviceError> {
        Ok(self.current.seen.to_vec(alloc)?)
    }

    fn write_at(&mut self, at: usize, bytes: &[u8]) -> Result<(), DeviceError> {
        let disk = torn(self.alloc, &self.current.disk, at, bytes, self.chance)?;
        if self.calls == 0 {
            let seen = self.current.seen.to_vec(self.alloc)?;
            replace(
                self.alloc,
                &mut self.current,
                &mut self.past,
                Moment { disk, seen },
            )?;
            return Err(DeviceError::Failed);
        }
        let seen = written(self.alloc, &self.current.seen, at, bytes)?;
        replace(
            self.alloc,
            &mut self.current,
            &mut self.past,
            Moment { disk, seen },
        )?;
        self.calls -= 1;
        self.chance = next_chance(self.chance);
        Ok(())
    }

    fn cut(&mut self, len: usize) -> Result<(), DeviceError> {
        let disk = torn_cut(self.alloc, &self.current.disk, len, self.chance)?;
        if self.calls == 0 {
            let seen = self.current.seen.to_vec(self.alloc)?;
            replace(
                self.alloc,
                &mut self.current,
                &mut self.past,
                Moment { disk, seen },
            )?;
            return Err(DeviceError::Failed);
        }
        let seen = shortened(self.alloc, &self.current.seen, len)?;
        replace(
            self.alloc,
            &mut self.current,
            &mut self.past,
            Moment { disk, seen },
        )?;
        self.calls -= 1;
        self.chance = next_chance(self.chance);
        Ok(())
    }

    fn sync(&mut self) -> Result<(), DeviceError> {
        let seen = self.current.seen.to_vec(self.alloc)?;
        if self.calls == 0 {
            let disk = self.current.disk.to_vec(self.alloc)?;
            replace(
                self.alloc,
                &mut self.current,
                &mut self.past,
                Moment { disk, seen },
            )?;
            return Err(DeviceError::Failed);
        }
        let disk = self.current.seen.to_vec(self.alloc)?;
        replace(
            self.alloc,
            &mut self.current,
            &mut self.past,
            Moment { disk, seen },
        )?;
        self.calls -= 1;
        Ok(())
    }

    fn begin_beside(&mut self) -> Result<(), DeviceError> {
        self.pass()?;
        self.beside = Moment {
            disk: Vec::new(self.alloc),
            seen: Vec::new(self.alloc),
        };
        Ok(())
    }

    fn add_beside(&mut self, bytes: &[u8]) -> Result<(), DeviceError> {
        self.pass()?;
        let end = self.beside.disk.len();
        self.beside.disk = torn(self.alloc, &self.beside.disk, end, bytes, self.chance)?;
        self.beside.seen.extend_from_slice(bytes)?;
        Ok(())
    }

    fn take_place(&mut self) -> Result<(), DeviceError> {
        self.sync_beside()?; // first the whole file is durable
        self.take_name()?; // then it has the name
        self.sync()?; // now its name is durable
        Ok(())
    }

    fn split(&mut self) -> Result<(), DeviceError> {
        self.pass()
    }
}
