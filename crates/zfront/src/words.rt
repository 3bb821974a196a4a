//! Answers to the four letter words.
//!
//! # Why
//!
//! `envi` returns 3.8.0. Clients use the version to know which requests are understood. It is the
//! version of Debian's ZooKeeper, which the answers were compared with.

ghost use Rattle.std.specs.Prelude.{◌≡◌, string_bytes, IfOk, OnOk};
ghost use Rattle.zscript_text.specs.Texts.{Writes};
ghost use Rattle.zconnections.specs.buffers.Streams.{phase_of};
ghost use Rattle.zfront.specs.Reading.{word_asked};
ghost use Rattle.zfront.specs.Words as table;

use crate::inner::Inner;
use crate::word::Word;
use zalloc::Memory;
use zconnections::buffers::Phase;
use ztree_service::TreeService;

impl<T: TreeService> Inner<T> {
    // Returns the word at the beginning of the bytes, if nothing was read on the connection.
    pub(crate) fn word_asked(&self, connection: u32, came: &[u8]) -> Option<Word>
        ensures { result
            ≡ word_asked (phase_of self.now.tables.streams connection) came.now }
    {
        match self.tables.phase(connection) {
            Some(Phase::Silent) => word_in(came),
            _ => None,
        }
    }

    // Sends the answer to a word, and closes the connection.
    pub(crate) fn say(&mut self, word: Word, connection: u32) -> Result<(), Memory>
        ensures { OnOk result (self.new ≡ table.said word connection self.old) }
    {
        let text = self.text_of(word)?;
        self.tables.send(connection, text.into_bytes())?;
        self.tables.close(connection)
    }

    // Returns the answer to a word.
    fn text_of(&self, word: Word) -> Result<String, Memory>
        ensures { IfOk result
            (λ text. string_bytes text ≡ table.text_of_word word self.now) }
    {
        let mut text = String::new(self.alloc);
        match self.write_answer(word, &mut text) {
            Ok(()) => Ok(text),
            Err(memory) => {
                drop(text);
                Err(memory)
            }
        }
    }

    // Writes the answer to a word.
    fn write_answer(&self, word: Word, out: &mut String) -> Result<(), Memory>
        ensures { OnOk result (Writes out.old out.new (table.text_of_word word self.now)) }
    {
        match word {
            Word::Ruok => out.push_str("imok")?,
            Word::Isro => out.push_str("rw")?,
            Word::Envi => out.push_str("Environment:\nzookeeper.version=3.8.0-jellqupas\n")?,
            Word::Srvr => self.write_srvr(out)?,
            Word::Mntr => self.write_mntr(out)?,
        }
        Ok(())
    }

    // Writes the state of the server for people.
    fn write_srvr(&self, out: &mut String) -> Result<(), Memory>
        ensures { OnOk result (Writes out.old out.new (table.srvr_text self.now)) }
    {
        out.push_str("Zookeeper version: jellqupas-0.1.0\n")?;
        write_number("Connections: ", self.tables.connections() as u64, out)?;
        let last = self.last_change()?;
        write_number("Zxid: ", self.clock.base.wrapping_add(last.number()), out)?;
        out.push_str("Mode: standalone\n")?;
        let counts = self.service.counts()?;
        write_number("Node count: ", counts.nodes as u64, out)
    }

    // Writes the state of the server for monitoring.
    fn write_mntr(&self, out: &mut String) -> Result<(), Memory>
        ensures { OnOk result (Writes out.old out.new (table.mntr_text self.now)) }
    {
        out.push_str("zk_version\tjellqupas-0.1.0\nzk_server_state\tstandalone\n")?;
        write_number(
            "zk_num_alive_connections\t",
            self.tables.connections() as u64,
            out,
        )?;
        write_number("zk_global_sessions\t", self.tables.sessions() as u64, out)?;
        let counts = self.service.counts()?;
        write_number("zk_znode_count\t", counts.nodes as u64, out)?;
        write_number("zk_watch_count\t", self.tables.watches() as u64, out)?;
        write_number("zk_ephemerals_count\t", counts.owned as u64, out)?;
        write_number("zk_approximate_data_size\t", counts.bytes, out)
    }
}

// Writes a line of a name and a number.
fn write_number(name: &str, number: u64, out: &mut String) -> Result<(), Memory>
    ensures { OnOk result (Writes out.old out.new (table.number_line name.now number)) }
{
    out.push_str(name)?;
    write!(out, "{number}\n")?;
    Ok(())
}

// Returns the word at the beginning of the bytes.
fn word_in(came: &[u8]) -> Option<Word>
    ensures { result ≡ table.word_in came.now }
{
    match came {
        [b'r', b'u', b'o', b'k', ..] => Some(Word::Ruok),
        [b'i', b's', b'r', b'o', ..] => Some(Word::Isro),
        [b'e', b'n', b'v', b'i', ..] => Some(Word::Envi),
        [b's', b'r', b'v', b'r', ..] => Some(Word::Srvr),
        [b'm', b'n', b't', b'r', ..] => Some(Word::Mntr),
        _ => None,
    }
}
