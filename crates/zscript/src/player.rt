//! The player of a script: it takes bytes block by block, and answers each line as soon as its LF
//! is read.
//!
//! # Why
//!
//! The history is cleared between two lines. What is left of the world is what a player stores of
//! it, so the two are compared by an equation. A line is stored cut at one byte more than its
//! limit, so an endless line takes no more memory.

ghost use Rattle.std.specs.Prelude.{◌≡◌, ◌<◌, ◌≤◌, [], ◌++◌, length, IfOk, IfErr, OnOk, OnErr};
ghost use Rattle.zdevices.specs.Device.{Between, TookBeginning, Failed};
ghost use Rattle.zscript.specs.Script.{opening_of};
ghost use Rattle.zscript.specs.support.PlayerView.{IsFresh, world_now, kept_front};
ghost use Rattle.zscript.specs.support.Played.{line_at, PlaysLines, PlaysLastLine, ReportsLines, ReportsLine};
ghost use Rattle.zscript.specs.support.Stops.{StopsInBlock, StopsAtEnd, StopsInLines, StopsInLine};

use crate::fault::PlayFault;
use crate::limits::{BLOCK, KEPT};
use crate::line::{answer_line, script_world};
use memchr::memchr;
use std::alloc::Global;
use std::marker::Model;
use zalloc::Memory;
use zdevices::{Sink, write_all};
use zprotocol::ServerId;
use zworld::World;

/// Plays a script, line by line, on a world with every possible client.
#[derive(Drop)]
pub(crate) struct Player {
    world: World,
    line: Vec<u8>,
    // Replies that are not written yet.
    replies: String,
}

impl Model for Player {
    ghost use Rattle.std.specs.Prelude.{◌≤◌, length, string_bytes};
    ghost use Rattle.zscript.specs.declared.limits.TheConstants.{KEPT};
    ghost use Rattle.zscript.specs.support.PlayerView.{PlayerView, coded_player_view, player_view};

    ghost Value = { PlayerView };

    ghost coded = { coded_player_view };

    ghost view = { λ p. player_view p.world.held p.line.items (string_bytes p.replies) };

    ghost invariant = { λ p. length p.line.items ≤ KEPT };
}

impl Player {
    /// Returns a player that has read nothing, over a chain up to this server.
    pub(crate) fn new(alloc: Global, last: ServerId) -> Result<Player, Memory>
        ensures world { IfOk result (λ player. world_now player ≡ opening_of last) }
        ensures fresh { IfOk result (λ player. IsFresh player) }
    {
        Ok(Player {
            world: script_world(alloc, last)?,
            line: Vec::new(alloc),
            replies: String::new(alloc),
        })
    }

    /// Plays the lines that end in these bytes, and writes their replies. What follows the last LF
    /// is stored.
    pub(crate) fn hear<K: Sink>(&mut self, sink: &mut K, bytes: &[u8]) -> Result<(), PlayFault>
        requires { self.old.held ≡ [] }
        ensures done { OnOk result
            (PlaysLines self.old bytes.now self.new K.took sink.old sink.new) }
        ensures line { OnOk result (self.new.line ≡ kept_front (line_at self.old bytes.now)) }
        ensures held { OnOk result (self.new.held ≡ []) }
        ensures sound { OnOk result (K.failed sink.old 0 sink.new) }
        ensures stopped { IfErr result (StopsInBlock self.old bytes.now K.Sink sink.old sink.new) }
    {
        let rest = self.play_lines(sink, bytes)?;
        self.keep(rest)?;
        self.write_replies(sink)?;
        Ok(())
    }

    /// Plays a last line without LF, if it has a byte, and writes its reply.
    pub(crate) fn finish<K: Sink>(&mut self, sink: &mut K) -> Result<(), PlayFault>
        requires { self.old.held ≡ [] }
        ensures done { OnOk result (PlaysLastLine self.old self.new K.took sink.old sink.new) }
        ensures sound { OnOk result (K.failed sink.old 0 sink.new) }
        ensures stopped { IfErr result (StopsAtEnd self.old K.Sink sink.old sink.new) }
    {
        if self.line.is_empty() {
            return Ok(());
        }
        self.end_line(sink, &[])?;
        self.write_replies(sink)?;
        Ok(())
    }

    // Plays each line that ends in these bytes; returns what follows the last LF.
    fn play_lines<'a, K: Sink>(
        &mut self,
        sink: &mut K,
        bytes: &'a [u8],
    ) -> Result<&'a [u8], PlayFault>
        requires { self.old.held ≡ [] }
        ensures done { OnOk result
            (ReportsLines self.old bytes.entry.now self.new K.took sink.old sink.new) }
        ensures line { IfOk result
            (λ rest. line_at self.old bytes.entry.now ≡ self.new.line ++ rest.now) }
        ensures sound { OnOk result (K.failed sink.old 0 sink.new) }
        ensures stopped { IfErr result
            (StopsInLines self.old bytes.entry.now K.Sink sink.old sink.new) }
    {
        let mut rest = bytes;
        while let Some(place) = memchr(b'\n', rest) {
            self.end_line(sink, &rest[..place])?;
            rest = &rest[place + 1..];
        }
        Ok(rest)
    }

    // Ends the line with these bytes, plays it, and writes the held replies once they fill a block.
    // Where nothing of the line is stored, it is not copied.
    fn end_line<K: Sink>(&mut self, sink: &mut K, end: &[u8]) -> Result<(), PlayFault>
        ensures done { OnOk result (ReportsLine self.old end.now self.new K.took sink.old
            sink.new) }
        ensures line { OnOk result (self.new.line ≡ []) }
        ensures sound { OnOk result (K.failed sink.old 0 sink.new) }
        ensures stopped { IfErr result (StopsInLine self.old end.now K.Sink sink.old sink.new) }
    {
        if self.line.is_empty() {
            answer_line(&mut self.world, end, &mut self.replies)?;
        } else {
            self.keep(end)?;
            answer_line(&mut self.world, &self.line, &mut self.replies)?;
            self.line.clear();
        }
        if self.replies.len() < BLOCK {
            return Ok(());
        }
        self.write_replies(sink)?;
        Ok(())
    }

    // Appends these bytes to the line that has begun, up to the limit.
    fn keep(&mut self, part: &[u8]) -> Result<(), Memory>
        ensures line { OnOk result (self.new.line ≡ kept_front (self.old.line ++ part.now)) }
        ensures world { OnOk result (world_now self.new ≡ world_now self.old) }
        ensures held { OnOk result (self.new.held ≡ self.old.held) }
        ensures some { OnErr result (0 < length part.now) }
    {
        let room = KEPT - self.line.len();
        if part.is_empty() {
            return Ok(());
        }
        self.line.extend_from_slice(&part[..part.len().min(room)])?;
        Ok(())
    }

    // Writes the held replies.
    fn write_replies<K: Sink>(&mut self, sink: &mut K) -> Result<(), PlayFault>
        ensures written { OnOk result (self.new ≡ record self.old { held = [] }) }
        ensures took { OnOk result (K.took sink.old self.old.held sink.new) }
        ensures sound { OnOk result (K.failed sink.old 0 sink.new) }
        ensures beginning { TookBeginning (Between K.took sink.old sink.new) self.old.held }
        ensures failed { OnErr result (Failed (Between K.failed sink.old sink.new)) }
        ensures fault { IfErr result (λ fault. fault ≡ PlayFault.Write) }
    {
        let Ok(()) = write_all(sink, self.replies.as_bytes()) else {
            return Err(PlayFault::Write);
        };
        self.replies.clear();
        Ok(())
    }
}
