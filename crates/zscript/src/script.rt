//! Plays a script from a source to a sink.
//!
//! # Why
//!
//! A line counts as played only where its LF was read, or the source reported its end: after a
//! fault an unfinished last line has no answer. That a line is played as soon as its LF is read is
//! tested, not stated: the contract speaks of the devices before and after the run.

ghost use Rattle.std.specs.Prelude.{◌≡◌, ◌<◌, length, OnOk, OnErr, IfErr};
ghost use Rattle.zscript.specs.Devices.{source_did, sink_did};
ghost use Rattle.zscript.specs.Outcome.{IsPlayed, IsCut, IsCutBy};
ghost use Rattle.zscript.specs.support.PlayerView.{IsFresh};
ghost use Rattle.zscript.specs.support.Ends.{PlaysBlocks};

use crate::fault::PlayFault;
use crate::limits::BLOCK;
use crate::player::Player;
use std::alloc::Global;
use zdevices::{Sink, Source};
use zprotocol::ServerId;

/// Plays a script to the end that its source reports: each line as soon as its LF is read, and at
/// the end a last line without LF. The chain begins with the servers up to `last`.
///
/// All replies to the lines that were read are written before more is read. After any fault the
/// sink has taken a prefix of the answers to the lines that were played. The text is the one under
/// the run's outcomes: what became of each event where a server could run out of memory.
pub fn play<S: Source, K: Sink>(
    alloc: Global,
    source: &mut S,
    sink: &mut K,
    last: ServerId,
) -> Result<(), PlayFault>
    ensures played { OnOk result (IsPlayed last
        (source_did S.Source source.old source.new) (sink_did K.Sink sink.old sink.new)) }
    ensures cut { OnErr result (IsCut last
        (source_did S.Source source.old source.new) (sink_did K.Sink sink.old sink.new)) }
    ensures fault { IfErr result (IsCutBy last
        (source_did S.Source source.old source.new) (sink_did K.Sink sink.old sink.new)) }
{
    let mut block = vec![in alloc; 0; BLOCK]?;
    let mut player = Player::new(alloc, last)?;
    let played = play_blocks(&mut player, source, sink, &mut block);
    drop(player);
    played
}

// Plays block by block, with a player that has read nothing, for any number of servers.
fn play_blocks<S: Source, K: Sink>(
    player: &mut Player,
    source: &mut S,
    sink: &mut K,
    block: &mut [u8],
) -> Result<(), PlayFault>
    requires fresh { IsFresh player.old }
    requires room { 0 < length block.old }
    ensures { PlaysBlocks result player.old
        S.Source source.old source.new K.Sink sink.old sink.new }
{
    loop {
        let Ok(count) = source.read(block) else {
            return Err(PlayFault::Read);
        };
        if count == 0 {
            player.finish(sink)?;
            return Ok(());
        }
        player.hear(sink, &block[..count])?;
    }
}
