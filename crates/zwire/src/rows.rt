//! Worked examples of the definitions. Each function's contract has some; its body is empty.

ghost use Rattle.std.specs.Prelude.{◌≡◌, [], ◌∷◌, Ok};
ghost use Rattle.zcodec.specs.declared.fault.Fault.TheVariants.{Short, Invalid, Trailing};
ghost use Rattle.zcalls.specs.declared.refusal.Refusal.TheVariants.{BadVersion, Exhausted};
ghost use Rattle.zcalls.specs.declared.reply.PartReply.TheVariants as part;
ghost use Rattle.zcalls.specs.declared.reply.Reply.TheVariants as reported;
ghost use Rattle.zprotocol.specs.declared.process.Process.TheVariants.{Master, Server, Client};
ghost use Rattle.zwire.specs.declared.fault.FrameFault.TheVariants.{Cut, TooLong, Contents};
ghost use Rattle.zwire.specs.Replies.{reply};
ghost use Rattle.zwire.specs.Frames.{frame_of, contents, frame, IsFaultOf};
ghost use Rattle.zwire.specs.support.Samples.{a, submit, query, answer, update, ack, snapshot};
ghost use Rattle.zwire.specs.support.Samples.{new_pred, have_none, have_5, new_succ, become_head};
ghost use Rattle.zwire.specs.support.Samples.{become_tail, retire, joined, gone, config, no_chain};
ghost use Rattle.zwire.specs.support.Samples.{some_stat};

/// The frames between clients and servers.
pub fn calls_have_frames()
    ensures submit { frame.spell (frame_of (Client 2) (Server 1) submit)
        ≡ 0 ∷ 0 ∷ 0 ∷ 14 ∷ 2 ∷ 2 ∷ 1 ∷ 1 ∷ 0 ∷ 0 ∷ 0 ∷ 0 ∷ 0 ∷ 0 ∷ 0 ∷ 0 ∷ 7 ∷ 7 ∷ [] }
    ensures query { frame.spell (frame_of (Client 2) (Server 3) query)
        ≡ 0 ∷ 0 ∷ 0 ∷ 20 ∷ 2 ∷ 2 ∷ 1 ∷ 3 ∷ 1 ∷ 0 ∷ 0 ∷ 0 ∷ 0 ∷ 0 ∷ 0 ∷ 0 ∷ 8 ∷ 0 ∷ 0 ∷ 0 ∷ 0 ∷ 2
        ∷ 47 ∷ 97 ∷ [] }
    ensures answer { frame.spell (frame_of (Server 3) (Client 2) answer)
        ≡ 0 ∷ 0 ∷ 0 ∷ 15 ∷ 1 ∷ 3 ∷ 2 ∷ 2 ∷ 2 ∷ 0 ∷ 0 ∷ 0 ∷ 0 ∷ 0 ∷ 0 ∷ 0 ∷ 8 ∷ 11 ∷ 0 ∷ [] }
{}

/// The frames between servers. That of a snapshot has its epoch alone.
pub fn servers_have_frames()
    ensures update { frame.spell (frame_of (Server 1) (Server 2) update)
        ≡ 0 ∷ 0 ∷ 0 ∷ 31 ∷ 1 ∷ 1 ∷ 1 ∷ 2 ∷ 3 ∷ 0 ∷ 0 ∷ 0 ∷ 0 ∷ 0 ∷ 0 ∷ 0 ∷ 1 ∷ 0 ∷ 0 ∷ 0 ∷ 0 ∷ 0
        ∷ 0 ∷ 0 ∷ 5 ∷ 2 ∷ 0 ∷ 0 ∷ 0 ∷ 0 ∷ 0 ∷ 0 ∷ 0 ∷ 7 ∷ 7 ∷ [] }
    ensures ack { frame.spell (frame_of (Server 2) (Server 1) ack)
        ≡ 0 ∷ 0 ∷ 0 ∷ 21 ∷ 1 ∷ 2 ∷ 1 ∷ 1 ∷ 4 ∷ 0 ∷ 0 ∷ 0 ∷ 0 ∷ 0 ∷ 0 ∷ 0 ∷ 1 ∷ 0 ∷ 0 ∷ 0 ∷ 0 ∷ 0
        ∷ 0 ∷ 0 ∷ 5 ∷ [] }
    ensures snapshot { frame.spell (frame_of (Server 1) (Server 3) snapshot)
        ≡ 0 ∷ 0 ∷ 0 ∷ 13 ∷ 1 ∷ 1 ∷ 1 ∷ 3 ∷ 5 ∷ 0 ∷ 0 ∷ 0 ∷ 0 ∷ 0 ∷ 0 ∷ 0 ∷ 1 ∷ [] }
{}

/// The frames to and from the master.
pub fn the_master_has_frames()
    ensures new_pred { frame.spell (frame_of Master (Server 3) new_pred)
        ≡ 0 ∷ 0 ∷ 0 ∷ 13 ∷ 0 ∷ 1 ∷ 3 ∷ 6 ∷ 0 ∷ 0 ∷ 0 ∷ 0 ∷ 0 ∷ 0 ∷ 0 ∷ 2 ∷ 1 ∷ [] }
    ensures have_none { frame.spell (frame_of (Server 3) Master have_none)
        ≡ 0 ∷ 0 ∷ 0 ∷ 13 ∷ 1 ∷ 3 ∷ 0 ∷ 7 ∷ 0 ∷ 0 ∷ 0 ∷ 0 ∷ 0 ∷ 0 ∷ 0 ∷ 2 ∷ 0 ∷ [] }
    ensures have_5 { frame.spell (frame_of (Server 3) Master have_5)
        ≡ 0 ∷ 0 ∷ 0 ∷ 21 ∷ 1 ∷ 3 ∷ 0 ∷ 7 ∷ 0 ∷ 0 ∷ 0 ∷ 0 ∷ 0 ∷ 0 ∷ 0 ∷ 2 ∷ 1 ∷ 0 ∷ 0 ∷ 0 ∷ 0 ∷ 0
        ∷ 0 ∷ 0 ∷ 5 ∷ [] }
    ensures new_succ { frame.spell (frame_of Master (Server 1) new_succ)
        ≡ 0 ∷ 0 ∷ 0 ∷ 22 ∷ 0 ∷ 1 ∷ 1 ∷ 8 ∷ 0 ∷ 0 ∷ 0 ∷ 0 ∷ 0 ∷ 0 ∷ 0 ∷ 2 ∷ 3 ∷ 1 ∷ 0 ∷ 0 ∷ 0 ∷ 0
        ∷ 0 ∷ 0 ∷ 0 ∷ 5 ∷ [] }
    ensures become_head { frame.spell (frame_of Master (Server 2) become_head)
        ≡ 0 ∷ 0 ∷ 0 ∷ 12 ∷ 0 ∷ 1 ∷ 2 ∷ 9 ∷ 0 ∷ 0 ∷ 0 ∷ 0 ∷ 0 ∷ 0 ∷ 0 ∷ 2 ∷ [] }
    ensures become_tail { frame.spell (frame_of Master (Server 2) become_tail)
        ≡ 0 ∷ 0 ∷ 0 ∷ 12 ∷ 0 ∷ 1 ∷ 2 ∷ 10 ∷ 0 ∷ 0 ∷ 0 ∷ 0 ∷ 0 ∷ 0 ∷ 0 ∷ 2 ∷ [] }
    ensures retire { frame.spell (frame_of Master (Server 2) retire)
        ≡ 0 ∷ 0 ∷ 0 ∷ 4 ∷ 0 ∷ 1 ∷ 2 ∷ 11 ∷ [] }
    ensures joined { frame.spell (frame_of (Server 3) Master joined)
        ≡ 0 ∷ 0 ∷ 0 ∷ 12 ∷ 1 ∷ 3 ∷ 0 ∷ 12 ∷ 0 ∷ 0 ∷ 0 ∷ 0 ∷ 0 ∷ 0 ∷ 0 ∷ 2 ∷ [] }
    ensures gone { frame.spell (frame_of (Server 3) Master gone)
        ≡ 0 ∷ 0 ∷ 0 ∷ 4 ∷ 1 ∷ 3 ∷ 0 ∷ 13 ∷ [] }
    ensures config { frame.spell (frame_of Master (Client 31) config)
        ≡ 0 ∷ 0 ∷ 0 ∷ 16 ∷ 0 ∷ 2 ∷ 31 ∷ 14 ∷ 0 ∷ 0 ∷ 0 ∷ 0 ∷ 0 ∷ 0 ∷ 0 ∷ 2 ∷ 1 ∷ 1 ∷ 1 ∷ 3 ∷ [] }
    ensures no_chain { frame.spell (frame_of Master (Client 0) no_chain)
        ≡ 0 ∷ 0 ∷ 0 ∷ 14 ∷ 0 ∷ 2 ∷ 0 ∷ 14 ∷ 0 ∷ 0 ∷ 0 ∷ 0 ∷ 0 ∷ 0 ∷ 1 ∷ 2 ∷ 0 ∷ 0 ∷ [] }
{}

/// The bytes of replies.
pub fn replies_have_bytes()
    ensures created { reply.spell (reported.Created a) ≡ 0 ∷ 0 ∷ 0 ∷ 0 ∷ 2 ∷ 47 ∷ 97 ∷ [] }
    ensures deleted { reply.spell reported.Deleted ≡ 1 ∷ [] }
    ensures set { reply.spell (reported.Set some_stat)
        ≡ 2 ∷ 0 ∷ 0 ∷ 0 ∷ 0 ∷ 0 ∷ 0 ∷ 0 ∷ 1 ∷ 0 ∷ 0 ∷ 0 ∷ 0 ∷ 0 ∷ 0 ∷ 0 ∷ 2 ∷ 0 ∷ 0 ∷ 0 ∷ 0 ∷ 0
        ∷ 0 ∷ 0 ∷ 3 ∷ 0 ∷ 0 ∷ 0 ∷ 0 ∷ 0 ∷ 0 ∷ 0 ∷ 4 ∷ 0 ∷ 0 ∷ 0 ∷ 0 ∷ 0 ∷ 0 ∷ 0 ∷ 5 ∷ 0 ∷ 0 ∷ 0
        ∷ 0 ∷ 0 ∷ 0 ∷ 0 ∷ 6 ∷ 0 ∷ 0 ∷ 0 ∷ 0 ∷ 0 ∷ 0 ∷ 0 ∷ 7 ∷ 0 ∷ 0 ∷ 0 ∷ 0 ∷ 0 ∷ 0 ∷ 0 ∷ 8 ∷ 0
        ∷ 0 ∷ 0 ∷ 0 ∷ 0 ∷ 0 ∷ 0 ∷ 9 ∷ 0 ∷ 0 ∷ 0 ∷ 0 ∷ 0 ∷ 0 ∷ 0 ∷ 10 ∷ 0 ∷ 0 ∷ 0 ∷ 0 ∷ 0 ∷ 0 ∷ 0
        ∷ 11 ∷ [] }
    ensures multi { reply.spell (reported.Multi (part.Checked ∷ part.Deleted ∷ []))
        ≡ 3 ∷ 0 ∷ 0 ∷ 0 ∷ 0 ∷ 0 ∷ 0 ∷ 0 ∷ 2 ∷ 3 ∷ 1 ∷ [] }
    ensures created_part { reply.spell (reported.Multi (part.Created a ∷ []))
        ≡ 3 ∷ 0 ∷ 0 ∷ 0 ∷ 0 ∷ 0 ∷ 0 ∷ 0 ∷ 1 ∷ 0 ∷ 0 ∷ 0 ∷ 0 ∷ 2 ∷ 47 ∷ 97 ∷ [] }
    ensures opened { reply.spell (reported.Opened 5 10)
        ≡ 4 ∷ 0 ∷ 0 ∷ 0 ∷ 0 ∷ 0 ∷ 0 ∷ 0 ∷ 5 ∷ 0 ∷ 0 ∷ 0 ∷ 0 ∷ 0 ∷ 0 ∷ 0 ∷ 10 ∷ [] }
    ensures pinged { reply.spell reported.Pinged ≡ 5 ∷ [] }
    ensures closed { reply.spell reported.Closed ≡ 6 ∷ [] }
    ensures ticked { reply.spell (reported.Ticked 9 1 2)
        ≡ 7 ∷ 0 ∷ 0 ∷ 0 ∷ 0 ∷ 0 ∷ 0 ∷ 0 ∷ 9 ∷ 0 ∷ 0 ∷ 0 ∷ 0 ∷ 0 ∷ 0 ∷ 0 ∷ 1 ∷ 0 ∷ 0 ∷ 0 ∷ 0 ∷ 0
        ∷ 0 ∷ 0 ∷ 2 ∷ [] }
    ensures content { reply.spell (reported.Data (104 ∷ 105 ∷ []) some_stat)
        ≡ 8 ∷ 0 ∷ 0 ∷ 0 ∷ 2 ∷ 104 ∷ 105 ∷ 0 ∷ 0 ∷ 0 ∷ 0 ∷ 0 ∷ 0 ∷ 0 ∷ 1 ∷ 0 ∷ 0 ∷ 0 ∷ 0 ∷ 0 ∷ 0
        ∷ 0 ∷ 2 ∷ 0 ∷ 0 ∷ 0 ∷ 0 ∷ 0 ∷ 0 ∷ 0 ∷ 3 ∷ 0 ∷ 0 ∷ 0 ∷ 0 ∷ 0 ∷ 0 ∷ 0 ∷ 4 ∷ 0 ∷ 0 ∷ 0 ∷ 0
        ∷ 0 ∷ 0 ∷ 0 ∷ 5 ∷ 0 ∷ 0 ∷ 0 ∷ 0 ∷ 0 ∷ 0 ∷ 0 ∷ 6 ∷ 0 ∷ 0 ∷ 0 ∷ 0 ∷ 0 ∷ 0 ∷ 0 ∷ 7 ∷ 0 ∷ 0
        ∷ 0 ∷ 0 ∷ 0 ∷ 0 ∷ 0 ∷ 8 ∷ 0 ∷ 0 ∷ 0 ∷ 0 ∷ 0 ∷ 0 ∷ 0 ∷ 9 ∷ 0 ∷ 0 ∷ 0 ∷ 0 ∷ 0 ∷ 0 ∷ 0 ∷ 10
        ∷ 0 ∷ 0 ∷ 0 ∷ 0 ∷ 0 ∷ 0 ∷ 0 ∷ 11 ∷ [] }
    ensures exists { reply.spell (reported.Exists some_stat)
        ≡ 9 ∷ 0 ∷ 0 ∷ 0 ∷ 0 ∷ 0 ∷ 0 ∷ 0 ∷ 1 ∷ 0 ∷ 0 ∷ 0 ∷ 0 ∷ 0 ∷ 0 ∷ 0 ∷ 2 ∷ 0 ∷ 0 ∷ 0 ∷ 0 ∷ 0
        ∷ 0 ∷ 0 ∷ 3 ∷ 0 ∷ 0 ∷ 0 ∷ 0 ∷ 0 ∷ 0 ∷ 0 ∷ 4 ∷ 0 ∷ 0 ∷ 0 ∷ 0 ∷ 0 ∷ 0 ∷ 0 ∷ 5 ∷ 0 ∷ 0 ∷ 0
        ∷ 0 ∷ 0 ∷ 0 ∷ 0 ∷ 6 ∷ 0 ∷ 0 ∷ 0 ∷ 0 ∷ 0 ∷ 0 ∷ 0 ∷ 7 ∷ 0 ∷ 0 ∷ 0 ∷ 0 ∷ 0 ∷ 0 ∷ 0 ∷ 8 ∷ 0
        ∷ 0 ∷ 0 ∷ 0 ∷ 0 ∷ 0 ∷ 0 ∷ 9 ∷ 0 ∷ 0 ∷ 0 ∷ 0 ∷ 0 ∷ 0 ∷ 0 ∷ 10 ∷ 0 ∷ 0 ∷ 0 ∷ 0 ∷ 0 ∷ 0 ∷ 0
        ∷ 11 ∷ [] }
    ensures children { reply.spell (reported.Children ((97 ∷ []) ∷ (98 ∷ 99 ∷ []) ∷ []))
        ≡ 10 ∷ 0 ∷ 0 ∷ 0 ∷ 0 ∷ 0 ∷ 0 ∷ 0 ∷ 2 ∷ 0 ∷ 0 ∷ 0 ∷ 1 ∷ 97 ∷ 0 ∷ 0 ∷ 0 ∷ 2 ∷ 98 ∷ 99 ∷ [] }
    ensures refused { reply.spell (reported.Refused Exhausted) ≡ 11 ∷ 11 ∷ [] }
    ensures multi_refused { reply.spell (reported.MultiRefused 3 BadVersion)
        ≡ 12 ∷ 0 ∷ 0 ∷ 0 ∷ 0 ∷ 0 ∷ 0 ∷ 0 ∷ 3 ∷ 3 ∷ [] }
{}

/// A frame is read, and what follows it is left.
pub fn frames_are_read()
    ensures read { frame.read (0 ∷ 0 ∷ 0 ∷ 4 ∷ 0 ∷ 1 ∷ 2 ∷ 11 ∷ 9 ∷ [])
        ≡ Ok (frame_of Master (Server 2) retire, 9 ∷ []) }
{}

/// Bytes that don't begin with a frame. With more bytes, those that are cut may become one.
pub fn faults_are_reported()
    ensures none { IsFaultOf contents [] Cut }
    ensures part_of_a_length { IsFaultOf contents (0 ∷ 0 ∷ 0 ∷ []) Cut }
    ensures part_of_a_frame { IsFaultOf contents (0 ∷ 0 ∷ 0 ∷ 4 ∷ 0 ∷ 1 ∷ 2 ∷ []) Cut }
    ensures longest { IsFaultOf contents (127 ∷ 253 ∷ 56 ∷ 0 ∷ []) Cut }
    ensures too_long { IsFaultOf contents (127 ∷ 253 ∷ 56 ∷ 1 ∷ []) TooLong }
    ensures far_too_long { IsFaultOf contents (255 ∷ 255 ∷ 255 ∷ 255 ∷ []) TooLong }
    ensures empty { IsFaultOf contents (0 ∷ 0 ∷ 0 ∷ 0 ∷ []) (Contents Short) }
    ensures no_message { IsFaultOf contents (0 ∷ 0 ∷ 0 ∷ 3 ∷ 0 ∷ 1 ∷ 2 ∷ []) (Contents Short) }
    ensures other_process { IsFaultOf contents
        (0 ∷ 0 ∷ 0 ∷ 3 ∷ 3 ∷ 0 ∷ 11 ∷ []) (Contents Invalid) }
    ensures server_17 { IsFaultOf contents
        (0 ∷ 0 ∷ 0 ∷ 4 ∷ 0 ∷ 1 ∷ 17 ∷ 11 ∷ []) (Contents Invalid) }
    ensures client_32 { IsFaultOf contents
        (0 ∷ 0 ∷ 0 ∷ 4 ∷ 0 ∷ 2 ∷ 32 ∷ 11 ∷ []) (Contents Invalid) }
    ensures other_message { IsFaultOf contents
        (0 ∷ 0 ∷ 0 ∷ 4 ∷ 0 ∷ 1 ∷ 2 ∷ 15 ∷ []) (Contents Invalid) }
    ensures more { IsFaultOf contents
        (0 ∷ 0 ∷ 0 ∷ 5 ∷ 0 ∷ 1 ∷ 2 ∷ 11 ∷ 0 ∷ []) (Contents Trailing) }
{}
