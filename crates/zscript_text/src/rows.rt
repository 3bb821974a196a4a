//! Worked examples of the definitions. Each clause is one; the bodies do nothing.

ghost use Rattle.std.specs.Prelude.{◌≡◌, [], ◌∷◌, Some, None, Ok, Err, codes};
ghost use Rattle.zpath.specs.declared.fault.PathFault.TheVariants.{NotAbsolute};
ghost use Rattle.zcalls.specs.Part.{named, sequential};
ghost use Rattle.zcalls.specs.declared.call.Lifetime.TheVariants.{Persistent, WithTtl, Ephemeral, Container};
ghost use Rattle.zcalls.specs.declared.call.Update.TheVariants.{Create, Open, Ping, Close, Tick};
ghost use Rattle.zcalls.specs.declared.call.Query.TheVariants.{GetData};
ghost use Rattle.zcalls.specs.declared.call.Call.TheVariants.{Update, Query};
ghost use Rattle.zcalls.specs.declared.refusal.Refusal.TheVariants.{NoNode, NodeExists, NotEmpty, BadVersion};
ghost use Rattle.zcalls.specs.declared.refusal.Refusal.TheVariants.{SessionGone};
ghost use Rattle.zcalls.specs.declared.refusal.Refusal.TheVariants.{SequenceFull, PathLimit, RootFixed, Full};
ghost use Rattle.zcalls.specs.declared.refusal.Refusal.TheVariants.{TooManySessions, Exhausted};
ghost use Rattle.zcalls.specs.declared.reply.Reply.TheVariants as reply;
ghost use Rattle.zcalls.specs.declared.reply.Reply.TheVariants.{Created, Opened, Ticked, Refused};
ghost use Rattle.zscript_text.specs.declared.limits.TheConstants.{MAX_LINE, NUMBER_BOUND};
ghost use Rattle.ztree.specs.support.Samples.{a, some_stat};
ghost use Rattle.zscript_text.specs.declared.request.LineFault.TheVariants.{BadLine, BadPath, BadData};
ghost use Rattle.zscript_text.specs.LineWords.{number_of, client_of, data_of, data_text};
ghost use Rattle.zprotocol.specs.declared.process.Process.TheVariants.{Master, Server, Client};
ghost use Rattle.zscript_text.specs.declared.line.Line.TheVariants as line;
ghost use Rattle.zscript_text.specs.ProcessWords.{process_of, server_of, client_process_of};
ghost use Rattle.zscript_text.specs.Line.{Join, Retire, line_of};
ghost use Rattle.zscript_text.specs.Shape.{kind_of};
ghost use Rattle.zscript_text.specs.Reply.{reply_text, stat_text};
ghost use Rattle.zscript_text.specs.support.Rows.{asks, begins, get_a, create_root, first_stat};
ghost use Rattle.zscript_text.specs.support.Rows.{three_parts, one_part, two_bytes, no_bytes, refused_child};

/// Worked examples of words: numbers, clients, kinds and data.
#[tactic(auto, unfolding(crate::specs::Shape::kind_of, base64::proofs::OnLiterals::base64_on_literals))]
pub fn words()
    ensures zero { number_of (codes "0") ≡ Some 0 }
    ensures leading_zero { number_of (codes "01") ≡ None }
    ensures plus { number_of (codes "+1") ≡ None }
    ensures no_digit { number_of (codes "") ≡ None }
    ensures most { number_of (codes "4611686018427387903") ≡ Some 4611686018427387903 }
    ensures too_large { number_of (codes "4611686018427387904") ≡ None }
    ensures last_client { client_of (codes "31") ≡ Some 31 }
    ensures no_client { client_of (codes "32") ≡ None }
    ensures clock { client_of (codes "0") ≡ Some 0 }
    ensures owned { kind_of (codes "e:0") ≡ Some (named (Ephemeral 0)) }
    ensures owned_sequential { kind_of (codes "es:12") ≡ Some (sequential (Ephemeral 12)) }
    ensures no_session { kind_of (codes "e:") ≡ None }
    ensures loose_session { kind_of (codes "e:01") ≡ None }
    ensures other_kind { kind_of (codes "e") ≡ None }
    ensures container { kind_of (codes "c") ≡ Some (named Container) }
    ensures no_sequential_container { kind_of (codes "cs") ≡ None }
    ensures least_ttl { kind_of (codes "t:1") ≡ Some (named (WithTtl 1)) }
    ensures no_ttl { kind_of (codes "t:0") ≡ None }
    ensures most_ttl { kind_of (codes "t:1048576") ≡ Some (named (WithTtl 1048576)) }
    ensures more_ttl { kind_of (codes "t:1048577") ≡ None }
    ensures loose_ttl { kind_of (codes "t:01") ≡ None }
    ensures sequential_ttl { kind_of (codes "ts:5") ≡ Some (sequential (WithTtl 5)) }
    ensures no_sequential_ttl { kind_of (codes "ts:0") ≡ None }
    ensures no_bytes { data_of (codes "-") ≡ Some [] }
    ensures two_bytes { data_of (codes "aGk=") ≡ Some (104 ∷ 105 ∷ []) }
    ensures no_padding { data_of (codes "aGk") ≡ None }
    ensures loose_bits { data_of (codes "aGl=") ≡ None }
    ensures empty_word { data_of [] ≡ None }
    ensures shown { data_text (104 ∷ 105 ∷ []) ≡ codes "aGk=" }
    ensures none_shown { data_text [] ≡ codes "-" }
{}

/// Worked examples of lines: their meaning, or their fault.
#[tactic(auto, unfolding(crate::specs::Line::line_of, crate::specs::Shape::kind_of, crate::specs::Shape::parts_shape, zpath::specs::Faults::fault_of, base64::proofs::OnLiterals::base64_on_literals))]
pub fn lines()
    ensures unknown { line_of (codes "1 multi") ≡ Err BadLine }
    ensures empty { line_of (codes "") ≡ Err BadLine }
    ensures double_space { line_of (codes "1  get /") ≡ Err BadLine }
    ensures control { line_of (49 ∷ 32 ∷ 103 ∷ 101 ∷ 116 ∷ 32 ∷ 47 ∷ 13 ∷ []) ≡ Err BadLine }
    ensures clock_alone { line_of (codes "0 get a") ≡ Err BadLine }
    ensures tick_alone { line_of (codes "1 tick") ≡ Err BadLine }
    ensures one_tick { line_of (codes "0 tick 1") ≡ Err BadLine }
    ensures tick { line_of (codes "0 tick") ≡ asks 0 (Update Tick) }
    ensures open_nothing { line_of (codes "1 open 0") ≡ asks 1 (Update (Open 0)) }
    ensures open_too_much { line_of (codes "1 open 4611686018427387904") ≡ Err BadLine }
    ensures ping { line_of (codes "2 ping 7") ≡ asks 2 (Update (Ping 7)) }
    ensures close { line_of (codes "2 close 7") ≡ asks 2 (Update (Close 7)) }
    ensures close_two { line_of (codes "2 close 7 8") ≡ Err BadLine }
    ensures session_first { line_of (codes "1 create a e: aGk") ≡ Err BadLine }
    ensures relative { line_of (codes "1 get a") ≡ Err (BadPath NotAbsolute) }
    ensures no_padding { line_of (codes "1 create /a p aGk") ≡ Err BadData }
    ensures path_first { line_of (codes "1 create a p aGk") ≡ Err (BadPath NotAbsolute) }
    ensures kind_first { line_of (codes "1 create a x aGk") ≡ Err BadLine }
    ensures mark_is_a_word { line_of (codes "1 multi create ; p -") ≡ Err (BadPath NotAbsolute) }
    ensures mark_is_data { line_of (codes "1 multi create /a p ; ; check /a any") ≡ Err BadData }
    ensures mark_ends { line_of (codes "1 multi check /a any ;") ≡ Err BadLine }
    ensures lone_check { line_of (codes "1 check /a any") ≡ Err BadLine }
    ensures get { line_of (codes "1 get /a") ≡ asks 1 get_a }
    ensures create { line_of (codes "31 create / p -") ≡ asks 31 create_root }
{}

/// Worked examples of words that name processes.
pub fn process_words()
    ensures master { process_of (codes "m") ≡ Some Master }
    ensures last_server { process_of (codes "s16") ≡ Some (Server 16) }
    ensures last_client { process_of (codes "c31") ≡ Some (Client 31) }
    ensures clock { client_process_of (codes "c0") ≡ Some 0 }
    ensures no_server { process_of (codes "s17") ≡ None }
    ensures server_zero { server_of (codes "s0") ≡ None }
    ensures loose_server { server_of (codes "s01") ≡ None }
    ensures bare_server { server_of (codes "s") ≡ None }
    ensures no_client { process_of (codes "c32") ≡ None }
    ensures other_word { process_of (codes "x1") ≡ None }
{}

/// Worked examples of lines that are events of the chain.
#[tactic(auto, unfolding(crate::specs::Line::line_of, zpath::specs::Faults::fault_of))]
pub fn event_lines()
    ensures take { line_of (codes "take c1 s1") ≡ Ok (line.Take (Client 1) (Server 1)) }
    ensures own_link { line_of (codes "take s1 s1") ≡ Ok (line.Take (Server 1) (Server 1)) }
    ensures no_server { line_of (codes "take s17 m") ≡ Err BadLine }
    ensures one_process { line_of (codes "take m") ≡ Err BadLine }
    ensures three_processes { line_of (codes "take m s1 s2") ≡ Err BadLine }
    ensures ignore { line_of (codes "ignore m c0") ≡ Ok (line.Ignore Master (Client 0)) }
    ensures fail { line_of (codes "fail s1") ≡ Ok (line.Fail 1) }
    ensures server_zero { line_of (codes "fail s0") ≡ Err BadLine }
    ensures join { line_of (codes "join s2") ≡ Ok (Join 2) }
    ensures client_joins { line_of (codes "join c1") ≡ Err BadLine }
    ensures retire { line_of (codes "retire s2") ≡ Ok (Retire 2) }
    ensures client_retires { line_of (codes "retire c1") ≡ Err BadLine }
    ensures retry { line_of (codes "retry c1") ≡ Ok (line.Retry 1) }
    ensures server_retries { line_of (codes "retry s1") ≡ Err BadLine }
    ensures settle { line_of (codes "settle") ≡ Ok line.Settle }
    ensures settle_more { line_of (codes "settle 1") ≡ Err BadLine }
    ensures begin { line_of (codes "0 begin tick") ≡ begins 0 (Update Tick) }
    ensures clock_alone { line_of (codes "0 begin get /") ≡ Err BadLine }
    ensures tick_alone { line_of (codes "1 begin tick") ≡ Err BadLine }
    ensures begin_alone { line_of (codes "1 begin") ≡ Err BadLine }
    ensures begin_path { line_of (codes "1 begin get a") ≡ Err (BadPath NotAbsolute) }
{}

/// Worked examples of the text of replies.
pub fn replies()
    ensures refused { reply_text (Refused NoNode) ≡ codes "no NoNode" }
    ensures opened { reply_text (Opened 1 2) ≡ codes "ok session 1 timeout 2" }
    ensures ticked { reply_text (Ticked 2 1 0) ≡ codes "ok tick 2 ended 1" }
    ensures removed { reply_text (Ticked 2 0 3) ≡ codes "ok tick 2 ended 0 removed 3" }
    ensures created { reply_text (Created ((97 ∷ []) ∷ (98 ∷ []) ∷ [])) ≡ codes "ok /a/b" }
    ensures stat { stat_text first_stat ≡ codes " 1 1 1 0 0 0 0 0 2 0" }
{}

/// Worked examples of the text of successful replies, one for each kind.
#[tactic(auto, unfolding(base64::proofs::OnLiterals::base64_on_literals))]
pub fn done_replies()
    ensures deleted { reply_text reply.Deleted ≡ codes "ok deleted" }
    ensures set { reply_text (reply.Set some_stat) ≡ codes "ok stat 1 2 3 4 5 6 8 9 2 11" }
    ensures multi { reply_text three_parts ≡ codes "ok multi /a ; deleted ; checked" }
    ensures multi_set { reply_text one_part ≡ codes "ok multi stat 1 2 3 4 5 6 8 9 2 11" }
    ensures pinged { reply_text reply.Pinged ≡ codes "ok pinged" }
    ensures closed { reply_text reply.Closed ≡ codes "ok closed" }
    ensures data { reply_text two_bytes ≡ codes "ok data aGk= stat 1 2 3 4 5 6 8 9 2 11" }
    ensures no_data { reply_text no_bytes ≡ codes "ok data - stat 1 2 3 4 5 6 8 9 2 11" }
    ensures exists { reply_text (reply.Exists some_stat) ≡ codes "ok stat 1 2 3 4 5 6 8 9 2 11" }
    ensures children { reply_text (reply.Children (a ∷ (a ∷ []))) ≡ codes "ok 2 a a" }
{}

/// Worked examples of the text of refusals: all of them.
pub fn refused_replies()
    ensures no_node { reply_text (Refused NoNode) ≡ codes "no NoNode" }
    ensures node_exists { reply_text (Refused NodeExists) ≡ codes "no NodeExists" }
    ensures not_empty { reply_text (Refused NotEmpty) ≡ codes "no NotEmpty" }
    ensures bad_version { reply_text (Refused BadVersion) ≡ codes "no BadVersion" }
    ensures ephemeral_parent { reply_text refused_child ≡ codes "no NoChildrenForEphemerals" }
    ensures session_gone { reply_text (Refused SessionGone) ≡ codes "no SessionGone" }
    ensures sequence_full { reply_text (Refused SequenceFull) ≡ codes "no SequenceFull" }
    ensures path_limit { reply_text (Refused PathLimit) ≡ codes "no PathLimit" }
    ensures root_fixed { reply_text (Refused RootFixed) ≡ codes "no RootFixed" }
    ensures full { reply_text (Refused Full) ≡ codes "no Full" }
    ensures too_many_sessions { reply_text (Refused TooManySessions)
        ≡ codes "no TooManySessions" }
    ensures exhausted { reply_text (Refused Exhausted) ≡ codes "no Exhausted" }
    ensures multi { reply_text (reply.MultiRefused 12 BadVersion)
        ≡ codes "no multi 12 BadVersion" }
{}

/// The limits as numbers.
pub fn limits_are_numbers()
    ensures line { MAX_LINE ≡ 524288 }
    ensures number { NUMBER_BOUND ≡ 4611686018427387904 }
{}
