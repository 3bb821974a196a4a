//! Worked examples of the definitions. Each function's contract has some; its body does nothing.

ghost use Rattle.std.specs.Prelude.{◌≡◌, pos, ℕ, List, [], ◌∷◌, Option, None, Some, true, false};
ghost use Rattle.std.specs.Prelude.{Ok, Err, map};
ghost use Rattle.zcodec.specs.declared.fault.Fault.TheVariants.{Short, Long, Invalid, Trailing};
ghost use Rattle.zcodec.specs.Readers.{whole};
ghost use Rattle.zjute.specs.declared.request.Asked.TheVariants as asks;
ghost use Rattle.zjute.specs.Jute.{neg};
ghost use Rattle.zjute.specs.Frames.{Whole, Partial, TooLong, next_of};
ghost use Rattle.zjute.specs.Connecting.{connect_request, connect_response};
ghost use Rattle.zjute.specs.Asking.{request};
ghost use Rattle.zjute.specs.Stats.{stat};
ghost use Rattle.zjute.specs.Codes.{code_number, codes, code_of, EachHasItsNumber};
ghost use Rattle.zjute.specs.Replies.{reply_text};
ghost use Rattle.zjute.specs.WatchNumbers.{mode_of, type_of};
ghost use Rattle.zjute.specs.declared.watch_type.AddMode.TheVariants as mode;
ghost use Rattle.zjute.specs.declared.watch_type.WatchType.TheVariants as typed;
ghost use Rattle.zjute.specs.Events.{event_number, state_number, event_text};
ghost use Rattle.zjute.specs.support.Kazoo.{create_bytes, delete_bytes, exists_bytes};
ghost use Rattle.zjute.specs.support.Kazoo.{get_data_bytes, set_data_bytes, get_acl_bytes};
ghost use Rattle.zjute.specs.support.Kazoo.{set_acl_bytes, get_children_bytes, sync_bytes};
ghost use Rattle.zjute.specs.support.Kazoo.{ping_bytes, get_children_2_bytes, multi_bytes};
ghost use Rattle.zjute.specs.support.Kazoo.{create_2_bytes, auth_bytes, close_bytes};
ghost use Rattle.zjute.specs.support.Kazoo.{reconfig_bytes, create_asked, delete_asked};
ghost use Rattle.zjute.specs.support.Kazoo.{exists_asked, get_data_asked, set_data_asked};
ghost use Rattle.zjute.specs.support.Kazoo.{get_acl_asked, set_acl_asked, get_children_asked};
ghost use Rattle.zjute.specs.support.Kazoo.{sync_asked, ping_asked, get_children_2_asked};
ghost use Rattle.zjute.specs.support.Kazoo.{multi_asked, create_2_asked, auth_asked, close_asked};
ghost use Rattle.zjute.specs.support.Kazoo.{reconfig_asked, asking, connect_front, connecting};
ghost use Rattle.zjute.specs.support.Kazoo.{sent};
ghost use Rattle.zjute.specs.support.Sent.{created, refused, reported_data, reported_null, reported_names};
ghost use Rattle.zjute.specs.support.Sent.{reported_acl, multi_done, multi_refused, multi_kinds};
ghost use Rattle.zjute.specs.support.Sent.{created_bytes, refused_bytes, reported_data_bytes};
ghost use Rattle.zjute.specs.support.Sent.{reported_null_bytes, reported_names_bytes, reported_acl_bytes};
ghost use Rattle.zjute.specs.support.Sent.{watched, watched_bytes, counted, counted_bytes};
ghost use Rattle.zjute.specs.support.Sent.{named, named_bytes, no_token, no_token_bytes};
ghost use Rattle.zjute.specs.support.Sent.{multi_done_bytes, multi_refused_bytes};
ghost use Rattle.zjute.specs.support.Sent.{multi_kinds_bytes, event_bytes, data_changed};
ghost use Rattle.zjute.specs.support.Sent.{some_stat, stat_bytes, connected_front, connected};
ghost use Rattle.zjute.specs.support.Rarer.{check_bytes, check_watches_bytes};
ghost use Rattle.zjute.specs.support.Rarer.{remove_watches_bytes, create_ttl_bytes, create_container_bytes};
ghost use Rattle.zjute.specs.support.Rarer.{multi_read_bytes, set_watches_bytes};
ghost use Rattle.zjute.specs.support.Rarer.{set_watches_2_bytes, add_watch_bytes};
ghost use Rattle.zjute.specs.support.Rarer.{container_bytes, check_asked, check_watches_asked};
ghost use Rattle.zjute.specs.support.Rarer.{remove_watches_asked, create_ttl_asked, create_container_asked};
ghost use Rattle.zjute.specs.support.Rarer.{multi_read_asked, set_watches_asked};
ghost use Rattle.zjute.specs.support.Rarer.{set_watches_2_asked, add_watch_asked};
ghost use Rattle.zjute.specs.support.Rarer.{container_asked, sasl_bytes, sasl_asked};
ghost use Rattle.zjute.specs.support.Rarer.{get_ephemerals_bytes, get_ephemerals_asked};
ghost use Rattle.zjute.specs.support.Rarer.{get_all_children_number_bytes};
ghost use Rattle.zjute.specs.support.Rarer.{get_all_children_number_asked};
ghost use Rattle.zjute.specs.support.Rarer.{who_am_i_bytes, who_am_i_asked};
ghost use Rattle.zjute.specs.support.Numbers.{code_numbers, events, event_numbers, states};
ghost use Rattle.zjute.specs.support.Numbers.{state_numbers};

/// The frame at the front of the received bytes.
pub fn frames_are_cut()
    ensures none { next_of [] ≡ Partial }
    ensures partial_length { next_of (0 ∷ 0 ∷ 0 ∷ []) ≡ Partial }
    ensures partial { next_of (0 ∷ 0 ∷ 0 ∷ 2 ∷ 5 ∷ []) ≡ Partial }
    ensures empty { next_of (0 ∷ 0 ∷ 0 ∷ 0 ∷ []) ≡ Whole [] [] }
    ensures whole { next_of (0 ∷ 0 ∷ 0 ∷ 2 ∷ 5 ∷ 6 ∷ 7 ∷ []) ≡ Whole (5 ∷ 6 ∷ []) (7 ∷ []) }
    ensures longest { next_of (0 ∷ 15 ∷ 255 ∷ 255 ∷ []) ≡ Partial }
    ensures too_long { next_of (0 ∷ 16 ∷ 0 ∷ 0 ∷ []) ≡ TooLong }
    ensures below_0 { next_of (255 ∷ 255 ∷ 255 ∷ 255 ∷ []) ≡ TooLong }
{}

/// The four-letter words that a client may send first, such as `ruok`, are not lengths of frames.
pub fn words_are_no_frames()
    ensures ruok { next_of (114 ∷ 117 ∷ 111 ∷ 107 ∷ []) ≡ TooLong }
    ensures srvr { next_of (115 ∷ 114 ∷ 118 ∷ 114 ∷ []) ≡ TooLong }
    ensures mntr { next_of (109 ∷ 110 ∷ 116 ∷ 114 ∷ []) ≡ TooLong }
    ensures isro { next_of (105 ∷ 115 ∷ 114 ∷ 111 ∷ []) ≡ TooLong }
{}

/// Requests as kazoo sends them.
pub fn requests_are_read()
    ensures create { whole request create_bytes ≡ Ok create_asked }
    ensures delete { whole request delete_bytes ≡ Ok delete_asked }
    ensures exists { whole request exists_bytes ≡ Ok exists_asked }
    ensures get_data { whole request get_data_bytes ≡ Ok get_data_asked }
    ensures set_data { whole request set_data_bytes ≡ Ok set_data_asked }
    ensures get_acl { whole request get_acl_bytes ≡ Ok get_acl_asked }
    ensures set_acl { whole request set_acl_bytes ≡ Ok set_acl_asked }
    ensures get_children { whole request get_children_bytes ≡ Ok get_children_asked }
{}

/// More requests as kazoo sends them.
pub fn more_requests_are_read()
    ensures sync { whole request sync_bytes ≡ Ok sync_asked }
    ensures ping { whole request ping_bytes ≡ Ok ping_asked }
    ensures get_children_2 { whole request get_children_2_bytes ≡ Ok get_children_2_asked }
    ensures multi { whole request multi_bytes ≡ Ok multi_asked }
    ensures create_2 { whole request create_2_bytes ≡ Ok create_2_asked }
    ensures auth { whole request auth_bytes ≡ Ok auth_asked }
    ensures close { whole request close_bytes ≡ Ok close_asked }
    ensures reconfig { whole request reconfig_bytes ≡ Ok reconfig_asked }
{}

/// Requests as other clients send them.
pub fn rarer_requests_are_read()
    ensures check { whole request check_bytes ≡ Ok check_asked }
    ensures check_watches { whole request check_watches_bytes ≡ Ok check_watches_asked }
    ensures remove_watches { whole request remove_watches_bytes ≡ Ok remove_watches_asked }
    ensures create_ttl { whole request create_ttl_bytes ≡ Ok create_ttl_asked }
    ensures create_container { whole request create_container_bytes ≡ Ok create_container_asked }
    ensures multi_read { whole request multi_read_bytes ≡ Ok multi_read_asked }
    ensures set_watches { whole request set_watches_bytes ≡ Ok set_watches_asked }
    ensures set_watches_2 { whole request set_watches_2_bytes ≡ Ok set_watches_2_asked }
    ensures add_watch { whole request add_watch_bytes ≡ Ok add_watch_asked }
    ensures container { whole request container_bytes ≡ Ok container_asked }
    ensures sasl { whole request sasl_bytes ≡ Ok sasl_asked }
    ensures get_ephemerals { whole request get_ephemerals_bytes ≡ Ok get_ephemerals_asked }
    ensures get_all_children_number { whole request get_all_children_number_bytes
        ≡ Ok get_all_children_number_asked }
    ensures who_am_i { whole request who_am_i_bytes ≡ Ok who_am_i_asked }
{}

/// The leftmost fault is returned. Null isn't empty.
pub fn faults_are_reported()
    ensures cut { whole request (0 ∷ 0 ∷ 0 ∷ 1 ∷ 0 ∷ 0 ∷ 0 ∷ []) ≡ Err Short }
    ensures cut_text { whole request (sent 6 (0 ∷ 0 ∷ 0 ∷ 2 ∷ 47 ∷ [])) ≡ Err Short }
    ensures long_text { whole request (sent 6 (255 ∷ 255 ∷ 255 ∷ 254 ∷ [])) ≡ Err Long }
    ensures null_text { whole request (sent 6 (255 ∷ 255 ∷ 255 ∷ 255 ∷ []))
        ≡ Ok (asking 1 (asks.GetAcl None)) }
    ensures null_token { whole request (sent 102 (255 ∷ 255 ∷ 255 ∷ 255 ∷ [])) ≡ Err Long }
    ensures empty_text { whole request (sent 6 (0 ∷ 0 ∷ 0 ∷ 0 ∷ []))
        ≡ Ok (asking 1 (asks.GetAcl (Some []))) }
    ensures flag { whole request (sent 3 (0 ∷ 0 ∷ 0 ∷ 1 ∷ 47 ∷ 2 ∷ [])) ≡ Err Invalid }
    ensures more { whole request (sent 11 (0 ∷ [])) ≡ Err Trailing }
    ensures no_end { whole request (sent 14 []) ≡ Err Short }
    ensures odd_part { whole request (sent 14 (0 ∷ 0 ∷ 0 ∷ 3 ∷ 0 ∷ 255 ∷ 255 ∷ 255 ∷ 255 ∷ []))
        ≡ Err Invalid }
{}

/// The first frame of a connection, with and without its last byte, and the response.
pub fn connecting()
    ensures without { whole connect_request (connect_front []) ≡ Ok (connecting None) }
    ensures writes { whole connect_request (connect_front (0 ∷ [])) ≡ Ok (connecting (Some false)) }
    ensures reads { whole connect_request (connect_front (1 ∷ [])) ≡ Ok (connecting (Some true)) }
    ensures flag { whole connect_request (connect_front (2 ∷ [])) ≡ Err Invalid }
    ensures more { whole connect_request (connect_front (0 ∷ 0 ∷ [])) ≡ Err Trailing }
    ensures answer { connect_response.spell (connected (Some false)) ≡ connected_front (0 ∷ []) }
    ensures old_answer { connect_response.spell (connected None) ≡ connected_front [] }
{}

/// Replies as they are sent to kazoo.
pub fn replies_are_spelled()
    ensures created { reply_text created ≡ created_bytes }
    ensures refused { reply_text refused ≡ refused_bytes }
    ensures reported_data { reply_text reported_data ≡ reported_data_bytes }
    ensures reported_null { reply_text reported_null ≡ reported_null_bytes }
    ensures reported_names { reply_text reported_names ≡ reported_names_bytes }
    ensures reported_acl { reply_text reported_acl ≡ reported_acl_bytes }
    ensures watched { reply_text watched ≡ watched_bytes }
    ensures counted { reply_text counted ≡ counted_bytes }
    ensures named { reply_text named ≡ named_bytes }
    ensures no_token { reply_text no_token ≡ no_token_bytes }
    ensures multi_done { reply_text multi_done ≡ multi_done_bytes }
    ensures multi_refused { reply_text multi_refused ≡ multi_refused_bytes }
    ensures multi_kinds { reply_text multi_kinds ≡ multi_kinds_bytes }
    ensures event { event_text (neg 1) data_changed ≡ event_bytes }
    ensures stat { stat.spell some_stat ≡ stat_bytes }
{}

/// Codes have different numbers, and any other number has no code.
pub fn codes_are_numbers()
    ensures each { EachHasItsNumber }
    ensures numbers { map code_number codes ≡ code_numbers }
    ensures none { code_of (neg 126) ≡ None }
    ensures unknown { code_of (pos 1) ≡ None }
{}

/// The numbers of the types of watches, and of the modes of added ones. Others have none.
pub fn watches_are_numbers()
    ensures children { type_of (pos 1) ≡ Some typed.Children }
    ensures of_data { type_of (pos 2) ≡ Some typed.Data }
    ensures any { type_of (pos 3) ≡ Some typed.Any }
    ensures no_type { type_of (pos 4) ≡ None }
    ensures zero_type { type_of (pos 0) ≡ None }
    ensures persistent { mode_of (pos 0) ≡ Some mode.Persistent }
    ensures recursive { mode_of (pos 1) ≡ Some mode.Recursive }
    ensures no_mode { mode_of (pos 2) ≡ None }
    ensures below { mode_of (neg 1) ≡ None }
{}

/// The numbers of the types of events, and of the states.
pub fn events_are_numbers()
    ensures events { map event_number events ≡ event_numbers }
    ensures states { map state_number states ≡ state_numbers }
{}
