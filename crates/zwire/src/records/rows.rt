//! Worked examples of the definitions. Each function's contract has some; its body is empty.

ghost use Rattle.std.specs.Prelude.{◌≡◌, [], ◌∷◌, ◌++◌, Ok, Err, codes};
ghost use Rattle.zcodec.specs.declared.fault.Fault.TheVariants.{Short, Long, Invalid, Trailing};
ghost use Rattle.zcodec.specs.Readers.{whole};
ghost use Rattle.zwire.specs.declared.records.record.Record.TheVariants.{Fail, Join, Retire, Row};
ghost use Rattle.zwire.specs.records.Records.{logged, line_of, text_of, IsBadLine};
ghost use Rattle.zwire.specs.records.support.Samples.{password, create, create_for_7, create_container, delete, set_root, set_acl};
ghost use Rattle.zwire.specs.records.support.Samples.{multi, open_for_10, ping, close, tick};

/// The bytes of changes of nodes, after the two tags of each.
pub fn changes_have_bytes()
    ensures create { logged.spell create
        ≡ 1 ∷ 0 ∷ 0 ∷ 0 ∷ 0 ∷ 2 ∷ 47 ∷ 97 ∷ 0 ∷ 0 ∷ 0 ∷ 0 ∷ 2 ∷ 104 ∷ 105 ∷ [] }
    ensures create_for_7 { logged.spell create_for_7
        ≡ 1 ∷ 0 ∷ 0 ∷ 0 ∷ 0 ∷ 2 ∷ 47 ∷ 97 ∷ 2 ∷ 0 ∷ 0 ∷ 0 ∷ 0 ∷ 0 ∷ 0 ∷ 0 ∷ 7
        ∷ 0 ∷ 0 ∷ 0 ∷ 0 ∷ [] }
    ensures create_container { logged.spell create_container
        ≡ 1 ∷ 0 ∷ 0 ∷ 0 ∷ 0 ∷ 2 ∷ 47 ∷ 97 ∷ 6 ∷ 0 ∷ 0 ∷ 0 ∷ 0 ∷ [] }
    ensures delete { logged.spell delete
        ≡ 1 ∷ 1 ∷ 0 ∷ 0 ∷ 0 ∷ 2 ∷ 47 ∷ 97 ∷ 1 ∷ 0 ∷ 0 ∷ 0 ∷ 0 ∷ 0 ∷ 0 ∷ 0 ∷ 3 ∷ [] }
    ensures set { logged.spell set_root ≡ 1 ∷ 2 ∷ 0 ∷ 0 ∷ 0 ∷ 1 ∷ 47 ∷ 0 ∷ 0 ∷ 0 ∷ 0 ∷ 0 ∷ [] }
    ensures set_acl { logged.spell set_acl
        ≡ 1 ∷ 8 ∷ 0 ∷ 0 ∷ 0 ∷ 2 ∷ 47 ∷ 97 ∷ 1 ∷ 0 ∷ 0 ∷ 0 ∷ 0 ∷ 0 ∷ 0 ∷ 0 ∷ 3 ∷ [] }
    ensures multi { logged.spell multi
        ≡ 1 ∷ 3 ∷ 0 ∷ 0 ∷ 0 ∷ 2 ∷ 3 ∷ 0 ∷ 0 ∷ 0 ∷ 2 ∷ 47 ∷ 97 ∷ 0
        ∷ 0 ∷ 0 ∷ 0 ∷ 0 ∷ 2 ∷ 47 ∷ 98 ∷ 4 ∷ 0 ∷ 0 ∷ 0 ∷ 0 ∷ 0 ∷ 0 ∷ 0 ∷ 5
        ∷ 0 ∷ 0 ∷ 0 ∷ 0 ∷ [] }
{}

/// The bytes of the other records.
pub fn sessions_and_orders_have_bytes()
    ensures password { logged.spell password
        ≡ 0 ∷ 1 ∷ 2 ∷ 3 ∷ 4 ∷ 5 ∷ 6 ∷ 7 ∷ 8 ∷ 9 ∷ 10 ∷ 11 ∷ 12 ∷ 13 ∷ 14 ∷ 15 ∷ 16 ∷ [] }
    ensures opened { logged.spell open_for_10
        ≡ 1 ∷ 4 ∷ 0 ∷ 0 ∷ 0 ∷ 0 ∷ 0 ∷ 0 ∷ 0 ∷ 10 ∷ [] }
    ensures pinged { logged.spell ping ≡ 1 ∷ 5 ∷ 0 ∷ 0 ∷ 0 ∷ 0 ∷ 0 ∷ 0 ∷ 0 ∷ 5 ∷ [] }
    ensures closed { logged.spell close ≡ 1 ∷ 6 ∷ 0 ∷ 0 ∷ 0 ∷ 0 ∷ 0 ∷ 0 ∷ 1 ∷ 2 ∷ [] }
    ensures ticked { logged.spell tick ≡ 1 ∷ 7 ∷ [] }
    ensures failed { logged.spell (Fail 1) ≡ 2 ∷ 1 ∷ [] }
    ensures joined { logged.spell (Join 2) ≡ 3 ∷ 2 ∷ [] }
    ensures retired { logged.spell (Retire 16) ≡ 4 ∷ 16 ∷ [] }
    ensures row { logged.spell (Row (7 ∷ 8 ∷ [])) ≡ 5 ∷ 0 ∷ 0 ∷ 0 ∷ 2 ∷ 7 ∷ 8 ∷ [] }
{}

/// The text of a log.
pub fn logs_have_lines()
    ensures none { text_of [] ≡ [] }
    ensures tick { line_of tick ≡ codes "AQc=" ++ 10 ∷ [] }
    ensures password { line_of password ≡ codes "AAECAwQFBgcICQoLDA0ODxA=" ++ 10 ∷ [] }
    ensures two { text_of (Fail 1 ∷ create ∷ [])
        ≡ codes "AgE=" ++ 10 ∷ codes "AQAAAAACL2EAAAAAAmhp" ++ 10 ∷ [] }
{}

/// Bytes that are a record, and bytes that aren't.
pub fn bytes_are_records()
    ensures read { whole logged (1 ∷ 7 ∷ []) ≡ Ok tick }
    ensures no_bytes { whole logged [] ≡ Err Short }
    ensures other_tag { whole logged (6 ∷ []) ≡ Err Invalid }
    ensures longest_row { whole logged (5 ∷ 0 ∷ 16 ∷ 20 ∷ 22 ∷ []) ≡ Err Short }
    ensures long_row { whole logged (5 ∷ 0 ∷ 16 ∷ 20 ∷ 23 ∷ []) ≡ Err Long }
    ensures longest_data { whole logged (1 ∷ 2 ∷ 0 ∷ 0 ∷ 0 ∷ 1 ∷ 47 ∷ 0 ∷ 0 ∷ 15 ∷ 255 ∷ 167 ∷ [])
        ≡ Err Short }
    ensures long_data { whole logged (1 ∷ 2 ∷ 0 ∷ 0 ∷ 0 ∷ 1 ∷ 47 ∷ 0 ∷ 0 ∷ 15 ∷ 255 ∷ 168 ∷ [])
        ≡ Err Long }
    ensures short_row { whole logged (5 ∷ 0 ∷ 0 ∷ 0 ∷ 2 ∷ 7 ∷ []) ≡ Err Short }
    ensures other_change { whole logged (1 ∷ 9 ∷ []) ≡ Err Invalid }
    ensures no_parts { whole logged (1 ∷ 3 ∷ 0 ∷ 0 ∷ 0 ∷ 0 ∷ []) ≡ Err Invalid }
    ensures most_parts { whole logged (1 ∷ 3 ∷ 0 ∷ 0 ∷ 4 ∷ 0 ∷ []) ≡ Err Short }
    ensures many_parts { whole logged (1 ∷ 3 ∷ 0 ∷ 0 ∷ 4 ∷ 1 ∷ []) ≡ Err Long }
    ensures no_server { whole logged (2 ∷ 0 ∷ []) ≡ Err Invalid }
    ensures server_17 { whole logged (2 ∷ 17 ∷ []) ≡ Err Invalid }
    ensures relative_path { whole logged (1 ∷ 1 ∷ 0 ∷ 0 ∷ 0 ∷ 1 ∷ 97 ∷ 0 ∷ []) ≡ Err Invalid }
    ensures short_password { whole logged (0 ∷ 1 ∷ 2 ∷ []) ≡ Err Short }
    ensures more { whole logged (1 ∷ 7 ∷ 0 ∷ []) ≡ Err Trailing }
{}

/// The first line of a text that isn't a record.
pub fn lines_are_counted()
    ensures unended { IsBadLine (codes "AQc=") 1 }
    ensures empty { IsBadLine (codes "AQc=" ++ 10 ∷ 10 ∷ []) 2 }
{}
