//! Worked examples of the definitions. The functions do nothing.

ghost use Rattle.std.specs.Prelude.{◌≡◌, true, false, [], ◌∷◌, None, Some};
ghost use Rattle.std.specs.FinMap.{empty, get, insert};
ghost use Rattle.zconnections.specs.attachments.Attachments.{all_rested, left, new_attachment};
ghost use Rattle.zconnections.specs.attachments.Attachments.{rested, restored_attachment, taken_up, touched};
ghost use Rattle.zconnections.specs.attachments.Attachments.{touched_ids, with_changed, with_ephemeral, with_seat};
ghost use Rattle.zconnections.specs.attachments.support.Samples.{some_attachment, some_attachments};

/// One attachment: connection 3 opened the session, and two ticks came.
pub fn one_attachment()
    ensures opened { new_attachment 3 ≡ record {
      connection = Some 3;
      is_touched = true;
      was_touched = false;
      made_ephemeral = false;
    } }
    ensures restored { restored_attachment ≡ record {
      connection = None;
      is_touched = true;
      was_touched = false;
      made_ephemeral = true;
    } }
    ensures taken_up { taken_up 5 some_attachment ≡ record {
      connection = Some 5;
      is_touched = true;
      was_touched = false;
      made_ephemeral = false;
    } }
    ensures touched { touched some_attachment ≡ record {
      connection = Some 3;
      is_touched = true;
      was_touched = false;
      made_ephemeral = false;
    } }
    ensures noted { with_ephemeral some_attachment ≡ record {
      connection = Some 3;
      is_touched = false;
      was_touched = false;
      made_ephemeral = true;
    } }
    ensures left { left some_attachment ≡ record {
      connection = None;
      is_touched = false;
      was_touched = false;
      made_ephemeral = false;
    } }
    ensures rested { rested (taken_up 5 some_attachment) ≡ record {
      connection = Some 5;
      is_touched = false;
      was_touched = true;
      made_ephemeral = false;
    } }
{}

/// Connection 5 takes a session. An unknown one was opened earlier.
#[tactic(auto, using(crate::proofs::attachments_lemmas::Entries::written))]
pub fn sessions_are_taken_up()
    ensures here { with_seat some_attachments 7 5
        ≡ insert some_attachments 7 (taken_up 5 some_attachment) }
    ensures not_here { with_seat empty 7 5 ≡ insert empty 7 (taken_up 5 restored_attachment) }
{}

/// Sessions that sent a request. They count as such until the second `rest` after it.
#[tactic(auto, using(crate::proofs::attachments_lemmas::Entries::written))]
pub fn touches_and_rests()
    ensures none { touched_ids some_attachments ≡ [] }
    ensures one { touched_ids (with_changed touched some_attachments 7) ≡ 7 ∷ [] }
    ensures no_session { with_changed touched some_attachments 8 ≡ some_attachments }
    ensures rested { touched_ids (all_rested (with_changed touched some_attachments 7)) ≡ 7 ∷ [] }
    ensures rested_twice { touched_ids
        (all_rested (all_rested (with_changed touched some_attachments 7))) ≡ [] }
{}
