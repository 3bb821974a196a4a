//! Connect requests.

ghost use Rattle.std.specs.Prelude.{◌≡◌, pos, true, false, [], replicate, None, Some};
ghost use Rattle.zrequests.specs.Timeouts.{millis_reported};
ghost use Rattle.zconnections.specs.Tables.{TablesView, closed, sent, attachment, taken_up};
ghost use Rattle.zresponses.specs.effects.Frames.{response_frame};
ghost use Rattle.zresponses.specs.effects.Greeting.{came_back, given, is_ahead, session_reported, turned_away};
ghost use Rattle.zresponses.specs.effects.Greeting.{welcomed};
ghost use Rattle.zresponses.specs.effects.support.Samples.{greeting, some_password};

/// A client is ahead of a tree whose last change is 8 if it has seen change 9.
pub fn clients_that_are_ahead()
    ensures behind { is_ahead (pos 8) greeting ≡ false }
    ensures level { is_ahead (pos 8) (record greeting { last_zxid_seen = pos 8 }) ≡ false }
    ensures ahead { is_ahead (pos 8) (record greeting { last_zxid_seen = pos 9 }) ≡ true }
{}

/// A new session, and a response without one.
pub fn clients_are_welcomed()
    ensures welcome { (t : TablesView) → welcomed 2000 greeting 9 5 some_password 1 t
        ≡ sent 1 (response_frame greeting (pos 10000) (pos 9) some_password)
        (attachment 9 1 t) }
    ensures away { (t : TablesView) → turned_away greeting 1 t
        ≡ closed 1 (sent 1 (response_frame greeting (pos 0) (pos 0) (replicate 16 0)) t) }
    ensures null { given (record greeting { password = None }) ≡ [] }
{}

/// A client comes back to session 7, of 4 ticks. It must give the whole password.
pub fn clients_come_back()
    ensures back { (t : TablesView) → came_back 2000 greeting 7 4 some_password 3 t
        ≡ session_reported greeting 7 (millis_reported 2000 4) some_password 3 (taken_up 7 3 t) }
    ensures wrong { (t : TablesView) → came_back 2000 greeting 7 4 (replicate 16 8) 3 t
        ≡ turned_away greeting 3 t }
    ensures last_byte { (t : TablesView)
        → came_back 2000 (record greeting { password = Some (replicate 15 7) }) 7 4
        some_password 3 t
        ≡ turned_away (record greeting { password = Some (replicate 15 7) }) 3 t }
    ensures nothing { (t : TablesView)
        → came_back 2000 (record greeting { password = None }) 7 4 some_password 3 t
        ≡ turned_away (record greeting { password = None }) 3 t }
{}
