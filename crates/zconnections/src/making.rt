//! Sessions that made ephemeral nodes.

ghost use Rattle.std.specs.Prelude.{◌≡◌};
ghost use Rattle.zconnections.specs.Sweeping.{made_by, made_by_parts, noted};

use crate::tables::Tables;
use zcalls::{Lifetime, Part, Reply, Update};

impl Tables {
    /// Notes the sessions that made an ephemeral node, from an update and its reply.
    pub fn note(&mut self, update: &Update, reply: &Reply)
        ensures { self.new
            ≡ record self.old { attachments = noted update.now reply.now self.old.attachments } }
    {
        match (update, reply) {
            (Update::Create(create), Reply::Created(_)) => self.note_lifetime(create.kind.lifetime),
            (Update::Multi(parts), Reply::Multi(_)) => self.note_parts(parts.as_slice()),
            _ => {}
        }
    }

    // Notes the owners of the nodes that the parts of a multi created.
    fn note_parts(&mut self, parts: &[Part])
        ensures { self.new
            ≡ record self.old { attachments = made_by_parts parts.now self.old.attachments } }
    {
        for part in parts {
            if let Part::Create(create) = part {
                self.note_lifetime(create.kind.lifetime);
            }
        }
    }

    // Notes the owner of a created node of this lifetime.
    fn note_lifetime(&mut self, lifetime: Lifetime)
        ensures { self.new
            ≡ record self.old { attachments = made_by lifetime self.old.attachments } }
    {
        match lifetime {
            Lifetime::Ephemeral(session) => self.attachments.note_ephemeral(session),
            Lifetime::Persistent | Lifetime::WithTtl(_) | Lifetime::Container => {}
        }
    }
}
