//! The row in which a client asks: `Query`.

ghost use Rattle.std.specs.Prelude.{◌≡◌};
ghost use Rattle.zprotocol.specs.Posts.{Puts};
ghost use Rattle.zserver.specs.declared.taken.Taken.TheVariants.{Acted, Unheard};
ghost use Rattle.zserver.specs.support.Replicas.{query_at, GrowsBy};

use crate::replica::Replica;
use crate::snapshot::Snapshot;
use crate::taken::Taken;
use zcalls::{CallNumber, ClientId, Query};
use zprotocol::{Message, Out, Process};

impl Replica {
    /// `Query`: a tail answers it. Out of memory it changes nothing, as if the query had been lost.
    #[inline(always)]
    #[tactic(auto, unfolding(zprotocol::specs::server::Table::query_row))]
    pub(crate) fn query(
        &self,
        client: ClientId,
        number: CallNumber,
        query: &Query,
        out: &mut Out<Snapshot>,
    ) -> Taken
        ensures same { (query_at self.now client number query.now).0 ≡ self.now }
        ensures puts { result ≡ Acted
            → Puts out.old out.new (query_at self.now client number query.now).1 }
        ensures silent { result ≡ Unheard → out.new.posts ≡ out.old.posts }
        ensures grows { result ≡ Unheard
            → GrowsBy self.now (query_at self.now client number query.now) }
    {
        if self.succ.is_some() {
            return Taken::Acted;
        }
        let Some(machine) = &self.machine else {
            return Taken::Acted;
        };
        let Ok(()) = out.reserve(1) else {
            return Taken::Unheard;
        };
        let Ok(reply) = machine.ask(query) else {
            return Taken::Unheard;
        };
        out.put_reserved(Process::Client(client), Message::Answer(number, reply));
        Taken::Acted
    }
}
