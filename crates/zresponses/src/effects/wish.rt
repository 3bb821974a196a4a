//! A wish: what a request asks for of the watches of its connection.

use zjute::WatchType;
use zpath::Path;
use zwatches::Kind;
use zwatches::changes::Event;

/// What a request asks for of the watches of its connection.
#[derive(Drop)]
pub(crate) enum Wish {
    /// A watch is set.
    Waits(Kind, Path),
    /// The event of a watch has happened already, and is sent.
    Reports(Event),
    /// There is a watch of this type at this path.
    Has(WatchType, Path),
    /// The watches of this type at this path are removed. There is one.
    Ends(WatchType, Path),
}
