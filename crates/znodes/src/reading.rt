//! Reading the nodes.

ghost use Rattle.std.specs.Prelude.{◌≡◌, ◌≢◌, ◌<◌, [], None, Some, is_some, IfOk, IfSome, IfNone, OnSome, IsSome};
ghost use Rattle.std.specs.FinMap.{get, keys};
ghost use Rattle.std.specs.Option.{option_copied};
ghost use Rattle.ztree.specs.Counts.{owned_count, data_count};
ghost use Rattle.ztree.specs.Tree.{has_node, ephemerals};
ghost use Rattle.znodes.specs.NodesView.{path_of, node_of, AtPath, AtNode, IsUnder, child_count_of};

use crate::nodes::Nodes;
use crate::paths::owned_paths;
use crate::row::Row;
use zalloc::Memory;
use zpath::Path;
use zslots::Id;
use ztree::Node;

impl Nodes {
    /// Returns the Id of the node at a path, or `None` if there is no such node. One lookup in the
    /// index.
    pub fn find(&self, path: &Path) -> Option<Id>
        ensures found { IfSome result (λ id. path_of self.now id ≡ Some path.now) }
        ensures node { is_some result ≡ has_node self.now.nodes path.now }
    {
        self.index.get(path)
    }

    /// Returns the node with this Id, or `None` if there is no such node.
    pub fn node(&self, id: Id) -> Option<&Node>
        ensures value { option_copied result ≡ node_of self.now id }
        ensures live { is_some result ≡ is_some (path_of self.now id) }
    {
        let row = Row::live(&self.slots, id)?;
        Some(&row.node)
    }

    /// Returns the Id of the parent of the node with this Id. `None` for the root, and if there is
    /// no such node.
    pub fn above(&self, id: Id) -> Option<Id>
        ensures above { IfSome result (IsUnder self.now id) }
        ensures live { OnSome result (IsSome (path_of self.now id)) }
        ensures below_root { OnSome result (AtPath self.now id (λ path. path ≢ [])) }
        ensures none { IfNone result (AtPath self.now id (λ path. path ≡ [])) }
    {
        Row::live(&self.slots, id)?.parent
    }

    /// Returns the paths of all nodes in their order, or `Memory`. A parent comes before its
    /// children.
    pub fn paths(&self) -> Result<Vec<Path>, Memory>
        ensures { IfOk result (λ paths. paths.items ≡ keys self.now.nodes) }
    {
        self.index.paths(self.alloc)
    }

    /// Returns the number of children of the node with this Id, or `None` if there is no such node.
    pub fn child_count(&self, id: Id) -> Option<usize>
        ensures { result ≡ child_count_of self.now id }
    {
        let row = Row::live(&self.slots, id)?;
        Some(row.children.len())
    }

    /// Returns the paths of the nodes that a session owns, in their order; or `Memory`. One that
    /// may not own nodes owns none. The cost depends on the number of these nodes.
    pub fn owned(&self, owner: u64) -> Result<Vec<Path>, Memory>
        ensures owned { IfOk result (λ paths. 0 < owner → IsSome (get self.now.owners owner)
            → paths.items ≡ ephemerals self.now.nodes owner) }
        ensures gone { IfOk result (λ paths.
            get self.now.owners owner ≡ None → paths.items ≡ []) }
    {
        owned_paths(self.alloc, &self.slots, &self.owners, owner)
    }

    /// Returns the number of nodes that sessions own.
    pub fn owned_count(&self) -> usize
        ensures { result ≡ owned_count self.now.nodes }
    {
        self.counts.owned
    }

    /// Returns the bytes of the data of all nodes.
    pub fn data_count(&self) -> u64
        ensures { result ≡ data_count self.now.nodes }
    {
        self.counts.bytes
    }

    /// Returns the Id of some node that the session owns, or `None` if it owns none.
    pub fn first_owned(&self, owner: u64) -> Option<Id>
        requires somebody { 0 < owner }
        ensures live { IfSome result (λ id. IsSome (path_of self.now id)) }
        ensures owned { IfSome result (λ id. AtNode self.now id (λ n. n.owner ≡ owner)) }
        ensures none { IfNone result (ephemerals self.now.nodes owner ≡ []) }
    {
        self.owners.list(owner)?.first()
    }
}
