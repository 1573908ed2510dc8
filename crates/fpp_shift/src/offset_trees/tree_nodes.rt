//! A tree of offsets as the type `Offsets`, with one `Node` for each vertex, and reads and writes that are counted.
ghost use Rattle.std.specs.Prelude.{◌≡◌, ◌<◌, ◌≤◌, ◌+◌, length, replicate, slice_set, IfOk};

use map_lists::VertexId;
use pg_io::Steps;
use std::alloc::{AllocError, Global};
use std::marker::{Model, PhantomData};
use std::sync::ledger::Ledger;

/// The node of a vertex: how far it stands to the right of the node that leads to it, its height, and the
/// two vertices to which its links lead.
#[derive(Clone, Copy, PartialEq, Eq)]
pub struct Node {
    /// How far it stands to the right of the node that leads to it.
    pub x: i32,
    /// How high it stands.
    pub y: i32,
    /// The vertex to which the left link leads: in a tree of the shift method, the first one that this vertex covers.
    pub left: Option<VertexId>,
    /// The vertex to which the right link leads: there the next on the contour, or the next that is covered with it.
    pub right: Option<VertexId>,
}

/// A node for each vertex. Contracts see the list of nodes.
///
/// Each use of a node counts a step of the ledger `L`, which the tree has from the first on: no other ledger counts it.
#[derive(Drop)]
pub struct Offsets<L: Ledger> {
    nodes: Vec<Node>,
    uses: PhantomData<L>,
}

impl<L: Ledger> Model for Offsets<L> {
    ghost use Rattle.std.specs.Prelude.{List, ◌<◌, length};
    ghost use Rattle.fpp_shift.specs.declared.offset_trees.tree_nodes.Node.{Node};

    ghost Value = { List Node };

    ghost view = { λ tree. tree.nodes.items };

    ghost invariant = { λ tree. length tree.nodes.items < 65536 };
}

impl<L: Ledger> Offsets<L> {
    ghost use Rattle.fpp_shift.specs.Nodes.{empty_node, node_at};

    /// Returns a tree with the nodes of `n` vertices, all of zeros and without links. It fails only when out of memory.
    pub fn new(alloc: Global, n: u16) -> Result<Offsets<L>, AllocError>
        requires { 1 ≤ n }
        ensures { IfOk result (λ tree. tree ≡ replicate n empty_node) }
    {
        let node = Node {
            x: 0,
            y: 0,
            left: None,
            right: None,
        };
        let nodes = vec![in alloc; node; n as usize]?;
        Ok(Offsets {
            nodes,
            uses: PhantomData,
        })
    }

    // Returns a tree of these `nodes`, one for each vertex, fewer than 65536, of any content.
    pub(crate) fn from_nodes(nodes: Vec<Node>) -> Offsets<L>
        requires few { length nodes.items < 65536 }
        ensures { result ≡ nodes.items }
    {
        Offsets {
            nodes,
            uses: PhantomData,
        }
    }

    // Returns the nodes, once the tree is no longer used.
    pub(crate) fn into_nodes(self) -> Vec<Node> {
        self.nodes
    }

    /// Returns the number of nodes. It takes no memory.
    pub fn len(&self) -> u16
        ensures { result ≡ length self.now }
    {
        self.nodes.len() as u16
    }

    /// Returns the node of `v`, and adds one to `steps`. It takes no memory.
    pub fn get(&self, v: VertexId, steps: &mut Steps<L>) -> Node
        requires { v.0 < length self.now }
        ensures node { result ≡ node_at self.now v.0 }
        ensures step { steps.new ≡ steps.old + 1 }
    {
        let node = self.nodes[v.0 as usize];
        steps.tick();
        node
    }

    /// Sets the node of `v` to `node`, keeps all others, and adds one to `steps`. It takes no memory.
    pub fn put(&mut self, v: VertexId, node: Node, steps: &mut Steps<L>)
        requires { v.0 < length self.old }
        ensures set { self.new ≡ slice_set self.old v.0 node }
        ensures step { steps.new ≡ steps.old + 1 }
    {
        steps.tick();
        self.nodes[v.0 as usize] = node;
    }
}
