ghost use Rattle.std.specs.Prelude.{◌≡◌, ◌<◌, length};
ghost use Rattle.ob_objects.specs.Nodes.{other, child, node_at, side_of, with_child};

use ob_model::Entry;

/// The two children of a node: the entries below its own, and those above.
#[derive(Clone, Copy)]
pub(crate) enum Side {
    Less,
    More,
}

/// A node of the tree. Its links are indices of nodes, and 0 where there is no child.
#[derive(Clone, Copy)]
pub(crate) struct Node {
    pub(crate) entry: Entry,
    pub(crate) less: u32,
    pub(crate) more: u32,
}

/// The other side.
pub(crate) fn other(side: Side) -> Side
    ensures { result ≡ other side }
{
    match side {
        Side::Less => Side::More,
        Side::More => Side::Less,
    }
}

/// On which side of an entry an address lies; `None` where it is an address of the entry.
pub(crate) fn side_of(entry: Entry, address: u64) -> Option<Side>
    ensures { result ≡ side_of address entry }
{
    if address < entry.base {
        return Some(Side::Less);
    }
    if entry.size < address - entry.base {
        return Some(Side::More);
    }
    None
}

/// The node at an index.
pub(crate) fn node_of(nodes: &[Node], at: u32) -> Node
    requires { at < length nodes.now }
    ensures { result ≡ node_at nodes.now at }
{
    nodes[at as usize]
}

/// The child of the node at an index.
pub(crate) fn child_of(nodes: &[Node], at: u32, side: Side) -> u32
    requires { at < length nodes.now }
    ensures { result ≡ child side (node_at nodes.now at) }
{
    let node = nodes[at as usize];
    match side {
        Side::Less => node.less,
        Side::More => node.more,
    }
}

/// Gives the node at an index another child.
pub(crate) fn set_child(nodes: &mut [Node], at: u32, side: Side, link: u32)
    requires { at < length nodes.old }
    ensures { nodes.new ≡ with_child nodes.old at side link }
{
    let mut node = nodes[at as usize];
    match side {
        Side::Less => node.less = link,
        Side::More => node.more = link,
    }
    nodes[at as usize] = node;
}
