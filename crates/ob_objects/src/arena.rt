ghost use Rattle.std.specs.Prelude.{◌≡◌, ℕ, ◌+◌, ◌<◌, ◌≤◌, ◌^◌, nat_lt, List, length};
ghost use Rattle.std.specs.List.{AllByRecursion};
ghost use Rattle.std.specs.Vec.{vec_capacity};
ghost use Rattle.ob_objects.specs.Arena.{place_for, with_node, next_free, cut_nodes, cut_node, entry_if, IsArena, IsOpened, IsJoined, AreBeside, IsFound, IsTaken};
ghost use Rattle.ob_objects.specs.Nodes.{node_at, side_of};
ghost use Rattle.ob_objects.specs.Objects.{AreApart};
ghost use Rattle.ob_objects.specs.Spread.{IsRooted};
ghost use Rattle.ob_objects.specs.Trees.{Tree, walk};

use crate::node::{Node, Side, child_of, node_of, set_child, side_of};
use crate::splay::splay;
use ob_model::Entry;

/// Puts a node into the arena, where one is free and else behind the others, and gives its index.
pub(crate) fn put_node(nodes: &mut Vec<Node>, free: &mut u32, node: Node) -> u32
    requires free { free.old < length nodes.old.items }
    requires few { length nodes.old.items ≤ 2 ^ 24 + 1 }
    requires room { free.old ≡ 0 → length nodes.old.items < vec_capacity nodes.old }
    ensures place { result ≡ place_for nodes.old.items free.old }
    ensures nodes { nodes.new.items ≡ with_node nodes.old.items free.old node }
    ensures free { free.new ≡ next_free nodes.old.items free.old }
    ensures capacity { vec_capacity nodes.new ≡ vec_capacity nodes.old }
{
    let at = *free;
    if at == 0 {
        let end = nodes.len() as u32;
        nodes.push_reserved(node);
        return end;
    }
    *free = child_of(nodes.as_slice(), at, Side::More);
    nodes[at as usize] = node;
    at
}

/// Cuts the root off what lies on one side of it, and gives the node of an entry there, whose children
/// are the root and what was cut off.
fn cut(nodes: &mut [Node], root: u32, e: Entry) -> Node
    requires { root < length nodes.old }
    ensures nodes { nodes.new ≡ cut_nodes (nat_lt (node_at nodes.old root).entry.base e.base) nodes.old root }
    ensures node { result ≡ cut_node (nat_lt (node_at nodes.old root).entry.base e.base) nodes.old root e }
{
    if nodes[root as usize].entry.base < e.base {
        let more = child_of(nodes, root, Side::More);
        set_child(nodes, root, Side::More, 0);
        return Node {
            entry: e,
            less: root,
            more,
        };
    }
    let less = child_of(nodes, root, Side::Less);
    set_child(nodes, root, Side::Less, 0);
    Node {
        entry: e,
        less,
        more: root,
    }
}

/// The node of an entry that shares no address with those of the tree at `root`, with these below and
/// above it.
pub(crate) fn open(nodes: &mut [Node], root: u32, e: Entry) -> Node
    requires { (t : Tree) × IsRooted nodes.old root t × AllByRecursion (AreApart e) (walk t) }
    ensures { (t : Tree) → IsRooted nodes.old root t → AllByRecursion (AreApart e) (walk t) → IsOpened e nodes.old nodes.new result t }
{
    if root == 0 {
        return Node {
            entry: e,
            less: 0,
            more: 0,
        };
    }
    let top = splay(nodes, root, e.base);
    cut(nodes, top, e)
}

/// Joins two trees, of which the first lies below an address and the second above it.
pub(crate) fn join(nodes: &mut [Node], less: u32, more: u32, address: u64) -> u32
    requires { (first : Tree) × (second : Tree) × AreBeside address nodes.old less more first second }
    ensures { (first second : Tree) → AreBeside address nodes.old less more first second → IsJoined nodes.old nodes.new result first second }
{
    if less == 0 {
        return more;
    }
    let top = splay(nodes, less, address);
    set_child(nodes, top, Side::More, more);
    top
}

/// The entry where it has the address.
fn entry_if(entry: Entry, address: u64) -> Option<Entry>
    ensures { result ≡ entry_if (side_of address entry) entry }
{
    match side_of(entry, address) {
        None => Some(entry),
        Some(_) => None,
    }
}

/// The root after a splay at an address, and the entry that has it, which then stands there.
pub(crate) fn look_up(nodes: &mut [Node], root: u32, address: u64) -> (u32, Option<Entry>)
    requires { (free : ℕ) × (t : Tree) × (frees : List ℕ) × IsArena nodes.old root free t frees }
    ensures { (free : ℕ) (t : Tree) (frees : List ℕ) → IsArena nodes.old root free t frees
        → IsFound address nodes.old nodes.new result.0 free result.1 t frees }
{
    if root == 0 {
        return (0, None);
    }
    let top = splay(nodes, root, address);
    (top, entry_if(nodes[top as usize].entry, address))
}

/// The root and the first free node once an entry is taken out, and the entry.
#[derive(Clone, Copy)]
pub(crate) struct Taken {
    pub(crate) root: u32,
    pub(crate) free: u32,
    pub(crate) entry: Option<Entry>,
}

/// Takes out the entry at a base, whose node is free then.
pub(crate) fn take_out(nodes: &mut [Node], root: u32, free: u32, base: u64) -> Taken
    requires { (t : Tree) × (frees : List ℕ) × IsArena nodes.old root free t frees }
    ensures { (t : Tree) (frees : List ℕ) → IsArena nodes.old root free t frees
        → IsTaken base nodes.old nodes.new result.root result.free result.entry t }
{
    if root == 0 {
        return Taken {
            root,
            free,
            entry: None,
        };
    }
    let top = splay(nodes, root, base);
    let node = node_of(nodes, top);
    if node.entry.base != base {
        return Taken {
            root: top,
            free,
            entry: None,
        };
    }
    let rest = join(nodes, node.less, node.more, base);
    set_child(nodes, top, Side::More, free);
    Taken {
        root: rest,
        free: top,
        entry: Some(node.entry),
    }
}
