ghost use Rattle.std.specs.Prelude.{◌≡◌, ◌<◌, length};
ghost use Rattle.ob_objects.specs.Nodes.{child, node_at, other, side_of};
ghost use Rattle.ob_objects.specs.Spread.{IsSpread, Spread, Steps, IsRooted, IsSplit};
ghost use Rattle.ob_objects.specs.Trees.{Tree};
ghost use Rattle.ob_objects.specs.Turned.{rotated, is_on, raised, raised_top, end_of, hung, next_place, closed};

use crate::node::{Node, Side, child_of, other, set_child, side_of};

/// Where a splay stands: the root of what is left of the tree, and the last node of what was hung aside
/// below the address and above it, 0 before the first.
#[derive(Clone, Copy)]
pub(crate) struct Place {
    here: u32,
    below: u32,
    above: u32,
}

/// Whether an address lies on this side.
fn is_on(side: Side, found: Option<Side>) -> bool
    ensures { result ≡ is_on side found }
{
    match (side, found) {
        (Side::Less, Some(Side::Less)) => true,
        (Side::More, Some(Side::More)) => true,
        _ => false,
    }
}

/// Raises the child `up` on a side above its parent.
fn rotate(nodes: &mut [Node], at: u32, up: u32, side: Side)
    requires at { at < length nodes.old }
    requires up { up < length nodes.old }
    ensures { nodes.new ≡ rotated nodes.old at up side }
{
    let inner = child_of(nodes, up, other(side));
    set_child(nodes, at, side, inner);
    set_child(nodes, up, other(side), at);
}

/// Raises the child on a side where the address lies on that side of it as well, and gives the root
/// that there is then.
fn raise(nodes: &mut [Node], at: u32, side: Side, address: u64) -> u32
    requires at { at < length nodes.old }
    requires up { child side (node_at nodes.old at) < length nodes.old }
    ensures nodes { let up = child side (node_at nodes.old at) in
        nodes.new ≡ raised (is_on side (side_of address (node_at nodes.old up).entry)) nodes.old at up side }
    ensures root { let up = child side (node_at nodes.old at) in
        result ≡ raised_top (is_on side (side_of address (node_at nodes.old up).entry)) at up }
{
    let up = child_of(nodes, at, side);
    if !is_on(side, side_of(nodes[up as usize].entry, address)) {
        return at;
    }
    rotate(nodes, at, up, side);
    up
}

/// The last node that was hung aside, on the side from which the splay went away.
fn end_of(place: Place, side: Side) -> u32
    ensures { result ≡ end_of side place }
{
    match side {
        Side::Less => place.above,
        Side::More => place.below,
    }
}

/// The place once the node there is hung aside.
fn next_place(place: Place, side: Side, next: u32) -> Place
    ensures { result ≡ next_place side next place }
{
    match side {
        Side::Less => Place {
            here: next,
            below: place.below,
            above: place.here,
        },
        Side::More => Place {
            here: next,
            below: place.here,
            above: place.above,
        },
    }
}

/// Hangs the node at the place aside, and goes on to its child on a side.
fn hang(nodes: &mut [Node], place: Place, side: Side) -> Place
    requires here { place.here < length nodes.old }
    requires end { end_of side place < length nodes.old }
    ensures nodes { nodes.new ≡ hung nodes.old place side }
    ensures place { result ≡ next_place side (child side (node_at nodes.new place.here)) place }
{
    set_child(nodes, end_of(place, side), side, place.here);
    let next = child_of(nodes, place.here, side);
    next_place(place, side, next)
}

/// A step towards one side: `false` where there is no child on it.
fn go(nodes: &mut [Node], place: &mut Place, side: Side, address: u64) -> bool
    requires spread { (z : Spread) × IsSpread nodes.old place.old z }
    requires side { side_of address (node_at nodes.old place.old.here).entry ≡ Some side }
    ensures { (z : Spread) → IsSpread nodes.old place.old z → Steps address nodes.old nodes.new place.new z result }
{
    if child_of(nodes, place.here, side) == 0 {
        return false;
    }
    place.here = raise(nodes, place.here, side, address);
    if child_of(nodes, place.here, side) == 0 {
        return false;
    }
    *place = hang(nodes, *place, side);
    true
}

/// A step towards the address: `false` where there is no further one.
fn step(nodes: &mut [Node], place: &mut Place, address: u64) -> bool
    requires { (z : Spread) × IsSpread nodes.old place.old z }
    ensures { (z : Spread) → IsSpread nodes.old place.old z → Steps address nodes.old nodes.new place.new z result }
{
    match side_of(nodes[place.here as usize].entry, address) {
        Some(side) => go(nodes, place, side, address),
        None => false,
    }
}

/// Makes what was hung aside on a side a child of the node at the place.
fn close(nodes: &mut [Node], place: Place, side: Side)
    requires here { place.here < length nodes.old }
    requires end { end_of side place < length nodes.old }
    requires header { 0 < length nodes.old }
    ensures { nodes.new ≡ closed nodes.old place side }
{
    let inner = child_of(nodes, place.here, other(side));
    set_child(nodes, end_of(place, side), side, inner);
    let root = child_of(nodes, 0, side);
    set_child(nodes, place.here, other(side), root);
}

/// Splays the tree at `root`, which isn't empty, at an address, from the root downwards, and gives the new
/// root: the entry that has the address, or the one that comes last or first beside it. No other node
/// changes.
pub(crate) fn splay(nodes: &mut [Node], root: u32, address: u64) -> u32
    requires some { 0 < root }
    requires rooted { (t : Tree) × IsRooted nodes.old root t }
    ensures { (t : Tree) → IsRooted nodes.old root t → IsSplit address nodes.old nodes.new result t }
{
    let mut place = Place {
        here: root,
        below: 0,
        above: 0,
    };
    while step(nodes, &mut place, address) {}
    close(nodes, place, Side::More);
    close(nodes, place, Side::Less);
    place.here
}
