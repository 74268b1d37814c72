//! The nodes of a chain, and the writes of their links.
ghost use Rattle.std.specs.Prelude.{◌≡◌, Some};
ghost use Rattle.std.specs.Option.{ForSome, option_map_or};
ghost use Rattle.slab.specs.Slab.{get, ContainsKey, with_value};
ghost use Rattle.id_chain.specs.Linking.{SetsNext, SetsPrev};

use crate::handle::Handle;
use slab::Slab;

/// An item with the handles of its neighbours.
#[derive(Drop)]
pub(crate) struct Node<I: Copy> {
    pub(crate) item: I,
    pub(crate) prev: Option<Handle>,
    pub(crate) next: Option<Handle>,
}

fn set_next<I: Copy>(nodes: &mut Slab<Node<I>>, place: usize, to: Option<Handle>)
    requires { ContainsKey nodes.old place }
    ensures { (node : _) → get nodes.old place ≡ Some node
        → nodes.new ≡ with_value nodes.old place (record node { next = to }) }
{
    nodes[place].next = to;
}

fn set_prev<I: Copy>(nodes: &mut Slab<Node<I>>, place: usize, to: Option<Handle>)
    requires { ContainsKey nodes.old place }
    ensures { (node : _) → get nodes.old place ≡ Some node
        → nodes.new ≡ with_value nodes.old place (record node { prev = to }) }
{
    nodes[place].prev = to;
}

/// Links `to` after a node, or at the front where there is none.
pub(crate) fn link_next<I: Copy>(
    nodes: &mut Slab<Node<I>>,
    first: &mut Option<Handle>,
    from: Option<Handle>,
    to: Option<Handle>,
)
    requires { ForSome from (λ place. ContainsKey nodes.old place) }
    ensures nodes { SetsNext nodes.old nodes.new from to }
    ensures first { first.new ≡ option_map_or (λ _. first.old) from to }
{
    match from {
        Some(handle) => set_next(nodes, handle.place, to),
        None => *first = to,
    }
}

/// Links `to` before a node, or at the end where there is none.
pub(crate) fn link_prev<I: Copy>(
    nodes: &mut Slab<Node<I>>,
    last: &mut Option<Handle>,
    from: Option<Handle>,
    to: Option<Handle>,
)
    requires { ForSome from (λ place. ContainsKey nodes.old place) }
    ensures nodes { SetsPrev nodes.old nodes.new from to }
    ensures last { last.new ≡ option_map_or (λ _. last.old) from to }
{
    match from {
        Some(handle) => set_prev(nodes, handle.place, to),
        None => *last = to,
    }
}
