// The nodes of a bucket, in their places (the Rust's ArrayVec): looked at as a slice; put in and taken out by value, as an array of all
// places.
#![tactic(auto)]

ghost use Rattle.std.specs.Prelude.{◌≡◌, ◌<◌, true, not, ◌&&◌, ◌++◌, ◌∷◌, [], map, take, length, MatchOption};
ghost use Rattle.model.specs.Base.{every};
ghost use Rattle.model.specs.Filter.{ip_filter_fails};
ghost use Rattle.model.specs.Bucket.{max_nodes_per_bucket, incoming_nodes};
ghost use Rattle.model.specs.Fits.{All};
ghost use Rattle.key.specs.Key.{num, Words};
ghost use Rattle.node.specs.declared.Node.{Node};
ghost use Rattle.node.specs.Node.{value_of, node_of, zero_node, is_zero};
ghost use Rattle.places.specs.Places.{position, insert_at, remove_at, in_state, different};

use key::Key;
use model::MAX_NODES_PER_BUCKET;
use node::{Code, Node, Value};

// Internal: the place of the node with this key.
pub fn position(nodes: &[Node], key: Key) -> Option<usize>
    ensures { MatchOption result (position (num key) nodes.now ≡ length nodes.now) (λ p. (p ≡ position (num key) nodes.now) × (p < length nodes.now)) }
{
    nodes.iter().position(|node| node.key.eq(key))
}

// Internal: how many of the nodes are connected and incoming.
pub fn incoming(nodes: &[Node]) -> usize
    ensures { result ≡ length (incoming_nodes (map node_of nodes.now)) }
{
    nodes
        .iter()
        .filter(|node| node.is_connected_incoming())
        .count()
}

// The IP filter (filter.rs): does the value pass? It fails where it has an address and at least `limit` of the nodes' values count against
// it.
pub fn ip_filter(nodes: &[Node], value: Value, limit: usize) -> bool
    ensures { result ≡ not (ip_filter_fails limit (value_of value) (map node_of nodes.now)) }
{
    if value.flag != 1 {
        return true;
    }
    let found = nodes
        .iter()
        .filter(|node| node::filter::counts(value, node.value))
        .count();
    found < limit
}

// Internal: the node goes to place pos. Those from there on move up by one, and the last drops out. By value, as the buckets are: a step
// leaves a new bucket, and its caller may still need the old one. That the place is below 16 stays a clause, here and in `remove_at`: of
// a place and an array nothing else is known.
pub fn insert_at(
    nodes: [Node; MAX_NODES_PER_BUCKET],
    pos: usize,
    node: Node,
) -> [Node; MAX_NODES_PER_BUCKET]
    requires { pos < max_nodes_per_bucket }
    ensures { result ≡ take max_nodes_per_bucket (insert_at pos node nodes) }
{
    let mut out = nodes;
    out[pos..].rotate_right(1);
    out[pos] = node;
    out
}

// Internal: the node at place pos goes. Those after it move down by one, and the last place is zero.
pub fn remove_at(nodes: [Node; MAX_NODES_PER_BUCKET], pos: usize) -> [Node; MAX_NODES_PER_BUCKET]
    requires { pos < max_nodes_per_bucket }
    ensures { result ≡ remove_at pos nodes ++ (zero_node ∷ []) }
{
    let mut out = nodes;
    out[pos..].rotate_left(1);
    out[MAX_NODES_PER_BUCKET - 1] = Node::zero();
    out
}

// Internal: do the nodes stand in their places: the first disconnected, those behind them connected, the codes of both in range, and is the
// rest zero? A yes also tells what Rattle knows of their keys.
pub fn in_places(disconnected: &[Node], connected: &[Node], free: &[Node]) -> bool
    ensures value { result ≡ (every (in_state 0) disconnected.now && (every (in_state 1) connected.now && every is_zero free.now)) }
    ensures all { result ≡ true → All (λ (n : Node). Words n.key) disconnected.now × All (λ (n : Node). Words n.key) connected.now }
{
    disconnected.iter().all(|node| has_state(*node, 0))
        && connected.iter().all(|node| has_state(*node, 1))
        && free.iter().all(|node| node.is_zero())
}

// Question 4 and the state, with what Rattle knows of the key's words.
fn has_state(node: Node, state: Code) -> bool
    ensures value { result ≡ in_state state node }
    ensures words { Words node.key }
{
    let fits = node.in_range();
    (node.status.state == state) & fits
}

// Internal: are the keys of the nodes different?
pub fn all_different(nodes: &[Node]) -> bool
    ensures { result ≡ different (map node_of nodes.now) }
{
    for (i, node) in nodes.iter().enumerate() {
        let rest = &nodes[i + 1..];
        if position(rest, node.key).is_some() {
            return false;
        }
    }
    true
}
