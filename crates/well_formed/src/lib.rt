// Internal: question 2 on the bytes of the storage, with one node by value at a time: a bucket that is only asked need not be loaded.
// Where tests are joined by `&`, and in `keys_differ` by `&=`, all of them are made, with no branch after each: on well-formed storage none
// fails.
#![tactic(auto)]

ghost use Rattle.std.specs.Prelude.{◌≡◌, true, ◌&&◌, ◌≤◌, ◌<◌, eqb, leb, length, get_or};
ghost use Rattle.model.specs.Base.{same, all_below};
ghost use Rattle.model.specs.Bucket.{max_nodes_per_bucket, incoming_nodes};
ghost use Rattle.model.specs.Table.{num_buckets};
ghost use Rattle.model.specs.Sizes.{key_size, bucket_size, header_size};
ghost use Rattle.model.specs.Node.{connected_incoming};
ghost use Rattle.model.specs.Layout.{node_in, nodes_in};
ghost use Rattle.model.specs.Formed.{are_zero, key_in, state_at, not_held, pending_formed, bucket_formed, bucket_formed_at, record_formed, header_formed, formed};
ghost use Rattle.key.specs.Key.{num};
ghost use Rattle.node.specs.Node.{node_codes};
ghost use Rattle.well_formed.specs.Index.{has_index};
ghost use Rattle.well_formed.specs.Tests.{differs, place_formed, nodes_here, Position, bucket_at_formed};

mod index;

pub use crate::index::Index;
use key::Key;
use node::{Code, Node};
use storage::{Layout, Nodes};

// The key has the index, or none is asked.
fn has_index(index: Option<Index>, key: Key) -> bool
    ensures { result ≡ has_index index (num key) }
{
    match index {
        None => true,
        Some(index) => index.is_of(key),
    }
}

// Internal: the bytes begin with the key, as those of its node do. The key's last word decides most often.
#[tactic(auto, unfolding(model::specs::Bytes::part))]
pub fn has_key(s: &[u8], key: Key) -> bool
    requires { key_size ≤ length s.now }
    ensures { result ≡ same (key_in s.now) (num key) }
{
    words::get_u64(&s[Layout::KEY - 8..Layout::KEY]) == key.w3
        && Key::load(&s[0..Layout::KEY]).eq(key)
}

// Internal: the place of the key among the first count of the bucket. They may be fewer than are held: it is asked of those before a
// place too.
pub fn position(bucket: &[u8; Layout::BUCKET], count: usize, key: Key) -> Option<usize>
    requires { count ≤ max_nodes_per_bucket }
    ensures { Position (num key) (nodes_here bucket.now count) count result }
{
    (0..count).find(|j| has_key(storage::place(bucket, *j), key))
}

// Internal: no place below k of the bucket has the key.
pub fn not_held(bucket: &[u8; Layout::BUCKET], k: usize, key: Key) -> bool
    requires { k ≤ max_nodes_per_bucket }
    ensures { result ≡ not_held bucket.now k (num key) }
{
    position(bucket, k, key).is_none()
}

// The keys of the nodes differ. Only a key whose last byte an earlier one has is compared with those before it. The places go by their
// numbers, since `not_held` is asked of those below one.
fn keys_differ(nodes: Nodes) -> bool
    ensures { result ≡ all_below nodes.entry.count (differs nodes.entry.bucket.now) }
{
    let mut seen = [false; 256];
    let mut ok = true;
    for j in 0..nodes.count {
        let node = nodes.place(j);
        let last = usize::from(node[Layout::KEY - 1]);
        if seen[last] {
            ok &= not_held(nodes.bucket, j, storage::load_key(node));
        }
        seen[last] = true;
    }
    ok
}

// The node's codes are in range, its key is of the index, and its state is the one given. The direction is asked by itself too: question 2
// of a full bucket then takes 75 ns, and 92 without.
fn node_formed(n: Node, index: Option<Index>, state: Code) -> bool
    ensures { result ≡ ((node_codes n && has_index index (num n.key)) && eqb n.status.state state) }
{
    has_index(index, n.key) && n.status.state == state && n.status.direction <= 1 && n.in_range()
}

// Internal: the state that place j has where `first` is the first connected place.
pub fn state_at(first: usize, j: usize) -> Code
    ensures { result ≡ state_at first j }
{
    u8::from(first <= j)
}

// Codes, index and state of each node.
fn places_formed(nodes: Nodes, index: Option<Index>) -> bool
    ensures { result ≡ all_below nodes.entry.count (place_formed (has_index index) (get_or nodes.entry.bucket.now 1 0) nodes.entry.bucket.now) }
{
    let first = usize::from(nodes.bucket[1]);
    nodes.places().iter().enumerate().all(|(j, node)| {
        let n = storage::load_node(node);
        node_formed(n, index, state_at(first, j))
    })
}

// Internal: the node is connected and incoming. Two bytes are read: `load_node` would read all 47.
pub fn is_incoming(node: &[u8; Layout::NODE]) -> bool
    ensures { result ≡ connected_incoming (node_in node.now) }
{
    (node[Layout::STATE_AT] == 1) & (node[Layout::DIRECTION_AT] == 1)
}

// At most max_incoming of the nodes are connected and incoming. They are counted only where there are more nodes.
fn incoming_within(nodes: Nodes, max_incoming: usize) -> bool
    ensures { result ≡ leb (length (incoming_nodes (nodes_in nodes.entry.bucket.now))) max_incoming }
{
    nodes.count <= max_incoming || nodes.count(|node| is_incoming(node)) <= max_incoming
}

// The pending of the bucket.
fn pending_formed(nodes: Nodes, index: Option<Index>) -> bool
    ensures { result ≡ pending_formed (has_index index) nodes.entry.bucket.now }
{
    let bucket = nodes.bucket;
    let flag = bucket[Layout::PENDING_AT];
    if flag == 0 {
        return words::all_zero(&bucket[Layout::PENDING_AT + 1..Layout::BUCKET]);
    }
    let n = storage::load_node(storage::pending(bucket));
    let absent = not_held(bucket, nodes.count, n.key);
    (flag == 1) & (has_index(index, n.key) & (absent & n.in_range()))
}

// The bytes of the bucket are zero: it is empty. One test of constant length, where the count is 0.
fn is_empty(bucket: &[u8; Layout::BUCKET]) -> bool
    ensures { result ≡ true → are_zero bucket.now 0 bucket_size ≡ true }
{
    bucket[0] == 0 && words::all_zero(bucket)
}

// The bucket of the index, by its count, its places and its pending.
fn parts_formed(bucket: &[u8; Layout::BUCKET], index: Option<Index>, max_incoming: usize) -> bool
    ensures { result ≡ bucket_formed (has_index index) max_incoming bucket.now }
{
    if model::MAX_NODES_PER_BUCKET < usize::from(bucket[0]) {
        return false;
    }
    let nodes = Nodes::of(bucket);
    let held = keys_differ(nodes) & places_formed(nodes, index);
    let unused = Layout::PLACES_AT + nodes.count * Layout::NODE;
    let rest = words::all_zero_by::<128>(&bucket[unused..Layout::PENDING_AT]);
    let first = usize::from(bucket[1]) <= nodes.count;
    let within = incoming_within(nodes, max_incoming);
    (held & rest) & (first & (within & pending_formed(nodes, index)))
}

// Internal: the bucket of the index is well formed; a bucket by itself has none.
pub fn bucket_formed(
    bucket: &[u8; Layout::BUCKET],
    index: Option<Index>,
    max_incoming: usize,
) -> bool
    ensures { result ≡ bucket_formed (has_index index) max_incoming bucket.now }
{
    is_empty(bucket) || parts_formed(bucket, index, max_incoming)
}

// Internal: bucket i of the storage is well formed. Of an empty one nothing else is read.
pub fn bucket_formed_at(s: &[u8; Layout::STORAGE], i: usize) -> bool
    requires { i < num_buckets }
    ensures { result ≡ bucket_formed_at s.now i }
{
    let bucket = storage::bucket(s, i);
    if is_empty(bucket) {
        return true;
    }
    let index = Index {
        local: Key::load(&s[0..Layout::KEY]),
        i,
    };
    parts_formed(bucket, Some(index), usize::from(s[Layout::MAX_INCOMING_AT]))
}

// A record of the queue.
fn record_formed(s: &[u8; Layout::RECORD]) -> bool
    ensures { result ≡ record_formed s.now }
{
    let kind = s[Layout::KEY];
    let evicted = storage::evicted(s);
    if kind == Layout::EVICTING_KIND {
        return storage::load_node(evicted).in_range();
    }
    (kind <= Layout::LAST_KIND) & words::all_zero(evicted)
}

// Internal: the settings and the queue are well formed. The header's bytes are enough, and more may follow them.
pub fn header_formed(s: &[u8]) -> bool
    requires { header_size ≤ length s.now }
    ensures { result ≡ header_formed s.now }
{
    let count = usize::from(s[Layout::RECORD_COUNT_AT]);
    if Layout::MAX_RECORDS < count {
        return false;
    }
    let settings = (usize::from(s[Layout::MAX_INCOMING_AT]) <= model::MAX_NODES_PER_BUCKET)
        & ((s[Layout::TABLE_FILTER_AT] <= 1) & (s[Layout::BUCKET_FILTER_AT] <= 1));
    let padding = words::all_zero(&s[Layout::PADDING_AT..Layout::RECORDS_AT]);
    let records = (0..count).all(|j| record_formed(storage::record(s, j)));
    let unused = Layout::RECORDS_AT + count * Layout::RECORD;
    let rest = words::all_zero_by::<512>(&s[unused..Layout::HEADER]);
    settings & (padding & (records & rest))
}

// Internal: every bucket of the storage is well formed.
pub fn buckets_formed(s: &[u8; Layout::STORAGE]) -> bool
    ensures { result ≡ all_below num_buckets (bucket_at_formed s.now) }
{
    (0..model::NUM_BUCKETS).all(|i| bucket_formed_at(s, i))
}

// Internal: the storage holds a well-formed table.
pub fn formed(s: &[u8; Layout::STORAGE]) -> bool
    ensures { result ≡ formed s.now }
{
    header_formed(s) & buckets_formed(s)
}

// Lent storage that holds a well-formed table.
#[derive(Clone, Copy)]
pub struct FormedTable<'a> {
    pub s: &'a [u8; Layout::STORAGE],
    pub ghost formed: { formed s.now ≡ true },
}
