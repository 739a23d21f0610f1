// The table's bytes: how many each thing takes; values and nodes read from lent storage and written to it; and the bytes of a place, a
// bucket or a record, lent from those around them.
#![tactic(auto)]

ghost use Rattle.std.specs.Prelude.{◌≡◌, Bool, true, List, ℕ, ◌+◌, ◌≤◌, ◌<◌, length, get_or};
ghost use Rattle.std.specs.Fn.{FnReturnsAt};
ghost use Rattle.model.specs.Base.{select, tabulate};
ghost use Rattle.model.specs.Bytes.{part, Bytes};
ghost use Rattle.model.specs.Bucket.{max_nodes_per_bucket, num_entries};
ghost use Rattle.model.specs.Table.{num_buckets, max_records};
ghost use Rattle.model.specs.Sizes.{key_size, value_size, node_size, bucket_size, bucket_at, pending_at, header_size};
ghost use Rattle.model.specs.Layout.{value_bytes, node_bytes, node_in, nodes_in, place_in, record_part, bucket_part, table_of};
ghost use Rattle.model.specs.Formed.{key_in};
ghost use Rattle.model.specs.Saved.{saved_entry_size};
ghost use Rattle.key.specs.Key.{num};
ghost use Rattle.node.specs.Node.{value_of, node_of};
ghost use Rattle.storage.specs.Read.{read_value, read_node};

use key::Key;
use node::{Node, NodeInRange, NodeStatus, Value, ValueInRange};
use std::ops::Range;

// How many bytes each thing takes, each derived from the others, and where it stands in what holds it.
#[derive(Clone, Copy)]
pub struct Layout {}

impl Layout {
    pub const KEY: usize = Key::BYTES;

    pub const TIME: usize = 8;

    // A value: address, slot.
    pub const SLOT_AT: usize = Value::ADDRESS;

    pub const VALUE: usize = Value::BYTES;

    // A node: key, state, direction, value.
    pub const STATE_AT: usize = Layout::KEY;

    pub const DIRECTION_AT: usize = Layout::STATE_AT + 1;

    pub const VALUE_AT: usize = Layout::DIRECTION_AT + 1;

    pub const NODE: usize = Node::BYTES;

    // A node's entry in the bytes that the writer puts out: state, direction, value.
    pub const ENTRY: usize = Layout::NODE - Layout::STATE_AT;

    // A record of the queue: key, kind of its ending, evicted node.
    pub const RECORD: usize = Layout::KEY + 1 + Layout::NODE;
    // The kind of a record with an evicted node, and the greatest kind. Numbers: question 2 asks them of bytes, below the crate that has
    // `Ending`.
    pub const EVICTING_KIND: u8 = 1;

    pub const LAST_KIND: u8 = 6;

    // A bucket: count, first connected place, the places, pending flag, pending node, deadline.
    pub const PLACES_AT: usize = 2;

    pub const PENDING_AT: usize = Layout::PLACES_AT + model::MAX_NODES_PER_BUCKET * Layout::NODE;

    pub const PENDING: usize = 1 + Layout::NODE + Layout::TIME;

    pub const BUCKET: usize = Layout::PENDING_AT + Layout::PENDING;

    pub const DEADLINE_AT: usize = Layout::BUCKET - Layout::TIME;

    // The table: local key, pending timeout, max_incoming, table filter, bucket filter, record count, padding, records, buckets.
    pub const TIMEOUT_AT: usize = Layout::KEY;

    pub const MAX_INCOMING_AT: usize = Layout::TIMEOUT_AT + Layout::TIME;

    pub const TABLE_FILTER_AT: usize = Layout::MAX_INCOMING_AT + 1;

    pub const BUCKET_FILTER_AT: usize = Layout::TABLE_FILTER_AT + 1;

    pub const RECORD_COUNT_AT: usize = Layout::BUCKET_FILTER_AT + 1;

    // Unused, so that the records start at a multiple of 16.
    pub const PADDING_AT: usize = Layout::RECORD_COUNT_AT + 1;

    pub const PADDING: usize = 4;

    pub const RECORDS_AT: usize = Layout::PADDING_AT + Layout::PADDING;

    // How many records the queue holds at the most.
    pub const MAX_RECORDS: usize = 64;

    pub const HEADER: usize = Layout::RECORDS_AT + Layout::MAX_RECORDS * Layout::RECORD;

    pub const STORAGE: usize = Layout::HEADER + model::NUM_BUCKETS * Layout::BUCKET;
}

// The nodes that a stored bucket holds: `places` lends their bytes as a slice, `place` those of one. It is no iterator itself: a loop whose
// proof reads the places by their numbers is as short by `for j in 0..count` with `place(j)`. The count is the bucket's first byte, read
// once, with what question 2 says of it.
#[derive(Clone, Copy)]
pub struct Nodes<'a> {
    pub bucket: &'a [u8; Layout::BUCKET],
    pub count: usize,
    pub ghost counts: { count ≡ get_or bucket.now 0 0 },
    pub ghost few: { count ≤ max_nodes_per_bucket },
    // The check knows these two of a parameter by its type, but not of a field.
    pub ghost sized: { length bucket.now ≡ bucket_size },
    pub ghost bytes: { Bytes bucket.now },
}

impl<'a> Nodes<'a> {
    // Internal: the nodes of the bucket.
    pub fn of(bucket: &'a [u8; Layout::BUCKET]) -> Nodes<'a>
        requires { get_or bucket.now 0 0 ≤ max_nodes_per_bucket }
        ensures { result.bucket.now ≡ bucket.now }
    {
        Nodes {
            bucket,
            count: usize::from(bucket[0]),
        }
    }

    // Internal: the bytes of the node at place j.
    pub fn place(self, j: usize) -> &'a [u8; Layout::NODE]
        requires { j < self.count }
        ensures { result.now ≡ place_in self.entry.bucket.now j }
    {
        place(self.bucket, j)
    }

    // Internal: the bytes of the nodes, in their places.
    pub fn places(self) -> &'a [[u8; Layout::NODE]]
        ensures { result.now ≡ tabulate self.entry.count (place_in self.entry.bucket.now) }
    {
        let bucket = self.bucket;
        let places = &bucket[Layout::PLACES_AT..Layout::PENDING_AT];
        let (nodes, _) = places.as_chunks::<{ Layout::NODE }>();
        &nodes[..self.count]
    }

    // Internal: how many of the nodes pass the test, which takes a node's bytes.
    pub fn count<F: Fn(&[u8; Layout::NODE]) -> bool>(self, passes: F) -> usize
        requires { F.IsAlwaysCallable passes }
        ensures value { (p : _) → ((bytes : List ℕ) (r : Bool) → FnReturnsAt F.Fn passes bytes r → r ≡ p (node_in bytes))
            → result ≡ length (select p (nodes_in self.entry.bucket.now)) }
        ensures few { result ≤ max_nodes_per_bucket }
    {
        self.places().iter().filter(|node| passes(node)).count()
    }
}

// Internal: the key of the node of these bytes.
#[tactic(auto, unfolding(model::specs::Bytes::part))]
pub fn load_key(node: &[u8; Layout::NODE]) -> Key
    ensures { num result ≡ key_in node.now }
{
    Key::load(&node[0..Layout::KEY])
}

// Internal: the value of these bytes.
pub fn load_value(value: &[u8; Layout::VALUE]) -> Value
    ensures { result ≡ read_value value.now }
{
    Value {
        flag: value[0],
        a: value[1],
        b: value[2],
        c: value[3],
        d: value[4],
        slot: words::get_u64(&value[Layout::SLOT_AT..Layout::VALUE]),
    }
}

// Internal: the value of the node of these bytes.
pub fn node_value(node: &[u8; Layout::NODE]) -> Value
    ensures { result ≡ read_value (part node.now (key_size + 2) value_size) }
{
    load_value(node[Layout::VALUE_AT..Layout::NODE].as_array().unwrap())
}

// Internal: the node of these bytes.
pub fn load_node(node: &[u8; Layout::NODE]) -> Node
    ensures { result ≡ read_node node.now }
{
    Node {
        key: load_key(node),
        value: node_value(node),
        status: NodeStatus {
            state: node[Layout::STATE_AT],
            direction: node[Layout::DIRECTION_AT],
        },
    }
}

// Internal: the bytes become those of the value.
pub fn store_value(s: &mut [u8], v: ValueInRange)
    requires { length s.old ≡ value_size }
    ensures { s.new ≡ value_bytes (value_of v.value) }
{
    let v = v.value;
    s[0] = v.flag;
    s[1] = v.a;
    s[2] = v.b;
    s[3] = v.c;
    s[4] = v.d;
    words::put_u64(&mut s[Layout::SLOT_AT..Layout::VALUE], v.slot);
}

// Internal: the bytes become those of the node.
pub fn store_node(s: &mut [u8], n: NodeInRange)
    requires { length s.old ≡ node_size }
    ensures { s.new ≡ node_bytes (node_of n.node) }
{
    n.node.key.store(&mut s[0..Layout::KEY]);
    s[Layout::STATE_AT] = n.node.status.state;
    s[Layout::DIRECTION_AT] = n.node.status.direction;
    store_value(&mut s[Layout::VALUE_AT..Layout::NODE], n.value());
}

// Internal: the bytes become those of an entry. By words, the eighth byte twice: `copy_from_slice` tests whether the two overlap, and takes
// 294 instructions for the 16 entries of a bucket, where this takes 82.
#[tactic(auto, unfolding(model::specs::Bytes::part, model::specs::Bytes::splice))]
pub fn put_entry(entry: &[u8], out: &mut [u8])
    requires { (length entry.now ≡ saved_entry_size) × (length out.old ≡ saved_entry_size) }
    ensures { out.new ≡ entry.now }
{
    let front = words::get_u64(&entry[0..8]);
    let back = words::get_u64(&entry[Layout::ENTRY - 8..Layout::ENTRY]);
    words::put_u64(&mut out[0..8], front);
    words::put_u64(&mut out[Layout::ENTRY - 8..Layout::ENTRY], back);
}

// Internal: the bytes of place j of a bucket. This and the four below that lend a part each compute its bounds: one with offset and size as
// parameters would have a clause for them.
#[tactic(auto, using(laws::proofs::Parts::sliced))]
pub fn place(bucket: &[u8; Layout::BUCKET], j: usize) -> &[u8; Layout::NODE]
    requires { j < max_nodes_per_bucket }
    ensures { result.now ≡ place_in bucket.now j }
{
    let at = Layout::PLACES_AT + j * Layout::NODE;
    bucket[at..at + Layout::NODE].as_array().unwrap()
}

// Internal: the bytes of the pending's node, behind the flag.
#[tactic(auto, unfolding(model::specs::Bytes::part))]
pub fn pending(bucket: &[u8; Layout::BUCKET]) -> &[u8; Layout::NODE]
    ensures { result.now ≡ part bucket.now (pending_at + 1) node_size }
{
    let at = Layout::PENDING_AT + 1;
    bucket[at..at + Layout::NODE].as_array().unwrap()
}

// Internal: where bucket i stands in the storage. That i is below the number of buckets is a clause: where i is counted in a loop a struct
// for it would be made anew at each call, and on one key it comes with `Ready`, which is of the storage and i together.
pub fn bucket_range(i: usize) -> Range<usize>
    requires { i < num_buckets }
    ensures { result ≡ record { start = bucket_at i; end = bucket_at i + bucket_size } }
{
    let at = Layout::HEADER + i * Layout::BUCKET;
    at..at + Layout::BUCKET
}

// Internal: the bytes of bucket i of the storage.
#[tactic(auto, using(laws::proofs::Parts::sliced))]
pub fn bucket(s: &[u8; Layout::STORAGE], i: usize) -> &[u8; Layout::BUCKET]
    requires { i < num_buckets }
    ensures { result.now ≡ bucket_part s.now i }
{
    s[bucket_range(i)].as_array().unwrap()
}

// Internal: how many nodes bucket i holds.
#[tactic(auto, using(laws::proofs::BucketBack::count_in), unfolding(model::specs::Layout::table_of))]
pub fn size_at(s: &[u8; Layout::STORAGE], i: usize) -> u8
    requires { i < num_buckets }
    ensures { result ≡ num_entries ((table_of s.now).buckets i) }
{
    bucket(s, i)[0]
}

// Internal: the bytes of record j of the queue.
#[tactic(auto, using(laws::proofs::Parts::sliced))]
pub fn record(s: &[u8], j: usize) -> &[u8; Layout::RECORD]
    requires { (header_size ≤ length s.now) × (j < max_records) }
    ensures { result.now ≡ record_part s.now j }
{
    let at = Layout::RECORDS_AT + j * Layout::RECORD;
    s[at..at + Layout::RECORD].as_array().unwrap()
}

// Internal: the bytes of the evicted node of a record, behind the kind.
#[tactic(auto, unfolding(model::specs::Bytes::part))]
pub fn evicted(entry: &[u8; Layout::RECORD]) -> &[u8; Layout::NODE]
    ensures { result.now ≡ part entry.now (key_size + 1) node_size }
{
    entry[Layout::KEY + 1..Layout::RECORD].as_array().unwrap()
}
