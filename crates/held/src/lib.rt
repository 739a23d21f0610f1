// Internal: a bucket of the lent storage that has no pending, by its bytes, and changed in place: its nodes are found, moved and written
// as bytes. What is left are the bytes of the bucket that the model's step leaves. In place: to load and store a bucket of 4 or 16 nodes
// takes 84 or 149 ns, the whole status step on its bytes 17 or 23. The bytes that are written are a parameter by themselves, beside
// settings, place and node, and what is known of them stands in clauses: a struct that holds `&mut [u8]` says nothing of the bytes after
// the call, and a struct beside them cannot name them in a ghost field.
#![tactic(auto, unfolding(model::specs::Bytes::part))]

ghost use Rattle.std.specs.Prelude.{◌≡◌, Bool, true, ◌&&◌, List, ◌++◌, ℕ, ◌+◌, ◌-◌, ◌^◌, ◌≤◌, ◌<◌, leb, length, get_or};
ghost use Rattle.std.specs.Fn.{FnReturnsAt};
ghost use Rattle.model.specs.Base.{select};
ghost use Rattle.model.specs.Bytes.{part, zeros};
ghost use Rattle.model.specs.Node.{connected_incoming};
ghost use Rattle.model.specs.Call.{is_one};
ghost use Rattle.model.specs.Filter.{counted, ip_filter_fails, max_nodes_per_subnet_bucket};
ghost use Rattle.model.specs.Bucket.{BucketSettings, nodes, incoming_nodes, max_nodes_per_bucket, put, take_out, insert, update_status, update_value, remove};
ghost use Rattle.model.specs.Sizes.{node_size, bucket_size};
ghost use Rattle.model.specs.Layout.{node_in, node_bytes, place_in, bucket_bytes, bucket_in};
ghost use Rattle.model.specs.Formed.{bucket_formed};
ghost use Rattle.key.specs.Key.{num};
ghost use Rattle.node.specs.Node.{value_of, node_of};
ghost use Rattle.node.specs.Status.{optional_of};
ghost use Rattle.storage.specs.Read.{read_node};
ghost use Rattle.bucket.specs.Settings.{settings_of};
ghost use Rattle.bucket.specs.Calls.{insert_result_of, update_result_of};
ghost use Rattle.held.specs.Held.{Quiet, place, Position, others, Does, restated, inserted_full};

use bucket::{FailureReason, InsertResult, PendingNode, Settings, UpdateResult};
use key::Key;
use node::{Node, NodeInRange, StatusUpdate, Value, ValueInRange};
use storage::{Layout, Nodes};

// The settings, and a time that passed question 5 under them: a pending that is made then has a deadline.
#[derive(Clone, Copy)]
pub struct SettingsAt {
    pub settings: Settings,
    pub time: u64,
    pub ghost deadline: { time + settings.pending_timeout < 2 ^ 64 },
}

// The nodes of a bucket but the one at place `skip`; a place past them leaves out none. A number, so that each place is compared with one
// number.
#[derive(Clone, Copy)]
pub struct Others<'a> {
    pub held: Nodes<'a>,
    pub skip: usize,
}

// Internal: the bucket has no pending. Where its bytes pass question 2 too, the calls of this crate may be made on it.
pub fn is_quiet(bucket: &[u8; Layout::BUCKET]) -> bool
    ensures { (p : ℕ → Bool) (m : ℕ) → bucket_formed p m bucket.now ≡ true → result ≡ true → Quiet bucket.now }
{
    bucket[Layout::PENDING_AT] == 0
}

// Internal: the nodes that these bytes hold.
pub fn nodes(bucket: &[u8]) -> Nodes
    requires { Quiet bucket.now }
    ensures { result.bucket.now ≡ bucket.now }
{
    Nodes::of(bucket.as_array().unwrap())
}

// Internal: the node at place pos.
pub fn node_at(bucket: &[u8], pos: usize) -> NodeInRange
    requires quiet { Quiet bucket.now }
    requires held { pos < get_or bucket.now 0 0 }
    ensures { result.node ≡ read_node (place_in bucket.now pos) }
{
    NodeInRange {
        node: storage::load_node(nodes(bucket).place(pos)),
    }
}

// Internal: the place of the key.
pub fn position(held: Nodes, key: Key) -> Option<usize>
    ensures { Position (num key) (nodes (bucket_in held.entry.bucket.now)) (get_or held.entry.bucket.now 0 0) result }
{
    well_formed::position(held.bucket, held.count, key)
}

// The first node of the run goes, the others go down over it, and zero bytes stand behind them. This and the two that follow make two calls
// each: one function for them would take the shift and the write as closures, and be longer than they are.
fn close_place(run: &mut [u8])
    requires { node_size ≤ length run.old }
    ensures { run.new ≡ part run.old node_size (length run.old - node_size) ++ zeros node_size }
{
    words::shift_down(run, Layout::NODE);
    let rest = run.len() - Layout::NODE;
    words::put_zeros(&mut run[rest..]);
}

// The first node of the run goes, the others go down over it, and this one stands behind them.
fn put_behind(run: &mut [u8], node: NodeInRange)
    requires { node_size ≤ length run.old }
    ensures { run.new ≡ part run.old node_size (length run.old - node_size) ++ node_bytes (node_of node.node) }
{
    words::shift_down(run, Layout::NODE);
    let rest = run.len() - Layout::NODE;
    storage::store_node(&mut run[rest..], node);
}

// The last node of the run goes, the others go up over it, and this one stands before them.
fn put_before(run: &mut [u8], node: NodeInRange)
    requires { node_size ≤ length run.old }
    ensures { run.new ≡ node_bytes (node_of node.node) ++ part run.old 0 (length run.old - node_size) }
{
    words::shift_up(run, Layout::NODE);
    storage::store_node(&mut run[0..Layout::NODE], node);
}

// Internal: the node at place pos goes, and the gap is closed.
pub fn take_out(bucket: &mut [u8], pos: usize)
    requires quiet { Quiet bucket.old }
    requires held { pos < get_or bucket.old 0 0 }
    ensures { (k : ℕ) → place k (nodes (bucket_in bucket.old)) ≡ pos → bucket.new ≡ bucket_bytes (take_out k (bucket_in bucket.old)) }
{
    let count = usize::from(bucket[0]);
    let first = usize::from(bucket[1]);
    let from = Layout::PLACES_AT + pos * Layout::NODE;
    let end = Layout::PLACES_AT + count * Layout::NODE;
    close_place(&mut bucket[from..end]);
    bucket[0] = (count - 1) as u8;
    bucket[1] = (first - usize::from(pos < first)) as u8;
}

// Internal: the node is placed where there is room: connected at the end, disconnected just before the first connected.
pub fn place(bucket: &mut [u8], node: NodeInRange)
    requires quiet { Quiet bucket.old }
    requires room { get_or bucket.old 0 0 < max_nodes_per_bucket }
    ensures { bucket.new ≡ bucket_bytes (put (node_of node.node) (bucket_in bucket.old)) }
{
    let count = usize::from(bucket[0]);
    let first = usize::from(bucket[1]);
    let (to, first) = if node.node.is_connected() {
        (count, first)
    } else {
        (first, first + 1)
    };
    let from = Layout::PLACES_AT + to * Layout::NODE;
    let end = Layout::PLACES_AT + (count + 1) * Layout::NODE;
    put_before(&mut bucket[from..end], node);
    bucket[0] = (count + 1) as u8;
    bucket[1] = first as u8;
}

// Internal: the node at place pos goes, and one of its key is placed among the others.
pub fn replace(bucket: &mut [u8], pos: usize, node: NodeInRange)
    requires quiet { Quiet bucket.old }
    requires held { pos < get_or bucket.old 0 0 }
    requires node { place (num node.node.key) (nodes (bucket_in bucket.old)) ≡ pos }
    ensures { bucket.new ≡ bucket_bytes (put (node_of node.node) (take_out (num node.node.key) (bucket_in bucket.old))) }
{
    let count = usize::from(bucket[0]);
    let first = usize::from(bucket[1]);
    let rest = first - usize::from(pos < first);
    let (to, first) = if node.node.is_connected() {
        (count - 1, rest)
    } else {
        (rest, rest + 1)
    };
    if pos < to {
        let from = Layout::PLACES_AT + pos * Layout::NODE;
        let end = Layout::PLACES_AT + (to + 1) * Layout::NODE;
        put_behind(&mut bucket[from..end], node);
    } else {
        let from = Layout::PLACES_AT + to * Layout::NODE;
        let end = Layout::PLACES_AT + (pos + 1) * Layout::NODE;
        put_before(&mut bucket[from..end], node);
    }
    bucket[1] = first as u8;
}

impl<'a> Others<'a> {
    // Those that pass the test, which takes a node's bytes. A loop: with `Nodes::count` the place that is left out would be tested again
    // and taken off.
    fn count<F: Fn(&[u8; Layout::NODE]) -> bool>(self, passes: F) -> usize
        requires { F.IsAlwaysCallable passes }
        ensures { (p : _) → ((bytes : List ℕ) (r : Bool) → FnReturnsAt F.Fn passes bytes r → r ≡ p (node_in bytes))
            → result ≡ length (select p (others self.entry.held.bucket.now self.entry.skip)) }
    {
        let mut n: usize = 0;
        for j in 0..self.held.count {
            n += usize::from(passes(self.held.place(j)) & (j != self.skip));
        }
        n
    }

    // Those that are connected and incoming.
    fn incoming(self) -> usize
        ensures { result ≡ length (incoming_nodes (others self.entry.held.bucket.now self.entry.skip)) }
    {
        self.count(|node| well_formed::is_incoming(node))
    }

    // Those whose values count against this one.
    fn counted(self, value: Value) -> usize
        ensures { result ≡ length (counted (value_of value) (others self.entry.held.bucket.now self.entry.skip)) }
    {
        self.count(|node| node::filter::counts(value, storage::node_value(node)))
    }

    // Internal: the node is connected and incoming, with max_incoming such nodes among these.
    pub fn is_max_incoming(self, settings: Settings, node: Node) -> bool
        ensures { result ≡ (connected_incoming (node_of node)
            && leb settings.max_incoming (length (incoming_nodes (others self.entry.held.bucket.now self.entry.skip)))) }
    {
        node.is_connected_incoming() && settings.max_incoming <= self.incoming()
    }

    // Internal: the bucket filter fails for the value, with the values of these.
    pub fn fails_filter(self, settings: Settings, value: Value) -> bool
        ensures { result ≡ ((settings_of settings).filter
            && ip_filter_fails max_nodes_per_subnet_bucket (value_of value) (others self.entry.held.bucket.now self.entry.skip)) }
    {
        if settings.filter == 1 && value.flag == 1 {
            return node::filter::MAX_NODES_PER_SUBNET_BUCKET <= self.counted(value);
        }
        false
    }
}

// Internal: remove. No pending can be applied, so the answer is the same at any time.
pub fn remove(bucket: &mut [u8], key: Key) -> bool
    requires { Quiet bucket.old }
    ensures { (c : BucketSettings) (time : ℕ) → Does (remove c time (num key) (bucket_in bucket.old)) result bucket.new }
{
    let Some(pos) = position(nodes(bucket), key) else {
        return false;
    };
    take_out(bucket, pos);
    true
}

// Internal: the status step on the node at place pos: it was `old` and becomes `node`, of the same key.
pub fn step(
    bucket: &mut [u8],
    settings: Settings,
    pos: usize,
    old: Node,
    node: NodeInRange,
) -> UpdateResult
    requires quiet { Quiet bucket.old }
    requires held { pos < get_or bucket.old 0 0 }
    requires node { place (num node.node.key) (nodes (bucket_in bucket.old)) ≡ pos }
    ensures { Does (restated (settings_of settings) (node_of old) (node_of node.node) (bucket_in bucket.old)) (update_result_of result) bucket.new }
{
    let others = Others {
        held: nodes(bucket),
        skip: pos,
    };
    if others.fails_filter(settings, node.node.value) {
        take_out(bucket, pos);
        return UpdateResult::Failed(FailureReason::BucketFilter);
    }
    if others.is_max_incoming(settings, node.node) {
        take_out(bucket, pos);
        return UpdateResult::Failed(FailureReason::TooManyIncoming);
    }
    replace(bucket, pos, node);
    bucket::status_result(old, node.node)
}

// Internal: update_status of the node at place pos.
pub fn update_status_at(
    bucket: &mut [u8],
    settings: Settings,
    pos: usize,
    status: StatusUpdate,
) -> UpdateResult
    requires quiet { Quiet bucket.old }
    requires held { pos < get_or bucket.old 0 0 }
    ensures { (k : ℕ) → place k (nodes (bucket_in bucket.old)) ≡ pos
        → Does (update_status (settings_of settings) k (is_one status.state) (optional_of status.direction) (bucket_in bucket.old)) (update_result_of result) bucket.new }
{
    let old = node_at(bucket, pos);
    step(bucket, settings, pos, old.node, old.with_status(status))
}

// Internal: update_status.
pub fn update_status(
    bucket: &mut [u8],
    settings: Settings,
    key: Key,
    status: StatusUpdate,
) -> UpdateResult
    requires { Quiet bucket.old }
    ensures { Does (update_status (settings_of settings) (num key) (is_one status.state) (optional_of status.direction) (bucket_in bucket.old)) (update_result_of result) bucket.new }
{
    match position(nodes(bucket), key) {
        Some(pos) => update_status_at(bucket, settings, pos, status),
        None => UpdateResult::Failed(FailureReason::KeyNonExistent),
    }
}

// Internal: update_value of the node at place pos.
pub fn value_at(
    bucket: &mut [u8],
    settings: Settings,
    pos: usize,
    value: ValueInRange,
) -> UpdateResult
    requires quiet { Quiet bucket.old }
    requires held { pos < get_or bucket.old 0 0 }
    ensures { (k : ℕ) → place k (nodes (bucket_in bucket.old)) ≡ pos
        → Does (update_value (settings_of settings) k (value_of value.value) (bucket_in bucket.old)) (update_result_of result) bucket.new }
{
    let held = nodes(bucket);
    if storage::node_value(held.place(pos)).eq(value.value) {
        return UpdateResult::NotModified;
    }
    let others = Others { held, skip: pos };
    if others.fails_filter(settings, value.value) {
        take_out(bucket, pos);
        return UpdateResult::Failed(FailureReason::BucketFilter);
    }
    let at = Layout::PLACES_AT + pos * Layout::NODE + Layout::VALUE_AT;
    storage::store_value(&mut bucket[at..at + Layout::VALUE], value);
    UpdateResult::Updated
}

// insert of a node of a new key that passed the filter and the maximum, on a full bucket.
fn insert_full(bucket: &mut [u8], now: SettingsAt, node: NodeInRange) -> InsertResult
    requires { Quiet bucket.old }
    ensures { Does (inserted_full (settings_of now.settings) now.time (node_of node.node) (bucket_in bucket.old)) (insert_result_of result) bucket.new }
{
    if node.node.is_connected() && 0 < bucket[1] {
        let key = storage::load_key(nodes(bucket).place(0));
        let pending = Some(PendingNode {
            node: node.node,
            deadline: now.time + now.settings.pending_timeout,
        });
        buckets::store_pending(&mut bucket[Layout::PENDING_AT..Layout::BUCKET], pending);
        return InsertResult::Pending(key);
    }
    InsertResult::Full
}

// Internal: insert of a node of a key that is not held.
pub fn insert_new(bucket: &mut [u8], now: SettingsAt, node: NodeInRange) -> InsertResult
    requires quiet { Quiet bucket.old }
    requires absent { get_or bucket.old 0 0 ≤ place (num node.node.key) (nodes (bucket_in bucket.old)) }
    ensures { Does (insert (settings_of now.settings) now.time (node_of node.node) (bucket_in bucket.old)) (insert_result_of result) bucket.new }
{
    let held = nodes(bucket);
    let all = Others {
        held,
        skip: held.count,
    };
    if all.fails_filter(now.settings, node.node.value) {
        return InsertResult::FailedFilter;
    }
    if all.is_max_incoming(now.settings, node.node) {
        return InsertResult::TooManyIncoming;
    }
    if held.count < model::MAX_NODES_PER_BUCKET {
        place(bucket, node);
        return InsertResult::Inserted;
    }
    insert_full(bucket, now, node)
}

// Internal: insert. No call of the table makes it: it alone says, of the bytes, that a key that is held is answered with NodeExists; it
// is public, and stays.
pub fn insert(bucket: &mut [u8], now: SettingsAt, node: NodeInRange) -> InsertResult
    requires { Quiet bucket.old }
    ensures { Does (insert (settings_of now.settings) now.time (node_of node.node) (bucket_in bucket.old)) (insert_result_of result) bucket.new }
{
    match position(nodes(bucket), node.node.key) {
        Some(_) => InsertResult::NodeExists,
        None => insert_new(bucket, now, node),
    }
}
