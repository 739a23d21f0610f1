// A bucket of at most sixteen nodes, by value (bucket.rs). The nodes are ordered from least-recently to most-recently connected: first
// the disconnected ones, then the connected ones.
#![tactic(auto)]

ghost use Rattle.std.specs.Prelude.{◌≡◌, Some, Ok, Err, true, false, cond, ℕ, ◌+◌, ◌≤◌, ◌<◌, ◌^◌, get_or, IfOk};
ghost use Rattle.std.specs.Option.{is_some};
ghost use Rattle.std.proofs.Math.Option.{none, some};
ghost use Rattle.model.specs.Node as ends;
ghost use Rattle.model.specs.Node.{placed_of, with_status, with_value, same_status};
ghost use Rattle.model.specs.Bucket.{max_nodes_per_bucket, empty_bucket, holds, fails_bucket_filter, is_max_incoming, with_pending, placed, take_out, taken_out, insert_full, insert, apply_pending, apply_due, reinsert, update_status, update_if_pending, update_value, update_pending, remove, status_result};
ghost use Rattle.model.specs.Call.{is_one};
ghost use Rattle.model.specs.Question.{first_failed, deadline_fits};
ghost use Rattle.key.specs.Key.{num, Words};
ghost use Rattle.key.specs.Answers.{option_of};
ghost use Rattle.node.specs.Node.{value_of, node_of, node_codes, zero_node};
ghost use Rattle.node.specs.Status.{optional_of};
ghost use Rattle.node.specs.Refusal.{failed_of, reply_of};
ghost use Rattle.bucket.specs.Bucket.{pending_of, held_of, key_at, bucket_of, settings_of, stored, sound, Sound, Becomes, Does, records_first, stated, Finds, repending, cleared_pending, pending_fits, PendingWords};
ghost use Rattle.bucket.specs.Settings as shared;
ghost use Rattle.bucket.specs.Calls.{questions, insert_result_of, update_result_of, records_of, insert_call, apply_pending_call, update_status_call, update_value_call, update_pending_call, remove_call, new_call};

mod ending;
mod settings;

pub use ending::{EndedPending, Ending};
use key::Key;
use node::{
    Code, Node, NodeInRange, NodeStatus, Refusal, StatusInRange, StatusUpdate, Value, ValueInRange,
};
pub use settings::Settings;

// A node that is pending insertion into a full bucket. Without `==`, as all that holds a node: a value has none.
#[derive(Clone, Copy)]
pub struct PendingNode {
    pub node: Node,
    // From this time on it is due.
    pub deadline: u64,
}

#[derive(Clone, Copy)]
pub struct KBucket {
    // The nodes, in the first count places; the others are zero. An array and a count: there is no heap, and a bucket goes in and comes
    // back by value (01).
    pub nodes: [Node; KBucket::MAX_NODES_PER_BUCKET],
    pub count: usize,
    // The place of the first connected node; count where no node is connected, as in the bytes, so that an empty bucket is zero
    // (docs/DECISIONS.md).
    pub first_connected_pos: usize,
    pub pending: Option<PendingNode>,
    pub settings: Settings,
}

// A bucket that passed question 2, all but the index: behind that question each step takes one and answers one.
#[derive(Clone, Copy)]
pub struct SoundBucket {
    pub bucket: KBucket,
    pub ghost sound: { Sound bucket },
}

// The result of inserting a node.
#[derive(Clone, Copy, Debug, PartialEq, Eq)]
pub enum InsertResult {
    Inserted,
    // The node waits in a full bucket. It names the node at place 0, which is to be asked for.
    Pending(Key),
    FailedFilter,
    TooManyIncoming,
    Full,
    NodeExists,
}

// A reason for failing to update or insert a node.
#[derive(Clone, Copy, Debug, PartialEq, Eq)]
pub enum FailureReason {
    TooManyIncoming,
    BucketFilter,
    TableFilter,
    KeyNonExistent,
    BucketFull,
    InvalidSelfUpdate,
}

// The result of an update.
#[derive(Clone, Copy, Debug, PartialEq, Eq)]
pub enum UpdateResult {
    Updated,
    UpdatedAndPromoted,
    UpdatedPending,
    Failed(FailureReason),
    NotModified,
}

// What a step on a bucket leaves and answers.
#[derive(Clone, Copy)]
pub struct Step<B, T> {
    pub bucket: B,
    pub result: T,
}

impl KBucket {
    // The fixed number of places.
    pub const MAX_NODES_PER_BUCKET: usize = model::MAX_NODES_PER_BUCKET;

    // How many bytes a bucket by itself takes: count, first connected place, the nodes; pending flag, pending node, deadline; the settings.
    // The sum of all but the settings stands in storage's Layout too: of the two crates neither uses the other.
    pub const BYTES: usize = 2
        + KBucket::MAX_NODES_PER_BUCKET * Node::BYTES
        + 1
        + Node::BYTES
        + 8
        + 8
        + 1
        + 1;

    // An empty bucket, of the Rust's three parameters. Refuses a maximum over 16 or a filter over 1 with question 4.
    pub fn new(
        pending_timeout: u64,
        max_incoming: usize,
        filter: Code,
    ) -> Step<KBucket, Result<(), Refusal>>
        ensures { new_call pending_timeout max_incoming filter ≡ (reply_of (λ u. u) result.result, result.bucket) }
    {
        if KBucket::MAX_NODES_PER_BUCKET < max_incoming || 1 < filter {
            return Step {
                bucket: KBucket::empty(Settings::default()),
                result: Err(Refusal::Code),
            };
        }
        Step {
            bucket: KBucket::empty(Settings {
                pending_timeout,
                max_incoming,
                filter,
            }),
            result: Ok(()),
        }
    }

    // Internal: an empty bucket of settings that are in range.
    pub fn empty(settings: Settings) -> KBucket
        requires { settings.filter ≤ 1 }
        ensures { result ≡ stored (shared.settings_of settings) empty_bucket }
    {
        KBucket {
            nodes: [Node::zero(); KBucket::MAX_NODES_PER_BUCKET],
            count: 0,
            first_connected_pos: 0,
            pending: None,
            settings,
        }
    }

    // Internal: another pending, and all else as it is: a changed copy by name, which contracts cite.
    pub fn with_pending(self, pending: Option<PendingNode>) -> KBucket
        ensures { result ≡ repending pending self }
    {
        KBucket { pending, ..self }
    }

    // Question 2, all but the index.
    pub fn is_sound(&self) -> bool
        ensures value { result ≡ sound self.now }
        ensures sound { result ≡ true → Sound self.now }
    {
        if KBucket::MAX_NODES_PER_BUCKET < self.count || self.count < self.first_connected_pos {
            return false;
        }
        let (nodes, free) = self.nodes.split_at(self.count);
        let (disconnected, connected) = nodes.split_at(self.first_connected_pos);
        let different = places::all_different(nodes);
        let placed = places::in_places(disconnected, connected, free);
        let few = places::incoming(nodes) <= self.settings.max_incoming;
        let pending = pending_sound(nodes, self.pending);
        let codes = (self.settings.max_incoming <= KBucket::MAX_NODES_PER_BUCKET)
            & (self.settings.filter <= 1);
        // The tests are made one by one and joined at the end: what `in_places` and `pending_sound` ensure of the keys is needed beside
        // what they answer.
        different & (placed & (few & (pending & codes)))
    }

    // Internal: questions 2, 4 and, where a time is given, 5. `arguments` is what the call takes besides a key and a time, and none where
    // question 4 fails.
    pub fn asked<T: Copy>(&self, arguments: Option<T>, now: Option<u64>) -> Result<T, Refusal>
        ensures value { failed_of result ≡ first_failed (questions self.now (is_some arguments) (option_of now)) }
        ensures passed { IfOk result (λ x. Sound self.now × (arguments ≡ Some x) × (deadline_fits self.now.settings.pending_timeout (option_of now) ≡ true)) }
    {
        if !self.is_sound() {
            return Err(Refusal::Form);
        }
        let arguments = arguments.ok_or(Refusal::Code)?;
        asked_time(self.settings.pending_timeout, now)?;
        Ok(arguments)
    }

    // A refused call: the bucket is as it is.
    fn refused<T>(self, refusal: Refusal) -> Step<KBucket, Result<T, Refusal>>
        ensures { result ≡ record { bucket = self; result = Err refusal } }
    {
        Step {
            bucket: self,
            result: Err(refusal),
        }
    }

    // The six calls from here on differ in what they ask and in their step; one function would take the step as a closure, with what it
    // ensures.

    // Inserts a node: the first match of 01, Insert.
    pub fn insert(self, node: Node, now: u64) -> Step<KBucket, Result<InsertResult, Refusal>>
        ensures { insert_call self node now ≡ (reply_of insert_result_of result.result, result.bucket) }
    {
        match self.asked(NodeInRange::of(node), Some(now)) {
            Ok(node) => SoundBucket { bucket: self }.insert(node, now).answered(),
            Err(refusal) => self.refused(refusal),
        }
    }

    // Applies the pending when its deadline has come. A drop leaves no record (01, Apply pending).
    pub fn apply_pending(self, now: u64) -> Step<KBucket, Result<Option<EndedPending>, Refusal>>
        ensures { apply_pending_call self now ≡ (reply_of records_of result.result, result.bucket) }
    {
        match self.asked(Some(()), Some(now)) {
            Ok(()) => {
                let step = SoundBucket { bucket: self }.apply_pending(now);
                Step {
                    bucket: step.bucket.bucket,
                    result: Ok(only_placed(step.result)),
                }
            }
            Err(refusal) => self.refused(refusal),
        }
    }

    // Takes the node of the key out, changes its status and inserts it; direction 2 is none given. Key, state and direction are what the
    // call is given; nothing is known of them together.
    pub fn update_status(
        self,
        key: Key,
        state: Code,
        direction: Code,
    ) -> Step<KBucket, Result<UpdateResult, Refusal>>
        ensures { update_status_call self key state direction ≡ (reply_of update_result_of result.result, result.bucket) }
    {
        match self.asked(StatusUpdate::of(state, direction), None) {
            Ok(status) => SoundBucket { bucket: self }
                .update_status(key, status)
                .answered(),
            Err(refusal) => self.refused(refusal),
        }
    }

    // Changes the value of the node of the key, in its place.
    pub fn update_value(
        self,
        key: Key,
        value: Value,
    ) -> Step<KBucket, Result<UpdateResult, Refusal>>
        ensures { update_value_call self key value ≡ (reply_of update_result_of result.result, result.bucket) }
    {
        match self.asked(ValueInRange::of(value), None) {
            Ok(value) => SoundBucket { bucket: self }
                .update_value(key, value)
                .answered(),
            Err(refusal) => self.refused(refusal),
        }
    }

    // Sets the status of the pending, if any.
    pub fn update_pending(self, status: NodeStatus) -> Step<KBucket, Result<(), Refusal>>
        ensures { update_pending_call self status ≡ (reply_of (λ u. u) result.result, result.bucket) }
    {
        match self.asked(StatusInRange::of(status), None) {
            Ok(status) => Step {
                bucket: SoundBucket { bucket: self }.update_pending(status).bucket,
                result: Ok(()),
            },
            Err(refusal) => self.refused(refusal),
        }
    }

    // Takes the node of the key out, then applies a due pending and throws its record away.
    pub fn remove(self, key: Key, now: u64) -> Step<KBucket, Result<bool, Refusal>>
        ensures { remove_call self key now ≡ (reply_of (λ found. found) result.result, result.bucket) }
    {
        match self.asked(Some(()), Some(now)) {
            Ok(()) => SoundBucket { bucket: self }.remove(key, now).answered(),
            Err(refusal) => self.refused(refusal),
        }
    }
}

impl SoundBucket {
    // Internal: the nodes that are held, in their places.
    pub fn nodes(&self) -> &[Node]
        ensures { result.now ≡ held_of self.now.bucket }
    {
        let b = &self.bucket;
        &b.nodes[..b.count]
    }

    // Internal: the place of the node with this key; none where the key is not held.
    pub fn position(&self, key: Key) -> Option<usize>
        ensures { Finds self.now.bucket (num key) result }
    {
        places::position(self.nodes(), key)
    }

    // Internal: does the bucket hold the key?
    pub fn holds(&self, key: Key) -> bool
        ensures { result ≡ holds (num key) (bucket_of self.now.bucket) }
    {
        self.position(key).is_some()
    }

    // Internal: does the bucket filter fail?
    pub fn fails_filter(&self, value: Value) -> bool
        ensures { result ≡ fails_bucket_filter (settings_of self.now.bucket) (value_of value) (bucket_of self.now.bucket) }
    {
        self.bucket.settings.filter == 1
            && !places::ip_filter(
                self.nodes(),
                value,
                node::filter::MAX_NODES_PER_SUBNET_BUCKET,
            )
    }

    // Internal: is the node connected and incoming, with max_incoming such nodes held?
    pub fn is_max_incoming(&self, node: Node) -> bool
        ensures { result ≡ is_max_incoming (settings_of self.now.bucket) (node_of node) (bucket_of self.now.bucket) }
    {
        node.is_connected_incoming()
            && self.bucket.settings.max_incoming <= places::incoming(self.nodes())
    }

    // Internal: the node at place pos. That the place is held is a clause, here and below: it is of an index and its bucket, and a type
    // of both would be made for one call each.
    pub fn node_at(&self, pos: usize) -> NodeInRange
        requires { pos < self.now.bucket.count }
        ensures { result.node ≡ get_or self.now.bucket.nodes pos zero_node }
    {
        NodeInRange {
            node: self.bucket.nodes[pos],
        }
    }

    // Internal: places a node where there is room: connected at the end, disconnected just before the first connected. A pending of its key
    // goes. That the node's key is not held is a clause, here and below: it is of the node and a bucket that changes on the way.
    pub fn placed(self, node: NodeInRange) -> SoundBucket
        requires count_lt_max_nodes_per_bucket { self.bucket.count < max_nodes_per_bucket }
        requires self_value { holds (num node.node.key) (bucket_of self.bucket) ≡ false }
        requires self_value_2 { is_max_incoming (settings_of self.bucket) (node_of node.node) (bucket_of self.bucket) ≡ false }
        ensures { Becomes (settings_of self.bucket) (placed (node_of node.node) (bucket_of self.bucket)) result.bucket }
    {
        let b = &self.bucket;
        let node = node.node;
        let pending = cleared(node.key, b.pending);
        if node.is_connected() {
            return SoundBucket {
                bucket: KBucket {
                    nodes: places::insert_at(b.nodes, b.count, node),
                    count: b.count + 1,
                    pending,
                    ..*b
                },
            };
        }
        SoundBucket {
            bucket: KBucket {
                nodes: places::insert_at(b.nodes, b.first_connected_pos, node),
                count: b.count + 1,
                first_connected_pos: b.first_connected_pos + 1,
                pending,
                ..*b
            },
        }
    }

    // Internal: takes out the node at place pos and closes the gap.
    pub fn taken_out(&self, pos: usize) -> SoundBucket
        requires { pos < self.now.bucket.count }
        ensures { Becomes (settings_of self.now.bucket) (take_out (key_at self.now.bucket pos) (bucket_of self.now.bucket)) result.bucket }
    {
        let b = &self.bucket;
        SoundBucket {
            bucket: KBucket {
                nodes: places::remove_at(b.nodes, pos),
                count: b.count - 1,
                first_connected_pos: b.first_connected_pos
                    - usize::from(pos < b.first_connected_pos),
                ..*b
            },
        }
    }

    // The bucket with no pending.
    fn without_pending(self) -> SoundBucket
        ensures { Becomes (settings_of self.bucket) (with_pending none (bucket_of self.bucket)) result.bucket }
    {
        SoundBucket {
            bucket: self.bucket.with_pending(None),
        }
    }

    // A step that leaves the bucket as it is.
    fn stays<T>(self, answer: T) -> Step<SoundBucket, T>
        ensures { result ≡ record { bucket = self; result = answer } }
    {
        Step {
            bucket: self,
            result: answer,
        }
    }

    // Internal: inserts a node. That its deadline has room is a clause, here and in insert_full: of a time and its bucket. Crate held has a
    // type for it, since its functions hand it on; here it is asked twice.
    pub fn insert(self, node: NodeInRange, now: u64) -> Step<SoundBucket, InsertResult>
        requires { now + self.bucket.settings.pending_timeout < 2 ^ 64 }
        ensures { Does (settings_of self.bucket) (insert (settings_of self.bucket) now (node_of node.node) (bucket_of self.bucket)) (insert_result_of result.result) result.bucket.bucket }
    {
        if self.holds(node.node.key) {
            return self.stays(InsertResult::NodeExists);
        }
        if self.fails_filter(node.node.value) {
            return self.stays(InsertResult::FailedFilter);
        }
        if self.is_max_incoming(node.node) {
            return self.stays(InsertResult::TooManyIncoming);
        }
        if self.bucket.count < KBucket::MAX_NODES_PER_BUCKET {
            return Step {
                bucket: self.placed(node),
                result: InsertResult::Inserted,
            };
        }
        self.insert_full(node, now)
    }

    // Internal: what an insert of a node that is not held does with 16 held: the node becomes the pending, or nothing changes.
    pub fn insert_full(self, node: NodeInRange, now: u64) -> Step<SoundBucket, InsertResult>
        requires pending_timeout_bound { now + self.bucket.settings.pending_timeout < 2 ^ 64 }
        requires self_value { holds (num node.node.key) (bucket_of self.bucket) ≡ false }
        ensures { Does (settings_of self.bucket) (insert_full (settings_of self.bucket) now (node_of node.node) (bucket_of self.bucket) (node_of node.node).connected (bucket_of self.bucket).disconnected (bucket_of self.bucket).pending) (insert_result_of result.result) result.bucket.bucket }
    {
        let b = &self.bucket;
        let node = node.node;
        if !node.is_connected() || b.first_connected_pos == 0 || b.pending.is_some() {
            return self.stays(InsertResult::Full);
        }
        let deadline = now + b.settings.pending_timeout;
        Step {
            bucket: SoundBucket {
                bucket: self
                    .bucket
                    .with_pending(Some(PendingNode { node, deadline })),
            },
            result: InsertResult::Pending(b.nodes[0].key),
        }
    }

    // Internal: applies a due node, which is the pending no more. The time plays no part, since no deadline is made.
    pub fn apply_due(self, node: NodeInRange) -> Step<SoundBucket, Option<EndedPending>>
        requires pending_value { pending_of self.bucket.pending ≡ none }
        requires self_value { holds (num node.node.key) (bucket_of self.bucket) ≡ false }
        ensures { (now : ℕ) → Does (settings_of self.bucket) (records_first (apply_due (settings_of self.bucket) now (node_of node.node) (bucket_of self.bucket))) (records_of result.result) result.bucket.bucket }
    {
        let key = node.node.key;
        let full = KBucket::MAX_NODES_PER_BUCKET <= self.bucket.count;
        if full && self.bucket.first_connected_pos == 0 {
            let ending = Ending::FirstConnected;
            return self.stays(Some(EndedPending { key, ending }));
        }
        if self.fails_filter(node.node.value) {
            let ending = Ending::BucketFilter;
            return self.stays(Some(EndedPending { key, ending }));
        }
        if self.is_max_incoming(node.node) {
            let ending = Ending::TooManyIncoming;
            return self.stays(Some(EndedPending { key, ending }));
        }
        if full {
            return self.evict(node);
        }
        Step {
            bucket: self.placed(node),
            result: Some(EndedPending {
                key,
                ending: Ending::Placed(None),
            }),
        }
    }

    // Internal: a node that is not held in place of the node at place 0, which is disconnected.
    pub fn evict(&self, node: NodeInRange) -> Step<SoundBucket, Option<EndedPending>>
        requires max_nodes_per_bucket_le_count { max_nodes_per_bucket ≤ self.now.bucket.count }
        requires self_value { holds (num node.node.key) (bucket_of self.now.bucket) ≡ false }
        requires self_value_2 { is_max_incoming (settings_of self.now.bucket) (node_of node.node) (bucket_of self.now.bucket) ≡ false }
        ensures { Does (settings_of self.now.bucket) (ends.ended (node_of node.node) (ends.Ending.Placed (some (node_of (get_or self.now.bucket.nodes 0 zero_node)))), placed (node_of node.node) (take_out (key_at self.now.bucket 0) (bucket_of self.now.bucket))) (records_of result.result) result.bucket.bucket }
    {
        let evicted = self.node_at(0);
        Step {
            bucket: self.taken_out(0).placed(node),
            result: Some(EndedPending {
                key: node.node.key,
                ending: Ending::Placed(Some(evicted.node)),
            }),
        }
    }

    // Internal: applies the pending when its deadline has come.
    pub fn apply_pending(self, now: u64) -> Step<SoundBucket, Option<EndedPending>>
        ensures { Does (settings_of self.bucket) (records_first (apply_pending (settings_of self.bucket) now (bucket_of self.bucket))) (records_of result.result) result.bucket.bucket }
    {
        match self.bucket.pending {
            Some(pending) if pending.deadline <= now => {
                let node = NodeInRange { node: pending.node };
                self.without_pending().apply_due(node)
            }
            _ => self.stays(None),
        }
    }

    // Internal: the status step on the node at place pos.
    pub fn status_at(&self, pos: usize, status: StatusUpdate) -> Step<SoundBucket, UpdateResult>
        requires { pos < self.now.bucket.count }
        ensures { Does (settings_of self.now.bucket) (update_status (settings_of self.now.bucket) (key_at self.now.bucket pos) (is_one status.state) (optional_of status.direction) (bucket_of self.now.bucket)) (update_result_of result.result) result.bucket.bucket }
    {
        self.put_again(pos, self.node_at(pos).with_status(status))
    }

    // Internal: what is left of the bucket where the node at place pos is out, to be placed again with this state, which is the node's and
    // no choice of a step. A pending goes where place 0 is confirmed.
    pub fn rest_at(&self, pos: usize, connected: bool) -> SoundBucket
        requires { pos < self.now.bucket.count }
        ensures { Becomes (settings_of self.now.bucket) (taken_out (key_at self.now.bucket pos) connected (bucket_of self.now.bucket)) result.bucket }
    {
        let rest = self.taken_out(pos);
        if connected & (pos == 0) {
            return rest.without_pending();
        }
        rest
    }

    // Internal: takes out the node at place pos, and inserts one of its key.
    pub fn put_again(&self, pos: usize, node: NodeInRange) -> Step<SoundBucket, UpdateResult>
        requires pos_lt_count { pos < self.now.bucket.count }
        requires pos_value { key_at self.now.bucket pos ≡ num node.node.key }
        ensures { Does (settings_of self.now.bucket) (stated (node_of (get_or self.now.bucket.nodes pos zero_node)) (node_of node.node) (reinsert (settings_of self.now.bucket) (node_of node.node) (taken_out (num node.node.key) (node_of node.node).connected (bucket_of self.now.bucket)))) (update_result_of result.result) result.bucket.bucket }
    {
        self.rest_at(pos, node.node.is_connected())
            .reinserted(self.bucket.nodes[pos], node)
    }

    // Inserts a node that was taken out, and that was `old` before. It stays out where a test fails.
    fn reinserted(self, old: Node, node: NodeInRange) -> Step<SoundBucket, UpdateResult>
        requires count_lt_max_nodes_per_bucket { self.bucket.count < max_nodes_per_bucket }
        requires self_value { holds (num node.node.key) (bucket_of self.bucket) ≡ false }
        ensures { Does (settings_of self.bucket) (stated (node_of old) (node_of node.node) (reinsert (settings_of self.bucket) (node_of node.node) (bucket_of self.bucket))) (update_result_of result.result) result.bucket.bucket }
    {
        if self.fails_filter(node.node.value) {
            return self.stays(UpdateResult::Failed(FailureReason::BucketFilter));
        }
        if self.is_max_incoming(node.node) {
            return self.stays(UpdateResult::Failed(FailureReason::TooManyIncoming));
        }
        Step {
            bucket: self.placed(node),
            result: status_result(old, node.node),
        }
    }

    // The step on a pending of this key; `f` is what it does to the node, whose key stays.
    fn pending_changed<F: FnOnce(NodeInRange) -> NodeInRange>(
        self,
        key: Key,
        f: F,
    ) -> Step<SoundBucket, UpdateResult>
        requires callable { F.IsAlwaysCallable f }
        requires key_stays { (n m : NodeInRange) → F.post f n m → m.node.key ≡ n.node.key }
        ensures { (g : ends.Node → ends.Node) → ((n m : NodeInRange) → F.post f n m → node_of m.node ≡ g (node_of n.node)) → Does (settings_of self.bucket) (update_if_pending (num key) g (bucket_of self.bucket) (pending_of self.bucket.pending)) (update_result_of result.result) result.bucket.bucket }
    {
        match self.bucket.pending {
            Some(pending) if pending.node.key.eq(key) => {
                let changed = f(NodeInRange { node: pending.node });
                let pending = PendingNode {
                    node: changed.node,
                    ..pending
                };
                Step {
                    bucket: SoundBucket {
                        bucket: self.bucket.with_pending(Some(pending)),
                    },
                    result: UpdateResult::UpdatedPending,
                }
            }
            _ => self.stays(UpdateResult::Failed(FailureReason::KeyNonExistent)),
        }
    }

    // Internal: the status step on a pending of this key.
    pub fn status_pending(self, key: Key, status: StatusUpdate) -> Step<SoundBucket, UpdateResult>
        ensures { Does (settings_of self.bucket) (update_if_pending (num key) (with_status (is_one status.state) (optional_of status.direction)) (bucket_of self.bucket) (pending_of self.bucket.pending)) (update_result_of result.result) result.bucket.bucket }
    {
        self.pending_changed(key, |node| node.with_status(status))
    }

    // Internal: takes the node of the key out, changes its status and inserts it.
    pub fn update_status(self, key: Key, status: StatusUpdate) -> Step<SoundBucket, UpdateResult>
        ensures { Does (settings_of self.bucket) (update_status (settings_of self.bucket) (num key) (is_one status.state) (optional_of status.direction) (bucket_of self.bucket)) (update_result_of result.result) result.bucket.bucket }
    {
        match self.position(key) {
            Some(pos) => self.status_at(pos, status),
            None => self.status_pending(key, status),
        }
    }

    // Internal: the value step on the node at place pos.
    pub fn value_at(mut self, pos: usize, value: ValueInRange) -> Step<SoundBucket, UpdateResult>
        requires { pos < self.bucket.count }
        ensures { Does (settings_of self.bucket) (update_value (settings_of self.bucket) (key_at self.bucket pos) (value_of value.value) (bucket_of self.bucket)) (update_result_of result.result) result.bucket.bucket }
    {
        let old = self.bucket.nodes[pos];
        if old.value.eq(value.value) {
            return self.stays(UpdateResult::NotModified);
        }
        if self.bucket.settings.filter == 1 {
            let rest = self.taken_out(pos);
            if rest.fails_filter(value.value) {
                return Step {
                    bucket: rest,
                    result: UpdateResult::Failed(FailureReason::BucketFilter),
                };
            }
        }
        self.bucket.nodes[pos] = old.with_value(value.value);
        Step {
            bucket: self,
            result: UpdateResult::Updated,
        }
    }

    // Internal: the value step on a pending of this key.
    pub fn value_pending(self, key: Key, value: ValueInRange) -> Step<SoundBucket, UpdateResult>
        ensures { Does (settings_of self.bucket) (update_if_pending (num key) (with_value (value_of value.value)) (bucket_of self.bucket) (pending_of self.bucket.pending)) (update_result_of result.result) result.bucket.bucket }
    {
        self.pending_changed(key, |node| node.with_value(value))
    }

    // Internal: changes the value of the node of the key, in its place. Of the form of update_status, around other steps: one function
    // for both would take the steps as closures, with their contracts as clauses.
    pub fn update_value(self, key: Key, value: ValueInRange) -> Step<SoundBucket, UpdateResult>
        ensures { Does (settings_of self.bucket) (update_value (settings_of self.bucket) (num key) (value_of value.value) (bucket_of self.bucket)) (update_result_of result.result) result.bucket.bucket }
    {
        match self.position(key) {
            Some(pos) => self.value_at(pos, value),
            None => self.value_pending(key, value),
        }
    }

    // Internal: sets the status of the pending, if any. Both codes are given.
    pub fn update_pending(self, status: StatusInRange) -> SoundBucket
        ensures { Becomes (settings_of self.bucket) (update_pending (is_one status.status.state) (is_one status.status.direction) (bucket_of self.bucket)) result.bucket }
    {
        let Some(pending) = self.bucket.pending else {
            return self;
        };
        let status = status.status;
        let node = pending
            .node
            .with_status(status.state, Some(status.direction));
        SoundBucket {
            bucket: self
                .bucket
                .with_pending(Some(PendingNode { node, ..pending })),
        }
    }

    // Internal: takes the node of the key out, then applies a due pending and throws its record away.
    pub fn remove(self, key: Key, now: u64) -> Step<SoundBucket, bool>
        ensures { Does (settings_of self.bucket) (remove (settings_of self.bucket) now (num key) (bucket_of self.bucket)) result.result result.bucket.bucket }
    {
        match self.position(key) {
            Some(pos) => Step {
                bucket: self.taken_out(pos).apply_pending(now).bucket,
                result: true,
            },
            None => self.stays(false),
        }
    }
}

impl<B, T> Step<B, T> {
    // Internal: the step with what `f` makes of its result.
    pub fn map<U, F: FnOnce(T) -> U>(self, f: F) -> Step<B, U>
        requires { F.pre f self.result }
        ensures bucket { result.bucket ≡ self.bucket }
        ensures answer { F.post f self.result result.result }
    {
        Step {
            bucket: self.bucket,
            result: f(self.result),
        }
    }
}

impl<T> Step<SoundBucket, T> {
    // The answer of a call that was not refused.
    fn answered(self) -> Step<KBucket, Result<T, Refusal>>
        ensures { result ≡ record { bucket = self.bucket.bucket; result = Ok self.result } }
    {
        Step {
            bucket: self.bucket.bucket,
            result: Ok(self.result),
        }
    }
}

// Internal: question 5, where a time is given.
pub fn asked_time(pending_timeout: u64, time: Option<u64>) -> Result<(), Refusal>
    ensures { failed_of result ≡ cond (deadline_fits pending_timeout (option_of time)) none (some 5) }
{
    match time {
        Some(time) if u64::MAX - pending_timeout < time => Err(Refusal::Time),
        _ => Ok(()),
    }
}

// Internal: the record of a pending that was placed; none of one that was not.
pub fn only_placed(ended: Option<EndedPending>) -> Option<EndedPending>
    ensures { records_of result ≡ placed_of (records_of ended) }
{
    ended.filter(|e| matches!(e.ending, Ending::Placed(_)))
}

// Internal: the pending, unless it is of this key.
pub fn cleared(key: Key, pending: Option<PendingNode>) -> Option<PendingNode>
    ensures { result ≡ cleared_pending (num key) pending }
{
    pending.filter(|p| !p.node.key.eq(key))
}

// Internal: is a pending not held, and are its codes in range? A yes also tells what Rattle knows of its key.
pub fn pending_sound(nodes: &[Node], pending: Option<PendingNode>) -> bool
    ensures value { result ≡ pending_fits nodes.now pending }
    ensures pending_words { PendingWords pending }
{
    match pending {
        None => true,
        Some(p) => { has_codes(p.node) && places::position(nodes, p.node.key).is_none() }
    }
}

// `in_range`, with what Rattle knows of the key's words.
fn has_codes(node: Node) -> bool
    ensures value { result ≡ node_codes node }
    ensures words { Words node.key }
{
    node.in_range()
}

// Internal: what a status step that places the node again answers.
pub fn status_result(old: Node, node: Node) -> UpdateResult
    ensures { update_result_of result ≡ status_result (node_of old) (node_of node) none }
{
    if same_status(old, node) {
        UpdateResult::NotModified
    } else if !old.is_connected() && node.is_connected() {
        UpdateResult::UpdatedAndPromoted
    } else {
        UpdateResult::Updated
    }
}

// Internal: do both nodes have the same state and direction? No derived equality: a code counts as 1 or as not 1, and all codes but 1 are
// the same.
pub fn same_status(x: Node, y: Node) -> bool
    ensures { result ≡ same_status (node_of x) (node_of y) }
{
    x.status.is_connected() == y.status.is_connected()
        && x.status.is_incoming() == y.status.is_incoming()
}
