// Internal: why a step on a bucket by value fails (document 02, slip 1), from the very tests that decide its answer. None of these reasons
// holds a table, so each is a `Reason<'static>`.
#![tactic(auto)]

ghost use Rattle.std.specs.Prelude.{◌≡◌, ◌<◌};
ghost use Rattle.model.specs.Call.{is_one};
ghost use Rattle.model.specs.Explain.{full_reason, insert_reason, reinsert_reason, if_pending_reason, status_reason, value_reason, update_node_reason, insert_or_update_reason, remove_reason};
ghost use Rattle.key.specs.Key.{num};
ghost use Rattle.node.specs.Node.{value_of, node_of};
ghost use Rattle.node.specs.Status.{optional_of};
ghost use Rattle.bucket.specs.Bucket.{key_at, bucket_of, settings_of};
ghost use Rattle.explanation.specs.Explanation.{reason_of};

use bucket::{KBucket, SoundBucket, UpdateResult};
use explanation::Reason;
use key::Key;
use node::{Node, NodeInRange, NodeUpdate, StatusUpdate, Value};

// For Full: the newcomer is disconnected, else all are connected, else a pending exists. Without these the node becomes the pending.
fn full_reason(b: &SoundBucket, node: Node) -> Option<Reason<'static>>
    ensures { reason_of result ≡ full_reason (node_of node).connected (bucket_of b.now.bucket).disconnected (bucket_of b.now.bucket).pending }
{
    if !node.is_connected() {
        return Some(Reason::NewcomerDisconnected);
    }
    if b.bucket.first_connected_pos == 0 {
        return Some(Reason::AllConnected);
    }
    let pending = b.bucket.pending?;
    Some(Reason::Pending(pending.node.key))
}

// The first test that a node fails which is put into the bucket, where there is room.
fn reinsert_reason(b: &SoundBucket, node: Node) -> Option<Reason<'static>>
    ensures { reason_of result ≡ reinsert_reason (settings_of b.now.bucket) (node_of node) (bucket_of b.now.bucket) }
{
    if b.fails_filter(node.value) {
        Some(Reason::BucketFilter(*b, node.value))
    } else if b.is_max_incoming(node) {
        Some(Reason::IncomingLimit(*b))
    } else {
        None
    }
}

// Internal: an insert of a key that is not held: the first test that fails.
pub fn insert_reason(b: &SoundBucket, node: Node) -> Option<Reason<'static>>
    ensures { reason_of result ≡ insert_reason (settings_of b.now.bucket) (node_of node) (bucket_of b.now.bucket) }
{
    match reinsert_reason(b, node) {
        None if b.bucket.count == KBucket::MAX_NODES_PER_BUCKET => full_reason(b, node),
        reason => reason,
    }
}

// A step on a key that is not held: none where it is pending.
fn pending_reason(b: &SoundBucket, key: Key) -> Option<Reason<'static>>
    ensures { reason_of result ≡ if_pending_reason (num key) (bucket_of b.now.bucket).pending }
{
    let pending = b.bucket.pending.is_some_and(|p| p.node.key.eq(key));
    (!pending).then_some(Reason::NoSuchKey)
}

// The status step on the node at place pos. The filter looks at the node's old value.
fn status_reason_at(b: &SoundBucket, pos: usize, status: StatusUpdate) -> Option<Reason<'static>>
    requires { pos < b.now.bucket.count }
    ensures { reason_of result ≡ status_reason (settings_of b.now.bucket) (key_at b.now.bucket pos) (is_one status.state) (optional_of status.direction) (bucket_of b.now.bucket) }
{
    let node = b.node_at(pos).with_status(status).node;
    let rest = b.rest_at(pos, node.is_connected());
    reinsert_reason(&rest, node)
}

// Internal: update_status.
pub fn status_reason(b: &SoundBucket, key: Key, status: StatusUpdate) -> Option<Reason<'static>>
    ensures { reason_of result ≡ status_reason (settings_of b.now.bucket) (num key) (is_one status.state) (optional_of status.direction) (bucket_of b.now.bucket) }
{
    match b.position(key) {
        Some(pos) => status_reason_at(b, pos, status),
        None => pending_reason(b, key),
    }
}

// The value step on the node at place pos. The filter does not see the node itself.
fn value_reason_at(b: &SoundBucket, pos: usize, value: Value) -> Option<Reason<'static>>
    requires { pos < b.now.bucket.count }
    ensures { reason_of result ≡ value_reason (settings_of b.now.bucket) (key_at b.now.bucket pos) (value_of value) (bucket_of b.now.bucket) }
{
    let rest = b.taken_out(pos);
    let fails = !b.bucket.nodes[pos].value.eq(value) && rest.fails_filter(value);
    fails.then_some(Reason::BucketFilter(rest, value))
}

// Internal: update_value. Of the form of status_reason, around another reason: one function for both would take that one as a closure,
// with its contract as a clause.
pub fn value_reason(b: &SoundBucket, key: Key, value: Value) -> Option<Reason<'static>>
    ensures { reason_of result ≡ value_reason (settings_of b.now.bucket) (num key) (value_of value) (bucket_of b.now.bucket) }
{
    match b.position(key) {
        Some(pos) => value_reason_at(b, pos, value),
        None => pending_reason(b, key),
    }
}

// Internal: update_node behind the table filter.
pub fn update_node_reason(b: &SoundBucket, key: Key, update: NodeUpdate) -> Option<Reason<'static>>
    ensures { reason_of result ≡ update_node_reason (settings_of b.now.bucket) (num key) (value_of update.value.value) (optional_of update.state) (bucket_of b.now.bucket) }
{
    let valued = b.update_value(key, update.value);
    match (valued.result, update.status()) {
        (UpdateResult::Failed(_), _) => value_reason(b, key, update.value.value),
        (_, Some(status)) => status_reason(&valued.bucket, key, status),
        (_, None) => None,
    }
}

// Internal: insert_or_update behind the table filter. A status step that failed the bucket filter is named so.
pub fn insert_or_update_reason(b: &SoundBucket, node: NodeInRange) -> Option<Reason<'static>>
    ensures { reason_of result ≡ insert_or_update_reason (settings_of b.now.bucket) (node_of node.node) (bucket_of b.now.bucket) }
{
    let key = node.node.key;
    if !b.holds(key) {
        return insert_reason(b, node.node);
    }
    let stated = b.update_status(key, node.status());
    match stated.result {
        UpdateResult::Failed(_) => status_reason(b, key, node.status()),
        _ => value_reason(&stated.bucket, key, node.node.value),
    }
}

// Internal: remove.
pub fn remove_reason(b: &SoundBucket, key: Key) -> Option<Reason<'static>>
    ensures { reason_of result ≡ remove_reason (num key) (bucket_of b.now.bucket) }
{
    (!b.holds(key)).then_some(Reason::NoSuchKey)
}
