// Internal: what update_node and insert_or_update (kbucket.rs) do to the bucket of their key, by value.
#![tactic(auto)]

ghost use Rattle.std.specs.Prelude.{◌≡◌, ◌+◌, ◌<◌, ◌^◌};
ghost use Rattle.model.specs.Table.{Answer, both_updates, update_node_in, insert_updates, inserts, insert_or_update_in};
ghost use Rattle.key.specs.Key.{num};
ghost use Rattle.node.specs.Node.{value_of, node_of};
ghost use Rattle.node.specs.Status.{optional_of};
ghost use Rattle.bucket.specs.Bucket.{bucket_of, settings_of, Does};
ghost use Rattle.bucket.specs.Calls.{update_result_of, insert_result_of};
ghost use Rattle.bucket_update.specs.Results.{table_insert_result_of};
ghost use Rattle.bucket_update.specs.Again.{value_result};

use bucket::{FailureReason, InsertResult as BucketInsertResult, SoundBucket, Step, UpdateResult};
use key::Key;
use node::{NodeInRange, NodeUpdate, Value};

// What insert_or_update answers.
#[derive(Clone, Copy, Debug, PartialEq, Eq)]
pub enum InsertResult {
    // The key was not held, and is now.
    Inserted,
    // The node waits in a full bucket. It names the node at place 0, which is to be asked for.
    Pending(Key),
    // The status was updated; true where the node was disconnected and is connected.
    StatusUpdated(bool),
    ValueUpdated,
    // Value and status were updated, or neither changed; true as in StatusUpdated.
    Updated(bool),
    UpdatedPending,
    Failed(FailureReason),
}

// Internal: what the value's step and the status's step of update_node answer together.
pub fn both_updates(value: UpdateResult, status: UpdateResult) -> UpdateResult
    ensures { update_result_of result ≡ both_updates (update_result_of value) (update_result_of status) }
{
    match (value, status) {
        (_, UpdateResult::Failed(_)) => status,
        (UpdateResult::Failed(_), _) => value,
        (_, UpdateResult::UpdatedAndPromoted | UpdateResult::UpdatedPending) => status,
        (UpdateResult::UpdatedPending, _) => value,
        (UpdateResult::NotModified, UpdateResult::NotModified) => UpdateResult::NotModified,
        _ => UpdateResult::Updated,
    }
}

// Internal: what the value's step answers on a held node, where the bucket filter passes.
pub fn value_result(old: Value, value: Value) -> UpdateResult
    ensures { update_result_of result ≡ value_result (value_of old) (value_of value) }
{
    if old.eq(value) {
        UpdateResult::NotModified
    } else {
        UpdateResult::Updated
    }
}

// Internal: update_node on the bucket of its key. `fails` is the answer of the table filter, a test that the bucket
// alone cannot make. A bool, as in the model's rule: two functions would leave each of their callers the same branch.
pub fn update_node_in(
    b: SoundBucket,
    fails: bool,
    key: Key,
    update: NodeUpdate,
    time: u64,
) -> Step<SoundBucket, UpdateResult>
    ensures { Does (settings_of b.bucket) (update_node_in (settings_of b.bucket) fails time (num key) (value_of update.value.value) (optional_of update.state) (bucket_of b.bucket)) (Answer.Update (update_result_of result.result)) result.bucket.bucket }
{
    if fails {
        return Step {
            bucket: b.remove(key, time).bucket,
            result: UpdateResult::Failed(FailureReason::TableFilter),
        };
    }
    let value = update.value;
    let Some(status) = update.status() else {
        return b.update_value(key, value);
    };
    if b.bucket.settings.filter != 1 {
        if let Some(pos) = b.position(key) {
            let old = b.node_at(pos);
            let of_value = value_result(old.node.value, value.value);
            return b
                .put_again(pos, old.with_value(value).with_status(status))
                .map(|of_status| both_updates(of_value, of_status));
        }
    }
    let valued = b.update_value(key, value);
    if matches!(valued.result, UpdateResult::Failed(_)) {
        return valued;
    }
    valued
        .bucket
        .update_status(key, status)
        .map(|of_status| both_updates(valued.result, of_status))
}

// Internal: what the value's step and the status's step of insert_or_update on a held key answer together.
pub fn insert_updates(value: UpdateResult, status: UpdateResult) -> InsertResult
    ensures { table_insert_result_of result ≡ insert_updates (update_result_of value) (update_result_of status) }
{
    // A match within a match: one on the pair that binds the reason is not proved by the search.
    match value {
        UpdateResult::Updated => match status {
            UpdateResult::Updated => InsertResult::Updated(false),
            UpdateResult::UpdatedAndPromoted => InsertResult::Updated(true),
            UpdateResult::UpdatedPending | UpdateResult::NotModified => InsertResult::ValueUpdated,
            UpdateResult::Failed(reason) => InsertResult::Failed(reason),
        },
        UpdateResult::NotModified => match status {
            UpdateResult::Updated => InsertResult::StatusUpdated(false),
            UpdateResult::UpdatedAndPromoted => InsertResult::StatusUpdated(true),
            UpdateResult::UpdatedPending => InsertResult::UpdatedPending,
            UpdateResult::NotModified => InsertResult::Updated(false),
            UpdateResult::Failed(reason) => InsertResult::Failed(reason),
        },
        UpdateResult::UpdatedAndPromoted | UpdateResult::UpdatedPending => {
            InsertResult::UpdatedPending
        }
        UpdateResult::Failed(reason) => InsertResult::Failed(reason),
    }
}

// Internal: what insert_or_update answers on a key that is not held, by the model's name. No `From`: of a key that is held NodeExists would
// mean another thing.
pub fn inserts(r: BucketInsertResult) -> InsertResult
    ensures { table_insert_result_of result ≡ inserts (insert_result_of r) }
{
    match r {
        BucketInsertResult::Inserted => InsertResult::Inserted,
        BucketInsertResult::Pending(key) => InsertResult::Pending(key),
        BucketInsertResult::FailedFilter => InsertResult::Failed(FailureReason::BucketFilter),
        BucketInsertResult::TooManyIncoming => InsertResult::Failed(FailureReason::TooManyIncoming),
        BucketInsertResult::Full => InsertResult::Failed(FailureReason::BucketFull),
        BucketInsertResult::NodeExists => InsertResult::Failed(FailureReason::KeyNonExistent),
    }
}

// Internal: insert_or_update on the bucket of its key; `fails` as in update_node_in. That a deadline has room is a clause, as of the insert
// that it may come to.
pub fn insert_or_update_in(
    b: SoundBucket,
    fails: bool,
    node: NodeInRange,
    time: u64,
) -> Step<SoundBucket, InsertResult>
    requires { time + b.bucket.settings.pending_timeout < 2 ^ 64 }
    ensures { Does (settings_of b.bucket) (insert_or_update_in (settings_of b.bucket) fails time (node_of node.node) (bucket_of b.bucket)) (Answer.InsertOrUpdate (table_insert_result_of result.result)) result.bucket.bucket }
{
    let key = node.node.key;
    if fails {
        return Step {
            bucket: b.remove(key, time).bucket,
            result: InsertResult::Failed(FailureReason::TableFilter),
        };
    }
    let Some(pos) = b.position(key) else {
        return b.insert(node, time).map(inserts);
    };
    if b.bucket.settings.filter != 1 {
        let of_value = value_result(b.bucket.nodes[pos].value, node.node.value);
        return b
            .put_again(pos, node)
            .map(|of_status| insert_updates(of_value, of_status));
    }
    let stated = b.update_status(key, node.status());
    if matches!(stated.result, UpdateResult::Failed(_)) {
        return Step {
            bucket: stated.bucket,
            result: InsertResult::Failed(FailureReason::TooManyIncoming),
        };
    }
    stated
        .bucket
        .update_value(key, node.value())
        .map(|of_value| insert_updates(of_value, stated.result))
}
