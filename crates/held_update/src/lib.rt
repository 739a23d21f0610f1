// Internal: update_node and insert_or_update (kbucket.rs) on the bytes of a bucket without a pending, in place. What is left are the
// bytes of the bucket that the model's step leaves. In place, since to load and store the bucket takes longer than the step
// (crate held).
#![tactic(auto)]

ghost use Rattle.std.specs.Prelude.{◌≡◌, false, ℕ, ◌<◌, get_or};
ghost use Rattle.model.specs.Bucket.{nodes};
ghost use Rattle.model.specs.Table.{Answer, update_node_in, insert_or_update_in};
ghost use Rattle.model.specs.Layout.{bucket_in};
ghost use Rattle.key.specs.Key.{num};
ghost use Rattle.node.specs.Node.{value_of, node_of};
ghost use Rattle.node.specs.Status.{optional_of};
ghost use Rattle.bucket.specs.Settings.{settings_of};
ghost use Rattle.bucket.specs.Calls.{update_result_of};
ghost use Rattle.bucket_update.specs.Results.{table_insert_result_of};
ghost use Rattle.held.specs.Held.{Quiet, place, Position, Does};

use bucket::{FailureReason, Settings, UpdateResult};
use bucket_update::InsertResult;
use held::{Others, SettingsAt};
use key::Key;
use node::{NodeInRange, NodeUpdate};

// Internal: update_node. `fails` is the table filter's answer, a bool as in bucket_update::update_node_in. No pending can be applied, so
// the answer is the same at any time.
pub fn update_node(
    bucket: &mut [u8],
    settings: Settings,
    fails: bool,
    key: Key,
    update: NodeUpdate,
) -> UpdateResult
    requires { Quiet bucket.old }
    ensures { (time : ℕ) → Does (update_node_in (settings_of settings) fails time (num key) (value_of update.value.value) (optional_of update.state) (bucket_in bucket.old))
        (Answer.Update (update_result_of result)) bucket.new }
{
    if fails {
        held::remove(bucket, key);
        return UpdateResult::Failed(FailureReason::TableFilter);
    }
    match held::position(held::nodes(bucket), key) {
        Some(pos) => update_at(bucket, settings, pos, update),
        None => UpdateResult::Failed(FailureReason::KeyNonExistent),
    }
}

// The value's step and then the status's, of the node at place pos: it is moved once. A value that the bucket filter refuses fails in
// either step, so the status's step answers for both.
fn update_at(bucket: &mut [u8], settings: Settings, pos: usize, update: NodeUpdate) -> UpdateResult
    requires quiet { Quiet bucket.old }
    requires held { pos < get_or bucket.old 0 0 }
    ensures { (time k : ℕ) → place k (nodes (bucket_in bucket.old)) ≡ pos
        → Does (update_node_in (settings_of settings) false time k (value_of update.value.value) (optional_of update.state) (bucket_in bucket.old))
        (Answer.Update (update_result_of result)) bucket.new }
{
    let Some(status) = update.status() else {
        return held::value_at(bucket, settings, pos, update.value);
    };
    let old = held::node_at(bucket, pos);
    let node = old.with_value(update.value).with_status(status);
    let of_status = held::step(bucket, settings, pos, old.node, node);
    let of_value = bucket_update::value_result(old.node.value, update.value.value);
    bucket_update::both_updates(of_value, of_status)
}

// The status's step and then the value's, of the node at place pos: it is moved once. The status's step tests the value that the node
// had, and each of its failures is told as TooManyIncoming.
fn update_held(bucket: &mut [u8], settings: Settings, pos: usize, node: NodeInRange) -> InsertResult
    requires quiet { Quiet bucket.old }
    requires held { pos < get_or bucket.old 0 0 }
    requires node { place (num node.node.key) (nodes (bucket_in bucket.old)) ≡ pos }
    ensures { (time : ℕ) → Does (insert_or_update_in (settings_of settings) false time (node_of node.node) (bucket_in bucket.old))
        (Answer.InsertOrUpdate (table_insert_result_of result)) bucket.new }
{
    let old = held::node_at(bucket, pos).node;
    let others = Others {
        held: held::nodes(bucket),
        skip: pos,
    };
    if others.fails_filter(settings, old.value) || others.is_max_incoming(settings, node.node) {
        held::take_out(bucket, pos);
        return InsertResult::Failed(FailureReason::TooManyIncoming);
    }
    if others.fails_filter(settings, node.node.value) {
        held::take_out(bucket, pos);
        return InsertResult::Failed(FailureReason::BucketFilter);
    }
    held::replace(bucket, pos, node);
    let of_value = bucket_update::value_result(old.value, node.node.value);
    let of_status = bucket::status_result(old, node.node);
    bucket_update::insert_updates(of_value, of_status)
}

// Internal: insert_or_update, where the key was looked for: pos is what `held::position` answers. `fails` as in update_node.
pub fn insert_or_update(
    bucket: &mut [u8],
    now: SettingsAt,
    pos: Option<usize>,
    fails: bool,
    node: NodeInRange,
) -> InsertResult
    requires quiet { Quiet bucket.old }
    requires position { Position (num node.node.key) (nodes (bucket_in bucket.old)) (get_or bucket.old 0 0) pos }
    ensures { Does (insert_or_update_in (settings_of now.settings) fails now.time (node_of node.node) (bucket_in bucket.old))
        (Answer.InsertOrUpdate (table_insert_result_of result)) bucket.new }
{
    if fails {
        held::remove(bucket, node.node.key);
        return InsertResult::Failed(FailureReason::TableFilter);
    }
    match pos {
        Some(pos) => update_held(bucket, now.settings, pos, node),
        None => bucket_update::inserts(held::insert_new(bucket, now, node)),
    }
}
