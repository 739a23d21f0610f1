// The two calls of the table that give a value (kbucket.rs). The table filter is tested on the storage as the call found it, and a due
// pending is applied after that. Where it runs, it reads every bucket, and one that is malformed refuses the call (document 02, slip 7).
#![tactic(auto)]

ghost use Rattle.std.specs.Prelude.{◌≡◌};
ghost use Rattle.model.specs.Call.{Call, KeyCall};
ghost use Rattle.model.specs.StepBytes.{step_bytes};
ghost use Rattle.node.specs.Node.{argument_of};
ghost use Rattle.on_key.specs.Answers.{Answers, update_answer};
ghost use Rattle.session.specs.Hours.{hours_of};
ghost use Rattle.update.specs.Calls.{insert_or_update_answer};

use bucket::{FailureReason, UpdateResult};
use bucket_update::InsertResult;
use held::SettingsAt;
use node::{Code, NodeFields, NodeStatus, NodeUpdate, Refusal, Value};
use session::Hours;
use storage::Layout;

// Updates the value of the node of the key, and its state; state 2 is none given.
pub fn update_node(
    s: &mut [u8],
    key: &[u8],
    value: Value,
    state: Code,
    time: u64,
) -> Result<UpdateResult, Refusal>
    ensures { Answers (update_answer result) s.new (step_bytes (Call.on_key key.now (KeyCall.update_node (argument_of value) state time)) s.old) }
{
    let s = s.as_mut_array().ok_or(Refusal::Size)?;
    let update = NodeUpdate::of(value, state);
    let Some((k, i, update)) = on_key::begin(s, key, update, Some(time))? else {
        return Ok(UpdateResult::NotModified);
    };
    let fails = table_filter::asked_filter(s, i, k, value)?;
    if held::is_quiet(storage::bucket(s, i)) {
        let settings = header::settings(s);
        let bucket = &mut s[storage::bucket_range(i)];
        return Ok(held_update::update_node(bucket, settings, fails, k, update));
    }
    let applied = on_key::apply_at(s, i, time);
    let step = bucket_update::update_node_in(applied.bucket, fails, k, update, time);
    let before = applied.bucket.bucket.pending;
    on_key::end(s, i, applied.result, before, &step.bucket, k)?;
    Ok(step.result)
}

// Updates the node of the key, or inserts it where the key is not held: the local key and one that was held or pending before the call at
// every hour, any other only while it is open (document 02, slip 8).
pub fn insert_or_update(
    s: &mut [u8],
    key: &[u8],
    value: Value,
    status: NodeStatus,
    time: u64,
    hours: Hours,
) -> Result<InsertResult, Refusal>
    ensures { Answers (insert_or_update_answer result) s.new (step_bytes (Call.on_key key.now (KeyCall.insert_or_update (argument_of value) status.state status.direction time (hours_of hours.entry))) s.old) }
{
    let s = s.as_mut_array().ok_or(Refusal::Size)?;
    let fields = NodeFields::of(value, status);
    let Some((k, i, fields)) = on_key::begin(s, key, fields, Some(time))? else {
        session::asked(hours, true)?;
        return Ok(InsertResult::Failed(FailureReason::InvalidSelfUpdate));
    };
    let node = fields.with_key(k);
    let fails = table_filter::asked_filter(s, i, k, node.node.value)?;
    let bucket = storage::bucket(s, i);
    if held::is_quiet(bucket) {
        let pos = held::position(held::nodes(bucket), k);
        session::asked(hours, pos.is_some())?;
        let settings = header::settings(s);
        let now = SettingsAt { settings, time };
        let bucket = &mut s[storage::bucket_range(i)];
        return Ok(held_update::insert_or_update(bucket, now, pos, fails, node));
    }
    let applied = on_key::apply_at(s, i, time);
    let step = bucket_update::insert_or_update_in(applied.bucket, fails, node, time);
    let record = on_key::record_of(
        applied.result,
        applied.bucket.bucket.pending,
        step.bucket.bucket.pending,
        k,
    );
    on_key::asked_queue(s, usize::from(record.is_some()))?;
    admission::asked(s, i, k, hours)?;
    on_key::write_back(s, i, record, &step.bucket);
    Ok(step.result)
}
