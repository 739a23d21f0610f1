// The calls on a bucket by itself, lent as bytes (bucket.rs): each asks its questions, loads the bucket by value, runs its method and
// stores it. Each answers the method's result; insert and apply_pending answer the number of theirs, since question 6 is asked of the very
// `answer` that they fill, with a key or a record at its front. The parameters stand in the order of the C interface.
#![tactic(auto)]

ghost use Rattle.std.specs.Prelude.{[]};
ghost use Rattle.model.specs.Layout.{flag_byte};
ghost use Rattle.node.specs.Node.{argument_of};
ghost use Rattle.codes.specs.Exported.{Leaves, Writes};
ghost use Rattle.bucket_calls.specs.Calls.{BucketCall, bucket_step, bucket_new, code_of, number_code, updated_code, done_code};

pub mod stored;

use crate::stored::Lent;
use bucket::{KBucket, UpdateResult};
use codes::{Answer, Reply};
use node::{
    Code, NodeFields, NodeStatus, Refusal, StatusInRange, StatusUpdate, Value, ValueInRange,
};
use storage::Layout;

// Makes the bytes those of an empty bucket.
#[tactic(auto, unfolding(crate::specs::Calls::bucket_new))]
pub fn new(
    s: &mut [u8],
    pending_timeout: u64,
    max_incoming: u8,
    filter: Code,
) -> Result<(), Refusal>
    ensures { Leaves (code_of done_code result) s.new (bucket_new pending_timeout max_incoming filter s.old) }
{
    let s = s.as_mut_array::<{ KBucket::BYTES }>().ok_or(Refusal::Size)?;
    if !((usize::from(max_incoming) <= KBucket::MAX_NODES_PER_BUCKET) & (filter <= 1)) {
        return Err(Refusal::Code);
    }
    words::put_zeros(&mut s[0..Layout::BUCKET]);
    words::put_u64(
        &mut s[Lent::TIMEOUT_AT..Lent::MAX_INCOMING_AT],
        pending_timeout,
    );
    s[Lent::MAX_INCOMING_AT] = max_incoming;
    s[Lent::FILTER_AT] = filter;
    Ok(())
}

// Inserts a node, or makes it the pending.
pub fn insert(
    s: &mut [u8],
    key: &[u8],
    value: Value,
    status: NodeStatus,
    time: u64,
    answer: &mut [u8],
) -> Result<u32, Refusal>
    ensures { Writes (code_of number_code result) s.new answer.new (bucket_step (BucketCall.insert key.now (argument_of value) status.state status.direction time) answer.old s.old) }
{
    let s = s.as_mut_array().ok_or(Refusal::Size)?;
    let fields = NodeFields::of(value, status);
    let (k, fields) = stored::asked(s, stored::key_of(key), fields, Some(time))?;
    if answer.len() < Answer::BYTES {
        return Err(Refusal::Output);
    }
    let step = stored::load(s).insert(fields.with_key(k), time);
    stored::store(s, &step.bucket);
    Ok(Reply::from(step.result).put(answer))
}

// Applies the pending if it is due.
pub fn apply_pending(s: &mut [u8], time: u64, answer: &mut [u8]) -> Result<u32, Refusal>
    ensures { Writes (code_of number_code result) s.new answer.new (bucket_step (BucketCall.apply_pending time) answer.old s.old) }
{
    let s = s.as_mut_array().ok_or(Refusal::Size)?;
    stored::asked(s, Some(()), Some(()), Some(time))?;
    if answer.len() < Answer::BYTES {
        return Err(Refusal::Output);
    }
    let step = stored::load(s).apply_pending(time);
    stored::store(s, &step.bucket);
    Ok(Reply::from(bucket::only_placed(step.result)).put(answer))
}

// Sets the status of the key's node or pending; direction 2 is none given.
pub fn update_status(
    s: &mut [u8],
    key: &[u8],
    state: Code,
    direction: Code,
) -> Result<UpdateResult, Refusal>
    ensures { Leaves (code_of updated_code result) s.new (bucket_step (BucketCall.update_status key.now state direction) [] s.old) }
{
    let s = s.as_mut_array().ok_or(Refusal::Size)?;
    let status = StatusUpdate::of(state, direction);
    let (k, status) = stored::asked(s, stored::key_of(key), status, None)?;
    let step = stored::load(s).update_status(k, status);
    stored::store(s, &step.bucket);
    Ok(step.result)
}

// Sets the value of the key's node or pending.
pub fn update_value(s: &mut [u8], key: &[u8], value: Value) -> Result<UpdateResult, Refusal>
    ensures { Leaves (code_of updated_code result) s.new (bucket_step (BucketCall.update_value key.now (argument_of value)) [] s.old) }
{
    let s = s.as_mut_array().ok_or(Refusal::Size)?;
    let (k, value) = stored::asked(s, stored::key_of(key), ValueInRange::of(value), None)?;
    let step = stored::load(s).update_value(k, value);
    stored::store(s, &step.bucket);
    Ok(step.result)
}

// Sets the status of the pending, if there is one.
pub fn update_pending(s: &mut [u8], state: Code, direction: Code) -> Result<(), Refusal>
    ensures { Leaves (code_of done_code result) s.new (bucket_step (BucketCall.update_pending state direction) [] s.old) }
{
    let s = s.as_mut_array().ok_or(Refusal::Size)?;
    let status = StatusInRange::of(NodeStatus { state, direction });
    let ((), status) = stored::asked(s, Some(()), status, None)?;
    let left = stored::load(s).update_pending(status);
    stored::store(s, &left);
    Ok(())
}

// Takes the key's node out, then applies a due pending.
pub fn remove(s: &mut [u8], key: &[u8], time: u64) -> Result<bool, Refusal>
    ensures { Leaves (code_of flag_byte result) s.new (bucket_step (BucketCall.remove key.now time) [] s.old) }
{
    let s = s.as_mut_array().ok_or(Refusal::Size)?;
    let (k, ()) = stored::asked(s, stored::key_of(key), Some(()), Some(time))?;
    let step = stored::load(s).remove(k, time);
    stored::store(s, &step.bucket);
    Ok(step.result)
}
