// The calls of the table on lent storage (kbucket.rs): each asks its questions, then does what the model's call does.
#![tactic(auto)]

ghost use Rattle.std.specs.Prelude.{◌≡◌, true};
ghost use Rattle.model.specs.Call.{Call, KeyCall};
ghost use Rattle.model.specs.StepBytes.{step_bytes};
ghost use Rattle.on_key.specs.Answers.{Answers, update_answer};
ghost use Rattle.table.specs.Calls.{remove_answer, take_answer, new_answer};

use bucket::{EndedPending, UpdateResult};
use key::Key;
use node::{Code, Refusal, StatusUpdate};
use storage::Layout;

// Takes the node of the key out.
pub fn remove(s: &mut [u8], key: &[u8], time: u64) -> Result<bool, Refusal>
    ensures { Answers (remove_answer result) s.new (step_bytes (Call.on_key key.now (KeyCall.remove time)) s.old) }
{
    let s = s.as_mut_array().ok_or(Refusal::Size)?;
    let Some((k, i, ())) = on_key::begin(s, key, Some(()), Some(time))? else {
        return Ok(false);
    };
    if held::is_quiet(storage::bucket(s, i)) {
        return Ok(held::remove(&mut s[storage::bucket_range(i)], k));
    }
    let applied = on_key::apply_at(s, i, time);
    let step = applied.bucket.remove(k, time);
    on_key::finish(s, i, applied.result, &step.bucket)?;
    Ok(step.result)
}

// Sets the status of the node of the key; direction 2 is none given.
pub fn update_node_status(
    s: &mut [u8],
    key: &[u8],
    state: Code,
    direction: Code,
    time: u64,
) -> Result<UpdateResult, Refusal>
    ensures { Answers (update_answer result) s.new (step_bytes (Call.on_key key.now (KeyCall.update_node_status state direction time)) s.old) }
{
    let s = s.as_mut_array().ok_or(Refusal::Size)?;
    let status = StatusUpdate::of(state, direction);
    let Some((k, i, status)) = on_key::begin(s, key, status, Some(time))? else {
        return Ok(UpdateResult::NotModified);
    };
    if held::is_quiet(storage::bucket(s, i)) {
        let settings = header::settings(s);
        let bucket = &mut s[storage::bucket_range(i)];
        return Ok(held::update_status(bucket, settings, k, status));
    }
    let applied = on_key::apply_at(s, i, time);
    let step = applied.bucket.update_status(k, status);
    let before = applied.bucket.bucket.pending;
    on_key::end(s, i, applied.result, before, &step.bucket, k)?;
    Ok(step.result)
}

// Takes the oldest record of an ended pending out of the queue; none where the queue is empty.
pub fn take_applied_pending(s: &mut [u8]) -> Result<Option<EndedPending>, Refusal>
    ensures { Answers (take_answer result) s.new (step_bytes Call.take_applied_pending s.old) }
{
    let s = s.as_mut_array().ok_or(Refusal::Size)?;
    on_key::asked_storage(s)?;
    Ok(header::take_record(s))
}

// Makes the storage that of an empty table.
pub fn new(
    s: &mut [u8],
    local_key: &[u8],
    pending_timeout: u64,
    max_incoming: u8,
    table_filter: Code,
    bucket_filter: Code,
) -> Result<(), Refusal>
    ensures { Answers (new_answer result) s.new (step_bytes (Call.new local_key.now pending_timeout max_incoming table_filter bucket_filter) s.old) }
{
    let s = s.as_mut_array().ok_or(Refusal::Size)?;
    let key = local_key.as_array().ok_or(Refusal::Key)?;
    let codes = (usize::from(max_incoming) <= model::MAX_NODES_PER_BUCKET)
        & ((table_filter <= 1) & (bucket_filter <= 1));
    if !codes {
        return Err(Refusal::Code);
    }
    header::clear(
        s,
        Key::from_bytes(key),
        pending_timeout,
        max_incoming,
        table_filter,
        bucket_filter,
    );
    Ok(())
}
