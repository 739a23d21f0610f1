// The entry of a key (entry.rs): its kind and status, and the actions on it, which name the key again and apply no pending.
#![tactic(auto)]

ghost use Rattle.std.specs.Prelude.{◌≡◌, true};
ghost use Rattle.model.specs.Table.{kind_of};
ghost use Rattle.model.specs.Call.{Call, KeyCall};
ghost use Rattle.model.specs.Layout.{bucket_in};
ghost use Rattle.model.specs.StepBytes.{step_bytes};
ghost use Rattle.key.specs.Key.{num};
ghost use Rattle.key.specs.Answers.{option_of};
ghost use Rattle.node.specs.Node.{argument_of};
ghost use Rattle.bucket.specs.Bucket.{bucket_of};
ghost use Rattle.held.specs.Held.{Quiet};
ghost use Rattle.on_key.specs.Answers.{Answers, update_answer};
ghost use Rattle.session.specs.Hours.{hours_of};
ghost use Rattle.entry.specs.Kind as kind;
ghost use Rattle.entry.specs.Start.{Started};

use bucket::{InsertResult, SoundBucket, UpdateResult};
use held::SettingsAt;
use key::Key;
use node::{Code, NodeFields, NodeStatus, Refusal, StatusInRange, StatusUpdate, Value};
use session::Hours;
use storage::Layout;

// The kind of a key's entry, with its status.
#[derive(Clone, Copy, PartialEq, Eq)]
pub enum EntryKind {
    Present(NodeStatus),
    Pending(NodeStatus),
    Absent,
    SelfEntry,
}

// Internal: the kind of the key in its bucket.
pub fn kind_of(b: &SoundBucket, key: Key) -> EntryKind
    ensures result_value { kind.kind_of result ≡ kind_of (num key) (bucket_of b.now.bucket) }
    ensures result_value_2 { kind.kind_codes result ≡ true }
{
    if let Some(pos) = b.position(key) {
        return EntryKind::Present(b.bucket.nodes[pos].status);
    }
    match b.bucket.pending {
        Some(pending) if pending.node.key.eq(key) => EntryKind::Pending(pending.node.status),
        _ => EntryKind::Absent,
    }
}

// Internal: the same of the bytes of a bucket without a pending, which need not be loaded (held, head).
pub fn kind_here(bucket: &[u8; Layout::BUCKET], key: Key) -> EntryKind
    requires { Quiet bucket.now }
    ensures result_value { kind.kind_of result ≡ kind_of (num key) (bucket_in bucket.now) }
    ensures result_value_2 { kind.kind_codes result ≡ true }
{
    let Some(pos) = held::position(held::nodes(bucket), key) else {
        return EntryKind::Absent;
    };
    EntryKind::Present(held::node_at(bucket, pos).node.status)
}

// How an action on the entry of a key starts: as the calls on a key do, with question 7 of the local key, which no action is for.
fn begin<T: Copy>(
    s: &[u8; Layout::STORAGE],
    key: &[u8],
    arguments: Option<T>,
    time: Option<u64>,
) -> Result<(Key, usize, T), Refusal>
    ensures { Started s.now key.now arguments (option_of time) result }
{
    on_key::begin(s, key, arguments, time)?.ok_or(Refusal::Kind)
}

// The kind and status of the key, after a due pending was applied. Without a pending nothing is written. Not one function with
// `table::remove`, nor `table::update_node_status` with `update::update_node`: it would take what each does in both ways as closures, with
// their contracts, and be longer than the two are.
pub fn entry(s: &mut [u8], key: &[u8], time: u64) -> Result<EntryKind, Refusal>
    ensures answers { Answers (kind.entry_answer result) s.new (step_bytes (Call.on_key key.now (KeyCall.entry time)) s.old) }
    ensures result_value { kind.entry_codes result ≡ true }
{
    let s = s.as_mut_array().ok_or(Refusal::Size)?;
    let Some((k, i, ())) = on_key::begin(s, key, Some(()), Some(time))? else {
        return Ok(EntryKind::SelfEntry);
    };
    let bucket = storage::bucket(s, i);
    if held::is_quiet(bucket) {
        return Ok(kind_here(bucket, k));
    }
    let applied = on_key::apply_at(s, i, time);
    let found = kind_of(&applied.bucket, k);
    on_key::finish(s, i, applied.result, &applied.bucket)?;
    Ok(found)
}

// Present: sets the status of the node; direction 2 is none given.
pub fn present_update(
    s: &mut [u8],
    key: &[u8],
    state: Code,
    direction: Code,
) -> Result<UpdateResult, Refusal>
    ensures { Answers (update_answer result) s.new (step_bytes (Call.on_key key.now (KeyCall.present_update state direction)) s.old) }
{
    let s = s.as_mut_array().ok_or(Refusal::Size)?;
    let (k, i, status) = begin(s, key, StatusUpdate::of(state, direction), None)?;
    let bucket = storage::bucket(s, i);
    if held::is_quiet(bucket) {
        let Some(pos) = held::position(held::nodes(bucket), k) else {
            return Err(Refusal::Kind);
        };
        let settings = header::settings(s);
        let bucket = &mut s[storage::bucket_range(i)];
        return Ok(held::update_status_at(bucket, settings, pos, status));
    }
    let stored = buckets::load_bucket(s, i);
    let EntryKind::Present(_) = kind_of(&stored, k) else {
        return Err(Refusal::Kind);
    };
    let step = stored.update_status(k, status);
    on_key::end(s, i, None, stored.bucket.pending, &step.bucket, k)?;
    Ok(step.result)
}

// Pending: sets the status of the pending.
pub fn pending_update(s: &mut [u8], key: &[u8], status: NodeStatus) -> Result<UpdateResult, Refusal>
    ensures { Answers (update_answer result) s.new (step_bytes (Call.on_key key.now (KeyCall.pending_update status.state status.direction)) s.old) }
{
    let s = s.as_mut_array().ok_or(Refusal::Size)?;
    let (k, i, status) = begin(s, key, StatusInRange::of(status), None)?;
    let stored = buckets::load_bucket(s, i);
    let EntryKind::Pending(_) = kind_of(&stored, k) else {
        return Err(Refusal::Kind);
    };
    on_key::finish(s, i, None, &stored.update_pending(status))?;
    Ok(UpdateResult::UpdatedPending)
}

// Absent: inserts the node into its bucket, while it is open (document 02, slip 8); the table filter is skipped.
pub fn absent_insert(
    s: &mut [u8],
    key: &[u8],
    value: Value,
    status: NodeStatus,
    time: u64,
    hours: Hours,
) -> Result<InsertResult, Refusal>
    ensures { Answers (kind.insert_answer result) s.new (step_bytes (Call.on_key key.now (KeyCall.absent_insert (argument_of value) status.state status.direction time (hours_of hours.entry))) s.old) }
{
    let s = s.as_mut_array().ok_or(Refusal::Size)?;
    let (k, i, fields) = begin(s, key, NodeFields::of(value, status), Some(time))?;
    let node = fields.with_key(k);
    let bucket = storage::bucket(s, i);
    if held::is_quiet(bucket) {
        if held::position(held::nodes(bucket), k).is_some() {
            return Err(Refusal::Kind);
        }
        session::asked(hours, false)?;
        let settings = header::settings(s);
        let now = SettingsAt { settings, time };
        let bucket = &mut s[storage::bucket_range(i)];
        return Ok(held::insert_new(bucket, now, node));
    }
    let stored = buckets::load_bucket(s, i);
    let EntryKind::Absent = kind_of(&stored, k) else {
        return Err(Refusal::Kind);
    };
    session::asked(hours, false)?;
    let step = stored.insert(node, time);
    on_key::finish(s, i, None, &step.bucket)?;
    Ok(step.result)
}
