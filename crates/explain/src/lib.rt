// What a call that inserts, updates or removes a peer would answer, the true reason and the keys behind it, in one line (document 02,
// slip 1). A query: it is asked what the call is asked, and nothing but the lent output is written.
#![tactic(auto)]

ghost use Rattle.std.specs.Prelude.{◌≡◌, true, ◌≤◌, length, leb};
ghost use Rattle.model.specs.Formed.{header_formed};
ghost use Rattle.model.specs.Call.{KeyCall};
ghost use Rattle.model.specs.Explain.{explanation_room, line, explain_bytes};
ghost use Rattle.key.specs.Answers.{option_of};
ghost use Rattle.node.specs.Node.{argument_of};
ghost use Rattle.node.specs.Refusal.{failed_of};
ghost use Rattle.bucket.specs.Calls.{records_of};
ghost use Rattle.on_key.specs.Answers.{room_for};
ghost use Rattle.session.specs.Hours.{hours_of};
ghost use Rattle.explanation.specs.Explanation.{told_of, reason_of};
ghost use Rattle.explain.specs.Calls.{call_of, Explains, Opened, EntryOpened, last_asked};

use bucket::{EndedPending, FailureReason};
use entry::EntryKind;
use explanation::{Reason, Told};
use key::Key;
use node::{Code, NodeFields, NodeStatus, NodeUpdate, Refusal, StatusInRange, StatusUpdate, Value};
use session::Hours;
use storage::Layout;
use well_formed::FormedTable;

// A call on a peer's key, with its arguments: value, state and direction, time. It is what slip 1 gives a host's tool (docs/API.md); the
// exports do not make one, since C has a name for each call, nor does host/, which stands on the exports.
#[derive(Clone, Copy)]
pub enum PeerCall {
    InsertOrUpdate(Value, NodeStatus, u64),
    UpdateNodeStatus(Code, Code, u64),
    UpdateNode(Value, Code, u64),
    Remove(u64),
    PresentUpdate(Code, Code),
    PendingUpdate(NodeStatus),
    AbsentInsert(Value, NodeStatus, u64),
}

// The bytes that an output has at the least.
pub const ROOM: usize = 2048;

// How an explanation starts: questions 2 to 4 and, where a time is given, 5; 6 of an output of `room` bytes; then 2 of the key's bucket.
// The key, its bucket and the call's arguments, or none for the local key, of which the call says what it tells. Not on_key's `begin`:
// question 6 is asked before 2 of the bucket.
fn begin<T: Copy>(
    s: &[u8; Layout::STORAGE],
    key: &[u8],
    arguments: Option<T>,
    time: Option<u64>,
    room: usize,
) -> Result<Option<(Key, usize, T)>, Refusal>
    ensures { Opened s.now key.now arguments (option_of time) (leb explanation_room room) result }
{
    let (k, arguments) = on_key::asked(s, key, arguments, time)?;
    if room < ROOM {
        return Err(Refusal::Output);
    }
    let Some((k, i)) = on_key::located(s, k)? else {
        return Ok(None);
    };
    Ok(Some((k, i, arguments)))
}

// The same of an action on an entry, with question 7 of the local key, which no action is for.
fn begin_entry<T: Copy>(
    s: &[u8; Layout::STORAGE],
    key: &[u8],
    arguments: Option<T>,
    time: Option<u64>,
    room: usize,
) -> Result<(Key, usize, T), Refusal>
    ensures { EntryOpened s.now key.now arguments (option_of time) (leb explanation_room room) result }
{
    begin(s, key, arguments, time, room)?.ok_or(Refusal::Kind)
}

// How an explanation ends: question 8, then 10 and 11, then the line, whose length it answers. `applied` is the record of the call, `asked`
// what 10 and 11 answered. `told` and `why` are no struct: eleven calls would make it, for two functions. That the header is well formed is
// a clause: what else asks it here is also called on storage that is written, which no struct can hold.
fn ended(
    s: &[u8; Layout::STORAGE],
    out: &mut [u8],
    applied: Option<EndedPending>,
    asked: Result<(), Refusal>,
    told: Told,
    why: Option<Reason>,
) -> Result<usize, Refusal>
    requires header { header_formed s.now ≡ true }
    requires explanation_room_in_bounds { explanation_room ≤ length out.old }
    ensures { Explains result out.new (last_asked (room_for s.now (records_of applied)) (failed_of asked) (line (record { told = told_of told; reason = reason_of why.entry })) out.old) }
{
    on_key::asked_queue(s, usize::from(applied.is_some()))?;
    asked?;
    Ok(explanation::put_line(out, told, why))
}

// remove.
pub fn explain_remove(s: &[u8], key: &[u8], time: u64, out: &mut [u8]) -> Result<usize, Refusal>
    ensures { Explains result out.new (explain_bytes key.now (KeyCall.remove time) out.old s.now) }
{
    let s = s.as_array().ok_or(Refusal::Size)?;
    let Some((k, i, ())) = begin(s, key, Some(()), Some(time), out.len())? else {
        let why = Some(Reason::LocalKey);
        return ended(s, out, None, Ok(()), Told::Removed(false), why);
    };
    let applied = on_key::apply_at(s, i, time);
    let step = applied.bucket.remove(k, time);
    let why = reasons::remove_reason(&applied.bucket, k);
    ended(
        s,
        out,
        applied.result,
        Ok(()),
        Told::Removed(step.result),
        why,
    )
}

// update_node_status; direction 2 is none given.
pub fn explain_update_node_status(
    s: &[u8],
    key: &[u8],
    state: Code,
    direction: Code,
    time: u64,
    out: &mut [u8],
) -> Result<usize, Refusal>
    ensures { Explains result out.new (explain_bytes key.now (KeyCall.update_node_status state direction time) out.old s.now) }
{
    let s = s.as_array().ok_or(Refusal::Size)?;
    let status = StatusUpdate::of(state, direction);
    let Some((k, i, status)) = begin(s, key, status, Some(time), out.len())? else {
        let why = Some(Reason::LocalKey);
        return ended(s, out, None, Ok(()), Told::NotModified, why);
    };
    let applied = on_key::apply_at(s, i, time);
    let b = applied.bucket;
    let step = b.update_status(k, status);
    let record = on_key::record_of(
        applied.result,
        b.bucket.pending,
        step.bucket.bucket.pending,
        k,
    );
    let why = reasons::status_reason(&b, k, status);
    ended(s, out, record, Ok(()), Told::from(step.result), why)
}

// update_node; state 2 is none given. The table filter is tested on the storage as it is.
pub fn explain_update_node(
    s: &[u8],
    key: &[u8],
    value: Value,
    state: Code,
    time: u64,
    out: &mut [u8],
) -> Result<usize, Refusal>
    ensures { Explains result out.new (explain_bytes key.now (KeyCall.update_node (argument_of value) state time) out.old s.now) }
{
    let s = s.as_array().ok_or(Refusal::Size)?;
    let update = NodeUpdate::of(value, state);
    let Some((k, i, update)) = begin(s, key, update, Some(time), out.len())? else {
        let why = Some(Reason::LocalKey);
        return ended(s, out, None, Ok(()), Told::NotModified, why);
    };
    let fails = table_filter::asked_filter(s, i, k, value)?;
    let applied = on_key::apply_at(s, i, time);
    let b = applied.bucket;
    let step = bucket_update::update_node_in(b, fails, k, update, time);
    let record = on_key::record_of(
        applied.result,
        b.bucket.pending,
        step.bucket.bucket.pending,
        k,
    );
    let why = if fails {
        Some(Reason::TableFilter(FormedTable { s }, k, value))
    } else {
        reasons::update_node_reason(&b, k, update)
    };
    ended(s, out, record, Ok(()), Told::from(step.result), why)
}

// insert_or_update. The table filter is tested on the storage as it is.
pub fn explain_insert_or_update(
    s: &[u8],
    key: &[u8],
    value: Value,
    status: NodeStatus,
    time: u64,
    hours: Hours,
    out: &mut [u8],
) -> Result<usize, Refusal>
    ensures { Explains result out.new (explain_bytes key.now (KeyCall.insert_or_update (argument_of value) status.state status.direction time (hours_of hours.entry)) out.old s.now) }
{
    let s = s.as_array().ok_or(Refusal::Size)?;
    let fields = NodeFields::of(value, status);
    let Some((k, i, fields)) = begin(s, key, fields, Some(time), out.len())? else {
        let told = Told::Failed(FailureReason::InvalidSelfUpdate);
        let why = Some(Reason::LocalKey);
        return ended(s, out, None, session::asked(hours, true), told, why);
    };
    let fails = table_filter::asked_filter(s, i, k, value)?;
    let applied = on_key::apply_at(s, i, time);
    let b = applied.bucket;
    let node = fields.with_key(k);
    let step = bucket_update::insert_or_update_in(b, fails, node, time);
    let record = on_key::record_of(
        applied.result,
        b.bucket.pending,
        step.bucket.bucket.pending,
        k,
    );
    let asked = admission::asked(s, i, k, hours);
    let why = if fails {
        Some(Reason::TableFilter(FormedTable { s }, k, node.node.value))
    } else {
        reasons::insert_or_update_reason(&b, node)
    };
    ended(s, out, record, asked, Told::from(step.result), why)
}

// Present: update; direction 2 is none given. An entry action applies no pending.
pub fn explain_present_update(
    s: &[u8],
    key: &[u8],
    state: Code,
    direction: Code,
    out: &mut [u8],
) -> Result<usize, Refusal>
    ensures { Explains result out.new (explain_bytes key.now (KeyCall.present_update state direction) out.old s.now) }
{
    let s = s.as_array().ok_or(Refusal::Size)?;
    let status = StatusUpdate::of(state, direction);
    let (k, i, status) = begin_entry(s, key, status, None, out.len())?;
    let stored = buckets::load_bucket(s, i);
    let EntryKind::Present(_) = entry::kind_of(&stored, k) else {
        return Err(Refusal::Kind);
    };
    let step = stored.update_status(k, status);
    let record = on_key::record_of(None, stored.bucket.pending, step.bucket.bucket.pending, k);
    let why = reasons::status_reason(&stored, k, status);
    ended(s, out, record, Ok(()), Told::from(step.result), why)
}

// Pending: update.
pub fn explain_pending_update(
    s: &[u8],
    key: &[u8],
    status: NodeStatus,
    out: &mut [u8],
) -> Result<usize, Refusal>
    ensures { Explains result out.new (explain_bytes key.now (KeyCall.pending_update status.state status.direction) out.old s.now) }
{
    let s = s.as_array().ok_or(Refusal::Size)?;
    let (k, i, _) = begin_entry(s, key, StatusInRange::of(status), None, out.len())?;
    let stored = buckets::load_bucket(s, i);
    let EntryKind::Pending(_) = entry::kind_of(&stored, k) else {
        return Err(Refusal::Kind);
    };
    ended(s, out, None, Ok(()), Told::UpdatedPending, None)
}

// Absent: insert. The table filter is skipped.
pub fn explain_absent_insert(
    s: &[u8],
    key: &[u8],
    value: Value,
    status: NodeStatus,
    time: u64,
    hours: Hours,
    out: &mut [u8],
) -> Result<usize, Refusal>
    ensures { Explains result out.new (explain_bytes key.now (KeyCall.absent_insert (argument_of value) status.state status.direction time (hours_of hours.entry)) out.old s.now) }
{
    let s = s.as_array().ok_or(Refusal::Size)?;
    let fields = NodeFields::of(value, status);
    let (k, i, fields) = begin_entry(s, key, fields, Some(time), out.len())?;
    let stored = buckets::load_bucket(s, i);
    let EntryKind::Absent = entry::kind_of(&stored, k) else {
        return Err(Refusal::Kind);
    };
    let node = fields.with_key(k);
    let step = stored.insert(node, time);
    let why = reasons::insert_reason(&stored, node.node);
    let asked = session::asked(hours, false);
    ended(s, out, None, asked, Told::from(step.result), why)
}

// The line of a call: what it would answer, and why. The hours are those of insert_or_update and of Absent's insert, and nothing to the
// others.
pub fn explain(
    s: &[u8],
    key: &[u8],
    call: PeerCall,
    hours: Hours,
    out: &mut [u8],
) -> Result<usize, Refusal>
    ensures { Explains result out.new (explain_bytes key.now (call_of call (hours_of hours.entry)) out.old s.now) }
{
    match call {
        PeerCall::InsertOrUpdate(value, status, time) => {
            explain_insert_or_update(s, key, value, status, time, hours, out)
        }
        PeerCall::UpdateNodeStatus(state, direction, time) => {
            explain_update_node_status(s, key, state, direction, time, out)
        }
        PeerCall::UpdateNode(value, state, time) => {
            explain_update_node(s, key, value, state, time, out)
        }
        PeerCall::Remove(time) => explain_remove(s, key, time, out),
        PeerCall::PresentUpdate(state, direction) => {
            explain_present_update(s, key, state, direction, out)
        }
        PeerCall::PendingUpdate(status) => explain_pending_update(s, key, status, out),
        PeerCall::AbsentInsert(value, status, time) => {
            explain_absent_insert(s, key, value, status, time, hours, out)
        }
    }
}
