// Every entry point under its C name, on numbers and lent bytes: a library. crates/kbuckets_c exports each by the same name. Here and in
// the crates below, a call's parameters stand in the order of the C interface. What is one thing there (a value, a status, the hours) is
// one below; what only stands side by side (storage and key, key and value, a time and the hours or the output) stays apart.
#![tactic(auto, using(codes::proofs::Few::few_found, codes::proofs::Few::few_read, codes::proofs::Few::few_written, codes::proofs::Few::short), unfolding(codes::specs::Exported::exported))]

ghost use Rattle.std.specs.Prelude.{◌≡◌, []};
ghost use Rattle.model.specs.Call.{Listing, Call, KeyCall};
ghost use Rattle.model.specs.Explain.{explain_bytes};
ghost use Rattle.model.specs.StepBytes.{write_bytes};
ghost use Rattle.node.specs.Node.{argument_of};
ghost use Rattle.session.specs.Hours.{session_of, hours_of};
ghost use Rattle.codes.specs.Exported.{Leaves, Writes, exported, exported_with, Tells};
ghost use Rattle.bucket_calls.specs.Calls.{BucketCall, bucket_step, bucket_new};
ghost use Rattle.kbuckets.specs.Version.{version};

use codes::answers::{count, kind_code, short_node, short_storage};
use codes::{Answer, Reply, refused, update_code};
use items::Predicate;
use node::{NodeStatus, Slot, Value};
use session::{Date, Hours, Moment};

// The value that these numbers of a call are.
fn value_of(flag: u8, a: u8, b: u8, c: u8, d: u8, slot: Slot) -> Value
    ensures { result ≡ record { flag = flag; a = a; b = b; c = c; d = d; slot = slot } }
{
    Value {
        flag,
        a,
        b,
        c,
        d,
        slot,
    }
}

// The session hours that these numbers of a call are.
fn hours_of<'a>(
    windows: &'a [u16],
    closed: &'a [u16],
    year: u16,
    month: u16,
    day: u16,
    minute: u16,
) -> Hours<'a>
    ensures { hours_of result ≡ session_of windows.now closed.now (record { date = record { year = year; month = month; day = day }; minute = minute }) }
{
    Hours {
        windows,
        closed,
        moment: Moment {
            date: Date { year, month, day },
            minute,
        },
    }
}

// 0x00MMmmpp: major, minor, patch.
pub fn kbuckets_version() -> u32
    ensures { result ≡ version }
{
    0x0000_0700
}

// The table.

pub fn kbuckets_new(
    storage: &mut [u8],
    local_key: &[u8],
    pending_timeout: u64,
    max_incoming: u8,
    table_filter: u8,
    bucket_filter: u8,
) -> u32
    ensures { Leaves result storage.new (exported (Call.new local_key.now pending_timeout max_incoming table_filter bucket_filter) storage.old) }
{
    table::new(
        storage,
        local_key,
        pending_timeout,
        max_incoming,
        table_filter,
        bucket_filter,
    )
    .map_or_else(refused, |()| 0)
}

pub fn kbuckets_update_node_status(
    storage: &mut [u8],
    key: &[u8],
    state: u8,
    direction: u8,
    time: u64,
) -> u32
    ensures { Leaves result storage.new (exported (Call.on_key key.now (KeyCall.update_node_status state direction time)) storage.old) }
{
    table::update_node_status(storage, key, state, direction, time).map_or_else(
        refused,
        update_code,
    )
}

pub fn kbuckets_update_node(
    storage: &mut [u8],
    key: &[u8],
    flag: u8,
    a: u8,
    b: u8,
    c: u8,
    d: u8,
    slot: Slot,
    state: u8,
    time: u64,
) -> u32
    ensures { Leaves result storage.new (exported (Call.on_key key.now (KeyCall.update_node (record { flag = flag; a = a; b = b; c = c; d = d; slot = slot }) state time)) storage.old) }
{
    let value = value_of(flag, a, b, c, d, slot);
    update::update_node(storage, key, value, state, time).map_or_else(refused, update_code)
}

// Of one form with kbuckets_absent_insert: C has a name for each call. What fills `answer` stands in a `match`: of what a closure writes,
// its caller's contract can say nothing.
#[tactic(auto, using(codes::proofs::Thin::too_short, codes::proofs::Thin::insert_or_update_asked))]
pub fn kbuckets_insert_or_update(
    storage: &mut [u8],
    key: &[u8],
    flag: u8,
    a: u8,
    b: u8,
    c: u8,
    d: u8,
    slot: Slot,
    state: u8,
    direction: u8,
    time: u64,
    windows: &[u16],
    closed: &[u16],
    year: u16,
    month: u16,
    day: u16,
    minute: u16,
    answer: &mut [u8],
) -> u32
    ensures { Writes result storage.new answer.new (exported_with (Call.on_key key.now (KeyCall.insert_or_update (record { flag = flag; a = a; b = b; c = c; d = d; slot = slot }) state direction time (session_of windows.now closed.now (record { date = record { year = year; month = month; day = day }; minute = minute })))) answer.old storage.old) }
{
    let value = value_of(flag, a, b, c, d, slot);
    let status = NodeStatus { state, direction };
    if answer.len() < Answer::BYTES {
        return short_node(storage, key, value, status, time);
    }
    let hours = hours_of(windows, closed, year, month, day, minute);
    match update::insert_or_update(storage, key, value, status, time, hours) {
        Ok(result) => Reply::from(result).put(answer),
        Err(refusal) => refused(refusal),
    }
}

pub fn kbuckets_remove(storage: &mut [u8], key: &[u8], time: u64) -> u32
    ensures { Leaves result storage.new (exported (Call.on_key key.now (KeyCall.remove time)) storage.old) }
{
    table::remove(storage, key, time).map_or_else(refused, u32::from)
}

pub fn kbuckets_entry(storage: &mut [u8], key: &[u8], time: u64) -> u32
    ensures { Leaves result storage.new (exported (Call.on_key key.now (KeyCall.entry time)) storage.old) }
{
    entry::entry(storage, key, time).map_or_else(refused, kind_code)
}

pub fn kbuckets_present_update(storage: &mut [u8], key: &[u8], state: u8, direction: u8) -> u32
    ensures { Leaves result storage.new (exported (Call.on_key key.now (KeyCall.present_update state direction)) storage.old) }
{
    entry::present_update(storage, key, state, direction).map_or_else(refused, update_code)
}

pub fn kbuckets_pending_update(storage: &mut [u8], key: &[u8], state: u8, direction: u8) -> u32
    ensures { Leaves result storage.new (exported (Call.on_key key.now (KeyCall.pending_update state direction)) storage.old) }
{
    let status = NodeStatus { state, direction };
    entry::pending_update(storage, key, status).map_or_else(refused, update_code)
}

// Of one form with kbuckets_insert_or_update: C has a name for each call.
#[tactic(auto, using(codes::proofs::Thin::too_short, codes::proofs::Thin::absent_insert_asked))]
pub fn kbuckets_absent_insert(
    storage: &mut [u8],
    key: &[u8],
    flag: u8,
    a: u8,
    b: u8,
    c: u8,
    d: u8,
    slot: Slot,
    state: u8,
    direction: u8,
    time: u64,
    windows: &[u16],
    closed: &[u16],
    year: u16,
    month: u16,
    day: u16,
    minute: u16,
    answer: &mut [u8],
) -> u32
    ensures { Writes result storage.new answer.new (exported_with (Call.on_key key.now (KeyCall.absent_insert (record { flag = flag; a = a; b = b; c = c; d = d; slot = slot }) state direction time (session_of windows.now closed.now (record { date = record { year = year; month = month; day = day }; minute = minute })))) answer.old storage.old) }
{
    let value = value_of(flag, a, b, c, d, slot);
    let status = NodeStatus { state, direction };
    if answer.len() < Answer::BYTES {
        return short_node(storage, key, value, status, time);
    }
    let hours = hours_of(windows, closed, year, month, day, minute);
    match entry::absent_insert(storage, key, value, status, time, hours) {
        Ok(result) => Reply::from(result).put(answer),
        Err(refusal) => refused(refusal),
    }
}

pub fn kbuckets_iter(storage: &mut [u8], n: usize, time: u64, output: &mut [u8]) -> u32
    ensures { Writes result storage.new output.new (exported (Call.list Listing.iter n time output.old) storage.old) }
{
    listing::iter(storage, n, time, output).map_or_else(refused, count)
}

pub fn kbuckets_nodes_by_distances(
    storage: &mut [u8],
    distances: &[u64],
    n: usize,
    time: u64,
    output: &mut [u8],
) -> u32
    ensures { Writes result storage.new output.new (exported (Call.list (Listing.nodes_by_distances distances.now) n time output.old) storage.old) }
{
    distances::nodes_by_distances(storage, distances, n, time, output).map_or_else(refused, count)
}

pub fn kbuckets_closest_keys(
    storage: &mut [u8],
    target: &[u8],
    n: usize,
    time: u64,
    output: &mut [u8],
) -> u32
    ensures { Writes result storage.new output.new (exported (Call.list (Listing.closest_keys target.now) n time output.old) storage.old) }
{
    listing::closest_keys(storage, target, n, time, output).map_or_else(refused, count)
}

pub fn kbuckets_closest_values(
    storage: &mut [u8],
    target: &[u8],
    n: usize,
    time: u64,
    output: &mut [u8],
) -> u32
    ensures { Writes result storage.new output.new (exported (Call.list (Listing.closest_values target.now) n time output.old) storage.old) }
{
    listing::closest_values(storage, target, n, time, output).map_or_else(refused, count)
}

pub fn kbuckets_closest_values_predicate(
    storage: &mut [u8],
    target: &[u8],
    predicate: u8,
    a: u8,
    b: u8,
    c: u8,
    slot: Slot,
    n: usize,
    time: u64,
    output: &mut [u8],
) -> u32
    ensures { Writes result storage.new output.new (exported (Call.list (Listing.closest_values_predicate target.now (record { predicate = predicate; a = a; b = b; c = c; slot = slot })) n time output.old) storage.old) }
{
    let p = Predicate {
        predicate,
        a,
        b,
        c,
        slot,
    };
    listing::closest_values_predicate(storage, target, p, n, time, output).map_or_else(
        refused, count,
    )
}

#[tactic(auto, using(codes::proofs::Thin::too_short, codes::proofs::Thin::take_asked))]
pub fn kbuckets_take_applied_pending(storage: &mut [u8], answer: &mut [u8]) -> u32
    ensures { Writes result storage.new answer.new (exported_with (Call.take_applied_pending) answer.old storage.old) }
{
    if answer.len() < Answer::BYTES {
        return short_storage(storage);
    }
    match table::take_applied_pending(storage) {
        Ok(applied) => Reply::from(applied).put(answer),
        Err(refusal) => refused(refusal),
    }
}

// Why the peer is missing: the line of a call that was not made.

pub fn kbuckets_explain_update_node_status(
    storage: &[u8],
    key: &[u8],
    state: u8,
    direction: u8,
    time: u64,
    output: &mut [u8],
) -> u32
    ensures { Tells result output.new (explain_bytes key.now (KeyCall.update_node_status state direction time) output.old storage.now) }
{
    explain::explain_update_node_status(storage, key, state, direction, time, output).map_or_else(
        refused, count,
    )
}

pub fn kbuckets_explain_update_node(
    storage: &[u8],
    key: &[u8],
    flag: u8,
    a: u8,
    b: u8,
    c: u8,
    d: u8,
    slot: Slot,
    state: u8,
    time: u64,
    output: &mut [u8],
) -> u32
    ensures { Tells result output.new (explain_bytes key.now (KeyCall.update_node (record { flag = flag; a = a; b = b; c = c; d = d; slot = slot }) state time) output.old storage.now) }
{
    let value = value_of(flag, a, b, c, d, slot);
    explain::explain_update_node(storage, key, value, state, time, output).map_or_else(
        refused, count,
    )
}

// Of one form with kbuckets_explain_absent_insert: C has a name for each call.
pub fn kbuckets_explain_insert_or_update(
    storage: &[u8],
    key: &[u8],
    flag: u8,
    a: u8,
    b: u8,
    c: u8,
    d: u8,
    slot: Slot,
    state: u8,
    direction: u8,
    time: u64,
    windows: &[u16],
    closed: &[u16],
    year: u16,
    month: u16,
    day: u16,
    minute: u16,
    output: &mut [u8],
) -> u32
    ensures { Tells result output.new (explain_bytes key.now (KeyCall.insert_or_update (record { flag = flag; a = a; b = b; c = c; d = d; slot = slot }) state direction time (session_of windows.now closed.now (record { date = record { year = year; month = month; day = day }; minute = minute }))) output.old storage.now) }
{
    let value = value_of(flag, a, b, c, d, slot);
    let status = NodeStatus { state, direction };
    let hours = hours_of(windows, closed, year, month, day, minute);
    explain::explain_insert_or_update(storage, key, value, status, time, hours, output).map_or_else(
        refused, count,
    )
}

pub fn kbuckets_explain_remove(storage: &[u8], key: &[u8], time: u64, output: &mut [u8]) -> u32
    ensures { Tells result output.new (explain_bytes key.now (KeyCall.remove time) output.old storage.now) }
{
    explain::explain_remove(storage, key, time, output).map_or_else(refused, count)
}

pub fn kbuckets_explain_present_update(
    storage: &[u8],
    key: &[u8],
    state: u8,
    direction: u8,
    output: &mut [u8],
) -> u32
    ensures { Tells result output.new (explain_bytes key.now (KeyCall.present_update state direction) output.old storage.now) }
{
    explain::explain_present_update(storage, key, state, direction, output).map_or_else(
        refused, count,
    )
}

pub fn kbuckets_explain_pending_update(
    storage: &[u8],
    key: &[u8],
    state: u8,
    direction: u8,
    output: &mut [u8],
) -> u32
    ensures { Tells result output.new (explain_bytes key.now (KeyCall.pending_update state direction) output.old storage.now) }
{
    let status = NodeStatus { state, direction };
    explain::explain_pending_update(storage, key, status, output).map_or_else(refused, count)
}

// Of one form with kbuckets_explain_insert_or_update: C has a name for each call.
pub fn kbuckets_explain_absent_insert(
    storage: &[u8],
    key: &[u8],
    flag: u8,
    a: u8,
    b: u8,
    c: u8,
    d: u8,
    slot: Slot,
    state: u8,
    direction: u8,
    time: u64,
    windows: &[u16],
    closed: &[u16],
    year: u16,
    month: u16,
    day: u16,
    minute: u16,
    output: &mut [u8],
) -> u32
    ensures { Tells result output.new (explain_bytes key.now (KeyCall.absent_insert (record { flag = flag; a = a; b = b; c = c; d = d; slot = slot }) state direction time (session_of windows.now closed.now (record { date = record { year = year; month = month; day = day }; minute = minute }))) output.old storage.now) }
{
    let value = value_of(flag, a, b, c, d, slot);
    let status = NodeStatus { state, direction };
    let hours = hours_of(windows, closed, year, month, day, minute);
    explain::explain_absent_insert(storage, key, value, status, time, hours, output).map_or_else(
        refused, count,
    )
}

// A table that survives a box swap: its held nodes as bytes, and a new table loaded with them.

pub fn kbuckets_write(storage: &[u8], output: &mut [u8]) -> u32
    ensures { Tells result output.new (write_bytes output.old storage.now) }
{
    saved::write(storage, output).map_or_else(refused, count)
}

pub fn kbuckets_read(storage: &mut [u8], bytes: &[u8]) -> u32
    ensures { Leaves result storage.new (exported (Call.read bytes.now) storage.old) }
{
    loaded::read(storage, bytes).map_or_else(refused, count)
}

// A bucket by itself.

pub fn kbuckets_b_new(bucket: &mut [u8], pending_timeout: u64, max_incoming: u8, filter: u8) -> u32
    ensures { Leaves result bucket.new (bucket_new pending_timeout max_incoming filter bucket.old) }
{
    bucket_calls::new(bucket, pending_timeout, max_incoming, filter).map_or_else(refused, |()| 0)
}

pub fn kbuckets_b_insert(
    bucket: &mut [u8],
    key: &[u8],
    flag: u8,
    a: u8,
    b: u8,
    c: u8,
    d: u8,
    slot: Slot,
    state: u8,
    direction: u8,
    time: u64,
    answer: &mut [u8],
) -> u32
    ensures { Writes result bucket.new answer.new (bucket_step (BucketCall.insert key.now (record { flag = flag; a = a; b = b; c = c; d = d; slot = slot }) state direction time) answer.old bucket.old) }
{
    let value = value_of(flag, a, b, c, d, slot);
    let status = NodeStatus { state, direction };
    bucket_calls::insert(bucket, key, value, status, time, answer).unwrap_or_else(refused)
}

pub fn kbuckets_b_apply_pending(bucket: &mut [u8], time: u64, answer: &mut [u8]) -> u32
    ensures { Writes result bucket.new answer.new (bucket_step (BucketCall.apply_pending time) answer.old bucket.old) }
{
    bucket_calls::apply_pending(bucket, time, answer).unwrap_or_else(refused)
}

pub fn kbuckets_b_update_status(bucket: &mut [u8], key: &[u8], state: u8, direction: u8) -> u32
    ensures { Leaves result bucket.new (bucket_step (BucketCall.update_status key.now state direction) [] bucket.old) }
{
    bucket_calls::update_status(bucket, key, state, direction).map_or_else(refused, update_code)
}

pub fn kbuckets_b_update_value(
    bucket: &mut [u8],
    key: &[u8],
    flag: u8,
    a: u8,
    b: u8,
    c: u8,
    d: u8,
    slot: Slot,
) -> u32
    ensures { Leaves result bucket.new (bucket_step (BucketCall.update_value key.now (record { flag = flag; a = a; b = b; c = c; d = d; slot = slot })) [] bucket.old) }
{
    let value = value_of(flag, a, b, c, d, slot);
    bucket_calls::update_value(bucket, key, value).map_or_else(refused, update_code)
}

pub fn kbuckets_b_update_pending(bucket: &mut [u8], state: u8, direction: u8) -> u32
    ensures { Leaves result bucket.new (bucket_step (BucketCall.update_pending state direction) [] bucket.old) }
{
    bucket_calls::update_pending(bucket, state, direction).map_or_else(refused, |()| 0)
}

pub fn kbuckets_b_remove(bucket: &mut [u8], key: &[u8], time: u64) -> u32
    ensures { Leaves result bucket.new (bucket_step (BucketCall.remove key.now time) [] bucket.old) }
{
    bucket_calls::remove(bucket, key, time).map_or_else(refused, u32::from)
}
