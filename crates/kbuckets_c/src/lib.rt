// The static library: every function of crates/kbuckets under its C name. include/kbuckets.h declares them. Each calls the library's
// function of its name: claims and replay use those, and no crate can use a static library.
#![tactic(auto)]

ghost use Rattle.std.specs.Prelude.{◌≡◌, []};
ghost use Rattle.model.specs.Call.{Listing, Call, KeyCall};
ghost use Rattle.model.specs.Explain.{explain_bytes};
ghost use Rattle.model.specs.StepBytes.{write_bytes};
ghost use Rattle.node.specs.Node.{argument_of};
ghost use Rattle.session.specs.Hours.{session_of};
ghost use Rattle.codes.specs.Exported.{Leaves, Writes, exported, exported_with, Tells};
ghost use Rattle.bucket_calls.specs.Calls.{BucketCall, bucket_step, bucket_new};
ghost use Rattle.kbuckets.specs.Version.{version};

use node::Slot;

// 0x00MMmmpp: major, minor, patch.
#[unsafe(no_mangle)]
pub extern "C" fn kbuckets_version() -> u32
    ensures { result ≡ version }
{
    kbuckets::kbuckets_version()
}

// The table.

#[unsafe(no_mangle)]
pub extern "C" fn kbuckets_new(
    storage: &mut [u8],
    local_key: &[u8],
    pending_timeout: u64,
    max_incoming: u8,
    table_filter: u8,
    bucket_filter: u8,
) -> u32
    ensures { Leaves result storage.new (exported (Call.new local_key.now pending_timeout max_incoming table_filter bucket_filter) storage.old) }
{
    kbuckets::kbuckets_new(
        storage,
        local_key,
        pending_timeout,
        max_incoming,
        table_filter,
        bucket_filter,
    )
}

#[unsafe(no_mangle)]
pub extern "C" fn kbuckets_update_node_status(
    storage: &mut [u8],
    key: &[u8],
    state: u8,
    direction: u8,
    time: u64,
) -> u32
    ensures { Leaves result storage.new (exported (Call.on_key key.now (KeyCall.update_node_status state direction time)) storage.old) }
{
    kbuckets::kbuckets_update_node_status(storage, key, state, direction, time)
}

#[unsafe(no_mangle)]
pub extern "C" fn kbuckets_update_node(
    storage: &mut [u8],
    key: &[u8],
    flag: u8,
    a: u8,
    b: u8,
    c: u8,
    d: u8,
    slot: Slot,
    state: u8,
    time: u64,
) -> u32
    ensures { Leaves result storage.new (exported (Call.on_key key.now (KeyCall.update_node (record { flag = flag; a = a; b = b; c = c; d = d; slot = slot }) state time)) storage.old) }
{
    kbuckets::kbuckets_update_node(storage, key, flag, a, b, c, d, slot, state, time)
}

// Of one form with kbuckets_absent_insert: C has a name for each call.
#[unsafe(no_mangle)]
pub extern "C" fn kbuckets_insert_or_update(
    storage: &mut [u8],
    key: &[u8],
    flag: u8,
    a: u8,
    b: u8,
    c: u8,
    d: u8,
    slot: Slot,
    state: u8,
    direction: u8,
    time: u64,
    windows: &[u16],
    closed: &[u16],
    year: u16,
    month: u16,
    day: u16,
    minute: u16,
    answer: &mut [u8],
) -> u32
    ensures { Writes result storage.new answer.new (exported_with (Call.on_key key.now (KeyCall.insert_or_update (record { flag = flag; a = a; b = b; c = c; d = d; slot = slot }) state direction time (session_of windows.now closed.now (record { date = record { year = year; month = month; day = day }; minute = minute })))) answer.old storage.old) }
{
    kbuckets::kbuckets_insert_or_update(
        storage, key, flag, a, b, c, d, slot, state, direction, time, windows, closed, year, month,
        day, minute, answer,
    )
}

#[unsafe(no_mangle)]
pub extern "C" fn kbuckets_remove(storage: &mut [u8], key: &[u8], time: u64) -> u32
    ensures { Leaves result storage.new (exported (Call.on_key key.now (KeyCall.remove time)) storage.old) }
{
    kbuckets::kbuckets_remove(storage, key, time)
}

#[unsafe(no_mangle)]
pub extern "C" fn kbuckets_entry(storage: &mut [u8], key: &[u8], time: u64) -> u32
    ensures { Leaves result storage.new (exported (Call.on_key key.now (KeyCall.entry time)) storage.old) }
{
    kbuckets::kbuckets_entry(storage, key, time)
}

#[unsafe(no_mangle)]
pub extern "C" fn kbuckets_present_update(
    storage: &mut [u8],
    key: &[u8],
    state: u8,
    direction: u8,
) -> u32
    ensures { Leaves result storage.new (exported (Call.on_key key.now (KeyCall.present_update state direction)) storage.old) }
{
    kbuckets::kbuckets_present_update(storage, key, state, direction)
}

#[unsafe(no_mangle)]
pub extern "C" fn kbuckets_pending_update(
    storage: &mut [u8],
    key: &[u8],
    state: u8,
    direction: u8,
) -> u32
    ensures { Leaves result storage.new (exported (Call.on_key key.now (KeyCall.pending_update state direction)) storage.old) }
{
    kbuckets::kbuckets_pending_update(storage, key, state, direction)
}

// Of one form with kbuckets_insert_or_update: C has a name for each call.
#[unsafe(no_mangle)]
pub extern "C" fn kbuckets_absent_insert(
    storage: &mut [u8],
    key: &[u8],
    flag: u8,
    a: u8,
    b: u8,
    c: u8,
    d: u8,
    slot: Slot,
    state: u8,
    direction: u8,
    time: u64,
    windows: &[u16],
    closed: &[u16],
    year: u16,
    month: u16,
    day: u16,
    minute: u16,
    answer: &mut [u8],
) -> u32
    ensures { Writes result storage.new answer.new (exported_with (Call.on_key key.now (KeyCall.absent_insert (record { flag = flag; a = a; b = b; c = c; d = d; slot = slot }) state direction time (session_of windows.now closed.now (record { date = record { year = year; month = month; day = day }; minute = minute })))) answer.old storage.old) }
{
    kbuckets::kbuckets_absent_insert(
        storage, key, flag, a, b, c, d, slot, state, direction, time, windows, closed, year, month,
        day, minute, answer,
    )
}

#[unsafe(no_mangle)]
pub extern "C" fn kbuckets_iter(storage: &mut [u8], n: usize, time: u64, output: &mut [u8]) -> u32
    ensures { Writes result storage.new output.new (exported (Call.list Listing.iter n time output.old) storage.old) }
{
    kbuckets::kbuckets_iter(storage, n, time, output)
}

#[unsafe(no_mangle)]
pub extern "C" fn kbuckets_nodes_by_distances(
    storage: &mut [u8],
    distances: &[u64],
    n: usize,
    time: u64,
    output: &mut [u8],
) -> u32
    ensures { Writes result storage.new output.new (exported (Call.list (Listing.nodes_by_distances distances.now) n time output.old) storage.old) }
{
    kbuckets::kbuckets_nodes_by_distances(storage, distances, n, time, output)
}

#[unsafe(no_mangle)]
pub extern "C" fn kbuckets_closest_keys(
    storage: &mut [u8],
    target: &[u8],
    n: usize,
    time: u64,
    output: &mut [u8],
) -> u32
    ensures { Writes result storage.new output.new (exported (Call.list (Listing.closest_keys target.now) n time output.old) storage.old) }
{
    kbuckets::kbuckets_closest_keys(storage, target, n, time, output)
}

#[unsafe(no_mangle)]
pub extern "C" fn kbuckets_closest_values(
    storage: &mut [u8],
    target: &[u8],
    n: usize,
    time: u64,
    output: &mut [u8],
) -> u32
    ensures { Writes result storage.new output.new (exported (Call.list (Listing.closest_values target.now) n time output.old) storage.old) }
{
    kbuckets::kbuckets_closest_values(storage, target, n, time, output)
}

#[unsafe(no_mangle)]
pub extern "C" fn kbuckets_closest_values_predicate(
    storage: &mut [u8],
    target: &[u8],
    predicate: u8,
    a: u8,
    b: u8,
    c: u8,
    slot: Slot,
    n: usize,
    time: u64,
    output: &mut [u8],
) -> u32
    ensures { Writes result storage.new output.new (exported (Call.list (Listing.closest_values_predicate target.now (record { predicate = predicate; a = a; b = b; c = c; slot = slot })) n time output.old) storage.old) }
{
    kbuckets::kbuckets_closest_values_predicate(
        storage, target, predicate, a, b, c, slot, n, time, output,
    )
}

#[unsafe(no_mangle)]
pub extern "C" fn kbuckets_take_applied_pending(storage: &mut [u8], answer: &mut [u8]) -> u32
    ensures { Writes result storage.new answer.new (exported_with (Call.take_applied_pending) answer.old storage.old) }
{
    kbuckets::kbuckets_take_applied_pending(storage, answer)
}

// Why the peer is missing: the line of a call that was not made.

#[unsafe(no_mangle)]
pub extern "C" fn kbuckets_explain_update_node_status(
    storage: &[u8],
    key: &[u8],
    state: u8,
    direction: u8,
    time: u64,
    output: &mut [u8],
) -> u32
    ensures { Tells result output.new (explain_bytes key.now (KeyCall.update_node_status state direction time) output.old storage.now) }
{
    kbuckets::kbuckets_explain_update_node_status(storage, key, state, direction, time, output)
}

#[unsafe(no_mangle)]
pub extern "C" fn kbuckets_explain_update_node(
    storage: &[u8],
    key: &[u8],
    flag: u8,
    a: u8,
    b: u8,
    c: u8,
    d: u8,
    slot: Slot,
    state: u8,
    time: u64,
    output: &mut [u8],
) -> u32
    ensures { Tells result output.new (explain_bytes key.now (KeyCall.update_node (record { flag = flag; a = a; b = b; c = c; d = d; slot = slot }) state time) output.old storage.now) }
{
    kbuckets::kbuckets_explain_update_node(
        storage, key, flag, a, b, c, d, slot, state, time, output,
    )
}

// Of one form with kbuckets_explain_absent_insert: C has a name for each call.
#[unsafe(no_mangle)]
pub extern "C" fn kbuckets_explain_insert_or_update(
    storage: &[u8],
    key: &[u8],
    flag: u8,
    a: u8,
    b: u8,
    c: u8,
    d: u8,
    slot: Slot,
    state: u8,
    direction: u8,
    time: u64,
    windows: &[u16],
    closed: &[u16],
    year: u16,
    month: u16,
    day: u16,
    minute: u16,
    output: &mut [u8],
) -> u32
    ensures { Tells result output.new (explain_bytes key.now (KeyCall.insert_or_update (record { flag = flag; a = a; b = b; c = c; d = d; slot = slot }) state direction time (session_of windows.now closed.now (record { date = record { year = year; month = month; day = day }; minute = minute }))) output.old storage.now) }
{
    kbuckets::kbuckets_explain_insert_or_update(
        storage, key, flag, a, b, c, d, slot, state, direction, time, windows, closed, year, month,
        day, minute, output,
    )
}

#[unsafe(no_mangle)]
pub extern "C" fn kbuckets_explain_remove(
    storage: &[u8],
    key: &[u8],
    time: u64,
    output: &mut [u8],
) -> u32
    ensures { Tells result output.new (explain_bytes key.now (KeyCall.remove time) output.old storage.now) }
{
    kbuckets::kbuckets_explain_remove(storage, key, time, output)
}

#[unsafe(no_mangle)]
pub extern "C" fn kbuckets_explain_present_update(
    storage: &[u8],
    key: &[u8],
    state: u8,
    direction: u8,
    output: &mut [u8],
) -> u32
    ensures { Tells result output.new (explain_bytes key.now (KeyCall.present_update state direction) output.old storage.now) }
{
    kbuckets::kbuckets_explain_present_update(storage, key, state, direction, output)
}

#[unsafe(no_mangle)]
pub extern "C" fn kbuckets_explain_pending_update(
    storage: &[u8],
    key: &[u8],
    state: u8,
    direction: u8,
    output: &mut [u8],
) -> u32
    ensures { Tells result output.new (explain_bytes key.now (KeyCall.pending_update state direction) output.old storage.now) }
{
    kbuckets::kbuckets_explain_pending_update(storage, key, state, direction, output)
}

// Of one form with kbuckets_explain_insert_or_update: C has a name for each call.
#[unsafe(no_mangle)]
pub extern "C" fn kbuckets_explain_absent_insert(
    storage: &[u8],
    key: &[u8],
    flag: u8,
    a: u8,
    b: u8,
    c: u8,
    d: u8,
    slot: Slot,
    state: u8,
    direction: u8,
    time: u64,
    windows: &[u16],
    closed: &[u16],
    year: u16,
    month: u16,
    day: u16,
    minute: u16,
    output: &mut [u8],
) -> u32
    ensures { Tells result output.new (explain_bytes key.now (KeyCall.absent_insert (record { flag = flag; a = a; b = b; c = c; d = d; slot = slot }) state direction time (session_of windows.now closed.now (record { date = record { year = year; month = month; day = day }; minute = minute }))) output.old storage.now) }
{
    kbuckets::kbuckets_explain_absent_insert(
        storage, key, flag, a, b, c, d, slot, state, direction, time, windows, closed, year, month,
        day, minute, output,
    )
}

// A table that survives a box swap: its held nodes as bytes, and a new table loaded with them.

#[unsafe(no_mangle)]
pub extern "C" fn kbuckets_write(storage: &[u8], output: &mut [u8]) -> u32
    ensures { Tells result output.new (write_bytes output.old storage.now) }
{
    kbuckets::kbuckets_write(storage, output)
}

#[unsafe(no_mangle)]
pub extern "C" fn kbuckets_read(storage: &mut [u8], bytes: &[u8]) -> u32
    ensures { Leaves result storage.new (exported (Call.read bytes.now) storage.old) }
{
    kbuckets::kbuckets_read(storage, bytes)
}

// A bucket by itself.

#[unsafe(no_mangle)]
pub extern "C" fn kbuckets_b_new(
    bucket: &mut [u8],
    pending_timeout: u64,
    max_incoming: u8,
    filter: u8,
) -> u32
    ensures { Leaves result bucket.new (bucket_new pending_timeout max_incoming filter bucket.old) }
{
    kbuckets::kbuckets_b_new(bucket, pending_timeout, max_incoming, filter)
}

#[unsafe(no_mangle)]
pub extern "C" fn kbuckets_b_insert(
    bucket: &mut [u8],
    key: &[u8],
    flag: u8,
    a: u8,
    b: u8,
    c: u8,
    d: u8,
    slot: Slot,
    state: u8,
    direction: u8,
    time: u64,
    answer: &mut [u8],
) -> u32
    ensures { Writes result bucket.new answer.new (bucket_step (BucketCall.insert key.now (record { flag = flag; a = a; b = b; c = c; d = d; slot = slot }) state direction time) answer.old bucket.old) }
{
    kbuckets::kbuckets_b_insert(
        bucket, key, flag, a, b, c, d, slot, state, direction, time, answer,
    )
}

#[unsafe(no_mangle)]
pub extern "C" fn kbuckets_b_apply_pending(bucket: &mut [u8], time: u64, answer: &mut [u8]) -> u32
    ensures { Writes result bucket.new answer.new (bucket_step (BucketCall.apply_pending time) answer.old bucket.old) }
{
    kbuckets::kbuckets_b_apply_pending(bucket, time, answer)
}

#[unsafe(no_mangle)]
pub extern "C" fn kbuckets_b_update_status(
    bucket: &mut [u8],
    key: &[u8],
    state: u8,
    direction: u8,
) -> u32
    ensures { Leaves result bucket.new (bucket_step (BucketCall.update_status key.now state direction) [] bucket.old) }
{
    kbuckets::kbuckets_b_update_status(bucket, key, state, direction)
}

#[unsafe(no_mangle)]
pub extern "C" fn kbuckets_b_update_value(
    bucket: &mut [u8],
    key: &[u8],
    flag: u8,
    a: u8,
    b: u8,
    c: u8,
    d: u8,
    slot: Slot,
) -> u32
    ensures { Leaves result bucket.new (bucket_step (BucketCall.update_value key.now (record { flag = flag; a = a; b = b; c = c; d = d; slot = slot })) [] bucket.old) }
{
    kbuckets::kbuckets_b_update_value(bucket, key, flag, a, b, c, d, slot)
}

#[unsafe(no_mangle)]
pub extern "C" fn kbuckets_b_update_pending(bucket: &mut [u8], state: u8, direction: u8) -> u32
    ensures { Leaves result bucket.new (bucket_step (BucketCall.update_pending state direction) [] bucket.old) }
{
    kbuckets::kbuckets_b_update_pending(bucket, state, direction)
}

#[unsafe(no_mangle)]
pub extern "C" fn kbuckets_b_remove(bucket: &mut [u8], key: &[u8], time: u64) -> u32
    ensures { Leaves result bucket.new (bucket_step (BucketCall.remove key.now time) [] bucket.old) }
{
    kbuckets::kbuckets_b_remove(bucket, key, time)
}
