// Internal: the front of the lent storage: the settings, and the queue of 64 records, oldest first.
// That it passes question 2 is a clause and no type: the functions that ask it write the storage.
#![tactic(auto, unfolding(model::specs::Layout::table_of, model::specs::Layout::settings_in, model::specs::Bytes::part))]

ghost use Rattle.std.specs.Prelude.{◌≡◌, Some, true, [], ◌∷◌, ◌++◌, ◌+◌, ◌≤◌, ◌<◌, leb, length, take, drop};
ghost use Rattle.model.specs.Base.{joined};
ghost use Rattle.model.specs.Bytes.{splice};
ghost use Rattle.model.specs.Bucket.{max_nodes_per_bucket};
ghost use Rattle.model.specs.Table.{empty_table, max_records};
ghost use Rattle.model.specs.Sizes.{record_size};
ghost use Rattle.model.specs.Layout.{record_bytes, bytes_of, ending_of, record_in, table_of};
ghost use Rattle.model.specs.Formed.{record_formed, header_formed};
ghost use Rattle.model.specs.Step as step;
ghost use Rattle.key.specs.Key.{num};
ghost use Rattle.bucket.specs.Ending as code;
ghost use Rattle.bucket.specs.Calls.{records_of};
ghost use Rattle.bucket.specs.Settings.{settings_of};
ghost use Rattle.header.specs.Queue.{requeued};

use bucket::{EndedPending, Ending, Settings};
use key::Key;
use node::{Code, NodeInRange};
use storage::Layout;

// Internal: the table's own key.
pub fn local_key(s: &[u8; Layout::STORAGE]) -> Key
    ensures { num result ≡ (table_of s.now).settings.local_key }
{
    Key::load(&s[0..Layout::KEY])
}

// Internal: how long a new pending waits, in milliseconds.
pub fn pending_timeout(s: &[u8; Layout::STORAGE]) -> u64
    ensures { result ≡ (table_of s.now).settings.bucket.pending_timeout }
{
    words::get_u64(&s[Layout::TIMEOUT_AT..Layout::TIMEOUT_AT + Layout::TIME])
}

// Internal: the settings of all buckets.
pub fn settings(s: &[u8; Layout::STORAGE]) -> Settings
    ensures settings { settings_of result ≡ (table_of s.now).settings.bucket }
    ensures in_range { header_formed s.now ≡ true → (result.max_incoming ≤ max_nodes_per_bucket) × (result.filter ≤ 1) }
{
    Settings {
        pending_timeout: pending_timeout(s),
        max_incoming: usize::from(s[Layout::MAX_INCOMING_AT]),
        filter: s[Layout::BUCKET_FILTER_AT],
    }
}

// Internal: how many records the queue holds.
pub fn record_count(s: &[u8; Layout::STORAGE]) -> usize
    ensures { result ≡ length (table_of s.now).queue }
{
    usize::from(s[Layout::RECORD_COUNT_AT])
}

// Internal: the bytes become the record of an ended pending, if there is one.
pub fn store_record(s: &mut [u8], ended: Option<EndedPending>)
    requires { length s.old ≡ record_size }
    ensures { s.new ≡ splice s.old 0 (joined record_bytes (records_of ended)) }
{
    let Some(it) = ended else {
        return;
    };
    it.key.store(&mut s[0..Layout::KEY]);
    s[Layout::KEY] = it.ending.kind();
    let evicted = &mut s[Layout::KEY + 1..Layout::RECORD];
    match it.ending {
        Ending::Placed(Some(node)) => storage::store_node(evicted, NodeInRange { node }),
        _ => words::put_zeros(evicted),
    }
}

// Internal: the record of an ended pending, if there is one, behind the others.
pub fn push_record(s: &mut [u8; Layout::STORAGE], ended: Option<EndedPending>)
    requires s_value { header_formed s.old ≡ true }
    requires ended_len_bound { length (table_of s.old).queue + length (records_of ended) ≤ max_records }
    ensures { s.new ≡ requeued ((table_of s.old).queue ++ records_of ended) s.old }
{
    let Some(ended) = ended else {
        return;
    };
    let count = record_count(s);
    let at = Layout::RECORDS_AT + count * Layout::RECORD;
    store_record(&mut s[at..at + Layout::RECORD], Some(ended));
    s[Layout::RECORD_COUNT_AT] = (count + 1) as u8;
}

// The ending of a kind. No `From<u8>`: the kind of a record with an evicted node is not among them, since the ending names that node.
fn ending_of(kind: u8) -> Ending
    ensures { code.ending_of result ≡ ending_of kind }
{
    match kind {
        2 => Ending::FirstConnected,
        3 => Ending::BucketFilter,
        4 => Ending::TooManyIncoming,
        5 => Ending::Inserted,
        6 => Ending::FirstConfirmed,
        _ => Ending::Placed(None),
    }
}

// The record of these bytes.
fn load_record(bytes: &[u8; Layout::RECORD]) -> EndedPending
    requires { record_formed bytes.now ≡ true }
    ensures { records_of (Some result) ≡ record_in bytes.now ∷ [] }
{
    let kind = bytes[Layout::KEY];
    let ending = if kind == Layout::EVICTING_KIND {
        Ending::Placed(Some(storage::load_node(storage::evicted(bytes))))
    } else {
        ending_of(kind)
    };
    EndedPending {
        key: Key::load(&bytes[0..Layout::KEY]),
        ending,
    }
}

// The queue without its oldest record: the others move down, and the place that they leave is zero.
fn drop_record(s: &mut [u8; Layout::STORAGE], n: usize)
    requires s_value { header_formed s.old ≡ true }
    requires n_value { n + 1 ≡ length (table_of s.old).queue }
    requires n_lt_max_records { n < max_records }
    ensures { s.new ≡ requeued (drop 1 (table_of s.old).queue) s.old }
{
    let last = Layout::RECORDS_AT + n * Layout::RECORD;
    words::shift_down(
        &mut s[Layout::RECORDS_AT..last + Layout::RECORD],
        Layout::RECORD,
    );
    words::put_zeros(&mut s[last..last + Layout::RECORD]);
    s[Layout::RECORD_COUNT_AT] = n as u8;
}

// Internal: the oldest record, taken out of the queue; none where the queue is empty.
pub fn take_record(s: &mut [u8; Layout::STORAGE]) -> Option<EndedPending>
    requires { header_formed s.old ≡ true }
    ensures result_value { records_of result ≡ take 1 (table_of s.old).queue }
    ensures s_after { s.new ≡ requeued (drop 1 (table_of s.old).queue) s.old }
{
    let n = record_count(s);
    if n == 0 {
        return None;
    }
    let oldest = load_record(storage::record(s, 0));
    drop_record(s, n - 1);
    Some(oldest)
}

// Internal: the storage of a new table, whatever it held before. The settings one by one: a `Settings` has the maximum as a usize, which
// its one caller would widen and this cut back.
pub fn clear(
    s: &mut [u8; Layout::STORAGE],
    local: Key,
    pending_timeout: u64,
    max_incoming: u8,
    table_filter: Code,
    bucket_filter: Code,
)
    requires table_filter_value { leb table_filter 1 ≡ true }
    requires bucket_filter_value { leb bucket_filter 1 ≡ true }
    ensures { s.new ≡ bytes_of (empty_table (step.settings_of (num local) pending_timeout max_incoming table_filter bucket_filter)) }
{
    words::put_zeros(s);
    local.store(&mut s[0..Layout::KEY]);
    words::put_u64(
        &mut s[Layout::TIMEOUT_AT..Layout::TIMEOUT_AT + Layout::TIME],
        pending_timeout,
    );
    s[Layout::MAX_INCOMING_AT] = max_incoming;
    s[Layout::TABLE_FILTER_AT] = table_filter;
    s[Layout::BUCKET_FILTER_AT] = bucket_filter;
}
