// Internal: what the table's calls on one key share. The questions, the key's bucket, and the bucket and its record written back.
// That bucket i of the storage is ready is a clause and no type: nearly half of the functions that ask it write the storage, and for the
// others, but for explain and the survey, a struct that lends it would be made anew for one call each (visit, head).
#![tactic(auto, unfolding(crate::specs::Answers::failed_of_two, crate::specs::Answers::failed_of_table, crate::specs::Answers::failed_of_three, crate::specs::Answers::failed_of_five))]

ghost use Rattle.std.specs.Prelude.{◌≡◌, Some, true, cond, ◌+◌, leb, length, IfOk};
ghost use Rattle.std.specs.Option.{is_some};
ghost use Rattle.std.proofs.Math.Option.{none, some};
ghost use Rattle.model.specs.Bytes.{number};
ghost use Rattle.model.specs.Table.{index_in, max_records};
ghost use Rattle.model.specs.Layout.{bucket_in, table_of};
ghost use Rattle.model.specs.Formed.{header_formed};
ghost use Rattle.key.specs.Key.{num};
ghost use Rattle.key.specs.Answers.{option_of};
ghost use Rattle.node.specs.Refusal.{failed_of};
ghost use Rattle.bucket.specs.Bucket.{bucket_of};
ghost use Rattle.bucket.specs.Calls.{records_of};
ghost use Rattle.on_key.specs.Answers.{failed_of_two, failed_of_table, failed_of_three, failed_of_five, Ready, is_due, AppliedAt, recorded, room_for, rewritten, Finished};
ghost use Rattle.on_key.specs.Start.{Located, Begun};

use bucket::{EndedPending, Ending, PendingNode, SoundBucket, Step};
use key::Key;
use node::Refusal;
use storage::Layout;

// Internal: questions 1 and 2, 2 of the settings and the queue (document 02, slip 7). Of an entry point's storage question 1 has passed
// by its type; here and in the five that follow it is asked of bytes of any length. Not one function with `asked_table`: it would take
// the test.
pub fn asked_storage(s: &[u8]) -> Result<(), Refusal>
    ensures { failed_of result ≡ failed_of_two s.now }
{
    if s.len() != Layout::STORAGE {
        return Err(Refusal::Size);
    }
    if !well_formed::header_formed(s) {
        return Err(Refusal::Form);
    }
    Ok(())
}

// Internal: the same of the whole table.
pub fn asked_table(s: &[u8]) -> Result<(), Refusal>
    ensures { failed_of result ≡ failed_of_table s.now }
{
    let s = s.as_array().ok_or(Refusal::Size)?;
    if !well_formed::formed(s) {
        return Err(Refusal::Form);
    }
    Ok(())
}

// Internal: questions 1, 2 and 5, where no key is given.
pub fn asked_time(s: &[u8], time: u64) -> Result<(), Refusal>
    ensures { failed_of result ≡ failed_of_three time s.now }
{
    let s = s.as_array().ok_or(Refusal::Size)?;
    asked_storage(s)?;
    bucket::asked_time(header::pending_timeout(s), Some(time))
}

// Internal: questions 1 to 4 and, where a time is given, 5; then the key and the call's arguments. They are none where they fail question
// 4, which is the test of their type, and `Some(())` where a call has none to ask it of.
pub fn asked<T: Copy>(
    s: &[u8],
    key: &[u8],
    arguments: Option<T>,
    time: Option<u64>,
) -> Result<(Key, T), Refusal>
    ensures failed { failed_of result ≡ failed_of_five key.now (is_some arguments) (option_of time) s.now }
    ensures given { IfOk result (λ r. (num r.0 ≡ number key.now) × (arguments ≡ Some r.1)) }
{
    let s = s.as_array().ok_or(Refusal::Size)?;
    asked_storage(s)?;
    let key = Key::from_bytes(key.as_array().ok_or(Refusal::Key)?);
    let arguments = arguments.ok_or(Refusal::Code)?;
    bucket::asked_time(header::pending_timeout(s), time)?;
    Ok((key, arguments))
}

// Internal: the index of the key's bucket; none for the local key.
pub fn index_of(s: &[u8; Layout::STORAGE], key: Key) -> Option<usize>
    ensures { option_of result ≡ index_in (table_of s.now) (num key) }
{
    header::local_key(s).bucket_index(key)
}

// Internal: the bucket has a pending that is due.
#[tactic(auto, unfolding(model::specs::Layout::bucket_in, model::specs::Bytes::part))]
pub fn is_due(bucket: &[u8; Layout::BUCKET], time: u64) -> bool
    ensures { result ≡ is_due time (bucket_in bucket.now).pending }
{
    bucket[Layout::PENDING_AT] == 1
        && words::get_u64(&bucket[Layout::DEADLINE_AT..Layout::BUCKET]) <= time
}

// Internal: bucket i, after its pending was applied if it is due. `apply_pending` asks that too, of a bucket that it copies: without the
// test before it, an `entry` of a bucket whose pending is not due takes 3,530 instructions in place of 3,260.
pub fn apply_at(
    s: &[u8; Layout::STORAGE],
    i: usize,
    time: u64,
) -> Step<SoundBucket, Option<EndedPending>>
    requires { Ready s.now i }
    ensures { AppliedAt s.now i time result.bucket.bucket result.result }
{
    let bucket = buckets::load_bucket(s, i);
    if is_due(storage::bucket(s, i), time) {
        return bucket.apply_pending(time);
    }
    Step {
        bucket,
        result: None,
    }
}

// Internal: the record of a call on this key: that of the pending which was applied, or else of the one that the call's own step ended.
// `before` is the bucket's pending as the step found it, `after` as it left it.
pub fn record_of(
    applied: Option<EndedPending>,
    before: Option<PendingNode>,
    after: Option<PendingNode>,
    key: Key,
) -> Option<EndedPending>
    ensures { records_of result ≡ recorded applied before after (num key) }
{
    match (applied, before, after) {
        (Some(_), ..) => applied,
        (None, Some(pending), None) => {
            let own = pending.node.key;
            let ending = if own.eq(key) {
                Ending::Inserted
            } else {
                Ending::FirstConfirmed
            };
            Some(EndedPending { key: own, ending })
        }
        _ => None,
    }
}

// Internal: question 8 of a call that gives so many records.
pub fn asked_queue(s: &[u8; Layout::STORAGE], records: usize) -> Result<(), Refusal>
    requires { header_formed s.now ≡ true }
    ensures { failed_of result ≡ cond (leb (length (table_of s.now).queue + records) max_records) none (some 8) }
{
    if Layout::MAX_RECORDS - header::record_count(s) < records {
        return Err(Refusal::Queue);
    }
    Ok(())
}

// Internal: adds the record to the queue and stores bucket i. The two are handed on one by one: mostly they come from different steps.
pub fn write_back(
    s: &mut [u8; Layout::STORAGE],
    i: usize,
    applied: Option<EndedPending>,
    b: &SoundBucket,
)
    requires ready { Ready s.old i }
    requires room { room_for s.old (records_of applied) ≡ true }
    ensures { s.new ≡ rewritten s.old i (bucket_of b.now.bucket) (records_of applied) }
{
    header::push_record(s, applied);
    buckets::store_bucket(s, i, b);
}

// Internal: the key with its bucket, of which question 2 is asked; none for the local key.
pub fn located(s: &[u8; Layout::STORAGE], key: Key) -> Result<Option<(Key, usize)>, Refusal>
    requires { header_formed s.now ≡ true }
    ensures { Located s.now (num key) result }
{
    let Some(i) = index_of(s, key) else {
        return Ok(None);
    };
    if !well_formed::bucket_formed_at(s, i) {
        return Err(Refusal::Form);
    }
    Ok(Some((key, i)))
}

// Internal: how a call on one key starts: questions 1 to 4 and, where a time is given, 5; then 2 of the key's bucket. The key, its bucket
// and the call's arguments, or none for the local key.
pub fn begin<T: Copy>(
    s: &[u8],
    key: &[u8],
    arguments: Option<T>,
    time: Option<u64>,
) -> Result<Option<(Key, usize, T)>, Refusal>
    ensures { Begun s.now key.now arguments (option_of time) result }
{
    let s = s.as_array().ok_or(Refusal::Size)?;
    let (key, arguments) = asked(s, key, arguments, time)?;
    let Some((key, i)) = located(s, key)? else {
        return Ok(None);
    };
    Ok(Some((key, i, arguments)))
}

// Internal: question 8; where it passes, the record goes into the queue and bucket i is stored.
pub fn finish(
    s: &mut [u8; Layout::STORAGE],
    i: usize,
    applied: Option<EndedPending>,
    b: &SoundBucket,
) -> Result<(), Refusal>
    requires { Ready s.old i }
    ensures { Finished result s.new s.old i (bucket_of b.now.bucket) (records_of applied) }
{
    asked_queue(s, usize::from(applied.is_some()))?;
    write_back(s, i, applied, b);
    Ok(())
}

// Internal: how a call ends whose own step may end a pending, after one that was due was applied: `finish` with the call's record. `before`
// is the bucket's pending as that step found it, `left` is the bucket as it left it.
pub fn end(
    s: &mut [u8; Layout::STORAGE],
    i: usize,
    applied: Option<EndedPending>,
    before: Option<PendingNode>,
    left: &SoundBucket,
    key: Key,
) -> Result<(), Refusal>
    requires { Ready s.old i }
    ensures { Finished result s.new s.old i (bucket_of left.now.bucket) (recorded applied before left.now.bucket.pending (num key)) }
{
    finish(
        s,
        i,
        record_of(applied, before, left.bucket.pending, key),
        left,
    )
}
