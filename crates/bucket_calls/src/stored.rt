// Internal: a bucket by itself, lent as bytes: its questions, and the bucket by value.
ghost use Rattle.std.specs.Prelude.{◌≡◌, Some, IfOk, IfSome, true};
ghost use Rattle.std.specs.Option.{is_some};
ghost use Rattle.model.specs.Bytes.{number, part, splice};
ghost use Rattle.model.specs.Sizes.{bucket_size};
ghost use Rattle.model.specs.Layout.{bucket_bytes};
ghost use Rattle.key.specs.Key.{num};
ghost use Rattle.key.specs.Answers.{option_of};
ghost use Rattle.node.specs.Refusal.{failed_of};
ghost use Rattle.bucket.specs.Bucket.{bucket_of, Becomes};
ghost use Rattle.bucket_calls.specs.Calls.{key_fits};
ghost use Rattle.bucket_calls.specs.Lent.{read_settings, lent_settings, lent_bucket, lent_formed, failed_of_lent, Passed};

use bucket::{KBucket, Settings, SoundBucket};
use key::Key;
use node::Refusal;
use storage::Layout;

// Where the settings stand, behind the bucket.
#[derive(Clone, Copy)]
pub struct Lent {}

impl Lent {
    pub const TIMEOUT_AT: usize = Layout::BUCKET;

    pub const MAX_INCOMING_AT: usize = Lent::TIMEOUT_AT + Layout::TIME;

    pub const FILTER_AT: usize = Lent::MAX_INCOMING_AT + 1;
}

// The bytes of the bucket.
#[tactic(auto, unfolding(model::specs::Bytes::part))]
fn bucket_bytes(s: &[u8; KBucket::BYTES]) -> &[u8; Layout::BUCKET]
    ensures { result.now ≡ part s.now 0 bucket_size }
{
    s[0..Layout::BUCKET].as_array().unwrap()
}

// The settings behind the bucket.
#[tactic(auto, unfolding(model::specs::Bytes::part))]
fn settings(s: &[u8; KBucket::BYTES]) -> Settings
    ensures { result ≡ read_settings s.now }
{
    Settings {
        pending_timeout: words::get_u64(&s[Lent::TIMEOUT_AT..Lent::MAX_INCOMING_AT]),
        max_incoming: usize::from(s[Lent::MAX_INCOMING_AT]),
        filter: s[Lent::FILTER_AT],
    }
}

// Question 2, all but the index.
#[tactic(auto, unfolding(crate::specs::Lent::lent_formed))]
fn lent_formed(s: &[u8; KBucket::BYTES]) -> bool
    ensures { result ≡ lent_formed s.now }
{
    let settings = settings(s);
    let codes = (settings.max_incoming <= model::MAX_NODES_PER_BUCKET) & (settings.filter <= 1);
    well_formed::bucket_formed(bucket_bytes(s), None, settings.max_incoming) & codes
}

// Internal: the key, if question 3 passes.
pub fn key_of(key: &[u8]) -> Option<Key>
    ensures passes { is_some result ≡ key_fits key.now }
    ensures value { IfSome result (λ k. num k ≡ number key.now) }
{
    Some(Key::from_bytes(key.as_array()?))
}

// Internal: questions 1 to 4 and, where a time is given, 5. Of a call's bucket question 1 has passed by its type; here it is asked of bytes
// of any length. `key` is none where 3 fails, and `arguments` where 4 does: both are asked after 2. What a call does not have is
// `Some(())`. Not on_key's `asked`: question 2 is of other bytes, and some calls have no key.
#[tactic(auto, unfolding(crate::specs::Lent::lent_settings))]
pub fn asked<K: Copy, T: Copy>(
    s: &[u8],
    key: Option<K>,
    arguments: Option<T>,
    time: Option<u64>,
) -> Result<(K, T), Refusal>
    ensures value { failed_of result ≡ failed_of_lent s.now (is_some key) (is_some arguments) (option_of time) }
    ensures passed { IfOk result (λ x. (key ≡ Some x.0) × (arguments ≡ Some x.1) × Passed s.now (option_of time)) }
{
    let s = s.as_array().ok_or(Refusal::Size)?;
    if !lent_formed(s) {
        return Err(Refusal::Form);
    }
    let key = key.ok_or(Refusal::Key)?;
    let arguments = arguments.ok_or(Refusal::Code)?;
    bucket::asked_time(settings(s).pending_timeout, time)?;
    Ok((key, arguments))
}

// Internal: the bucket, by value.
pub fn load(s: &[u8; KBucket::BYTES]) -> SoundBucket
    requires { lent_formed s.now ≡ true }
    ensures { Becomes (lent_settings s.now) (lent_bucket s.now) result.bucket }
{
    buckets::load(bucket_bytes(s), settings(s))
}

// Internal: the bucket is stored; the settings stay.
pub fn store(s: &mut [u8; KBucket::BYTES], b: &SoundBucket)
    ensures { s.new ≡ splice s.old 0 (bucket_bytes (bucket_of b.now.bucket)) }
{
    buckets::store(&mut s[0..Layout::BUCKET], b);
}
