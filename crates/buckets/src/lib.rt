// Internal: a bucket of the lent storage, loaded by value and stored back.
#![tactic(auto)]

ghost use Rattle.std.specs.Prelude.{◌≡◌, true, ◌≤◌, ◌<◌, length};
ghost use Rattle.model.specs.Bytes.{splice};
ghost use Rattle.model.specs.Bucket.{max_nodes_per_bucket};
ghost use Rattle.model.specs.Table.{num_buckets};
ghost use Rattle.model.specs.Sizes.{pending_size, bucket_size, bucket_at};
ghost use Rattle.model.specs.Layout.{pending_bytes, bucket_bytes, bucket_in, table_of};
ghost use Rattle.model.specs.Formed.{header_formed, bucket_formed_at};
ghost use Rattle.bucket.specs.Bucket.{pending_of, bucket_of, Becomes};
ghost use Rattle.bucket.specs.Settings.{settings_of};
ghost use Rattle.buckets.specs.Read.{read_pending, pending_codes, sound_bytes};

use bucket::{KBucket, PendingNode, Settings, SoundBucket};
use node::{Node, NodeInRange};
use storage::{Layout, Nodes};

// The pending of a bucket's bytes.
#[tactic(auto, unfolding(model::specs::Bytes::part, crate::specs::Read::read_pending))]
fn load_pending(bucket: &[u8; Layout::BUCKET]) -> Option<PendingNode>
    ensures { result ≡ read_pending bucket.now }
{
    if bucket[Layout::PENDING_AT] == 1 {
        Some(PendingNode {
            node: storage::load_node(storage::pending(bucket)),
            deadline: words::get_u64(&bucket[Layout::DEADLINE_AT..Layout::BUCKET]),
        })
    } else {
        None
    }
}

// Internal: the bucket of its bytes, which pass question 2, all but the index, under settings that are in range.
pub fn load(bucket: &[u8; Layout::BUCKET], settings: Settings) -> SoundBucket
    requires bucket_value { sound_bytes settings.max_incoming bucket.now ≡ true }
    requires settings_value { (settings.max_incoming ≤ max_nodes_per_bucket) × (settings.filter ≤ 1) }
    ensures { Becomes (settings_of settings) (bucket_in bucket.now) result.bucket }
{
    let held = Nodes::of(bucket);
    let mut nodes = [Node::zero(); KBucket::MAX_NODES_PER_BUCKET];
    // By index: `nodes.iter_mut().zip(..)` over the places is no shorter, and the invariant speaks of place i.
    for i in 0..held.count {
        nodes[i] = storage::load_node(held.place(i));
    }
    SoundBucket {
        bucket: KBucket {
            nodes,
            count: held.count,
            first_connected_pos: usize::from(bucket[1]),
            pending: load_pending(bucket),
            settings,
        },
    }
}

// Internal: bucket i of storage whose header and bucket i pass question 2. That bucket i is formed is a clause and no type: it is of the
// storage and an index together, and each caller has it of another bucket.
pub fn load_bucket(s: &[u8; Layout::STORAGE], i: usize) -> SoundBucket
    requires s_value { header_formed s.now ≡ true }
    requires i_lt_num_buckets { i < num_buckets }
    requires i_value { bucket_formed_at s.now i ≡ true }
    ensures { Becomes (table_of s.now).settings.bucket ((table_of s.now).buckets i) result.bucket }
{
    load(storage::bucket(s, i), header::settings(s))
}

// Internal: the bytes become those of a pending; zero bytes where there is none.
pub fn store_pending(s: &mut [u8], pending: Option<PendingNode>)
    requires { (length s.old ≡ pending_size) × (pending_codes pending ≡ true) }
    ensures { s.new ≡ pending_bytes (pending_of pending) }
{
    match pending {
        None => words::put_zeros(s),
        Some(p) => {
            s[0] = 1;
            storage::store_node(&mut s[1..1 + Layout::NODE], NodeInRange { node: p.node });
            words::put_u64(&mut s[1 + Layout::NODE..Layout::PENDING], p.deadline);
        }
    }
}

// Internal: the bytes become those of the bucket.
pub fn store(bucket: &mut [u8], b: &SoundBucket)
    requires { length bucket.old ≡ bucket_size }
    ensures { bucket.new ≡ bucket_bytes (bucket_of b.now.bucket) }
{
    let count = b.bucket.count;
    // By `as`, here, in header and in held: the numbers are at most 64 by what is known of them, and `try_from` would leave an `unwrap` to
    // prove.
    bucket[0] = count as u8;
    bucket[1] = b.bucket.first_connected_pos as u8;
    // By ranges and not by chunks: of a slice that was lent in pieces a proof knows the length alone (saved, put_bucket).
    for i in 0..count {
        let at = Layout::PLACES_AT + i * Layout::NODE;
        storage::store_node(&mut bucket[at..at + Layout::NODE], b.node_at(i));
    }
    let unused = Layout::PLACES_AT + count * Layout::NODE;
    words::put_zeros(&mut bucket[unused..Layout::PENDING_AT]);
    store_pending(
        &mut bucket[Layout::PENDING_AT..Layout::BUCKET],
        b.bucket.pending,
    );
}

// Internal: bucket i of the storage becomes this one.
pub fn store_bucket(s: &mut [u8; Layout::STORAGE], i: usize, b: &SoundBucket)
    requires { i < num_buckets }
    ensures { s.new ≡ splice s.old (bucket_at i) (bucket_bytes (bucket_of b.now.bucket)) }
{
    store(&mut s[storage::bucket_range(i)], b);
}
