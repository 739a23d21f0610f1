// What a benchmark calls: rounds of one operation each, on numbers alone. The driver is tools/bench.
#![tactic(auto)]

ghost use Rattle.std.specs.Prelude.{◌≤◌};

use bucket::{KBucket, SoundBucket};
use key::Key;
use node::{Node, NodeInRange, NodeStatus, Value};

// An outgoing node with no address, connected where k is even.
fn node_from(k: u64) -> NodeInRange {
    NodeInRange {
        node: Node {
            key: Key {
                w0: k,
                w3: k,
                ..Key::default()
            },
            value: Value::default(),
            status: NodeStatus {
                state: u8::from(k % 2 == 0),
                direction: 0,
            },
        },
    }
}

// Two connected and two disconnected nodes.
fn four_held() -> KBucket {
    let mut b = KBucket::new(60000, 16, 0).bucket;
    for k in 0..4u64 {
        b = b.insert(node_from(k).node, 0).bucket;
    }
    b
}

// A round is eight calls of SoundBucket's insert. The first is on a bucket that holds four nodes, each other one on the bucket that
// the call before it answered. Answers after how many rounds the bucket held twelve.
#[unsafe(no_mangle)]
pub extern "C" fn bench_insert_sound(rounds: u64) -> u64
    ensures { result ≤ rounds }
{
    let start = four_held();
    if !start.is_sound() || 60000 < start.settings.pending_timeout {
        return 0;
    }
    let mut seen: u64 = 0;
    for _i in 0..rounds {
        let mut b = SoundBucket { bucket: start };
        for k in 0..8u64 {
            b = b.insert(node_from(100 + k), 0).bucket;
        }
        seen += u64::from(b.bucket.count == 12);
    }
    seen
}

// The same by the entry form, which asks its questions first. Not one function with the above: there each bucket is sound by its type,
// and here nothing is known of it.
#[unsafe(no_mangle)]
pub extern "C" fn bench_insert(rounds: u64) -> u64
    ensures { result ≤ rounds }
{
    let start = four_held();
    let mut seen: u64 = 0;
    for _i in 0..rounds {
        let mut b = start;
        for k in 0..8u64 {
            b = b.insert(node_from(100 + k).node, 0).bucket;
        }
        seen += u64::from(b.count == 12);
    }
    seen
}

// Key::bucket_index. Answers how many indices were even.
#[unsafe(no_mangle)]
pub extern "C" fn bench_bucket_index(rounds: u64) -> u64
    ensures { result ≤ rounds }
{
    let local = Key::default();
    let mut seen: u64 = 0;
    for i in 0..rounds {
        let key = Key {
            w0: i,
            w1: i,
            w2: i,
            w3: i,
        };
        seen += u64::from(matches!(local.bucket_index(key), Some(n) if n % 2 == 0));
    }
    seen
}
