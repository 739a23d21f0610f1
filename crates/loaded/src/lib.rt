// The reader (document 02, slip 6): loads the bytes that the writer put out into storage just made by `new`. All is asked before
// anything is written.
#![tactic(auto, unfolding(model::specs::Bytes::part, model::specs::Bytes::splice))]

ghost use Rattle.std.specs.Prelude.{◌≡◌, true, false, ◌<◌, MatchOption};
ghost use Rattle.model.specs.Base.{all_below};
ghost use Rattle.model.specs.Table.{num_buckets};
ghost use Rattle.model.specs.Layout.{nodes_in, table_of};
ghost use Rattle.model.specs.Saved.{holds_nothing, three_of_aNet, load_fits};
ghost use Rattle.model.specs.Call.{Call};
ghost use Rattle.model.specs.StepBytes.{step_bytes};
ghost use Rattle.key.specs.Key.{num};
ghost use Rattle.node.specs.Node.{value_of};
ghost use Rattle.bucket.specs.Settings.{settings_of};
ghost use Rattle.well_formed.specs.Tests.{node_at};
ghost use Rattle.on_key.specs.Answers.{Answers};
ghost use Rattle.loaded.specs.Answer.{read_answer};
ghost use Rattle.loaded.specs.Load.{Held, NoThree, octet_at, third_of, two_beside, bucket_fits, Blank, LoadedFrom};

mod saved;

use bucket::Settings;
use key::Key;
use node::{Refusal, Value};
use saved::{Saved, SavedBucket};
use storage::{Layout, Nodes};
use well_formed::{FormedTable, Index};

// The value of the node at place j. By its number, as in `is_crowded`, whose proof speaks of places; over `Nodes::places` each test is as
// long.
fn value_at(nodes: Nodes, j: usize) -> Value
    requires { j < nodes.count }
    ensures { value_of result ≡ (node_at nodes.entry.bucket.now j).value }
{
    storage::node_value(nodes.place(j))
}

// Three of the nodes have the same third octet. Elsewhere no three values are of one /24.
fn is_crowded(nodes: Nodes) -> bool
    ensures { result ≡ false → NoThree (octet_at nodes.entry.bucket.now) nodes.entry.count }
{
    let mut seen = [0u8; 256];
    for j in 0..nodes.count {
        let octet = usize::from(nodes.place(j)[Layout::VALUE_AT + 3]);
        if 1 < seen[octet] {
            return true;
        }
        seen[octet] += 1;
    }
    false
}

// One of the nodes holds a value that counts against both.
fn third(nodes: Nodes, a: Value, b: Value) -> bool
    ensures { result ≡ third_of (value_of a) (value_of b) (nodes_in nodes.entry.bucket.now) }
{
    (0..nodes.count).any(|j| {
        let c = value_at(nodes, j);
        node::filter::counts(a, c) & node::filter::counts(b, c)
    })
}

// Two of the nodes hold values that count against the value and against each other.
fn two_beside(nodes: Nodes, a: Value) -> bool
    ensures { result ≡ two_beside (value_of a) (nodes_in nodes.entry.bucket.now) }
{
    (0..nodes.count).any(|j| {
        let b = value_at(nodes, j);
        node::filter::counts(a, b) && third(nodes, a, b)
    })
}

// The nodes hold three different values of one /24.
fn three_of_a_net(nodes: Nodes) -> bool
    ensures { result ≡ three_of_aNet (nodes_in nodes.entry.bucket.now) }
{
    if !is_crowded(nodes) {
        return false;
    }
    (0..nodes.count).any(|j| two_beside(nodes, value_at(nodes, j)))
}

// Question 9 of a bucket of the bytes. One without nodes passes.
fn bucket_fits(bucket: SavedBucket, local: Key, settings: Settings) -> bool
    ensures { result ≡ bucket_fits (num local) (settings_of settings) bucket.entry.saved.bytes.now bucket.entry.i }
{
    let count = bucket.count();
    if count == 0 {
        return true;
    }
    if model::MAX_NODES_PER_BUCKET < count {
        return false;
    }
    let mut built = [0u8; Layout::BUCKET];
    bucket.build(&mut built);
    let index = Index { local, i: bucket.i };
    if !well_formed::bucket_formed(&built, Some(index), settings.max_incoming) {
        return false;
    }
    if settings.filter != 1 {
        return true;
    }
    !three_of_a_net(Nodes::of(&built))
}

// Question 9 of every bucket of the bytes.
fn buckets_fit(saved: Saved, local: Key, settings: Settings) -> bool
    ensures { result ≡ all_below num_buckets (bucket_fits (num local) (settings_of settings) saved.entry.bytes.now) }
{
    let mut from: usize = 0;
    for i in 0..model::NUM_BUCKETS {
        let bucket = SavedBucket { saved, i, from };
        if !bucket_fits(bucket, local, settings) {
            return false;
        }
        from += bucket.count();
    }
    true
}

// The table holds no node, pending or record.
fn holds_nothing(table: FormedTable) -> bool
    ensures { result ≡ holds_nothing (table_of table.entry.s.now) }
{
    let s = table.s;
    if s[Layout::RECORD_COUNT_AT] != 0 {
        return false;
    }
    (0..model::NUM_BUCKETS).all(|i| {
        let bucket = storage::bucket(s, i);
        (bucket[0] == 0) & (bucket[Layout::PENDING_AT] == 0)
    })
}

// The bytes, where they pass question 9.
fn fitting<'a>(table: FormedTable, bytes: &'a [u8]) -> Option<Saved<'a>>
    ensures { MatchOption result (load_fits bytes.now (table_of table.entry.s.now) ≡ false) (λ x. (load_fits bytes.now (table_of table.entry.s.now) ≡ true) × (x.bytes.now ≡ bytes.now)) }
{
    if !holds_nothing(table) {
        return None;
    }
    let saved = Saved::of(bytes)?;
    if !buckets_fit(saved, header::local_key(table.s), header::settings(table.s)) {
        return None;
    }
    Some(saved)
}

// Every bucket of the bytes, put into storage whose buckets are all zero.
fn load_all(saved: Saved, s: &mut [u8; Layout::STORAGE])
    requires held { Held saved.bytes.now }
    requires blank { Blank s.old }
    ensures { LoadedFrom s.old saved.entry.bytes.now s.new }
{
    let mut from: usize = 0;
    for i in 0..model::NUM_BUCKETS {
        let bucket = SavedBucket { saved, i, from };
        bucket.build(&mut s[storage::bucket_range(i)]);
        from += bucket.count();
    }
}

// Loads the bytes into storage of a table that holds nothing. It answers the number of nodes loaded.
pub fn read(s: &mut [u8], bytes: &[u8]) -> Result<usize, Refusal>
    ensures { Answers (read_answer result) s.new (step_bytes (Call.read bytes.now) s.old) }
{
    let s = s.as_mut_array().ok_or(Refusal::Size)?;
    on_key::asked_table(s)?;
    let saved = fitting(FormedTable { s }, bytes).ok_or(Refusal::Load)?;
    load_all(saved, s);
    Ok(saved.nodes)
}
