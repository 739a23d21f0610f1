// The bytes that the writer puts out: a size for each bucket, then the keys of all nodes, then their entries.
ghost use Rattle.std.specs.Prelude.{◌≡◌, false, ◌++◌, ◌+◌, ◌*◌, ◌≤◌, ◌<◌, length, get_or, sum, MatchOption};
ghost use Rattle.model.specs.Bytes.{part, zeros};
ghost use Rattle.model.specs.Bucket.{max_nodes_per_bucket};
ghost use Rattle.model.specs.Table.{num_buckets};
ghost use Rattle.model.specs.Sizes.{key_size, node_size, bucket_size};
ghost use Rattle.model.specs.Saved.{saved_entry_size, sizes_below, saved_count, disconnected_from, loaded_bytes, length_fits};

use key::Key;
use storage::Layout;

// The bytes, whose length fits their sizes, and how many nodes they have.
#[derive(Clone, Copy)]
pub struct Saved<'a> {
    pub bytes: &'a [u8],
    pub nodes: usize,
    pub ghost counted: { nodes ≡ saved_count bytes.now },
    pub ghost sized: { length bytes.now ≡ num_buckets + nodes * node_size },
}

// Bucket i of the bytes, whose first node is that of index `from`: the loops over the buckets count on, since the buckets differ in size.
#[derive(Clone, Copy)]
pub struct SavedBucket<'a> {
    pub saved: Saved<'a>,
    pub i: usize,
    pub from: usize,
    pub ghost below: { i < num_buckets },
    pub ghost start: { from ≡ sizes_below saved.bytes.now i },
}

// The bytes of a node become its key and its entry.
fn copy_node(key: &[u8], entry: &[u8], node: &mut [u8])
    requires { (length key.now ≡ key_size) × (length entry.now ≡ saved_entry_size) × (length node.old ≡ node_size) }
    ensures { node.new ≡ key.now ++ entry.now }
{
    let (front, back) = node.split_at_mut(Layout::KEY);
    Key::load(key).store(front);
    storage::put_entry(entry, back);
}

// How many nodes the sizes say (saved, `total`).
#[tactic(auto, using(crate::proofs::Built::sums))]
fn saved_nodes(sizes: &[u8; model::NUM_BUCKETS]) -> usize
    ensures value { result ≡ sum sizes.now }
    ensures upper_bound { result ≤ 255 * num_buckets }
{
    sizes.iter().map(|size| usize::from(*size)).sum()
}

impl<'a> Saved<'a> {
    // Internal: the bytes, where their length fits their sizes.
    pub fn of(bytes: &'a [u8]) -> Option<Saved<'a>>
        ensures { MatchOption result (length_fits bytes.now ≡ false) (λ x. x.bytes.now ≡ bytes.now) }
    {
        let nodes = saved_nodes(bytes.first_chunk()?);
        if bytes.len() != model::NUM_BUCKETS + nodes * Layout::NODE {
            return None;
        }
        Some(Saved { bytes, nodes })
    }

    // Internal: the key of node j of all.
    pub fn key(self, j: usize) -> &'a [u8]
        requires { j < self.nodes }
        ensures key { result.now ≡ part self.entry.bytes.now (num_buckets + j * key_size) key_size }
        ensures size { length result.now ≡ key_size }
    {
        let at = model::NUM_BUCKETS + j * Layout::KEY;
        &self.bytes[at..at + Layout::KEY]
    }

    // Internal: the entry of node j of all.
    pub fn entry(self, j: usize) -> &'a [u8]
        requires { j < self.nodes }
        ensures entry { result.now ≡ part self.entry.bytes.now (num_buckets + self.entry.nodes * key_size + j * saved_entry_size) saved_entry_size }
        ensures size { length result.now ≡ saved_entry_size }
    {
        let at = model::NUM_BUCKETS + self.nodes * Layout::KEY + j * Layout::ENTRY;
        &self.bytes[at..at + Layout::ENTRY]
    }
}

impl<'a> SavedBucket<'a> {
    // Internal: how many nodes it has.
    pub fn count(self) -> usize
        ensures count { result ≡ get_or self.entry.saved.bytes.now self.entry.i 0 }
        ensures within { self.entry.from + result ≤ self.entry.saved.nodes }
    {
        usize::from(self.saved.bytes[self.i])
    }

    // Internal: of its nodes, those before the first that does not say disconnected.
    pub fn disconnected(self) -> usize
        ensures { result ≡ disconnected_from self.entry.saved.bytes.now self.entry.from (get_or self.entry.saved.bytes.now self.entry.i 0) }
    {
        let count = self.count();
        (self.from..self.from + count)
            .position(|j| self.saved.entry(j)[0] != 0)
            .unwrap_or(count)
    }

    // Internal: the bucket as a table stores it, without a pending, put where all is zero. Not by `chunks_exact_mut`: of a slice that was
    // lent in pieces a proof knows the length alone.
    pub fn build(self, bucket: &mut [u8])
        requires bucket_value { bucket.old ≡ zeros bucket_size }
        requires i_bound { get_or self.saved.bytes.now self.i 0 ≤ max_nodes_per_bucket }
        ensures { bucket.new ≡ loaded_bytes self.entry.saved.bytes.now self.entry.i }
    {
        bucket[0] = self.saved.bytes[self.i];
        // By `as`: there are at most sixteen, and `try_from` would leave an `unwrap` to prove.
        bucket[1] = self.disconnected() as u8;
        for j in 0..self.count() {
            let at = Layout::PLACES_AT + j * Layout::NODE;
            let key = self.saved.key(self.from + j);
            let entry = self.saved.entry(self.from + j);
            copy_node(key, entry, &mut bucket[at..at + Layout::NODE]);
        }
    }
}
