// Internal: the passes of nodes_by_distances (kbucket.rs). A survey asks question 2 of the buckets of the applying pass and counts the
// records that it would give, for question 8; the applying pass applies the due pendings in the storage; then the nodes are written.
// These passes are not one more Order of visit: they count only the buckets that place a pending, and a bucket may be named twice.
ghost use Rattle.std.specs.Prelude.{◌≡◌, true, [], ◌∷◌, ◌+◌, ◌-◌, ◌*◌, ◌≤◌, ◌<◌, length};
ghost use Rattle.std.proofs.Math.Option.{some};
ghost use Rattle.model.specs.Base.{joined};
ghost use Rattle.model.specs.Bytes.{splice};
ghost use Rattle.model.specs.Table.{max_records};
ghost use Rattle.model.specs.Listing.{index_at, indices, buckets_at, apply_all};
ghost use Rattle.model.specs.Question.{max_count};
ghost use Rattle.model.specs.Sizes.{node_size};
ghost use Rattle.model.specs.Layout.{node_bytes, table_of};
ghost use Rattle.model.specs.Formed.{header_formed, buckets_formed};
ghost use Rattle.key.specs.Answers.{option_of};
ghost use Rattle.on_key.specs.Answers.{Ready};
ghost use Rattle.visit.specs.Passes.{applied_in};
ghost use Rattle.distances.specs.Passes.{Yields, next_table, table_after, Asked, Surveyed, listed_nodes};

use items::Shape;
use node::Refusal;
use storage::Layout;
use visit::Given;

// The largest log2 distance, that of the last bucket.
const MAX_DISTANCE: u64 = 256;

// What the survey tells where every bucket of the applying pass passes question 2: how many records they give, and the distances that the
// pass takes, the first of those given.
#[derive(Clone, Copy)]
pub struct Tally<'a> {
    pub records: usize,
    pub taken: &'a [u64],
}

// The index of the bucket at a distance from 1 to 256; none at any other. A cast: the pattern has the bound, and `try_from` would say that
// it may fail.
fn index_at(d: u64) -> Option<usize>
    ensures { option_of result ≡ index_at d }
{
    match d {
        1..=MAX_DISTANCE => Some((d - 1) as usize),
        _ => None,
    }
}

// What bucket i gives; the nodes that it holds are counted only where it gives the record of a placed pending.
fn given_in(s: &[u8; Layout::STORAGE], i: usize, time: u64) -> Given
    requires { Ready s.now i }
    ensures { Yields time (table_of s.now) (some i) result }
{
    let g = visit::given_at(s, i, time);
    if g.placed {
        return g;
    }
    Given {
        records: g.records,
        ..Given::default()
    }
}

// Question 2 of the bucket at distance d, and what it gives, those at the distances before it being visited; nothing where there is none.
// A bucket named before has given its record already.
fn given_at(s: &[u8; Layout::STORAGE], before: &[u64], d: u64, time: u64) -> Result<Given, Refusal>
    requires { header_formed s.now ≡ true }
    ensures { Asked time before.now (index_at d) s.now result }
{
    let Some(i) = index_at(d) else {
        return Ok(Given::default());
    };
    if !well_formed::bucket_formed_at(s, i) {
        return Err(Refusal::Form);
    }
    let g = given_in(s, i, time);
    if g.records == 0 {
        return Ok(g);
    }
    if before.contains(&d) {
        return Ok(Given::default());
    }
    Ok(g)
}

// Internal: question 2 of each bucket that the applying pass comes to, the records that they would give, and how far the pass goes.
// Nothing of a bucket is read before it is asked, and nothing is written.
pub fn survey<'a>(
    s: &[u8; Layout::STORAGE],
    distances: &'a [u64],
    n: usize,
    time: u64,
) -> Result<Tally<'a>, Refusal>
    requires header { header_formed s.now ≡ true }
    requires n_le_max_count { n ≤ max_count }
    ensures { Surveyed time n distances.now s.now result }
{
    let mut records = 0;
    let mut seen = 0;
    for (p, d) in distances.iter().enumerate() {
        let g = given_at(s, &distances[..p], *d, time)?;
        records += g.records;
        seen += g.count;
        if g.placed & (n <= seen) {
            return Ok(Tally {
                records,
                taken: &distances[..p + 1],
            });
        }
    }
    Ok(Tally {
        records,
        taken: distances,
    })
}

// Internal: the applying pass over the storage. Where the survey counted no record, none is due.
pub fn apply_pass(s: &mut [u8; Layout::STORAGE], tally: Tally, time: u64)
    requires header { header_formed s.old ≡ true }
    requires taken_value { buckets_formed s.old (buckets_at tally.taken.now) ≡ true }
    requires s_len_bound { length (table_after time tally.taken.now (table_of s.old)).queue ≤ max_records }
    requires records_value { tally.records ≡ length (apply_all time (buckets_at tally.taken.now) (table_of s.old)).1 }
    ensures { s.new ≡ applied_in s.old time (buckets_at tally.entry.taken.now) }
{
    if tally.records == 0 {
        return;
    }
    for i in tally.taken.iter().filter_map(|d| index_at(*d)) {
        visit::apply_in(s, i, time);
    }
}

// Internal: writes the first n nodes of the buckets at the distances; answers how many there are.
pub fn put_all(s: &[u8; Layout::STORAGE], distances: &[u64], out: &mut [u8], n: usize) -> usize
    requires distances_value { buckets_formed s.now (buckets_at distances.now) ≡ true }
    requires node_size_in_bounds { n * node_size ≤ length out.old }
    ensures value { result ≡ length (listed_nodes (table_of s.now) n distances.now) }
    ensures out_after { out.new ≡ splice out.old 0 (joined node_bytes (listed_nodes (table_of s.now) n distances.now)) }
{
    let mut k = 0;
    for i in distances.iter().filter_map(|d| index_at(*d)) {
        k += items::put_bucket(s, i, Shape::Nodes, &mut out[k * Layout::NODE..], n - k);
    }
    k
}
