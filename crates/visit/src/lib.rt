// Internal: the visit of the buckets in a listing's order. A survey asks question 2 of each bucket and counts the items, and the records
// that it would give, for question 8; the applying pass applies the due pendings in the storage.
//
// That storage passed question 2 (`header_formed`, `Ready`) is a clause, here and in listing, distances, on_key, header, buckets, admission
// and explain, and no struct holds the fact: nearly half of the functions that ask it write the storage, which such a struct cannot hold.
// For those that read, it was tried and proves; but only explain and the survey would hand one on, and all others hold `&mut` storage and
// would make it for one call each.
// Nor does a type hold what is known of a list of buckets (they passed question 2, the queue has room for their records): most of the
// functions write, and each names another part of the list.
#![tactic(auto)]

ghost use Rattle.std.specs.Prelude.{◌≡◌, true, [], ◌∷◌, ◌+◌, ◌-◌, ◌≤◌, ◌<◌, length};
ghost use Rattle.model.specs.Table.{num_buckets, max_records};
ghost use Rattle.model.specs.Layout.{table_of};
ghost use Rattle.model.specs.Formed.{header_formed, buckets_formed};
ghost use Rattle.on_key.specs.Answers.{Ready};
ghost use Rattle.visit.specs.Passes.{GivenAt, CountedAt, visit_one, visited_by, visit_all, Visitable, visitable_prop, buckets_of, Surveyed, applied_in};

use key::ClosestBucketsIter;
use node::Refusal;
use storage::Layout;

// What a bucket holds once its due pending is applied, how many records it gives, and whether one of them tells of a placed pending.
#[derive(Clone, Copy, Default)]
pub struct Given {
    pub count: usize,
    pub records: usize,
    pub placed: bool,
}

// What the survey has counted: the items that are left to find, whether bucket 0 was visited, and the records. `zero` is a plain flag: no
// value goes with it, so an Option would be no plainer.
#[derive(Clone, Copy, Default)]
pub struct Counted {
    pub left: usize,
    pub zero: bool,
    pub records: usize,
}

// What the survey tells where every bucket of the visit passes question 2: how many records they give and how many items there are, up to
// n. Not one struct with other pairs of counts: the names of its fields are what the two mean.
#[derive(Clone, Copy)]
pub struct Tally {
    pub records: usize,
    pub count: usize,
}

// The order of a visit. One enum that is an iterator, and not `impl Iterator`: the contracts name the buckets that it yields, and no pass
// over it asks which of the two it is.
#[derive(Clone, Copy)]
pub enum Order {
    // All buckets from the one given on, by their index.
    InTurn(usize),
    // As a closest call visits them.
    Nearest(ClosestBucketsIter),
}

// A visit of the buckets: their order, how many items it is to find, and the time at which the pendings are applied that are due. Of these
// buckets none is outside the table, and none but bucket 0 comes twice.
#[derive(Clone, Copy)]
pub struct Visit {
    pub order: Order,
    pub n: usize,
    pub time: u64,
    pub ghost visitable: { Visitable (buckets_of order) } by { visitable_prop (buckets_of order) },
}

impl Iterator for Order {
    ghost use Rattle.std.specs.Iterator.{YieldsFirst, item_count};
    ghost use Rattle.visit.specs.Passes.{buckets_of};

    type Item = usize;

    ghost next_gives = { YieldsFirst buckets_of };

    ghost remaining = { item_count buckets_of };

    // Internal: the bucket to visit next.
    fn next(&mut self) -> Option<usize> {
        match self {
            Order::InTurn(next) => {
                let i = *next;
                if i < model::NUM_BUCKETS {
                    *next = i + 1;
                    return Some(i);
                }
                None
            }
            Order::Nearest(it) => it.next(),
        }
    }
}

// Internal: what bucket i gives once its pending is applied, if it is due, without writing it. No struct for i and time: a bucket's index
// and the call's time mean nothing together.
pub fn given_at(s: &[u8; Layout::STORAGE], i: usize, time: u64) -> Given
    requires { Ready s.now i }
    ensures { GivenAt time (table_of s.now) i result }
{
    if !on_key::is_due(storage::bucket(s, i), time) {
        return Given {
            count: usize::from(storage::size_at(s, i)),
            ..Given::default()
        };
    }
    let step = on_key::apply_at(s, i, time);
    Given {
        count: step.bucket.bucket.count,
        records: usize::from(step.result.is_some()),
        placed: bucket::only_placed(step.result).is_some(),
    }
}

// The count, one bucket further.
fn count_at(s: &[u8; Layout::STORAGE], i: usize, time: u64, c: Counted) -> Counted
    requires ready { Ready s.now i }
    requires records_bound { c.records < num_buckets + num_buckets }
    ensures { CountedAt time (table_of s.now) i c result }
{
    let g = given_at(s, i, time);
    let again = c.zero && i == 0;
    Counted {
        left: c.left.saturating_sub(g.count),
        zero: c.zero || i == 0,
        records: c.records + if again { 0 } else { g.records },
    }
}

// Internal: applies the pending of bucket i in the storage, if it is due.
pub fn apply_in(s: &mut [u8; Layout::STORAGE], i: usize, time: u64)
    requires ready { Ready s.old i }
    requires s_len_bound { length (visit_one time i (table_of s.old)).queue ≤ max_records }
    ensures { s.new ≡ applied_in s.old time (i ∷ []) }
{
    if on_key::is_due(storage::bucket(s, i), time) {
        let step = on_key::apply_at(s, i, time);
        on_key::write_back(s, i, step.result, &step.bucket);
    }
}

impl Visit {
    // Internal: question 2 of each bucket that the visit comes to, up to the one that yields the n-th item; the records that they would
    // give, and how many items there are. Nothing of a bucket is read before it is asked, and nothing is written.
    pub fn survey(self, s: &[u8; Layout::STORAGE]) -> Result<Tally, Refusal>
        requires { header_formed s.now ≡ true }
        ensures { Surveyed self.time self.n (buckets_of self.order) s.now result }
    {
        let mut c = Counted {
            left: self.n,
            ..Counted::default()
        };
        for i in self.order {
            if c.left == 0 {
                break;
            }
            if !well_formed::bucket_formed_at(s, i) {
                return Err(Refusal::Form);
            }
            c = count_at(s, i, self.time, c);
        }
        Ok(Tally {
            records: c.records,
            count: self.n - c.left,
        })
    }

    // Internal: visits the buckets that yield n items and applies their due pendings in the storage. Where the survey counted no record,
    // none is due.
    pub fn apply_all(self, s: &mut [u8; Layout::STORAGE], tally: Tally)
        requires header { header_formed s.old ≡ true }
        requires s_value { buckets_formed s.old (visited_by self.time self.n (buckets_of self.order) (table_of s.old)) ≡ true }
        requires s_len_bound { length (visit_all self.time self.n (buckets_of self.order) (table_of s.old)).0.queue ≤ max_records }
        requires records_value { tally.records ≡ length (visit_all self.time self.n (buckets_of self.order) (table_of s.old)).1 }
        ensures { s.new ≡ applied_in s.old self.time (visited_by self.time self.n (buckets_of self.order) (table_of s.old)) }
    {
        if tally.records == 0 {
            return;
        }
        let mut left = self.n;
        for i in self.order {
            if left == 0 {
                break;
            }
            apply_in(s, i, self.time);
            left = left.saturating_sub(usize::from(storage::size_at(s, i)));
        }
    }
}
