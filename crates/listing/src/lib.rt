// The listings (kbucket.rs): `iter` and the three closest calls. Each writes its items to a lent output and answers how many it found.
#![tactic(auto)]

ghost use Rattle.std.specs.Prelude.{◌≡◌, true, ◌*◌, ◌≤◌, length};
ghost use Rattle.model.specs.Call.{Call, Listing};
ghost use Rattle.model.specs.Layout.{table_of};
ghost use Rattle.model.specs.Formed.{header_formed, buckets_formed};
ghost use Rattle.model.specs.Listing.{visited};
ghost use Rattle.model.specs.StepBytes.{step_bytes};
ghost use Rattle.visit.specs.Passes.{buckets_of};
ghost use Rattle.items.specs.Shape.{predicate_of, size_by};
ghost use Rattle.items.specs.Lists.{Lists, list_answer};
ghost use Rattle.listing.specs.Listed.{closest_listing, visit_order_by, count_in, first_nodes, Put, visit_outcome, list_outcome};

use items::{Form, Predicate, Shape};
use key::ClosestBucketsIter;
use node::Refusal;
use storage::Layout;
use visit::{Order, Visit};

// The order of the listing.
fn order_of(s: &[u8; Layout::STORAGE], shape: Shape) -> Order
    ensures { buckets_of result ≡ visit_order_by shape (table_of s.now) }
{
    match shape {
        Shape::Nodes => Order::InTurn(0),
        Shape::Closest(target, _) => {
            let distance = header::local_key(s).distance(target);
            Order::Nearest(ClosestBucketsIter::new(distance))
        }
    }
}

// Writes the items of the visit's buckets, up to n, and answers how many. No further bucket is visited after the n-th.
fn put_all(s: &[u8; Layout::STORAGE], visit: Visit, shape: Shape, out: &mut [u8], n: usize) -> usize
    requires visit_value { buckets_formed s.now (visited (count_in (table_of s.now)) n (buckets_of visit.order)) ≡ true }
    requires shape_in_bounds { n * size_by shape ≤ length out.old }
    ensures { Put shape (first_nodes n shape (table_of s.now) (buckets_of visit.order)) result out.old out.new }
{
    let size = shape.item_size();
    let mut k = 0;
    for i in visit.order {
        if k == n {
            break;
        }
        k += items::put_bucket(s, i, shape, &mut out[k * size..], n - k);
    }
    k
}

// The visit: a survey for questions 2 and 8, the due pendings applied, then the items written from the storage as it stands, until as many
// are written as the survey counted. Where a bucket of it is malformed, none was applied.
fn list_visited(
    s: &mut [u8; Layout::STORAGE],
    visit: Visit,
    shape: Shape,
    out: &mut [u8],
) -> Result<usize, Refusal>
    requires header { header_formed s.old ≡ true }
    requires shape_in_bounds { visit.n * size_by shape ≤ length out.old }
    ensures { Lists (list_answer result) s.new out.new (visit_outcome shape visit.n visit.time (buckets_of visit.order) out.old s.old) }
{
    let tally = visit.survey(s)?;
    on_key::asked_queue(s, tally.records)?;
    visit.apply_all(s, tally);
    Ok(put_all(s, visit, shape, out, tally.count))
}

// The listing of a shape, from question 6 on. n and time are the call's own, as in the C interface; from the visit on they are a Visit's.
fn list(
    s: &mut [u8; Layout::STORAGE],
    shape: Shape,
    n: usize,
    time: u64,
    out: &mut [u8],
) -> Result<usize, Refusal>
    requires { header_formed s.old ≡ true }
    ensures { Lists (list_answer result) s.new out.new (list_outcome shape n time out.old s.old) }
{
    items::asked_output(n, shape.item_size(), out.len())?;
    let order = order_of(s, shape);
    let visit = Visit { order, n, time };
    list_visited(s, visit, shape, out)
}

// The closest listing of a form.
fn closest(
    s: &mut [u8],
    target: &[u8],
    form: Form,
    n: usize,
    time: u64,
    out: &mut [u8],
) -> Result<usize, Refusal>
    ensures { Lists (list_answer result) s.new out.new (step_bytes (Call.list (closest_listing form target.now) n time out.old) s.old) }
{
    let s = s.as_mut_array().ok_or(Refusal::Size)?;
    let (key, form) = on_key::asked(s, target, form.in_range().then_some(form), Some(time))?;
    list(s, Shape::Closest(key, form), n, time, out)
}

// All nodes, bucket by bucket.
pub fn iter(s: &mut [u8], n: usize, time: u64, out: &mut [u8]) -> Result<usize, Refusal>
    ensures { Lists (list_answer result) s.new out.new (step_bytes (Call.list Listing.iter n time out.old) s.old) }
{
    let s = s.as_mut_array().ok_or(Refusal::Size)?;
    on_key::asked_time(s, time)?;
    list(s, Shape::Nodes, n, time, out)
}

// The keys of the nodes closest to the target.
pub fn closest_keys(
    s: &mut [u8],
    target: &[u8],
    n: usize,
    time: u64,
    out: &mut [u8],
) -> Result<usize, Refusal>
    ensures { Lists (list_answer result) s.new out.new (step_bytes (Call.list (Listing.closest_keys target.now) n time out.old) s.old) }
{
    closest(s, target, Form::Key, n, time, out)
}

// Keys and values of the nodes closest to the target.
pub fn closest_values(
    s: &mut [u8],
    target: &[u8],
    n: usize,
    time: u64,
    out: &mut [u8],
) -> Result<usize, Refusal>
    ensures { Lists (list_answer result) s.new out.new (step_bytes (Call.list (Listing.closest_values target.now) n time out.old) s.old) }
{
    closest(s, target, Form::ClosestValue, n, time, out)
}

// Keys and values of the nodes closest to the target, each with whether the predicate holds of its value.
pub fn closest_values_predicate(
    s: &mut [u8],
    target: &[u8],
    p: Predicate,
    n: usize,
    time: u64,
    out: &mut [u8],
) -> Result<usize, Refusal>
    ensures { Lists (list_answer result) s.new out.new (step_bytes (Call.list (Listing.closest_values_predicate target.now (predicate_of p)) n time out.old) s.old) }
{
    closest(s, target, Form::PredicateValue(p), n, time, out)
}
