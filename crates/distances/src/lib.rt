// nodes_by_distances (kbucket.rs): the nodes of the buckets at the distances given.
#![tactic(auto)]

ghost use Rattle.std.specs.Prelude.{◌≡◌};
ghost use Rattle.model.specs.Call.{Call, Listing};
ghost use Rattle.model.specs.Listing.{at_least_one};
ghost use Rattle.model.specs.StepBytes.{step_bytes};
ghost use Rattle.node.specs.Refusal.{failed_of};
ghost use Rattle.items.specs.Lists.{list_answer, Lists};
ghost use Rattle.distances.specs.Early.{failed_early};

pub mod pass;

use node::Refusal;
use storage::Layout;

// n, or 1 where it is 0: std's `max` under the model's name.
fn at_least_one(n: usize) -> usize
    ensures { result ≡ at_least_one n }
{
    n.max(1)
}

// Questions 2 (the settings and the queue), 5 and 6; 1 passes by the type. room: the bytes of output.
fn asked_early(s: &[u8; Layout::STORAGE], n: usize, time: u64, room: usize) -> Result<(), Refusal>
    ensures { failed_of result ≡ failed_early time n room s.now }
{
    on_key::asked_time(s, time)?;
    items::asked_output(at_least_one(n), Layout::NODE, room)
}

// The nodes of the buckets at the distances, in the order given, up to n, or one where n is 0: each bucket in stored order, written to
// `out` as the bytes of a node. Distances outside 1 to 256 are dropped. Due pendings are applied first, up to the placed one whose
// bucket makes n, and no bucket behind it is read. Refused by questions 1, 2, 5, 6 and 8; then nothing was applied.
pub fn nodes_by_distances(
    s: &mut [u8],
    distances: &[u64],
    n: usize,
    time: u64,
    out: &mut [u8],
) -> Result<usize, Refusal>
    ensures { Lists (list_answer result) s.new out.new (step_bytes (Call.list (Listing.nodes_by_distances distances.now) n time out.old) s.old) }
{
    let s = s.as_mut_array().ok_or(Refusal::Size)?;
    asked_early(s, n, time, out.len())?;
    let tally = pass::survey(s, distances, n, time)?;
    on_key::asked_queue(s, tally.records)?;
    pass::apply_pass(s, tally, time);
    Ok(pass::put_all(s, tally.taken, out, at_least_one(n)))
}
