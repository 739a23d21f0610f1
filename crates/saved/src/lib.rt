// The writer: a table's held nodes put out to be loaded elsewhere (document 02, slip 6). A query: nothing but the lent output is written.
#![tactic(auto, unfolding(model::specs::Bytes::part, model::specs::Bytes::splice))]

ghost use Rattle.std.specs.Prelude.{◌≡◌, true, ◌*◌, ◌≤◌, length, sum};
ghost use Rattle.model.specs.Base.{joined, tabulate};
ghost use Rattle.model.specs.Bucket.{num_entries};
ghost use Rattle.model.specs.Table.{num_buckets};
ghost use Rattle.model.specs.Sizes.{node_size, storage_size};
ghost use Rattle.model.specs.Layout.{node_in, nodes_in, table_of};
ghost use Rattle.model.specs.Formed.{node_codes};
ghost use Rattle.model.specs.Saved.{all_nodes, saved_entry_size};
ghost use Rattle.model.specs.StepBytes.{write_bytes};
ghost use Rattle.on_key.specs.Answers.{Replies};
ghost use Rattle.saved.specs.Fields.{write_answer_of, field_bytes, field_size};

use items::FormedNodes;
use node::Refusal;
use storage::Layout;
use well_formed::FormedTable;

// What is written of a node: its key, or its entry of state, direction and value. An enum and not a closure: the contracts name by it the
// bytes that are written and their number.
#[derive(Clone, Copy)]
enum Field {
    Key,
    Entry,
}

impl Field {
    // The bytes that are written of a node.
    #[tactic(auto, unfolding(crate::specs::Fields::field_size))]
    fn size(self) -> usize
        ensures { result ≡ field_size self }
    {
        match self {
            Field::Key => Layout::KEY,
            Field::Entry => Layout::ENTRY,
        }
    }

    // What is written of the node of these bytes.
    fn put(self, node: &[u8; Layout::NODE], out: &mut [u8])
        requires node_value { node_codes node.now ≡ true }
        requires out_len { length out.old ≡ field_size self }
        ensures { out.new ≡ field_bytes self (node_in node.now) }
    {
        match self {
            Field::Key => storage::load_key(node).store(out),
            Field::Entry => storage::put_entry(&node[Layout::STATE_AT..Layout::NODE], out),
        }
    }
}

// The sizes of the buckets, one byte each.
fn sizes(s: &[u8; Layout::STORAGE]) -> [u8; model::NUM_BUCKETS]
    ensures { result ≡ tabulate num_buckets (λ i. num_entries ((table_of s.now).buckets i)) }
{
    std::array::from_fn(|i| storage::size_at(s, i))
}

// How many nodes the sizes say. loaded's `saved_nodes` is the same: shared, the two lines would want a crate below both.
#[tactic(auto, using(crate::proofs::Held::sums))]
fn total(sizes: &[u8; model::NUM_BUCKETS]) -> usize
    ensures value { result ≡ sum sizes.now }
    ensures upper_bound { result ≤ 255 * num_buckets }
{
    sizes.iter().map(|size| usize::from(*size)).sum()
}

// What is written of the nodes of a bucket. Not by `chunks_exact_mut`: of a slice that was lent in pieces a proof knows the length alone.
fn put_bucket(formed: FormedNodes, field: Field, out: &mut [u8])
    requires { length out.old ≡ formed.nodes.count * field_size field }
    ensures { out.new ≡ joined (field_bytes field) (nodes_in formed.entry.nodes.bucket.now) }
{
    let size = field.size();
    for j in 0..formed.nodes.count {
        field.put(formed.nodes.place(j), &mut out[j * size..(j + 1) * size]);
    }
}

// What is written of all nodes, bucket by bucket; `at` counts on, since the buckets differ in size.
fn put_all(table: FormedTable, field: Field, out: &mut [u8])
    requires { length out.old ≡ length (all_nodes (table_of table.s.now)) * field_size field }
    ensures { out.new ≡ joined (field_bytes field) (all_nodes (table_of table.entry.s.now)) }
{
    let size = field.size();
    let mut at = 0;
    for i in 0..model::NUM_BUCKETS {
        let formed = FormedNodes::of(table.s, i);
        let end = at + formed.nodes.count * size;
        put_bucket(formed, field, &mut out[at..end]);
        at = end;
    }
}

// Writes the sizes, then all keys, then all entries, and answers how many nodes there are.
pub fn write(s: &[u8], out: &mut [u8]) -> Result<usize, Refusal>
    ensures { Replies (write_answer_of result) out.new (write_bytes out.old s.now) }
{
    let s = s.as_array().ok_or(Refusal::Size)?;
    on_key::asked_table(s)?;
    let table = FormedTable { s };
    let sizes = sizes(s);
    let n = total(&sizes);
    if out.len() < model::NUM_BUCKETS + n * Layout::NODE {
        return Err(Refusal::Output);
    }
    let (front, rest) = out.split_at_mut(model::NUM_BUCKETS);
    let (keys, rest) = rest.split_at_mut(n * Layout::KEY);
    front.copy_from_slice(&sizes);
    put_all(table, Field::Key, keys);
    put_all(table, Field::Entry, &mut rest[0..n * Layout::ENTRY]);
    Ok(n)
}
