// Internal: the table filter (kbucket.rs, filter.rs) on the bytes of the storage, one value at a time. Where it runs, each bucket is asked
// question 2 before it is counted (document 02, slip 7).
#![tactic(auto)]

ghost use Rattle.std.specs.Prelude.{◌≡◌, true, ◌≤◌, ◌<◌, length};
ghost use Rattle.model.specs.Base.{select};
ghost use Rattle.model.specs.Bucket.{max_nodes_per_bucket, nodes, get};
ghost use Rattle.model.specs.Table.{num_buckets, is_duplicate};
ghost use Rattle.model.specs.Layout.{node_in, bucket_in};
ghost use Rattle.model.specs.Formed.{bucket_formed_at};
ghost use Rattle.key.specs.Key.{num};
ghost use Rattle.node.specs.Node.{value_of};
ghost use Rattle.table_filter.specs.Counted.{counts_other, net_of};
ghost use Rattle.table_filter.specs.Filtered.{Walked, AskedFilter};

use key::Key;
use node::{Refusal, Value};
use storage::{Layout, Nodes};

// The address flag and the first three octets of the value, with which its bytes begin, as one number: by `node::filter::counts` alone the
// walk of 4,047 nodes takes a twelfth to a sixth longer, and with `bucket_index` in `Index::is_of` too it has missed its bar of 1.8; with the
// four bytes compared as a slice it misses it (docs/MEASUREMENTS.md, last section).
fn net(value: Value) -> u64
    ensures { result ≡ net_of value }
{
    u64::from(u32::from_be_bytes([value.flag, value.a, value.b, value.c]))
}

// The node counts against the value of the key. The key's own does not (document 02, slip 3). Where flag and /24 differ, neither
// value nor key is loaded; the key is loaded only where the value counts.
fn counts(node: &[u8; Layout::NODE], key: Key, value: Value) -> bool
    ensures { result ≡ counts_other (num key) (value_of value) (node_in node.now) }
{
    if words::get_u64(&node[Layout::VALUE_AT..Layout::VALUE_AT + 8]) / 0x1_0000_0000 != net(value) {
        return false;
    }
    node::filter::counts(value, storage::node_value(node)) && !storage::load_key(node).eq(key)
}

// How many of the nodes count against the value of the key. The pending is not among them. Key and value are what a call is given: nothing
// is known of them together.
fn counted(held: Nodes, key: Key, value: Value) -> usize
    ensures { (result ≡ length (select (counts_other (num key) (value_of value)) (nodes (bucket_in held.entry.bucket.now)))) × (result ≤ max_nodes_per_bucket) }
{
    held.count(|node| counts(node, key, value))
}

// Question 2 of every bucket, each before it is counted for the value of the key; then: does the value fail the IP filter of the table?
// Against a value without an address none counts.
fn walked(s: &[u8; Layout::STORAGE], key: Key, value: Value) -> Result<bool, Refusal>
    ensures { Walked s.now (num key) (value_of value) result }
{
    if value.flag != 1 {
        if well_formed::buckets_formed(s) {
            return Ok(false);
        }
        return Err(Refusal::Form);
    }
    let mut n: usize = 0;
    for i in 0..model::NUM_BUCKETS {
        if !well_formed::bucket_formed_at(s, i) {
            return Err(Refusal::Form);
        }
        n += counted(Nodes::of(storage::bucket(s, i)), key, value);
    }
    Ok(node::filter::MAX_NODES_PER_SUBNET_TABLE <= n)
}

// One of the nodes has the key, with an equal value.
fn holds_value(held: Nodes, key: Key, value: Value) -> bool
    ensures { result ≡ is_duplicate (value_of value) (get (num key) (bucket_in held.entry.bucket.now)) }
{
    let Some(j) = well_formed::position(held.bucket, held.count, key) else {
        return false;
    };
    storage::node_value(held.place(j)).eq(value)
}

// Internal: does the value of the key, whose bucket is i and has passed question 2, fail the table filter? Where the filter is off, or
// skipped because the key is held with an equal value, no other bucket is read. That bucket i is formed is a clause: no value is of the
// storage and an index.
pub fn asked_filter(
    s: &[u8; Layout::STORAGE],
    i: usize,
    key: Key,
    value: Value,
) -> Result<bool, Refusal>
    requires { (i < num_buckets) × (bucket_formed_at s.now i ≡ true) }
    ensures { AskedFilter s.now i (num key) (value_of value) result }
{
    if s[Layout::TABLE_FILTER_AT] != 1 {
        return Ok(false);
    }
    if holds_value(Nodes::of(storage::bucket(s, i)), key, value) {
        return Ok(false);
    }
    walked(s, key, value)
}
