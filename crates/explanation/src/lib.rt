// Internal: what is told of a call before it runs (document 02, slip 1): the answer, the reason, and the line that says both.
#![tactic(auto)]

ghost use Rattle.std.specs.Prelude.{◌≡◌, ◌++◌, ◌∷◌, [], map, ◌≤◌, length, Some};
ghost use Rattle.model.specs.Base.{select};
ghost use Rattle.model.specs.Bucket.{nodes};
ghost use Rattle.model.specs.Table.{num_buckets, held_nodes};
ghost use Rattle.model.specs.Layout.{bucket_in, table_of};
ghost use Rattle.model.specs.Explain.{told_update, told_insert, told_insert_or_update, key_text, failure_text, flag_text, told_text, reason_text, keys_of, keys_text, explanation_room, line};
ghost use Rattle.key.specs.Key.{num};
ghost use Rattle.node.specs.Node.{node_of};
ghost use Rattle.bucket.specs.Calls.{failure_reason_of, update_result_of, insert_result_of};
ghost use Rattle.bucket_update.specs.Results.{table_insert_result_of};
ghost use Rattle.explanation.specs.Explanation.{told_of, told_detail, reason_of, why_text};
ghost use Rattle.explanation.specs.Put.{Put, PutKeys, passes, key_text_size, spaced_key_size, longest_told, longest_reason};

use bucket::{FailureReason, SoundBucket};
use key::Key;
use node::{Node, Value};
use storage::Nodes;
use well_formed::FormedTable;

// What is told of the answer.
#[derive(Clone, Copy, PartialEq, Eq)]
pub enum Told {
    Inserted,
    // It names the node at place 0.
    Pending(Key),
    StatusUpdated(bool),
    ValueUpdated,
    // The Updated of insert_or_update, with its flag.
    UpdatedBoth(bool),
    Updated,
    UpdatedAndPromoted,
    UpdatedPending,
    NotModified,
    Failed(FailureReason),
    FailedFilter,
    TooManyIncoming,
    Full,
    NodeExists,
    // What remove answers.
    Removed(bool),
}

// The reason of a call that fails. Its keys are found where it is put: those of the table filter in the table, of which the key's own
// node is not counted; those of the bucket filter and of the incoming limit in the bucket that the failing test looked at. A filter
// counts against the value. It has no `==`, as a value has none.
#[derive(Clone, Copy)]
pub enum Reason<'a> {
    TableFilter(FormedTable<'a>, Key, Value),
    BucketFilter(SoundBucket, Value),
    IncomingLimit(SoundBucket),
    NewcomerDisconnected,
    AllConnected,
    Pending(Key),
    NoSuchKey,
    LocalKey,
}

// The nodes that a reason names: those that count against a value, the same but for a key's own, or those connected incoming.
// An enum and not a closure: the contracts name by it the nodes that pass, and of a closure each function would be told that as well.
#[derive(Clone, Copy)]
enum Test {
    Counts(Value),
    CountsOther(Key, Value),
    Incoming,
}

// How many bytes a key has behind a reason: a space and 64 digits.
const SPACED_KEY: usize = 1 + 2 * Key::BYTES;

// What is told of an update.
impl From<bucket::UpdateResult> for Told {
    ghost from_gives = { λ x y. told_of y ≡ told_update (update_result_of x) };

    fn from(x: bucket::UpdateResult) -> Told {
        match x {
            bucket::UpdateResult::Updated => Told::Updated,
            bucket::UpdateResult::UpdatedAndPromoted => Told::UpdatedAndPromoted,
            bucket::UpdateResult::UpdatedPending => Told::UpdatedPending,
            bucket::UpdateResult::Failed(r) => Told::Failed(r),
            bucket::UpdateResult::NotModified => Told::NotModified,
        }
    }
}

// What is told of a bucket's insert.
impl From<bucket::InsertResult> for Told {
    ghost from_gives = { λ x y. told_of y ≡ told_insert (insert_result_of x) };

    fn from(x: bucket::InsertResult) -> Told {
        match x {
            bucket::InsertResult::Inserted => Told::Inserted,
            bucket::InsertResult::Pending(k) => Told::Pending(k),
            bucket::InsertResult::FailedFilter => Told::FailedFilter,
            bucket::InsertResult::TooManyIncoming => Told::TooManyIncoming,
            bucket::InsertResult::Full => Told::Full,
            bucket::InsertResult::NodeExists => Told::NodeExists,
        }
    }
}

// What is told of insert_or_update.
impl From<bucket_update::InsertResult> for Told {
    ghost from_gives = { λ x y. told_of y ≡ told_insert_or_update (table_insert_result_of x) };

    fn from(x: bucket_update::InsertResult) -> Told {
        match x {
            bucket_update::InsertResult::Inserted => Told::Inserted,
            bucket_update::InsertResult::Pending(k) => Told::Pending(k),
            bucket_update::InsertResult::StatusUpdated(p) => Told::StatusUpdated(p),
            bucket_update::InsertResult::ValueUpdated => Told::ValueUpdated,
            bucket_update::InsertResult::Updated(p) => Told::UpdatedBoth(p),
            bucket_update::InsertResult::UpdatedPending => Told::UpdatedPending,
            bucket_update::InsertResult::Failed(r) => Told::Failed(r),
        }
    }
}

// The bytes of the word, put at the front of the output. It answers how many they are, as all that put text do. No Display and `write!`:
// the bytes that these write are ensured of a String alone, and that needs a heap. That the output has room is a clause of each: each wants
// another number of bytes, and the output is written.
fn put_word(out: &mut [u8], word: &[u8]) -> usize
    requires { length word.now ≤ length out.old }
    ensures { Put word.now out.old out.new result }
{
    out[0..word.len()].copy_from_slice(word);
    word.len()
}

// The 64 digits of the key.
fn put_key(out: &mut [u8], key: Key) -> usize
    requires { key_text_size ≤ length out.old }
    ensures { Put (key_text (num key)) out.old out.new result }
{
    let size = 2 * Key::BYTES;
    hex::encode_to_slice(key.to_bytes(), &mut out[0..size]).unwrap();
    size
}

// A space and the key.
fn put_spaced_key(out: &mut [u8], key: Key) -> usize
    requires { spaced_key_size ≤ length out.old }
    ensures { Put (keys_text (num key ∷ [])) out.old out.new result }
{
    let n = put_word(out, b" ");
    n + put_key(&mut out[n..], key)
}

// The failure's name. One arm for each, as its code in `codes::reason_code`: the one is the words of document 02, the other a number of the C
// interface.
fn failure_word(failure: FailureReason) -> &'static [u8]
    ensures { result.now ≡ failure_text (failure_reason_of failure) }
{
    match failure {
        FailureReason::TooManyIncoming => b"TooManyIncoming",
        FailureReason::BucketFilter => b"BucketFilter",
        FailureReason::TableFilter => b"TableFilter",
        FailureReason::KeyNonExistent => b"KeyNonExistent",
        FailureReason::BucketFull => b"BucketFull",
        FailureReason::InvalidSelfUpdate => b"InvalidSelfUpdate",
    }
}

fn flag_word(flag: bool) -> &'static [u8]
    ensures { result.now ≡ flag_text flag }
{
    if flag { b"true" } else { b"false" }
}

impl Told {
    // The answer's name, with a space where a key, a flag or a failure follows. What remove answers is its flag alone.
    fn name(self) -> &'static [u8]
        ensures { told_text (told_of self) ≡ result.now ++ told_detail (told_of self) }
    {
        match self {
            Told::Inserted => b"Inserted",
            Told::Pending(_) => b"Pending ",
            Told::StatusUpdated(_) => b"StatusUpdated ",
            Told::ValueUpdated => b"ValueUpdated",
            Told::UpdatedBoth(_) => b"Updated ",
            Told::Updated => b"Updated",
            Told::UpdatedAndPromoted => b"UpdatedAndPromoted",
            Told::UpdatedPending => b"UpdatedPending",
            Told::NotModified => b"NotModified",
            Told::Failed(_) => b"Failed ",
            Told::FailedFilter => b"FailedFilter",
            Told::TooManyIncoming => b"TooManyIncoming",
            Told::Full => b"Full",
            Told::NodeExists => b"NodeExists",
            Told::Removed(_) => b"",
        }
    }
}

// What is told of the answer.
fn put_told(out: &mut [u8], told: Told) -> usize
    requires { longest_told ≤ length out.old }
    ensures { Put (told_text (told_of told)) out.old out.new result }
{
    let n = put_word(out, told.name());
    match told {
        Told::Pending(key) => n + put_key(&mut out[n..], key),
        Told::StatusUpdated(flag) | Told::UpdatedBoth(flag) | Told::Removed(flag) => {
            n + put_word(&mut out[n..], flag_word(flag))
        }
        Told::Failed(failure) => n + put_word(&mut out[n..], failure_word(failure)),
        _ => n,
    }
}

impl Test {
    // The reason names the node.
    fn passes(self, node: Node) -> bool
        ensures { result ≡ passes self (node_of node) }
    {
        match self {
            Test::Counts(value) => node::filter::counts(value, node.value),
            Test::CountsOther(key, value) => {
                node::filter::counts(value, node.value) & !node.key.eq(key)
            }
            Test::Incoming => node.is_connected_incoming(),
        }
    }
}

// A space and the key of the node, where it passes the test and there is room.
fn put_node(out: &mut [u8], test: Test, node: Node) -> usize
    ensures { PutKeys (keys_of (select (passes test) (node_of node ∷ []))) out.old out.new result }
{
    if out.len() < SPACED_KEY || !test.passes(node) {
        return 0;
    }
    put_spaced_key(out, node.key)
}

// The keys of those nodes that pass the test, as far as there is room.
fn put_held(out: &mut [u8], nodes: &[Node], test: Test) -> usize
    ensures { PutKeys (keys_of (select (passes test) (map node_of nodes.now))) out.old out.new result }
{
    let mut n = 0;
    for node in nodes {
        n += put_node(&mut out[n..], test, *node);
    }
    n
}

// The same of the nodes of a bucket in the storage. One function for both would take an iterator of nodes, with what it gives as a clause.
// Where there is no room it reads nothing.
fn put_stored(out: &mut [u8], held: Nodes, test: Test) -> usize
    ensures { PutKeys (keys_of (select (passes test) (nodes (bucket_in held.entry.bucket.now)))) out.old out.new result }
{
    if out.len() < SPACED_KEY {
        return 0;
    }
    let mut n = 0;
    for place in held.places() {
        n += put_node(&mut out[n..], test, storage::load_node(place));
    }
    n
}

// The same of all nodes of the table, in bucket and place order.
fn put_table(out: &mut [u8], table: FormedTable, test: Test) -> usize
    ensures { PutKeys (keys_of (select (passes test) (held_nodes num_buckets (table_of table.entry.s.now).buckets))) out.old out.new result }
{
    let mut n = 0;
    for i in 0..model::NUM_BUCKETS {
        n += put_stored(&mut out[n..], Nodes::of(storage::bucket(table.s, i)), test);
    }
    n
}

impl<'a> Reason<'a> {
    // The reason's words.
    fn words(&self) -> &'static [u8]
        ensures { reason_text (reason_of (Some self.now)) ≡ result.now }
    {
        match self {
            Reason::TableFilter(..) => b"table filter",
            Reason::BucketFilter(..) => b"bucket filter",
            Reason::IncomingLimit(_) => b"incoming limit",
            Reason::NewcomerDisconnected => b"newcomer disconnected",
            Reason::AllConnected => b"all connected",
            Reason::Pending(_) => b"pending",
            Reason::NoSuchKey => b"no such key",
            Reason::LocalKey => b"local key",
        }
    }
}

// The reason and the keys behind it: for a filter as many as its limit.
fn put_why(out: &mut [u8], why: Option<Reason>) -> usize
    requires { longest_reason ≤ length out.old }
    ensures { Put (why_text (reason_of why.entry)) out.old out.new result }
{
    let Some(reason) = &why else {
        return put_word(out, b"none");
    };
    let n = put_word(out, reason.words());
    match reason {
        Reason::TableFilter(table, key, value) => {
            let end = n + node::filter::MAX_NODES_PER_SUBNET_TABLE * SPACED_KEY;
            n + put_table(&mut out[n..end], *table, Test::CountsOther(*key, *value))
        }
        Reason::BucketFilter(b, value) => {
            let end = n + node::filter::MAX_NODES_PER_SUBNET_BUCKET * SPACED_KEY;
            n + put_held(&mut out[n..end], b.nodes(), Test::Counts(*value))
        }
        Reason::IncomingLimit(b) => n + put_held(&mut out[n..], b.nodes(), Test::Incoming),
        Reason::Pending(key) => n + put_spaced_key(&mut out[n..], *key),
        _ => n,
    }
}

// Internal: the line, put at the front of the output. It answers its length.
pub fn put_line(out: &mut [u8], told: Told, why: Option<Reason>) -> usize
    requires { explanation_room ≤ length out.old }
    ensures { Put (line (record { told = told_of told; reason = reason_of why.entry })) out.old out.new result }
{
    let mut n = put_told(out, told);
    n += put_word(&mut out[n..], b" ");
    n += put_why(&mut out[n..], why);
    n + put_word(&mut out[n..], b"\n")
}
