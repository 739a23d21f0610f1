// The calls of each row: a key is its distance, since the local key is zero.
ghost use Rattle.std.specs.Prelude.{◌≡◌, [], ◌∷◌, ◌+◌, ◌≤◌};
ghost use Rattle.std.proofs.Math.Option.{none, some};
ghost use Rattle.model.specs.Node.{Ending};
ghost use Rattle.model.specs.Bucket.{first_connected_pos};
ghost use Rattle.model.specs.Result as results;
ghost use Rattle.model.specs.Result.{BucketInsertResult, Reply};
ghost use Rattle.key.specs.Answers.{option_of};
ghost use Rattle.node.specs.Node.{node_of};
ghost use Rattle.node.specs.Refusal.{reply_of};
ghost use Rattle.bucket.specs.Bucket.{bucket_of, key_at};
ghost use Rattle.bucket.specs.Calls.{insert_result_of, update_result_of, records_of};
ghost use Rattle.positions.specs.Positions.{plain, addressed, node_from, emptied, filled, index_of};

use bucket::{EndedPending, InsertResult, KBucket, Step, UpdateResult};
use key::{ClosestBucketsIter, Key};
use node::{Code, Node, NodeStatus, Refusal, Value};

// What two inserts answered.
pub(crate) type Inserts = (Result<InsertResult, Refusal>, Result<InsertResult, Refusal>);

// A node with no address. This and `empty` stand in lent_run too (lends).
fn node_from(k: u64, state: Code, direction: Code) -> Node
    ensures { result ≡ node_from k plain state direction }
{
    Node {
        key: Key::from(k),
        value: Value::default(),
        status: NodeStatus { state, direction },
    }
}

// A disconnected outgoing node with the address 10.0.0.d.
fn node_at(k: u64, d: u8) -> Node
    ensures { result ≡ node_from k (addressed d) 0 0 }
{
    let value = Value {
        flag: 1,
        a: 10,
        d,
        ..Value::default()
    };
    node_from(k, 0, 0).with_value(value)
}

// An empty bucket with timeout 60,000.
fn empty(max_incoming: usize, filter: Code) -> KBucket
    ensures { result ≡ emptied max_incoming filter }
{
    KBucket::new(60000, max_incoming, filter).bucket
}

// Inserts n outgoing nodes of one state at time 0, with the keys from k on.
fn fill(mut b: KBucket, k: u64, n: u64, state: Code) -> KBucket
    requires { k + n ≤ 64 }
    ensures { result ≡ filled n k state b }
{
    for key in k..k + n {
        b = b.insert(node_from(key, state, 0), 0).bucket;
    }
    b
}

// 1 and 2: the index of the key whose highest word is w0 and whose lowest is w3.
pub(crate) fn index_of(w0: u64, w3: u64) -> Option<usize>
    ensures { option_of result ≡ index_of w0 w3 }
{
    let key = Key {
        w0,
        w3,
        ..Key::default()
    };
    Key::default().bucket_index(key)
}

// 5: target 0, first four visits.
pub(crate) fn row5() -> [Option<usize>; 4]
    ensures { result ≡ Some 0 ∷ Some 0 ∷ Some 1 ∷ Some 2 ∷ [] }
{
    let mut visit = ClosestBucketsIter::new(Key::default());
    [visit.next(), visit.next(), visit.next(), visit.next()]
}

// 6: pending at 100, timeout 60,000; applied at 60,099; applied at 60,100.
pub(crate) fn row6() -> (
    Result<Option<EndedPending>, Refusal>,
    Result<Option<EndedPending>, Refusal>,
)
    ensures early_value { reply_of records_of result.0 ≡ Reply.Answered [] }
    ensures due_value { reply_of records_of result.1 ≡ Reply.Answered (record { key = 48; ending = Ending.Placed (some (node_of (node_from 32 plain 0 0))) } ∷ []) }
{
    let full = fill(empty(16, 0), 32, 16, 0);
    let pending = full.insert(node_from(48, 1, 0), 100).bucket;
    let early = pending.apply_pending(60099);
    let due = pending.apply_pending(60100);
    (early.result, due.result)
}

// 7: two disconnected then one connected; connected removed.
pub(crate) fn row7() -> KBucket
    ensures result_value { first_connected_pos (bucket_of result) ≡ none }
    ensures count_value { result.count ≡ 2 }
    ensures first_connected_pos_value { result.first_connected_pos ≡ 2 }
{
    let two = fill(empty(16, 0), 32, 2, 0);
    fill(two, 34, 1, 1).remove(Key::from(34), 0).bucket
}

// 8: max_incoming 0; connected incoming; disconnected incoming.
pub(crate) fn row8() -> Inserts
    ensures first_value { result.0 ≡ Ok InsertResult.TooManyIncoming }
    ensures second_value { result.1 ≡ Ok InsertResult.Inserted }
{
    let b = empty(0, 0);
    let connected = b.insert(node_from(32, 1, 1), 0);
    let disconnected = b.insert(node_from(32, 0, 1), 0);
    (connected.result, disconnected.result)
}

// 9: one disconnected, 15 connected; two new connected outgoing.
pub(crate) fn row9() -> Inserts
    ensures first_value { reply_of insert_result_of result.0 ≡ Reply.Answered (BucketInsertResult.Pending 32) }
    ensures second_value { reply_of insert_result_of result.1 ≡ Reply.Answered BucketInsertResult.Full }
{
    let one = fill(empty(16, 0), 32, 1, 0);
    let full = fill(one, 33, 15, 1);
    let first = full.insert(node_from(48, 1, 0), 0);
    let second = first.bucket.insert(node_from(49, 1, 0), 0);
    (first.result, second.result)
}

// 10: connected A, B; A set connected.
pub(crate) fn row10() -> Step<KBucket, Result<UpdateResult, Refusal>>
    ensures bucket_value { key_at result.bucket 0 ≡ 33 }
    ensures bucket_value_2 { key_at result.bucket 1 ≡ 32 }
    ensures answer_value { reply_of update_result_of result.result ≡ Reply.Answered results.UpdateResult.NotModified }
{
    fill(empty(16, 0), 32, 2, 1).update_status(Key::from(32), 1, 2)
}

// 12: bucket filter on, 10.0.0.1 and 10.0.0.2 held once each; a new disconnected key with 10.0.0.3; with 10.0.0.2.
pub(crate) fn row12() -> Inserts
    ensures first_value { result.0 ≡ Ok InsertResult.FailedFilter }
    ensures second_value { result.1 ≡ Ok InsertResult.Inserted }
{
    let one = empty(16, 1).insert(node_at(32, 1), 0).bucket;
    let two = one.insert(node_at(33, 2), 0).bucket;
    let third = two.insert(node_at(34, 3), 0);
    let again = two.insert(node_at(34, 2), 0);
    (third.result, again.result)
}
