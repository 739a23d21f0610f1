// Buckets and a run of found nodes that are lent, and what the calls on them answer and leave.
ghost use Rattle.std.specs.Prelude.{◌≡◌};
ghost use Rattle.model.specs.Result as results;
ghost use Rattle.model.specs.Result.{Reply};
ghost use Rattle.node.specs.Refusal.{reply_of};
ghost use Rattle.bucket.specs.Bucket.{key_at};
ghost use Rattle.bucket.specs.Calls.{insert_result_of, update_result_of};
ghost use Rattle.lent_run.specs.Lends.{node_from, emptied, two, malformed, found_at, nearest_first};

use bucket::{InsertResult, KBucket, Step, UpdateResult};
use key::Key;
use node::{Node, NodeStatus, Refusal, Value};
use order::FoundNode;

// A connected outgoing node with no address. This and `empty` are of positions too, with more parameters: a crate that the two programs
// share would be longer than both.
fn node_from(k: u64) -> Node
    ensures { result ≡ node_from k }
{
    Node {
        key: Key::from(k),
        value: Value::default(),
        status: NodeStatus {
            state: 1,
            direction: 0,
        },
    }
}

// An empty bucket with timeout 60,000 and no filter.
fn empty() -> KBucket
    ensures { result ≡ emptied }
{
    KBucket::new(60000, 16, 0).bucket
}

// An empty bucket whose first connected place is 1.
fn broken() -> KBucket
    ensures { result ≡ malformed emptied }
{
    KBucket {
        first_connected_pos: 1,
        ..empty()
    }
}

// An insert into a malformed bucket is refused, and the bucket keeps its bytes.
pub(crate) fn refused_insert() -> Step<KBucket, Result<InsertResult, Refusal>>
    ensures answer_value { result.result ≡ Err Refusal.Form }
    ensures bucket_value { result.bucket ≡ malformed emptied }
{
    lent::insert_by(broken(), node_from(32), 0)
}

// So is a status step.
pub(crate) fn refused_status() -> Step<KBucket, Result<UpdateResult, Refusal>>
    ensures answer_value { result.result ≡ Err Refusal.Form }
    ensures bucket_value { result.bucket ≡ malformed emptied }
{
    lent::update_status_by(broken(), Key::from(32), 1, 2)
}

// Connected 32 and 33 are inserted.
pub(crate) fn inserted() -> Step<KBucket, Result<InsertResult, Refusal>>
    ensures answer_value { reply_of insert_result_of result.result ≡ Reply.Answered results.BucketInsertResult.Inserted }
    ensures bucket_value { result.bucket ≡ two }
{
    let one = lent::insert_by(empty(), node_from(32), 0);
    lent::insert_by(one.bucket, node_from(33), 0)
}

// 32 is set connected: it moves behind 33.
pub(crate) fn moved() -> Step<KBucket, Result<UpdateResult, Refusal>>
    ensures answer_value { reply_of update_result_of result.result ≡ Reply.Answered results.UpdateResult.NotModified }
    ensures bucket_value { key_at result.bucket 0 ≡ 33 }
    ensures bucket_value_2 { key_at result.bucket 1 ≡ 32 }
{
    lent::update_status_by(inserted().bucket, Key::from(32), 1, 2)
}

// A node found at this distance, in this place.
fn found(distance: u64, place: usize) -> FoundNode
    ensures { result ≡ found_at distance place }
{
    FoundNode {
        distance: Key::from(distance),
        place,
    }
}

// Three found nodes are put in the order of their distance; the rest of the array stays.
pub(crate) fn ordered() -> [FoundNode; 16]
    ensures { result ≡ nearest_first }
{
    let mut run = [found(0, 0); 16];
    run[0] = found(3, 0);
    run[1] = found(1, 1);
    run[2] = found(2, 2);
    order::order(&mut run[0..3]);
    run
}
