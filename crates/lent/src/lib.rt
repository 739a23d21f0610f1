// A bucket that the host lends: the call updates it in place. Each function calls the by-value method and stores the bucket that it leaves.
#![tactic(auto)]

ghost use Rattle.std.specs.Prelude.{◌≡◌};
ghost use Rattle.node.specs.Refusal.{reply_of};
ghost use Rattle.bucket.specs.Calls.{insert_result_of, update_result_of, insert_call, update_status_call};

use bucket::{InsertResult, KBucket, Step, UpdateResult};
use key::Key;
use node::{Code, Node, Refusal};

// Inserts a node: the first match of 01, Insert.
pub fn insert(b: &mut KBucket, node: Node, time: u64) -> Result<InsertResult, Refusal>
    ensures { insert_call b.old node time ≡ (reply_of insert_result_of result, b.new) }
{
    let step = b.insert(node, time);
    *b = step.bucket;
    step.result
}

// Takes the node of the key out, changes its status and inserts it; direction 2 is none given. Key, state and direction are what the call
// is given; nothing is known of them together.
pub fn update_status(
    b: &mut KBucket,
    key: Key,
    state: Code,
    direction: Code,
) -> Result<UpdateResult, Refusal>
    ensures { update_status_call b.old key state direction ≡ (reply_of update_result_of result, b.new) }
{
    let step = b.update_status(key, state, direction);
    *b = step.bucket;
    step.result
}

// `insert` on a bucket of the function's own. It promises what `KBucket::insert` does. It and `update_status_by` stay by a rule of the
// project: they are public, and four edits are of them.
pub fn insert_by(
    mut b: KBucket,
    node: Node,
    time: u64,
) -> Step<KBucket, Result<InsertResult, Refusal>>
    ensures { insert_call b node time ≡ (reply_of insert_result_of result.result, result.bucket) }
{
    let result = insert(&mut b, node, time);
    Step { bucket: b, result }
}

// `update_status` on a bucket of the function's own.
pub fn update_status_by(
    mut b: KBucket,
    key: Key,
    state: Code,
    direction: Code,
) -> Step<KBucket, Result<UpdateResult, Refusal>>
    ensures { update_status_call b key state direction ≡ (reply_of update_result_of result.result, result.bucket) }
{
    let result = update_status(&mut b, key, state, direction);
    Step { bucket: b, result }
}
