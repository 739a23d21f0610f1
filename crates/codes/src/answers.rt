// Internal: the numbers that the exports return for what the table's calls answer, with what an answer carries.
ghost use Rattle.std.specs.Prelude.{◌≡◌, ◌&&◌, ◌≤◌, eqb};
ghost use Rattle.std.proofs.Math.Option.{some};
ghost use Rattle.model.specs.Base.{given};
ghost use Rattle.model.specs.Question.{max_count};
ghost use Rattle.node.specs.Node.{value_codes, status_codes};
ghost use Rattle.node.specs.Refusal.{failed_of};
ghost use Rattle.on_key.specs.Answers.{failed_of_two, failed_of_five};
ghost use Rattle.bucket_update.specs.Results.{table_insert_result_of};
ghost use Rattle.entry.specs.Kind.{kind_of};
ghost use Rattle.codes.specs.Carried.{carried_bytes};
ghost use Rattle.codes.specs.Codes.{refused_code, status_code, insert_code, insert_bytes, entry_code};

use crate::Reply;
use bucket_update::InsertResult;
use entry::EntryKind;
use node::{NodeFields, NodeStatus, Refusal, Value};

// 2 * state + direction.
fn status_code(status: NodeStatus) -> u32
    ensures { (result ≡ status_code (eqb status.state 1) (eqb status.direction 1)) × (result ≤ 3) }
{
    2 * u32::from(status.is_connected()) + u32::from(status.is_incoming())
}

// Internal: the number of an entry's kind.
pub fn kind_code(kind: EntryKind) -> u32
    ensures { result ≡ entry_code (kind_of kind) }
{
    match kind {
        EntryKind::Absent => 0,
        EntryKind::SelfEntry => 1,
        EntryKind::Present(status) => 16 + status_code(status),
        EntryKind::Pending(status) => 32 + status_code(status),
    }
}

// Internal: the number of a count of at most 4,096: of entries found, bytes of a line, nodes written or read. By `as`: `try_from` would
// answer a Result, whose error cannot be.
pub fn count(n: usize) -> u32
    requires { n ≤ max_count }
    ensures { result ≡ n }
{
    n as u32
}

// The first failed question before 6, or else 6.
fn refused_short<T: Copy>(asked: Result<T, Refusal>) -> u32
    ensures { result ≡ refused_code (given (failed_of asked) 6) }
{
    crate::refused(asked.err().unwrap_or(Refusal::Output))
}

// Internal: what a call on the storage alone returns where its answer has no room.
pub fn short_storage(s: &[u8]) -> u32
    ensures { result ≡ refused_code (given (failed_of_two s.now) 6) }
{
    refused_short(on_key::asked_storage(s))
}

// Internal: what a call with a node returns where its answer has no room. Its parameters are the call's, in the order of the C interface.
pub fn short_node(s: &[u8], key: &[u8], value: Value, status: NodeStatus, time: u64) -> u32
    ensures { result ≡ refused_code (given (failed_of_five key.now (value_codes value && status_codes status) (some time) s.now) 6) }
{
    let fields = NodeFields::of(value, status);
    refused_short(on_key::asked(s, key, fields, Some(time)))
}

// The reply of an insert: the number of its result, and the key that it names.
impl From<InsertResult> for Reply {
    ghost from_gives = { λ x y. (y.code ≡ insert_code (table_insert_result_of x)) × (carried_bytes y.carried ≡ insert_bytes (table_insert_result_of x)) };

    fn from(x: InsertResult) -> Reply {
        match x {
            InsertResult::Inserted => Reply::bare(0),
            InsertResult::Pending(key) => Reply::of_key(key),
            InsertResult::StatusUpdated(promoted) => Reply::bare(2 + u32::from(promoted)),
            InsertResult::ValueUpdated => Reply::bare(4),
            InsertResult::Updated(promoted) => Reply::bare(5 + u32::from(promoted)),
            InsertResult::UpdatedPending => Reply::bare(7),
            InsertResult::Failed(reason) => Reply::bare(crate::reason_code(reason)),
        }
    }
}
