// Internal: the numbers that the exports return, and the bytes that an answer carries, put at the front of a lent answer. No `From` gives a
// number: it could only stand in the crate of the type, and the numbers are the exports' alone. `Reply` is this crate's, so it has its own.
#![tactic(auto)]

ghost use Rattle.std.specs.Prelude.{◌≡◌, Some, None, ◌≤◌, length};
ghost use Rattle.model.specs.Base.{first};
ghost use Rattle.model.specs.Bytes.{splice};
ghost use Rattle.node.specs.Refusal.{number_of};
ghost use Rattle.bucket.specs.Calls.{insert_result_of, failure_reason_of, update_result_of, records_of};
ghost use Rattle.codes.specs.Carried.{carried_bytes};
ghost use Rattle.codes.specs.Codes.{refused_code, failed_code, update_code, bucket_insert_code, bucket_insert_bytes, applied_code, applied_bytes, answer_size};

pub mod answers;

use bucket::{EndedPending, FailureReason, InsertResult, UpdateResult};
use key::Key;
use node::Refusal;
use storage::Layout;

// What an answer's bytes have room for at the least: a record.
#[derive(Clone, Copy)]
pub struct Answer {}

impl Answer {
    pub const BYTES: usize = Layout::RECORD;
}

// What an answer carries at its front.
#[derive(Clone, Copy)]
pub enum Carried {
    Key(Key),
    Record(EndedPending),
}

// The number that an export returns, and what its answer carries.
#[derive(Clone, Copy)]
pub struct Reply {
    pub code: u32,
    pub carried: Option<Carried>,
}

impl Reply {
    // The number alone.
    fn bare(code: u32) -> Reply
        ensures { result ≡ record { code = code; carried = None } }
    {
        Reply {
            code,
            carried: None,
        }
    }

    // 1, with the key that is to be asked for.
    fn of_key(key: Key) -> Reply
        ensures { result ≡ record { code = 1; carried = Some (Carried.Key key) } }
    {
        Reply {
            code: 1,
            carried: Some(Carried::Key(key)),
        }
    }

    // Internal: puts what is carried at the front of the answer, and gives the number.
    #[tactic(auto, using(crate::proofs::Put::key_put, crate::proofs::Put::record_put_over, laws::proofs::Parts::splice_nil))]
    pub fn put(self, answer: &mut [u8]) -> u32
        requires { answer_size ≤ length answer.old }
        ensures code { result ≡ self.code }
        ensures answer_after { answer.new ≡ splice answer.old 0 (carried_bytes self.carried) }
    {
        match self.carried {
            None => {}
            Some(Carried::Key(key)) => key.store(&mut answer[0..Layout::KEY]),
            Some(Carried::Record(ended)) => {
                header::store_record(&mut answer[0..Layout::RECORD], Some(ended));
            }
        }
        self.code
    }
}

// Internal: the number of a refusal.
pub fn refused(refusal: Refusal) -> u32
    ensures { result ≡ refused_code (number_of refusal) }
{
    0x1_0000 + u32::from(refusal.number())
}

// Internal: the number of a reason.
pub fn reason_code(reason: FailureReason) -> u32
    ensures { result ≡ failed_code (failure_reason_of reason) }
{
    match reason {
        FailureReason::TooManyIncoming => 16,
        FailureReason::BucketFilter => 17,
        FailureReason::TableFilter => 18,
        FailureReason::KeyNonExistent => 19,
        FailureReason::BucketFull => 20,
        FailureReason::InvalidSelfUpdate => 21,
    }
}

// Internal: the number of an update's result.
pub fn update_code(res: UpdateResult) -> u32
    ensures { result ≡ update_code (update_result_of res) }
{
    match res {
        UpdateResult::NotModified => 0,
        UpdateResult::Updated => 1,
        UpdateResult::UpdatedAndPromoted => 2,
        UpdateResult::UpdatedPending => 3,
        UpdateResult::Failed(reason) => reason_code(reason),
    }
}

// The reply of a bucket insert: the number of its result, and the key that it names.
impl From<InsertResult> for Reply {
    ghost from_gives = { λ x y. (y.code ≡ bucket_insert_code (insert_result_of x)) × (carried_bytes y.carried ≡ bucket_insert_bytes (insert_result_of x)) };

    fn from(x: InsertResult) -> Reply {
        match x {
            InsertResult::Inserted => Reply::bare(0),
            InsertResult::Pending(key) => Reply::of_key(key),
            InsertResult::FailedFilter => Reply::bare(2),
            InsertResult::TooManyIncoming => Reply::bare(3),
            InsertResult::Full => Reply::bare(4),
            InsertResult::NodeExists => Reply::bare(5),
        }
    }
}

// The reply of a record, or of none: 1 with the record, or 0.
impl From<Option<EndedPending>> for Reply {
    ghost from_gives = { λ x y. (y.code ≡ applied_code (first (records_of x))) × (carried_bytes y.carried ≡ applied_bytes (first (records_of x))) };

    #[tactic(auto, using(crate::proofs::Put::record_carried))]
    fn from(x: Option<EndedPending>) -> Reply {
        match x {
            None => Reply::bare(0),
            Some(ended) => Reply {
                code: 1,
                carried: Some(Carried::Record(ended)),
            },
        }
    }
}
