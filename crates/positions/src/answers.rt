// What is checked of the answers, and the answers in words.
ghost use Rattle.std.specs.Prelude.{◌≡◌};
ghost use Rattle.key.specs.Key.{num};
ghost use Rattle.node.specs.Refusal.{reply_of};
ghost use Rattle.bucket.specs.Calls.{insert_result_of, records_of};
ghost use Rattle.positions.specs.Positions.{names_key, applied_key};

use bucket::{EndedPending, Ending, InsertResult, UpdateResult};
use key::Key;
use node::Refusal;
use std::fmt;

// Is it a pending that names the node of this key?
pub(crate) fn names(answer: Result<InsertResult, Refusal>, key: Key) -> bool
    ensures { result ≡ names_key (num key) (reply_of insert_result_of answer) }
{
    matches!(answer, Ok(InsertResult::Pending(k)) if k.eq(key))
}

// Was the pending of this key ended?
pub(crate) fn applied_key(answer: Result<Option<EndedPending>, Refusal>, key: Key) -> bool
    ensures { result ≡ applied_key (num key) (reply_of records_of answer) }
{
    matches!(answer, Ok(Some(ended)) if ended.key.eq(key))
}

// An answer, or a part of one, as it is written.
#[derive(Clone, Copy)]
pub(crate) struct Shown<T>(pub T);

// A refused call by its question, and an answered one by its result.
impl<T: Copy> fmt::Display for Shown<Result<T, Refusal>>
where
    Shown<T>: fmt::Display,
{
    fn fmt<W: fmt::Write>(&self, f: &mut fmt::Formatter<W>) -> fmt::Result {
        match self.0 {
            Ok(result) => write!(f, "{}", Shown(result)),
            Err(refusal) => write!(f, "{refusal}"),
        }
    }
}

impl fmt::Display for Shown<InsertResult> {
    fn fmt<W: fmt::Write>(&self, f: &mut fmt::Formatter<W>) -> fmt::Result {
        match self.0 {
            InsertResult::Pending(key) => write!(f, "Pending naming {}", Shown(key)),
            result => write!(f, "{result:?}"),
        }
    }
}

impl fmt::Display for Shown<UpdateResult> {
    fn fmt<W: fmt::Write>(&self, f: &mut fmt::Formatter<W>) -> fmt::Result {
        write!(f, "{:?}", self.0)
    }
}

impl fmt::Display for Shown<Option<EndedPending>> {
    fn fmt<W: fmt::Write>(&self, f: &mut fmt::Formatter<W>) -> fmt::Result {
        let Some(EndedPending { key, ending }) = self.0 else {
            return write!(f, "not applied");
        };
        match ending {
            Ending::Placed(None) => write!(f, "{} inserted", Shown(key)),
            Ending::Placed(Some(evicted)) => {
                write!(f, "{} inserted, {} evicted", Shown(key), Shown(evicted.key))
            }
            _ => write!(f, "{} dropped", Shown(key)),
        }
    }
}

// An index, or none.
impl fmt::Display for Shown<Option<usize>> {
    fn fmt<W: fmt::Write>(&self, f: &mut fmt::Formatter<W>) -> fmt::Result {
        match self.0 {
            Some(index) => write!(f, "{index}"),
            None => write!(f, "none"),
        }
    }
}

// A key below 2^64.
impl fmt::Display for Shown<Key> {
    fn fmt<W: fmt::Write>(&self, f: &mut fmt::Formatter<W>) -> fmt::Result {
        write!(f, "{}", self.0.w3)
    }
}
