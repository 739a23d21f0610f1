ghost use Rattle.std.specs.Prelude.{◌≡◌, true};
ghost use Rattle.model.specs.Layout.{ending_kind};
ghost use Rattle.bucket.specs.Ending.{ending_of, ending_codes};

use key::Key;
use node::Node;

// How a pending ended: placed, with the node that it evicted, if any; dropped because 16 are held and place 0 is connected, by the bucket
// filter, by the incoming limit; cleared by a direct insert of its key, or because place 0 was confirmed.
#[derive(Clone, Copy)]
pub enum Ending {
    Placed(Option<Node>),
    FirstConnected,
    BucketFilter,
    TooManyIncoming,
    Inserted,
    FirstConfirmed,
}

// The record of an ended pending. A node that it names has codes in range.
#[derive(Clone, Copy)]
pub struct EndedPending {
    pub key: Key,
    pub ending: Ending,
    pub ghost codes: { ending_codes ending ≡ true },
}

impl Ending {
    // The kind that stands for the ending in a record. By a match: an ending may hold a node, so that its variants are no numbers.
    pub fn kind(self) -> u8
        ensures { result ≡ ending_kind (ending_of self) }
    {
        match self {
            Ending::Placed(None) => 0,
            Ending::Placed(Some(_)) => 1,
            Ending::FirstConnected => 2,
            Ending::BucketFilter => 3,
            Ending::TooManyIncoming => 4,
            Ending::Inserted => 5,
            Ending::FirstConfirmed => 6,
        }
    }
}
