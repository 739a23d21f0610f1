// The index of a bucket.
ghost use Rattle.std.specs.Prelude.{◌≡◌, ◌<◌};
ghost use Rattle.model.specs.Table.{num_buckets};
ghost use Rattle.key.specs.Key.{num};
ghost use Rattle.well_formed.specs.Tests.{of_index};

use key::Key;

// The index that the keys of a bucket have in the table of the local key.
#[derive(Clone, Copy)]
pub struct Index {
    pub local: Key,
    pub i: usize,
    pub ghost below: { i < num_buckets },
}

impl Index {
    // Internal: the key has this index. By the leading zeros: by `bucket_index`, an `Option`, the table filter's walk of 4,047 nodes takes a
    // tenth to a sixth longer, and with `counts` alone in the filter too it has missed its bar of 1.8 (docs/MEASUREMENTS.md, last section).
    pub(crate) fn is_of(self, key: Key) -> bool
        ensures { result ≡ of_index (num self.local) self.i (num key) }
    {
        Key::BITS - self.local.distance(key).leading_zeros() == self.i + 1
    }
}
