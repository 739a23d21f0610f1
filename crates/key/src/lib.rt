// Keys, their XOR distance and bucket index (key.rs), and the order in which a closest call visits the buckets (ClosestBucketsIter of
// kbucket.rs).
#![tactic(auto)]

ghost use Rattle.std.specs.Prelude.{◌≡◌, suc, ◌-◌, ◌*◌, ◌≤◌, ◌<◌, ltb, length};
ghost use Rattle.std.specs.Int.Count.{count_leading_zeros};
ghost use Rattle.model.specs.Base.{same, first};
ghost use Rattle.model.specs.Bytes.{number, bytes};
ghost use Rattle.model.specs.Key.{distance, log2_distance, bucket_index, test_bit};
ghost use Rattle.model.specs.Sizes.{key_size};
ghost use Rattle.model.specs.Visit.{sets_down, clears_up, visits};
ghost use Rattle.key.specs.Key.{num};
ghost use Rattle.key.specs.Answers.{option_of};
ghost use Rattle.key.specs.Visits.{remaining, BitsFrom};

// A key of 256 bits, or the distance of two: four words, w0 the most significant. The words are fields of their own: each is read by its name,
// with no index to bound.
#[derive(Clone, Copy, PartialEq, Eq, PartialOrd, Default, Debug)]
pub struct Key {
    pub w0: u64,
    pub w1: u64,
    pub w2: u64,
    pub w3: u64,
}

impl Key {
    // How many bytes a key has.
    pub const BYTES: usize = 32;

    // How many bits a key has.
    pub const BITS: usize = 256;

    // The key of 32 bytes, the first the most significant.
    pub fn from_bytes(bytes: &[u8; Key::BYTES]) -> Key
        ensures { num result ≡ number bytes.now }
    {
        Key::load(bytes)
    }

    // The 32 bytes of the key.
    pub fn to_bytes(self) -> [u8; Key::BYTES]
        ensures { result ≡ bytes key_size (num self) }
    {
        let mut out = [0; Key::BYTES];
        self.store(&mut out);
        out
    }

    // Internal: the key of a run of 32 bytes. Not of an array: a part of a storage, of a node or of a record is a slice, and each caller would
    // make the array by `as_array().unwrap()`.
    pub fn load(s: &[u8]) -> Key
        requires { length s.now ≡ key_size }
        ensures { num result ≡ number s.now }
    {
        Key {
            w0: words::get_u64(&s[0..8]),
            w1: words::get_u64(&s[8..16]),
            w2: words::get_u64(&s[16..24]),
            w3: words::get_u64(&s[24..32]),
        }
    }

    // Internal: a run of 32 bytes becomes that of the key. A slice, as `words::put_u64` says.
    pub fn store(self, s: &mut [u8])
        requires { length s.old ≡ key_size }
        ensures { s.new ≡ bytes key_size (num self) }
    {
        words::put_u64(&mut s[0..8], self.w0);
        words::put_u64(&mut s[8..16], self.w1);
        words::put_u64(&mut s[16..24], self.w2);
        words::put_u64(&mut s[24..32], self.w3);
    }

    // The keys are equal. It is the derived `==`, which by itself ensures that the words are equal and says nothing of the numbers.
    pub fn eq(self, other: Key) -> bool
        ensures { result ≡ same (num self) (num other) }
    {
        self == other
    }

    // The number of the key is less than that of the other: of two distances, the nearer. It is the derived `<`, which by itself ensures an
    // `Ordering` of the four words.
    pub fn less(self, other: Key) -> bool
        ensures { result ≡ ltb (num self) (num other) }
    {
        self < other
    }

    // The XOR of the two keys.
    pub fn distance(self, other: Key) -> Key
        ensures { num result ≡ distance (num self) (num other) }
    {
        Key {
            w0: self.w0 ^ other.w0,
            w1: self.w1 ^ other.w1,
            w2: self.w2 ^ other.w2,
            w3: self.w3 ^ other.w3,
        }
    }

    // How many zero bits stand before the highest set bit. By `as`: std counts bits in a u32, of which no usize is `From`.
    pub fn leading_zeros(self) -> usize
        ensures { result ≡ count_leading_zeros 256 (num self) }
    {
        if self.w0 != 0 {
            return self.w0.leading_zeros() as usize;
        }
        if self.w1 != 0 {
            return 64 + self.w1.leading_zeros() as usize;
        }
        if self.w2 != 0 {
            return 128 + self.w2.leading_zeros() as usize;
        }
        192 + self.w3.leading_zeros() as usize
    }

    // 256 less the leading zero bits of the distance, 1 to 256; none where the keys are equal.
    pub fn log2_distance(self, other: Key) -> Option<usize>
        ensures { option_of result ≡ log2_distance (num self) (num other) }
    {
        let bits = Key::BITS - self.distance(other).leading_zeros();
        (bits != 0).then_some(bits)
    }

    // The index that a distance has, 0 to 255: one less than its log2 distance; none for distance 0.
    pub fn index(self) -> Option<usize>
        ensures { option_of result ≡ bucket_index 0 (num self) }
    {
        (Key::BITS - self.leading_zeros()).checked_sub(1)
    }

    // The index of the bucket that the other key belongs to in the table of this one; none for this key itself.
    pub fn bucket_index(self, other: Key) -> Option<usize>
        ensures { option_of result ≡ bucket_index (num self) (num other) }
    {
        self.distance(other).index()
    }

    // Bit i is set. A key has no set bit from 256 on.
    pub fn bit(self, i: usize) -> bool
        ensures { result ≡ test_bit (num self) i }
    {
        (self.word(i / 64) >> (i % 64)) & 1 == 1
    }

    // Internal: word q, the least significant first; 0 from 4 on.
    fn word(self, q: usize) -> u64
        ensures { BitsFrom (num self) (q * 64) result }
    {
        match q {
            0 => self.w3,
            1 => self.w2,
            2 => self.w1,
            3 => self.w0,
            _ => 0,
        }
    }
}

// The key of a word, which is its number.
impl From<u64> for Key {
    ghost use Rattle.key.specs.Key.{key_from};

    ghost from_gives = { λ k key. key ≡ key_from k };

    fn from(k: u64) -> Key {
        Key {
            w3: k,
            ..Key::default()
        }
    }
}

// The highest set bit of a word below bit k. This and the next are two functions, since the direction is what they are.
fn last_set(w: u64, k: usize) -> Option<usize>
    requires { (0 < k) × (k ≤ 64) }
    ensures { option_of result ≡ first (sets_down w k) }
{
    let below = w & (u64::MAX >> (64 - k));
    (64 - below.leading_zeros() as usize).checked_sub(1)
}

// The lowest clear bit of a word from bit k on.
fn first_clear(w: u64, k: usize) -> Option<usize>
    requires { k < 64 }
    ensures { option_of result ≡ first (clears_up w k (64 - k)) }
{
    let j = k + (w >> k).trailing_ones() as usize;
    (j < 64).then_some(j)
}

// Where an iterator over the buckets stands.
#[derive(Clone, Copy)]
pub enum ClosestBucketsIterState {
    // Nothing is visited yet; the bucket visited first.
    Start(usize),
    // The set bits of the distance, downward; the bucket visited last.
    ZoomIn(usize),
    // The clear bits of the distance, upward; the bucket visited last.
    ZoomOut(usize),
    // All are visited.
    Done,
}

// The buckets in the order in which a closest call visits them.
#[derive(Clone, Copy)]
pub struct ClosestBucketsIter {
    // The distance from the local key to the target.
    pub distance: Key,
    pub state: ClosestBucketsIterState,
}

impl ClosestBucketsIter {
    // Internal: starts at the bucket of the highest set bit of the distance, or at bucket 0.
    pub fn new(distance: Key) -> ClosestBucketsIter
        ensures { remaining result ≡ visits (num distance) }
    {
        match distance.index() {
            Some(i) => ClosestBucketsIter {
                distance,
                state: ClosestBucketsIterState::Start(i),
            },
            None => ClosestBucketsIter {
                distance,
                state: ClosestBucketsIterState::Start(0),
            },
        }
    }

    // The next set bit of the distance below i, word by word. No `for`: the first step begins inside a word, each later one at a word's
    // edge, and no bound on i is asked.
    fn next_in(self, i: usize) -> Option<usize>
        ensures { option_of result ≡ first (sets_down (num self.distance) i) }
    {
        let mut k = i;
        while 0 < k {
            let q = (k - 1) / 64;
            let w = self.distance.word(q);
            if let Some(j) = last_set(w, k - q * 64) {
                return Some(q * 64 + j);
            }
            k = q * 64;
        }
        None
    }

    // The next clear bit of the distance above i, word by word, as `next_in`.
    fn next_out(self, i: usize) -> Option<usize>
        ensures { option_of result ≡ first (clears_up (num self.distance) (suc i) (255 - i)) }
    {
        let mut k = i;
        while k < 255 {
            let q = (k + 1) / 64;
            let w = self.distance.word(q);
            if let Some(j) = first_clear(w, k + 1 - q * 64) {
                return Some(q * 64 + j);
            }
            k = q * 64 + 63;
        }
        None
    }
}

impl Iterator for ClosestBucketsIter {
    ghost use Rattle.std.specs.Iterator.{YieldsFirst, item_count};
    ghost use Rattle.key.specs.Visits.{remaining};

    type Item = usize;

    ghost next_gives = { YieldsFirst remaining };

    ghost remaining = { item_count remaining };

    // Internal: the first of what remains.
    fn next(&mut self) -> Option<usize> {
        match self.state {
            ClosestBucketsIterState::Start(i) => {
                self.state = ClosestBucketsIterState::ZoomIn(i);
                Some(i)
            }
            ClosestBucketsIterState::ZoomIn(i) => match self.next_in(i) {
                Some(j) => {
                    self.state = ClosestBucketsIterState::ZoomIn(j);
                    Some(j)
                }
                None => {
                    self.state = ClosestBucketsIterState::ZoomOut(0);
                    Some(0)
                }
            },
            ClosestBucketsIterState::ZoomOut(i) => match self.next_out(i) {
                Some(j) => {
                    self.state = ClosestBucketsIterState::ZoomOut(j);
                    Some(j)
                }
                None => {
                    self.state = ClosestBucketsIterState::Done;
                    None
                }
            },
            ClosestBucketsIterState::Done => None,
        }
    }
}
