// A record of the list: 128 bytes, big-endian, unused bytes zero.
//
//   0    the call's number
//   1    the length of the key; how many distances; how many bytes a write has
//   2    the key, target or local key, at most 33 bytes
//   35   state; max_incoming of `new`
//   36   direction; table filter of `new`; filter of `b_new`
//   37   address flag; predicate; bucket filter of `new`
//   38   a, b, c, d
//   42   slot, 8 bytes
//   50   now; timeout of `new`; 8 bytes
//   58   the length of the storage or the bucket that is handed over, 4 bytes
//   62   n; where a write begins; 8 bytes. Of an insert: year, month, day, minute, 2 bytes each
//   70   the length of the output or the answer, 4 bytes
//   74   the code that the Rust's answer has, 4 bytes
//   78   the checksum of what the call may write, after the call, 8 bytes
//   86   five distances of 8 bytes each; the bytes of a write. Of an insert: how many numbers of windows, how many of closed dates,
//        1 byte each; then 13 numbers of windows and 7 of closed dates, 2 bytes each
ghost use Rattle.std.specs.Prelude.{◌≡◌, length};

use node::{Code, Slot, Value};

// Where the fields stand behind the four octets.
const SLOT_AT: usize = 42;

const TIME_AT: usize = SLOT_AT + Value::SLOT;

const SIZE_AT: usize = TIME_AT + 8;

const COUNT_AT: usize = SIZE_AT + 4;

const ROOM_AT: usize = COUNT_AT + 8;

const CODE_AT: usize = ROOM_AT + 4;

const SUM_AT: usize = CODE_AT + 4;

const REST_AT: usize = SUM_AT + 8;

// The numbers of windows begin here, then those of closed dates.
const WINDOWS_AT: usize = REST_AT + 2;

const CLOSED_AT: usize = WINDOWS_AT + 2 * WINDOWS;

const REST_END: usize = CLOSED_AT + 2 * CLOSED;

// Four windows and one number more, two closed dates and one number more.
const WINDOWS: usize = 13;

const CLOSED: usize = 7;

const DISTANCES: usize = 5;

const BYTES: usize = 128;

#[derive(Clone, Copy)]
pub struct Record {
    pub(crate) bytes: [u8; BYTES],
}

// The arguments of a call, each where the calls have it that take it.
#[derive(Clone, Copy)]
pub struct Arguments {
    pub state: Code,
    pub direction: Code,
    pub flag: Code,
    pub a: u8,
    pub b: u8,
    pub c: u8,
    pub d: u8,
    pub slot: Slot,
    pub time: u64,
    pub n: usize,
    pub year: u16,
    pub month: u16,
    pub day: u16,
    pub minute: u16,
}

// The number of four bytes. Each by its index, as in `words::get_u64`.
fn number_of_four(s: &[u8]) -> u32
    requires { length s.now ≡ 4 }
{
    u32::from_be_bytes([s[0], s[1], s[2], s[3]])
}

// The numbers of two bytes each.
fn numbers_of_two<const N: usize>(s: &[u8]) -> [u16; N] {
    let mut numbers = [0; N];
    for (number, bytes) in numbers.iter_mut().zip(s.as_chunks::<2>().0) {
        *number = u16::from_be_bytes(*bytes);
    }
    numbers
}

impl Record {
    pub(crate) fn empty() -> Record {
        Record { bytes: [0; BYTES] }
    }

    // The call's number.
    pub(crate) fn call(&self) -> u8 {
        self.bytes[0]
    }

    // The length of the key, how many distances, or how many bytes a write has.
    pub(crate) fn count(&self) -> usize {
        usize::from(self.bytes[1])
    }

    pub(crate) fn key(&self) -> Option<&[u8]> {
        self.bytes[2..BYTES].get(..self.count())
    }

    pub(crate) fn arguments(&self) -> Arguments {
        let r = &self.bytes;
        let moment: [u16; 4] = numbers_of_two(&r[COUNT_AT..ROOM_AT]);
        Arguments {
            state: r[35],
            direction: r[36],
            flag: r[37],
            a: r[38],
            b: r[39],
            c: r[40],
            d: r[41],
            slot: words::get_u64(&r[SLOT_AT..TIME_AT]),
            time: words::get_u64(&r[TIME_AT..SIZE_AT]),
            // By `as`, here and below: std has no `From` of a u32 or a u64 for a usize.
            n: words::get_u64(&r[COUNT_AT..ROOM_AT]) as usize,
            year: moment[0],
            month: moment[1],
            day: moment[2],
            minute: moment[3],
        }
    }

    // How much of the storage or the bucket is handed over, and how much of the output or the answer.
    pub(crate) fn size(&self) -> usize {
        number_of_four(&self.bytes[SIZE_AT..COUNT_AT]) as usize
    }

    pub(crate) fn room(&self) -> usize {
        number_of_four(&self.bytes[ROOM_AT..CODE_AT]) as usize
    }

    // What the Rust's answer has.
    pub(crate) fn code(&self) -> u32 {
        number_of_four(&self.bytes[CODE_AT..SUM_AT])
    }

    pub(crate) fn sum(&self) -> u64 {
        words::get_u64(&self.bytes[SUM_AT..REST_AT])
    }

    // The bytes of a write.
    pub(crate) fn written(&self) -> Option<&[u8]> {
        self.bytes[REST_AT..BYTES].get(..self.count())
    }

    pub(crate) fn distances(&self) -> [u64; DISTANCES] {
        let mut distances = [0; DISTANCES];
        let bytes = &self.bytes[REST_AT..BYTES];
        for (distance, bytes) in distances.iter_mut().zip(bytes.as_chunks::<8>().0) {
            *distance = u64::from_be_bytes(*bytes);
        }
        distances
    }

    pub(crate) fn windows(&self) -> [u16; WINDOWS] {
        numbers_of_two(&self.bytes[WINDOWS_AT..CLOSED_AT])
    }

    pub(crate) fn closed(&self) -> [u16; CLOSED] {
        numbers_of_two(&self.bytes[CLOSED_AT..REST_END])
    }

    // How many of the numbers of windows, and of those of closed dates, are handed over.
    pub(crate) fn window_count(&self) -> usize {
        usize::from(self.bytes[REST_AT])
    }

    pub(crate) fn closed_count(&self) -> usize {
        usize::from(self.bytes[REST_AT + 1])
    }
}
