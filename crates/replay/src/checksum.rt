// The 64-bit FNV-1a checksum of a run of bytes.

pub const BASIS: u64 = 0xcbf2_9ce4_8422_2325;

// 2^40 + 435.
const PRIME: u64 = 0x100_0000_01b3;

// Goes on from `sum` with the bytes.
pub(crate) fn checksum(sum: u64, s: &[u8]) -> u64 {
    let mut out = sum;
    for x in s {
        out = (out ^ u64::from(*x)).wrapping_mul(PRIME);
    }
    out
}
