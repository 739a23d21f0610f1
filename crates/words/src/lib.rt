// Internal: big-endian numbers as bytes, and runs of bytes. To read or write a word is one load or store and one swap.
#![tactic(auto)]

ghost use Rattle.std.specs.Prelude.{◌≡◌, ◌-◌, ◌*◌, ◌/◌, ◌≤◌, ◌<◌, eqb, length};
ghost use Rattle.model.specs.Base.{every};
ghost use Rattle.model.specs.Bytes.{number, bytes, part, splice, zeros};
ghost use Rattle.model.specs.Formed.{are_zero};

// Internal: the number that eight bytes are.
pub fn get_u64(s: &[u8]) -> u64
    requires { length s.now ≡ 8 }
    ensures { result ≡ number s.now }
{
    // Each byte by its index: `try_into` and `first_chunk` have a longer proof.
    u64::from_be_bytes([s[0], s[1], s[2], s[3], s[4], s[5], s[6], s[7]])
}

// Internal: eight bytes become those of x. A slice of its exact length, as all runs that are written: with an array of a range of `&mut`
// bytes the proof of what the bytes become did not close.
pub fn put_u64(s: &mut [u8], x: u64)
    requires { length s.old ≡ 8 }
    ensures { s.new ≡ bytes 8 x }
{
    s.copy_from_slice(&x.to_be_bytes());
}

// Internal: all bytes become zero. By a name: `fill` says it under a premise on `clone`.
pub fn put_zeros(s: &mut [u8])
    ensures { s.new ≡ zeros (length s.old) }
{
    s.fill(0);
}

// Internal: all bytes are zero. The loop has no early end, so that it takes 16 bytes at a time; a run of constant length is compiled
// without a loop. `iter().all(..)` takes 1.8 times as long of 47 bytes, and 17 times of 752.
pub fn all_zero(s: &[u8]) -> bool
    ensures { result ≡ every (λ b. eqb b 0) s.now }
{
    let mut x: u8 = 0;
    for b in s {
        x |= *b;
    }
    x == 0
}

// Internal: all bytes are zero, of a long run: STEP bytes at a time, each of them a run of constant length, and at the end the last STEP,
// some of them for the second time. Of a bucket's free places that takes two thirds of the instructions that it takes to read what is left
// behind the steps by itself, and four fifths of the time.
pub fn all_zero_by<const STEP: usize>(s: &[u8]) -> bool
    requires { (0 < STEP) × (STEP ≤ 512) }
    ensures { result ≡ every (λ b. eqb b 0) s.now }
{
    let Some(last) = s.last_chunk::<STEP>() else {
        return all_zero(s);
    };
    let (steps, _) = s.as_chunks::<STEP>();
    for step in steps {
        if !all_zero(step) {
            return false;
        }
    }
    all_zero(last)
}

// Internal: the bytes go up by `by` bytes; the last `by` go out, and the first `by` stay.
#[tactic(auto, using(crate::proofs::Shift::moved_up))]
pub fn shift_up(s: &mut [u8], by: usize)
    requires { (1 ≤ by) × (by ≤ length s.old) }
    ensures { s.new ≡ splice s.old by (part s.old 0 (length s.old - by)) }
{
    s.copy_within(..s.len() - by, by);
}

// Internal: the bytes go down by `by` bytes; the first `by` go out, and the last `by` stay. This and `shift_up` are two functions, since the
// direction is what they are.
#[tactic(auto, using(crate::proofs::Shift::moved_down))]
pub fn shift_down(s: &mut [u8], by: usize)
    requires { by ≤ length s.old }
    ensures { s.new ≡ splice s.old 0 (part s.old by (length s.old - by)) }
{
    s.copy_within(by.., 0);
}
