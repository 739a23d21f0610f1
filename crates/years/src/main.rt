// Prints the year table (document 02, slip 9): the day number of 1 January for each of the 400 years from 2000 on, counted from 0, one number
// a line. Each is worked out from the one before by the leap year rule; no table is read.
#![tactic(auto)]

ghost use Rattle.std.specs.Prelude.{◌≡◌, ◌+◌, ◌<◌};
ghost use Rattle.model.specs.Session.{leap, year_start};

use std::io;

// The leap year rule, here once more: the program shares no code with the crate session, whose table it is compared with.
fn is_leap(year: u16) -> bool
    ensures { result ≡ leap year }
{
    year % 4 == 0 && (year % 100 != 0 || year % 400 == 0)
}

// The start of the year behind the year 2000 + n.
fn next_start(n: u16, start: u32) -> u32
    requires { (n < 400) × (start ≡ year_start n) }
    ensures { result ≡ year_start (n + 1) }
{
    if is_leap(2000 + n) {
        return start + 366;
    }
    start + 365
}

fn main(rt: HostRuntime) -> io::Result<()> {
    let mut start: u32 = 0;
    for n in 0..400 {
        println!(rt; "{start}")?;
        start = next_start(n, start);
    }
    Ok(())
}
