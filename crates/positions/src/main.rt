// Runs the rows of 01's twelve positions that are about keys and buckets, checks each answer and writes it, a line for each row. Every
// check is proved.
#![tactic(auto)]

ghost use Rattle.std.specs.Prelude.{◌≡◌};

use answers::Shown;
use bucket::{InsertResult, UpdateResult};
use key::Key;
use rows::Inserts;
use std::io;

mod answers;
mod rows;

fn row1(rt: &impl Print) -> io::Result<()> {
    let i = rows::index_of(0, 0);
    prove!(i.is_none());
    println!(rt; "1: index of 0: {}", Shown(i))
}

fn row2(rt: &impl Print) -> io::Result<()> {
    let a = rows::index_of(0, 1);
    let b = rows::index_of(0, 2);
    let c = rows::index_of(0, 3);
    let d = rows::index_of(0x8000_0000_0000_0000, 0);
    prove!(a == Some(0));
    prove!(b == Some(1));
    prove!(c == Some(1));
    prove!(d == Some(255));
    println!(rt;
        "2: index of 1; 2; 3; 2^255: {}; {}; {}; {}",
        Shown(a),
        Shown(b),
        Shown(c),
        Shown(d)
    )
}

fn row5(rt: &impl Print) -> io::Result<()> {
    let [a, b, c, d] = rows::row5();
    prove!(a == Some(0));
    prove!(b == Some(0));
    prove!(c == Some(1));
    prove!(d == Some(2));
    println!(rt;
        "5: target 0, first four visits: {}, {}, {}, {}",
        Shown(a),
        Shown(b),
        Shown(c),
        Shown(d)
    )
}

fn row6(rt: &impl Print) -> io::Result<()> {
    let (early, due) = rows::row6();
    prove!(matches!(&early, Ok(None)));
    prove!(answers::applied_key(due, Key::from(48)));
    println!(rt;
        "6: 48 pending at 100, timeout 60000; applied at 60099; at 60100: {}; {}",
        Shown(early),
        Shown(due)
    )
}

fn row7(rt: &impl Print) -> io::Result<()> {
    let b = rows::row7();
    prove!(b.first_connected_pos == b.count);
    print!(rt; "7: two disconnected then one connected; connected removed: ")?;
    if b.first_connected_pos == b.count {
        return println!(rt; "no first connected place");
    }
    println!(rt; "{}", b.first_connected_pos)
}

// Two inserts: the first fails a test, and the second inserts.
fn row_of_tests(
    rt: &impl Print,
    row: &str,
    inserts: Inserts,
    failed: InsertResult,
) -> io::Result<()>
    requires first_value { inserts.0 ≡ Ok failed }
    requires second_value { inserts.1 ≡ Ok InsertResult.Inserted }
{
    let (first, second) = inserts;
    prove!(first == Ok(failed));
    prove!(second == Ok(InsertResult::Inserted));
    println!(rt; "{row}: {}; {}", Shown(first), Shown(second))
}

fn row9(rt: &impl Print) -> io::Result<()> {
    let (first, second) = rows::row9();
    prove!(answers::names(first, Key::from(32)));
    prove!(matches!(&second, Ok(InsertResult::Full)));
    println!(rt;
        "9: 32 disconnected, 15 connected; two new connected outgoing: {}; {}",
        Shown(first),
        Shown(second)
    )
}

fn row10(rt: &impl Print) -> io::Result<()> {
    let step = rows::row10();
    let first = step.bucket.nodes[0].key;
    let second = step.bucket.nodes[1].key;
    prove!(first.eq(Key::from(33)));
    prove!(second.eq(Key::from(32)));
    prove!(matches!(&step.result, Ok(UpdateResult::NotModified)));
    println!(rt;
        "10: connected 32, 33; 32 set connected: {}, {}; {}",
        Shown(first),
        Shown(second),
        Shown(step.result)
    )
}

fn main(rt: HostRuntime) -> io::Result<()> {
    row1(&rt)?;
    row2(&rt)?;
    row5(&rt)?;
    row6(&rt)?;
    row7(&rt)?;
    row_of_tests(
        &rt,
        "8: max_incoming 0; connected incoming; disconnected incoming",
        rows::row8(),
        InsertResult::TooManyIncoming,
    )?;
    row9(&rt)?;
    row10(&rt)?;
    row_of_tests(
        &rt,
        "12: filter on, 10.0.0.1 and 10.0.0.2 held; a new 10.0.0.3; a new 10.0.0.2",
        rows::row12(),
        InsertResult::FailedFilter,
    )
}
