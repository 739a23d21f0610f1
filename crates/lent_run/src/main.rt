// Lends buckets to `insert` and `update_status`, through the functions beside them that take a bucket by value, and a run of found nodes to
// `order`, checks what they answer and leave, and writes it. Every check is proved.
#![tactic(auto)]

ghost use Rattle.std.specs.Prelude.{◌≡◌};
ghost use Rattle.lent_run.specs.Lends.{emptied, malformed};

use bucket::{InsertResult, KBucket, Step, UpdateResult};
use key::Key;
use node::Refusal;
use std::io;

mod lends;

// What a call on the malformed bucket answers, and that the bucket is as it was.
fn refused<T: Copy>(
    rt: &impl Print,
    call: &str,
    step: Step<KBucket, Result<T, Refusal>>,
) -> io::Result<()>
    requires answer_value { step.result ≡ Err Refusal.Form }
    requires bucket_value { step.bucket ≡ malformed emptied }
{
    let refusal = step.result.unwrap_err();
    prove!(refusal == Refusal::Form);
    prove!(step.bucket.count == 0);
    prove!(step.bucket.first_connected_pos == 1);
    println!(rt; "none held, first connected place 1; {call}: {refusal}")
}

fn inserted(rt: &impl Print) -> io::Result<()> {
    let step = lends::inserted();
    prove!(matches!(&step.result, Ok(InsertResult::Inserted)));
    prove!(step.bucket.count == 2);
    let first = step.bucket.nodes[0].key;
    let second = step.bucket.nodes[1].key;
    println!(rt;
        "32 and 33 inserted, connected: {}, {}",
        first.w3, second.w3
    )
}

fn moved(rt: &impl Print) -> io::Result<()> {
    let step = lends::moved();
    let first = step.bucket.nodes[0].key;
    let second = step.bucket.nodes[1].key;
    prove!(first.eq(Key::from(33)));
    prove!(second.eq(Key::from(32)));
    prove!(matches!(&step.result, Ok(UpdateResult::NotModified)));
    println!(rt; "32 set connected: {}, {}", first.w3, second.w3)
}

fn ordered(rt: &impl Print) -> io::Result<()> {
    let run = lends::ordered();
    prove!(run[0].place == 1);
    prove!(run[1].place == 2);
    prove!(run[2].place == 0);
    println!(rt;
        "distances 3, 1, 2 at places 0, 1, 2, put in order: places {}, {}, {}",
        run[0].place, run[1].place, run[2].place
    )
}

fn main(rt: HostRuntime) -> io::Result<()> {
    refused(&rt, "insert", lends::refused_insert())?;
    refused(&rt, "update_status", lends::refused_status())?;
    inserted(&rt)?;
    moved(&rt)?;
    ordered(&rt)
}
