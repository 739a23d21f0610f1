// Runs three situations with the table filter on, and writes the answers and the bucket before and after. Nine members of one /24 are
// held, or ten, and one of them re-signs its record after a port change: the record is taken, and the entry keeps its place, since its own
// old record is not counted (document 02, slip 3). Eleven members, the same call: Failed(TableFilter), and the peer is gone.
#![tactic(auto)]

ghost use Rattle.std.specs.Prelude.{◌≡◌, length};

use bucket::KBucket;
use node::{Node, NodeStatus, Refusal, Slot, Value};
use session::{Hours, Moment};
use std::{fmt, io};
use storage::Layout;

// The key of a member. The local key is 0, so all members are in bucket 255.
fn key_of(member: u8) -> [u8; 32]
    ensures { 32 ≡ length result }
{
    let mut key = [0u8; 32];
    key[0] = 128;
    key[31] = member;
    key
}

// The record of a member: its address in 10.0.0.0/24, and its slot in the host's record store.
fn record_of(member: u8, slot: Slot) -> Value {
    Value {
        flag: 1,
        a: 10,
        b: 0,
        c: 0,
        d: member,
        slot,
    }
}

// Writes a node: the number of its key, the last octet of its address, and its slot.
fn print_node(rt: &impl Print, node: Node) -> io::Result<()> {
    let member = node.key.w3;
    let Value { d, slot, .. } = node.value;
    print!(rt; " {member}=10.0.0.{d}/slot {slot}")
}

// Writes the nodes of bucket 255. Not by `Nodes`: that its bytes passed question 2 is not known here.
fn print_bucket(rt: &impl Print, s: &[u8; Layout::STORAGE]) -> io::Result<()> {
    let bucket = storage::bucket(s, 255);
    let count = usize::from(bucket[0]).min(KBucket::MAX_NODES_PER_BUCKET);
    print!(rt; "{count} held:")?;
    for place in 0..count {
        print_node(rt, storage::load_node(storage::place(bucket, place)))?;
    }
    println!(rt;)
}

// Writes what a call answered: its result, or the question that refused it.
fn print_answer<T: Copy + fmt::Debug>(
    rt: &impl Print,
    answer: Result<T, Refusal>,
) -> io::Result<()> {
    match answer {
        Ok(result) => print!(rt; "{result:?}"),
        Err(refusal) => print!(rt; "{refusal}"),
    }
}

// A member joins, connected and outgoing. The table filter lets no eleventh of a /24 in by insert_or_update; an entry's insert passes it by.
fn join(rt: &impl Print, s: &mut [u8], member: u8) -> io::Result<()> {
    let key = key_of(member);
    let value = record_of(member, Slot::from(member));
    let status = NodeStatus {
        state: 1,
        direction: 0,
    };
    // no session hours: with no windows neither question is asked
    let hours = Hours {
        windows: &[],
        closed: &[],
        moment: Moment::default(),
    };
    print!(rt; " ")?;
    if 10 < member {
        print_answer(
            rt,
            entry::absent_insert(s, &key, value, status, 1000, hours),
        )
    } else {
        print_answer(
            rt,
            update::insert_or_update(s, &key, value, status, 1000, hours),
        )
    }
}

fn join_all(rt: &impl Print, s: &mut [u8], members: u8) -> io::Result<()> {
    for member in 1..=members {
        join(rt, s, member)?;
    }
    Ok(())
}

// A member's port changes: its record is signed again and lies in another slot.
fn resign(rt: &impl Print, s: &mut [u8], member: u8, slot: Slot) -> io::Result<()> {
    let key = key_of(member);
    let value = record_of(member, slot);
    print_answer(rt, update::update_node(s, &key, value, 2, 2000))
}

fn situation(rt: &impl Print, members: u8) -> io::Result<()> {
    let mut space = [0; Layout::STORAGE];
    let s = &mut space;
    let local = [0u8; 32];
    match table::new(s, &local, 60000, 16, 1, 0) {
        Ok(()) => print!(rt; "a new table, table filter on, bucket filter off")?,
        Err(refusal) => print!(rt; "{refusal}")?,
    }
    print!(rt; "\n{members} members of 10.0.0.0/24 join:")?;
    join_all(rt, s, members)?;
    print!(rt; "\nbefore: ")?;
    print_bucket(rt, s)?;
    print!(rt; "member 3 re-signs its record, slot 103: ")?;
    resign(rt, s, 3, 103)?;
    print!(rt; "\nafter: ")?;
    print_bucket(rt, s)
}

fn main(rt: HostRuntime) -> io::Result<()> {
    situation(&rt, 9)?;
    situation(&rt, 10)?;
    situation(&rt, 11)
}
