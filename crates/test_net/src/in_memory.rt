//! A link in memory from the door and back.
use base_io::{Bytes, NoMemory, Numbers};
use net_memory::{LinkState, Links, MemoryDoor, MemoryLink};
use net_traits::{Door, Link, send_whole};
use std::alloc::Global;
use std::test::Fail;

// Which call of a link fails, from 1, or 0 for none; then what was read and written of `abcde` in steps of 2 by two reads and a
// write of `xyz` behind them, how many reads and writes failed, and how many reads found the end.
static LINKS: [(u64, &str, &str, (u64, u64, u64)); 4] = [
    (0, "abcd", "xyz", (0, 0, 0)),
    (1, "ab", "xyz", (1, 0, 0)),
    (3, "abcd", "", (0, 1, 0)),
    (4, "abcd", "xy", (0, 1, 0)),
];

fn door(alloc: Global, fails: u64) -> Result<MemoryDoor, NoMemory> {
    let mut numbers = Numbers::new(alloc);
    numbers.push(fails)?;
    let bytes = Bytes::from_slice(alloc, b"abcde")?;
    let link = MemoryLink::new(alloc, bytes, 2, numbers)?;
    let mut links = Links::new(alloc);
    links.push(link)?;
    Ok(MemoryDoor::new(links, Numbers::new(alloc)))
}

fn use_link(link: &mut MemoryLink) {
    let mut buf = [0u8; 8];
    let _ = link.read(&mut buf);
    let _ = link.read(&mut buf);
    let _ = send_whole(link, b"xyz");
    link.close();
}

fn is_as(state: Option<&LinkState>, read: &str, written: &str, counts: (u64, u64, u64)) -> bool {
    match state {
        Some(state) => {
            state.read_so_far() == read.as_bytes()
                && state.written() == written.as_bytes()
                && state.counts() == counts
        }
        None => false,
    }
}

// Whether the link that came back from a door was used so.
fn comes_back(door: &mut MemoryDoor, read: &str, written: &str, counts: (u64, u64, u64)) -> bool {
    if let Ok(mut link) = door.accept() {
        use_link(&mut link);
        door.give_back(link);
    }
    is_as(door.given().link(), read, written, counts)
}

#[test]
fn links_come_back(rt: HostRuntime) -> Result<(), Fail> {
    for (fails, read, written, counts) in LINKS {
        let mut door = door(rt.alloc(), fails)?;
        assert!(rt; comes_back(&mut door, read, written, counts));
    }
    Ok(())
}
