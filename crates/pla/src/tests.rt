// The text of two cubes, in memory that is longer and in memory that is too short.
use crate::write::write_list;
use cubes::Entry;
use faults::TableFault;

const CUBES: [Entry; 2] = [
    Entry {
        care: 0x8000_0001,
        value: 0xC000_0001,
    },
    Entry {
        care: 0x8000_0003,
        value: 0xC000_0002,
    },
];

#[test]
fn fits(rt: HostRuntime) {
    let mut text = [b'#'; 30];
    let length = match write_list(2, &CUBES, &mut text) {
        Ok(length) => length,
        Err(_) => 0,
    };
    assert_eq!(rt; length, 28);
    assert_eq!(rt; text, *b".i 2\n.o 1\n.p 2\n-1 1\n10 1\n.e\n##");
}

#[test]
fn refused(rt: HostRuntime) {
    let mut text = [b'#'; 27];
    let needed = match write_list(2, &CUBES, &mut text) {
        Err(TableFault::TextShort(needed)) => needed,
        _ => 0,
    };
    assert_eq!(rt; needed, 28);
    assert_eq!(rt; text, [b'#'; 27]);
}
