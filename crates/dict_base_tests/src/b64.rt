//! Numbers in base 64, read and written.

use crate::checks::holds;
use dict_text::{MAX_DIGITS, NumberFault, read_number, write_number};

static READ: [(&[u8], Result<u64, NumberFault>); 12] = [
    (b"A", Ok(0)),
    (b"Z", Ok(25)),
    (b"o", Ok(40)),
    (b"BA", Ok(64)),
    (b"//////", Ok(68_719_476_735)),
    (b"", Err(NumberFault::Empty)),
    (b"BAAAAAA", Err(NumberFault::Long)),
    (b"=======", Err(NumberFault::Long)),
    (b"=", Err(NumberFault::Digit)),
    (b"A=", Err(NumberFault::Digit)),
    (b"AA", Err(NumberFault::Leading)),
    (b"AB", Err(NumberFault::Leading)),
];

static WRITTEN: [(u64, &[u8]); 8] = [
    (0, b"A"),
    (63, b"/"),
    (64, b"BA"),
    (4_095, b"//"),
    (4_096, b"BAA"),
    (262_144, b"BAAA"),
    (16_777_216, b"BAAAA"),
    (1_073_741_824, b"BAAAAA"),
];

// Whether a number is written so.
fn is_written(number: u64, spelling: &[u8]) -> bool {
    let mut text = [b'.'; MAX_DIGITS];
    if number >= 68_719_476_736 {
        return false;
    }
    let count = write_number(number, &mut text);
    text.get(..count) == Some(spelling)
}

#[test]
fn numbers_are_read_and_written(rt: HostRuntime) {
    for (spelling, number) in &READ {
        holds(&rt, read_number(spelling) == *number, "read");
    }
    for (number, spelling) in &WRITTEN {
        holds(&rt, is_written(*number, spelling), "written");
        holds(&rt, read_number(spelling) == Ok(*number), "read again");
    }
}
