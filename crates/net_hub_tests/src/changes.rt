// The catalogue changes between two lines of a session.
use super::files::{DELETE, DELETED_TOLD, Row};
use super::runs::{Run, over_memory};
use net_hub::{Event, Kind};

static ROWS: [Row; 5] = [
    (
        Event::Opened(1, Kind::Dict),
        "Ok(More) 220 gems.test dictcat ready <1@gems.test>\r\n",
    ),
    (Event::Opened(2, Kind::Http), "Ok(More) "),
    (
        Event::Bytes(1, b"MATCH gem prefix o\r\nDEFINE gem op"),
        "Ok(More) 152 1 matches found\r\ngem \"opal\"\r\n.\r\n250 ok\r\n",
    ),
    (Event::Bytes(2, DELETE), DELETED_TOLD),
    (
        Event::Bytes(1, b"al\r\nSTATUS\r\n"),
        "Ok(More) 550 invalid database\r\n210 0 databases\r\n",
    ),
];

#[test]
fn an_edition_goes_between_two_lines(rt: HostRuntime) {
    over_memory(&rt, rt.alloc(), true, Run::Rows(&ROWS));
}
