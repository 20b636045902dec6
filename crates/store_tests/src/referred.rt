//! Files in which a foreign key of another table names the mark: whose they are, and of which version, is told all the same.
use crate::commands::CATALOGUE;
use crate::refused::refuse_each;
use crate::steps::Step;
use dict_desk::Fault;

const REFERRED: &[(&str, Fault)] = &[
    (
        "CREATE TABLE others (a INTEGER REFERENCES mark (id)) STRICT",
        Fault::Damaged,
    ),
    (
        "CREATE TABLE others (a INTEGER REFERENCES Mark) STRICT; UPDATE mark SET version = 1",
        Fault::Damaged,
    ),
    (
        "CREATE TABLE others (a INTEGER REFERENCES mark (id)) STRICT; UPDATE mark SET version = 7",
        Fault::NewerSchema,
    ),
    (
        "CREATE TABLE others (a INTEGER REFERENCES mark (id)) STRICT; UPDATE mark SET version = 0",
        Fault::NotACatalogue,
    ),
    (
        "CREATE TABLE others (a INTEGER REFERENCES mark (id)) STRICT; UPDATE mark SET magic = 'dictcaz'",
        Fault::NotACatalogue,
    ),
    (
        "CREATE TABLE others (a INTEGER REFERENCES mark (id)) STRICT; CREATE UNIQUE INDEX more ON mark (magic)",
        Fault::NotACatalogue,
    ),
];

#[test]
fn a_mark_that_is_referred_to_is_read(rt: HostRuntime) {
    refuse_each(&rt, rt.alloc(), &[Step::Make(CATALOGUE)], false, REFERRED);
}
