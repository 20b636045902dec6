// What the tests read from and write to.
ghost use Rattle.std.specs.Prelude.{None, ⊤};

use app_words::{InputFiles, OverFiles, ReadFault};
use dict_desk::PlainDesk;
use dict_fixtures::{GEM_INDEX, GEM_TEXT, ORE_INDEX, ORE_TEXT};
use dict_proto::{LimitedSink, OverRead};
use dictcat_lib::{CatalogueFiles, SystemFiles, run_over};
use sqlite::Unknown;
use std::alloc::Global;
use std::fs;
use std::process::Abort;

// The index whose last line cuts one octet too many.
const LONG_INDEX: &[u8] = b"00-database-short\tA\tZ\nopal\tZ\tP\nFire Opal\tZ\tP\ndot\to\tG\n";

/// What words read: the example databases in memory, or the files of the machine. It is one type, so that the program is built for it once.
#[derive(Drop)]
pub(crate) enum Inputs<'r> {
    /// The example databases.
    Examples(Global),
    /// The files of the machine.
    Machine(OverFiles<'r, HostRuntime>),
}

// An example by its path.
fn example(alloc: Global, path: &str) -> Result<Vec<u8>, ReadFault> {
    let octets = match path {
        "gem.index" => GEM_INDEX,
        "gem.dict" => GEM_TEXT,
        "long.index" => LONG_INDEX,
        "ore.index" => ORE_INDEX,
        "ore.dict" => ORE_TEXT,
        "empty" => b"",
        _ => return Err(ReadFault::Unreadable),
    };
    Vec::from_slice(alloc, octets).map_err(|_| ReadFault::Memory)
}

impl InputFiles for Inputs<'_> {
    ghost octets = { λ _ _. None };

    ghost reads = { λ _ _. ⊤ };

    ghost refuses = { λ _ _ _. ⊤ };

    fn read(&self, path: &str) -> Result<Vec<u8>, ReadFault> {
        match self {
            Inputs::Examples(alloc) => example(*alloc, path),
            Inputs::Machine(files) => files.read(path),
        }
    }
}

/// A status, and what went to standard output and to standard error.
pub(crate) type Outcome = (u8, String, String);

/// Words behind the program's name, where `FILE` stands for the path of a catalogue; what standard input has; the status,
/// what is printed, and what is told.
pub(crate) type Row = (
    &'static [&'static str],
    &'static str,
    u8,
    &'static str,
    &'static str,
);

/// More octets than any command prints here.
pub(crate) const ROOM: usize = 4000;

/// What comes of these words with this input over these files, where standard output takes so many octets.
pub(crate) fn outcome(
    test: &impl Abort,
    rt: &HostRuntime,
    words: &[&str],
    files: &Inputs<'_>,
    input: &str,
    room: usize,
) -> Outcome {
    let mut writer = LimitedSink::new(rt.alloc(), room).expect(test, "memory");
    let mut faults = LimitedSink::new(rt.alloc(), 1000).expect(test, "memory");
    let status = run_over(
        rt,
        words,
        &mut CatalogueFiles::new(rt, SystemFiles { start: Unknown }),
        &mut PlainDesk::new(rt.alloc()),
        files,
        &mut OverRead::new(input.as_bytes()),
        &mut writer,
        &mut faults,
    );
    (
        status,
        taken(test, rt.alloc(), &writer),
        taken(test, rt.alloc(), &faults),
    )
}

/// What comes of these words behind the program's name, where `FILE` stands for a path, over the examples.
pub(crate) fn run(
    test: &impl Abort,
    rt: &HostRuntime,
    file: &str,
    words: &[&str],
    input: &str,
    room: usize,
) -> Outcome {
    let alloc = rt.alloc();
    let mut all = Vec::new(alloc);
    all.push("dictcat").expect(test, "memory");
    for word in words {
        all.push(if *word == "FILE" { file } else { *word })
            .expect(test, "memory");
    }
    let files = Inputs::Examples(alloc);
    outcome(test, rt, all.as_slice(), &files, input, room)
}

/// The status, what is printed and what is told by these words are these.
pub(crate) fn same_outcome(
    test: &impl Abort,
    words: &[&str],
    found: &Outcome,
    status: u8,
    printed: &str,
    told: &str,
) {
    let is_so = found.0 == status && found.1.as_str() == printed && found.2.as_str() == told;
    assert!(test; is_so, "{words:?} gave {found:?}");
}

/// Each row comes out as it says.
pub(crate) fn compare(test: &impl Abort, rt: &HostRuntime, file: &str, rows: &[Row]) {
    for (words, input, status, printed, told) in rows {
        let found = run(test, rt, file, *words, *input, ROOM);
        same_outcome(test, *words, &found, *status, printed, told);
    }
}

/// What a sink took, as text.
pub(crate) fn taken(test: &impl Abort, alloc: Global, sink: &LimitedSink) -> String {
    let octets = sink.taken().to_vec(alloc).expect(test, "memory");
    String::from_utf8(octets).expect(test, "a text")
}

/// Removes a file, and its log where there is one.
pub(crate) fn remove(test: &impl Abort, rt: &HostRuntime, path: &str) {
    let log = format!(in rt.alloc(); "{path}-wal").expect(test, "memory");
    if fs::exists(rt, log.as_str()).expect(test, "an answer") {
        fs::remove_file(rt, log.as_str()).expect(test, "a log");
    }
    fs::remove_file(rt, path).expect(test, "a file");
}
