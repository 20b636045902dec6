//! A session that meets a failed store, and answers once the catalogue is opened anew.
use crate::clients::Client;
use crate::disks::{Held, Machine, TwoDisks};
use crate::files::opened;
use crate::serving_checks::holds;
use dict_desk::Preparer;
use net_driver::{Driver, System};
use net_serving::{DeskOpener, serve_rounds};
use sqlite::{Alter, Connection};
use sqlite_disk::{Crash, Files};
use std::alloc::Global;
use std::net::{Net, TcpStream};
use std::process::Abort;
use std::time::Duration;
use store_desk::Desk;
use store_fixtures::failing_disk;

/// A free port of loopback.
const FREE: &str = "127.0.0.1:0";

const GREETING: &[u8] = b"220 localhost dictcat ready <1@localhost>\r\n";

// The disks have no path.
const PATH: &str = "";

// An edition of one entry.
const PUT: &[u8] =
    b"PUT /databases/a HTTP/1.1\r\nRequest-Id: r\r\nContent-Length: 53\r\n\r\n28\n00-database-short\tA\tU\nb\tU\tC\n00-database-short\nA\nc\n";

const UNAVAILABLE: &[u8] =
    b"HTTP/1.1 503 Service Unavailable\r\nContent-Type: application/json\r\nContent-Length: 23\r\nConnection: close\r\n\r\n{\"error\":\"unavailable\"}";

const INSTALLED: &[u8] =
    b"HTTP/1.1 200 OK\r\nContent-Type: application/json\r\nContent-Length: 52\r\nConnection: close\r\n\r\n{\"edition\":1,\"name\":\"a\",\"number\":1,\"verb\":\"install\"}";

const FOUND: &[u8] = b"150 1 definitions retrieved\r\n151 \"b\" a \"A\"\r\nc\r\n.\r\n250 ok\r\n";

// In so many rounds an install of one entry is prepared, a part in each, and answered.
const PREPARED: u64 = 64;

/// A step of the run, of a reader and of an editor.
#[derive(Clone, Copy)]
enum Step {
    /// An editor connects.
    Come,
    /// The editor goes.
    Leave,
    /// So many rounds over the desk that is opened, which is closed after them.
    Serve(u64),
    /// The editor sends this, or the reader.
    Send(bool, &'static [u8]),
    /// This alone has come to the editor, or to the reader.
    Poll(bool, &'static [u8]),
}

// The editor's install meets the failure, in the middle of a line of the reader. The install that is sent again is done. The reader
// is told that nothing was installed before, and then finds the entry.
static STEPS: [Step; 17] = [
    Step::Serve(2),
    Step::Poll(false, GREETING),
    Step::Come,
    Step::Send(true, PUT),
    Step::Send(false, b"DEFINE a b"),
    Step::Serve(PREPARED),
    Step::Poll(true, UNAVAILABLE),
    Step::Send(false, b"\r\n"),
    Step::Leave,
    Step::Come,
    Step::Send(true, PUT),
    Step::Serve(PREPARED),
    Step::Poll(false, b"550 invalid database\r\n"),
    Step::Poll(true, INSTALLED),
    Step::Send(false, b"DEFINE a b\r\n"),
    Step::Serve(3),
    Step::Poll(false, FOUND),
];

/// A reader, and an editor who comes and goes.
#[derive(Drop)]
struct Both {
    reader: Client,
    editor: Option<Client>,
}

impl Both {
    fn client<'a>(&'a mut self, rt: &impl Abort, is_editor: bool) -> &'a mut Client {
        if !is_editor {
            return &mut self.reader;
        }
        match &mut self.editor {
            Some(editor) => editor,
            None => panic!(rt; "no editor"),
        }
    }
}

fn serve<K: Preparer + Drop, W: DeskOpener<K>>(
    rt: &impl Abort,
    desks: &mut W,
    driver: &mut Driver,
    rounds: u64,
) {
    let desk = desks.open(PATH).expect(rt, "a desk");
    let wait = Duration::from_millis(20);
    let served = serve_rounds(desks, PATH, driver, desk, rounds, wait);
    let _ = desks.close(served.expect(rt, "a desk"));
}

fn take_step<N: Net<Stream = TcpStream> + Abort, K: Preparer + Drop, W: DeskOpener<K>>(
    rt: &N,
    alloc: Global,
    desks: &mut W,
    driver: &mut Driver,
    both: &mut Both,
    step: Step,
) {
    match step {
        Step::Come => {
            let editor = Client::new(rt, alloc, driver.addresses().1);
            drop(both.editor.replace(editor));
        }
        Step::Leave => drop(both.editor.take()),
        Step::Serve(rounds) => serve(rt, desks, driver, rounds),
        Step::Send(is_editor, octets) => both.client(rt, is_editor).send(rt, octets),
        Step::Poll(is_editor, octets) => both.client(rt, is_editor).poll(rt, octets),
    }
}

// A reader's session is open, and goes on over the catalogue that is opened anew after the failure.
fn meet_a_failure<N: Net<Stream = TcpStream> + Abort, K: Preparer + Drop, W: DeskOpener<K>>(
    rt: &N,
    alloc: Global,
    desks: &mut W,
    driver: &mut Driver,
) {
    let mut both = Both {
        reader: Client::new(rt, alloc, driver.addresses().0),
        editor: None,
    };
    for one in &STEPS {
        take_step(rt, alloc, desks, driver, &mut both, *one);
    }
    drop(both);
}

// The same over a new server.
fn meet_a_failure_anew<N: Net<Stream = TcpStream> + Abort, K: Preparer + Drop, W: DeskOpener<K>>(
    rt: &N,
    alloc: Global,
    desks: &mut W,
) {
    let driver = Driver::bind(&System, rt, alloc, FREE, FREE, "localhost");
    let mut driver = driver.expect(rt, "a driver");
    meet_a_failure(rt, alloc, desks, &mut driver);
    drop(driver);
}

// How often the catalogue in this database was opened anew.
fn reopened<N: Net<Stream = TcpStream> + Abort, S: Alter + Drop, M: Machine<Desk<S>> + Drop>(
    rt: &N,
    alloc: Global,
    machine: M,
    conn: Connection<S>,
) -> u64 {
    let mut desks = Held::new(alloc, machine, conn);
    meet_a_failure_anew(rt, alloc, &mut desks);
    let reopened = desks.reopened;
    drop(desks);
    reopened
}

// The same of a database on these disks.
fn reopened_on<N: Net<Stream = TcpStream> + Abort, D: Crash + Drop>(
    rt: &N,
    alloc: Global,
    files: Files<D>,
) -> u64 {
    match opened(alloc, files) {
        Ok(conn) => reopened(rt, alloc, TwoDisks, conn),
        Err(_) => panic!(rt; "no database"),
    }
}

#[test]
fn a_session_outlives_a_failed_store(rt: HostRuntime) {
    let alloc = rt.alloc();
    // The file of the log answers so many calls: those by which the catalogue is made and read, and some of the install.
    let files = Files {
        log: failing_disk(alloc, &[], 40, false).expect(&rt, "a log"),
        db: failing_disk(alloc, &[], u64::MAX, false).expect(&rt, "a file"),
    };
    holds(&rt, reopened_on(&rt, alloc, files) == 1, "once");
}
