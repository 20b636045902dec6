// A driver over a catalogue in memory, and clients of it, in one thread, by steps that are written down as data.
use crate::addresses::are_in_use;
use crate::checks::holds;
use crate::client::Client;
use crate::ends::{Drowning, drown};
use crate::newcomers::are_greeted;
use crate::preparing::{Progress, is_at, round_until};
use dict_fixtures::{PartsDesk, install_short};
use net_driver::{BindFault, Driver, RoundsEnd, System, pace, serve};
use std::alloc::Global;
use std::net::SocketAddr;
use std::process::Abort;
use std::time::Duration;

/// A free port of loopback.
pub(crate) const FREE: &str = "127.0.0.1:0";

/// 4,096 octets.
pub(crate) const FILLER: &[u8] = &[b'x'; 4_096];

/// One step of a run, or what is so then. Clients are counted from 0, in the order in which they came.
#[derive(Clone, Copy)]
pub(crate) enum Step {
    /// A client comes to the socket for readers.
    Reader,
    /// A client comes to the socket for editors.
    Editor,
    /// The last client goes.
    Leave,
    /// A client sends this.
    Send(usize, &'static [u8]),
    /// The last client sends this.
    LastSends(&'static [u8]),
    /// A client sends 32 lines of an index, 4,096 octets.
    FillIndex(usize),
    /// A client asks for the status so often at once.
    AskOften(usize, u32),
    /// A client sends nothing more.
    End(usize),
    /// This alone has come to a client since the last such step.
    Got(usize, &'static [u8]),
    /// So many octets have come to a client since then.
    GotCount(usize, usize),
    /// Octets have come to a client since then.
    GotSome(usize),
    /// The end of what is sent to a client has come.
    HasEnded(usize),
    /// To the clients from this one up to that one each its greeting has come, by the id of its place.
    Greeted(usize, usize),
    /// So many connections are open, and so many are held that are no longer open.
    Held(usize, usize),
    /// One round, in which something happens.
    Round,
    /// Rounds until nothing happens.
    Settle,
    /// A wait for the sockets, so many milliseconds at most.
    Wait(u64),
    /// So many rounds. They are counted.
    Serve(u64),
    /// The same, and its waits, as for a number that was asked for.
    Paced(u32),
    /// The desk gets a catalogue of one entry.
    ShortText,
    /// A client asks and doesn't read, or reads in the end.
    Drown(Drowning),
    /// Rounds until the desk has come so far.
    Until(Progress),
    /// So far it has come.
    IsAt(Progress),
    /// The addresses of the driver are in use.
    InUse,
}

/// Steps, so many times: behind each of them rounds until nothing happens, or none.
#[derive(Clone, Copy)]
pub(crate) enum Part {
    Settled(u32, &'static [Step]),
    Bare(u32, &'static [Step]),
}

/// These parts, of each row with a new driver over a desk that prepares a command by so many parts, and new clients.
pub(crate) fn start(rt: &impl Abort, net: &HostRuntime, rows: &[(u32, &'static [Part])]) {
    for (each, parts) in rows {
        start_one(rt, net, *each, *parts);
    }
}

fn start_one(rt: &impl Abort, net: &HostRuntime, each: u32, parts: &[Part]) {
    let mut play = Play::new(rt, net, net.alloc(), each);
    play.run_parts(rt, net, parts);
    drop(play);
}

/// A driver that is bound to these addresses.
pub(crate) fn bind(
    net: &HostRuntime,
    alloc: Global,
    dict: &str,
    http: &str,
) -> Result<Driver<'static>, BindFault> {
    Driver::bind(&System, net, alloc, dict, http, "localhost")
}

/// A driver at two free ports of loopback over a catalogue in memory, and clients.
#[derive(Drop)]
pub(crate) struct Play {
    pub(crate) alloc: Global,
    pub(crate) driver: Driver<'static>,
    pub(crate) desk: PartsDesk,
    clients: Vec<Client>,
    /// How often client 1 asked.
    pub(crate) asked: usize,
}

impl Play {
    // Over an empty catalogue.
    fn new(rt: &impl Abort, net: &HostRuntime, alloc: Global, each: u32) -> Play {
        Play {
            alloc,
            driver: bind(net, alloc, FREE, FREE).expect(rt, "a driver"),
            desk: PartsDesk::new(alloc, each),
            clients: Vec::new(alloc),
            asked: 0,
        }
    }

    /// One round. Whether something happened.
    pub(crate) fn round(&mut self, rt: &impl Abort) -> bool {
        self.driver
            .event_loop
            .round(&mut self.desk)
            .expect(rt, "a round")
    }

    // One in which something happens.
    fn round_busy(&mut self, rt: &impl Abort) {
        holds(rt, self.round(rt), "nothing happened");
    }

    /// Rounds until nothing happens.
    pub(crate) fn settle(&mut self, rt: &impl Abort) {
        for _ in 0..100_000u32 {
            if !self.round(rt) {
                return;
            }
        }
        panic!(rt; "no end of rounds");
    }

    // So many rounds, which are counted.
    fn serve(&mut self, rt: &impl Abort, rounds: u64, wait: Duration) {
        let event_loop = &mut self.driver.event_loop;
        let before = event_loop.rounds();
        let end = serve(event_loop, &mut self.desk, rounds, wait).expect(rt, "rounds");
        let made = event_loop.rounds().saturating_sub(before);
        holds(
            rt,
            end == RoundsEnd::Whole && made == rounds,
            "other rounds",
        );
    }

    // As many as are asked for.
    fn serve_paced(&mut self, rt: &impl Abort, count: u32) {
        let (rounds, wait) = pace(Some(count));
        self.serve(rt, rounds, wait);
    }

    fn wait(&mut self, rt: &impl Abort, most: u64) {
        self.driver
            .event_loop
            .wait(Duration::from_millis(most))
            .expect(rt, "a wait");
    }

    fn run_parts(&mut self, rt: &impl Abort, net: &HostRuntime, parts: &[Part]) {
        for part in parts {
            match part {
                Part::Settled(times, steps) => self.run_often(rt, net, *times, true, *steps),
                Part::Bare(times, steps) => self.run_often(rt, net, *times, false, *steps),
            }
        }
    }

    fn run_often(
        &mut self,
        rt: &impl Abort,
        net: &HostRuntime,
        times: u32,
        is_settled: bool,
        steps: &[Step],
    ) {
        for _ in 0..times {
            self.run(rt, net, is_settled, steps);
        }
    }

    // These steps, one after the other.
    fn run(&mut self, rt: &impl Abort, net: &HostRuntime, is_settled: bool, steps: &[Step]) {
        for step in steps {
            self.step(rt, net, *step);
            if is_settled {
                self.settle(rt);
            }
        }
    }

    // One step of the network's or of the driver's.
    fn step(&mut self, rt: &impl Abort, net: &HostRuntime, step: Step) {
        let (dict, http) = self.driver.addresses();
        match step {
            Step::Reader => self.come(rt, net, dict),
            Step::Editor => self.come(rt, net, http),
            Step::InUse => are_in_use(rt, net, self.alloc, (dict, http)),
            Step::Round => self.round_busy(rt),
            Step::Settle => self.settle(rt),
            Step::Wait(most) => self.wait(rt, most),
            Step::Serve(count) => self.serve(rt, count, Duration::ZERO),
            Step::Paced(count) => self.serve_paced(rt, count),
            Step::Until(progress) => round_until(rt, self, progress),
            Step::IsAt(progress) => holds(rt, is_at(&self.desk, progress), "the desk is elsewhere"),
            Step::Drown(drowning) => drown(rt, self, drowning),
            Step::Greeted(from, to) => are_greeted(rt, self, from, to),
            Step::Held(open, departing) => self.held(rt, open, departing),
            _ => self.act(rt, step),
        }
    }

    // One step of a client's, or of the desk's.
    fn act(&mut self, rt: &impl Abort, step: Step) {
        match step {
            Step::Send(who, octets) => self.client(rt, who).send(rt, octets),
            Step::LastSends(octets) => self.last(rt).send(rt, octets),
            Step::FillIndex(who) => self.client(rt, who).fill_index(rt),
            Step::AskOften(who, count) => self.client(rt, who).ask_often(rt, count),
            Step::End(who) => self.client(rt, who).end(rt),
            Step::Got(who, octets) => self.client(rt, who).got(rt, octets),
            Step::GotCount(who, count) => {
                holds(rt, self.client(rt, who).read(rt) == count, "others came");
            }
            Step::GotSome(who) => holds(rt, self.client(rt, who).read(rt) > 0, "no octet came"),
            Step::HasEnded(who) => holds(rt, self.client(rt, who).has_ended, "no end came"),
            Step::Leave => drop(self.clients.pop()),
            Step::ShortText => install_short(self.alloc, &mut self.desk).expect(rt, "an edition"),
            _ => panic!(rt; "no such step"),
        }
    }

    // A client comes to this address.
    fn come(&mut self, rt: &impl Abort, net: &HostRuntime, address: SocketAddr) {
        let client = Client::new(rt, net, self.alloc, address);
        self.clients.push(client).expect(rt, "memory");
    }

    /// A client.
    pub(crate) fn client<'a>(&'a mut self, rt: &impl Abort, who: usize) -> &'a mut Client {
        self.clients.get_mut(who).expect(rt, "a client")
    }

    // The client that came last.
    fn last<'a>(&'a mut self, rt: &impl Abort) -> &'a mut Client {
        self.clients.last_mut().expect(rt, "a client")
    }

    /// So many connections are open, and so many are held that are no longer open.
    fn held(&self, rt: &impl Abort, open: usize, departing: usize) {
        let event_loop = &self.driver.event_loop;
        let is_so = event_loop.open_count() == open && event_loop.departing_count() == departing;
        holds(rt, is_so, "other connections are held");
    }
}
