// Two addresses that are bound, and told.
ghost use Rattle.std.specs.Prelude.{◌≡◌, IfOk, None, codes};
ghost use Rattle.dict_proto.specs.Streams.{change};
ghost use Rattle.net_driver.specs.Binding.{AreTold};
ghost use Rattle.net_hub.specs.Runs.{IsAt, beginning};
ghost use Rattle.app_words.specs.Writing.{Writes};
ghost use Rattle.net_serving.specs.Listening.{Begins, TellsOf, TellsWaiting, lines_of};

use app_words::ProgramFault;
use dict_proto::Sink;
use mio::net::TcpListener;
use net_driver::{BindFault, Driver, Network, SystemSockets};
use std::alloc::Global;
use std::io::{Error, ErrorKind};
use std::net::{Net, SocketAddr};

/// The host that the replies name.
pub const HOST: &str = "localhost";

/// What is asked of a server: the addresses for readers and for editors, each an IP address and a port, and how many rounds
/// are made. Without a number they are as many as there may be.
#[derive(Clone, Copy, Debug, PartialEq, Eq)]
pub struct ServerOptions<'w> {
    pub dict: &'w str,
    pub http: &'w str,
    pub rounds: Option<u32>,
}

/// Has a network bind sockets to both addresses, and writes those in two lines.
pub(crate) fn listen<'w, W: Sink, B: Network<TcpListener, SystemSockets>, N: Net>(
    network: &B,
    net: &N,
    alloc: Global,
    wanted: &ServerOptions<'w>,
    writer: &mut W,
) -> Result<Driver<'static>, ProgramFault<'w>>
    ensures begins { Begins B.Network wanted.now.dict.now wanted.now.http.now result (change W.stream writer.old writer.new) }
    ensures beginning { IfOk result (λ driver. IsAt driver.event_loop.hub (beginning (codes "localhost"))) }
    ensures last { IfOk result (λ driver. driver.event_loop.connections.last ≡ 0) }
    ensures bound { IfOk result (λ driver. AreTold wanted.now.dict.now wanted.now.http.now driver.addresses) }
    ensures rounds { IfOk result (λ driver. driver.event_loop.rounds ≡ 0) }
    ensures failure { IfOk result (λ driver. driver.event_loop.failure ≡ None) }
{
    let driver = match Driver::bind(network, net, alloc, wanted.dict, wanted.http, HOST) {
        Ok(driver) => driver,
        Err(fault) => return Err(told_of(fault, wanted.dict, wanted.http)),
    };
    let (dict, http) = driver.addresses();
    match put_addresses(alloc, dict, http, writer) {
        Ok(()) => Ok(driver),
        Err(fault) => Err(fault),
    }
}

// Writes a line for each address.
fn put_addresses<W: Sink>(
    alloc: Global,
    dict: SocketAddr,
    http: SocketAddr,
    writer: &mut W,
) -> Result<(), ProgramFault<'static>>
    ensures { Writes (lines_of dict http) result (change W.stream writer.old writer.new) }
{
    let Ok(text) = format!(in alloc; "dict {dict}\nhttp {http}\n") else {
        return Err(ProgramFault::Memory);
    };
    match writer.put(text.as_bytes()) {
        Ok(()) => Ok(()),
        Err(_) => Err(ProgramFault::CannotWrite),
    }
}

// What is told where no socket can be bound to an address.
fn told_of<'w>(fault: BindFault, dict: &'w str, http: &'w str) -> ProgramFault<'w>
    ensures { TellsOf dict.entry.now http.entry.now fault result }
{
    match fault {
        BindFault::Dict(_) => ProgramFault::CannotBind(dict),
        BindFault::Http(_) => ProgramFault::CannotBind(http),
        BindFault::Wait(error) => waiting_fault(&error),
        BindFault::Memory => ProgramFault::Memory,
    }
}

/// What is told where sockets can't be waited for.
pub(crate) fn waiting_fault(error: &Error) -> ProgramFault<'static>
    ensures { TellsWaiting error.now result }
{
    if error.kind() == ErrorKind::OutOfMemory {
        return ProgramFault::Memory;
    }
    ProgramFault::CannotWait
}
