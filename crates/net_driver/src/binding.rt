// Two listening sockets, bound to addresses.
ghost use Rattle.std.specs.Prelude.{◌≡◌, IfOk, MatchResult, ⊤};
ghost use Rattle.std.specs.declared.io.Error.{Error};
ghost use Rattle.std.specs.declared.net.socket_addr.SocketAddr.{SocketAddr as Address};
ghost use Rattle.net_driver.specs.Binding.{BindsBoth, HasAddressOf, IsBoundFor, IsAddressRefused};

use crate::fault::{AddressFault, BindFault};
use crate::sockets::{LISTENING, SystemSockets};
use mio::net::TcpListener;
use mio::{Events, Interest, Poll};
use std::alloc::Global;
use std::io;
use std::net::{Net, SocketAddr};

// How many sockets one look tells of. Those of which it doesn't are told of by the next.
const MAX_EVENTS: usize = 256;

/// Binds listening sockets, and has looks tell of two of them.
pub trait Network<L: Drop, S: Drop> {
    /// The listening socket was bound where the first address was asked for, and the second is that of it.
    ghost is_bound: { L → Address → Address → Type 0 };

    /// The system bound no listening socket to the address, or told none of it, by this error.
    ghost refuses: { Address → Error → Type 0 };

    /// The sockets are over these listening sockets, that for readers and that for editors.
    ghost is_over: { S → L → L → Type 0 };

    /// The system can't tell of sockets that are ready, by this error.
    ghost is_unwatched: { Error → Type 0 };

    /// Binds a listening socket to an address. That which is told has the port that the system chose for 0.
    fn bind<N: Net>(&self, net: &N, address: SocketAddr) -> io::Result<(L, SocketAddr)>
        ensures told { IfOk result (λ bound. HasAddressOf address bound.1) }
        ensures bound { MatchResult result (λ bound. is_bound bound.0 address bound.1) (refuses address) };

    /// Has looks tell of two listening sockets, into this room.
    fn watch<N: Net>(&self, net: &N, dict: L, http: L, events: Events) -> io::Result<S>
        ensures { MatchResult result (λ sockets. is_over sockets dict http) is_unwatched };
}

/// The system, as `mio` has it.
#[derive(Clone, Copy)]
pub struct System;

// What the system binds isn't known.
impl Network<TcpListener, SystemSockets> for System {
    ghost is_bound = { λ _ _ _. ⊤ };

    ghost refuses = { λ _ _. ⊤ };

    ghost is_over = { λ sockets dict http. (sockets.dict ≡ dict) × (sockets.http ≡ http) };

    ghost is_unwatched = { λ _. ⊤ };

    fn bind<N: Net>(&self, net: &N, address: SocketAddr) -> io::Result<(TcpListener, SocketAddr)> {
        let listener = TcpListener::bind(net, address)?;
        let mut bound = address;
        if address.port() == 0 {
            bound.set_port(listener.local_addr()?.port());
        }
        Ok((listener, bound))
    }

    fn watch<N: Net>(
        &self,
        net: &N,
        dict: TcpListener,
        http: TcpListener,
        events: Events,
    ) -> io::Result<SystemSockets> {
        let mut dict = dict;
        let mut http = http;
        let poll = Poll::new(net)?;
        register(&poll, &mut dict)?;
        register(&poll, &mut http)?;
        Ok(SystemSockets::new(dict, http, poll, events))
    }
}

// Has the poll tell of a listening socket.
fn register(poll: &Poll, listener: &mut TcpListener) -> io::Result<()>
    ensures { listener.new ≡ listener.old }
{
    poll.registry()
        .register(listener, LISTENING, Interest::READABLE)
}

/// Binds a listening socket to the address for readers and then one to that for editors, each an IP address and a port, and has
/// looks tell of them. The second is read only where the first is bound. The addresses that were bound are told.
pub fn bind_both<L: Drop, S: Drop, B: Network<L, S>, N: Net>(
    network: &B,
    net: &N,
    alloc: Global,
    dict: &str,
    http: &str,
) -> Result<(S, (SocketAddr, SocketAddr)), BindFault>
    ensures { BindsBoth B.is_bound B.refuses B.is_over B.is_unwatched dict.now http.now result }
{
    let (dict, dict_address) = match listen(network, net, dict) {
        Ok(bound) => bound,
        Err(fault) => return Err(BindFault::Dict(fault)),
    };
    let (http, http_address) = match listen(network, net, http) {
        Ok(bound) => bound,
        Err(fault) => return Err(BindFault::Http(fault)),
    };
    let Ok(events) = Events::with_capacity(alloc, MAX_EVENTS) else {
        return Err(BindFault::Memory);
    };
    match network.watch(net, dict, http, events) {
        Ok(sockets) => Ok((sockets, (dict_address, http_address))),
        Err(error) => Err(BindFault::Wait(error)),
    }
}

// Binds a listening socket to the address that a text says, and tells which that is: the system chooses a port for 0.
fn listen<L: Drop, S: Drop, B: Network<L, S>, N: Net>(
    network: &B,
    net: &N,
    text: &str,
) -> Result<(L, SocketAddr), AddressFault>
    ensures { MatchResult result (λ bound. IsBoundFor B.is_bound text.now bound.0 bound.1) (IsAddressRefused B.refuses text.now) }
{
    match text.parse::<SocketAddr>() {
        Ok(address) => network.bind(net, address).map_err(AddressFault::Unbound),
        Err(_) => Err(AddressFault::Unread),
    }
}
