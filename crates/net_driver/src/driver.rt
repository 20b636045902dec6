// The driver of the program.
ghost use Rattle.std.specs.Prelude.{◌≡◌, IfOk, None};
ghost use Rattle.net_driver.specs.Binding.{AreTold, BindsBoth};
ghost use Rattle.net_driver.specs.Bound.{sockets_of};

use crate::binding::{Network, bind_both};
use crate::event_loop::EventLoop;
use crate::fault::BindFault;
use crate::sockets::SystemSockets;
use mio::net::TcpListener;
use net_outlet::Socket;
use std::alloc::Global;
use std::net::{Net, SocketAddr};

/// Rounds over two listening sockets of the system, for readers and for editors, and the addresses that these are bound to.
#[derive(Drop)]
pub struct Driver<'h> {
    addresses: (SocketAddr, SocketAddr),
    pub event_loop: EventLoop<'h, Socket, SystemSockets>,
}

impl<'h> Driver<'h> {
    ghost use Rattle.net_hub.specs.Runs.{IsAt, beginning};

    /// Has a network bind a listening socket to the address for readers and then one to that for editors, each an IP address
    /// and a port. The second is read only where the first is bound. Replies name the server by `host`, of 1 to 253 of
    /// `A-Z a-z 0-9 . -`. No connection is there yet, the first one's id is 1, and no round was made.
    pub fn bind<B: Network<TcpListener, SystemSockets>, N: Net>(
        network: &B,
        net: &N,
        alloc: Global,
        dict: &str,
        http: &str,
        host: &'h str,
    ) -> Result<Driver<'h>, BindFault>
        ensures beginning { IfOk result (λ driver. IsAt driver.event_loop.hub (beginning host.now)) }
        ensures last { IfOk result (λ driver. driver.event_loop.connections.last ≡ 0) }
        ensures binds { BindsBoth B.is_bound B.refuses B.is_over B.is_unwatched dict.now http.now (sockets_of result) }
        ensures told { IfOk result (λ driver. AreTold dict.now http.now driver.addresses) }
        ensures rounds { IfOk result (λ driver. driver.event_loop.rounds ≡ 0) }
        ensures failure { IfOk result (λ driver. driver.event_loop.failure ≡ None) }
    {
        let (sockets, addresses) = match bind_both(network, net, alloc, dict, http) {
            Ok(bound) => bound,
            Err(fault) => return Err(fault),
        };
        let Ok(event_loop) = EventLoop::new(alloc, sockets, host) else {
            return Err(BindFault::Memory);
        };
        Ok(Driver {
            addresses,
            event_loop,
        })
    }

    /// The addresses that were bound, for readers and for editors.
    pub fn addresses(&self) -> (SocketAddr, SocketAddr)
        ensures { result ≡ self.now.addresses }
    {
        self.addresses
    }
}
