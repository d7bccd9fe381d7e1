//! Connections over TCP on the loopback address, 127.0.0.1.
use std::net::{Ipv4Addr, SocketAddr, SocketAddrV4};
use std::time::Duration;

mod door;
mod link;
mod net;

pub use door::LoopbackDoor;
pub use link::LoopbackLink;
pub use net::LoopbackNet;

// How long one call of the system waits for a silent peer.
fn patience() -> Duration {
    Duration::from_secs(30)
}

fn address(port: u16) -> SocketAddr {
    SocketAddr::V4(SocketAddrV4::new(Ipv4Addr::LOCALHOST, port))
}
