//! The system's TCP on the loopback address as a net.
ghost use Rattle.std.specs.Prelude.{◌≡◌, None, IfOk};

use super::{address, patience};
use crate::faults::counted_if;
use crate::{Failed, LoopbackDoor, LoopbackLink, Net};
use std::net::{TcpListener, TcpStream};

/// TCP on the loopback address. It waits for what it dials for 30 seconds at most, and tells no past links. That the
/// connections are those to this address and port is trusted.
#[derive(Drop)]
pub struct LoopbackNet<'a, R> {
    system: &'a R,
    port: Option<u16>,
    faults: u64,
    broken: u64,
}

impl<'a, R: std::net::Net> LoopbackNet<'a, R> {
    pub fn new(system: &'a R) -> Self
        ensures no_port { result.port ≡ None }
        ensures no_fault { result.faults ≡ 0 }
        ensures none_broken { result.broken ≡ 0 }
    {
        LoopbackNet {
            system,
            port: None,
            faults: 0,
            broken: 0,
        }
    }

    /// How often a call has failed, and how many doors were shut with such a fault.
    pub fn fault_count(&self) -> u64
        ensures { result ≡ self.now.faults }
    {
        self.faults
    }

    /// How many links were hung up with a fault, and how many doors were shut that had such links.
    pub fn broken_count(&self) -> u64
        ensures { result ≡ self.now.broken }
    {
        self.broken
    }

    fn connect(&self, port: u16) -> Result<LoopbackLink<R::Stream>, Failed>
        ensures no_reading_failed { IfOk result (λ link. link.input.faults ≡ 0) }
        ensures no_writing_failed { IfOk result (λ link. link.write_faults ≡ 0) }
    {
        match TcpStream::connect_timeout(self.system, &address(port), patience()) {
            Ok(stream) => LoopbackLink::over(stream),
            Err(_) => Err(Failed),
        }
    }
}

impl<'a, R: std::net::Net> Net for LoopbackNet<'a, R> {
    type Link = LoopbackLink<R::Stream>;

    type Door = LoopbackDoor<R>;

    ghost past = { λ _. None };

    ghost faults = { λ net. net.faults };

    ghost broken = { λ net. net.broken };

    ghost port = { λ net. net.port };

    /// That nobody listens at the port is a fault.
    fn dial(&mut self, number: u16) -> Result<LoopbackLink<R::Stream>, Failed> {
        self.port = Some(number);
        match self.connect(number) {
            Ok(link) => Ok(link),
            Err(Failed) => {
                self.faults = self.faults.saturating_add(1);
                Err(Failed)
            }
        }
    }

    /// That another process listens at the port is a fault.
    fn listen(&mut self, number: u16) -> Result<LoopbackDoor<R>, Failed> {
        self.port = Some(number);
        match TcpListener::bind(self.system, address(number)) {
            Ok(listener) => Ok(LoopbackDoor::over(listener)),
            Err(_) => {
                self.faults = self.faults.saturating_add(1);
                Err(Failed)
            }
        }
    }

    /// Closes the connection.
    fn hang_up(&mut self, link: LoopbackLink<R::Stream>) {
        self.broken = counted_if(link.has_fault(), self.broken);
    }

    /// Closes the socket. Connections that wait there are lost.
    fn shut(&mut self, door: LoopbackDoor<R>) {
        self.faults = counted_if(door.fault_count() > 0, self.faults);
        self.broken = counted_if(door.broken_count() > 0, self.broken);
    }
}
