//! A listening socket as a door.
ghost use Rattle.std.specs.Prelude.{◌≡◌, None, IfOk};

use crate::faults::counted_if;
use crate::{Door, Failed, LoopbackLink};
use std::net::{Net, OpenListener};

/// A listening socket. It waits for a connection as long as none comes, and tells no past links.
#[derive(Drop)]
pub struct LoopbackDoor<R: Net> {
    listener: R::Listener,
    faults: u64,
    broken: u64,
}

impl<R: Net> LoopbackDoor<R> {
    pub(crate) fn over(listener: R::Listener) -> Self
        ensures no_fault { result.faults ≡ 0 }
        ensures none_broken { result.broken ≡ 0 }
    {
        LoopbackDoor {
            listener,
            faults: 0,
            broken: 0,
        }
    }

    /// The port at which it listens. Where that was to be port 0, it is the one that the system chose. It fails where the
    /// system does not say.
    pub fn port(&self) -> Result<u16, Failed> {
        match self.listener.local_addr() {
            Ok(address) => Ok(address.port()),
            Err(_) => Err(Failed),
        }
    }

    /// How often a call has failed.
    pub fn fault_count(&self) -> u64
        ensures { result ≡ self.now.faults }
    {
        self.faults
    }

    /// How many links were hung up with a fault.
    pub fn broken_count(&self) -> u64
        ensures { result ≡ self.now.broken }
    {
        self.broken
    }

    fn accept_link(&self) -> Result<LoopbackLink<R::Stream>, Failed>
        ensures no_reading_failed { IfOk result (λ link. link.input.faults ≡ 0) }
        ensures no_writing_failed { IfOk result (λ link. link.write_faults ≡ 0) }
    {
        let Ok((stream, _)) = self.listener.accept() else {
            return Err(Failed);
        };
        LoopbackLink::over(stream)
    }
}

impl<R: Net> Door for LoopbackDoor<R> {
    type Link = LoopbackLink<R::Stream>;

    ghost past = { λ _. None };

    ghost faults = { λ door. door.faults };

    ghost broken = { λ door. door.broken };

    /// That a connection was lost before it was accepted is a fault.
    fn accept(&mut self) -> Result<LoopbackLink<R::Stream>, Failed> {
        match self.accept_link() {
            Ok(link) => Ok(link),
            Err(Failed) => {
                self.faults = self.faults.saturating_add(1);
                Err(Failed)
            }
        }
    }

    /// Closes the connection.
    fn hang_up(&mut self, link: LoopbackLink<R::Stream>) {
        self.broken = counted_if(link.has_fault(), self.broken);
    }
}
