// Connections: over the system's TCP, and over a stream that is reset.
use crate::*;
use std::io;
use std::io::{Error, ErrorKind, Read, Write};
use std::net::OpenStream;
use std::test::Fail;
use std::time::Duration;

// A peer that sends two bytes at the first call, is interrupted at the second one, and is silent from then on. It takes
// nothing.
#[derive(Drop)]
struct SilentPeer {
    reads: u8,
}

impl Read for SilentPeer {
    fn read(&mut self, buf: &mut [u8]) -> io::Result<usize> {
        self.reads = self.reads.saturating_add(1);
        if self.reads == 1 && buf.len() >= 2 {
            buf[0] = 7;
            buf[1] = 8;
            return Ok(2);
        }
        match self.reads {
            2 => Err(Error::from(ErrorKind::Interrupted)),
            _ => Err(Error::from(ErrorKind::WouldBlock)),
        }
    }
}

impl Write for SilentPeer {
    fn write(&mut self, _buf: &[u8]) -> io::Result<usize> {
        Err(Error::from(ErrorKind::ConnectionReset))
    }

    fn flush(&mut self) -> io::Result<()> {
        Ok(())
    }
}

impl OpenStream for SilentPeer {
    fn set_nodelay(&self, _nodelay: bool) -> io::Result<()> {
        Ok(())
    }

    fn set_read_timeout(&self, _dur: Option<Duration>) -> io::Result<()> {
        Ok(())
    }

    fn set_write_timeout(&self, _dur: Option<Duration>) -> io::Result<()> {
        Ok(())
    }
}

#[test]
fn bytes_that_were_read_ahead_are_given_before_the_peer_is_waited_for(
    rt: HostRuntime,
) -> Result<(), Fail> {
    let mut link = LoopbackLink::over(SilentPeer { reads: 0 })?;
    let mut room = [0; 1];
    assert_eq!(rt; link.read(&mut room), Ok(1));
    assert_eq!(rt; room, [7]);
    assert_eq!(rt; link.read(&mut room), Ok(1));
    assert_eq!(rt; room, [8]);
    assert!(rt; !link.has_fault());
    assert_eq!(rt; link.read(&mut room), Err(Failed));
    assert!(rt; link.has_fault());
    Ok(())
}

#[test]
fn a_write_to_a_connection_that_was_reset_is_a_fault(rt: HostRuntime) -> Result<(), Fail> {
    let mut link = LoopbackLink::over(SilentPeer { reads: 0 })?;
    assert_eq!(rt;
        write_whole(&mut link, b"ab"),
        Err(WriteFault { written: 0 })
    );
    assert!(rt; link.has_fault());
    Ok(())
}

#[test]
fn bytes_go_through_the_loopback_address_and_back(rt: HostRuntime) -> Result<(), Fail> {
    let mut server = LoopbackNet::new(&rt);
    let mut client = LoopbackNet::new(&rt);
    let mut door = server.listen(0)?;
    let port = door.port()?;
    let mut near = client.dial(port)?;
    let mut far = door.accept()?;
    write_whole(&mut near, b"ping")?;
    let mut room = [0; 1];
    for wanted in b"ping" {
        assert_eq!(rt; far.read(&mut room), Ok(1));
        assert_eq!(rt; room[0], *wanted);
    }
    write_whole(&mut far, b"pong!")?;
    door.hang_up(far);
    let bytes = read_up_to(rt.alloc(), &mut near, 9)?;
    assert_eq!(rt; bytes.as_slice(), b"pong!".as_slice());
    assert!(rt; !near.has_fault());
    client.hang_up(near);
    server.shut(door);
    assert_eq!(rt; server.fault_count(), 0);
    assert_eq!(rt; server.broken_count(), 0);
    assert!(rt; client.dial(port).is_err());
    assert_eq!(rt; client.fault_count(), 1);
    Ok(())
}
