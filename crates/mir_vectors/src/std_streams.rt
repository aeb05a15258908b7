//! The adapters over `std` pass on the errors of a reader and a writer.

ghost use Rattle.std.specs.Prelude.{◌≤◌, IfOk};

use std::io;
use std::io::{Read, Write};
use streams::{Failed, Sink, Source, StdSink, StdSource};

/// A reader and writer whose first call fails and whose second takes or gives nothing.
#[derive(Drop)]
struct Uneven {
    calls: u8,
}

impl Uneven {
    fn turn(&mut self, most: usize) -> io::Result<usize>
        ensures { IfOk result (λ n. n ≤ most) }
    {
        self.calls = self.calls.saturating_add(1);
        match self.calls {
            1 => Err(io::Error::from(io::ErrorKind::Other)),
            2 => Ok(0),
            _ => Ok(most),
        }
    }
}

impl Read for Uneven {
    fn read(&mut self, buf: &mut [u8]) -> io::Result<usize> {
        self.turn(buf.len())
    }
}

impl Write for Uneven {
    fn write(&mut self, buf: &[u8]) -> io::Result<usize> {
        self.turn(buf.len())
    }

    fn flush(&mut self) -> io::Result<()> {
        Ok(())
    }
}

#[test]
fn std_streams_hand_errors_on(rt: HostRuntime) {
    let mut source = StdSource::new(Uneven { calls: 0 });
    let mut buf = [0u8; 2];
    assert_eq!(rt; source.read(&mut buf), Err(Failed));
    assert_eq!(rt; source.read(&mut buf), Ok(0));
    assert_eq!(rt; source.read(&mut buf), Ok(2));
    let mut sink = StdSink::new(Uneven { calls: 0 });
    assert_eq!(rt; sink.write(b"ab"), Err(Failed));
    assert_eq!(rt; sink.write(b"ab"), Err(Failed));
    assert_eq!(rt; sink.write(b"ab"), Ok(2));
}
