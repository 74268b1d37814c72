//! What no clause says of the streams of std: that their bytes are handed on, and that a flush that fails is a fault.
use map_io::{Sink, Source, StdSink, StdSource};
use std::io;
use std::io::{Error, ErrorKind, Read, Write};

/// It fails at its first read and at its first flush, and takes nothing at its first write.
#[derive(Drop)]
struct Halting {
    reads: u8,
    writes: u8,
    flushes: u8,
    taken: [u8; 2],
}

/// Whether this is the first call.
fn is_first(calls: &mut u8) -> bool {
    let first = *calls == 0;
    *calls = 1;
    first
}

impl Read for Halting {
    fn read(&mut self, buf: &mut [u8]) -> io::Result<usize> {
        if is_first(&mut self.reads) {
            return Err(Error::from(ErrorKind::BrokenPipe));
        }
        if buf.is_empty() {
            return Ok(0);
        }
        buf[0] = 7;
        Ok(1)
    }
}

impl Write for Halting {
    fn write(&mut self, buf: &[u8]) -> io::Result<usize> {
        if is_first(&mut self.writes) || buf.len() < 2 {
            return Ok(0);
        }
        self.taken = [buf[0], buf[1]];
        Ok(2)
    }

    fn flush(&mut self) -> io::Result<()> {
        if is_first(&mut self.flushes) {
            return Err(Error::from(ErrorKind::BrokenPipe));
        }
        Ok(())
    }
}

#[test]
fn std_streams_are_handed_on(rt: HostRuntime) {
    let mut stream = Halting {
        reads: 0,
        writes: 0,
        flushes: 0,
        taken: [0, 0],
    };
    let mut source = StdSource::new(&mut stream);
    let mut into = [0; 2];
    assert!(rt; source.read(&mut into).is_err());
    assert_eq!(rt; source.read(&mut into).ok(), Some(1));
    assert_eq!(rt; into, [7, 0]);

    // No byte is taken, then the flush fails.
    let mut sink = StdSink::new(&mut stream);
    assert!(rt; sink.write(&[1, 2]).is_err());
    assert!(rt; sink.write(&[3, 4]).is_err());
    assert_eq!(rt; sink.write(&[5, 6]).ok(), Some(2));
    assert_eq!(rt; stream.taken, [5, 6]);
}
