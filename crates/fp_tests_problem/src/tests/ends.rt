//! Streams that fail, and what memory gives and takes.

use fp_ends::{
    MemSink, MemSource, ReadEnd, StdSink, StdSource, SureSink, SureSource, WriteFault, read_all,
    write_all,
};
use std::io;
use std::io::{Read, Write};
use std::test::Fail;

// A stream that moves little for a few calls, then fails to read and takes nothing.
#[derive(Drop)]
struct Worn {
    left: u8,
}

impl Read for Worn {
    fn read(&mut self, buf: &mut [u8]) -> io::Result<usize> {
        if self.left == 0 || buf.is_empty() {
            return Err(io::Error::from(io::ErrorKind::Other));
        }
        self.left -= 1;
        buf[0] = b'x';
        Ok(1)
    }
}

impl Write for Worn {
    fn write(&mut self, buf: &[u8]) -> io::Result<usize> {
        if self.left == 0 {
            return Ok(0);
        }
        self.left -= 1;
        Ok(buf.len().min(2))
    }

    fn flush(&mut self) -> io::Result<()> {
        Ok(())
    }
}

#[test]
fn a_reader_fails_in_mid_stream(rt: HostRuntime) -> Result<(), Fail> {
    let mut source = StdSource::new(Worn { left: 2 });
    assert!(rt; read_all(rt.alloc(), &mut source, 9) == Err(ReadEnd::ReadFault));
    let mut short = StdSource::new(Worn { left: 2 });
    assert!(rt; read_all(rt.alloc(), &mut short, 1) == Err(ReadEnd::TooLong));
    let bytes = read_all(rt.alloc(), &mut StdSource::new(b"hello".as_slice()), 5)?;
    assert_eq!(rt; bytes.as_slice(), b"hello".as_slice());
    Ok(())
}

#[test]
fn a_writer_takes_no_more(rt: HostRuntime) -> Result<(), Fail> {
    let mut sink = StdSink::new(Worn { left: 2 });
    assert!(rt; write_all(&mut sink, b"abcd").is_ok());
    assert!(rt; write_all(&mut sink, b"").is_ok());
    assert_eq!(rt; write_all(&mut sink, b"e"), Err(WriteFault));
    Ok(())
}

#[test]
fn memory_gives_and_takes_bytes(rt: HostRuntime) -> Result<(), Fail> {
    let alloc = rt.alloc();
    let mut source = MemSource::new(b"hello".to_vec(alloc)?, 2, Vec::new(alloc));
    let bytes = read_all(alloc, &mut source, 5)?;
    assert_eq!(rt; bytes.as_slice(), b"hello".as_slice());
    let mut cut = MemSource::new(b"hello".to_vec(alloc)?, 2, vec![in alloc; 2]?);
    assert!(rt; read_all(alloc, &mut cut, 5) == Err(ReadEnd::ReadFault));
    let again = read_all(alloc, &mut SureSource::new(bytes), 5)?;
    let mut sink = MemSink::new(alloc, 5, 2, Vec::new(alloc))?;
    assert!(rt; write_all(&mut sink, &again).is_ok());
    assert_eq!(rt; sink.bytes(), b"hello".as_slice());
    assert_eq!(rt; write_all(&mut sink, b"x"), Err(WriteFault));
    let mut stuck = MemSink::new(alloc, 64, 7, vec![in alloc; 2]?)?;
    assert_eq!(rt;
        write_all(&mut stuck, b"answer,direct,104\n"),
        Err(WriteFault)
    );
    assert_eq!(rt; stuck.bytes(), b"answer,".as_slice());
    assert!(rt; write_all(&mut SureSink::new(), b"x").is_ok());
    Ok(())
}
