use fec_base::{Failed, ReadSource, Source, WriteFailed, WriteSink, read_full, write_all};
use std::io;
use std::io::{Cursor, ErrorKind, Read};
use std::test::Fail;

#[derive(Drop)]
struct BrokenReader;

impl Read for BrokenReader {
    fn read(&mut self, _buf: &mut [u8]) -> io::Result<usize> {
        Err(ErrorKind::Interrupted.into())
    }
}

#[test]
fn reads_what_the_reader_gives(rt: HostRuntime) {
    let mut source = ReadSource::new(b"01234".as_slice());
    let mut buf = [0u8; 3];
    assert!(rt; read_full(&mut source, &mut buf) == Ok(3));
    assert!(rt; buf.as_slice() == b"012".as_slice());
    assert!(rt; read_full(&mut source, &mut buf) == Ok(2));
    assert!(rt; buf.as_slice() == b"342".as_slice());
}

#[test]
fn an_interruption_is_a_fault_each_time(rt: HostRuntime) {
    let mut source = ReadSource::new(BrokenReader);
    let mut buf = [0u8; 3];
    assert!(rt; source.read(&mut buf) == Err(Failed));
    assert!(rt; source.read(&mut buf) == Err(Failed));
}

#[test]
fn writes_into_the_writer(rt: HostRuntime) -> Result<(), Fail> {
    let mut text = Vec::new(rt.alloc());
    let mut sink = WriteSink::new(&mut text);
    assert!(rt; write_all(&mut sink, b"012") == Ok(()));
    assert!(rt; write_all(&mut sink, b"34") == Ok(()));
    assert!(rt; text.as_slice() == b"01234".as_slice());
    Ok(())
}

#[test]
fn a_write_that_takes_nothing_is_a_fault(rt: HostRuntime) {
    let mut room = [0u8; 2];
    let mut sink = WriteSink::new(Cursor::new(room.as_mut_slice()));
    assert!(rt; write_all(&mut sink, b"") == Ok(()));
    assert!(rt; write_all(&mut sink, b"012") == Err(WriteFailed));
    assert!(rt; room.as_slice() == b"01".as_slice());
}
