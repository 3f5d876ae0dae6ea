use fec_base::{MemSink, MemSource};
use oti_fields::PacketId;
use packet_file::{
    FileFault, Header, IDENTIFIER_LEN, next_packet, read_header, write_header, write_packet,
};
use std::alloc::Global;
use std::process::Abort;
use std::test::Fail;

// The header of a grid of width two with five bytes in symbols of two bytes: the last of its three
// source symbols has one byte of padding.
const GRID: [u8; 26] = *b"OFPK\x01\xc8\0\0\0\0\0\0\0\x05\0\x02\x01\0\0\x30\0\x07\0\0\0\x02";

const LAST: PacketId = PacketId { sbn: 0, esi: 2 };

// The header of the grid's file in a version.
fn header_of(alloc: Global, second: bool) -> Result<Header, Fail> {
    let mut input = MemSource::new(alloc, &GRID, 7, None)?;
    let header = read_header(&mut input)?;
    if second {
        return Ok(header.with_version(2));
    }
    Ok(header)
}

#[test]
fn a_header_has_either_version(rt: HostRuntime) -> Result<(), Fail> {
    let alloc = rt.alloc();
    assert!(rt; header_of(alloc, false)?.version() == 1);
    let second = header_of(alloc, true)?;
    assert!(rt; second.version() == 2);
    let mut output = MemSink::new(alloc, 26, 5)?;
    assert!(rt; write_header(&mut output, &second.copy()).is_ok());
    assert!(rt; output.bytes()[4..5] == [2u8]);
    Ok(())
}

// The packet of the last source symbol has these bytes in a version.
fn check_last(rt: &impl Abort, alloc: Global, second: bool, wanted: &[u8]) -> Result<(), Fail> {
    let header = header_of(alloc, second)?;
    assert!(rt; header.symbol_len() == 2);
    assert!(rt; header.plan().count() > 0);
    assert!(rt; header.symbol_count(0) > 2);
    assert!(rt; header.true_len(LAST) == 1);
    assert!(rt; !header.padding_is_zero(LAST, &[16, 1]));
    assert!(rt; header.padding_is_zero(LAST, &[16, 0]));
    let mut output = MemSink::new(alloc, 7, 2)?;
    assert!(rt; write_packet(&mut output, &header, LAST, &[16, 0]).is_ok());
    assert!(rt; output.bytes() == wanted);
    let mut input = MemSource::new(alloc, output.bytes(), 2, None)?;
    let mut piece = [1; IDENTIFIER_LEN + 2];
    assert!(rt; next_packet(&mut input, &header, 0, 1, &mut piece) == Ok(Some(LAST)));
    assert!(rt; piece == [0u8, 0, 0, 2, 16, 0]);
    Ok(())
}

#[test]
fn packets_of_either_version_go_both_ways(rt: HostRuntime) -> Result<(), Fail> {
    let alloc = rt.alloc();
    check_last(&rt, alloc, false, &[0, 0, 0, 2, 16, 0])?;
    check_last(&rt, alloc, true, &[0, 0, 0, 2, 0, 1, 16])?;
    Ok(())
}

// What comes of the first packet of version 2, of at most one, in an input that may fail.
fn check_next(
    rt: &impl Abort,
    alloc: Global,
    bytes: &[u8],
    stop: Option<usize>,
    fault: FileFault,
) -> Result<(), Fail> {
    let header = header_of(alloc, true)?;
    let mut input = MemSource::new(alloc, bytes, 2, stop)?;
    let mut piece = [0; IDENTIFIER_LEN + 2];
    assert!(rt; header.symbol_len() == 2);
    assert!(rt; next_packet(&mut input, &header, 0, 1, &mut piece) == Err(fault));
    Ok(())
}

#[test]
fn the_first_fault_of_a_packet_that_tells_its_length_is_named(rt: HostRuntime) -> Result<(), Fail> {
    let alloc = rt.alloc();
    let long = FileFault::BadLength {
        index: 0,
        length: 2,
    };
    let cases: [(&[u8], Option<usize>, FileFault); 6] = [
        (
            &[0, 0, 0, 2, 0],
            None,
            FileFault::ShortPacket { index: 0, have: 5 },
        ),
        (
            &[0, 0x10, 0, 0, 0, 2, 1, 2],
            None,
            FileFault::NoSuchBlock { index: 0, sbn: 1 },
        ),
        (
            &[0, 0, 0, 7, 0, 9],
            None,
            FileFault::NoSuchSymbol { index: 0, esi: 7 },
        ),
        (&[0, 0, 0, 2, 0, 2], None, long),
        (
            &[0, 0, 0, 0, 0, 2, 1],
            None,
            FileFault::ShortPacket { index: 0, have: 7 },
        ),
        (&[0, 0, 0, 0, 0, 2, 1, 2], Some(7), FileFault::ReadFault),
    ];
    for (bytes, stop, fault) in cases.iter() {
        check_next(&rt, alloc, bytes, *stop, *fault)?;
    }
    Ok(())
}
