use fec_base::{MemSink, MemSource};
use oti_fields::{Codec, FieldFault, PacketId};
use packet_file::{
    FileFault, Header, IDENTIFIER_LEN, Limit, next_packet, read_header, write_header, write_packet,
};
use std::alloc::Global;
use std::process::Abort;
use std::test::Fail;

// The header of the staircase code of three source symbols and seven encoding symbols of one byte.
const THREE_OF_SEVEN: [u8; 26] =
    *b"OFPK\x01\x03\0\0\0\0\0\0\0\x03\0\x01\x01\0\0\x30\0\x07\0\0\0\x01";

// The header of a grid of width three with five source symbols of one byte.
const GRID: [u8; 26] = *b"OFPK\x01\xc8\0\0\0\0\0\0\0\x05\0\x01\x01\0\0\x50\0\x0a\0\0\0\x03";

fn read(alloc: Global, bytes: &[u8]) -> Result<Result<Header, FileFault>, Fail> {
    let mut input = MemSource::new(alloc, bytes, 7, None)?;
    Ok(read_header(&mut input))
}

// The header's bytes with others from a place on.
fn patched(header: &[u8; 26], place: usize, others: &[u8]) -> [u8; 26] {
    let mut bytes = *header;
    for (byte, other) in bytes.iter_mut().skip(place).zip(others.iter()) {
        *byte = *other;
    }
    bytes
}

fn check_fault(rt: &impl Abort, alloc: Global, bytes: &[u8], fault: FileFault) -> Result<(), Fail> {
    assert!(rt; read(alloc, bytes)?.err() == Some(fault));
    Ok(())
}

#[test]
fn a_header_is_read_and_written(rt: HostRuntime) -> Result<(), Fail> {
    let alloc = rt.alloc();
    let header = read(alloc, &THREE_OF_SEVEN)??;
    assert!(rt; header.codec() == Codec::Staircase);
    assert!(rt; header.oti().length == 3);
    assert!(rt; header.symbol_len() == 1);
    assert!(rt; header.plan().count() == 1);
    assert!(rt; header.total_symbols() == 7);
    let mut output = MemSink::new(alloc, 26, 5)?;
    assert!(rt; write_header(&mut output, &header).is_ok());
    assert!(rt; output.bytes() == THREE_OF_SEVEN.as_slice());
    Ok(())
}

#[test]
fn the_first_fault_of_a_header_is_named(rt: HostRuntime) -> Result<(), Fail> {
    let alloc = rt.alloc();
    let cases: [(usize, &[u8], FileFault); 7] = [
        (0, &[0x50], FileFault::BadMagic),
        (4, &[3, 5], FileFault::BadVersion(3)),
        (5, &[5, 1], FileFault::BadCodec(5)),
        (6, &[1], FileFault::BadReserved),
        (7, &[1], FileFault::BadReserved),
        (16, &[2], FileFault::Field(FieldFault::GroupNotOne)),
        (22, &[0, 0, 0, 0], FileFault::Field(FieldFault::SeedRange)),
    ];
    for (place, others, fault) in cases.iter() {
        check_fault(
            &rt,
            alloc,
            &patched(&THREE_OF_SEVEN, *place, others),
            *fault,
        )?;
    }
    let no_width = patched(&GRID, 22, &[0, 0, 0, 0]);
    check_fault(
        &rt,
        alloc,
        &no_width,
        FileFault::Field(FieldFault::WidthZero),
    )?;
    let other_n = patched(&GRID, 21, &[11]);
    check_fault(&rt, alloc, &other_n, FileFault::Field(FieldFault::NotFixed))?;
    check_fault(&rt, alloc, &[], FileFault::ShortHeader { have: 0 })?;
    check_fault(
        &rt,
        alloc,
        &THREE_OF_SEVEN[..25],
        FileFault::ShortHeader { have: 25 },
    )?;
    Ok(())
}

#[test]
fn a_source_that_fails_within_the_header_is_a_read_fault(rt: HostRuntime) -> Result<(), Fail> {
    let mut input = MemSource::new(rt.alloc(), &THREE_OF_SEVEN, 7, Some(25))?;
    assert!(rt; read_header(&mut input).err() == Some(FileFault::ReadFault));
    Ok(())
}

// Bytes 8 to 21: the length, the symbol length, N1 and G, the greatest block length and n.
type Sizes = [u8; 14];

#[test]
fn each_limit_of_the_sizes_is_named(rt: HostRuntime) -> Result<(), Fail> {
    let alloc = rt.alloc();
    let cases: [(Sizes, FileFault); 5] = [
        (
            [0, 0, 0x10, 0, 0, 1, 0, 1, 1, 0, 0, 0x30, 0, 7],
            FileFault::TooLarge(Limit::Length),
        ),
        (
            [0, 0, 0, 0, 0x10, 1, 0, 1, 1, 0, 0, 0x10, 0, 1],
            FileFault::TooManyBlocks,
        ),
        (
            [0, 0, 0x10, 0, 0, 0, 0xff, 0xff, 1, 0x10, 0, 1, 0, 0],
            FileFault::TooLarge(Limit::BlockBytes),
        ),
        (
            [0, 0, 0, 0x40, 0, 1, 0, 1, 1, 0x10, 0, 1, 0, 0],
            FileFault::TooLarge(Limit::AllSymbols),
        ),
        (
            [0, 0, 0x10, 0, 0, 0, 4, 0, 1, 0, 0x3e, 0x80, 0x0b, 0xb8],
            FileFault::TooLarge(Limit::AllBytes),
        ),
    ];
    for (sizes, fault) in cases.iter() {
        check_fault(&rt, alloc, &patched(&THREE_OF_SEVEN, 8, sizes), *fault)?;
    }
    Ok(())
}

#[test]
fn sizes_at_their_limits_pass(rt: HostRuntime) -> Result<(), Fail> {
    let alloc = rt.alloc();
    // The length and the bytes of a block; the blocks; all symbols; the bytes of all symbols.
    let cases: [(Sizes, u32, u64); 4] = [
        (
            [0, 0, 0x10, 0, 0, 0, 0x10, 0, 1, 0x10, 0, 1, 0, 0],
            1,
            65_536,
        ),
        ([0, 0, 0, 0, 0x10, 0, 0, 1, 1, 0, 0, 0x10, 0, 1], 4096, 4096),
        (
            [0, 0, 0, 0x40, 0, 0, 0, 1, 1, 0x10, 0, 1, 0, 0],
            64,
            4_194_304,
        ),
        ([0, 0, 0x10, 0, 0, 0, 4, 0, 1, 0x08, 0, 1, 0, 0], 8, 524_288),
    ];
    for (sizes, blocks, symbols) in cases.iter() {
        let header = read(alloc, &patched(&THREE_OF_SEVEN, 8, sizes))??;
        assert!(rt; header.plan().count() == *blocks);
        assert!(rt; header.total_symbols() == *symbols);
    }
    Ok(())
}

#[test]
fn packets_go_both_ways(rt: HostRuntime) -> Result<(), Fail> {
    let alloc = rt.alloc();
    let header = read(alloc, &THREE_OF_SEVEN)??;
    let id = PacketId { sbn: 0, esi: 6 };
    assert!(rt; header.symbol_len() == 1);
    assert!(rt; header.plan().count() > 0);
    assert!(rt; header.symbol_count(0) > 6);
    assert!(rt; header.padding_is_zero(id, &[7]));
    let mut output = MemSink::new(alloc, 5, 2)?;
    assert!(rt; write_packet(&mut output, &header, id, &[7]).is_ok());
    assert!(rt; output.bytes() == [0, 0, 0, 6, 7].as_slice());
    let mut input = MemSource::new(alloc, output.bytes(), 2, None)?;
    let mut piece = [0; IDENTIFIER_LEN + 1];
    assert!(rt; next_packet(&mut input, &header, 0, 1, &mut piece) == Ok(Some(id)));
    assert!(rt; piece[IDENTIFIER_LEN] == 7);
    assert!(rt; next_packet(&mut input, &header, 1, 1, &mut piece) == Ok(None));
    Ok(())
}

// What comes of the packet number `index`, of at most three, in an input that may fail.
fn check_next(
    rt: &impl Abort,
    alloc: Global,
    bytes: &[u8],
    stop: Option<usize>,
    index: u64,
    answer: Result<Option<PacketId>, FileFault>,
) -> Result<(), Fail> {
    let header = read(alloc, &THREE_OF_SEVEN)??;
    let mut input = MemSource::new(alloc, bytes, 2, stop)?;
    let mut piece = [0; IDENTIFIER_LEN + 1];
    assert!(rt; header.symbol_len() == 1 && index <= 3);
    assert!(rt; next_packet(&mut input, &header, index, 3, &mut piece) == answer);
    Ok(())
}

#[test]
fn the_first_fault_of_a_packet_is_named(rt: HostRuntime) -> Result<(), Fail> {
    let alloc = rt.alloc();
    let last = PacketId { sbn: 0, esi: 6 };
    let cases: [(
        &[u8],
        Option<usize>,
        u64,
        Result<Option<PacketId>, FileFault>,
    ); 9] = [
        (&[0, 0, 0, 6, 7], None, 2, Ok(Some(last))),
        (
            &[0, 0x10, 0, 0, 1],
            None,
            0,
            Err(FileFault::NoSuchBlock { index: 0, sbn: 1 }),
        ),
        (
            &[0, 0, 0, 7, 1],
            None,
            0,
            Err(FileFault::NoSuchSymbol { index: 0, esi: 7 }),
        ),
        (
            &[0, 0],
            None,
            2,
            Err(FileFault::ShortPacket { index: 2, have: 2 }),
        ),
        (&[0, 0, 0, 6, 7], None, 3, Err(FileFault::TooManyPackets)),
        (&[0], None, 3, Err(FileFault::TooManyPackets)),
        (&[], None, 0, Ok(None)),
        (&[], None, 3, Ok(None)),
        (&[0, 0, 0, 6, 7], Some(4), 0, Err(FileFault::ReadFault)),
    ];
    for (bytes, stop, index, answer) in cases.iter() {
        check_next(&rt, alloc, bytes, *stop, *index, *answer)?;
    }
    Ok(())
}
