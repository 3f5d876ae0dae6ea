// What may be wrong with a packet file.
use oti_fields::FieldFault;
use std::error::Error;
use std::fmt;

/// A size of a file that is limited.
#[derive(Clone, Copy, Debug, PartialEq, Eq)]
pub enum Limit {
    /// The transfer length: at most 268,435,456 bytes.
    Length,
    /// The encoding symbols of one block: at most 268,435,456 bytes.
    BlockBytes,
    /// The encoding symbols of all blocks: at most 4,194,304.
    AllSymbols,
    /// The encoding symbols of all blocks: at most 536,870,912 bytes.
    AllBytes,
}

/// The first fault of a packet file. The numbers are those that were found.
#[derive(Clone, Copy, Debug, PartialEq, Eq)]
pub enum FileFault {
    /// The input ended within the header.
    ShortHeader { have: u32 },
    /// The first four bytes aren't `OFPK`.
    BadMagic,
    /// No version has the number.
    BadVersion(u8),
    /// No codec has the number.
    BadCodec(u8),
    /// A reserved byte isn't 0.
    BadReserved,
    /// A field of the transmission information has a fault.
    Field(FieldFault),
    /// The input ended within a packet.
    ShortPacket { index: u64, have: u32 },
    /// A packet is of a block that the file doesn't have.
    NoSuchBlock { index: u64, sbn: u32 },
    /// A packet is of an encoding symbol that its block doesn't have.
    NoSuchSymbol { index: u64, esi: u32 },
    /// A packet of version 2 has another length than its encoding symbol has.
    BadLength { index: u64, length: u32 },
    /// A packet's padding isn't zero, so version 2 can't have it.
    BadPadding { index: u64 },
    /// A size passes its limit.
    TooLarge(Limit),
    /// There are more than 4,096 blocks.
    TooManyBlocks,
    /// There are more packets than may be read.
    TooManyPackets,
    /// The input failed.
    ReadFault,
}

impl fmt::Display for Limit {
    fn fmt<W: fmt::Write>(&self, f: &mut fmt::Formatter<W>) -> fmt::Result {
        match self {
            Limit::Length => write!(f, "the length of the object"),
            Limit::BlockBytes => write!(f, "the bytes of a block's symbols"),
            Limit::AllSymbols => write!(f, "the number of all symbols"),
            Limit::AllBytes => write!(f, "the bytes of all symbols"),
        }
    }
}

impl fmt::Display for FileFault {
    fn fmt<W: fmt::Write>(&self, f: &mut fmt::Formatter<W>) -> fmt::Result {
        match self {
            FileFault::ShortHeader { have } => write!(f, "the header ends after {have} bytes"),
            FileFault::BadMagic => write!(f, "this is no packet file"),
            FileFault::BadVersion(version) => write!(f, "unknown version {version}"),
            FileFault::BadCodec(number) => write!(f, "unknown codec {number}"),
            FileFault::BadReserved => write!(f, "a reserved byte isn't 0"),
            FileFault::Field(fault) => write!(f, "header: {fault}"),
            FileFault::ShortPacket { index, have } => write!(
                f,
                "packet {index} ends after {have} bytes"
            ),
            FileFault::NoSuchBlock { index, sbn } => write!(
                f,
                "packet {index}: there is no block {sbn}"
            ),
            FileFault::NoSuchSymbol { index, esi } => write!(
                f,
                "packet {index}: its block has no symbol {esi}"
            ),
            FileFault::BadLength { index, length } => write!(
                f,
                "packet {index}: its length isn't {length}"
            ),
            FileFault::BadPadding { index } => write!(f, "packet {index}: its padding isn't zero"),
            FileFault::TooLarge(limit) => write!(f, "too large: {limit}"),
            FileFault::TooManyBlocks => write!(f, "more than 4096 blocks"),
            FileFault::TooManyPackets => write!(f, "more packets than may be read"),
            FileFault::ReadFault => write!(f, "the source failed"),
        }
    }
}

impl Error for FileFault {}
