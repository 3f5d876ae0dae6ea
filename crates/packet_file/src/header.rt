// The header, and the sizes of its blocks.
ghost use Rattle.std.specs.Prelude.{◌≡◌, ◌<◌, ◌≤◌, ◌*◌, ◌⊎◌, ◌↔◌, IsTrue, length, slice_index};
ghost use Rattle.std.specs.Prelude.{Some, None, IfOk, IfErr, OnOk};
ghost use Rattle.oti_fields.specs.Fields.{FitsBits};
ghost use Rattle.oti_fields.specs.Faults.{field_fault};
ghost use Rattle.packet_file.specs.Header.{IsHeader, size_fault, source_counts, symbols_by};
ghost use Rattle.packet_file.specs.Header.{total_symbols, version_number};
ghost use Rattle.packet_file.specs.Packets.{IsIdOf, IsPacketOf, block_symbols, is_last, last_len};
ghost use Rattle.packet_file.specs.Packets.{payload_len, true_len};
ghost use Rattle.packet_file.specs.Files.{HasZeroPadding};
ghost use Rattle.packet_file.specs.declared.version.Version.{Version};
ghost use Rattle.packet_file.specs.declared.version.Version.TheVariants.{One};
ghost use Rattle.blocking.specs.Blocks.{block_count};

use crate::version::Version;
use crate::{FileFault, Limit};
use blocking::{Plan, TooManyBlocks, ldpc_n};
use oti_fields::{Codec, Oti, PacketId};
use std::marker::Model;
use xor_lanes::is_zero;

// The limits of a file's sizes.
const MOST_BYTES: u64 = 268_435_456;

const MOST_BLOCK_BYTES: u64 = 268_435_456;

const MOST_SYMBOLS: u64 = 4_194_304;

const MOST_SYMBOL_BYTES: u64 = 536_870_912;

/// What the header of a packet file says: the version, the codec and the transmission information,
/// whose fields have no fault and whose sizes are within the limits, and the plan of the blocks.
#[derive(Drop)]
pub struct Header {
    version: Version,
    codec: Codec,
    oti: Oti,
    plan: Plan,
}

impl Model for Header {
    ghost use Rattle.std.specs.Prelude.{◌≡◌};
    ghost use Rattle.packet_file.specs.Header.{HeaderFields, IsHeader, source_counts};

    ghost Value = { HeaderFields };

    ghost view = { λ h. record { version = h.version; codec = h.codec; oti = h.oti } };

    ghost invariant = { λ h. IsHeader (record { version = h.version; codec = h.codec; oti = h.oti })
        × (h.plan ≡ source_counts (record { version = h.version; codec = h.codec; oti = h.oti })) };
}

impl Header {
    /// The header of these fields, of version 1, or the first limit that its sizes pass:
    /// `TooManyBlocks` or `TooLarge`, in the order length, blocks, bytes of a block, symbols,
    /// bytes.
    pub fn new(codec: Codec, oti: Oti) -> Result<Header, FileFault>
        requires bits { FitsBits oti }
        requires fields { field_fault codec oti ≡ None }
        ensures ok { IfOk result (λ h. h ≡ record { version = One; codec = codec; oti = oti }) }
        ensures err { IfErr result (λ fault.
            size_fault (record { version = One; codec = codec; oti = oti }) ≡ Some fault) }
    {
        if oti.length > MOST_BYTES {
            return Err(FileFault::TooLarge(Limit::Length));
        }
        let plan = match Plan::of(oti.length, oti.symbol, oti.block) {
            Ok(plan) => plan,
            Err(TooManyBlocks) => return Err(FileFault::TooManyBlocks),
        };
        check_sizes(codec, &oti, &plan)?;
        Ok(Header {
            version: Version::One,
            codec,
            oti,
            plan,
        })
    }

    /// The same header once more.
    pub fn copy(&self) -> Header
        ensures { result ≡ self.now }
    {
        match Header::new(self.codec(), *self.oti()) {
            Ok(header) => header.of_version(self.form()),
            Err(_) => unreachable!(),
        }
    }

    /// The same header but for its version, which is 1 or 2.
    pub fn with_version(self, version: u8) -> Header
        requires { (version ≡ 1) ⊎ (version ≡ 2) }
        ensures { (v : Version) → version_number v ≡ version
            → result ≡ record self { version = v } }
    {
        match Version::from_number(version) {
            Some(version) => self.of_version(version),
            None => unreachable!(),
        }
    }

    /// The version: 1 or 2.
    pub fn version(&self) -> u8
        ensures { result ≡ version_number self.now.version }
    {
        self.version.number()
    }

    // The same header, of this version.
    pub(crate) fn of_version(mut self, version: Version) -> Header
        ensures { result ≡ record self { version = version } }
    {
        self.version = version;
        self
    }

    // How the packets are spelled.
    pub(crate) fn form(&self) -> Version
        ensures { result ≡ self.now.version }
    {
        self.version
    }

    /// The codec.
    pub fn codec(&self) -> Codec
        ensures { result ≡ self.now.codec }
    {
        self.codec
    }

    /// The transmission information.
    pub fn oti(&self) -> &Oti
        ensures value { result.now ≡ self.now.oti }
        ensures header { IsHeader self.now }
    {
        &self.oti
    }

    /// How many source symbols each block has.
    pub fn plan(&self) -> &Plan
        ensures { result.now ≡ source_counts self.now }
    {
        &self.plan
    }

    /// The length of an encoding symbol in bytes, from 1 to 65,535.
    pub fn symbol_len(&self) -> u32
        ensures value { result ≡ self.now.oti.symbol }
        ensures some { 1 ≤ result }
        ensures most { result ≤ 65535 }
    {
        self.oti.symbol
    }

    /// How many source symbols block i has, at least 1.
    pub fn source_count(&self, i: u32) -> u32
        requires { i < length (source_counts self.now) }
        ensures value { result ≡ slice_index (source_counts self.now) i }
        ensures some { 1 ≤ result }
        ensures within { result ≤ block_symbols self.now i }
    {
        self.plan.block_len(i)
    }

    /// How many encoding symbols block i has: at least as many as source symbols, at most 65,536,
    /// and at most 268,435,456 bytes together.
    pub fn symbol_count(&self, i: u32) -> u32
        requires { i < length (source_counts self.now) }
        ensures value { result ≡ block_symbols self.now i }
        ensures most { result ≤ 65536 }
        ensures bytes { result * self.now.oti.symbol ≤ 268435456 }
    {
        count_symbols(self.codec, &self.oti, self.plan.block_len(i))
    }

    /// How many bytes of an encoding symbol are no padding: all, but where it is the last source
    /// symbol of the object.
    pub fn true_len(&self, id: PacketId) -> u32
        requires { IsIdOf self.now id }
        ensures value { result ≡ true_len self.now id }
        ensures some { 1 ≤ result }
        ensures most { result ≤ self.now.oti.symbol }
        ensures bits { result ≤ 65535 }
    {
        let len = self.symbol_len();
        if is_last(self, id) {
            last_len(self.oti())
        } else {
            len
        }
    }

    /// How many bytes of an encoding symbol its packet has: all, or in version 2 those that are no
    /// padding.
    pub fn payload_len(&self, id: PacketId) -> u32
        requires { IsIdOf self.now id }
        ensures value { result ≡ payload_len self.now id }
        ensures some { 1 ≤ result }
        ensures most { result ≤ self.now.oti.symbol }
    {
        match self.version {
            Version::One => self.oti.symbol,
            Version::Two => self.true_len(id),
        }
    }

    /// Whether the padding of an encoding symbol is zero. Where it is, the symbol makes a packet of
    /// the file, in either version.
    pub fn padding_is_zero(&self, id: PacketId, symbol: &[u8]) -> bool
        requires id { IsIdOf self.now id }
        requires symbol { length symbol.now ≡ self.now.oti.symbol }
        ensures exactly { IsTrue result ↔ HasZeroPadding self.now (id, symbol.now) }
        ensures packet { IsTrue result → IsPacketOf self.now (id, symbol.now) }
    {
        has_zero_padding(self, id, symbol)
    }

    /// How many encoding symbols all blocks have, at most 4,194,304.
    pub fn total_symbols(&self) -> u64
        ensures value { result ≡ total_symbols self.now }
        ensures most { result ≤ 4194304 }
    {
        sum_symbols(self.codec, &self.oti, &self.plan)
    }
}

// Whether an encoding symbol is the object's last source symbol.
fn is_last(h: &Header, id: PacketId) -> bool
    requires { IsIdOf h.now id }
    ensures { result ≡ is_last h.now id }
{
    // A header's limits let the numbers fit.
    let oti = h.oti();
    prove!(oti.symbol == h.symbol_len());
    id.sbn + 1 == h.plan().count() && id.esi + 1 == h.source_count(id.sbn)
}

// Whether the padding of an encoding symbol is zero.
fn has_zero_padding(h: &Header, id: PacketId, symbol: &[u8]) -> bool
    requires id { IsIdOf h.now id }
    requires symbol { length symbol.now ≡ h.now.oti.symbol }
    ensures { IsTrue result ↔ HasZeroPadding h.now (id, symbol.now) }
{
    is_zero(&symbol[h.true_len(id) as usize..])
}

// How many bytes the object has behind all its source symbols but the last.
fn last_len(oti: &Oti) -> u32
    requires symbol { 1 ≤ oti.now.symbol }
    requires bytes { 1 ≤ oti.now.length }
    ensures value { result ≡ last_len oti.now }
    ensures some { 1 ≤ result }
    ensures most { result ≤ oti.now.symbol }
{
    let len = oti.symbol as u64;
    (oti.length - (oti.length.div_ceil(len) - 1) * len) as u32
}

// How many encoding symbols a block of k source symbols has.
fn count_symbols(codec: Codec, oti: &Oti, k: u32) -> u32
    requires fields { field_fault codec oti.now ≡ None }
    requires some { 1 ≤ k }
    requires within { k ≤ oti.now.block }
    ensures value { result ≡ symbols_by codec oti.now k }
    ensures least { k ≤ result }
    ensures most { result ≤ 65536 }
{
    match codec.grid_size(k, oti.seed) {
        Some(n) => n as u32,
        None => ldpc_n(k, oti.block, oti.max_n),
    }
}

// How many encoding symbols all blocks have.
fn sum_symbols(codec: Codec, oti: &Oti, plan: &Plan) -> u64
    requires fields { field_fault codec oti.now ≡ None }
    requires plan { plan.now
        ≡ source_counts (record { version = One; codec = codec; oti = oti.now }) }
    ensures value { result
        ≡ total_symbols (record { version = One; codec = codec; oti = oti.now }) }
    ensures most { result ≤ 4096 * 65536 }
{
    let mut total = 0;
    for i in 0..plan.count() {
        total += count_symbols(codec, oti, plan.block_len(i)) as u64;
    }
    total
}

// Whether the sizes of the blocks are within the limits. The first block is the greatest.
fn check_sizes(codec: Codec, oti: &Oti, plan: &Plan) -> Result<(), FileFault>
    requires bits { FitsBits oti.now }
    requires fields { field_fault codec oti.now ≡ None }
    requires length { oti.now.length ≤ 268435456 }
    requires few { block_count oti.now.length oti.now.symbol oti.now.block ≤ 4096 }
    requires plan { plan.now
        ≡ source_counts (record { version = One; codec = codec; oti = oti.now }) }
    ensures ok { OnOk result
        (size_fault (record { version = One; codec = codec; oti = oti.now }) ≡ None) }
    ensures err { IfErr result (λ fault.
        size_fault (record { version = One; codec = codec; oti = oti.now }) ≡ Some fault) }
{
    if plan.count() == 0 {
        return Ok(());
    }
    let len = oti.symbol as u64;
    let greatest = count_symbols(codec, oti, plan.block_len(0)) as u64;
    if greatest * len > MOST_BLOCK_BYTES {
        return Err(FileFault::TooLarge(Limit::BlockBytes));
    }
    let total = sum_symbols(codec, oti, plan);
    if total > MOST_SYMBOLS {
        return Err(FileFault::TooLarge(Limit::AllSymbols));
    }
    if total * len > MOST_SYMBOL_BYTES {
        return Err(FileFault::TooLarge(Limit::AllBytes));
    }
    Ok(())
}
