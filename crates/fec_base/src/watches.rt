// Watches: one that keeps what it is told, one that counts, and one that tells nothing.
ghost use Rattle.std.specs.Prelude.{◌≡◌, ◌<◌, ◌≤◌, ◌-◌, ◌++◌, ◌∷◌, ◌↔◌, ◌⊎◌, [], length, IsTrue};
ghost use Rattle.std.specs.Prelude.{IsErr, OnOk, OnErr, IfOk, None, Some};
ghost use Rattle.std.specs.Io.KnownBytes.{Appends};
ghost use Rattle.fec_base.specs.Bytes.{AppendsFront};
ghost use Rattle.fec_base.specs.Causes.{HasCause, raised};
ghost use Rattle.fec_base.specs.Told.{AddsTold};
ghost use Rattle.fec_base.specs.Watches.{Progress, counted_up, progress_line, progress_text};

use crate::{Failed, NoMemory, Place, Watch, WriteFailed, WriteSink, write_all};
use itoa::Buffer;
use std::alloc::Global;
use std::io::Write;
use std::marker::Model;

// A symbol that was told: its place, and where its bytes begin and end among all that were told.
#[derive(Clone, Copy)]
struct Entry {
    place: Place,
    start: usize,
    end: usize,
}

/// Keeps what it is told, in order, until its room is used.
#[derive(Drop)]
pub struct ListWatch {
    entries: Vec<Entry>,
    bytes: Vec<u8>,
    places_room: usize,
    bytes_room: usize,
    faults: u64,
}

impl Model for ListWatch {
    ghost use Rattle.fec_base.specs.Watches.{ListView};
    ghost use Rattle.fec_base.specs.KeptWatch.{list_view, IsList};

    ghost Value = { ListView };

    ghost view = { list_view };

    ghost invariant = { IsList };
}

impl ListWatch {
    /// A watch with room for so many symbols, which have so many bytes together. The room is
    /// reserved here.
    pub fn new(alloc: Global, places: u32, bytes: u32) -> Result<ListWatch, NoMemory>
        ensures { IfOk result (λ watch. watch
            ≡ record { told = []; free_places = places; free_bytes = bytes; faults = 0 }) }
    {
        Ok(ListWatch {
            entries: Vec::with_capacity(alloc, places as usize)?,
            bytes: Vec::with_capacity(alloc, bytes as usize)?,
            places_room: places as usize,
            bytes_room: bytes as usize,
            faults: 0,
        })
    }

    // Whether one more symbol with so many bytes has room.
    fn has_room(&self, bytes: usize) -> bool
        ensures { IsTrue result ↔ ((0 < self.now.free_places) × (bytes ≤ self.now.free_bytes)) }
    {
        self.entries.len() < self.places_room && bytes <= self.bytes_room - self.bytes.len()
    }
}

impl Watch for ListWatch {
    ghost told = { λ w. Some w.told };

    ghost name = { λ _. 0 };

    ghost faults = { λ w. w.faults };

    fn rebuilt(&mut self, block: u32, esi: u32, bytes: &[u8]) -> Result<(), Failed>
        ensures told { AddsTold (Some self.old.told) (Some self.new.told) result
            (record { block = block; esi = esi; bytes = bytes.now }) }
        ensures ok { OnOk result (self.new ≡ record self.old {
          told = self.old.told ++ (record { block = block; esi = esi; bytes = bytes.now }) ∷ [];
          free_places = self.old.free_places - 1;
          free_bytes = self.old.free_bytes - length bytes.now;
        }) }

        ensures cause { HasCause self.old.faults self.new.faults result }
        ensures fails { IsErr result
            ↔ ((self.old.free_places ≡ 0) ⊎ (self.old.free_bytes < length bytes.now)) }
        ensures err { OnErr result (self.new
            ≡ record self.old { faults = raised self.old.faults }) }
    {
        if !self.has_room(bytes.len()) {
            self.faults = self.faults.saturating_add(1);
            return Err(Failed);
        }
        let start = self.bytes.len();
        let entry = Entry {
            place: Place { block, esi },
            start,
            end: start + bytes.len(),
        };
        match self.bytes.extend_from_slice(bytes) {
            Ok(()) => {}
            Err(_) => unreachable!(),
        }
        match self.entries.push(entry) {
            Ok(()) => Ok(()),
            Err(_) => unreachable!(),
        }
    }

    fn told_count(&self) -> u32 {
        self.entries.len() as u32
    }

    fn told_place(&self, i: u32) -> Option<Place> {
        match self.entries.get(i as usize) {
            Some(entry) => Some(entry.place),
            None => None,
        }
    }

    fn told_bytes(&self, i: u32) -> &[u8] {
        match self.entries.get(i as usize) {
            Some(entry) => &self.bytes[entry.start..entry.end],
            None => &[],
        }
    }
}

/// Counts the rebuilt symbols of a whole run, and writes a line at each 1,000th.
///
/// A symbol is counted also where the writing of its line fails; of that line the writer then has
/// a front, and nothing more is written. The count stands still at `u64::MAX`.
#[derive(Drop)]
pub struct ProgressWatch<W: Write> {
    sink: WriteSink<W>,
    count: u64,
}

impl<W: Write> Model for ProgressWatch<W> {
    ghost Value = { Progress W };

    ghost view = { λ p. record { inner = p.sink.inner; count = p.count; faults = p.sink.faults } };
}

impl<W: Write> ProgressWatch<W> {
    /// A watch that has counted nothing, and writes its lines to this writer.
    pub fn new(writer: W) -> ProgressWatch<W>
        ensures { result ≡ record { inner = writer; count = 0; faults = 0 } }
    {
        ProgressWatch {
            sink: WriteSink::new(writer),
            count: 0,
        }
    }

    // Writes the line that says how many were counted.
    fn put_line(&mut self) -> Result<(), Failed>
        ensures written { OnOk result
            (Appends (W.contents self.old.inner) (W.contents self.new.inner)
            (progress_line self.old.count)) }
        ensures cut { OnErr result
            (AppendsFront (W.contents self.old.inner) (W.contents self.new.inner)
            (progress_line self.old.count)) }
        ensures count { self.new.count ≡ self.old.count }
        ensures cause { HasCause self.old.faults self.new.faults result }
    {
        let mut digits = Buffer::new();
        let text = digits.format(self.count);
        self.put(b"rebuilt ")?;
        self.put(text.as_bytes())?;
        self.put(b"\n")?;
        Ok(())
    }

    // Writes a piece of a line.
    fn put(&mut self, piece: &[u8]) -> Result<(), Failed>
        ensures written { OnOk result
            (Appends (W.contents self.old.inner) (W.contents self.new.inner) piece.now) }
        ensures cut { OnErr result
            (AppendsFront (W.contents self.old.inner) (W.contents self.new.inner) piece.now) }
        ensures count { self.new.count ≡ self.old.count }
        ensures cause { HasCause self.old.faults self.new.faults result }
    {
        match write_all(&mut self.sink, piece) {
            Ok(()) => Ok(()),
            Err(WriteFailed) => Err(Failed),
        }
    }
}

impl<W: Write + Drop> Watch for ProgressWatch<W> {
    ghost told = { λ _. None };

    ghost name = { λ _. 0 };

    ghost faults = { λ p. p.faults };

    fn rebuilt(&mut self, _block: u32, _esi: u32, _bytes: &[u8]) -> Result<(), Failed>
        ensures count { self.new.count ≡ counted_up self.old.count }
        ensures written { OnOk result
            (Appends (W.contents self.old.inner) (W.contents self.new.inner)
            (progress_text self.new.count)) }
        ensures cut { OnErr result
            (AppendsFront (W.contents self.old.inner) (W.contents self.new.inner)
            (progress_text self.new.count)) }
        ensures cause { HasCause self.old.faults self.new.faults result }
    {
        self.count = self.count.saturating_add(1);
        if self.count % 1000 == 0 {
            self.put_line()?;
        }
        Ok(())
    }

    fn told_count(&self) -> u32 {
        0
    }

    fn told_place(&self, _i: u32) -> Option<Place> {
        None
    }

    fn told_bytes(&self, _i: u32) -> &[u8] {
        &[]
    }
}

/// A watch that tells nothing and never fails.
#[derive(Drop)]
pub struct QuietWatch;

impl Watch for QuietWatch {
    ghost told = { λ _. None };

    ghost name = { λ _. 0 };

    ghost faults = { λ _. 0 };

    fn rebuilt(&mut self, _block: u32, _esi: u32, _bytes: &[u8]) -> Result<(), Failed> {
        Ok(())
    }

    fn told_count(&self) -> u32 {
        0
    }

    fn told_place(&self, _i: u32) -> Option<Place> {
        None
    }

    fn told_bytes(&self, _i: u32) -> &[u8] {
        &[]
    }
}
