// Bytes that wait for a sink, so that it is handed many packets as one piece.
ghost use Rattle.std.specs.Prelude.{◌≡◌, ◌≤◌, [], length, IfOk, OnOk, OnErr};
ghost use Rattle.std.specs.Io.KnownBytes.{Appends};
ghost use Rattle.fec_base.specs.Bytes.{AppendsFront};
ghost use Rattle.fec_base.specs.Causes.{HasCause};
ghost use Rattle.object_file.specs.Staged.{PassesOn, Waiting};

use fec_base::{NoMemory, Sink, WriteFailed, write_all};
use std::alloc::Global;
use std::marker::Model;

/// A buffer in front of a sink. All its memory is taken when it is made. Nothing is written when it
/// is dropped: what waits at the end is handed over by `flush`, whose failure is told.
#[derive(Drop)]
pub struct Staging {
    bytes: Vec<u8>,
    room: usize,
}

impl Model for Staging {
    ghost use Rattle.std.specs.Prelude.{◌≤◌, vec_len, vec_capacity};
    ghost use Rattle.object_file.specs.Staged.{Waiting};

    ghost Value = { Waiting };

    ghost view = { λ s. record { bytes = s.bytes.items; room = s.room } };

    ghost invariant = { λ s. (vec_len s.bytes ≤ s.room) × (s.room ≤ vec_capacity s.bytes) };
}

impl Staging {
    /// Room for `room` bytes, none of which wait.
    pub fn new(alloc: Global, room: usize) -> Result<Staging, NoMemory>
        ensures { IfOk result (λ s. s ≡ record { bytes = []; room = room }) }
    {
        let bytes = Vec::with_capacity(alloc, room)?;
        Ok(Staging { bytes, room })
    }

    /// Puts the bytes behind those that wait, which are handed over first where there is no room
    /// for both. After a failure the sink has a front of those that waited.
    pub fn put<K: Sink>(&mut self, sink: &mut K, bytes: &[u8]) -> Result<(), WriteFailed>
        requires { length bytes.now ≤ self.old.room }
        ensures passed { OnOk result
            (PassesOn (K.held sink.old) (K.held sink.new) self.old.bytes self.new.bytes bytes.now) }
        ensures cut { OnErr result
            (AppendsFront (K.held sink.old) (K.held sink.new) self.old.bytes) }
        ensures room { self.new.room ≡ self.old.room }
        ensures cause { HasCause (K.faults sink.old) (K.faults sink.new) result }
    {
        if self.room - self.bytes.len() < bytes.len() {
            self.flush(sink)?;
        }
        match self.bytes.extend_from_slice(bytes) {
            Ok(()) => Ok(()),
            Err(_) => unreachable!(),
        }
    }

    /// Hands over what waits. After a failure the sink has a front of it.
    pub fn flush<K: Sink>(&mut self, sink: &mut K) -> Result<(), WriteFailed>
        ensures appended { OnOk result
            (Appends (K.held sink.old) (K.held sink.new) self.old.bytes) }
        ensures empty { OnOk result (self.new.bytes ≡ []) }
        ensures cut { OnErr result
            (AppendsFront (K.held sink.old) (K.held sink.new) self.old.bytes) }
        ensures room { self.new.room ≡ self.old.room }
        ensures cause { HasCause (K.faults sink.old) (K.faults sink.new) result }
    {
        write_all(sink, &self.bytes)?;
        self.bytes.clear();
        Ok(())
    }
}
