// What arrived, as evidence.
ghost use Rattle.std.specs.Prelude.{◌≡◌, ◌<◌, ◌≤◌, ◌++◌, ◌∷◌, [], List, length, IfOk};
ghost use Rattle.sparse_rows.specs.Closure.{flagged};
ghost use Rattle.sparse_rows.specs.Codeword.{symbol_at};
ghost use Rattle.clash_proof.specs.Entries.{Entry};
ghost use Rattle.clash_proof.specs.Evidence.{StandsFor};
ghost use Rattle.clash_proof.specs.Limits.{IsEvidenceKept};

use fec_base::NoMemory;
use std::alloc::Global;
use std::marker::Model;
use symbol_arena::Arena;

/// What came for the positions of a source block: for each position the index and the bytes of its
/// first entry, and the earliest entry whose bytes differ from those of the first of its position.
/// An index is whatever number the caller gives an entry, as that of its packet in a file.
#[derive(Drop)]
pub struct Evidence {
    n: u32,
    len: u32,
    arrived: Vec<bool>,
    indices: Vec<u64>,
    symbols: Arena,
    conflict: Option<(u64, u64)>,
}

impl Model for Evidence {
    ghost use Rattle.clash_proof.specs.Evidence.{Kept};
    ghost use Rattle.clash_proof.specs.Limits.{IsEvidenceKept};

    ghost Value = { Kept };

    ghost view = { λ e. record {
      n = e.n;
      len = e.len;
      arrived = e.arrived.items;
      indices = e.indices.items;
      symbols = e.symbols;
      conflict = e.conflict;
    } };

    ghost invariant = { λ e. IsEvidenceKept (record {
      n = e.n;
      len = e.len;
      arrived = e.arrived.items;
      indices = e.indices.items;
      symbols = e.symbols;
      conflict = e.conflict;
    }) };
}

impl Evidence {
    /// Evidence of no entry, for n positions of `len` bytes each. This takes all memory that it
    /// ever takes: for each position 9 bytes and a symbol, rounded up to a multiple of 32 bytes.
    /// `NoMemory` comes only for want of it.
    pub fn new(alloc: Global, n: u32, len: u32) -> Result<Evidence, NoMemory>
        requires some { 1 ≤ n }
        requires most { n ≤ 65536 }
        requires some_bytes { 1 ≤ len }
        requires most_bytes { len ≤ 65535 }
        ensures n { IfOk result (λ ev. ev.n ≡ n) }
        ensures len { IfOk result (λ ev. ev.len ≡ len) }
        ensures stands { IfOk result (λ ev. StandsFor ev []) }
    {
        Ok(Evidence {
            n,
            len,
            arrived: vec![in alloc; false; n as usize]?,
            indices: vec![in alloc; 0u64; n as usize]?,
            symbols: Arena::new(alloc, n, len)?,
            conflict: None,
        })
    }

    /// Takes in an entry: its index, its position, and the bytes that came, as many as a symbol
    /// has. It takes no memory.
    pub fn add(&mut self, index: u64, e: u32, bytes: &[u8])
        requires position { e < self.old.n }
        requires len { length bytes.now ≡ self.old.len }
        ensures n { self.new.n ≡ self.old.n }
        ensures len { self.new.len ≡ self.old.len }
        ensures stands { (entries : List Entry) → StandsFor self.old entries
            → StandsFor self.new
            (entries ++ record { index = index; position = e; bytes = bytes.now } ∷ []) }
    {
        let place = e as usize;
        if !self.arrived[place] {
            self.arrived[place] = true;
            self.indices[place] = index;
            self.symbols.put(e, bytes);
            return;
        }
        if self.conflict.is_some() {
            return;
        }
        if self.symbols.get(e) != bytes {
            self.conflict = Some((self.indices[place], index));
        }
    }

    // The number of positions.
    pub(crate) fn n(&self) -> u32
        ensures value { result ≡ self.now.n }
        ensures kept { IsEvidenceKept self.now }
    {
        self.n
    }

    // The length of a symbol.
    pub(crate) fn symbol_len(&self) -> u32
        ensures value { result ≡ self.now.len }
        ensures kept { IsEvidenceKept self.now }
    {
        self.len
    }

    // Whether the position arrived.
    pub(crate) fn has_arrived(&self, position: u32) -> bool
        requires { position < self.now.n }
        ensures value { result ≡ flagged self.now.arrived position }
        ensures kept { IsEvidenceKept self.now }
    {
        self.arrived[position as usize]
    }

    // What is kept for the position.
    pub(crate) fn symbol(&self, position: u32) -> &[u8]
        requires { position < self.now.n }
        ensures value { result.now ≡ symbol_at self.now.len self.now.symbols position }
        ensures long { length result.now ≡ self.now.len }
    {
        self.symbols.get(position)
    }

    // The indices of the conflict.
    pub(crate) fn conflict(&self) -> Option<(u64, u64)>
        ensures { result ≡ self.now.conflict }
    {
        self.conflict
    }
}
