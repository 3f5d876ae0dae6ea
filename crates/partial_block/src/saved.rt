// What is saved of a source block.
ghost use Rattle.std.specs.Prelude.{◌≡◌, ◌≢◌, ◌<◌, ◌≤◌, [], All, length, MatchOption};
ghost use Rattle.partial_block.specs.Saved.{saved_at, through_at};
ghost use Rattle.partial_block.specs.Pieces.{HasWord, saved_of};

use null_witness::NullWord;
use std::marker::Model;

/// Each of the k source symbols of a block that the arrivals determine, and for each other one the
/// null word through it. A null word that goes through several symbols is kept once.
#[derive(Drop)]
pub struct Partial {
    pieces: Vec<Piece>,
    words: Vec<NullWord>,
}

// What is saved of one source symbol.
#[derive(Drop)]
pub(crate) enum Piece {
    // Its bytes.
    Determined(Vec<u8>),
    // The number of the null word through it.
    Open(u32),
}

impl Model for Partial {
    ghost use Rattle.partial_block.specs.Saved.{Saved};
    ghost use Rattle.std.specs.Prelude.{◌≤◌, All, length};
    ghost use Rattle.partial_block.specs.Pieces.{HasWord, saved_of};

    ghost Value = { Saved };

    ghost view = { λ p. saved_of p.pieces.items p.words.items };

    ghost invariant = { λ p. All (HasWord p.words.items) p.pieces.items
        × (length p.pieces.items ≤ 65536) };
}

impl Partial {
    // These pieces, and the words whose numbers the open ones have.
    pub(crate) fn new(pieces: Vec<Piece>, words: Vec<NullWord>) -> Partial
        requires words { All (HasWord words.items) pieces.items }
        requires few { length pieces.items ≤ 65536 }
        ensures { result ≡ saved_of pieces.items words.items }
    {
        Partial { pieces, words }
    }

    /// How many source symbols the block has.
    pub fn count(&self) -> u32
        ensures { result ≡ length self.now.throughs }
    {
        self.pieces.as_slice().len() as u32
    }

    /// Source symbol e, counted from 0: the bytes that it has in every codeword that fits the
    /// arrivals. None where the arrivals don't determine it.
    pub fn symbol(&self, e: u32) -> Option<&[u8]>
        requires { e < length self.now.throughs }
        ensures { MatchOption result (through_at self.now e ≢ []) (λ bytes.
            (through_at self.now e ≡ []) × (bytes.now ≡ saved_at self.now e)) }
    {
        let pieces = self.pieces.as_slice();
        match &pieces[e as usize] {
            Piece::Determined(bytes) => Some(bytes),
            Piece::Open(_) => None,
        }
    }

    /// The null word through source symbol e, counted from 0: of the reduced null words of the
    /// positions that arrived that hold e the one whose last position is least. None where the
    /// arrivals determine the symbol.
    pub fn through(&self, e: u32) -> Option<&NullWord>
        requires { e < length self.now.throughs }
        ensures { MatchOption result (through_at self.now e ≡ []) (λ word.
            (through_at self.now e ≢ []) × (word.now ≡ through_at self.now e)) }
    {
        let pieces = self.pieces.as_slice();
        let words = self.words.as_slice();
        match &pieces[e as usize] {
            Piece::Determined(_) => None,
            Piece::Open(number) => Some(&words[*number as usize]),
        }
    }
}
