// What the reduced form of a residue says of the source symbols.
ghost use Rattle.std.specs.Prelude.{◌≡◌, ◌<◌, ◌≤◌, ℕ, true, All, Contains, length, map};
ghost use Rattle.std.specs.Prelude.{slice_index, IfOk};
ghost use Rattle.std.specs.List.Sorted.{IsStrictlyIncreasing};
ghost use Rattle.sparse_rows.specs.Closure.{flagged};
ghost use Rattle.gauss.specs.Reduction.{IsReducedForm, set_at};
ghost use Rattle.fec_session.specs.Residue.{residue, unknown_columns};
ghost use Rattle.partial_block.specs.ReadOff.{ArePieces, AreNullWords, IsPieceOf, IsReadOff};
ghost use Rattle.partial_block.specs.Pieces.{HasNumberBelow};
ghost use Rattle.partial_block.specs.declared.saved.Piece.TheVariants as piece;

use crate::Partial;
use crate::saved::Piece;
use fec_base::NoMemory;
use fec_session::{Core, null_words_pair_with_null_sets};
use gauss::Reduced;
use null_witness::NullWord;
use std::alloc::Global;

// The source symbols, each by its bytes or by the word of the first null set that holds it.
pub(crate) fn read_off(
    alloc: Global,
    core: &Core,
    columns: &[u32],
    reduced: &Reduced,
) -> Result<Partial, NoMemory>
    requires columns { columns.now ≡ unknown_columns core.now }
    requires few { length columns.now ≤ 65536 }
    requires rising { IsStrictlyIncreasing columns.now }
    requires form { IsReducedForm (residue core.now) reduced.now }
    requires source { core.now.matrix.k ≤ 65536 }
    ensures { IfOk result (IsReadOff core.now reduced.now) }
{
    let pieces = pieces(alloc, core, columns, reduced)?;
    let words = words(alloc, columns, reduced, &pieces)?;
    Ok(Partial::new(pieces, words))
}

// Each source symbol by its bytes, or by the first null set that holds it.
fn pieces(
    alloc: Global,
    core: &Core,
    columns: &[u32],
    reduced: &Reduced,
) -> Result<Vec<Piece>, NoMemory>
    requires columns { columns.now ≡ unknown_columns core.now }
    requires few { length columns.now ≤ 65536 }
    requires rising { IsStrictlyIncreasing columns.now }
    requires form { IsReducedForm (residue core.now) reduced.now }
    ensures { IfOk result (λ pieces. ArePieces core.now reduced.now pieces.items) }
{
    let mut pieces = Vec::with_capacity(alloc, core.code().k() as usize)?;
    for e in 0..core.code().k() {
        pieces.push(piece(alloc, core, columns, reduced, e)?)?;
    }
    Ok(pieces)
}

// Source symbol e by its bytes, or by the first null set that holds it.
fn piece(
    alloc: Global,
    core: &Core,
    columns: &[u32],
    reduced: &Reduced,
    e: u32,
) -> Result<Piece, NoMemory>
    requires columns { columns.now ≡ unknown_columns core.now }
    requires few { length columns.now ≤ 65536 }
    requires rising { IsStrictlyIncreasing columns.now }
    requires form { IsReducedForm (residue core.now) reduced.now }
    requires source { e < core.now.matrix.k }
    ensures { IfOk result (IsPieceOf core.now reduced.now e) }
{
    // The call of `code` tells that the source symbols are positions of the code.
    prove!(core.code().k() <= core.code().n());
    if let Some(bytes) = core.symbol(e) {
        let bytes = Vec::from_slice(alloc, bytes)?;
        return Ok(Piece::Determined(bytes));
    }
    null_words_pair_with_null_sets();
    let place = place_of(columns, e);
    if let Some(number) = reduced.first_with(place) {
        return Ok(Piece::Open(number));
    }
    let Some(bytes) = reduced.symbol(place) else {
        unreachable!();
    };
    let bytes = Vec::from_slice(alloc, bytes)?;
    Ok(Piece::Determined(bytes))
}

// The place of a column among rising ones.
fn place_of(columns: &[u32], column: u32) -> u32
    requires rising { IsStrictlyIncreasing columns.now }
    requires few { length columns.now ≤ 65536 }
    requires there { Contains columns.now column }
    ensures inside { result < length columns.now }
    ensures column { slice_index columns.now result ≡ column }
{
    match columns.binary_search(&column) {
        Ok(place) => place as u32,
        Err(_) => unreachable!(),
    }
}

// For each null set that some piece is open by, the word of its columns. The others are left empty.
fn words(
    alloc: Global,
    columns: &[u32],
    reduced: &Reduced,
    pieces: &[Piece],
) -> Result<Vec<NullWord>, NoMemory>
    requires rising { IsStrictlyIncreasing columns.now }
    requires inside { All (All (λ place. place < length columns.now)) reduced.now.sets }
    requires numbers { All (HasNumberBelow (length reduced.now.sets)) pieces.now }
    ensures { IfOk result (λ words. AreNullWords columns.now reduced.now pieces.now words.items) }
{
    let mut used = vec![in alloc; false; reduced.sets() as usize]?;
    mark_used(pieces, &mut used);
    let mut words = Vec::with_capacity(alloc, reduced.sets() as usize)?;
    for i in 0..reduced.sets() {
        words.push(word(alloc, columns, reduced, i, used[i as usize])?)?;
    }
    Ok(words)
}

// Sets the flag of each number that an open piece has.
fn mark_used(pieces: &[Piece], used: &mut [bool])
    requires { All (HasNumberBelow (length used.old)) pieces.now }
    ensures length { length used.new ≡ length used.old }
    ensures used { (i : ℕ) → Contains pieces.now (piece.Open i) → flagged used.new i ≡ true }
{
    for piece in pieces {
        if let Piece::Open(number) = piece {
            used[*number as usize] = true;
        }
    }
}

// The word of the columns of null set i, or none of them where it isn't used.
fn word(
    alloc: Global,
    columns: &[u32],
    reduced: &Reduced,
    i: u32,
    used: bool,
) -> Result<NullWord, NoMemory>
    requires rising { IsStrictlyIncreasing columns.now }
    requires inside { All (All (λ place. place < length columns.now)) reduced.now.sets }
    requires set { i < length reduced.now.sets }
    ensures { IfOk result (λ word. used ≡ true
        → word ≡ map (slice_index columns.now) (set_at reduced.now i)) }
{
    if !used {
        return NullWord::new(alloc, &[]);
    }
    let set = reduced.null_set(alloc, i)?;
    columns_at(alloc, columns, set.positions())
}

// The columns at these places.
fn columns_at(alloc: Global, columns: &[u32], places: &[u32]) -> Result<NullWord, NoMemory>
    requires rising { IsStrictlyIncreasing columns.now }
    requires order { IsStrictlyIncreasing places.now }
    requires inside { All (λ place. place < length columns.now) places.now }
    ensures { IfOk result (λ word. word ≡ map (slice_index columns.now) places.now) }
{
    let mut word = Vec::with_capacity(alloc, places.len())?;
    for place in places {
        word.push(columns[*place as usize])?;
    }
    NullWord::new(alloc, &word)
}
