// A group of eight unknowns, and the table of what is to be added to a row for each byte it may
// have.
ghost use Rattle.std.specs.Prelude.{◌≡◌, ◌≢◌, ◌≤◌, ◌<◌, ◌*◌, ◌+◌, ◌/◌, ℕ, true, false, length};
ghost use Rattle.std.specs.Prelude.{slice_index_or, MatchOption};
ghost use Rattle.gauss.specs.Packed.{bits_of};
ghost use Rattle.gauss.specs.Elimination.{IsCandidate, IsStep, lead_of};
ghost use Rattle.gauss.specs.Table.{IsGroup, updated, virtual_in, with_row_in};

use crate::packed::{add_row, byte_of, flip, has};

// A group of eight unknowns by its number, with how many unknowns there are, and how many words a
// row has.
#[derive(Clone, Copy)]
pub(crate) struct Group {
    pub(crate) unknowns: usize,
    pub(crate) width: usize,
    pub(crate) number: usize,
}

// Eliminates an unknown from the rows as they will be once the table is added: finds its pivot row,
// brings that up to date, and adds it to the table where a row with the byte will have the unknown.
pub(crate) fn eliminate_unknown(
    words: &mut [u64],
    group: Group,
    unknown: usize,
    pivots: &mut [u32],
    leads: &mut [u32],
    table: &mut [u64],
)
    requires group { IsGroup group pivots.old leads.old words.old table.old }
    requires unknown { unknown < group.unknowns }
    requires place { unknown / 8 ≡ group.number }
    requires zero { (c : ℕ) → bits_of group.width table.old 0 c ≡ false }
    ensures step { IsStep group.unknowns (length leads.old) unknown
        (virtual_in group words.old table.old leads.old)
        (virtual_in group words.new table.new leads.new)
        pivots.old leads.old pivots.new leads.new }
    ensures zero { (c : ℕ) → bits_of group.width table.new 0 c ≡ false }
{
    let Some(pivot) = find_pivot(words, group, unknown, leads, table) else {
        return;
    };
    let byte = byte_of(words, group.width, pivot, group.number);
    add_row(words, group.width, pivot, table, byte);
    flip(words, group.width, pivot, unknown);
    leads[pivot] = unknown as u32;
    pivots[unknown] = pivot as u32;
    update(table, group.width, words, pivot, unknown);
}

// The first row that leads no unknown and will have this one.
fn find_pivot(
    words: &[u64],
    group: Group,
    unknown: usize,
    leads: &[u32],
    table: &[u64],
) -> Option<usize>
    requires unknown { unknown < group.width * 64 }
    requires group { unknown / 8 ≡ group.number }
    requires words { length words.now ≡ length leads.now * group.width }
    requires table { length table.now ≡ 256 * group.width }
    ensures { MatchOption result
        ((j : ℕ) → j < length leads.now → group.unknowns ≤ lead_of group.unknowns leads.now j
        → virtual_in group words.now table.now leads.now j unknown ≡ false)
        (IsCandidate group.unknowns (length leads.now) unknown
        (virtual_in group words.now table.now leads.now) leads.now) }
{
    for r in 0..leads.len() {
        if will_have(words, group, unknown, leads[r], table, r) {
            return Some(r);
        }
    }
    None
}

// Whether row r leads no unknown and will have this one.
fn will_have(
    words: &[u64],
    group: Group,
    unknown: usize,
    lead: u32,
    table: &[u64],
    r: usize,
) -> bool
    requires unknown { unknown < group.width * 64 }
    requires group { unknown / 8 ≡ group.number }
    requires words { r * group.width + group.width ≤ length words.now }
    requires table { length table.now ≡ 256 * group.width }
    ensures yes { result ≡ true → (group.unknowns ≤ lead)
        × (with_row_in group words.now table.now r unknown ≡ true) }
    ensures no { result ≡ false → group.unknowns ≤ lead
        → with_row_in group words.now table.now r unknown ≡ false }
{
    if (lead as usize) < group.unknowns {
        return false;
    }
    let byte = byte_of(words, group.width, r, group.number);
    has(words, group.width, r, unknown) ^ has(table, group.width, byte, unknown)
}

// Adds row t to each row of the table whose byte will have the unknown.
fn update(table: &mut [u64], width: usize, words: &[u64], t: usize, unknown: usize)
    requires unknown { unknown < width * 64 }
    requires row { t * width + width ≤ length words.now }
    requires table { length table.old ≡ 256 * width }
    ensures { (b c : ℕ) → b < 256
        → bits_of width table.new b c ≡ updated width words.now table.old t unknown b c }
{
    for byte in 0..256 {
        update_row(table, width, words, t, unknown, byte);
    }
}

// Adds row t to the table's row of a byte, if that will have the unknown.
fn update_row(table: &mut [u64], width: usize, words: &[u64], t: usize, unknown: usize, byte: usize)
    requires unknown { unknown < width * 64 }
    requires row { t * width + width ≤ length words.now }
    requires table { length table.old ≡ 256 * width }
    requires byte { byte < 256 }
    ensures row { (c : ℕ)
        → bits_of width table.new byte c ≡ updated width words.now table.old t unknown byte c }
    ensures others { (b c : ℕ) → b ≢ byte
        → bits_of width table.new b c ≡ bits_of width table.old b c }
{
    if (byte >> (unknown % 8) & 1 == 1) ^ has(table, width, byte, unknown) {
        add_row(table, width, byte, words, t);
    }
}

// Adds to each row that leads no unknown the table's row of its byte.
pub(crate) fn apply(words: &mut [u64], group: Group, leads: &[u32], table: &[u64])
    requires group { group.number < group.width * 8 }
    requires words { length words.old ≡ length leads.now * group.width }
    requires table { length table.now ≡ 256 * group.width }
    requires zero { (c : ℕ) → bits_of group.width table.now 0 c ≡ false }
    ensures { (j c : ℕ) → bits_of group.width words.new j c
        ≡ virtual_in group words.old table.now leads.now j c }
{
    for r in 0..leads.len() {
        apply_row(words, group, leads[r], table, r);
    }
}

// Adds to row r the table's row of its byte, if it leads no unknown.
fn apply_row(words: &mut [u64], group: Group, lead: u32, table: &[u64], r: usize)
    requires group { group.number < group.width * 8 }
    requires words { r * group.width + group.width ≤ length words.old }
    requires table { length table.now ≡ 256 * group.width }
    requires zero { (c : ℕ) → bits_of group.width table.now 0 c ≡ false }
    ensures led { lead < group.unknowns
        → (c : ℕ) → bits_of group.width words.new r c ≡ bits_of group.width words.old r c }
    ensures row { group.unknowns ≤ lead → (c : ℕ)
        → bits_of group.width words.new r c ≡ with_row_in group words.old table.now r c }
    ensures others { (j q : ℕ) → j ≢ r → q < group.width
        → slice_index_or words.new (j * group.width + q) 0
        ≡ slice_index_or words.old (j * group.width + q) 0 }
{
    if (lead as usize) < group.unknowns {
        return;
    }
    let byte = byte_of(words, group.width, r, group.number);
    if byte == 0 {
        return;
    }
    add_row(words, group.width, r, table, byte);
}
