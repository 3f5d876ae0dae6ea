// Rows of bits in 64-bit words, one after the other.
ghost use Rattle.std.specs.Prelude.{◌≡◌, ◌≢◌, ◌≤◌, ◌<◌, ◌+◌, ◌*◌, ◌⊎◌, ◌==◌, ◌||◌, ℕ, length};
ghost use Rattle.std.specs.Prelude.{slice_index_or, bit_xor};
ghost use Rattle.std.proofs.Math.Bool.{xor as bool_xor};
ghost use Rattle.gauss.specs.Packed.{bits_of, byte_of, width_of};

// How many words a row of so many bits has.
pub(crate) fn width_of(unknowns: u32) -> usize
    requires { unknowns ≤ 65536 }
    ensures { result ≡ width_of unknowns }
{
    (unknowns as usize + 63) / 64
}

// Where the group that starts there ends.
pub(crate) fn group_end(start: usize, unknowns: usize) -> usize
    requires { start < unknowns }
    ensures some { start < result }
    ensures few { result ≤ start + 8 }
    ensures within { result ≤ unknowns }
    ensures whole { (result ≡ unknowns) ⊎ (result ≡ start + 8) }
{
    if unknowns - start < 8 {
        return unknowns;
    }
    start + 8
}

// Whether row r has bit c.
pub(crate) fn has(words: &[u64], width: usize, r: usize, c: usize) -> bool
    requires row { r * width + width ≤ length words.now }
    requires bit { c < width * 64 }
    ensures { result ≡ bits_of width words.now r c }
{
    words[r * width + c / 64] >> (c % 64) & 1 == 1
}

// The byte of row r with the bits from 8 * group on.
pub(crate) fn byte_of(words: &[u64], width: usize, r: usize, group: usize) -> usize
    requires row { r * width + width ≤ length words.now }
    requires group { group < width * 8 }
    ensures value { result ≡ byte_of width words.now r group }
    ensures byte { result < 256 }
{
    ((words[r * width + group / 8] >> (group % 8 * 8)) % 256) as usize
}

// The byte of row r of so many, with the bits from 8 * group on: zero where there is no such row.
pub(crate) fn byte_or_zero(
    words: &[u64],
    width: usize,
    rows: usize,
    r: usize,
    group: usize,
) -> usize
    requires words { length words.now ≡ rows * width }
    requires group { group < width * 8 }
    ensures value { result ≡ byte_of width words.now r group }
    ensures byte { result < 256 }
{
    if r >= rows {
        return 0;
    }
    byte_of(words, width, r, group)
}

// Puts bit c into row r.
pub(crate) fn put(words: &mut [u64], width: usize, r: usize, c: usize)
    requires row { r * width + width ≤ length words.old }
    requires bit { c < width * 64 }
    ensures row { (d : ℕ)
        → bits_of width words.new r d ≡ (bits_of width words.old r d || (d == c)) }
    ensures others { (j d : ℕ) → j ≢ r
        → bits_of width words.new j d ≡ bits_of width words.old j d }
{
    words[r * width + c / 64] |= 1 << (c % 64);
}

// Flips bit c of row r.
pub(crate) fn flip(words: &mut [u64], width: usize, r: usize, c: usize)
    requires row { r * width + width ≤ length words.old }
    requires bit { c < width * 64 }
    ensures row { (d : ℕ)
        → bits_of width words.new r d ≡ bool_xor (bits_of width words.old r d) (d == c) }
    ensures others { (j d : ℕ) → j ≢ r
        → bits_of width words.new j d ≡ bits_of width words.old j d }
    ensures words { (j q : ℕ) → j ≢ r → q < width
        → slice_index_or words.new (j * width + q) 0 ≡ slice_index_or words.old (j * width + q) 0 }
{
    words[r * width + c / 64] ^= 1 << (c % 64);
}

// Adds row `from` of some words to row `to` of others, word by word.
pub(crate) fn add_row(words: &mut [u64], width: usize, to: usize, other: &[u64], from: usize)
    requires to { to * width + width ≤ length words.old }
    requires from { from * width + width ≤ length other.now }
    ensures row { (c : ℕ) → bits_of width words.new to c
        ≡ bool_xor (bits_of width words.old to c) (bits_of width other.now from c) }
    ensures others { (j c : ℕ) → j ≢ to
        → bits_of width words.new j c ≡ bits_of width words.old j c }
    ensures words { (j q : ℕ) → j ≢ to → q < width
        → slice_index_or words.new (j * width + q) 0 ≡ slice_index_or words.old (j * width + q) 0 }
{
    let start = to * width;
    let other_start = from * width;
    xor_words(
        &mut words[start..start + width],
        &other[other_start..other_start + width],
    );
}

// Adds words to others.
fn xor_words(words: &mut [u64], other: &[u64])
    requires { length words.old ≡ length other.now }
    ensures { (k : ℕ) → slice_index_or words.new k 0
        ≡ bit_xor (slice_index_or words.old k 0) (slice_index_or other.now k 0) }
{
    for k in 0..words.len() {
        words[k] ^= other[k];
    }
}
