// The equations that peeling leaves.
ghost use Rattle.std.specs.Prelude.{◌≡◌, ◌≤◌, ◌<◌, ◌-◌, ◌+◌, ℕ, List, All, length, map, filter};
ghost use Rattle.std.specs.Prelude.{count_by, replicate, IfOk, []};
ghost use Rattle.std.specs.List.{range_with_len};
ghost use Rattle.sparse_rows.specs.Matrix.{row_of};
ghost use Rattle.sparse_rows.specs.Closure.{flagged};
ghost use Rattle.peeling.specs.Decoder.{IsDecoder};
ghost use Rattle.gauss.specs.Filling.{equation_at, no_equation, with_equation};
ghost use Rattle.fec_session.specs.Residue.{equation_of, is_open, place, residue, unknown_columns};
ghost use Rattle.fec_session.specs.Residual.{with_unknowns};

use crate::Core;
use fec_base::{NoMemory, Steps, Tally};
use gauss::Equations;
use std::alloc::Global;
use xor_lanes::xor_into;

/// What peeling leaves of a block: the rows of the matrix with a column whose symbol isn't known,
/// as equations between the symbols that are missing.
#[derive(Drop)]
pub struct Residue {
    /// The columns whose symbol isn't known, in rising order. Unknown i is the symbol of column i
    /// of them.
    pub columns: Vec<u32>,
    /// An equation for each row with such a column, in the order of the rows: the row's unknowns,
    /// and the sum of its known symbols.
    pub equations: Equations,
}

// The columns whose symbol isn't known, in rising order.
pub(crate) fn unknown_columns(alloc: Global, core: &Core) -> Result<Vec<u32>, NoMemory>
    ensures { IfOk result (λ columns. columns.items ≡ unknown_columns core.now) }
{
    let mut columns = Vec::new(alloc);
    for column in 0..core.code().n() {
        if core.symbol(column).is_none() {
            columns.push(column)?;
        }
    }
    Ok(columns)
}

// For each column its place among those whose symbol isn't known: how many of them are below it.
fn places(alloc: Global, core: &Core) -> Result<Vec<u32>, NoMemory>
    ensures { IfOk result
        (λ places. places.items ≡ map (place core.now) (range_with_len 0 core.now.matrix.n)) }
{
    let n = core.code().n();
    let mut places = Vec::with_capacity(alloc, n as usize)?;
    let mut unknown = 0;
    for column in 0..n {
        places.push(unknown)?;
        if core.symbol(column).is_none() {
            unknown += 1;
        }
    }
    Ok(places)
}

// The rows with an unknown column, as equations between the unknown symbols.
pub(crate) fn equations(alloc: Global, core: &Core, unknowns: u32) -> Result<Equations, NoMemory>
    requires { unknowns ≡ length (unknown_columns core.now) }
    ensures { IfOk result (λ eqs. eqs ≡ residue core.now) }
{
    let places = places(alloc, core)?;
    let mut sum = vec![in alloc; 0u8; core.symbol_len() as usize]?;
    let mut eqs = Equations::new(alloc, unknowns, count_open(core), core.symbol_len())?;
    put_rows(core, &places, &mut eqs, &mut sum);
    Ok(eqs)
}

// How many rows have an unknown column.
fn count_open(core: &Core) -> u32
    ensures value { result ≡ count_by (is_open core.now) core.now.matrix.rows }
    ensures most { result ≤ 65536 }
    ensures decoder { IsDecoder core.now }
{
    let mut count = 0;
    for row in 0..core.code().n() - core.code().k() {
        if is_open(core, row) {
            count += 1;
        }
    }
    count
}

// Whether the row has an unknown column.
fn is_open(core: &Core, row: u32) -> bool
    requires { row < core.now.matrix.n - core.now.matrix.k }
    ensures { result ≡ is_open core.now (row_of core.now.matrix row) }
{
    let mut steps = Steps::<Tally>::start();
    for i in 0..core.code().row_len(row) {
        if core
            .symbol(core.code().row_entry(row, i, &mut steps))
            .is_none()
        {
            return true;
        }
    }
    false
}

// Makes each row with an unknown column the next equation.
fn put_rows(core: &Core, places: &[u32], eqs: &mut Equations, sum: &mut [u8])
    requires places { places.now ≡ map (place core.now) (range_with_len 0 core.now.matrix.n) }
    requires eqs { eqs.old ≡ record {
      unknowns = length (unknown_columns core.now);
      len = core.now.len;
      equations = replicate (count_by (is_open core.now) core.now.matrix.rows)
          (no_equation core.now.len);
    } }
    requires sum { length sum.old ≡ core.now.len }
    ensures { eqs.new ≡ residue core.now }
{
    let mut r = 0;
    for row in 0..core.code().n() - core.code().k() {
        if is_open(core, row) {
            put_unknowns(core, row, places, eqs, r);
            sum_known(core, row, sum);
            eqs.set_sum(r, sum);
            r += 1;
        }
    }
}

// Puts the places of the row's unknown columns into equation r, which has none.
fn put_unknowns(core: &Core, row: u32, places: &[u32], eqs: &mut Equations, r: u32)
    requires row { row < core.now.matrix.n - core.now.matrix.k }
    requires places { places.now ≡ map (place core.now) (range_with_len 0 core.now.matrix.n) }
    requires unknowns { eqs.old.unknowns ≡ length (unknown_columns core.now) }
    requires equation { r < length eqs.old.equations }
    requires empty { (equation_at eqs.old r).unknowns ≡ [] }
    ensures { eqs.new ≡ with_equation eqs.old r
        (with_unknowns (equation_of core.now (row_of core.now.matrix row)).unknowns
        (equation_at eqs.old r)) }
{
    let mut steps = Steps::<Tally>::start();
    for i in 0..core.code().row_len(row) {
        let column = core.code().row_entry(row, i, &mut steps);
        if core.symbol(column).is_none() {
            eqs.add_column(r, places[column as usize]);
        }
    }
}

// Makes `sum` the sum of the row's known symbols.
fn sum_known(core: &Core, row: u32, sum: &mut [u8])
    requires row { row < core.now.matrix.n - core.now.matrix.k }
    requires sum { length sum.old ≡ core.now.len }
    ensures { sum.new ≡ (equation_of core.now (row_of core.now.matrix row)).sum }
{
    let mut steps = Steps::<Tally>::start();
    sum.fill(0);
    for i in 0..core.code().row_len(row) {
        let column = core.code().row_entry(row, i, &mut steps);
        if let Some(bytes) = core.symbol(column) {
            xor_into(sum, bytes);
        }
    }
}
