// The reduced sets of late rows, by elimination.
ghost use Rattle.std.specs.Prelude.{◌≡◌, ◌<◌, ◌≤◌, not, [], length, replicate, count_by, IfOk};
ghost use Rattle.sparse_rows.specs.Closure.{flagged};
ghost use Rattle.sparse_rows.specs.Columns.{column_of};
ghost use Rattle.gauss.specs.Filling.{equation_at, no_equation, with_equation};
ghost use Rattle.clash_proof.specs.Proofs.{IsClosedBy};
ghost use Rattle.clash_proof.specs.Transposed.{AreReducedWords, IsTransposed, with_rows};

use crate::Evidence;
use fec_base::{NoMemory, Steps, Tally};
use gauss::{Equations, Reduced, Reduction, reduce};
use sparse_rows::Code;
use std::alloc::Global;

// The reduced sets of late rows, in the order of these. A row set is closed exactly where each
// column that did not arrive is in an even number of its rows. So the closed row sets are the null
// sets of a system whose unknowns are the rows, with an equation for each of those columns.
pub(crate) fn closed_sets(alloc: Global, code: &Code, ev: &Evidence) -> Result<Reduced, NoMemory>
    requires { code.now.n ≡ ev.now.n }
    ensures sets { IfOk result (λ form. AreReducedWords (IsClosedBy code.now ev.now) form.sets) }
    ensures count { IfOk result (λ form. length form.symbols ≡ length code.now.rows) }
{
    match reduce(alloc, transposed(alloc, code, ev)?)? {
        Reduction::Reduced(form) => Ok(form),
        // Zeros solve each of the equations.
        Reduction::Clash => unreachable!(),
    }
}

// The system of the columns that did not arrive, in symbols of one byte.
fn transposed(alloc: Global, code: &Code, ev: &Evidence) -> Result<Equations, NoMemory>
    requires { code.now.n ≡ ev.now.n }
    ensures system { IfOk result (λ eqs. IsTransposed code.now (flagged ev.now.arrived) code.now.n
        (length eqs.equations) eqs) }
{
    let missing = count_missing(ev);
    let mut eqs = Equations::new(alloc, code.n() - code.k(), missing, 1)?;
    put_columns(code, ev, &mut eqs);
    Ok(eqs)
}

// How many positions did not arrive.
fn count_missing(ev: &Evidence) -> u32
    ensures value { result ≡ count_by not ev.now.arrived }
    ensures most { result ≤ 65536 }
{
    let mut missing = 0;
    for position in 0..ev.n() {
        if !ev.has_arrived(position) {
            missing += 1;
        }
    }
    missing
}

// Makes each column that did not arrive the next equation.
fn put_columns(code: &Code, ev: &Evidence, eqs: &mut Equations)
    requires n { code.now.n ≡ ev.now.n }
    requires eqs { eqs.old ≡ record {
      unknowns = length code.now.rows;
      len = 1;
      equations = replicate (count_by not ev.now.arrived) (no_equation 1);
    } }
    ensures { IsTransposed code.now (flagged ev.now.arrived) code.now.n (length eqs.new.equations)
        eqs.new }
{
    let mut r = 0;
    for column in 0..ev.n() {
        if !ev.has_arrived(column) {
            put_column(code, column, eqs, r);
            r += 1;
        }
    }
}

// Puts the rows of the column into equation r, which has none.
fn put_column(code: &Code, column: u32, eqs: &mut Equations, r: u32)
    requires column { column < code.now.n }
    requires unknowns { eqs.old.unknowns ≡ length code.now.rows }
    requires equation { r < length eqs.old.equations }
    requires empty { (equation_at eqs.old r).unknowns ≡ [] }
    ensures { eqs.new ≡ with_equation eqs.old r
        (with_rows (column_of code.now column) (equation_at eqs.old r)) }
{
    let mut steps = Steps::<Tally>::start();
    for i in 0..code.col_len(column) {
        eqs.add_column(r, code.col_entry(column, i, &mut steps));
    }
}
