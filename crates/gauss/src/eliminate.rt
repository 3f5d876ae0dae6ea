// Elimination in place, eight unknowns at a time.
ghost use Rattle.std.specs.Prelude.{◌≡◌, ◌≤◌, ◌<◌, ◌*◌, ◌+◌, ℕ, length, slice_index_or, IfOk};
ghost use Rattle.gauss.specs.Packed.{bits_of, width_of};
ghost use Rattle.gauss.specs.Elimination.{Advances, IsStageIn};
ghost use Rattle.gauss.specs.Table.{IsGroup};

use crate::packed::{group_end, width_of};
use crate::table::{Group, apply, eliminate_unknown};
use fec_base::NoMemory;
use std::alloc::Global;

// For each unknown its pivot row, or the number of rows where it is free; and for each row the
// unknown that it leads, or the number of unknowns where it leads none.
#[derive(Drop)]
pub(crate) struct Pivots {
    pub(crate) rows: Vec<u32>,
    pub(crate) leads: Vec<u32>,
}

// Brings rows of bits into echelon form, in place: what stands in a row before its own unknown is
// no longer of the row, and tells which pivot rows went into it.
//
// For each unknown in rising order, the first row that has it and leads no unknown becomes its
// pivot row. Its own bit goes, and it is added to each other row that has the unknown and leads
// none. Bit i of these stays so, and says that the pivot row of i went into them. What is to be
// added to a row for the eight unknowns of a group depends on its eight bits of the group alone, so
// it is kept in a table for each of the 256 bytes, and is added to the rows once, at the end of the
// group.
pub(crate) fn eliminate(
    alloc: Global,
    unknowns: u32,
    rows: u32,
    words: &mut [u64],
) -> Result<Pivots, NoMemory>
    requires unknowns { unknowns ≤ 65536 }
    requires rows { rows ≤ 65536 }
    requires words { length words.old ≡ rows * width_of unknowns }
    ensures { IfOk result (λ pivots. IsStageIn unknowns rows unknowns
        (bits_of (width_of unknowns) words.old) (bits_of (width_of unknowns) words.new)
        pivots.rows.items pivots.leads.items) }
{
    let mut pivots = vec![in alloc; rows; unknowns as usize]?;
    let mut leads = vec![in alloc; unknowns; rows as usize]?;
    let mut table = vec![in alloc; 0u64; 256 * width_of(unknowns)]?;
    eliminate_all(
        words,
        width_of(unknowns),
        &mut pivots,
        &mut leads,
        &mut table,
    );
    Ok(Pivots {
        rows: pivots,
        leads,
    })
}

// The groups one after the other.
fn eliminate_all(
    words: &mut [u64],
    width: usize,
    pivots: &mut [u32],
    leads: &mut [u32],
    table: &mut [u64],
)
    requires width { width ≡ width_of (length pivots.old) }
    requires pivots { length pivots.old ≤ 65536 }
    requires leads { length leads.old ≤ 65536 }
    requires words { length words.old ≡ length leads.old * width }
    requires table { length table.old ≡ 256 * width }
    ensures { Advances (length pivots.old) (length leads.old) 0 (length pivots.old)
        (bits_of width words.old) (bits_of width words.new)
        pivots.old leads.old pivots.new leads.new }
{
    let unknowns = pivots.len();
    let mut start = 0;
    while start < unknowns {
        let end = group_end(start, unknowns);
        let number = start / 8;
        let group = Group {
            unknowns,
            width,
            number,
        };
        eliminate_group(words, group, end, pivots, leads, table);
        start = end;
    }
}

// The unknowns of one group, which ends there: each is eliminated in the table, and then the table
// is added to the rows.
fn eliminate_group(
    words: &mut [u64],
    group: Group,
    end: usize,
    pivots: &mut [u32],
    leads: &mut [u32],
    table: &mut [u64],
)
    requires group { IsGroup group pivots.old leads.old words.old table.old }
    requires few { end ≤ group.number * 8 + 8 }
    requires some { group.number * 8 < end }
    requires end { end ≤ group.unknowns }
    ensures { Advances group.unknowns (length leads.old) (group.number * 8) end
        (bits_of group.width words.old) (bits_of group.width words.new)
        pivots.old leads.old pivots.new leads.new }
{
    clear(table);
    for unknown in group.number * 8..end {
        eliminate_unknown(words, group, unknown, pivots, leads, table);
    }
    apply(words, group, leads, table);
}

// Makes all words zero.
fn clear(table: &mut [u64])
    ensures { (k : ℕ) → slice_index_or table.new k 0 ≡ 0 }
{
    table.fill(0);
}
