// Lists one after the other.
ghost use Rattle.std.specs.Prelude.{◌≡◌, ◌<◌, ◌^◌, ◌++◌, [], length, slice_index_or, sum_by, All};
ghost use Rattle.std.specs.Prelude.{IfOk, OnOk};
ghost use Rattle.sparse_rows.specs.Rows.{lists_of};

use fec_base::NoMemory;
use smallvec::SmallVec;
use std::alloc::Global;
use std::marker::Model;

// Lists of columns, or of rows, in one run of memory. A block has at most 65,536 of them.
#[derive(Drop)]
pub(crate) struct Layout {
    // List i has the items from starts[i] to starts[i + 1].
    starts: Vec<u32>,
    items: Vec<u16>,
}

impl Model for Layout {
    ghost use Rattle.std.specs.Prelude.{ℕ, List};
    ghost use Rattle.sparse_rows.specs.Rows.{AreStarts, lists_from};

    ghost Value = { List (List ℕ) };

    ghost view = { λ l. lists_from l.starts.items l.items.items };

    ghost invariant = { λ l. AreStarts l.starts.items l.items.items };
}

impl Layout {
    // These lists.
    pub(crate) fn of(alloc: Global, lists: &[SmallVec<u32, 8>]) -> Result<Layout, NoMemory>
        requires few { sum_by length (lists_of lists.now) < 2 ^ 32 }
        requires small { All (All (λ item. item < 65536)) (lists_of lists.now) }
        ensures { IfOk result (λ layout. layout ≡ lists_of lists.now) }
    {
        let mut starts = Vec::with_capacity(alloc, lists.len() + 1)?;
        let mut items = Vec::new(alloc);
        starts.push(0)?;
        for list in lists {
            put_items(&mut items, list.as_slice())?;
            starts.push(items.len() as u32)?;
        }
        Ok(Layout { starts, items })
    }

    // The items of list i.
    pub(crate) fn list(&self, i: u32) -> &[u16]
        requires { i < length self.now }
        ensures { result.now ≡ slice_index_or self.now i [] }
    {
        let starts = self.starts.as_slice();
        let items = self.items.as_slice();
        &items[starts[i as usize] as usize..starts[i as usize + 1] as usize]
    }

    // How many items all lists have.
    pub(crate) fn items(&self) -> usize
        ensures { result ≡ sum_by length self.now }
    {
        self.items.len()
    }
}

// Puts the items of a list behind the others.
fn put_items(items: &mut Vec<u16>, list: &[u32]) -> Result<(), NoMemory>
    requires { All (λ item. item < 65536) list.now }
    ensures { OnOk result (items.new.items ≡ items.old.items ++ list.now) }
{
    for item in list {
        items.push(*item as u16)?;
    }
    Ok(())
}
