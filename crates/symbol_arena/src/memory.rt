// The bytes of one allocation. All that has a pointer is here, and each function of this file is
// proved by hand. It promises plain facts, so that nothing above it needs such a proof.
ghost use Rattle.std.specs.Prelude.{◌≡◌, ℕ, ◌+◌, ◌^◌, ◌<◌, ◌≤◌, ◌++◌, List, [], ◌∷◌, length, IfOk};
ghost use Rattle.std.specs.Borrow.{sem};
ghost use base.Fml.{ftrue};
ghost use denote.RawPtr.{Ptr};
ghost use lib.Lanes.{chunk};
ghost use Rattle.symbol_arena.specs.Memory.{memory_owns, memory_lends, block_of};

use std::alloc::{AllocError, Allocator};
use std::marker::{Model, PhantomData};

/// The owner of the `size` bytes at a pointer. Those that were written come first, and the rest is
/// room.
pub struct Memory {
    ptr: *mut u8,
    ghost size: { ℕ },
    ghost written: { List ℕ },
}

impl Model for Memory {
    ghost also_owns = { λ m. memory_owns m.ptr m.size m.written };

    ghost also_shares = { λ m _ κ. memory_lends m.ptr m.written κ };
}

/// The right to give the `size` bytes at `ptr` back to `alloc`. It takes no space.
pub struct Lease<A: Allocator> {
    marker: PhantomData<A>,
    ghost ptr: { Ptr },
    ghost size: { ℕ },
    ghost alloc: { A },
}

impl<A: Allocator> Model for Lease<A> {
    ghost also_owns = { λ l. A.dealloc_token l.alloc (block_of l.size) l.ptr };
}

impl Memory {
    ghost use Rattle.symbol_arena.specs.Lends.{lends_run};

    // Room for `size` bytes, none of them written.
    pub(crate) fn allocate<A: Allocator>(
        alloc: &A,
        size: usize,
    ) -> Result<(Memory, Lease<A>), AllocError>
        requires { size < 2 ^ 63 }
        ensures { IfOk result (λ made. (made.0.size ≡ size) × (made.0.written ≡ [])
            × (made.1.ptr ≡ made.0.ptr) × (made.1.size ≡ size) × (made.1.alloc ≡ alloc.now)) }
    {
        match alloc.allocate(size, 1) {
            Ok(ptr) => {
                let marker = PhantomData;
                Ok((Memory { ptr }, Lease { marker }))
            }
            Err(refused) => Err(refused),
        }
    }

    // Gives the bytes back.
    pub(crate) fn free<A: Allocator>(self, lease: Lease<A>, alloc: &A, size: usize)
        requires { (self.size ≡ size) × (length self.written ≤ size) × (lease.ptr ≡ self.ptr)
            × (lease.size ≡ size) × (lease.alloc ≡ alloc.now) }
    {
        let Memory { ptr } = self;
        let Lease { marker: _ } = lease;
        unsafe { alloc.deallocate(ptr, size, 1) }
    }

    // Writes a zero into the first byte that wasn't written.
    pub(crate) fn push_zero(&mut self, at: usize)
        requires { (at ≡ length self.old.written) × (at < self.old.size)
            × (self.old.size < 2 ^ 63) }
        ensures { (self.new.ptr ≡ self.old.ptr) × (self.new.size ≡ self.old.size)
            × (self.new.written ≡ self.old.written ++ 0 ∷ []) }
    {
        unsafe { self.ptr.add(at).write(0) }
    }

    // The `len` bytes from `from` on.
    pub(crate) fn run(&self, from: usize, len: usize) -> &[u8]
        requires { from + len ≤ length self.now.written }
        ensures { result.now ≡ chunk from len self.now.written }
    {
        unsafe { std::slice::from_raw_parts(self.ptr.add(from), len) }
    }

    // The same for writing: the bytes are afterwards what the slice was made.
    pub(crate) fn run_mut(&mut self, from: usize, len: usize) -> &mut [u8]
        requires { from + len ≤ length self.old.written }
        ensures* writes_back { sem 𝓛 (lends_run self.entry from result) }
        ensures value { result.now ≡ chunk from len self.old.written }
    {
        unsafe { std::slice::from_raw_parts_mut(self.ptr.add(from), len) }
    }
}
