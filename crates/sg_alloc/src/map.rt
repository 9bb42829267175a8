// Which of so many numbered things are taken.
ghost use Rattle.std.specs.Prelude.{◌≡◌, ℕ, ◌<◌, true, false, Some, replicate, slice_get, slice_set, IfOk};
ghost use Rattle.sg_alloc.specs.Flags.{free_of, IsLeastFree};

use crate::rows::Rows;
use sg_base::OutOfMemory;
use sg_bits::WORD_BITS;
use std::alloc::Global;
use std::marker::Model;

#[derive(Drop)]
pub struct Map {
    // A bit for each, set where it's taken. Those behind the last are clear.
    rows: Rows,
    count: u32,
    free: u32,
}

impl Model for Map {
    ghost use Rattle.std.specs.Prelude.{List, Bool};
    ghost use Rattle.sg_alloc.specs.Rows.{IsKept, flags_of};

    ghost Value = { List Bool };

    ghost view = { λ m. flags_of m.rows m.count };

    ghost invariant = { λ m. IsKept m.rows m.count m.free };
}

impl Map {
    // So many, all of them free.
    pub fn new(alloc: Global, count: u32) -> Result<Map, OutOfMemory>
        ensures { IfOk result (λ m. m ≡ replicate count false) }
    {
        Ok(Map {
            rows: Rows::new(alloc, count as usize / WORD_BITS + 1)?,
            count,
            free: count,
        })
    }

    // Takes the least free one.
    pub fn take(&mut self) -> u32
        requires { 0 < free_of self.old }
        ensures least { IsLeastFree self.old result }
        ensures taken { self.new ≡ slice_set self.old result true }
    {
        let n = self.rows.first_clear();
        self.rows.set(n);
        self.free -= 1;
        n as u32
    }

    // Takes this one, which is free.
    pub fn set(&mut self, n: u32)
        requires { slice_get self.old n ≡ Some false }
        ensures { self.new ≡ slice_set self.old n true }
    {
        self.rows.set(n as usize);
        self.free -= 1;
    }

    // Frees this one, which is taken.
    pub fn clear(&mut self, n: u32)
        requires { slice_get self.old n ≡ Some true }
        ensures { self.new ≡ slice_set self.old n false }
    {
        self.rows.clear(n as usize);
        self.free += 1;
    }

    // How many are free.
    pub fn free(&self) -> u32
        ensures { result ≡ free_of self.now }
    {
        self.free
    }

    // Whether this one is taken, if there is one of this number.
    pub fn get(&self, n: u32) -> Option<bool>
        ensures { result ≡ slice_get self.now n }
    {
        if n >= self.count {
            return None;
        }
        Some(self.rows.is_set(n as usize))
    }
}
