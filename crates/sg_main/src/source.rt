ghost use Rattle.std.specs.Prelude.{◌≡◌, ◌≤◌, None};
ghost use Rattle.std.specs.Result.{IsErr};
ghost use Rattle.sg_base.specs.Ends.{HasRisen};

use sg_base::{Failed, Source};

/// A source that couldn't be opened: each of its reads fails.
#[derive(Drop)]
pub struct Unopened {
    faults: u64,
}

impl Unopened {
    /// One that hasn't been read.
    pub fn new() -> Self
        ensures { result.faults ≡ 0 }
    {
        Unopened { faults: 0 }
    }
}

impl Source for Unopened {
    ghost left = { λ _. None };

    ghost faults = { λ s. s.faults };

    fn read(&mut self, _into: &mut [u8]) -> Result<usize, Failed>
        ensures fails { IsErr result }
        ensures later { self.old.faults ≤ self.new.faults }
        ensures failed { HasRisen self.old.faults self.new.faults }
    {
        self.faults = self.faults.saturating_add(1);
        Err(Failed)
    }
}
