ghost use Rattle.std.specs.Prelude.{◌≡◌, None};
ghost use Rattle.sg_disk.specs.Due.{due_in, left_of, with_left, one_less, is_last};

use crate::CallKind;

/// For each kind of call, in how many later calls of that kind one fails: the next, where it is 1.
#[derive(Clone, Copy)]
pub struct Due {
    pub read: Option<u64>,
    pub write: Option<u64>,
    pub cut: Option<u64>,
    pub sync: Option<u64>,
}

impl Due {
    /// None fails.
    pub fn none() -> Due
        ensures { (result.read ≡ None) × (result.write ≡ None) × (result.cut ≡ None) × (result.sync ≡ None) }
    {
        Due {
            read: None,
            write: None,
            cut: None,
            sync: None,
        }
    }

    /// The nth later call of that kind is to fail, none where `nth` is 0.
    pub fn set(&mut self, kind: CallKind, nth: u64)
        ensures { self.new ≡ with_left self.old kind (due_in nth) }
    {
        let left = if nth == 0 { None } else { Some(nth) };
        match kind {
            CallKind::Read => self.read = left,
            CallKind::Write => self.write = left,
            CallKind::Drop => self.cut = left,
            CallKind::Sync => self.sync = left,
        }
    }

    /// Counts a call of that kind, and answers whether it is the one that fails.
    pub fn falls(&mut self, kind: CallKind) -> bool
        ensures due { result ≡ is_last (left_of self.old kind) }
        ensures counted { self.new ≡ with_left self.old kind (one_less (left_of self.old kind)) }
    {
        match kind {
            CallKind::Read => falls(&mut self.read),
            CallKind::Write => falls(&mut self.write),
            CallKind::Drop => falls(&mut self.cut),
            CallKind::Sync => falls(&mut self.sync),
        }
    }
}

fn falls(left: &mut Option<u64>) -> bool
    ensures due { result ≡ is_last left.old }
    ensures counted { left.new ≡ one_less left.old }
{
    match left {
        None => false,
        Some(n) => {
            if *n > 1 {
                *n -= 1;
                false
            } else {
                *left = None;
                true
            }
        }
    }
}
