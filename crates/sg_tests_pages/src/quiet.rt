// A disk that tells nothing.
ghost use Rattle.std.specs.Prelude.{false, ⊤};

use sg_disk::{Area, Disk, Failed, Presumed};

// The same disk, of which only the counts are known, so that what stands on it asks for nothing.
#[derive(Drop)]
pub struct Quiet<D: Disk> {
    pub inner: D,
}

impl<D: Disk> Disk for Quiet<D> {
    ghost told = { false };

    ghost view = { λ q. D.view q.inner };

    ghost reads = { λ q told. Prim.cc };

    fn read_at(&mut self, area: Area, at: u64, into: &mut [u8]) -> Result<(), Failed> {
        self.inner.read_at(area, at, into)
    }

    fn write_at(&mut self, area: Area, at: u64, bytes: &[u8]) -> Result<(), Failed> {
        self.inner.write_at(area, at, bytes)
    }

    fn drop_from(&mut self, area: Area, at: u64) -> Result<(), Failed> {
        self.inner.drop_from(area, at)
    }

    fn sync(&mut self, area: Area) -> Result<(), Failed> {
        self.inner.sync(area)
    }
}

impl<D: Disk> Presumed for Quiet<D> {
    ghost presumed = { ⊤ };
}
