// A disk that tells nothing.
ghost use Rattle.std.specs.Prelude.{false, ⊤};

use sg_disk::{Area, Disk, Failed, Presumed};

/// The same disk, of which a proof knows the counts alone. What is opened on it is asked nothing of what it contains, so an
/// application's tests can run over a disk in memory, and over what a crash leaves of one, as they stand.
#[derive(Drop)]
pub struct Silent<D: Disk> {
    pub inner: D,
}

impl<D: Disk> Disk for Silent<D> {
    ghost told = { false };

    ghost view = { λ s. D.view s.inner };

    ghost reads = { λ s told. Prim.cc };

    fn read_at(&mut self, area: Area, at: u64, into: &mut [u8]) -> Result<(), Failed> {
        self.inner.read_at(area, at, into)
    }

    fn write_at(&mut self, area: Area, at: u64, bytes: &[u8]) -> Result<(), Failed> {
        self.inner.write_at(area, at, bytes)
    }

    fn drop_from(&mut self, area: Area, at: u64) -> Result<(), Failed> {
        self.inner.drop_from(area, at)
    }

    fn sync(&mut self, area: Area) -> Result<(), Failed> {
        self.inner.sync(area)
    }
}

impl<D: Disk> Presumed for Silent<D> {
    ghost presumed = { ⊤ };
}
