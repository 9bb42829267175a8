// Stores in memory, as the tests make, spoil and open them. These calls promise nothing: a test that makes
// them sees plain values.
ghost use Rattle.std.specs.Prelude.{◌≡◌, ◌<◌};

use sg_base::Steps;
use sg_disk::{Area, Call, Disk, Failed, MemDisk};
use sg_engine::EngineFault;
use sg_find::OpenFault;
use sg_making::{Geometry, InitFault, init_store};
use sg_ops::{Ops, OpsError};
use sg_reopen::{Started, Unopened, open_engine};
use std::alloc::{AllocError, Global};
use std::sync::ledger::{Blank, Ledger};
use std::thread::Threads;

// Why a call of a test stops.
#[derive(Clone, Copy, Debug, PartialEq, Eq)]
pub enum Stop {
    Init(InitFault),
    Open(OpenFault),
    Engine(EngineFault),
    Disk,
    Memory,
    Far,
}

impl From<AllocError> for Stop {
    fn from(_fault: AllocError) -> Stop {
        Stop::Memory
    }
}

impl From<Failed> for Stop {
    fn from(_fault: Failed) -> Stop {
        Stop::Disk
    }
}

impl From<InitFault> for Stop {
    fn from(fault: InitFault) -> Stop {
        Stop::Init(fault)
    }
}

impl From<EngineFault> for Stop {
    fn from(fault: EngineFault) -> Stop {
        Stop::Engine(fault)
    }
}

impl From<OpsError> for Stop {
    fn from(_fault: OpsError) -> Stop {
        Stop::Memory
    }
}

pub const GEOMETRY: Geometry = Geometry {
    pages: 64,
    bands: 4,
    frames: 32,
    windows: 4,
};

// A store of 64 pages and 4 bands.
pub fn store(alloc: Global) -> Result<MemDisk, Stop> {
    let mut disk = MemDisk::new(alloc);
    init_store(&mut disk, &GEOMETRY)?;
    Ok(disk)
}

// Writes these bytes, and makes them durable.
pub fn spoil(disk: &mut MemDisk, area: Area, at: u64, bytes: &[u8]) -> Result<(), Stop> {
    if at > 1_048_576 || bytes.len() > 1_048_576 {
        return Err(Stop::Far);
    }
    disk.write_at(area, at, bytes)?;
    disk.sync(area)?;
    Ok(())
}

// The same disk without its past.
pub fn anew(alloc: Global, disk: &MemDisk) -> Result<MemDisk, Stop> {
    let mut home = Vec::new(alloc);
    home.extend_from_slice(disk.home())?;
    let mut log0 = Vec::new(alloc);
    log0.extend_from_slice(disk.log0())?;
    let mut log1 = Vec::new(alloc);
    log1.extend_from_slice(disk.log1())?;
    Ok(MemDisk::of(alloc, home, log0, log1))
}

// How many calls but syncs changed the disk.
pub fn writes(disk: &MemDisk) -> u32 {
    let mut count = 0u32;
    for call in disk.calls_made() {
        match call {
            Call::Write { .. } | Call::Drop { .. } => count = count.wrapping_add(1),
            Call::Sync { .. } => {}
        }
    }
    count
}

// Why a store isn't opened, and how many calls but syncs changed the disk until then.
#[derive(Clone, Copy, Debug, PartialEq, Eq)]
pub struct Refused {
    pub fault: OpenFault,
    pub writes: u32,
}

impl Refused {
    // A refusal before the first write.
    pub fn unwritten(fault: OpenFault) -> Refused {
        Refused { fault, writes: 0 }
    }
}

// Opens a disk without a past, with the operations that are shipped: whether it is refused.
pub fn try_open<R: Threads + Sync, L: Ledger>(
    rt: &R,
    alloc: Global,
    disk: MemDisk,
    blank: Blank,
) -> Result<Option<Refused>, Stop>
    requires name { blank.name ≡ L.name }
    requires parts { blank.parts ≡ L.parts }
    requires some { 0 < L.parts }
{
    let mut steps = Steps::<L>::open(blank);
    let ops = Ops::shipped(alloc)?;
    match open_engine(rt, alloc, disk, &ops, &mut steps) {
        Ok(
            Started {
                geometry: _,
                engine,
                analysis: _,
            },
        ) => {
            let _disk = engine.into_disk();
            Ok(None)
        }
        Err(Unopened { disk, fault }) => {
            let writes = writes(&disk);
            Ok(Some(Refused { fault, writes }))
        }
    }
}
