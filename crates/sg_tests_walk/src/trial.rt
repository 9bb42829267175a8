// Objects in a space in memory, a damage to it, and a walk over it. What stands here promises nothing, so that a test's proof
// carries no clause of the walk.
use sg_alloc::Maps;
use sg_base::{BandNo, Name, PageNo, PageOp, TxnId};
use sg_model::Op;
use sg_objects::{ReachFault, perform, reach};
use sg_ops::Ops;
use sg_space::{Guarded, MemSpace, PageSpace, SpaceFault, UndoNote};
use std::alloc::Global;
use std::test::Fail;

// What a walk came to: so many pages and bands were set, a page was told, or a call of the space failed.
#[derive(Clone, Copy, Debug, PartialEq, Eq)]
pub enum Came {
    Sets(u32, u32),
    Broken(u32),
    Fault,
}

// What is done to the bytes of a space.
#[derive(Clone, Copy)]
pub enum Damage {
    // Another cell is put into a full slot of a page.
    Set(u32, u16, &'static [u8]),
    // A cell is put into an empty slot of a page.
    Put(u32, u16, &'static [u8]),
    // The links of a page are set.
    Links(u32, u32, u32),
    // These bytes are written to a band from an offset on.
    Band(u32, u32, &'static [u8]),
    // A page is given slots until it has so many, which stay empty.
    Slots(u32, u16),
}

// A space of 64 pages, of which the catalogue has one, and 8 bands, of which the map has one.
#[derive(Drop)]
pub struct Trial {
    alloc: Global,
    space: Guarded,
    ops: Ops,
}

impl Trial {
    pub fn new(alloc: Global) -> Result<Trial, Fail> {
        let space = Guarded::new(MemSpace::new(alloc, 64, 8)?);
        let ops = Ops::shipped(alloc)?;
        Ok(Trial { alloc, space, ops })
    }

    // Whether the operation is done.
    pub fn does(&mut self, op: &Op<'_>) -> bool {
        let mut note = UndoNote::new();
        let mut into = [0; 8192];
        perform(
            &mut self.space,
            &self.ops,
            TxnId(7),
            op,
            &mut into,
            &mut note,
        )
        .is_ok()
    }

    // Makes an array of 16 items of 256 bytes.
    pub fn add_array(&mut self, name: Name) -> bool {
        let mut done = self.does(&Op::MakeArray { name, size: 256 });
        for _ in 0..16 {
            let pushed = self.does(&Op::Push {
                name,
                value: &[7; 256],
            });
            done = done && pushed;
        }
        done
    }

    // Makes a table of three entries of 1,005 bytes each, so that it has two buckets.
    pub fn add_table(&mut self, name: Name) -> bool {
        let mut done = self.does(&Op::MakeTable { name });
        for key in [b"a", b"b", b"c"] {
            let put = self.does(&Op::Put {
                name,
                key,
                value: &[9; 1_000],
            });
            done = done && put;
        }
        done
    }

    // Makes a blob of 40,000 bytes, which has two bands.
    pub fn add_blob(&mut self, name: Name) -> bool {
        let made = self.does(&Op::MakeBlob { name });
        let sized = self.does(&Op::Size {
            name,
            length: 40_000,
        });
        made && sized
    }

    // Makes an array `a`, a table `t` and a blob `b`.
    pub fn fill(&mut self) -> Result<bool, Fail> {
        let array = self.add_array(named(b'a')?);
        let table = self.add_table(named(b't')?);
        let blob = self.add_blob(named(b'b')?);
        Ok(array && table && blob)
    }

    fn change(&mut self, page: u32, op: &PageOp<'_>) -> bool {
        self.space.change(&self.ops, PageNo(page), op).is_ok()
    }

    fn write(&mut self, band: u32, at: u32, bytes: &[u8]) -> bool {
        self.space.write_band(BandNo(band), at, bytes).is_ok()
    }

    // How many slots a page has.
    fn slots(&mut self, page: u32) -> Result<u16, SpaceFault> {
        let view = self.space.page(PageNo(page))?;
        Ok(view.slots())
    }

    fn add_slot(&mut self, page: u32, slot: u16) -> bool {
        let put = self.change(page, &PageOp::Put { slot, bytes: b"" });
        put && self.change(page, &PageOp::Remove { slot })
    }

    fn add_slots(&mut self, page: u32, count: u16) -> Result<bool, SpaceFault> {
        let mut done = true;
        for slot in self.slots(page)?..count {
            let added = self.add_slot(page, slot);
            done = done && added;
        }
        Ok(done)
    }

    // Whether the damage could be done.
    fn damage(&mut self, damage: &Damage) -> Result<bool, SpaceFault> {
        match damage {
            Damage::Set(page, slot, bytes) => Ok(self.change(
                *page,
                &PageOp::Set { slot: *slot, bytes },
            )),
            Damage::Put(page, slot, bytes) => Ok(self.change(
                *page,
                &PageOp::Put { slot: *slot, bytes },
            )),
            Damage::Links(page, a, b) => Ok(self.change(*page, &PageOp::Links { a: *a, b: *b })),
            Damage::Band(band, at, bytes) => Ok(self.write(*band, *at, bytes)),
            Damage::Slots(page, count) => self.add_slots(*page, *count),
        }
    }

    // Walks where page 0 is set, and says how many pages and bands were free before and are not now.
    fn walk_into(&mut self, maps: &mut Maps) -> Came {
        let pages = maps.free_pages();
        let bands = maps.free_bands();
        let Some(true) = maps.page_taken(PageNo(0)) else {
            return Came::Fault;
        };
        match reach(&mut self.space, maps) {
            Ok(()) => Came::Sets(
                pages.saturating_sub(maps.free_pages()),
                bands.saturating_sub(maps.free_bands()),
            ),
            Err(ReachFault::Broken(page)) => Came::Broken(page.0),
            Err(ReachFault::Space(_)) => Came::Fault,
        }
    }

    // What a walk comes to over maps in which page 0 and the map's own band are set, and the maps after it.
    pub fn walked(&mut self) -> Result<(Came, Maps), Fail> {
        let mut maps = Maps::new(self.alloc, 64, 8)?;
        maps.set_page(PageNo(0));
        maps.set_band(BandNo(0));
        let came = self.walk_into(&mut maps);
        Ok((came, maps))
    }

    pub fn walk(&mut self) -> Result<Came, Fail> {
        let (came, _maps) = self.walked()?;
        Ok(came)
    }
}

pub fn named(letter: u8) -> Result<Name, Fail> {
    Ok(Name::new(&[letter]).ok_or("a name")?)
}

// What a walk comes to over these objects, once the damage is done.
fn came_of(alloc: Global, damage: &Damage) -> Result<Came, Fail> {
    let mut trial = Trial::new(alloc)?;
    if !trial.fill()? || !trial.damage(damage)? {
        return Ok(Came::Fault);
    }
    trial.walk()
}

// The first row that came to something else, and what that is.
pub fn first_wrong(alloc: Global, rows: &[(Damage, Came)]) -> Result<Option<(usize, Came)>, Fail> {
    for (i, (damage, want)) in rows.iter().enumerate() {
        let came = came_of(alloc, damage)?;
        if came != *want {
            return Ok(Some((i, came)));
        }
    }
    Ok(None)
}
