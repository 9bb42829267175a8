ghost use Rattle.std.specs.Prelude.{◌<◌};

use sg_base::{PAGE_SIZE, SlotView, view};
use sg_slotted::{SlotError, format, put, remove, set, set_links, set_lsn};
use std::alloc::{AllocError, Global};
use std::test::Fail;

// One call on a page.
#[derive(Clone, Copy)]
enum Step {
    Put(u16, &'static [u8]),
    Set(u16, &'static [u8]),
    Remove(u16),
    // So many bytes, each of them 5.
    PutFives(u16, usize),
    SetFives(u16, usize),
}

// Which of the three calls is made.
#[derive(Clone, Copy)]
enum Call {
    Remove,
    Set,
    Put,
}

// What the call is answered, if the page is one.
fn answer(
    page: &mut [u8; PAGE_SIZE],
    call: Call,
    slot: u16,
    cell: &[u8],
) -> Option<Result<(), SlotError>> {
    view(page)?;
    Some(match call {
        Call::Remove => remove(page, slot),
        Call::Set => set(page, slot, cell),
        Call::Put => put(page, slot, cell),
    })
}

// So many bytes of these, or all where there are less.
fn front(bytes: &[u8], size: usize) -> &[u8] {
    if size <= bytes.len() {
        &bytes[..size]
    } else {
        bytes
    }
}

// A page, each of whose calls is made where it is one of slots: a test sees plain values.
#[derive(Drop)]
struct Trial {
    page: [u8; PAGE_SIZE],
    fives: [u8; PAGE_SIZE],
}

impl Trial {
    fn new(kind: u8) -> Trial {
        let mut page = [0xff; PAGE_SIZE];
        format(&mut page, kind);
        Trial {
            page,
            fives: [5; PAGE_SIZE],
        }
    }

    // What a step is answered, if the page is one.
    fn does(&mut self, step: &Step) -> Option<Result<(), SlotError>> {
        match *step {
            Step::Put(slot, cell) => answer(&mut self.page, Call::Put, slot, cell),
            Step::Set(slot, cell) => answer(&mut self.page, Call::Set, slot, cell),
            Step::Remove(slot) => answer(&mut self.page, Call::Remove, slot, &[]),
            Step::PutFives(slot, count) => {
                answer(&mut self.page, Call::Put, slot, front(&self.fives, count))
            }
            Step::SetFives(slot, count) => {
                answer(&mut self.page, Call::Set, slot, front(&self.fives, count))
            }
        }
    }

    // Where the first step stands that is answered otherwise.
    fn first_wrong(&mut self, steps: &[(Step, Result<(), SlotError>)]) -> Option<usize> {
        for (at, (step, answer)) in steps.iter().enumerate() {
            if self.does(step) != Some(*answer) {
                return Some(at);
            }
        }
        None
    }

    fn set_number(&mut self, lsn: u64) {
        if view(&self.page).is_some() {
            set_lsn(&mut self.page, lsn);
        }
    }

    fn set_fields(&mut self) {
        self.set_number(77);
        if view(&self.page).is_some() {
            set_links(&mut self.page, 1, 2);
        }
    }

    // The log's number, the kind, the links, how many slots there are and how many bytes are left.
    fn look(&self) -> Option<(u64, u8, (u32, u32), u16, u16)> {
        let view = view(&self.page)?;
        Some((
            view.lsn(),
            view.kind(),
            view.links(),
            view.slots(),
            view.room(),
        ))
    }

    // Whether there are so many slots, and so many bytes are left.
    fn has_room(&self, slots: u16, room: u16) -> bool {
        match view(&self.page) {
            Some(view) => view.slots() == slots && view.room() == room,
            None => false,
        }
    }

    // Whether a slot has a cell of so many fives.
    fn has_fives(&self, slot: u16, count: usize) -> bool {
        self.has_cell(slot, Some(front(&self.fives, count)))
    }

    // Whether a slot has this cell. None is asked for as `None`.
    fn has_cell(&self, slot: u16, want: Option<&[u8]>) -> bool {
        match view(&self.page) {
            Some(view) => view.slot(slot) == want,
            None => false,
        }
    }
}

const FILLED: [(Step, Result<(), SlotError>); 9] = [
    (Step::Put(0, b"first"), Ok(())),
    (Step::Put(1, b""), Ok(())),
    (Step::Put(3, b"x"), Err(SlotError::NoSlot)),
    (Step::Put(1, b"x"), Err(SlotError::NoSlot)),
    (Step::Set(0, b"1st"), Ok(())),
    (Step::Set(2, b"x"), Err(SlotError::NoSlot)),
    (Step::Remove(1), Ok(())),
    (Step::Remove(1), Err(SlotError::NoSlot)),
    (Step::Set(1, b"x"), Err(SlotError::NoSlot)),
];

// Whether a page of this kind with fields set is answered so, and has one cell then.
fn is_filled(trial: &mut Trial) -> bool {
    trial.set_fields();
    let wrong = trial.first_wrong(&FILLED);
    let is_seen = trial.look() == Some((77, 3, (1, 2), 2, 4072 - 8 - 3));
    let has_cell = trial.has_cell(0, Some(b"1st")) && trial.has_cell(1, None);
    wrong.is_none() && is_seen && has_cell
}

// Whether a format leaves the log's number alone.
fn is_emptied(trial: &mut Trial) -> bool {
    format(&mut trial.page, 4);
    trial.look() == Some((77, 4, (0, 0), 0, 4072))
}

fn is_filled_and_emptied() -> bool {
    let mut trial = Trial::new(3);
    is_filled(&mut trial) && is_emptied(&mut trial)
}

#[test]
fn a_page_is_filled_and_emptied(rt: HostRuntime) {
    assert!(rt; is_filled_and_emptied());
}

const FULL: [(Step, Result<(), SlotError>); 12] = [
    (Step::PutFives(0, 4069), Err(SlotError::NoRoom)),
    (Step::PutFives(0, 4068), Ok(())),
    (Step::Put(1, b""), Err(SlotError::NoRoom)),
    (Step::SetFives(0, 2000), Ok(())),
    (Step::PutFives(1, 1000), Ok(())),
    (Step::PutFives(2, 1060), Ok(())),
    (Step::Put(3, b""), Err(SlotError::NoRoom)),
    (Step::Remove(0), Ok(())),
    (Step::SetFives(2, 3061), Err(SlotError::NoRoom)),
    (Step::SetFives(2, 3060), Ok(())),
    (Step::Put(0, b"x"), Err(SlotError::NoRoom)),
    (Step::Put(0, b""), Ok(())),
];

// Whether three slots and no free byte are left, and two of the cells are of so many fives.
fn is_full() -> bool {
    let mut trial = Trial::new(0);
    let wrong = trial.first_wrong(&FULL);
    wrong.is_none() && trial.has_room(3, 0) && trial.has_fives(1, 1000) && trial.has_fives(2, 3060)
}

// Cells and directory may have 4,072 bytes, also where the free ones lie apart.
#[test]
fn the_last_byte_is_used(rt: HostRuntime) {
    assert!(rt; is_full());
}

// Numbers that look random, the same in each run.
#[derive(Drop)]
struct Numbers(u64);

impl Numbers {
    // A number below this one.
    fn next(&mut self, bound: u64) -> u64
        requires { 0 < bound }
        ensures { result < bound }
    {
        self.0 = self
            .0
            .wrapping_mul(6364136223846793005)
            .wrapping_add(1442695040888963407);
        (self.0 >> 33) % bound
    }
}

fn size_of(cell: &Option<Vec<u8>>) -> usize {
    match cell {
        Some(cell) => cell.len(),
        None => 0,
    }
}

// The bytes of cells and directory.
fn bytes_of(list: &[Option<Vec<u8>>]) -> usize {
    let mut bytes = 0usize;
    for cell in list {
        bytes = bytes.wrapping_add(4).wrapping_add(size_of(cell));
    }
    bytes
}

// Whether a page says that it has so many slots, and so many bytes of cells and directory.
fn has_fields(view: &SlotView<'_>, slots: usize, bytes: usize) -> bool {
    view.slots() as usize == slots
        && view.room() as usize + bytes.min(4072) == 4072
        && view.kind() == 9
        && view.lsn() == 1 << 40
}

fn is_cell(view: &SlotView<'_>, slot: u16, want: Option<&[u8]>) -> bool {
    view.slot(slot) == want
}

// Whether the slots of a page from the first one on have these cells.
fn has_cells(view: &SlotView<'_>, list: &[Option<Vec<u8>>]) -> bool {
    let mut slot = 0u16;
    for cell in list {
        let is_same = match cell {
            Some(cell) => is_cell(view, slot, Some(cell.as_slice())),
            None => is_cell(view, slot, None),
        };
        if !is_same {
            return false;
        }
        slot = slot.wrapping_add(1);
    }
    true
}

// The page says what the list does.
fn is_same(page: &[u8], list: &[Option<Vec<u8>>]) -> bool {
    match view(page) {
        Some(view) => has_fields(&view, list.len(), bytes_of(list)) && has_cells(&view, list),
        None => false,
    }
}

// What is answered to a cell behind the last one, where so many bytes are left.
fn push_cell(
    list: &mut Vec<Option<Vec<u8>>>,
    cell: Vec<u8>,
    room: usize,
) -> Result<Result<(), SlotError>, AllocError> {
    if room < 4 || room - 4 < cell.len() {
        return Ok(Err(SlotError::NoRoom));
    }
    list.push(Some(cell))?;
    Ok(Ok(()))
}

// What is answered to a cell in place of another, or in an empty slot.
fn replace_cell(
    place: &mut Option<Vec<u8>>,
    cell: Vec<u8>,
    room: usize,
    is_set: bool,
) -> Result<(), SlotError> {
    if place.is_some() != is_set {
        return Err(SlotError::NoSlot);
    }
    if room.saturating_add(size_of(place)) < cell.len() {
        return Err(SlotError::NoRoom);
    }
    drop(place.replace(cell));
    Ok(())
}

// What `put` and `set` answer by the list, after which it is as they leave it.
fn put_in(
    list: &mut Vec<Option<Vec<u8>>>,
    slot: usize,
    cell: Vec<u8>,
    is_set: bool,
) -> Result<Result<(), SlotError>, AllocError> {
    let room = 4072usize.saturating_sub(bytes_of(list));
    if slot == list.len() && !is_set {
        return push_cell(list, cell, room);
    }
    match list.get_mut(slot) {
        Some(place) => Ok(replace_cell(place, cell, room, is_set)),
        None => Ok(Err(SlotError::NoSlot)),
    }
}

// What `remove` answers by the list.
fn take_out(list: &mut Vec<Option<Vec<u8>>>, slot: usize) -> Result<(), SlotError> {
    match list.get_mut(slot) {
        Some(place) => {
            if place.is_none() {
                return Err(SlotError::NoSlot);
            }
            drop(place.take());
            Ok(())
        }
        None => Err(SlotError::NoSlot),
    }
}

// The size of a cell: few bytes mostly, and many now and then.
fn size_of_cell(numbers: &mut Numbers) -> u64 {
    match numbers.next(8) {
        0 => 0,
        1 => numbers.next(4080),
        2 | 3 => numbers.next(600),
        _ => numbers.next(40),
    }
}

impl Call {
    fn draw(numbers: &mut Numbers) -> Call {
        match numbers.next(5) {
            0 => Call::Remove,
            1 | 2 => Call::Set,
            _ => Call::Put,
        }
    }
}

// What it is answered by the list.
fn wanted(
    list: &mut Vec<Option<Vec<u8>>>,
    call: Call,
    slot: u16,
    cell: Vec<u8>,
) -> Result<Result<(), SlotError>, AllocError> {
    match call {
        Call::Remove => Ok(take_out(list, slot as usize)),
        Call::Set => put_in(list, slot as usize, cell, true),
        Call::Put => put_in(list, slot as usize, cell, false),
    }
}

// One call that is drawn.
#[derive(Clone, Copy)]
struct Draw {
    call: Call,
    slot: u16,
    size: usize,
}

// A call for a page of so many slots. Another byte is put among those of which cells are cut.
fn drawn(numbers: &mut Numbers, bytes: &mut [u8; PAGE_SIZE], slots: usize) -> Draw {
    let slot = numbers.next(40) as u16;
    let size = size_of_cell(numbers) as usize;
    let byte = numbers.next(256) as u8;
    put_byte(bytes, numbers.next(4096) as usize, byte);
    let call = Call::draw(numbers);
    let slot = match call {
        Call::Put => slot.min(slots.min(40) as u16),
        _ => slot,
    };
    Draw { call, slot, size }
}

fn put_byte(bytes: &mut [u8], at: usize, byte: u8) {
    if at < bytes.len() {
        bytes[at] = byte;
    }
}

// A page, and the list of its cells.
#[derive(Drop)]
struct Twins {
    page: [u8; PAGE_SIZE],
    list: Vec<Option<Vec<u8>>>,
}

impl Twins {
    fn new(alloc: Global) -> Twins {
        let mut trial = Trial::new(9);
        trial.set_number(1 << 40);
        Twins {
            page: trial.page,
            list: Vec::new(alloc),
        }
    }

    // Makes a call on both, and answers whether it is refused; none where the page is answered otherwise than the
    // list, or changes though it refuses.
    fn is_refused(&mut self, draw: &Draw, cell: Vec<u8>) -> Result<Option<bool>, AllocError> {
        let before = self.page;
        let answer = answer(&mut self.page, draw.call, draw.slot, cell.as_slice());
        let wanted = wanted(&mut self.list, draw.call, draw.slot, cell)?;
        let is_refused = wanted.is_err();
        let is_right = answer == Some(wanted) && (!is_refused || self.page == before);
        Ok(if is_right { Some(is_refused) } else { None })
    }
}

// Both, what is drawn from, and how many calls were refused.
#[derive(Drop)]
struct Run {
    alloc: Global,
    twins: Twins,
    numbers: Numbers,
    bytes: [u8; PAGE_SIZE],
    refused: u32,
}

impl Run {
    fn new(alloc: Global) -> Run {
        Run {
            alloc,
            twins: Twins::new(alloc),
            numbers: Numbers(2026),
            bytes: [0; PAGE_SIZE],
            refused: 0,
        }
    }

    // Makes one more call, and answers whether both were the same before it, and it goes alike.
    fn goes_on(&mut self) -> Result<bool, AllocError> {
        let same = is_same(&self.twins.page, &self.twins.list);
        let draw = drawn(&mut self.numbers, &mut self.bytes, self.twins.list.len());
        let cell = front(&self.bytes, draw.size).to_vec(self.alloc)?;
        let Some(is_refused) = self.twins.is_refused(&draw, cell)? else {
            return Ok(false);
        };
        self.refused = self.refused.wrapping_add(u32::from(is_refused));
        Ok(same)
    }

    // The first of 10,000 calls that goes otherwise.
    fn first_other(&mut self) -> Result<Option<u32>, AllocError> {
        for turn in 0..10_000 {
            if !self.goes_on()? {
                return Ok(Some(turn));
            }
        }
        Ok(None)
    }
}

// Whether none of them goes otherwise, and neither a few nor nearly all are refused.
fn all_go_alike(alloc: Global) -> Result<bool, AllocError> {
    let mut run = Run::new(alloc);
    let other = run.first_other()?;
    let refused = run.refused;
    Ok(other.is_none() && 1_666 < refused && refused < 8_334)
}

#[test]
fn random_calls_do_what_they_do_to_a_list(rt: HostRuntime) -> Result<(), Fail> {
    assert!(rt; all_go_alike(rt.alloc())?);
    Ok(())
}
