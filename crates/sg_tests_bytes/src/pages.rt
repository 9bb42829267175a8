use sg_base::{view, write_u16};

// The fields and entries of a page of three slots: a cell of 3 bytes at the end, an empty slot, and
// a cell of 2 bytes with a lost byte behind it.
const FIELDS: [[u16; 2]; 8] = [
    [8, 7],
    [10, 3],
    [12, 4090],
    [14, 1],
    [24, 4093],
    [26, 3],
    [32, 4090],
    [34, 2],
];

// The bytes of the cells.
const CELLS: [[u16; 2]; 3] = [[4090, 0x6564], [4093, 0x6261], [4094, 0x6362]];

fn put(page: &mut [u8], at: usize, number: u16) {
    if at < page.len() && 2 <= page.len() - at {
        write_u16(&mut page[at..], number);
    }
}

fn put_each(page: &mut [u8], rows: &[[u16; 2]]) {
    for [at, number] in rows {
        put(page, usize::from(*at), *number);
    }
}

fn write_fields(page: &mut [u8]) {
    put_each(page, &FIELDS);
    put_each(page, &CELLS);
}

fn page_of_three() -> [u8; 4096] {
    let mut page = [0; 4096];
    write_fields(&mut page);
    page
}

fn front(bytes: &[u8], size: usize) -> &[u8] {
    if size <= bytes.len() {
        &bytes[..size]
    } else {
        bytes
    }
}

fn is_page(page: &[u8]) -> bool {
    view(page).is_some()
}

// The log's number, the kind, the links, how many slots there are and how many bytes are left.
fn seen(page: &[u8]) -> Option<(u64, u8, (u32, u32), u16, u16)> {
    let view = view(page)?;
    Some((
        view.lsn(),
        view.kind(),
        view.links(),
        view.slots(),
        view.room(),
    ))
}

// Whether a slot has this cell. None is asked for as `None`.
fn has_cell(page: &[u8], slot: u16, want: Option<&[u8]>) -> bool {
    match view(page) {
        Some(view) => view.slot(slot) == want,
        None => false,
    }
}

// The log's number and the links.
const NUMBERS: [[u16; 2]; 5] = [
    [0, 0x0708],
    [6, 0x0102],
    [16, 5],
    [20, 0xfffe],
    [22, 0xffff],
];

fn page_of_numbers() -> [u8; 4096] {
    let mut page = page_of_three();
    put_each(&mut page, &NUMBERS);
    page
}

// Whether both cells of the page are seen, and none elsewhere.
fn has_two_cells(page: &[u8]) -> bool {
    let has_both = has_cell(page, 0, Some(b"abc")) && has_cell(page, 2, Some(b"de"));
    has_both && has_cell(page, 1, None) && has_cell(page, 3, None) && has_cell(page, 65535, None)
}

fn has_numbers(page: &[u8]) -> bool {
    let fields = (0x0102_0000_0000_0708, 7, (5, 0xffff_fffe), 3, 4072 - 12 - 5);
    seen(page) == Some(fields)
}

#[test]
fn a_page_is_seen(rt: HostRuntime) {
    let page = page_of_numbers();
    assert!(rt; has_numbers(&page) && has_two_cells(&page));
}

// One number in place of another, with which the bytes are still a page of slots.
const ARE_PAGES: [[u16; 2]; 15] = [
    // The log's number, the kind and the links may be anything.
    [0, 0xffff],
    [6, 0xffff],
    [8, 0x00ff],
    [16, 0xffff],
    [22, 0xffff],
    // One more slot is empty.
    [10, 4],
    // The directory ends at the cells' start.
    [10, 1016],
    // The cells' start as it was.
    [12, 4090],
    // A cell that touches the other.
    [24, 4092],
    [32, 4091],
    // A cell without bytes stands anywhere behind the fields, also in other cells.
    [28, 24],
    [28, 4089],
    [28, 4094],
    [28, 4096],
    // The length of an empty slot says nothing.
    [30, 0xffff],
];

// The same, with which they are none.
const ARE_NONE: [[u16; 2]; 37] = [
    // The byte behind the kind is 0.
    [8, 0x0107],
    [8, 0xff07],
    // One slot less loses a cell.
    [10, 2],
    [10, 0],
    // The directory ends at the cells' start or before it.
    [10, 1017],
    [10, 0xffff],
    // The cells' start is where the bytes of cells and the lost ones begin.
    [12, 4089],
    [12, 4091],
    [12, 36],
    [12, 35],
    [12, 24],
    [12, 0],
    [12, 4096],
    [12, 4097],
    [12, 0xffff],
    [14, 0],
    [14, 2],
    [14, 0xffff],
    // A cell that overlaps the other, or leaves the area.
    [24, 4091],
    [24, 4090],
    [24, 4089],
    [24, 4088],
    [24, 4094],
    [24, 4096],
    [24, 0xffff],
    [24, 36],
    [24, 24],
    [24, 1],
    [24, 0],
    [26, 2],
    [26, 4],
    [26, 0],
    [26, 0xffff],
    [32, 4092],
    // A cell without bytes stands behind the fields.
    [28, 23],
    [28, 4097],
    [28, 1],
];

// Whether the page with one number in place of another is one.
fn is_page_with(row: &[u16; 2]) -> bool {
    let mut page = page_of_three();
    put_each(&mut page, &[*row]);
    is_page(&page)
}

// Where the first change stands that is told otherwise.
fn first_wrong(rows: &[[u16; 2]], wanted: bool) -> Option<usize> {
    for (at, row) in rows.iter().enumerate() {
        if is_page_with(row) != wanted {
            return Some(at);
        }
    }
    None
}

fn are_told() -> bool {
    let page = first_wrong(&ARE_PAGES, true);
    let none = first_wrong(&ARE_NONE, false);
    page.is_none() && none.is_none()
}

#[test]
fn hostile_pages_are_told(rt: HostRuntime) {
    assert!(rt; are_told());
}

// Whether so many bytes with the fields of a page are one.
fn is_page_of(size: usize) -> bool {
    let mut longer = [0; 4100];
    write_fields(&mut longer);
    is_page(front(&longer, size))
}

// Whether other sizes than a page's, no byte and zeros alone are no pages.
fn are_no_pages() -> bool {
    let other = is_page_of(4095) || is_page_of(4097) || is_page_of(9);
    let empty = is_page(&[]) || is_page(&[0; 4096]);
    !other && !empty
}

#[test]
fn other_sizes_are_no_pages(rt: HostRuntime) {
    assert!(rt; is_page_of(4096) && are_no_pages());
}

// A page whose directory of 1,018 slots fills it. None has a cell.
fn full_directory() -> [u8; 4096] {
    let mut page = [0; 4096];
    put_each(&mut page, &[[10, 1018], [12, 4096]]);
    page
}

// Has each of these slots a cell without bytes.
fn fill_directory(page: &mut [u8]) {
    for slot in 0..1018 {
        put(page, 24 + 4 * slot, 24);
    }
}

// Whether it is a page with no cells, and with cells without bytes.
fn is_full_page() -> bool {
    let mut page = full_directory();
    let is_empty_page = is_page(&page);
    fill_directory(&mut page);
    is_empty_page && is_page(&page)
}

// Whether it is a page where these numbers are put over its cells without bytes.
fn is_full_page_with(rows: &[[u16; 2]]) -> bool {
    let mut page = full_directory();
    fill_directory(&mut page);
    put_each(&mut page, rows);
    is_page(&page)
}

// Whether it is one with a cell over the others, or with a slot more.
fn is_overfull_page() -> bool {
    let has_one_over = is_full_page_with(&[[26, 1]]);
    has_one_over || is_full_page_with(&[[26, 1], [26, 0], [10, 1019]])
}

// A directory of 1,018 slots fills the page: all cells without bytes, or one of them over another.
#[test]
fn a_full_directory_is_a_page(rt: HostRuntime) {
    assert!(rt; is_full_page() && !is_overfull_page());
}
