/// Which page frame or window of a block it is. Each kind is numbered from 0 on.
#[derive(Clone, Copy, Debug, PartialEq, Eq)]
pub enum Place {
    Page(u32),
    Window(u32),
}
