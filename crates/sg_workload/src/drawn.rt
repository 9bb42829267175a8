/// What a line of a workload asks for, with what was drawn for it.
#[derive(Clone, Copy, Debug)]
pub enum Verb {
    Begin,
    Commit,
    Abort,
    Apply { index: u32, amount: u32 },
    Put { key: u32, value: u32 },
    Find { key: u32 },
    Del { key: u32 },
    Paint { at: u32, length: u32, byte: u8 },
    Get { index: u32 },
}
