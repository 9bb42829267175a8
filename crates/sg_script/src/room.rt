ghost use Rattle.std.specs.Prelude.{◌≡◌, IfOk, length};

use sg_base::OutOfMemory;
use std::alloc::Global;

/// The room on the heap that each line of a script takes while it is answered.
#[derive(Drop)]
pub struct Room {
    /// Takes the bytes of values that are written in hexadecimal digits.
    pub values: Vec<u8>,
    /// Takes the bytes of a reply.
    pub reply: Vec<u8>,
    pub ghost values_size: { length values.items ≡ 32768 },
    pub ghost reply_size: { length reply.items ≡ 8192 },
}

// So many zeros, or `OutOfMemory` where memory is refused.
fn zeros(alloc: Global, count: usize) -> Result<Vec<u8>, OutOfMemory>
    ensures { IfOk result (λ v. length v.items ≡ count) }
{
    match vec![in alloc; 0; count] {
        Ok(zeros) => Ok(zeros),
        Err(_) => Err(OutOfMemory),
    }
}

impl Room {
    /// The room, or `OutOfMemory` where memory is refused.
    pub fn new(alloc: Global) -> Result<Room, OutOfMemory> {
        let values = zeros(alloc, 32_768)?;
        let reply = zeros(alloc, 8_192)?;
        Ok(Room { values, reply })
    }
}
