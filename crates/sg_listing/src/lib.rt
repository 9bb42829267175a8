//! The listing of the objects that the pages and bands of a space hold, told to a listener part by part.
//!
//! It stands on `sg_lines`, whose listener it tells, on the structures, and on `sg_objects`, which lists the names of all objects. It
//! holds no object: beside the names, and the keys of the table that is told of, no more than one item, value or piece. It promises
//! that behind an Ok the listener has heard exactly the parts of the objects that a space which shows its contents reads as, in the
//! order of their names, and the sink of `write_text` taken exactly their text; that the space was only read and no record written; and that each count of faults rose exactly where its owner
//! failed. Where the space fails or memory is refused it says nothing of what the listener has heard.
#![tactic(auto)]

mod array;
mod blob;
mod fault;
mod object;
mod objects;
mod table;
mod text;

pub use array::tell_array;
pub use blob::tell_blob;
pub use fault::TellFault;
pub use object::tell_object;
pub use objects::tell;
pub use table::tell_table;
pub use text::write_text;
