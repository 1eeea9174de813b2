// Files of a sound volume: their bytes read, written, cut and extended, chunk by chunk, and their limits. The layout is the
// check's; the chunk size is read once a call and handed on, and so is the place of a row that was searched for.
// A function that needs the bounds of a volume that is laid out names a field of its `tables`: `let _ = &tables.layout;`.
// What changes a volume takes it with its layout; crate tables says why.
#![tactic(auto)]

mod chunks;
mod cutting;
mod files;
mod limits;
mod reading;
mod resizing;
mod rows;
mod writing;

pub use cutting::cut_rows;
pub use files::{RowAt, find_file};
pub use limits::set_limit;
pub use reading::read;
pub use resizing::resize_file;
pub use writing::write;
