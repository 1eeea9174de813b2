// The three tables and the allocator of a volume that is laid out: rows found, put in, taken out and changed, pointers given out and
// taken back.
// Used counts in the header move with the rows. Each function says what it makes of the volume, and that all else stays.
// What reads is a method of Tables. What changes takes the volume as `&mut` by itself: when a struct that holds a `&mut` is gone, its
// caller's proof no longer knows what the volume holds.
#![tactic(auto)]

mod chunks;
mod entries;
mod header;
mod nodes;
mod pointers;
mod reading;
mod rows;

pub use chunks::{change_chunk, open_chunks, remove_chunks};
pub use entries::{insert_entry, remove_entry};
pub use header::set_next_node;
pub use nodes::{append_node, change_node, remove_node};
pub use pointers::{allocate, free, set_chunk_size};
pub use reading::Tables;
