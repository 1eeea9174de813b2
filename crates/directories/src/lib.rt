// Directories of a sound volume: names looked up, listed, put in and taken out.
// A function that needs the bounds of a volume that is laid out names a field of its `tables`: `let _ = &tables.layout;`.
// What changes a volume takes it with its layout; crate tables says why.
#![tactic(auto)]

mod entering;
mod finding;
mod listing;
mod removing;
mod searching;
mod unlinking;

pub use entering::{create, link};
pub use finding::find_node;
pub use listing::next_place;
pub use removing::remove;
pub use searching::search;
pub use unlinking::unlink;
