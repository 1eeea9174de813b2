// Whether a memory is a sound volume. Module frame tests the form of the bytes, the others have a function for each rule of the tables,
// and check calls them in turn.
#![tactic(auto)]

mod check;
mod entries;
mod frame;
mod names;
mod nearby;
mod nodes;
mod order;
mod owners;
mod pointers;

pub use check::open;
