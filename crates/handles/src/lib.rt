//! A multimap from 64-bit hashes to handles, by Robin Hood hashing with backward-shift removal.
#![tactic(auto)]

mod calls;
mod entries;
mod handle;
mod kinds;
mod owned;
mod probe;
mod reader;
mod refusal;
mod search;
mod shift;
mod size;
mod slot;
mod table;

pub use handle::{Handle, Rehash, Sought};
pub use kinds::{ListedHashes, MixedHashes, Place, SheetLine};
pub use owned::{OwnedTable, PlaceTable};
pub use reader::Reader;
pub use refusal::{Reserved, TableRefusal};
pub use search::Alike;
pub use size::measure;
pub use slot::Slot;
pub use table::Table;
