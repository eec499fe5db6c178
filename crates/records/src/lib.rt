//! The records that a cache is lent, and its keys in them: in one column the residents' keys, in another those that Ghost
//! remembers. A key is laid in a record and filed in the column's index together.
#![tactic(auto)]

mod column;
mod filing;
mod record;

pub use column::{Column, RecordKeys, key_in};
pub use filing::{find_key, lay_key};
pub use record::Record;
