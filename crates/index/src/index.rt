use handles::PlaceTable;

/// An index of keys: the places where they lie, filed under the keys' hashes.
#[derive(Drop)]
pub struct KeyIndex {
    pub(crate) table: PlaceTable,
}
