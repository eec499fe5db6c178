use index::KeyIndex;
use policy::Policy;
use records::Record;

/// The records with the policy over their places and the indexes of their keys.
#[derive(Drop)]
pub struct Inner<'a, K, V> {
    pub records: &'a mut [Record<K, V>],
    pub policy: Policy,
    pub residents: KeyIndex,
    pub remembered: KeyIndex,
}
