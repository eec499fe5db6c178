use cache_core::Inner;

/// A Clock2Q+ cache of opened records, over a table of records that its opener lends.
#[derive(Drop)]
pub struct Cache<'a, K, V> {
    pub(crate) inner: Inner<'a, K, V>,
}
