//! The overlay: one loader over another, which answers for what the first has no record of.

ghost use Rattle.loaders.specs.Layer.{overlaid};

use crate::fault::{Cause, Fault, handed_up};
use crate::loader::Loader;
use keys::kind::Key;

/// Asks `over`, and on a want of a record `under`.
#[derive(Clone, Copy)]
pub struct Overlay<A, B> {
    pub over: A,
    pub under: B,
}

impl<K: Key, V, A: Loader<K, V>, B: Loader<K, V>> Loader<K, V> for Overlay<A, B> {
    ghost given = { λ layer word. overlaid (A.Loader.given layer.over word) (B.Loader.given layer.under word) };

    fn ask(&mut self, key: &K) -> Result<V, Fault> {
        match self.over.ask(key) {
            Err(
                Fault {
                    cause: Cause::NoRecord,
                    ..
                },
            ) => handed_up(self.under.ask(key)),
            answer => handed_up(answer),
        }
    }
}
