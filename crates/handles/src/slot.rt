ghost use Rattle.std.specs.Prelude.{◌≡◌};

/// The meta of a slot that holds nothing.
pub(crate) const EMPTY: u32 = 0xFFFF_FFFF;

/// One unit of displacement in a meta.
pub(crate) const UNIT: u32 = 256;

/// One slot: the meta and the handle of its entry, or an empty meta over a handle without use.
#[derive(Clone, Copy)]
pub struct Slot<X> {
    pub(crate) meta: u32,
    pub(crate) handle: X,
}

impl<X: Copy> Slot<X> {
    /// A slot that holds nothing, over a handle without use.
    pub fn vacant(handle: X) -> Slot<X>
        ensures { result ≡ record { meta = 0xFFFFFFFF; handle = handle } }
    {
        Slot {
            meta: EMPTY,
            handle,
        }
    }

    /// The slot's meta.
    pub fn meta(&self) -> u32
        ensures { result ≡ self.now.meta }
    {
        self.meta
    }

    /// The slot's handle, without use where the slot is empty.
    pub fn handle(&self) -> X
        ensures { result ≡ self.now.handle }
    {
        self.handle
    }
}
