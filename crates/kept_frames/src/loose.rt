ghost use Rattle.std.specs.Prelude.{◌≡◌};
ghost use Rattle.kept_frames.specs.Boxes.{heap_owns};

use std::alloc::Global;
use std::marker::Model;

/// A box of the heap as its pointer.
pub(crate) struct Loose<T> {
    pub(crate) at: *mut T,
    pub(crate) ghost value: { T },
}

impl<T> Model for Loose<T> {
    ghost also_owns = { λ l. heap_owns T.row l.at l.value };
}

impl<T: Drop> Loose<T> {
    /// Takes a box apart.
    pub(crate) fn of(value: Box<T>) -> Loose<T>
        ensures { result.value ≡ value.value }
    {
        let at = Box::into_raw(value);
        Loose { at }
    }
}

impl<T> Loose<T> {
    /// Makes a box of it again. Any handle of the heap may free it.
    pub(crate) fn into_box(self, alloc: Global) -> Box<T>
        ensures { result.value ≡ self.value }
    {
        let Loose { at } = self;
        unsafe { Box::from_raw(alloc, at) }
    }
}
