//! A box as a raw pointer, with the ownership that makes it a box again.

ghost use Rattle.std.specs.Prelude.{◌≡◌};
ghost use Rattle.rt_handle.specs.Ownership.{box_at};

use std::marker::Model;

/// A box on the heap, taken apart: its pointer, and the value at that address.
pub(crate) struct RawBox<T> {
    pub(crate) at: *mut T,
    pub(crate) ghost value: { T },
}

impl<T> Model for RawBox<T> {
    ghost also_owns = { λ b. box_at T.row b.at b.value };
}

impl<T: Drop> RawBox<T> {
    /// Takes a box apart.
    pub(crate) fn of_box(whole: Box<T>) -> RawBox<T>
        ensures { result.value ≡ whole.value }
    {
        RawBox {
            at: Box::into_raw(whole),
        }
    }
}
