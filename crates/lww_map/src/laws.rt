//! A law of registers, the contract of a function with nothing to do.

ghost use Rattle.lww_map.specs.Writes.{WritesComeInAnyOrder};

/// Writes leave the same registers in whatever order they come.
pub fn writes_come_in_any_order()
    ensures { WritesComeInAnyOrder }
{}
