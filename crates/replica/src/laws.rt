//! Laws of scans. The functions do nothing: what they ensure is proved.

ghost use Rattle.replica.specs.Scanning.{OneAnswer};

/// The same bytes have one answer, but for want of memory. So they are those of a file with the empty base, or have a
/// fault before which no other base stands, or have another base: one of these at most.
pub fn one_scan()
    ensures { OneAnswer }
{}
