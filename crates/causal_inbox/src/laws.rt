//! Laws about receiving.

ghost use Rattle.causal_inbox.specs.Counted.{CountsSuffice};
ghost use Rattle.causal_inbox.specs.Orders.{AnyOrder};

/// Where counts are those of what is held, receiving asks the counts alone.
pub fn counts_suffice()
    ensures { CountsSuffice }
{}

/// Receiving makes the same of the pool in the order of names as in the order of joining.
pub fn any_order()
    ensures { AnyOrder }
{}
