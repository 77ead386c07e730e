//! That the order of an application's lazies suits the check of its sizes and the rendering of its values: laws over the
//! definitions of each.

// What the crates above may rely on: each function stands for the law in its contract, and does nothing.
ghost use Rattle.cdk_premises.specs.SuitedLaws.{LazyOrdersAreReady, LazyOrdersSuit};

/// The law that in an application that was read without a finding, with right targets and contexts, an order of its lazies
/// has each behind all that it mentions, and all that are mentioned anywhere, so that sizes are found in that order.
pub fn lazy_orders_suit()
    ensures { LazyOrdersSuit }
{}

/// The law that such an order is also what rendering asks for.
pub fn lazy_orders_are_ready()
    ensures { LazyOrdersAreReady }
{}
