// What the crates above may rely on: each function stands for the law in its contract, and does nothing.
ghost use Rattle.cdk_lazies.specs.Laws.{LazyCyclesAreMentions, LazyOrdersAreOrders, TokensAreDownward};

/// The law that a lazy reaches itself in the mention graph exactly where it does by mentions of lazies.
pub fn lazy_cycles_are_mentions()
    ensures { LazyCyclesAreMentions }
{}

/// The law that in a sound application the arguments of each token hold only tokens of lower numbers.
pub fn tokens_are_downward()
    ensures { TokensAreDownward }
{}

/// The law that in a sound application an order of its lazies has each behind all that it mentions.
pub fn lazy_orders_are_orders()
    ensures { LazyOrdersAreOrders }
{}
