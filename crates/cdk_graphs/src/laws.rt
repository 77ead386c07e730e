// What the crates above may rely on: each function stands for the law in its contract, and does nothing.
ghost use Rattle.cdk_graphs.specs.Graph.{OrdersAreWhole, WholeOrdersHaveNoLoop};

/// The law that where no number reaches itself an order has every number of the graph.
pub fn orders_are_whole()
    ensures { OrdersAreWhole }
{}

/// The law that where an order has every number of the graph none reaches itself.
pub fn whole_orders_have_no_loop()
    ensures { WholeOrdersHaveNoLoop }
{}
