ghost use Rattle.aero_order.specs.Laws.{NearIsConflict, ConflictIsChained, OrderIsSerial, OrderCompleteByLength};

/// Near events conflict.
pub fn near_events_conflict()
    ensures { NearIsConflict }
{}

/// In a well-formed trace near events lead from the first of two conflicting events to the second.
pub fn a_conflict_is_a_chain_of_near_events()
    ensures { ConflictIsChained }
{}

/// The order of the transactions' numbers along near edges is the serial order.
pub fn the_order_along_near_edges_is_the_serial_order()
    ensures { OrderIsSerial }
{}

/// That order has every transaction exactly where it is as long as there are transactions.
pub fn the_order_is_complete_where_it_is_as_long()
    ensures { OrderCompleteByLength }
{}
