//! Laws of the orders. Each function does nothing, and its contract is the law.

ghost use Rattle.nm_policy.specs.laws.Zones.{EachSetHasOneOrder};
ghost use Rattle.nm_policy.specs.examples.Zones.{ZonelistRows, FirstTouchRows};
ghost use Rattle.nm_policy.specs.laws.Pairs.{EachSetIsPairedInOrder};
ghost use Rattle.nm_policy.specs.examples.Pairs.{PairRows};
ghost use Rattle.nm_policy.specs.laws.Turns.{AllPagesTakeTurns, OneNodeTakesAll};
ghost use Rattle.nm_policy.specs.examples.Turns.{TurnRows};

/// Each set of nodes has exactly one order by distance, ties by number, and `zonelist` returns it.
pub fn each_set_has_one_order()
    ensures { EachSetHasOneOrder }
{}

/// Worked orders by distance.
pub fn zonelist_rows()
    ensures { ZonelistRows }
{}

/// Worked orders of a first touch.
pub fn first_touch_rows()
    ensures { FirstTouchRows }
{}

/// Between any two sets of nodes: no node's pages go to the node itself, each node whose pages move is emptied once,
/// and if the target of a pair is still to be emptied, so is that of every pair after it.
pub fn each_set_is_paired_in_order()
    ensures { EachSetIsPairedInOrder }
{}

/// Worked pairs.
pub fn pair_rows()
    ensures { PairRows }
{}

/// If pages listed in address order take turns on the nodes of a set that is not empty, each page goes once, in the
/// order of nodes and then of addresses.
pub fn all_pages_take_turns()
    ensures { AllPagesTakeTurns }
{}

/// A single node takes all pages, in the order of the list.
pub fn one_node_takes_all()
    ensures { OneNodeTakesAll }
{}

/// Worked lists of pages that go to nodes by turns.
pub fn turn_rows()
    ensures { TurnRows }
{}
