//! Laws of the order in which names are read, and of the loaded files.

ghost use Rattle.kc_load.specs.Loading.{MapExists, OneMap, OneOrder, HasOrder, OrderIsReached};

/// The law of the order: for any files, names are read in at most one order from a first name on, and for files that
/// were found there is such an order. It holds the names that the first name reaches, each once. It does nothing.
pub fn one_order()
    ensures there { HasOrder }
    ensures one { OneOrder }
    ensures reached { OrderIsReached }
{}

/// The law of loading: for a folder that records its files, there is exactly one map that `load` can return. It does
/// nothing.
pub fn one_map()
    ensures there { MapExists }
    ensures one { OneMap }
{}
