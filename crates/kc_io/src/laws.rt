//! Laws that follow from the contracts. Each is the contract of a function that does nothing.
ghost use Rattle.kc_io.specs.Delivery.{DeliveryHolds, LookingKeeps, TurnsFollow};

/// The law of deliveries: after a whole delivery of either kind, each file holds the last of these texts with its name. Any other file is
/// unchanged. (Our own.)
pub fn delivery_holds()
    ensures { DeliveryHolds }
{}

/// The law of looking: events that failed, or that create, write or rename no file, leave the contents of each file unchanged. (Our own.)
pub fn looking_keeps()
    ensures { LookingKeeps }
{}

/// The law of turns: the events and the text of one turn and then of the next are together those of both. (Our own.)
pub fn turns_follow()
    ensures { TurnsFollow }
{}
