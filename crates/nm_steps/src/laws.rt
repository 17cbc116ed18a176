//! Laws of steps and faults. Each function does nothing, and its contract is the law.

ghost use Rattle.nm_steps.specs.Flights.{FlightRows};
ghost use Rattle.nm_steps.specs.Laws.{FirstBadIsLeast};

/// The fault reported for a list of steps is that of the first faulty step.
pub fn first_bad_is_least()
    ensures { FirstBadIsLeast }
{}

/// Worked accesses in flight: which are accepted, and which have another form.
pub fn flight_rows()
    ensures { FlightRows }
{}
