//! Laws of reports. Each function does nothing, and its contract is the law.

ghost use Rattle.nm_trace.specs.examples.ThreePages.{ThreePagesReport};
ghost use Rattle.nm_trace.specs.laws.Soundness.{StatesAreSound};
ghost use Rattle.nm_trace.specs.laws.Sessions.{SessionsReport, SessionsAreTraces};
ghost use Rattle.nm_trace.specs.examples.Flights.{AccessLineRows, ReadWhileItMoves};

pub use nm_steps::laws::{first_bad_is_least, flight_rows};

/// The report on three pages that move to another node.
pub fn three_pages_report()
    ensures { ThreePagesReport }
{}

/// Worked lines of accesses in flight.
pub fn access_line_rows()
    ensures { AccessLineRows }
{}

/// The report on a page that is read while it moves.
pub fn read_while_it_moves()
    ensures { ReadWhileItMoves }
{}

/// A session that is given the steps of a trace one by one returns the trace's report, and its system is in the state
/// of the trace's calls.
pub fn sessions_report()
    ensures report { SessionsReport }
    ensures traces { SessionsAreTraces }
{}

/// Every state that calls lead to from a new machine is sound.
pub fn states_are_sound()
    ensures { StatesAreSound }
{}
