//! Calls on a session's system, by the caller alone.

ghost use Rattle.std.specs.Prelude.{◌≡◌};
ghost use Rattle.nm_requests.specs.Views.{call_of};
ghost use Rattle.nm_library.specs.Calls.{error_status, Completes, OfSession};

use crate::handle::{Handle, OpenSession};
use crate::status;
use nm_calls::{Call, CallError};
use nm_crew::Alone;
use nm_frames::CopyJob;
use nm_spaces::AddressSpaces;
use std::alloc::Global;
use std::marker::PhantomData;

/// The status for why a call failed.
pub fn status_for(error: CallError) -> i32
    ensures { result ≡ error_status error }
{
    match error {
        CallError::Refused(errno) => -errno.number(),
        CallError::HostMemory { .. } => status::NO_MEMORY,
    }
}

/// Makes a call, and returns how it ended.
pub fn make(kept: &mut OpenSession, call: &Call<Global>) -> i32
    ensures { Completes (call_of call.now) result kept.old kept.new }
{
    // (the kit's borrow checker looks for what a crew works on among the types of this function)
    let _work: PhantomData<(CopyJob<Global>, AddressSpaces<Global>)> = PhantomData;
    match kept.session.call(&Alone, call) {
        Ok(_) => status::DONE,
        Err(error) => status_for(error),
    }
}

/// Makes a call on the session of a handle, if there is one.
pub fn make_on(alloc: Global, session: &mut Handle, call: &Call<Global>) -> i32
    ensures { OfSession (Completes (call_of call.now)) result session.old.value session.new.value }
{
    let Some(mut kept) = session.take(alloc) else {
        return status::BAD_ARGUMENT;
    };
    let answer = make(&mut kept, call);
    session.put(kept);
    answer
}
