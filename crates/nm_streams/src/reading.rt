//! Reading to the end.

ghost use Rattle.std.specs.Prelude.{◌≡◌, ◌≤◌, length, IfOk, OnOk, IfSome};
ghost use Rattle.std.specs.Io.KnownBytes.{IsAtEnd};
ghost use Rattle.nm_streams.specs.Reporting.{ReportsRead};

use crate::reporting::ReportingReader;
use crate::stream_error::ReadError;
use std::alloc::Allocator;

/// All bytes of a reader, if they are no more than the limit.
///
/// `Fault` if the reader failed or gave more bytes, of which it reads at most 16 KiB past the limit; `HostMemory` if the
/// host was out of memory for them.
pub fn read_all<A: Allocator, R: ReportingReader>(
    alloc: A,
    reader: &mut R,
    limit: usize,
) -> Result<Vec<u8, A>, ReadError>
    // On success
    ensures bytes { IfOk result (λ v. IfSome (R.remaining reader.old) (λ xs. v.items ≡ xs)) }
    ensures within { IfOk result (λ v. length v.items ≤ limit) }
    ensures given { IfOk result (λ v. R.gave reader.old reader.new (length v.items)) }
    ensures end { OnOk result (IsAtEnd (R.remaining reader.new)) }

    // In any case
    ensures failure { ReportsRead limit (R.has_failed reader.old) (R.has_failed reader.new)
        (R.gave reader.old reader.new) result }
{
    let mut bytes = Vec::new(alloc);
    let mut buffer = [0u8; 16384];
    while bytes.len() <= limit {
        match reader.read_reporting(&mut buffer) {
            Ok(count) => {
                if count == 0 {
                    return Ok(bytes);
                }
                if bytes.extend_from_slice(&buffer[..count]).is_err() {
                    return Err(ReadError::HostMemory);
                }
            }
            Err(_) => return Err(ReadError::Fault),
        }
    }
    Err(ReadError::Fault)
}
