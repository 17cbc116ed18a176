ghost use Rattle.std.specs.Prelude.{◌≤◌};

use nm_frames::{CopyJob, FrameStore};
use nm_refusing_alloc::Refusing;
use nm_types::FrameId;
use std::alloc::{AllocError, Global};
use std::test::Fail;

/// Whether a new store of three frames is made if one allocation is refused, and whether that allocation was reached.
fn made_without(heap: &Refusing<Global>, number: u64) -> (bool, bool) {
    heap.refuse(number);
    let made = match FrameStore::new(heap, 3) {
        Ok(store) => store.frame_count() == 3,
        Err(_) => false,
    };
    let met = heap.asked_since(number) >= number;
    heap.refuse(0);
    (made, met)
}

/// If memory is refused, that of the list or of any buffer, there is no new store, and with memory there is one.
#[test]
fn refused_memory(rt: HostRuntime) -> Result<(), Fail> {
    let heap = Refusing::new(rt.alloc());
    for number in 1..6 {
        let made = made_without(&heap, number);
        assert!(rt;
            made == (number == 5, number < 5),
            "without allocation {number}"
        );
    }
    Ok(())
}

/// Whether a frame gets no buffer without memory, and then one, and reads as zeros.
fn populates_late(heap: &Refusing<Global>) -> Result<bool, AllocError> {
    let frame = FrameId::new(1);
    let mut store = FrameStore::without_buffers(heap, 2)?;
    heap.refuse(1);
    let refused = store.populate(heap, frame).is_err() && !store.has_buffer(frame);
    let made = store.populate(heap, frame).is_ok() && store.has_buffer(frame);
    Ok(refused && made && store.byte(frame, 4095) == 0)
}

/// A frame whose buffer is refused has none, and can have it later.
#[test]
fn a_refused_buffer(rt: HostRuntime) -> Result<(), Fail> {
    let heap = Refusing::new(rt.alloc());
    assert!(rt; populates_late(&heap)?);
    Ok(())
}

/// How many bytes there are to copy from a frame with a byte written at each end, which may have been cleared since, to
/// one with two bytes written at `at`, and how many after that copy.
fn sizes(alloc: Global, is_clear: bool, at: usize) -> Result<[usize; 2], AllocError>
    requires { at ≤ 4000 }
{
    let ends = FrameId::new(0);
    let written = FrameId::new(1);
    let mut store = FrameStore::new(alloc, 2)?;
    store.write(ends, 0, [97].as_slice());
    store.write(ends, 4095, [98].as_slice());
    if is_clear {
        store.zero(ends);
    }
    store.write(written, at, [99, 100].as_slice());
    let mut job = CopyJob {
        source: store.take_out(ends),
        target: store.take_out(written),
        ticket: 0,
    };
    let before = job.size();
    job.copy();
    Ok([before, job.size()])
}

/// A cleared frame is copied only as far as the target was written, and then nothing is left to copy. Of a frame with a
/// byte at each end, what lies between them is copied only as far as the target was written.
#[test]
fn bytes_to_copy(rt: HostRuntime) -> Result<(), Fail> {
    assert!(rt; sizes(rt.alloc(), true, 94)? == [96, 0]);
    assert!(rt; sizes(rt.alloc(), false, 9)? == [12, 2]);
    assert!(rt; sizes(rt.alloc(), false, 3009)? == [1088, 2]);
    Ok(())
}
