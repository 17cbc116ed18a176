use nm_refusing_alloc::Refusing;
use std::alloc::Global;
use std::test::Fail;

/// Whether a box gets its memory, and how many allocations there were since the second was to be refused.
fn makes_box(heap: &Refusing<Global>) -> (bool, u64) {
    let made = Box::new(heap, 7u8).is_ok();
    (made, heap.asked_since(2))
}

/// The second allocation is refused, and those before and after it are made.
#[test]
fn refuses_one(rt: HostRuntime) -> Result<(), Fail> {
    let heap = Refusing::new(rt.alloc());
    assert!(rt; makes_box(&heap).0);
    heap.refuse(2);
    let made = [makes_box(&heap), makes_box(&heap), makes_box(&heap)];
    assert!(rt; made == [(true, 1), (false, 2), (true, 3)]);
    Ok(())
}
