//! The allocator of tests that refuses one allocation.
use reg_heap::Refusing;
use std::alloc::Global;

/// Whether a byte is pushed where memory is expected, and there alone, and the refusal is then still to come, or not.
fn pushes(
    heap: &Refusing<Global>,
    list: &mut Vec<u8, &Refusing<Global>>,
    byte: u8,
    is_there: bool,
    waits: bool,
) -> bool {
    list.push(byte).is_ok() == is_there && heap.is_waiting() == waits
}

/// Whether the second list's first growth alone is refused.
fn refuses_the_second(
    heap: &Refusing<Global>,
    first: &mut Vec<u8, &Refusing<Global>>,
    second: &mut Vec<u8, &Refusing<Global>>,
) -> bool {
    pushes(heap, first, 1, true, true)
        && pushes(heap, second, 2, false, false)
        && pushes(heap, second, 3, true, false)
        && first.as_slice() == [1].as_slice()
        && second.as_slice() == [3].as_slice()
}

#[test]
fn refuses_just_one(rt: HostRuntime) {
    let heap = Refusing::new(rt.alloc(), 1);
    let (mut first, mut second) = (Vec::new(&heap), Vec::new(&heap));
    assert!(rt; refuses_the_second(&heap, &mut first, &mut second));
}
