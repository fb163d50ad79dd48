//! A box comes back, and a share outlives another.

use c_handle::*;

#[test]
fn a_box_comes_back_and_is_shared(rt: HostRuntime) {
    let Ok(numbers) = [3, 1u64 << 40].to_vec(rt.alloc()) else {
        panic!(rt; "no memory")
    };
    let Ok(boxed) = Box::new(rt.alloc(), numbers) else {
        panic!(rt; "no memory")
    };
    let boxed = Parts::of(boxed).into_box();
    assert!(rt; boxed.as_slice() == [3, 1u64 << 40].as_slice());
    let Ok(first) = Shared::new(rt.alloc(), Box::into_inner(boxed)) else {
        panic!(rt; "no memory")
    };
    let Ok(other) = first.another() else {
        panic!(rt; "no memory")
    };
    drop(first);
    assert!(rt; other.get().as_slice() == [3, 1u64 << 40].as_slice());
}
