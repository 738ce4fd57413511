//! Texts that no other test prints.
use command_steps::Reason;
use reports::{bound_text, unbounded_refusal};
use std::alloc::Global;
use whole_rows::Row;

/// Whether a ray is written without its zeros.
fn tells_ray(alloc: Global, ray: &Row) -> bool {
    match unbounded_refusal(alloc, ray) {
        Ok(refusal) => {
            refusal.reason == Reason::Unbounded
                && refusal.text.as_slice() == b"unbounded\n1 1\n3 25\n".as_slice()
        }
        Err(_) => false,
    }
}

fn tells_made_ray(alloc: Global) -> bool {
    match Row::from_slice(alloc, &[0, 1, 0, 25]) {
        Ok(ray) => tells_ray(alloc, &ray),
        Err(_) => false,
    }
}

fn tells_bound(alloc: Global) -> bool {
    match bound_text(alloc, b"Idle", 0) {
        Ok(text) => text.as_slice() == b"Idle 0\n".as_slice(),
        Err(_) => false,
    }
}

#[test]
fn a_ray_is_written_without_its_zeros(rt: HostRuntime) {
    assert!(rt; tells_made_ray(rt.alloc()));
    assert!(rt; tells_bound(rt.alloc()));
}
