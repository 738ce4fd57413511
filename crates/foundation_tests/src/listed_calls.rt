//! Members that differ, lists in order, and the text of a fault that is told as one of another kind.
use listed::*;
use std::alloc::Global;

fn differ(alloc: Global, members: &[u8], wanted: bool) -> bool {
    match all_differ(alloc, members) {
        Ok(answer) => answer == wanted,
        Err(Memory) => false,
    }
}

/// Whether the list of these numbers is below the longer list.
fn is_below(alloc: Global, numbers: &[u8], longer: &ListedNumbers<u8>) -> bool {
    match ListedNumbers::from_slice(alloc, numbers) {
        Ok(list) => list < *longer,
        Err(Memory) => false,
    }
}

fn orders_lists(alloc: Global) -> bool {
    match ListedNumbers::from_slice(alloc, &[1, 2, 0]) {
        Ok(longer) => is_below(alloc, &[1, 2], &longer) && !is_below(alloc, &[1, 3], &longer),
        Err(Memory) => false,
    }
}

#[test]
fn members_and_lists(rt: HostRuntime) {
    assert!(rt; differ(rt.alloc(), &[7, 9], true) && differ(rt.alloc(), &[7, 9, 7], false));
    assert!(rt; orders_lists(rt.alloc()));
}

/// The text of a fault of a numbered kind, told as a kind that is a text.
fn text_of(alloc: Global, kind: u8, text: &'static str) -> bool {
    let fault: Result<u8, Fault<u8>> = Err(Fault::Kind(kind));
    match told_as(fault, text) {
        Ok(_) => false,
        Err(told) => is_written(alloc, told, text),
    }
}

fn is_written(alloc: Global, fault: Fault<&'static str>, wanted: &str) -> bool {
    match format!(in alloc; "{fault}") {
        Ok(text) => text.as_str() == wanted,
        Err(_) => false,
    }
}

#[test]
fn text_of_a_fault(rt: HostRuntime) {
    assert!(rt; text_of(rt.alloc(), 3, "a kind"));
}
