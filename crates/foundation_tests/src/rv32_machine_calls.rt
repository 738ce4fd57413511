//! A far call, its return and a service, as GNU as lays them out, from the first word to the `ecall`.
use elf_image::{Image, flat};
use rv32_machine::*;
use std::alloc::Global;

/// auipc ra, 0; jalr ra, 20(ra); li a0, 0; li a7, 2; ecall; ret
#[rattlefmt::skip]
const BYTES: [u8; 24] = [
    0x97, 0x00, 0x00, 0x00, 0xe7, 0x80, 0x40, 0x01, 0x13, 0x05, 0x00, 0x00,
    0x93, 0x08, 0x20, 0x00, 0x73, 0x00, 0x00, 0x00, 0x67, 0x80, 0x00, 0x00,
];

fn image(alloc: Global) -> Option<Image> {
    flat(alloc, &BYTES).ok()
}

/// One step, if an instruction stands there that the processor executes by itself, and if there is memory.
fn steps(
    image: &Image,
    regs: &mut Regs,
    place: &mut u32,
    calls: &mut Vec<u32>,
    memory: &mut Store,
) -> bool {
    match image.insn(*place) {
        Some(insn) => {
            if is_executable(&insn) {
                let stepped = step(image, &insn, regs, place, calls, memory, 0);
                matches!(stepped, Ok(Stepped { paired: true, .. }))
            } else {
                false
            }
        }
        None => false,
    }
}

/// Whether that many steps from the first word on lead to this place, with that many open calls.
fn leads(
    image: &Image,
    memory: &mut Store,
    calls: &mut Vec<u32>,
    count: u32,
    end: u32,
    depth: usize,
) -> bool {
    let mut regs = Regs::new();
    let mut place = 0;
    for _step in 0..count {
        if !steps(image, &mut regs, &mut place, calls, memory) {
            return false;
        }
    }
    place == end && calls.len() == depth
}

fn leads_from_load(alloc: Global, image: &Image, count: u32, end: u32, depth: usize) -> bool {
    match Store::load(alloc, image) {
        Ok(mut memory) => leads(image, &mut memory, &mut Vec::new(alloc), count, end, depth),
        Err(_) => false,
    }
}

fn leads_from_image(alloc: Global, count: u32, end: u32, depth: usize) -> bool {
    match image(alloc) {
        Some(image) => leads_from_load(alloc, &image, count, end, depth),
        None => false,
    }
}

#[test]
fn calls_and_returns(rt: HostRuntime) {
    assert!(rt; leads_from_image(rt.alloc(), 2, 20, 1));
    assert!(rt; leads_from_image(rt.alloc(), 3, 8, 0));
    assert!(rt; leads_from_image(rt.alloc(), 5, 16, 0));
    assert!(rt; !leads_from_image(rt.alloc(), 6, 20, 0));
}

/// Whether a byte is loaded, then another one is put there, and none stands behind the image.
fn keeps_bytes(memory: &mut Store) -> bool {
    let loaded = memory.byte(4);
    memory.set_byte(4, 1);
    loaded == Some(0xe7) && memory.byte(4) == Some(1) && memory.byte(24) == None
}

fn memory_keeps_bytes(alloc: Global, image: &Image) -> bool {
    match Store::load(alloc, image) {
        Ok(mut memory) => keeps_bytes(&mut memory),
        Err(_) => false,
    }
}

/// Whether the middles of the pair and of the service are told, and no other place.
fn tells_middles(image: &Image) -> bool {
    !is_middle(image, 0)
        && is_middle(image, 4)
        && !is_middle(image, 8)
        && is_middle(image, 12)
        && is_middle(image, 16)
        && !is_middle(image, 20)
}

fn tells_turns(image: &Image) -> bool {
    matches!(pair_at(image, 4), Some(Pair { target: 20, .. }))
        && matches!(turn_at(image, 4), Some(Turn::Calling { target: 20 }))
        && matches!(turn_at(image, 20), Some(Turn::Returning))
        && matches!(
            service_at(image, 16),
            Some(ServiceAt {
                number: 2,
                argument: 0,
                ..
            })
        )
}

fn tells_code(image: &Image) -> bool {
    image.meets_code(0xffff_fffe, 4) && !image.meets_code(24, 4)
}

fn tells_all(alloc: Global) -> bool {
    match image(alloc) {
        Some(image) => {
            tells_middles(&image)
                && tells_turns(&image)
                && tells_code(&image)
                && memory_keeps_bytes(alloc, &image)
        }
        None => false,
    }
}

#[test]
fn tells_places_and_keeps_bytes(rt: HostRuntime) {
    assert!(rt; tells_all(rt.alloc()));
}
