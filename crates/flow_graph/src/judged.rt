//! What judging a node asks of a system and its code.

use elf_image::Image;
use oil_model::System;
use timing_file::Loop;

/// A system with its code: the image, the address at which each context begins (tasks by id, then
/// interrupt service routines by id), and the declared loops.
#[derive(Clone, Copy)]
pub(crate) struct Judged<'p> {
    pub(crate) image: &'p Image,
    pub(crate) entries: &'p [Option<u32>],
    pub(crate) system: &'p System,
    pub(crate) loops: &'p [Loop],
}
