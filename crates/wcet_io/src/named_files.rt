//! Files that stand in memory under their names.
ghost use Rattle.std.specs.Prelude.{◌≡◌, ◌<◌, ◌^◌, None, option_map, IfNone, IfSome, OnOk, OnErr};
ghost use Rattle.wcet_io.specs.Causes.{CountsOn};
ghost use Rattle.wcet_io.specs.NamedFiles.{content_of, with_file, IsPlaceOf, limited, taken_after, GivesOrMemory};

use crate::{Bytes, FileFault, Memory, Text};
use std::alloc::Global;

/// A file in memory.
#[derive(Debug, Drop)]
pub struct NamedFile {
    pub name: Text,
    pub content: Bytes,
}

/// Where the file with this name stands.
fn place_of(files: &[NamedFile], name: &Text) -> Option<usize>
    ensures none { IfNone result (content_of files.now name.now ≡ None) }
    ensures first { IfSome result (IsPlaceOf files.now name.now) }
{
    for (place, file) in files.iter().enumerate() {
        if file.name.as_str() == name.as_str() {
            return Some(place);
        }
    }
    None
}

#[tactic(auto, using(crate::proofs::FirstPlace::place_within, crate::proofs::FirstPlace::content_at_place))]
/// The content of the file with this name.
pub(crate) fn find<'a>(files: &'a [NamedFile], name: &Text) -> Option<&'a Bytes>
    ensures { option_map (λ content. content.now) result ≡ content_of files.now name.now }
{
    match place_of(files, name) {
        Some(place) => Some(&files[place].content),
        None => None,
    }
}

#[tactic(auto, using(crate::proofs::FirstPlace::place_within, crate::proofs::FirstPlace::with_file_at_place, crate::proofs::FirstPlace::with_file_at_none))]
/// Puts a file among the others: it replaces the content of its name, or is the last one.
/// A refusal leaves them as they were.
pub(crate) fn put(files: &mut Vec<NamedFile>, file: NamedFile) -> Result<(), Memory>
    ensures ok { OnOk result (files.new.items ≡ with_file file files.old.items) }
    ensures err { OnErr result (files.new.items ≡ files.old.items) }
{
    match place_of(files, &file.name) {
        Some(place) => files[place] = file,
        None => files.push(file)?,
    }
    Ok(())
}

/// Copies a content that has at most `limit` bytes, and counts the bytes taken.
/// Of a longer one `limit + 1` bytes count as taken.
pub(crate) fn copy(
    alloc: Global,
    content: &[u8],
    limit: usize,
    taken: &mut u64,
) -> Result<Bytes, FileFault>
    requires { limit < 2 ^ 32 }
    ensures answer { GivesOrMemory result (limited content.now limit) }
    ensures count { taken.new ≡ taken_after result taken.old }
    ensures goes_on { CountsOn taken.old taken.new }
{
    if content.len() > limit {
        let longer = limit as u64 + 1;
        *taken = taken.saturating_add(longer);
        return Err(FileFault::Long { taken: longer });
    }
    let bytes = Bytes::from_slice(alloc, content)?;
    *taken = taken.saturating_add(content.len() as u64);
    Ok(bytes)
}
