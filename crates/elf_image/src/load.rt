//! From segments to the bytes of the regions.

ghost use Rattle.std.specs.Prelude.{◌≡◌, ◌≤◌, ◌+◌, IfOk, None, false, length};
ghost use Rattle.elf_image.specs.Refusals.{first_of, segment_refusals, have_overlap};
ghost use Rattle.elf_image.specs.Loading.{CopiesSegment, IsExtent, IsLoaded};

use crate::bytes::Bytes;
use crate::region::Region;
use crate::segment::ProgramHeader;
use std::alloc::{AllocError, Global};

/// The bytes of a region, from its first address to the last that a segment sets.
pub fn region_bytes(
    alloc: Global,
    file: &[u8],
    segments: &[ProgramHeader],
    region: Region,
    shared_words: u32,
) -> Result<Bytes, AllocError>
    requires checked { first_of (segment_refusals (length file.now) shared_words segments.now) ≡ None }
    requires apart { have_overlap segments.now ≡ false }
    ensures { IfOk result (λ bytes. IsLoaded file.now segments.now shared_words region bytes) }
{
    let start = region.start() as usize;
    let mut bytes = Vec::new(alloc);
    bytes.resize(extent(segments, region, shared_words), 0)?;
    for segment in segments {
        if segment.sets_in(region, shared_words) {
            copy_segment(&mut bytes, file, segment, start);
        }
    }
    Ok(Bytes::from_vec(bytes))
}

/// The number of bytes from the first address of a region to the last that a segment sets.
fn extent(segments: &[ProgramHeader], region: Region, shared_words: u32) -> usize
    ensures { IsExtent segments.now shared_words region (length segments.now) result }
{
    let mut extent = 0;
    for segment in segments {
        if segment.sets_in(region, shared_words) {
            extent = extent.max(segment.end() - region.start() as usize);
        }
    }
    extent
}

/// Copies the file's bytes of a segment to their places in a region.
fn copy_segment(bytes: &mut [u8], file: &[u8], segment: &ProgramHeader, start: usize)
    requires above { start ≤ segment.now.p_vaddr }
    requires room { segment.now.p_vaddr + segment.now.p_filesz ≤ start + length bytes.old }
    requires there { segment.now.p_offset + segment.now.p_filesz ≤ length file.now }
    ensures { CopiesSegment file.now segment.now start bytes.old bytes.new }
{
    let count = segment.p_filesz as usize;
    let place = segment.p_vaddr as usize - start;
    let offset = segment.p_offset as usize;
    bytes[place..place + count].copy_from_slice(&file[offset..offset + count]);
}
