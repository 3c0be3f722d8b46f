//! Program headers of type `PT_LOAD`: the segments.

ghost use Rattle.std.specs.Prelude.{◌≡◌, ◌<◌, ◌≤◌, ◌+◌, ◌-◌, ◌*◌, OnOk, IfErr, None, Some, length, filter};
ghost use Rattle.std.specs.List.{list_any};
ghost use Rattle.elf_image.specs.Headers.{file_header, program_header, segments};
ghost use Rattle.elf_image.specs.Regions.{is_in, is_in_a_region, sets_in};
ghost use Rattle.elf_image.specs.Refusals.{header_refusal, is_in_file, segment_refusal, overlap, have_overlap};
ghost use Rattle.elf_image.specs.Refusals.{first_of, segment_refusals};

use crate::error::ImageError;
use crate::header::{FileHeader, MAX_PROGRAM_HEADERS, word_at};
use crate::region::Region;
use arrayvec::ArrayVec;

/// `p_type` of a segment: `PT_LOAD`.
pub const PT_LOAD: u32 = 1;

/// The fields of a program header that the reader uses.
#[derive(Clone, Copy, Debug, Default, PartialEq, Eq, Drop)]
pub struct ProgramHeader {
    pub p_type: u32,
    pub p_offset: u32,
    pub p_vaddr: u32,
    pub p_filesz: u32,
    pub p_memsz: u32,
    pub p_flags: u32,
}

/// The segments of a file, in the order of their headers.
pub type Segments = ArrayVec<ProgramHeader, MAX_PROGRAM_HEADERS>;

impl ProgramHeader {
    /// The program header that begins at this place in a file.
    #[tactic(auto, unfolding(crate::specs::Headers::program_header))]
    pub fn at(file: &[u8], place: usize) -> Self
        requires { place + 32 ≤ length file.now }
        ensures { result ≡ program_header file.now place }
    {
        ProgramHeader {
            p_type: word_at(file, place),
            p_offset: word_at(file, place + 4),
            p_vaddr: word_at(file, place + 8),
            p_filesz: word_at(file, place + 16),
            p_memsz: word_at(file, place + 20),
            p_flags: word_at(file, place + 24),
        }
    }

    /// The address after the last one of the segment.
    pub fn end(&self) -> usize
        ensures { result ≡ self.now.p_vaddr + self.now.p_memsz }
    {
        self.p_vaddr as usize + self.p_memsz as usize
    }

    /// Whether the segment's addresses lie in the region, and its flags are those of the region.
    fn is_in(&self, region: Region, shared_words: u32) -> bool
        ensures { result ≡ is_in shared_words region self.now }
    {
        let start = region.start();
        region.takes_flags(self.p_flags)
            && start <= self.p_vaddr
            && self.end() <= start as usize + region.length(shared_words)
    }

    /// Whether the segment sets addresses of the region.
    pub fn sets_in(&self, region: Region, shared_words: u32) -> bool
        ensures { result ≡ sets_in shared_words region self.now }
    {
        0 < self.p_memsz && self.is_in(region, shared_words)
    }

    /// Checks the segment of a file with this length; an error says why it is refused.
    fn check(&self, file_bytes: usize, shared_words: u32) -> Result<(), ImageError>
        ensures ok { OnOk result (segment_refusal file_bytes shared_words self.now ≡ None) }
        ensures refused { IfErr result (λ error. segment_refusal file_bytes shared_words self.now ≡ Some error) }
    {
        let end = self.p_offset as usize + self.p_filesz as usize;
        if file_bytes < end || self.p_memsz < self.p_filesz {
            return Err(ImageError::OutsideInput);
        }
        let is_placed = self.is_in(Region::Code, shared_words)
            || self.is_in(Region::Local, shared_words)
            || self.is_in(Region::Shared, shared_words);
        if 0 < self.p_memsz && !is_placed {
            return Err(ImageError::OutsideRegions);
        }
        Ok(())
    }

    /// Whether the two segments share an address.
    fn overlaps(&self, other: &ProgramHeader) -> bool
        ensures { result ≡ overlap self.now other.now }
    {
        (self.p_vaddr.max(other.p_vaddr) as usize) < self.end().min(other.end())
    }

    /// Whether the segment shares an address with one of the others.
    fn overlaps_any(&self, others: &[ProgramHeader]) -> bool
        ensures { result ≡ list_any (overlap self.now) others.now }
    {
        others.iter().any(|other| self.overlaps(other))
    }
}

/// The segments of a file with this header.
pub fn segments_of(file: &[u8], header: &FileHeader) -> Segments
    requires header { header.now ≡ file_header file.now }
    requires supported { header_refusal file.now ≡ None }
    ensures { result.items ≡ segments file.now }
{
    let mut segments = Segments::new();
    for number in 0..header.e_phnum {
        let entry = ProgramHeader::at(file, header.program_header_place(number));
        if entry.p_type == PT_LOAD {
            segments.push(entry);
        }
    }
    segments
}

/// Checks each segment in turn.
///
/// # Errors
///
/// The first refusal: [`ImageError::OutsideInput`] or [`ImageError::OutsideRegions`].
pub fn check_each(
    segments: &[ProgramHeader],
    file_bytes: usize,
    shared_words: u32,
) -> Result<(), ImageError>
    ensures ok { OnOk result (first_of (segment_refusals file_bytes shared_words segments.now) ≡ None) }
    ensures refused { IfErr result (λ error. first_of (segment_refusals file_bytes shared_words segments.now)
        ≡ Some error) }
{
    for segment in segments {
        segment.check(file_bytes, shared_words)?;
    }
    Ok(())
}

/// Whether two of the segments share an address.
pub fn have_overlap(segments: &[ProgramHeader]) -> bool
    ensures { result ≡ have_overlap segments.now }
{
    for (index, segment) in segments.iter().enumerate() {
        if segment.overlaps_any(&segments[index + 1..]) {
            return true;
        }
    }
    false
}
