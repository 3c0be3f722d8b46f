//! Reading an image.

ghost use Rattle.std.specs.Prelude.{◌≡◌, ◌≤◌, ◌↔◌, false, true, IfOk, IfErr, OnOk, IsErrOf, None, length};
ghost use Rattle.elf_image.specs.Refusals.{first_of, segment_refusals, have_overlap};
ghost use Rattle.elf_image.specs.Loading.{IsLoaded};
ghost use Rattle.elf_image.specs.Images.{IsAccepted, IsMeant, IsCause, IsGiven, IsRefused};

use crate::error::ImageError;
use crate::header::FileHeader;
use crate::image::Image;
use crate::layout::Layout;
use crate::load::region_bytes;
use crate::region::Region;
use crate::segment::{ProgramHeader, check_each, have_overlap, segments_of};
use flat_machine::Config;
use link::{LinkRead, read_within};
use std::alloc::{AllocError, Global};

/// The most bytes that an input may have.
pub const MAX_IMAGE_BYTES: usize = 1_048_576;

/// Reads an image for machines of this size, from all that the reader has.
///
/// # Errors
///
/// The first of these that applies. While reading: [`ImageError::Link`] exactly if the link failed
/// in this call, [`ImageError::Memory`], [`ImageError::TooLong`]. Then [`ImageError::Truncated`]
/// for the ELF header, [`ImageError::NotExecutable`], [`ImageError::UnsupportedHeader`],
/// [`ImageError::Truncated`] for the program headers; for each segment in order
/// [`ImageError::OutsideInput`] and [`ImageError::OutsideRegions`]; then [`ImageError::Overlap`]
/// and [`ImageError::Entry`]. [`ImageError::Memory`] may also occur later, if there is no memory
/// for the image. After `Link` and `Memory`, at most [`MAX_IMAGE_BYTES`] bytes were taken from the
/// reader.
pub fn read_image<R: LinkRead>(
    alloc: Global,
    reader: &mut R,
    config: &Config,
) -> Result<Image, ImageError>
    requires { R.has_failed reader.old ≡ false }
    ensures ok { IfOk result (IsGiven config.now.shared_words (R.remaining reader.old) (R.remaining reader.new)) }
    ensures refused { IfErr result (IsRefused config.now.shared_words (R.remaining reader.old)
        (R.remaining reader.new)) }
    ensures link { IsErrOf result ImageError.Link ↔ (R.has_failed reader.new ≡ true) }
{
    let file = read_within(alloc, reader, MAX_IMAGE_BYTES)?;
    image_of(alloc, file.as_slice(), config.shared_words)
}

/// The image that a file's bytes mean.
fn image_of(alloc: Global, file: &[u8], shared_words: u32) -> Result<Image, ImageError>
    requires { length file.now ≤ 1048576 }
    ensures shared_words { IfOk result (λ image. image.shared_words ≡ shared_words) }
    ensures accepted { OnOk result (IsAccepted shared_words file.now) }
    ensures meant { IfOk result (λ image. IsMeant shared_words file.now image.layout) }
    ensures refused { IfErr result (IsCause shared_words file.now) }
{
    let header = FileHeader::parse(file)?;
    let segments = segments_of(file, &header);
    check_each(segments.as_slice(), file.len(), shared_words)?;
    if have_overlap(segments.as_slice()) {
        return Err(ImageError::Overlap);
    }
    if !header.has_entry() {
        return Err(ImageError::Entry);
    }
    let layout = layout_of(
        alloc,
        file,
        header.e_entry,
        segments.as_slice(),
        shared_words,
    )?;
    Ok(Image::new(layout, shared_words))
}

/// The bytes that the segments place in each region.
fn layout_of(
    alloc: Global,
    file: &[u8],
    entry: u32,
    segments: &[ProgramHeader],
    shared_words: u32,
) -> Result<Layout, AllocError>
    requires checked { first_of (segment_refusals (length file.now) shared_words segments.now) ≡ None }
    requires apart { have_overlap segments.now ≡ false }
    ensures entry { IfOk result (λ layout. layout.entry ≡ entry) }
    ensures code { IfOk result (λ layout. IsLoaded file.now segments.now shared_words Region.Code layout.code) }
    ensures local { IfOk result (λ layout. IsLoaded file.now segments.now shared_words Region.Local layout.local) }
    ensures shared { IfOk result (λ layout. IsLoaded file.now segments.now shared_words Region.Shared layout.shared) }
{
    Ok(Layout {
        entry,
        code: region_bytes(alloc, file, segments, Region::Code, shared_words)?,
        local: region_bytes(alloc, file, segments, Region::Local, shared_words)?,
        shared: region_bytes(alloc, file, segments, Region::Shared, shared_words)?,
    })
}
