//! Writing an image.

ghost use Rattle.std.specs.Prelude.{◌≡◌, ◌≤◌, ◌<◌, ◌+◌, ◌*◌, ◌^◌, ◌++◌, false, OnOk, OnErr, IsOkUnless, is_err, length};
ghost use Rattle.std.specs.Io.KnownBytes.{Appends};
ghost use Rattle.arrayvec.specs.ArrayVec.{array_vec_len};
ghost use Rattle.link.specs.Transfer.{AppendsPart};
ghost use Rattle.elf_image.specs.Regions.{region_start};
ghost use Rattle.elf_image.specs.Spellings.{halves, words, written_flags, file_header_bytes, program_header_bytes};
ghost use Rattle.elf_image.specs.Spellings.{head_bytes, spelling, FitsRegions};

use crate::bytes::Bytes;
use crate::error::ImageError;
use crate::header::{
    EM_RISCV, ET_EXEC, EV_CURRENT, FILE_HEADER_BYTES, IDENTIFICATION, PROGRAM_HEADER_BYTES,
};
use crate::layout::Layout;
use crate::region::{READ_EXECUTE, READ_WRITE, Region};
use crate::segment::PT_LOAD;
use arrayvec::ArrayVec;
use link::{LinkWrite, laws, write_whole};

/// The most bytes that the headers have: the ELF header and three program headers.
const MAX_HEAD_BYTES: usize = 148;

/// The bytes of the headers.
type Head = ArrayVec<u8, MAX_HEAD_BYTES>;

/// Writes the spelling of a layout whose parts fit their regions.
///
/// # Errors
///
/// [`ImageError::Link`] exactly if the link failed in this call. Then a beginning of the spelling
/// was written, and not all of it.
pub fn write_image<W: LinkWrite>(writer: &mut W, layout: &Layout) -> Result<(), ImageError>
    requires works { W.has_failed writer.old ≡ false }
    requires fits { FitsRegions layout.now }
    ensures failed { W.has_failed writer.new ≡ is_err result }
    ensures link { IsOkUnless result ImageError.Link }
    ensures ok { OnOk result (Appends (W.contents writer.old) (W.contents writer.new) (spelling layout.now)) }
    ensures err { OnErr result (AppendsPart (W.contents writer.old) (W.contents writer.new) (spelling layout.now)) }
{
    // The proof alone needs this law of writing in parts.
    laws::parts_make_a_beginning();
    let head = head_of(layout);
    write_whole(writer, head.as_slice())?;
    write_whole(writer, layout.code.as_slice())?;
    write_whole(writer, layout.local.as_slice())?;
    write_whole(writer, layout.shared.as_slice())?;
    Ok(())
}

/// The headers of a layout's spelling.
fn head_of(layout: &Layout) -> Head
    requires { FitsRegions layout.now }
    ensures { result.items ≡ head_bytes layout.now }
{
    let count = 1 + u16::from(!layout.local.is_empty()) + u16::from(!layout.shared.is_empty());
    let mut head = Head::new();
    put_file_header(&mut head, layout.entry, count);
    let offset = FILE_HEADER_BYTES + PROGRAM_HEADER_BYTES * count as usize;
    put_program_header(&mut head, offset, Region::Code, &layout.code);
    let offset = offset + layout.code.len();
    if !layout.local.is_empty() {
        put_program_header(&mut head, offset, Region::Local, &layout.local);
    }
    let offset = offset + layout.local.len();
    if !layout.shared.is_empty() {
        put_program_header(&mut head, offset, Region::Shared, &layout.shared);
    }
    head
}

/// Appends the ELF header of an executable with this many program headers.
fn put_file_header(head: &mut Head, entry: u32, e_phnum: u16)
    requires { array_vec_len head.old ≡ 0 }
    ensures items { head.new.items ≡ head.old.items ++ file_header_bytes entry e_phnum }
    ensures len { array_vec_len head.new ≡ 52 }
{
    put(head, &IDENTIFICATION);
    put(head, &[0; 9]);
    put_halves(head, &[ET_EXEC, EM_RISCV]);
    put_words(head, &[EV_CURRENT, entry, FILE_HEADER_BYTES as u32, 0, 0]);
    put_halves(
        head,
        &[
            FILE_HEADER_BYTES as u16,
            PROGRAM_HEADER_BYTES as u16,
            e_phnum,
            0,
            0,
            0,
        ],
    );
}

/// Appends the program header of a region whose bytes begin at this offset in the file.
#[tactic(auto, unfolding(crate::specs::Spellings::program_header_bytes))]
fn put_program_header(head: &mut Head, offset: usize, region: Region, bytes: &Bytes)
    requires room { array_vec_len head.old ≤ 116 }
    requires offset { offset < 2 ^ 32 }
    requires count { length bytes.now < 2 ^ 32 }
    ensures items { head.new.items ≡ head.old.items
        ++ program_header_bytes offset (region_start region) (length bytes.now) (written_flags region) }
    ensures len { array_vec_len head.new ≡ array_vec_len head.old + 32 }
{
    let flags = written_flags(region);
    let start = region.start();
    let count = bytes.len() as u32;
    put_words(
        head,
        &[PT_LOAD, offset as u32, start, start, count, count, flags, 1],
    );
}

/// The flags of a region's segment: code is read and executed, the others are read and written.
fn written_flags(region: Region) -> u32
    ensures { result ≡ written_flags region }
{
    match region {
        Region::Code => READ_EXECUTE,
        Region::Local | Region::Shared => READ_WRITE,
    }
}

/// Appends numbers of two bytes each.
fn put_halves(head: &mut Head, numbers: &[u16])
    requires { array_vec_len head.old + 2 * length numbers.now ≤ 148 }
    ensures items { head.new.items ≡ head.old.items ++ halves numbers.now }
    ensures len { array_vec_len head.new ≡ array_vec_len head.old + 2 * length numbers.now }
{
    for half in numbers {
        put(head, &half.to_le_bytes());
    }
}

/// Appends numbers of four bytes each.
fn put_words(head: &mut Head, numbers: &[u32])
    requires { array_vec_len head.old + 4 * length numbers.now ≤ 148 }
    ensures items { head.new.items ≡ head.old.items ++ words numbers.now }
    ensures len { array_vec_len head.new ≡ array_vec_len head.old + 4 * length numbers.now }
{
    for word in numbers {
        put(head, &word.to_le_bytes());
    }
}

/// Appends bytes.
fn put(head: &mut Head, bytes: &[u8])
    requires { array_vec_len head.old + length bytes.now ≤ 148 }
    ensures items { head.new.items ≡ head.old.items ++ bytes.now }
    ensures len { array_vec_len head.new ≡ array_vec_len head.old + length bytes.now }
{
    for byte in bytes {
        head.push(*byte);
    }
}
