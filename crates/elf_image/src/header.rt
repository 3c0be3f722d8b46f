//! The ELF header.

ghost use Rattle.std.specs.Prelude.{◌≡◌, ◌<◌, ◌≤◌, ◌+◌, ◌^◌, ◌*◌, IfOk, IfErr, None, Some, length};
ghost use Rattle.flat_machine.specs.Memory.{number_at};
ghost use Rattle.elf_image.specs.Headers.{file_header};
ghost use Rattle.elf_image.specs.Refusals.{is_executable, is_supported, header_refusal, is_entry};

use crate::error::ImageError;
use byteorder::{ByteOrder, LittleEndian};
use flat_machine::{CODE_START, REGION_BYTES};

/// The size of the ELF header in bytes: `e_ehsize`.
pub const FILE_HEADER_BYTES: usize = 52;

/// The size of a program header in bytes: `e_phentsize`.
pub const PROGRAM_HEADER_BYTES: usize = 32;

/// The most program headers that a file may have.
pub const MAX_PROGRAM_HEADERS: usize = 16;

/// The first bytes of a file: the magic number, `ELFCLASS32`, `ELFDATA2LSB` and `EV_CURRENT`.
pub const IDENTIFICATION: [u8; 7] = [0x7F, b'E', b'L', b'F', 1, 1, 1];

/// `e_type` of an executable: `ET_EXEC`.
pub const ET_EXEC: u16 = 2;

/// `e_machine` of RISC-V: `EM_RISCV`.
pub const EM_RISCV: u16 = 243;

/// `e_version`: `EV_CURRENT`.
pub const EV_CURRENT: u32 = 1;

/// The fields of the ELF header that the reader uses.
#[derive(Clone, Copy, Debug, PartialEq, Eq, Drop)]
pub struct FileHeader {
    pub e_type: u16,
    pub e_machine: u16,
    pub e_version: u32,
    pub e_entry: u32,
    pub e_phoff: u32,
    pub e_flags: u32,
    pub e_ehsize: u16,
    pub e_phentsize: u16,
    pub e_phnum: u16,
}

impl FileHeader {
    /// The header at the beginning of a file.
    #[tactic(auto, unfolding(crate::specs::Headers::file_header))]
    pub fn of(file: &[u8]) -> Self
        requires { 52 ≤ length file.now }
        ensures { result ≡ file_header file.now }
    {
        FileHeader {
            e_type: half_at(file, 16),
            e_machine: half_at(file, 18),
            e_version: word_at(file, 20),
            e_entry: word_at(file, 24),
            e_phoff: word_at(file, 28),
            e_flags: word_at(file, 36),
            e_ehsize: half_at(file, 40),
            e_phentsize: half_at(file, 42),
            e_phnum: half_at(file, 44),
        }
    }

    /// The header of a file. The header is supported, and the file has all of its program headers.
    ///
    /// # Errors
    ///
    /// [`ImageError::Truncated`], [`ImageError::NotExecutable`] or
    /// [`ImageError::UnsupportedHeader`].
    pub fn parse(file: &[u8]) -> Result<Self, ImageError>
        ensures value { IfOk result (λ header. header ≡ file_header file.now) }
        ensures ok { IfOk result (λ header. header_refusal file.now ≡ None) }
        ensures refused { IfErr result (λ error. header_refusal file.now ≡ Some error) }
    {
        if file.len() < FILE_HEADER_BYTES {
            return Err(ImageError::Truncated);
        }
        let header = FileHeader::of(file);
        if !header.is_executable(file) {
            return Err(ImageError::NotExecutable);
        }
        if !header.is_supported() {
            return Err(ImageError::UnsupportedHeader);
        }
        if file.len() < header.program_header_place(header.e_phnum) {
            return Err(ImageError::Truncated);
        }
        Ok(header)
    }

    /// Whether the file with this header is a little-endian ELF32 executable for RISC-V.
    fn is_executable(&self, file: &[u8]) -> bool
        ensures { result ≡ is_executable file.now self.now }
    {
        file.starts_with(&IDENTIFICATION) && self.e_type == ET_EXEC && self.e_machine == EM_RISCV
    }

    /// Whether the other fields have supported values.
    fn is_supported(&self) -> bool
        ensures { result ≡ is_supported self.now }
    {
        self.e_version == EV_CURRENT
            && self.e_flags == 0
            && self.e_ehsize as usize == FILE_HEADER_BYTES
            && self.e_phentsize as usize == PROGRAM_HEADER_BYTES
            && 1 <= self.e_phnum
            && self.e_phnum as usize <= MAX_PROGRAM_HEADERS
    }

    /// Where the program header with this number begins in the file.
    pub fn program_header_place(&self, number: u16) -> usize
        ensures { result ≡ self.now.e_phoff + 32 * number }
    {
        self.e_phoff as usize + PROGRAM_HEADER_BYTES * number as usize
    }

    /// Whether a processor can start at the entry address.
    pub fn has_entry(&self) -> bool
        ensures { result ≡ is_entry self.now.e_entry }
    {
        self.e_entry / REGION_BYTES == CODE_START / REGION_BYTES && self.e_entry % 4 == 0
    }
}

/// The little-endian number that two bytes of a file make.
pub fn half_at(file: &[u8], place: usize) -> u16
    requires { place + 2 ≤ length file.now }
    ensures { result ≡ number_at file.now place 2 }
{
    LittleEndian::read_u16(&file[place..])
}

/// The little-endian number that four bytes of a file make.
pub fn word_at(file: &[u8], place: usize) -> u32
    requires { place + 4 ≤ length file.now }
    ensures { result ≡ number_at file.now place 4 }
{
    LittleEndian::read_u32(&file[place..])
}
