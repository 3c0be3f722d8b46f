//! The symbol table of an ELF file.

ghost use Rattle.std.specs.Prelude.{◌≡◌, ◌<◌, ◌≤◌, ◌+◌, ◌*◌, IfOk, filter_map, find, length, map, slice_get};
ghost use Rattle.std.specs.Option.{option_map};
ghost use Rattle.symbol_table.specs.Elf.{elf_header, elf_rows, entry_row, header_of, is_elf, is_listed};
ghost use Rattle.symbol_table.specs.Elf.{is_symbol_table, section_count, section_header, section_headers, string_at};
ghost use Rattle.symbol_table.specs.Elf.{symbol_entries, symbol_entry, tables_of};
ghost use Rattle.symbol_table.specs.Parts.{part_of};
ghost use Rattle.symbol_table.specs.Rows.{row_of};

use crate::bytes::{half_at, part_of, position_of, whole_count, word_at};
use crate::row::{Symbol, keep, name_of};
use std::alloc::{AllocError, Global};

/// The size of the ELF header in bytes: `e_ehsize`.
const ELF_HEADER_BYTES: usize = 52;

/// The size of a section header in bytes: `e_shentsize`.
const SECTION_HEADER_BYTES: usize = 40;

/// The size of an entry of a symbol table in bytes: `sh_entsize`.
const SYMBOL_BYTES: usize = 16;

/// The first bytes of a file: the magic number, `ELFCLASS32` and `ELFDATA2LSB`.
const IDENTIFICATION: [u8; 6] = [0x7F, b'E', b'L', b'F', 1, 1];

/// `sh_type` of a symbol table: `SHT_SYMTAB`.
const SHT_SYMTAB: u32 = 2;

/// The last of the types of symbols that count: `STT_FUNC`, after `STT_NOTYPE` and `STT_OBJECT`.
const STT_FUNC: u8 = 2;

/// The first index of a section that is none: `SHN_LORESERVE`.
const SHN_LORESERVE: u16 = 0xFF00;

/// The most bytes of a name that counts.
const MAX_NAME_BYTES: usize = 1024;

/// The fields of the ELF header that tell where the section headers are.
#[derive(Clone, Copy, Debug, Drop)]
pub struct ElfHeader {
    pub e_shoff: u32,
    pub e_shentsize: u16,
    pub e_shnum: u16,
}

/// The fields of a section header that the reader uses.
#[derive(Clone, Copy, Debug, Drop)]
pub struct SectionHeader {
    pub sh_type: u32,
    pub sh_offset: u32,
    pub sh_size: u32,
    pub sh_link: u32,
    pub sh_entsize: u32,
}

/// The fields of a symbol table's entry that the reader uses.
#[derive(Clone, Copy, Debug, Drop)]
pub struct SymbolEntry {
    pub st_name: u32,
    pub st_value: u32,
    pub st_size: u32,
    pub st_info: u8,
    pub st_shndx: u16,
}

/// Whether a file is an ELF file for 32 bits, little-endian.
pub fn is_elf(file: &[u8]) -> bool
    ensures { result ≡ is_elf file.now }
{
    file.starts_with(&IDENTIFICATION)
}

/// The symbols of an ELF file, in the order of its symbol table.
pub fn elf_symbols<'a>(alloc: Global, file: &'a [u8]) -> Result<Vec<Symbol<'a>>, AllocError>
    ensures { IfOk result (λ symbols. map row_of symbols.items ≡ elf_rows file.now) }
{
    match tables_of(file) {
        Some((table, strings)) => symbols_with(alloc, file, &table, strings),
        None => Ok(Vec::new(alloc)),
    }
}

/// The header of a file's symbol table, and the bytes of its string table.
#[tactic(auto, unfolding(crate::specs::Elf::tables_of))]
fn tables_of(file: &[u8]) -> Option<(SectionHeader, &[u8])>
    ensures { option_map (λ tables. (tables.0, tables.1.now)) result ≡ tables_of file.now }
{
    let header = ElfHeader::parse(file)?;
    let table = header.symbol_table(file)?;
    let strings = header.section(file, table.sh_link)?;
    if table.sh_entsize as usize != SYMBOL_BYTES {
        return None;
    }
    Some((table, strings.bytes_in(file)))
}

/// The symbols of a table's entries, with these strings.
fn symbols_with<'a>(
    alloc: Global,
    file: &[u8],
    table: &SectionHeader,
    strings: &'a [u8],
) -> Result<Vec<Symbol<'a>>, AllocError>
    ensures { IfOk result (λ symbols. map row_of symbols.items
        ≡ filter_map (entry_row strings.now) (symbol_entries file.now table.now)) }
{
    let start = table.sh_offset as usize;
    let count = whole_count(
        file,
        start,
        SYMBOL_BYTES,
        table.sh_size as usize / SYMBOL_BYTES,
    );
    let mut symbols = Vec::new(alloc);
    for number in 0..count {
        let entry = SymbolEntry::at(file, start + SYMBOL_BYTES * number);
        keep(&mut symbols, entry.symbol(strings))?;
    }
    Ok(symbols)
}

impl ElfHeader {
    /// The header at the beginning of a file.
    #[tactic(auto, unfolding(crate::specs::Elf::elf_header))]
    fn of(file: &[u8]) -> Self
        requires { 52 ≤ length file.now }
        ensures { result ≡ elf_header file.now }
    {
        ElfHeader {
            e_shoff: word_at(file, 32),
            e_shentsize: half_at(file, 46),
            e_shnum: half_at(file, 48),
        }
    }

    /// The header of a file, if the file has all of it and its section headers have their size.
    fn parse(file: &[u8]) -> Option<Self>
        ensures { result ≡ header_of file.now }
    {
        if file.len() < ELF_HEADER_BYTES {
            return None;
        }
        let header = ElfHeader::of(file);
        if header.e_shentsize as usize == SECTION_HEADER_BYTES {
            Some(header)
        } else {
            None
        }
    }

    /// How many section headers end within a file.
    fn section_count(&self, file: &[u8]) -> usize
        ensures { result ≡ section_count self.now file.now }
    {
        whole_count(
            file,
            self.e_shoff as usize,
            SECTION_HEADER_BYTES,
            self.e_shnum as usize,
        )
    }

    /// The section header with this number, if it is in the file.
    fn section(&self, file: &[u8], number: u32) -> Option<SectionHeader>
        ensures { result ≡ slice_get (section_headers self.now file.now) number }
    {
        let number = number as usize;
        if number < self.section_count(file) {
            Some(self.section_at(file, number))
        } else {
            None
        }
    }

    /// The first section header of a symbol table.
    fn symbol_table(&self, file: &[u8]) -> Option<SectionHeader>
        ensures { result ≡ find is_symbol_table (section_headers self.now file.now) }
    {
        let count = self.section_count(file);
        for number in 0..count {
            let section = self.section_at(file, number);
            if section.sh_type == SHT_SYMTAB {
                return Some(section);
            }
        }
        None
    }

    /// The section header with this number, which is in the file.
    fn section_at(&self, file: &[u8], number: usize) -> SectionHeader
        requires { number < section_count self.now file.now }
        ensures { result ≡ section_header file.now (self.now.e_shoff + 40 * number) }
    {
        SectionHeader::at(file, self.e_shoff as usize + SECTION_HEADER_BYTES * number)
    }
}

impl SectionHeader {
    /// The section header that begins at this place in a file.
    #[tactic(auto, unfolding(crate::specs::Elf::section_header))]
    fn at(file: &[u8], place: usize) -> Self
        requires { place + 40 ≤ length file.now }
        ensures { result ≡ section_header file.now place }
    {
        SectionHeader {
            sh_type: word_at(file, place + 4),
            sh_offset: word_at(file, place + 16),
            sh_size: word_at(file, place + 20),
            sh_link: word_at(file, place + 24),
            sh_entsize: word_at(file, place + 36),
        }
    }

    /// What a file has of the section's bytes.
    fn bytes_in<'a>(&self, file: &'a [u8]) -> &'a [u8]
        ensures { result.now ≡ part_of file.now self.now.sh_offset self.now.sh_size }
    {
        part_of(file, self.sh_offset as usize, self.sh_size as usize)
    }
}

impl SymbolEntry {
    /// The entry that begins at this place in a file.
    #[tactic(auto, unfolding(crate::specs::Elf::symbol_entry))]
    fn at(file: &[u8], place: usize) -> Self
        requires { place + 16 ≤ length file.now }
        ensures { result ≡ symbol_entry file.now place }
    {
        SymbolEntry {
            st_name: word_at(file, place),
            st_value: word_at(file, place + 4),
            st_size: word_at(file, place + 8),
            st_info: file[place + 12],
            st_shndx: half_at(file, place + 14),
        }
    }

    /// The symbol of the entry, if it counts and has a name among these strings.
    #[tactic(auto, unfolding(crate::specs::Elf::entry_row))]
    fn symbol<'a>(&self, strings: &'a [u8]) -> Option<Symbol<'a>>
        ensures { option_map row_of result ≡ entry_row strings.now self.now }
    {
        if !self.is_listed() {
            return None;
        }
        let name = name_of(string_at(strings, self.st_name)?)?;
        Some(Symbol {
            address: self.st_value,
            size: self.st_size,
            name,
        })
    }

    /// Whether the entry is of a symbol that counts, if it has a name that does.
    fn is_listed(&self) -> bool
        ensures { result ≡ is_listed self.now }
    {
        self.st_info % 16 <= STT_FUNC && 0 < self.st_shndx && self.st_shndx < SHN_LORESERVE
    }
}

/// The string that begins at this place of a string table, if it ends there and is not too long for a name. So many
/// entries at one long string cost little.
fn string_at(strings: &[u8], place: u32) -> Option<&[u8]>
    ensures { option_map (λ string. string.now) result ≡ string_at strings.now place }
{
    let rest = part_of(strings, place as usize, MAX_NAME_BYTES + 1);
    let end = position_of(rest, 0)?;
    Some(rest.split_at(end).0)
}
