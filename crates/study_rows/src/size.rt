//! The sizes of a study.

ghost use Rattle.std.specs.Prelude.{◌≡◌, ◌++◌, ◌∷◌, [], IfOk, OnOk, flat_map, map};
ghost use Rattle.study_rows.specs.Sizes.{size_with, sizes_of, sizes_with_b, sizes_with_k, with_size};

use flat_machine::Config;
use std::alloc::{AllocError, Global};

/// The numbers by which the machines of a study differ.
#[derive(Clone, Copy, Debug, PartialEq, Eq, Drop)]
pub struct Size {
    /// The number of stages of switches. There are 2^`k` processors.
    pub k: u8,
    /// How many records a switch's wait buffer holds.
    pub b: u8,
    /// How often an entry of a queue may be combined.
    pub r: u8,
}

/// The sizes that three lists make: by `k`, then by `b`, then by `r`, each in the order of its list.
///
/// # Errors
///
/// [`AllocError`] if there is no memory for them.
pub fn sizes_of(alloc: Global, ks: &[u8], bs: &[u8], rs: &[u8]) -> Result<Vec<Size>, AllocError>
    ensures { IfOk result (λ sizes. sizes.items ≡ sizes_of ks.now bs.now rs.now) }
{
    let mut sizes = Vec::new(alloc);
    for k in ks {
        push_with_k(&mut sizes, *k, bs, rs)?;
    }
    Ok(sizes)
}

/// Appends the sizes with this `k`.
fn push_with_k(sizes: &mut Vec<Size>, k: u8, bs: &[u8], rs: &[u8]) -> Result<(), AllocError>
    ensures { OnOk result (sizes.new.items ≡ sizes.old.items ++ sizes_with_k bs.now rs.now k) }
{
    for b in bs {
        push_with_b(sizes, k, *b, rs)?;
    }
    Ok(())
}

/// Appends the sizes with this `k` and this `b`.
fn push_with_b(sizes: &mut Vec<Size>, k: u8, b: u8, rs: &[u8]) -> Result<(), AllocError>
    ensures { OnOk result (sizes.new.items ≡ sizes.old.items ++ sizes_with_b k rs.now b) }
{
    for r in rs {
        sizes.push(Size { k, b, r: *r })?;
    }
    Ok(())
}

/// The machine's size, if it has the size of a study and the other numbers of `config`.
pub fn with_size(config: Config, size: Size) -> Config
    ensures exact { result ≡ with_size config size }
    ensures words { result.shared_words ≡ config.shared_words }
{
    Config {
        k: size.k,
        b: size.b,
        r: size.r,
        ..config
    }
}
