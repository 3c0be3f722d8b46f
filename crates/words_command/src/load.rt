//! From words to the machine that opens on them: the words' layout, its image, and the machine.

ghost use Rattle.std.specs.Prelude.{◌≡◌, ◌*◌, ◌≤◌, length, IfOk, IfErr};
ghost use Rattle.elf_image.specs.Images.{IsPlaced, IsAccepted, IsMeant};
ghost use Rattle.elf_image.specs.Spellings.{spelling};
ghost use Rattle.machine_steps.specs.Machines.{AreHome, IsIdle};
ghost use Rattle.machine_steps.specs.Runs.{flat_state};
ghost use Rattle.words_command.specs.Loading.{bytes_of_words, layout_of_words, flat_of_words, IsLinkOrMemory};

use elf_image::{Bytes, Image, ImageError, Layout, laws, read_image, write_image};
use flat_machine::{CODE_START, Config};
use link::Meter;
use machine_steps::{Machine, NewError};
use std::alloc::{AllocError, Global};

/// One processor, and 1,024 shared words.
const SIZE: Config = Config {
    k: 0,
    c: 2,
    b: 0,
    r: 1,
    shared_words: 1024,
};

/// Makes the machine that opens on the image of these words. Its processor starts at the first word.
///
/// # Errors
///
/// [`AllocError`] if there is no memory for the image or the machine.
#[tactic(auto, using(crate::proofs::Loading::words_are_placed, crate::proofs::Loading::file_is_short, crate::proofs::Loading::words_open, crate::proofs::Loading::made_for))]
pub fn words_machine(alloc: Global, words: &[u32]) -> Result<Machine, AllocError>
    requires { length words.now ≤ 16384 }
    ensures flat { IfOk result (λ m. flat_state m ≡ flat_of_words words.now) }
    ensures idle { IfOk result IsIdle }
    ensures home { IfOk result AreHome }
    ensures one { IfOk result (λ m. m.config.k ≡ 0) }
{
    let layout = words_layout(alloc, words)?;
    let Ok(image) = image_of(alloc, &layout) else {
        return Err(AllocError);
    };
    match Machine::new(alloc, image, SIZE) {
        Ok(machine) => Ok(machine),
        Err(NewError::Memory) => Err(AllocError),
        Err(NewError::Config) => unreachable!(),
    }
}

/// The layout of words: they are code, and the processor starts at the first of them.
#[tactic(auto, using(crate::proofs::Loading::one_word_more, crate::proofs::Loading::count_of_bytes))]
fn words_layout(alloc: Global, words: &[u32]) -> Result<Layout, AllocError>
    requires { length words.now ≤ 16384 }
    ensures { IfOk result (λ layout. layout ≡ layout_of_words words.now) }
{
    let mut code = Bytes::new(alloc);
    for word in words {
        code.extend_from_slice(&word.to_le_bytes())?;
    }
    Ok(Layout {
        entry: CODE_START,
        code,
        local: Bytes::new(alloc),
        shared: Bytes::new(alloc),
    })
}

/// The image of a layout. Its file is written to memory and read back.
///
/// # Errors
///
/// [`ImageError::Link`] if there is no memory for the file, and [`ImageError::Memory`] if there is none for the image.
fn image_of(alloc: Global, layout: &Layout) -> Result<Image, ImageError>
    requires placed { IsPlaced layout.now 1024 }
    requires short { length (spelling layout.now) ≤ 1048576 }
    ensures ok { IfOk result (λ image. image ≡ record { layout = layout.now; shared_words = 1024 }) }
    ensures memory { IfErr result IsLinkOrMemory }
{
    laws::spelling_means_its_layout();
    laws::input_means_one_layout();
    laws::not_refused_is_accepted();
    let mut file = Meter::new(Vec::new(alloc));
    write_image(&mut file, layout)?;
    let mut reader = Meter::new(file.device.as_slice());
    read_image(alloc, &mut reader, &SIZE)
}
