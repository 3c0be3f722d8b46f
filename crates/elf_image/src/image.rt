//! A program image for a machine.

ghost use Rattle.std.specs.Prelude.{◌≡◌, IfOk, IsOkUnless};
ghost use Rattle.elf_image.specs.Images.{ImageContents, IsPlaced};

use crate::error::ImageError;
use crate::layout::Layout;
use std::alloc::Global;
use std::marker::Model;

/// A program, read for machines with this many shared words.
#[derive(Debug, Drop)]
pub struct Image {
    layout: Layout,
    shared_words: u32,
}

impl Model for Image {
    ghost use Rattle.elf_image.specs.Images.{ImageContents, IsPlaced};

    ghost Value = { ImageContents };

    ghost view = { λ i. record { layout = i.layout; shared_words = i.shared_words } };

    ghost invariant = { λ i. IsPlaced i.layout i.shared_words };
}

impl Image {
    /// The image of a layout that fits its regions.
    pub(crate) fn new(layout: Layout, shared_words: u32) -> Self
        requires { IsPlaced layout shared_words }
        ensures { result ≡ record { layout = layout; shared_words = shared_words } }
    {
        Image {
            layout,
            shared_words,
        }
    }

    /// The address where the processors start, and the bytes of each region.
    pub fn layout(&self) -> &Layout
        ensures layout { result.now ≡ self.now.layout }
        ensures placed { IsPlaced result.now self.now.shared_words }
    {
        &self.layout
    }

    /// The number of shared words of the machines that the image was read for.
    pub fn shared_words(&self) -> u32
        ensures { result ≡ self.now.shared_words }
    {
        self.shared_words
    }

    /// A copy of the image.
    ///
    /// # Errors
    ///
    /// [`ImageError::Memory`] if there is no memory for it.
    pub fn copy(&self, alloc: Global) -> Result<Self, ImageError>
        ensures ok { IfOk result (λ image. image ≡ self.now) }
        ensures err { IsOkUnless result ImageError.Memory }
    {
        let Image {
            layout,
            shared_words,
        } = self;
        Ok(Image::new(layout.copy(alloc)?, *shared_words))
    }
}
