//! The parts with which a machine opens are the opening of its image: the contract of a function that does nothing.

ghost use Rattle.flat_machine.specs.declared.config.Config.{Config};
ghost use Rattle.elf_image.specs.declared.layout.Layout.{Layout};
ghost use Rattle.machine_steps.specs.Parts.{AreTheOpening};

/// The processors and words of the parts are those of the flat machine that opens on the layout.
pub fn parts_are_the_opening()
    ensures { (c : Config) (layout : Layout) → AreTheOpening c layout }
{}
