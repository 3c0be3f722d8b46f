//! What the operands of a statement have to be.

ghost use Rattle.std.specs.Prelude.{◌≡◌, ◌≤ℤ◌, negsuc, pos, ◌^◌, true};
ghost use Rattle.std.specs.Option.{option_map};
ghost use Rattle.word_faults.specs.Wants.{range_of, of_directive, of_mnemonic, wants, wants_of, wanted_at, shape_wants};

use asm_lines::{Directive, Mnemonic};

/// What an operand has to be.
#[derive(Clone, Copy, Debug, Drop)]
pub enum Wanted {
    /// A register.
    Register,
    /// A number of 12 bits in two's complement, or `%lo(label)`.
    Lower,
    /// The upper 20 bits of a word, or `%hi(label)`.
    Upper,
    /// The number of bits of a shift.
    Shift,
    /// The ordering of a fence.
    Fence,
    /// The target of a branch: a label, or the distance.
    Branch,
    /// The target of a jump: a label, or the distance.
    Jump,
    /// A number and a register in brackets.
    Address,
    /// A register in brackets.
    Base,
    /// The value of a word, or a label.
    Word,
    /// The value of a byte.
    Byte,
    /// A number of zero bytes.
    Count,
}

impl Wanted {
    /// The least and the greatest number that is allowed here.
    pub fn range(self) -> (i64, i64)
        ensures value { result ≡ range_of self }
        ensures least { negsuc (2 ^ 32) ≤ℤ result.0 }
        ensures most { result.1 ≤ℤ pos (2 ^ 32) }
    {
        match self {
            Wanted::Register | Wanted::Base => (0, 0),
            Wanted::Lower | Wanted::Address => (-2048, 2047),
            Wanted::Upper => (0, 1_048_575),
            Wanted::Shift => (0, 31),
            Wanted::Fence => (0, 4095),
            Wanted::Branch => (-4096, 4094),
            Wanted::Jump => (-1_048_576, 1_048_574),
            Wanted::Word => (-2_147_483_648, 4_294_967_295),
            Wanted::Byte => (-128, 255),
            Wanted::Count => (0, 1_048_576),
        }
    }
}

/// The operands that the first word of a statement takes.
#[derive(Drop)]
pub struct Shape {
    /// How they are written.
    pub form: &'static str,
    /// What each has to be.
    pub operands: &'static [Wanted],
    /// Whether there may be any number of operands like the first.
    pub is_list: bool,
}

const NONE: Shape = Shape {
    form: "",
    operands: &[],
    is_list: false,
};

impl Shape {
    /// The operands that this first word takes.
    #[tactic(auto, unfolding(crate::specs::Wants::wants_of))]
    pub fn of(word: &[u8]) -> Option<Shape>
        ensures { option_map shape_wants result ≡ wants_of word.now }
    {
        if let Some(directive) = Directive::find(word) {
            return Some(Shape::of_directive(directive));
        }
        match Mnemonic::find(word) {
            Some((mnemonic, _)) => Some(Shape::of_mnemonic(mnemonic)),
            None => None,
        }
    }

    /// What the operand with this number, from 0, has to be.
    pub fn operand_at(&self, number: usize) -> Option<Wanted>
        ensures { result ≡ wanted_at (shape_wants self.now) number }
    {
        let number = if self.is_list { 0 } else { number };
        self.operands.get(number).copied()
    }

    fn single(form: &'static str, operands: &'static [Wanted]) -> Shape
        ensures { shape_wants result ≡ wants form.now operands.now }
    {
        Shape {
            form,
            operands,
            is_list: false,
        }
    }

    fn list(form: &'static str, operands: &'static [Wanted]) -> Shape
        ensures { shape_wants result ≡ record { form = form.now; each = operands.now; is_list = true } }
    {
        Shape {
            form,
            operands,
            is_list: true,
        }
    }

    fn of_directive(directive: Directive) -> Shape
        ensures { shape_wants result ≡ of_directive directive }
    {
        match directive {
            Directive::Section(_) => NONE,
            Directive::Word => Shape::list("v, ..", &[Wanted::Word]),
            Directive::Byte => Shape::list("v, ..", &[Wanted::Byte]),
            Directive::Zero => Shape::single("n", &[Wanted::Count]),
        }
    }

    fn of_mnemonic(mnemonic: Mnemonic) -> Shape
        ensures { shape_wants result ≡ of_mnemonic mnemonic }
    {
        match mnemonic {
            Mnemonic::Op(_) => Shape::single(
                "rd, rs1, rs2",
                &[Wanted::Register, Wanted::Register, Wanted::Register],
            ),
            Mnemonic::OpImm(_) => Shape::single(
                "rd, rs1, i",
                &[Wanted::Register, Wanted::Register, Wanted::Lower],
            ),
            Mnemonic::Shift(_) => Shape::single(
                "rd, rs1, i",
                &[Wanted::Register, Wanted::Register, Wanted::Shift],
            ),
            Mnemonic::Load(_) | Mnemonic::Jalr => {
                Shape::single("rd, i(rs1)", &[Wanted::Register, Wanted::Address])
            }
            Mnemonic::Store(_) => {
                Shape::single("rs2, i(rs1)", &[Wanted::Register, Wanted::Address])
            }
            Mnemonic::Branch(_) => Shape::single(
                "rs1, rs2, target",
                &[Wanted::Register, Wanted::Register, Wanted::Branch],
            ),
            Mnemonic::Upper(_) => Shape::single("rd, u", &[Wanted::Register, Wanted::Upper]),
            Mnemonic::Jal => Shape::single("rd, target", &[Wanted::Register, Wanted::Jump]),
            Mnemonic::Fence => Shape::single(
                "rd, rs1, v",
                &[Wanted::Register, Wanted::Register, Wanted::Fence],
            ),
            Mnemonic::Amo(_) => Shape::single(
                "rd, rs2, (rs1)",
                &[Wanted::Register, Wanted::Register, Wanted::Base],
            ),
            Mnemonic::Ecall | Mnemonic::Ebreak => NONE,
        }
    }
}
