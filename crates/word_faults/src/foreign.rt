//! Words of other assemblers.

ghost use Rattle.std.specs.Prelude.{◌≡◌};
ghost use Rattle.word_faults.specs.FirstWords.{foreign_of, foreign_name, foreign_advice};
ghost use Rattle.word_faults.specs.Advice.{advice_of};

use crate::hint::Hint;

/// A word that other assemblers have and this one does not. Words with a dot are directives. The others are in the
/// RISC-V manual's table of pseudoinstructions, or are known only to its assemblers.
#[derive(Clone, Copy, Debug, Drop)]
pub enum Foreign {
    /// `nop`.
    Nop,
    /// `mv a, b`.
    Mv,
    /// `li a, n`.
    Li,
    /// `la a, label`.
    La,
    /// `not a, b`.
    Not,
    /// `neg a, b`.
    Neg,
    /// `subi a, b, n`.
    Subi,
    /// `seqz a, b`.
    Seqz,
    /// `snez a, b`.
    Snez,
    /// `sltz a, b`.
    Sltz,
    /// `sgtz a, b`.
    Sgtz,
    /// `sgt a, b, c`.
    Sgt,
    /// `sgtu a, b, c`.
    Sgtu,
    /// `j label`.
    J,
    /// `jr a`.
    Jr,
    /// `call label`.
    Call,
    /// `tail label`.
    Tail,
    /// `ret`.
    Ret,
    /// `beqz a, label`.
    Beqz,
    /// `bnez a, label`.
    Bnez,
    /// `blez a, label`.
    Blez,
    /// `bgez a, label`.
    Bgez,
    /// `bltz a, label`.
    Bltz,
    /// `bgtz a, label`.
    Bgtz,
    /// `bgt a, b, label`.
    Bgt,
    /// `ble a, b, label`.
    Ble,
    /// `bgtu a, b, label`.
    Bgtu,
    /// `bleu a, b, label`.
    Bleu,
    /// `.text`.
    DotText,
    /// `.data`.
    DotData,
    /// `.bss`.
    DotBss,
    /// `.section`.
    DotSection,
    /// `.space n`.
    DotSpace,
    /// `.skip n`.
    DotSkip,
    /// `.ascii "A"`.
    DotAscii,
    /// `.globl name`.
    DotGlobl,
    /// `.global name`.
    DotGlobal,
    /// `.align n`.
    DotAlign,
    /// `.option ..`.
    DotOption,
    /// `.type name, ..`.
    DotType,
    /// `.size name, n`.
    DotSize,
}

impl Foreign {
    /// All of them.
    const ALL: [Foreign; 41] = [
        Foreign::Nop,
        Foreign::Mv,
        Foreign::Li,
        Foreign::La,
        Foreign::Not,
        Foreign::Neg,
        Foreign::Subi,
        Foreign::Seqz,
        Foreign::Snez,
        Foreign::Sltz,
        Foreign::Sgtz,
        Foreign::Sgt,
        Foreign::Sgtu,
        Foreign::J,
        Foreign::Jr,
        Foreign::Call,
        Foreign::Tail,
        Foreign::Ret,
        Foreign::Beqz,
        Foreign::Bnez,
        Foreign::Blez,
        Foreign::Bgez,
        Foreign::Bltz,
        Foreign::Bgtz,
        Foreign::Bgt,
        Foreign::Ble,
        Foreign::Bgtu,
        Foreign::Bleu,
        Foreign::DotText,
        Foreign::DotData,
        Foreign::DotBss,
        Foreign::DotSection,
        Foreign::DotSpace,
        Foreign::DotSkip,
        Foreign::DotAscii,
        Foreign::DotGlobl,
        Foreign::DotGlobal,
        Foreign::DotAlign,
        Foreign::DotOption,
        Foreign::DotType,
        Foreign::DotSize,
    ];

    /// The text of the word.
    fn name(self) -> &'static str
        ensures { result.now ≡ foreign_name self }
    {
        match self {
            Foreign::Nop => "nop",
            Foreign::Mv => "mv",
            Foreign::Li => "li",
            Foreign::La => "la",
            Foreign::Not => "not",
            Foreign::Neg => "neg",
            Foreign::Subi => "subi",
            Foreign::Seqz => "seqz",
            Foreign::Snez => "snez",
            Foreign::Sltz => "sltz",
            Foreign::Sgtz => "sgtz",
            Foreign::Sgt => "sgt",
            Foreign::Sgtu => "sgtu",
            Foreign::J => "j",
            Foreign::Jr => "jr",
            Foreign::Call => "call",
            Foreign::Tail => "tail",
            Foreign::Ret => "ret",
            Foreign::Beqz => "beqz",
            Foreign::Bnez => "bnez",
            Foreign::Blez => "blez",
            Foreign::Bgez => "bgez",
            Foreign::Bltz => "bltz",
            Foreign::Bgtz => "bgtz",
            Foreign::Bgt => "bgt",
            Foreign::Ble => "ble",
            Foreign::Bgtu => "bgtu",
            Foreign::Bleu => "bleu",
            Foreign::DotText => ".text",
            Foreign::DotData => ".data",
            Foreign::DotBss => ".bss",
            Foreign::DotSection => ".section",
            Foreign::DotSpace => ".space",
            Foreign::DotSkip => ".skip",
            Foreign::DotAscii => ".ascii",
            Foreign::DotGlobl => ".globl",
            Foreign::DotGlobal => ".global",
            Foreign::DotAlign => ".align",
            Foreign::DotOption => ".option",
            Foreign::DotType => ".type",
            Foreign::DotSize => ".size",
        }
    }

    /// Advice on what does the same here, or that nothing is needed.
    pub fn advice(self) -> Hint<'static>
        ensures { advice_of result ≡ foreign_advice self }
    {
        match self {
            Foreign::Nop => Hint::Instead("addi x0, x0, 0"),
            Foreign::Mv => Hint::Instead("addi a, b, 0"),
            Foreign::Li => Hint::Instead("addi a, x0, n, or lui and addi,"),
            Foreign::La => Hint::Instead("lui a, %hi(label) and addi a, a, %lo(label)"),
            Foreign::Not => Hint::Instead("xori a, b, -1"),
            Foreign::Neg => Hint::Instead("sub a, x0, b"),
            Foreign::Subi => Hint::Instead("addi a, b, -n"),
            Foreign::Seqz => Hint::Instead("sltiu a, b, 1"),
            Foreign::Snez => Hint::Instead("sltu a, x0, b"),
            Foreign::Sltz => Hint::Instead("slt a, b, x0"),
            Foreign::Sgtz => Hint::Instead("slt a, x0, b"),
            Foreign::Sgt => Hint::Instead("slt a, c, b"),
            Foreign::Sgtu => Hint::Instead("sltu a, c, b"),
            Foreign::J | Foreign::Tail => Hint::Instead("jal x0, label"),
            Foreign::Jr => Hint::Instead("jalr x0, 0(a)"),
            Foreign::Call => Hint::Instead("jal ra, label"),
            Foreign::Ret => Hint::Instead("jalr x0, 0(ra)"),
            Foreign::Beqz => Hint::Instead("beq a, x0, label"),
            Foreign::Bnez => Hint::Instead("bne a, x0, label"),
            Foreign::Blez => Hint::Instead("bge x0, a, label"),
            Foreign::Bgez => Hint::Instead("bge a, x0, label"),
            Foreign::Bltz => Hint::Instead("blt a, x0, label"),
            Foreign::Bgtz => Hint::Instead("blt x0, a, label"),
            Foreign::Bgt => Hint::Instead("blt b, a, label"),
            Foreign::Ble => Hint::Instead("bge b, a, label"),
            Foreign::Bgtu => Hint::Instead("bltu b, a, label"),
            Foreign::Bleu => Hint::Instead("bgeu b, a, label"),
            Foreign::DotText => Hint::Instead(".code"),
            Foreign::DotData | Foreign::DotBss => Hint::Instead(".local or .shared"),
            Foreign::DotSection => Hint::Instead(".code, .local or .shared"),
            Foreign::DotSpace | Foreign::DotSkip => Hint::Instead(".zero n"),
            Foreign::DotAscii => Hint::Instead(".byte with a number for each letter"),
            Foreign::DotGlobl | Foreign::DotGlobal => {
                Hint::NotNeeded("all names are the text's own")
            }
            Foreign::DotAlign => Hint::NotNeeded("data go on where they ended"),
            Foreign::DotOption => Hint::NotNeeded("each line has the instruction that it names"),
            Foreign::DotType | Foreign::DotSize => Hint::NotNeeded("a label names only a place"),
        }
    }

    /// The word of other assemblers that is written as `word`.
    #[tactic(auto, unfolding(crate::specs::FirstWords::foreign_of))]
    pub fn find(word: &[u8]) -> Option<Foreign>
        ensures { result ≡ foreign_of word.now }
    {
        Foreign::ALL
            .iter()
            .copied()
            .find(|foreign| foreign.name().as_bytes() == word)
    }
}
