//! The words of course texts.

ghost use Rattle.std.specs.Prelude.{◌≡◌};
ghost use Rattle.course_text.specs.Table.{row_name, row_template, operand_count, silent_name, word_name, course_word};

/// A pseudo-instruction or a directive that a row of the table rewrites.
#[derive(Clone, Copy, Debug, PartialEq, Eq, Drop)]
pub enum Row {
    Nop,
    Mv,
    La,
    Not,
    Neg,
    Seqz,
    Snez,
    Sltz,
    Sgtz,
    Beqz,
    Bnez,
    Blez,
    Bgez,
    Bltz,
    Bgtz,
    Bgt,
    Ble,
    Bgtu,
    Bleu,
    J,
    Jr,
    Ret,
    Call,
    Tail,
    DotText,
    DotData,
    DotBss,
    DotSpace,
    DotSkip,
}

impl Row {
    /// The word.
    fn name(self) -> &'static str
        ensures { result.now ≡ row_name self }
    {
        match self {
            Row::Nop => "nop",
            Row::Mv => "mv",
            Row::La => "la",
            Row::Not => "not",
            Row::Neg => "neg",
            Row::Seqz => "seqz",
            Row::Snez => "snez",
            Row::Sltz => "sltz",
            Row::Sgtz => "sgtz",
            Row::Beqz => "beqz",
            Row::Bnez => "bnez",
            Row::Blez => "blez",
            Row::Bgez => "bgez",
            Row::Bltz => "bltz",
            Row::Bgtz => "bgtz",
            Row::Bgt => "bgt",
            Row::Ble => "ble",
            Row::Bgtu => "bgtu",
            Row::Bleu => "bleu",
            Row::J => "j",
            Row::Jr => "jr",
            Row::Ret => "ret",
            Row::Call => "call",
            Row::Tail => "tail",
            Row::DotText => ".text",
            Row::DotData => ".data",
            Row::DotBss => ".bss",
            Row::DotSpace => ".space",
            Row::DotSkip => ".skip",
        }
    }

    /// The plain line, or two of them. `A`, `B` and `C` are the operands.
    pub fn template(self) -> &'static str
        ensures { result.now ≡ row_template self }
    {
        match self {
            Row::Nop => "addi x0, x0, 0",
            Row::Mv => "addi A, B, 0",
            Row::La => "lui A, %hi(B)\naddi A, A, %lo(B)",
            Row::Not => "xori A, B, -1",
            Row::Neg => "sub A, x0, B",
            Row::Seqz => "sltiu A, B, 1",
            Row::Snez => "sltu A, x0, B",
            Row::Sltz => "slt A, B, x0",
            Row::Sgtz => "slt A, x0, B",
            Row::Beqz => "beq A, x0, B",
            Row::Bnez => "bne A, x0, B",
            Row::Blez => "bge x0, A, B",
            Row::Bgez => "bge A, x0, B",
            Row::Bltz => "blt A, x0, B",
            Row::Bgtz => "blt x0, A, B",
            Row::Bgt => "blt B, A, C",
            Row::Ble => "bge B, A, C",
            Row::Bgtu => "bltu B, A, C",
            Row::Bleu => "bgeu B, A, C",
            Row::J | Row::Tail => "jal x0, A",
            Row::Jr => "jalr x0, 0(A)",
            Row::Ret => "jalr x0, 0(ra)",
            Row::Call => "jal ra, A",
            Row::DotText => ".code",
            Row::DotData | Row::DotBss => ".shared",
            Row::DotSpace | Row::DotSkip => ".zero A",
        }
    }

    /// How many operands it takes.
    pub fn operand_count(self) -> usize
        ensures { result ≡ operand_count self }
    {
        match self {
            Row::Nop | Row::Ret | Row::DotText | Row::DotData | Row::DotBss => 0,
            Row::J | Row::Jr | Row::Call | Row::Tail | Row::DotSpace | Row::DotSkip => 1,
            Row::Mv | Row::La | Row::Not | Row::Neg => 2,
            Row::Seqz | Row::Snez | Row::Sltz | Row::Sgtz => 2,
            Row::Beqz | Row::Bnez | Row::Blez | Row::Bgez | Row::Bltz | Row::Bgtz => 2,
            Row::Bgt | Row::Ble | Row::Bgtu | Row::Bleu => 3,
        }
    }
}

/// A directive that says nothing here: all names are the text's own, and a label names only a place.
#[derive(Clone, Copy, Debug, PartialEq, Eq, Drop)]
pub enum Silent {
    DotGlobl,
    DotGlobal,
    DotType,
    DotSize,
    DotOption,
    DotFile,
    DotAttribute,
}

impl Silent {
    /// The word.
    fn name(self) -> &'static str
        ensures { result.now ≡ silent_name self }
    {
        match self {
            Silent::DotGlobl => ".globl",
            Silent::DotGlobal => ".global",
            Silent::DotType => ".type",
            Silent::DotSize => ".size",
            Silent::DotOption => ".option",
            Silent::DotFile => ".file",
            Silent::DotAttribute => ".attribute",
        }
    }
}

/// A first word that course texts have and the plain grammar does not.
#[derive(Clone, Copy, Debug, PartialEq, Eq, Drop)]
pub enum Word {
    /// A row of the table.
    Row(Row),
    /// A directive that says nothing here.
    Silent(Silent),
    /// `li rd, n`.
    Li,
    /// `.equ name, n`.
    DotEqu,
    /// `.set name, n`.
    DotSet,
    /// `.align n`: to a multiple of 2^n.
    DotAlign,
    /// `.p2align n`: the same.
    DotP2align,
    /// `.balign n`: to a multiple of n.
    DotBalign,
    /// `.section name`.
    DotSection,
}

impl Word {
    /// All of them.
    const ALL: [Word; 43] = [
        Word::Row(Row::Nop),
        Word::Row(Row::Mv),
        Word::Row(Row::La),
        Word::Row(Row::Not),
        Word::Row(Row::Neg),
        Word::Row(Row::Seqz),
        Word::Row(Row::Snez),
        Word::Row(Row::Sltz),
        Word::Row(Row::Sgtz),
        Word::Row(Row::Beqz),
        Word::Row(Row::Bnez),
        Word::Row(Row::Blez),
        Word::Row(Row::Bgez),
        Word::Row(Row::Bltz),
        Word::Row(Row::Bgtz),
        Word::Row(Row::Bgt),
        Word::Row(Row::Ble),
        Word::Row(Row::Bgtu),
        Word::Row(Row::Bleu),
        Word::Row(Row::J),
        Word::Row(Row::Jr),
        Word::Row(Row::Ret),
        Word::Row(Row::Call),
        Word::Row(Row::Tail),
        Word::Row(Row::DotText),
        Word::Row(Row::DotData),
        Word::Row(Row::DotBss),
        Word::Row(Row::DotSpace),
        Word::Row(Row::DotSkip),
        Word::Silent(Silent::DotGlobl),
        Word::Silent(Silent::DotGlobal),
        Word::Silent(Silent::DotType),
        Word::Silent(Silent::DotSize),
        Word::Silent(Silent::DotOption),
        Word::Silent(Silent::DotFile),
        Word::Silent(Silent::DotAttribute),
        Word::Li,
        Word::DotEqu,
        Word::DotSet,
        Word::DotAlign,
        Word::DotP2align,
        Word::DotBalign,
        Word::DotSection,
    ];

    /// The text of the word.
    fn name(self) -> &'static str
        ensures { result.now ≡ word_name self }
    {
        match self {
            Word::Row(row) => row.name(),
            Word::Silent(silent) => silent.name(),
            Word::Li => "li",
            Word::DotEqu => ".equ",
            Word::DotSet => ".set",
            Word::DotAlign => ".align",
            Word::DotP2align => ".p2align",
            Word::DotBalign => ".balign",
            Word::DotSection => ".section",
        }
    }

    /// The word of course texts that is written as `word`.
    #[tactic(auto, unfolding(crate::specs::Table::course_word))]
    pub fn find(word: &[u8]) -> Option<Word>
        ensures { result ≡ course_word word.now }
    {
        Word::ALL
            .iter()
            .copied()
            .find(|candidate| candidate.name().as_bytes() == word)
    }
}
