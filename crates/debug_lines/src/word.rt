//! The first words of commands.

ghost use Rattle.std.specs.Prelude.{◌≡◌};
ghost use Rattle.debug_lines.specs.Words.{name_of, word_of};

/// The word that a command begins with.
#[derive(Clone, Copy, Debug, PartialEq, Eq, Drop)]
pub(crate) enum Word {
    State,
    Regs,
    Reg,
    Set,
    Mem,
    Write,
    Break,
    Clear,
    Step,
    Cont,
    Quit,
}

impl Word {
    const ALL: [Word; 11] = [
        Word::State,
        Word::Regs,
        Word::Reg,
        Word::Set,
        Word::Mem,
        Word::Write,
        Word::Break,
        Word::Clear,
        Word::Step,
        Word::Cont,
        Word::Quit,
    ];

    /// The word's spelling.
    fn name(self) -> &'static str
        ensures { result.now ≡ name_of self }
    {
        match self {
            Word::State => "state",
            Word::Regs => "regs",
            Word::Reg => "reg",
            Word::Set => "set",
            Word::Mem => "mem",
            Word::Write => "write",
            Word::Break => "break",
            Word::Clear => "clear",
            Word::Step => "step",
            Word::Cont => "cont",
            Word::Quit => "quit",
        }
    }

    /// The word with this spelling.
    #[tactic(auto, unfolding(crate::specs::Words::word_of))]
    pub(crate) fn find(bytes: &[u8]) -> Option<Word>
        ensures { result ≡ word_of bytes.now }
    {
        Word::ALL
            .iter()
            .copied()
            .find(|word| word.name().as_bytes() == bytes)
    }
}
