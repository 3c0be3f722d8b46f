//! Directives: the words of the language that are not mnemonics.

ghost use Rattle.std.specs.Prelude.{◌≡◌};
ghost use Rattle.asm_lines.specs.Names.{directive_name, directive_of};

use crate::statement::Section;

/// The first word of a statement that is not an instruction.
#[derive(Clone, Copy, Debug, PartialEq, Eq, Drop)]
pub enum Directive {
    /// `.code`, `.local`, `.shared`.
    Section(Section),
    /// `.word`.
    Word,
    /// `.byte`.
    Byte,
    /// `.zero`.
    Zero,
}

impl Directive {
    /// All directives.
    pub const ALL: [Directive; 6] = [
        Directive::Section(Section::Code),
        Directive::Section(Section::Local),
        Directive::Section(Section::Shared),
        Directive::Word,
        Directive::Byte,
        Directive::Zero,
    ];

    /// The text of the directive.
    pub fn name(self) -> &'static str
        ensures { result.now ≡ directive_name self }
    {
        match self {
            Directive::Section(Section::Code) => ".code",
            Directive::Section(Section::Local) => ".local",
            Directive::Section(Section::Shared) => ".shared",
            Directive::Word => ".word",
            Directive::Byte => ".byte",
            Directive::Zero => ".zero",
        }
    }

    /// The directive that is written as `word`.
    #[tactic(auto, unfolding(crate::specs::Names::directive_of))]
    pub fn find(word: &[u8]) -> Option<Directive>
        ensures { result ≡ directive_of word.now }
    {
        Directive::ALL
            .iter()
            .copied()
            .find(|directive| directive.name().as_bytes() == word)
    }
}
