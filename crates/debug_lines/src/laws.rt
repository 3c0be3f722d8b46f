//! Laws of lines and commands: each is the contract of a function that does nothing.

ghost use Rattle.std.specs.Prelude.{◌≡◌, ◌≢◌, ℕ, List};
ghost use Rattle.debug_lines.specs.declared.reader.Event.{Event};
ghost use Rattle.debug_lines.specs.declared.command.Command.{Command};
ghost use Rattle.debug_lines.specs.Lines.{Held, IsAfter};
ghost use Rattle.debug_lines.specs.Commands.{command_of};
ghost use Rattle.debug_lines.specs.Spelling.{Spells};

/// A stream stands for one list of events and one rest, if all rests of over 1,024 bytes count as one.
pub fn one_reading()
    ensures { (bytes : List ℕ) (events others : List Event) (held kept : Held)
        → IsAfter bytes events held → IsAfter bytes others kept → (events ≡ others) × (held ≡ kept) }
{}

/// A line is read as a command exactly if it spells that command. So a line spells one command at most, and one that
/// spells none is malformed.
pub fn commands_are_spelled()
    ensures spelled_is_read { (line : List ℕ) (command : Command) → Spells line command → command_of line ≡ command }
    ensures read_is_spelled { (line : List ℕ) → command_of line ≢ Command.Malformed → Spells line (command_of line) }
    ensures others_are_malformed { (line : List ℕ) → ((command : Command) → Spells line command → ⊥) →
        command_of line ≡ Command.Malformed }
{}
