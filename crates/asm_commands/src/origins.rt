//! Lines of a course text.

ghost use Rattle.std.specs.Prelude.{◌≡◌};
ghost use Rattle.asm_commands.specs.Courses.{origin_in};

/// The line of the course text for this plain line. Lines are counted from 1.
pub fn origin(origins: &[usize], line: usize) -> usize
    ensures { result ≡ origin_in origins.now line }
{
    match origins.get(line.saturating_sub(1)) {
        None => 0,
        Some(number) => *number,
    }
}
