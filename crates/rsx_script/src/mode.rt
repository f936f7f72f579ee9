//! What the program does with its input.

ghost use Rattle.std.specs.Prelude.{◌≡◌};
ghost use Rattle.rsx_script.specs.Modes.{mode_of_name, subcommand_of_name};

/// What the program does with its input: it answers the commands of a script, draws expressions, or judges expressions and traces.
#[derive(Clone, Copy, Debug, PartialEq, Eq)]
pub enum Mode {
    /// Answers commands; `show` is what was received, and then the rest.
    Run,
    /// Answers commands; `show` is the value of the slow evaluator.
    Scratch,
    /// Draws expressions.
    Draw,
    /// Judges expressions and traces.
    Tck,
}

/// The mode with this name, `run`, `scratch`, `draw` or `tck`.
pub fn mode_named(name: &str) -> Option<Mode>
    ensures { result ≡ mode_of_name name.now }
{
    match name {
        "run" => Some(Mode::Run),
        "scratch" => Some(Mode::Scratch),
        "draw" => Some(Mode::Draw),
        "tck" => Some(Mode::Tck),
        _ => None,
    }
}

/// What the program is asked for by the second word of its command line.
#[derive(Clone, Copy, Debug, PartialEq, Eq)]
pub enum Subcommand {
    /// A mode of one graph, or of none, which one thread uses.
    Mode(Mode),
    /// Answers commands of a script whose graph may go live and come back.
    Live,
}

/// The subcommand with this name: `live`, or a mode's.
pub fn subcommand_named(name: &str) -> Option<Subcommand>
    ensures { result ≡ subcommand_of_name name.now }
{
    match name {
        "live" => Some(Subcommand::Live),
        _ => match mode_named(name) {
            Some(mode) => Some(Subcommand::Mode(mode)),
            None => None,
        },
    }
}
