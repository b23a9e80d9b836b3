ghost use Rattle.std.specs.Prelude.{◌≡◌};
ghost use Rattle.view_commands.specs.Words.{command_by};

/// A command.
#[derive(Clone, Copy, Debug, PartialEq, Eq)]
pub enum Command {
    /// The lane chart of a program.
    Chart,
    /// A run by rounds.
    Rounds,
    /// A page with both.
    Page,
    /// The dependences between statements.
    Deps,
    /// Whether two statements wait for one another.
    Independent,
    /// A picture for Graphviz.
    Dot,
    /// All that is known, as JSON.
    Json,
    /// How wide the rounds of a run are.
    Profile,
    /// What is wrong with texts.
    Check,
    /// What the names of copies stand for.
    Names,
    /// A program in the language of `dfc`.
    Lower,
    /// What a program prints.
    Run,
}

/// The command of this name.
pub fn command_of(word: &str) -> Option<Command>
    ensures { result ≡ command_by word.now }
{
    match word {
        "chart" => Some(Command::Chart),
        "rounds" => Some(Command::Rounds),
        "page" => Some(Command::Page),
        "deps" => Some(Command::Deps),
        "independent" => Some(Command::Independent),
        "dot" => Some(Command::Dot),
        "json" => Some(Command::Json),
        "profile" => Some(Command::Profile),
        "check" => Some(Command::Check),
        "names" => Some(Command::Names),
        "lower" => Some(Command::Lower),
        "run" => Some(Command::Run),
        _ => None,
    }
}
