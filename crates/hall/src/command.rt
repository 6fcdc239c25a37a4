ghost use Rattle.std.specs.Prelude.{◌≡◌, codes};
ghost use Rattle.hall.specs.Commands.{Asked};

/// What the first word asks for.
#[derive(Clone, Copy, Debug, PartialEq, Eq)]
pub enum Command {
    Check,
    Help,
    Version,
}

/// The command that the word asks for; none where no command has that word.
pub fn command_of(word: &str) -> Option<Command>
    ensures { Asked word.now result }
{
    match word {
        "check" => Some(Command::Check),
        "--help" => Some(Command::Help),
        "--version" => Some(Command::Version),
        _ => None,
    }
}
