// Which command the words are for.
ghost use Rattle.std.specs.Prelude.{◌≡◌, true, false};
ghost use Rattle.host_words.specs.Options.{words_texts};
ghost use Rattle.host_words.specs.Commands.{IsFor, IsNamed};

/// A command of the program, which the first word names.
#[derive(Clone, Copy, PartialEq, Eq)]
pub enum CommandName {
    /// `tiny LEGS PLACES`
    Tiny,
    /// `replay CATALOGUE --start MOMENT --tick N --from EXPORT`
    Replay,
    /// `export CATALOGUE --start MOMENT --tick N --from EXPORT`
    Export,
    /// `settle CATALOGUE EXPORT`
    Settle,
    /// `recover CATALOGUE JOURNAL`
    Recover,
    /// `drill --seed N --workers N --size N --places N`
    Drill,
    /// `serve CATALOGUE --port N --workers N --connections N --sweep N --from EXPORT --journal JOURNAL --export`
    Serve,
}

/// The command that the first word names. None exactly where it names no command, or there is none.
pub fn command_of(words: &[String]) -> Option<CommandName>
    ensures { IsNamed result (words_texts words.now) }
{
    match words.first()?.as_str() {
        "tiny" => Some(CommandName::Tiny),
        "replay" => Some(CommandName::Replay),
        "export" => Some(CommandName::Export),
        "settle" => Some(CommandName::Settle),
        "recover" => Some(CommandName::Recover),
        "drill" => Some(CommandName::Drill),
        "serve" => Some(CommandName::Serve),
        _ => None,
    }
}

/// Whether the words are for this command.
pub fn is_for(words: &[String], command: CommandName) -> bool
    ensures yes { result ≡ true → IsFor command (words_texts words.now) }
    ensures no { result ≡ false → IsFor command (words_texts words.now) → ⊥ }
{
    command_of(words) == Some(command)
}
