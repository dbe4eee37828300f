// The words of `recover`, which are read by hand.
ghost use Rattle.std.specs.Prelude.{◌≡◌, IfSome, IfNone};
ghost use Rattle.host_words.specs.Options.{words_texts};
ghost use Rattle.host_words.specs.Recover.{IsNoRecover, IsRecover};

/// What the words of `recover` say: each as it stands, be it empty or like an option.
#[derive(Clone, Copy)]
pub struct RecoverWords<'a> {
    /// The name of the catalogue's file.
    pub catalogue: &'a str,
    /// The name of the journal's file.
    pub journal: &'a str,
}

/// What the words say, of which the first is `recover` itself. `None` exactly where they are other words, or more or
/// fewer.
pub fn read_recover(words: &[String]) -> Option<RecoverWords<'_>>
    ensures some { IfSome result (λ said. IsRecover (words_texts words.now) said.catalogue.now said.journal.now) }
    ensures none { IfNone result (IsNoRecover (words_texts words.now)) }
{
    match words {
        [command, catalogue, journal] => {
            if command.as_str() != "recover" {
                return None;
            }
            Some(RecoverWords {
                catalogue: catalogue.as_str(),
                journal: journal.as_str(),
            })
        }
        _ => None,
    }
}
