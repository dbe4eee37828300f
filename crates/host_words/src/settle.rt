// The words of `settle`, which are read by hand.
ghost use Rattle.std.specs.Prelude.{◌≡◌, ℕ, List, IfSome, IfNone};
ghost use Rattle.host_words.specs.Options.{words_texts};
ghost use Rattle.host_words.specs.Settle.{IsSettle};

/// What the words of `settle` say: each as it stands, be it empty or like an option.
#[derive(Clone, Copy)]
pub struct SettleWords<'a> {
    /// The name of the catalogue's file.
    pub catalogue: &'a str,
    /// The name of the export's file.
    pub export: &'a str,
}

/// What the words say, of which the first is `settle` itself. `None` exactly where they are other words, or more or
/// fewer.
pub fn read_settle(words: &[String]) -> Option<SettleWords<'_>>
    ensures some { IfSome result (λ said. IsSettle (words_texts words.now) said.catalogue.now said.export.now) }
    ensures none { IfNone result ((catalogue export : List ℕ) → IsSettle (words_texts words.now) catalogue export → ⊥) }
{
    match words {
        [command, catalogue, export] => {
            if command.as_str() != "settle" {
                return None;
            }
            Some(SettleWords {
                catalogue: catalogue.as_str(),
                export: export.as_str(),
            })
        }
        _ => None,
    }
}
