//! The lines of the rows that an export has.
ghost use Rattle.std.specs.Prelude.{◌≡◌, ℕ, List};
ghost use Rattle.line_text.specs.Lines.{IsExportOf, SaidBooking, text_of};
ghost use Rattle.row_cuts.specs.Exports.{AreLinesOf, IsWithin};

use memchr::{memchr, memchr_iter, memrchr};

/// The lines of the rows of an export, which stand between its first line and its last; and how many they are.
pub fn export_rows(export: &[u8]) -> (&[u8], u64)
    ensures { (places rows : ℕ) (said : List SaidBooking) → IsExportOf export.now places rows said
        → AreLinesOf said result.0.now result.1 }
{
    let lines = between_ends(export);
    (lines, memchr_iter(b'\n', lines).count() as u64)
}

// A text without its first line and its last.
fn between_ends(text: &[u8]) -> &[u8]
    ensures { (first last : List ℕ) (lines : List (List ℕ)) → IsWithin text.now first lines last
        → result.now ≡ text_of lines }
{
    let Some(first) = memchr(b'\n', text) else {
        return b"";
    };
    let rest = text.split_at(first + 1).1;
    if rest.is_empty() {
        return b"";
    }
    let most = rest.split_at(rest.len() - 1).0;
    match memrchr(b'\n', most) {
        Some(last) => most.split_at(last + 1).0,
        None => b"",
    }
}
