ghost use Rattle.std.specs.Prelude.{◌≡◌};
ghost use Rattle.serde_json.specs.Written.{compact_text};
ghost use Rattle.osdm_texts.specs.Sweeps.{swept_tree};

use arrayvec::ArrayVec;
use booking_rows::Swept;
use osdm_parts::{push, push_number};

/// The JSON text of a sweep's counts. No memory is taken.
pub fn swept_text(swept: Swept) -> ArrayVec<u8, 256>
    ensures { result.items ≡ compact_text (swept_tree swept) }
{
    let mut text = ArrayVec::new();
    push(&mut text, b"{\"expired\":");
    push_number(&mut text, swept.expired);
    push(&mut text, b",\"lost\":");
    push_number(&mut text, swept.lost);
    push(&mut text, b",\"waiting\":");
    push_number(&mut text, swept.waiting);
    push(&mut text, b"}");
    text
}
