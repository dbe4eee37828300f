//! A desk that is alone.
ghost use Rattle.std.specs.Prelude.{◌≡◌};
ghost use Rattle.catalogue_contents.specs.Contents.{CatalogueView, legs_in};
ghost use Rattle.claim_rule.specs.Rule.{BooksView, DeskView};
ghost use Rattle.claim_rule.specs.Out.{IsIdle};
ghost use Rattle.claim_rule.specs.Desks.{IsOf};
ghost use Rattle.booking_rows.specs.SealedRows.{FitWords};
ghost use Rattle.lone_desk.specs.Lone.{IsAlone};
ghost use Rattle.plain_host.specs.Plainly.{IsLone};

/// The law of a desk that is alone at the books of a catalogue, whatever its calls were: where nothing is out it is a
/// lone desk between two commands, so its bookings are settled.
pub fn alone_is_lone()
    ensures { (cat : CatalogueView) (books : BooksView) (desk : DeskView) → IsOf books desk → IsAlone desk → IsIdle desk
        → books.layout.rows ≡ cat.rows → books.layout.legs ≡ legs_in cat → FitWords books.layout → IsLone cat desk }
{}
