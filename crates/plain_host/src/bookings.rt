//! Orders on a booking, quotes, sweeps, and what is refused.
ghost use Rattle.std.specs.Prelude.{ℕ, Option, Ok, Err};
ghost use Rattle.rail_ids.specs.declared.RowNo.{RowNo};
ghost use Rattle.offer_codes.specs.declared.code.OfferCode.{OfferCode};
ghost use Rattle.offer_codes.specs.declared.code.RefundCode.{RefundCode};
ghost use Rattle.catalogue_contents.specs.Contents.{CatalogueView};
ghost use Rattle.osdm_parts.specs.declared.problem.Problem.{Problem};
ghost use Rattle.osdm_json.specs.declared.command.Command.TheVariants.{AcceptRefund};
ghost use Rattle.service_rules.specs.Ordered.{show, confirm, fulfil, release, sweep, quote_refund, quote_exchange};
ghost use Rattle.service_rules.specs.Checks.{ordered};
ghost use Rattle.plain_host.specs.Plainly.{AnswersPlainly};

/// The laws of a lone desk's orders on a booking, of its quotes, refunds and sweeps, and of commands that are refused
/// by their codes and ids. Each is answered as by a host of one thread, and after each the desk still is such a desk.
///
/// The law of refunds is on the command: one by a quote that is unknown or too old orders none, and is refused for
/// that.
pub fn decisions_are_plain()
    ensures show { (cat : CatalogueView) (retailer now : ℕ) (row : RowNo)
        → AnswersPlainly cat retailer now (Ok (show row)) }
    ensures confirm { (cat : CatalogueView) (retailer now : ℕ) (row : RowNo)
        → AnswersPlainly cat retailer now (Ok (confirm row)) }
    ensures fulfil { (cat : CatalogueView) (retailer now : ℕ) (row : RowNo)
        → AnswersPlainly cat retailer now (Ok (fulfil row)) }
    ensures release { (cat : CatalogueView) (retailer now : ℕ) (row : RowNo)
        → AnswersPlainly cat retailer now (Ok (release row)) }
    ensures sweep { (cat : CatalogueView) (retailer now : ℕ) → AnswersPlainly cat retailer now (Ok sweep) }
    ensures quote_refund { (cat : CatalogueView) (retailer now : ℕ) (row : RowNo)
        → AnswersPlainly cat retailer now (Ok (quote_refund row)) }
    ensures accept_refund { (cat : CatalogueView) (retailer now : ℕ) (row : Option RowNo) (code : Option RefundCode)
        → AnswersPlainly cat retailer now (ordered cat now (AcceptRefund row code)) }
    ensures quote_exchange { (cat : CatalogueView) (retailer now : ℕ) (row : RowNo) (offer : OfferCode)
        → AnswersPlainly cat retailer now (Ok (quote_exchange row offer)) }
    ensures refused { (cat : CatalogueView) (retailer now : ℕ) (p : Problem)
        → AnswersPlainly cat retailer now (Err p) }
{}
