ghost use Rattle.std.specs.Prelude.{◌≡◌, ◌≤◌, length};
ghost use Rattle.osdm_parts.specs.Fields.{name_of};

/// What a problem may name: a member of a body, a parameter of a path, or the body itself.
#[derive(Clone, Copy, PartialEq, Eq)]
pub enum FieldName {
    Adults,
    Children,
    Class,
    Wanted,
    Origin,
    Destination,
    Earliest,
    Latest,
    OfferId,
    Run,
    Count,
    From,
    To,
    Together,
    Status,
    BookingId,
    ExchangeOfferId,
    Id,
    Offer,
    Body,
}

impl FieldName {
    /// The name as it stands in a body and in the detail of a problem.
    pub fn text(self) -> &'static str
        ensures text { result.now ≡ name_of self }
        ensures short { length result.now ≤ 15 }
    {
        match self {
            FieldName::Adults => "adults",
            FieldName::Children => "children",
            FieldName::Class => "class",
            FieldName::Wanted => "wanted",
            FieldName::Origin => "origin",
            FieldName::Destination => "destination",
            FieldName::Earliest => "earliest",
            FieldName::Latest => "latest",
            FieldName::OfferId => "offerId",
            FieldName::Run => "run",
            FieldName::Count => "count",
            FieldName::From => "from",
            FieldName::To => "to",
            FieldName::Together => "together",
            FieldName::Status => "status",
            FieldName::BookingId => "bookingId",
            FieldName::ExchangeOfferId => "exchangeOfferId",
            FieldName::Id => "id",
            FieldName::Offer => "offer",
            FieldName::Body => "body",
        }
    }
}
