/// What a method and a path ask for, with the parameters of the path as they stand in it.
#[derive(Clone, Copy)]
pub enum Route<'p> {
    /// `POST /offers`
    Offers,
    /// `POST /bookings`
    Book,
    /// `POST /reservations`
    Reserve,
    /// `GET /bookings/{id}`
    Show {
        id: &'p [u8],
    },
    /// `DELETE /bookings/{id}`
    Release {
        id: &'p [u8],
    },
    /// `POST /bookings/{id}/fulfillments`
    Confirm {
        id: &'p [u8],
    },
    /// `PATCH /bookings/{id}/fulfillments`
    Fulfil {
        id: &'p [u8],
    },
    /// `POST /bookings/{id}/refund-offers`
    QuoteRefund {
        id: &'p [u8],
    },
    /// `PATCH /bookings/{id}/refund-offers/{offer}`
    AcceptRefund {
        id: &'p [u8],
        offer: &'p [u8],
    },
    /// `POST /exchange-offers`
    QuoteExchange,
    /// `POST /bookings/{id}/exchange-operations`
    AcceptExchange {
        id: &'p [u8],
    },
    /// `GET /runs/{run}/places/{from}/{to}`
    Places {
        run: &'p [u8],
        start: &'p [u8],
        end: &'p [u8],
    },
    /// `POST /sweeps`
    Sweep,
}
