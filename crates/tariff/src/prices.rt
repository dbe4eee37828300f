ghost use Rattle.std.specs.Prelude.{◌≡◌, ◌≤◌, ◌+◌};
ghost use Rattle.tariff.specs.Prices.{greatest_price, most_priced_legs, most_priced_passengers, price_of};

use crate::Fare;

/// The price of these many legs of one run for all passengers. An adult pays the base and the amount for each leg; a
/// child pays half of that, rounded down.
pub fn price(fare: Fare, legs: u8, adults: u8, children: u8) -> u64
    requires legs { legs ≤ most_priced_legs }
    requires passengers { adults + children ≤ most_priced_passengers }
    ensures price { result ≡ price_of fare legs adults children }
    ensures bound { result ≤ greatest_price }
{
    let adult = u64::from(fare.base) + u64::from(fare.per_leg) * u64::from(legs);
    let child = adult * 5000 / 10_000;
    u64::from(adults) * adult + u64::from(children) * child
}
