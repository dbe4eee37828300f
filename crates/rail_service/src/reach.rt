//! What a clock is told of requests and of commands.
ghost use Rattle.std.specs.Prelude.{◌≡◌};
ghost use Rattle.rail_io.specs.declared.clock.Reach.TheVariants.{Changes};
ghost use Rattle.osdm_json.specs.declared.command.Command.{Command};
ghost use Rattle.rail_service.specs.Reaching.{name_of as name_in, reach_of as reach_in, LooksAlone};

use osdm_json::{Command, Route};
use rail_io::{Reach, RouteName};

/// The route by its name alone.
#[inline(always)]
pub(crate) fn name_of(route: Route<'_>) -> RouteName
    ensures name { result ≡ name_in route.entry }
{
    match route {
        Route::Offers => RouteName::Offers,
        Route::Book => RouteName::Book,
        Route::Reserve => RouteName::Reserve,
        Route::Show { .. } => RouteName::Show,
        Route::Release { .. } => RouteName::Release,
        Route::Confirm { .. } => RouteName::Confirm,
        Route::Fulfil { .. } => RouteName::Fulfil,
        Route::QuoteRefund { .. } => RouteName::QuoteRefund,
        Route::AcceptRefund { .. } => RouteName::AcceptRefund,
        Route::QuoteExchange => RouteName::QuoteExchange,
        Route::AcceptExchange { .. } => RouteName::AcceptExchange,
        Route::Places { .. } => RouteName::Places,
        Route::Sweep => RouteName::Sweep,
    }
}

/// How far the command reaches.
pub(crate) fn reach_of(command: &Command) -> Reach
    ensures reach { result ≡ reach_in command.now }
{
    match command {
        Command::Offers { .. } | Command::Places { .. } => Reach::Apart,
        Command::Show { .. } | Command::QuoteRefund { .. } | Command::QuoteExchange { .. } => {
            Reach::Tells
        }
        Command::Book { .. }
        | Command::Reserve { .. }
        | Command::Release { .. }
        | Command::Confirm { .. }
        | Command::Fulfil { .. }
        | Command::AcceptRefund { .. }
        | Command::AcceptExchange { .. }
        | Command::Sweep => Reach::Changes,
    }
}

/// Whichever command isn't said to change bookings makes looks alone, however it is answered.
pub fn unchanging_commands_look()
    ensures looks { (c : Command) → (reach_in c ≡ Changes → ⊥) → LooksAlone c }
{}
