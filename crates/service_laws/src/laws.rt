//! What holds from one call to another, as contracts of functions that do nothing.

ghost use Rattle.service_laws.specs.Begun.{CallsBeginAtSeen, CallsInOrder, LearnedCallsAreLater};
ghost use Rattle.service_laws.specs.Bounded.{CommandsAreBounded};
ghost use Rattle.service_laws.specs.Commands.{SweepCommandsAreComplete};
ghost use Rattle.service_laws.specs.Commands.{RefundCommandsAreHonoured, ExchangeCommandsAreHonoured};
ghost use Rattle.service_laws.specs.Complete.{SweepsAreComplete};
ghost use Rattle.service_laws.specs.Honoured.{RefundQuotesAreHonoured, ExchangeQuotesAreHonoured};
ghost use Rattle.service_laws.specs.Told.{BookingsAreFound, BookingsAreShown, RefusalsShowFurther};
ghost use Rattle.service_laws.specs.Told.{ShownIsSo, ConfirmedIsSo, FulfilledIsSo, ReleasedIsSo, RefundedIsSo};
ghost use Rattle.service_laws.specs.Told.{CreatedIsSo, ExchangedIsSo};

/// A call may be said to begin where its desk had seen no more than before it. Take two calls at any desks, and a
/// history of which both desks had seen beginnings when the one was answered and the other hadn't begun. If the other's
/// own entries all stood in it, the other adds no entry, or begins after all that the first had seen. So does a call of
/// a desk that had learned before it what another desk told.
pub fn calls_in_order()
    ensures begin { CallsBeginAtSeen }
    ensures in_order { CallsInOrder }
    ensures learned { LearnedCallsAreLater }
{}

/// Each booking that was prebooked with a limit before now when a sweep began is in another phase in what was seen when
/// it ended. So it is of the command that sweeps.
pub fn sweeps_are_complete()
    ensures complete { SweepsAreComplete }
    ensures commands { SweepCommandsAreComplete }
{}

/// Where a refund was quoted, this retailer's acceptance that begins later, at most 900 seconds after it, refunds the
/// amount of the quote; or the booking has left the phase that the quote names. Later is after all that the quoting
/// desk had seen, at no earlier moment: then the quote is never stale and never wrong. The command is answered with the
/// booking at its end, or that there is no memory (500); a booking that has left the phase is unknown, or in another
/// one.
pub fn refund_quotes_are_honoured()
    ensures honoured { RefundQuotesAreHonoured }
    ensures commands { RefundCommandsAreHonoured }
{}

/// Where an exchange was quoted, this retailer's check of the quote that begins later, at most 900 seconds after it,
/// finds it right; or the booking has left the phase that the quote names. Later is after all that the quoting desk had
/// seen, at no earlier moment: then the quote is never stale and never wrong. The command then tries the exchange; a
/// booking that has left the phase is unknown, or in another one.
pub fn exchange_quotes_are_honoured()
    ensures honoured { ExchangeQuotesAreHonoured }
    ensures commands { ExchangeCommandsAreHonoured }
{}

/// Whatever a call does that begins after a booking was told of, at whatever desk: each of its looks that shows the
/// booking shows it in the phase told, or in one that follows. So a later show of its retailer answers with the booking
/// in such a phase; or that there is no memory (500); or that it is unknown, where it has ended and its row was given
/// away since. So does a command that finds it in another phase than it asks for, but the acceptance of an exchange.
pub fn told_bookings_are_found()
    ensures found { BookingsAreFound }
    ensures shown { BookingsAreShown }
    ensures refused { RefusalsShowFurther }
{}

/// What a retailer is told of its booking is so in what was seen by then: it stands as this retailer's, in the phase
/// told or in one that follows it. Of a command that made, confirmed, collected, released or refunded it, that rests
/// also on what the command's own contract says of the booking afterwards.
pub fn told_bookings_stand()
    ensures shown { ShownIsSo }
    ensures confirmed { ConfirmedIsSo }
    ensures fulfilled { FulfilledIsSo }
    ensures released { ReleasedIsSo }
    ensures refunded { RefundedIsSo }
    ensures created { CreatedIsSo }
    ensures exchanged { ExchangedIsSo }
{}

/// Each order is carried out within a number of steps that the catalogue, the moment and the order give, whatever other
/// desks do meanwhile. A step is one atomic operation on the table. Marks of rows aren't counted, and that no command
/// waits for another is no clause: a command is given nothing to wait with.
pub fn commands_are_bounded()
    ensures bounded { CommandsAreBounded }
{}
