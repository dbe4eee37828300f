// What becomes of streams that were served.
ghost use Rattle.std.specs.Prelude.{⊤};
ghost use Rattle.rail_service.specs.Listeners.{Handing};

use rail_io::{Sink, Source};
use rail_service::Finished;

/// Lets go of streams whose connection has ended.
pub trait Closing<I: Source, O: Sink> {
    /// That a call let go of a stream whose source and whose sink told so much then. Whoever knows nothing of it but
    /// this trait can show that only by a call with the stream as it then was.
    ghost closes: { Handing };

    /// Lets go of a stream.
    fn close(finished: Finished<I, O>)
        ensures { closes (I.told finished.input) (O.told finished.output) };
}

/// Drops a stream, which closes it.
pub fn drop_stream<I: Source + Drop, O: Sink + Drop>(finished: Finished<I, O>) {
    let _closed = finished;
}

/// Drops them.
pub struct Dropping;

impl<I: Source + Drop, O: Sink + Drop> Closing<I, O> for Dropping {
    ghost closes = { λ _ _. ⊤ };

    fn close(finished: Finished<I, O>)
        ensures { ⊤ }
    {
        drop_stream(finished);
    }
}
