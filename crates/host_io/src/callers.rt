// A port whose callers look through the operator's window.
ghost use Rattle.std.specs.Prelude.{false, true};
ghost use Rattle.host_io.specs.Doors.{AsksFor};

use crate::door::Door;
use crate::shared::{PortReader, PortSink};
use crate::tcp_port::Port;
use crate::watch::Watch;
use host_window::Callers;
use rail_io::{Keeper, ReaderSource};

impl<D: Door + Drop, T: Watch + Copy + Drop, K: Keeper + Copy + Drop> Callers
    for Port<'_, D, T, K> {
    type Input = ReaderSource<PortReader<D::Wire, K, T>>;

    type Output = PortSink<D::Wire, K>;

    ghost hands = { λ before input output after. AsksFor (D.calls before.door) (D.calls after.door) true };

    ghost ends = { λ before after. AsksFor (D.calls before.door) (D.calls after.door) false };

    fn next_caller(&mut self) -> Option<(Self::Input, Self::Output)> {
        let (input, output) = self.next_stream()?;
        Some((ReaderSource::new(input), output))
    }
}
