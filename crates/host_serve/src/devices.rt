// What serving is given with words and files.
use host_window::Findings;

/// How many clocks serving takes: one for each of 16 members that serve, and one for the member that sweeps.
pub const CLOCKS: u8 = 17;

/// Where connections come from, when it is time to sweep, what time it is for each member, and what is told of the
/// books, where somebody asks.
#[derive(Drop)]
pub struct Devices<'f, L, T, C> {
    pub listener: L,
    pub ticker: T,
    pub clocks: Vec<C>,
    pub findings: Option<&'f Findings>,
}
