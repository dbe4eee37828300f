// Where the answers of a sink are counted.
ghost use Rattle.std.specs.Prelude.{◌≡◌};
ghost use Rattle.host_window.specs.Counted.{raise};

use crate::counters::StreamCounts;

/// Where the answers of a sink are counted.
#[derive(Drop)]
pub(crate) enum Noted<'c> {
    /// Nowhere.
    Nowhere,
    /// Where all threads count. No contract can say what stands there.
    Shared(&'c StreamCounts),
    /// In memory, a count for each status's label.
    Plain(Vec<u64>),
}

/// One more answer with this label.
pub(crate) fn note_plain(counts: &mut Vec<u64>, label: usize)
    ensures { counts.new.items ≡ raise label counts.old.items }
{
    if let Some(count) = counts.get_mut(label) {
        *count = count.saturating_add(1);
    }
}
