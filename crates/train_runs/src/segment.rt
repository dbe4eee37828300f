use leg_masks::Span;
use rail_ids::RunNo;

/// A stretch of one run that a trip travels.
#[derive(Clone, Copy, PartialEq, Eq)]
pub struct Segment {
    pub run: RunNo,
    pub span: Span,
}

impl Default for Segment {
    fn default() -> Self {
        Segment {
            run: RunNo(0),
            span: Span::default(),
        }
    }
}
