// Books that were opened.
use claim_rule::{Books, Desk};

/// Books and their first desk.
#[derive(Drop)]
pub struct Opened {
    pub books: Books,
    pub first: Desk,
}
