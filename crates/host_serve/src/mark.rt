// The mark that no more streams are handed out.
use crate::shared_listener::Named;
use std::marker::PhantomData;
use std::sync::OnceLock;

/// Shows that a listener hands out no more streams. It can be made only where that is shown.
#[derive(Drop)]
pub struct Over<N: Named> {
    of: PhantomData<N>,
    ghost shown: { ∥ N.over ∥₁ },
}

impl<N: Named> Over<N> {
    pub fn new() -> Self
        requires shown { ∥ N.over ∥₁ }
    {
        Over { of: PhantomData }
    }
}

/// Is set once no more streams are handed out, and shows that to whoever finds it set.
pub type Mark<N> = OnceLock<Over<N>>;
