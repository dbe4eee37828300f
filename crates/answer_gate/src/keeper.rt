// Cuts as a keeper of answers.
ghost use Rattle.std.specs.Prelude.{◌≡◌};

use crate::cuts::Cuts;
use crate::receipt::Receipt;
use rail_io::Keeper;
use std::alloc::AllocError;
use std::marker::Brand;
use std::sync::Wait;

/// Says which cuts of a gate are kept.
pub struct GateKeeper<'g, R, K: Receipt + Drop = Brand> {
    cuts: &'g Cuts<K>,
    rt: &'g R,
}

impl<'g, R, K: Receipt + Drop> GateKeeper<'g, R, K> {
    /// Of these cuts.
    pub fn new(cuts: &'g Cuts<K>, rt: &'g R) -> GateKeeper<'g, R, K> {
        GateKeeper { cuts, rt }
    }
}

impl<R, K: Receipt + Drop> Copy for GateKeeper<'_, R, K> {}

impl<R, K: Receipt + Drop> Clone for GateKeeper<'_, R, K> {
    ghost use Rattle.std.specs.Prelude.{⊤};

    ghost is_clone = { λ s r. r ≡ s };

    ghost is_infallible = { λ _. ⊤ };

    fn clone(&self) -> Result<Self, AllocError> {
        Ok(*self)
    }
}

impl<R: Wait, K: Receipt + Drop> Keeper for GateKeeper<'_, R, K> {
    ghost use Rattle.answer_gate.specs.Receipts.{MayLeave};

    ghost kept = { λ _ cut. MayLeave K.kept cut };

    fn wait_kept(&self, cut: u64) -> bool {
        self.cuts.wait_kept(self.rt, cut)
    }

    fn is_lost(&self) -> bool {
        self.cuts.is_lost()
    }
}
