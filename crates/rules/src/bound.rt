// 18 and 33, in one walk over the constraints: a mate that is met anywhere is told before a VM that moves too early.
ghost use Rattle.std.specs.Prelude.{◌≡◌};
ghost use Rattle.rules.specs.Inner.{bound_check};

use crate::faults::StepFault;
use crate::loads::Running;

impl Running<'_> {
    // The first of the two faults, if there is one.
    pub(crate) fn bound_check(&self) -> Result<(), StepFault>
        ensures { result ≡ bound_check self.now.cluster.now self.now.places.now self.now.dests.now }
    {
        let mut in_turn = true;
        for constraint in self.cluster.constraints() {
            if !self.spread_kept(&constraint) {
                return Err(StepFault::Mate);
            }
            in_turn = in_turn && self.turn_kept(&constraint);
        }
        if in_turn {
            Ok(())
        } else {
            Err(StepFault::Early)
        }
    }
}
