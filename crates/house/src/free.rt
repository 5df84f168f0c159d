// The house rule that every row passes.
ghost use Rattle.house.specs.Questions.{is_judged};
ghost use Rattle.std.specs.Prelude.{false};
ghost use Rattle.std.proofs.Common.{rules};

use crate::HouseRule;
use crate::questions::is_judged;
use masks::Mask;

/// No restriction: every row passes and nothing is struck.
#[derive(Clone, Copy)]
pub struct Free;

impl HouseRule for Free {
    const LETTER: u8 = b'F';

    ghost LETTER = { 70 };

    ghost passing = { λ _ n row. is_judged n row };

    ghost striking = { λ _ _ _ _ _. false };

    ghost judged = { Prim.search rules };

    ghost quiet = { Prim.search rules };

    ghost sound = { Prim.search rules };

    fn passes(&self, n: usize, row: &[u8]) -> bool {
        is_judged(n, row)
    }

    fn strikes(&self, _n: usize, _row: &[u8], _line: usize) -> Mask {
        Mask::none()
    }
}
