// Two house rules as one.
ghost use Rattle.std.specs.Prelude.{◌&&◌, ◌||◌};
ghost use Rattle.std.proofs.Common.{rules, arith};

use crate::HouseRule;
use masks::Mask;

/// What passes both rules passes, and what either strikes is struck.
#[derive(Clone, Copy)]
pub struct Both<X, Y> {
    pub first: X,
    pub second: Y,
}

impl<X: HouseRule, Y: HouseRule> HouseRule for Both<X, Y> {
    const LETTER: u8 = b'B';

    ghost LETTER = { 66 };

    ghost passing = { λ x n row. X.HouseRule.passing x.first n row && Y.HouseRule.passing x.second n row };

    ghost striking = { λ x n partial line o. X.HouseRule.striking x.first n partial line o || Y.HouseRule.striking x.second n partial line o };

    ghost judged = { Prim.search rules };

    ghost quiet = { Prim.search rules };

    // A row that passes both rules passes the one that strikes.
    ghost sound = { λ x n partial line option. Prim.grind (arith, X.HouseRule.sound x.first n partial line option, Y.HouseRule.sound x.second n partial line option) };

    fn passes(&self, n: usize, row: &[u8]) -> bool {
        self.first.passes(n, row) && self.second.passes(n, row)
    }

    fn strikes(&self, n: usize, row: &[u8], line: usize) -> Mask {
        self.first
            .strikes(n, row, line)
            .either(self.second.strikes(n, row, line))
    }
}
