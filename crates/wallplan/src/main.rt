// The program: plans a wall and prints the plan.
#![tactic(auto)]

ghost use Rattle.wallplan.specs.Plans.{BestRow};

use house::HouseRule;
use house::free::Free;
use masks::Mask;
use places::best_option;
use ranking::Ranking;
use ranking::list::ListRanking;
use std::io;

/// The best row of a wall of three lines without rules: line by line the best option.
fn best_row<R: Ranking>(ranking: &R, counts: &[u8; 3]) -> Option<[u8; 3]>
    ensures { BestRow (R.Ranking.before ranking.now) counts.now result }
{
    let mut row = [0; 3];
    for (line, count) in counts.iter().enumerate() {
        row[line] = best_option(ranking, line, &row[..line], Mask::first(*count))?;
    }
    Some(row)
}

fn main(rt: HostRuntime) -> io::Result<()> {
    let house = Free;
    let mut ranking = ListRanking::new();
    if ranking.set_list(1, &[1, 0]).is_err() {
        return println!(rt; "the list of line 1 is refused");
    }
    match best_row(&ranking, &[3, 2, 2]) {
        Some(row) if house.passes(3, &row) => println!(rt;
            "plan: {} {} {}",
            row[0], row[1], row[2]
        ),
        _ => println!(rt; "no plan"),
    }
}
