// What a search works on: the lines of a wall, their free options, and the pair rules between them.
ghost use Rattle.std.specs.Prelude.{◌≡◌, ◌≤◌, length};
ghost use Rattle.start.specs.Networks.{AreApart, LeadBack, LeaveBack};

use crate::free_options;
use masks::Mask;
use network::Network;
use wall::bars::Bars;
use wall::wall::Wall;

/// How many lines there are, the options of each that are free, and the ways that the pair rules make between them. No way leads from a line to itself, and to each way there is one back.
#[derive(Clone, Copy)]
pub struct Problem {
    pub lines: usize,
    // Sixteen whatever the number of lines: every choice works on its own copy of sixteen option sets.
    pub free: [Mask; 16],
    pub net: Network,
    ghost few: { lines ≤ 16 },
    ghost sixteen: { length free ≡ 16 },
    ghost apart: { AreApart net.ways },
    ghost back: { LeadBack net.ways },
    ghost both: { LeaveBack net.tables },
}

impl Problem {
    ghost use Rattle.start.specs.Starts.{IsProblem};

    /// The problem that a wall and its bars make.
    pub fn of(wall: &Wall, bars: &Bars) -> Problem
        ensures { IsProblem wall.now bars.now result }
    {
        Problem {
            lines: wall.lines(),
            free: free_options(wall, bars),
            net: Network::of(wall),
        }
    }
}
