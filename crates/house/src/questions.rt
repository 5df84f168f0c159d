// Whether a house rule is asked about what it can judge.
ghost use Rattle.house.specs.Questions.{is_judged, is_open_line};
ghost use Rattle.std.specs.Prelude.{◌≡◌};

use rows::OPEN;

/// Whether this is a row of 1 to 16 lines.
pub fn is_judged(n: usize, row: &[u8]) -> bool
    ensures { result ≡ is_judged n row.now }
{
    0 < n && n <= 16 && rows::is_row(n, row)
}

/// Whether this is a partial row of 1 to 16 lines and one of its open lines.
pub fn is_open_line(n: usize, row: &[u8], line: usize) -> bool
    ensures { result ≡ is_open_line n row.now line }
{
    0 < n && n <= 16 && rows::is_partial(n, row) && line < n && row[line] == OPEN
}
