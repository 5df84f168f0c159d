// Whether a ranking is asked about what it ranks.
ghost use Rattle.ranking.specs.Orders.{is_under, is_asked};
ghost use Rattle.std.specs.Prelude.{◌≡◌};

/// Whether these are a line and the entries on the lines above it.
pub fn is_under(line: usize, above: &[u8]) -> bool
    ensures { result ≡ is_under line above.now }
{
    line < 16 && rows::is_row(line, above)
}

/// Whether these are a line, the entries on the lines above it, and two options.
pub fn is_asked(line: usize, above: &[u8], a: u8, b: u8) -> bool
    ensures { result ≡ is_asked line above.now a b }
{
    is_under(line, above) && a < 16 && b < 16
}
