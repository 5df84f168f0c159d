// Rows of entries, whole or with some lines open.
#![tactic(auto)]

ghost use Rattle.std.specs.Prelude.{◌≡◌, ℕ, ◌&&◌, ◌||◌, length};
ghost use Rattle.masks.specs.Members.{is_option};
ghost use Rattle.rows.specs.Rows.{is_row, is_partial};

/// The entry of a line that has no option yet.
// A byte and no `Option`: the format of rows is bytes, filled up with 255.
pub const OPEN: u8 = 255;

// n and the row apart, here and above: a row of another length is a question too, and gets no.

/// Whether these are n entries, each an option.
pub fn is_row(n: usize, row: &[u8]) -> bool
    ensures { result ≡ is_row n row.now }
{
    row.len() == n && row.iter().all(|entry| *entry < 16)
}

/// Whether these are n entries, each an option or open.
pub fn is_partial(n: usize, row: &[u8]) -> bool
    ensures { result ≡ is_partial n row.now }
{
    row.len() == n && row.iter().all(|entry| *entry < 16 || *entry == OPEN)
}

#[cfg(test)]
mod tests;
