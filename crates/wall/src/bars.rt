// Bars.
ghost use Rattle.std.specs.Prelude.{◌≡◌, ℕ, ◌<◌, false, not, ◌&&◌, ◌||◌, ◌==◌, nat_lt};
ghost use Rattle.masks.specs.Members.{is_option};
ghost use Rattle.wall.specs.Rules.{is_barred};

use masks::Mask;

/// The barred options of each line.
#[derive(Clone, Copy)]
pub struct Bars {
    pub masks: [Mask; 16],
}

// A line and an option stay two numbers, of any size, as they are asked: a choice is an option that a row has.
impl Bars {
    /// Nothing is barred.
    pub fn none() -> Bars
        ensures { (line option : ℕ) → is_barred result.masks line option ≡ false }
    {
        Bars {
            masks: [Mask::none(); 16],
        }
    }

    /// Whether an option of a line is barred; no for what is no line or no option.
    pub fn is_barred(&self, line: usize, option: u8) -> bool
        ensures { result ≡ (nat_lt line 16 && is_barred self.now.masks line option) }
    {
        self.masks
            .get(line)
            .is_some_and(|barred| barred.has(option))
    }

    /// Bars an option of a line; what is no line or no option changes nothing.
    pub fn bar(&mut self, line: usize, option: u8)
        ensures { (l o : ℕ) → l < 16 → is_barred self.new.masks l o ≡ (is_barred self.old.masks l o || (l == line && (is_option o && o == option))) }
    {
        // After `get_mut` of an array the check knows its length and no entry.
        if line < 16 {
            self.masks[line] = self.masks[line].with(option);
        }
    }

    /// Permits an option of a line again; what is no line or no option changes nothing.
    pub fn clear(&mut self, line: usize, option: u8)
        ensures { (l o : ℕ) → l < 16 → is_barred self.new.masks l o ≡ (is_barred self.old.masks l o && not (l == line && o == option)) }
    {
        // After `get_mut` of an array the check knows its length and no entry.
        if line < 16 {
            self.masks[line] = self.masks[line].without(option);
        }
    }
}
