// A bar of a chart: a part's share of the whole, rounded up so that a part that is not 0 shows.
ghost use Rattle.std.specs.Prelude.{◌≡◌, Some, replicate};
ghost use Rattle.sweep.specs.Bars.{bar_length};

use std::fmt;

// The length of the bar of the whole.
const WIDTH: u64 = 32;

#[derive(Clone, Copy)]
pub struct Bar {
    pub length: u64,
}

impl Bar {
    // The bar of a part of a whole, which is not 0; rounded up.
    pub fn of(part: u32, whole: u32) -> Bar
        ensures { result.length ≡ bar_length part whole }
    {
        let whole = if whole == 0 { 1 } else { whole };
        Bar {
            length: (u64::from(part) * WIDTH).div_ceil(u64::from(whole)),
        }
    }
}

impl fmt::Display for Bar {
    ghost output = { λ bar. Some (replicate bar.length 35) };

    fn fmt<W: fmt::Write>(&self, f: &mut fmt::Formatter<W>) -> fmt::Result {
        for _ in 0..self.length {
            f.write_char('#')?;
        }
        Ok(())
    }
}
