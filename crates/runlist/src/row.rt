// A row of numbers as it is printed.
ghost use Rattle.runlist.specs.Row.{row_text};

use std::fmt;

// Numbers that stand on one line: in decimal, with one space between.
#[derive(Drop)]
pub struct Row<'a, T>(pub &'a [T]);

impl<T: fmt::Display> fmt::Display for Row<'_, T> {
    ghost output = { λ row. row_text T.output row.0.now };

    // Prints the first number, and each other one after a space.
    fn fmt<W: fmt::Write>(&self, f: &mut fmt::Formatter<W>) -> fmt::Result {
        let Some((first, rest)) = self.0.split_first() else {
            return Ok(());
        };
        // Each by its own `fmt`: `write!` sets the options anew for each, and a run of a file of 65,536 bytes then takes a tenth longer.
        first.fmt(f)?;
        for number in rest {
            f.write_str(" ")?;
            number.fmt(f)?;
        }
        Ok(())
    }
}
