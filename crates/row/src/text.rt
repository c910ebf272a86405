//! The text of a row, as a script writes it and a view prints it: its columns as decimal numbers,
//! separated by one space. And the text of items, comparisons and tests, in the words of a script.
ghost use Rattle.std.specs.Prelude.{Some};
ghost use Rattle.row.specs.Text.{row_text, item_text, cmp_text, test_text};

use crate::{Cmp, Item, Row, Test};
use std::fmt;

/// The columns, separated by one space, with nothing before or after: `5 -7`.
impl fmt::Display for Row {
    ghost output = { λ row. Some (row_text row) };

    fn fmt<W: fmt::Write>(&self, f: &mut fmt::Formatter<W>) -> fmt::Result {
        match self.columns() {
            [] => unreachable!(),
            [first, rest @ ..] => {
                write!(f, "{first}")?;
                for column in rest {
                    write!(f, " {column}")?;
                }
                Ok(())
            }
        }
    }
}

/// A column as `c0`, a constant as `=-5`.
impl fmt::Display for Item {
    ghost output = { λ item. Some (item_text item) };

    fn fmt<W: fmt::Write>(&self, f: &mut fmt::Formatter<W>) -> fmt::Result {
        match self {
            Item::Column(number) => write!(f, "c{number}"),
            Item::Constant(value) => write!(f, "={value}"),
        }
    }
}

/// The word of the comparison: `eq`, `ne`, `lt`, `le`, `gt` or `ge`.
impl fmt::Display for Cmp {
    ghost output = { λ cmp. Some (cmp_text cmp) };

    fn fmt<W: fmt::Write>(&self, f: &mut fmt::Formatter<W>) -> fmt::Result {
        f.write_str(match self {
            Cmp::Eq => "eq",
            Cmp::Ne => "ne",
            Cmp::Lt => "lt",
            Cmp::Le => "le",
            Cmp::Gt => "gt",
            Cmp::Ge => "ge",
        })
    }
}

/// Both items with the comparison between them: `c1 gt =10`.
impl fmt::Display for Test {
    ghost output = { λ test. Some (test_text test) };

    fn fmt<W: fmt::Write>(&self, f: &mut fmt::Formatter<W>) -> fmt::Result {
        let Test { left, op, right } = self;
        write!(f, "{left} {op} {right}")
    }
}
