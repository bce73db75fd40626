// Prints the rows of a table, right-aligned.
ghost use Rattle.std.specs.List.{All};
ghost use Rattle.std.specs.Prelude.{◌+◌, length};
ghost use Rattle.tables.specs.Values.{Fits, FitsPrinted};

use crate::values::{DAYS, FRACTIONS, Row};
use crate::{PrintedRow, values};
use std::{fmt, io};

// A number of tenths, with its point; the whole part in seven places.
#[derive(Drop)]
struct Tenths(u64);

impl fmt::Display for Tenths {
    fn fmt<W: fmt::Write>(&self, f: &mut fmt::Formatter<W>) -> fmt::Result {
        write!(f, "{:7}.{}", self.0 / 10, self.0 % 10)
    }
}

// A number of hundredths, with its point; the whole part in seven places. A format's width is no parameter, so there are two.
#[derive(Drop)]
struct Hundredths(u64);

impl fmt::Display for Hundredths {
    fn fmt<W: fmt::Write>(&self, f: &mut fmt::Formatter<W>) -> fmt::Result {
        write!(f, "{:7}.{:02}", self.0 / 100, self.0 % 100)
    }
}

// What a value is for, the value computed, the value printed, and whether the two agree.
fn line(rt: &impl Print, row: Row, column: usize, printed: u64) -> io::Result<()>
    requires { Fits row (column + 1) }
{
    let computed = row.value(column);
    let verdict = if values::agrees(computed, printed) {
        "agrees"
    } else {
        "differs"
    };
    match row {
        Row::Age(load, temperature) => {
            println!(rt;
                "{load:7}{temperature:7}{}{}{}  {verdict}",
                Tenths(FRACTIONS[column] / 100),
                Tenths(computed),
                Tenths(printed)
            )
        }
        Row::Production(ratio) => {
            println!(rt;
                "{}{:7}{}{}  {verdict}",
                Tenths(ratio),
                DAYS[column],
                Hundredths(computed),
                Hundredths(printed)
            )
        }
        Row::Consumption(temperature) => {
            println!(rt;
                "{temperature:7}{:7}{}{}  {verdict}",
                DAYS[column],
                Hundredths(computed),
                Hundredths(printed)
            )
        }
    }
}

// A line for each of a row's values.
fn row(rt: &impl Print, row: Row, printed: &[u64]) -> io::Result<()>
    requires { Fits row (length printed.now) }
{
    for (column, &value) in printed.iter().enumerate() {
        line(rt, row, column, value)?;
    }
    Ok(())
}

// The lines of a table's rows.
pub(crate) fn rows(rt: &impl Print, rows: &[PrintedRow]) -> io::Result<()>
    requires { All FitsPrinted rows.now }
{
    for &(key, printed) in rows {
        row(rt, key, printed)?;
    }
    Ok(())
}
