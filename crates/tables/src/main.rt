// Recomputes Tables 2, 5 and 7 of A 131E from the proved steps, and prints each value beside the printed one. Values are
// rounded to the printed digits, a half up.
#![tactic(auto)]

mod print;
mod values;

ghost use Rattle.std.specs.List.{All};
ghost use Rattle.std.specs.Prelude.{◌≡◌, ◌≤◌, length};
ghost use Rattle.tables.specs.Values.{FitsPrinted, agreeing_rows};

use std::io;
use values::Row;

// A row and the values that the standard prints for it.
type PrintedRow = (Row, &'static [u64]);

// Table 2: sludge age, tenths of a day.
const TABLE_2: [PrintedRow; 4] = [
    (Row::Age(1_200, 10), &[125, 143, 167, 200]),
    (Row::Age(1_200, 12), &[103, 117, 137, 164]),
    (Row::Age(6_000, 10), &[100, 114, 133, 160]),
    (Row::Age(6_000, 12), &[83, 94, 110, 132]),
];

// Table 5: specific sludge production, hundredths of kg/kg.
const TABLE_5: [PrintedRow; 5] = [
    (Row::Production(4), &[79, 69, 65, 59, 56, 53]),
    (Row::Production(6), &[91, 81, 77, 71, 68, 65]),
    (Row::Production(8), &[103, 93, 89, 83, 80, 77]),
    (Row::Production(10), &[115, 105, 101, 95, 92, 89]),
    (Row::Production(12), &[127, 117, 113, 107, 104, 101]),
];

// Table 7: specific oxygen consumption, hundredths of kg/kg.
const TABLE_7: [PrintedRow; 5] = [
    (Row::Consumption(10), &[85, 99, 104, 113, 118, 122]),
    (Row::Consumption(12), &[87, 102, 107, 115, 121, 124]),
    (Row::Consumption(15), &[92, 107, 112, 119, 124, 127]),
    (Row::Consumption(18), &[96, 111, 116, 123, 127, 130]),
    (Row::Consumption(20), &[99, 114, 118, 125, 129, 132]),
];

// How many values of a table's rows agree; no table has more than five rows.
fn agreeing(rows: &[PrintedRow]) -> u64
    requires { All FitsPrinted rows.now × (length rows.now ≤ 5) }
    ensures { result ≡ agreeing_rows rows.now }
{
    rows.iter()
        .map(|&(row, printed)| row.agreeing(printed))
        .sum()
}

// How many values of Table 2 agree.
fn table_2() -> u64
    ensures { result ≡ 11 }
{
    agreeing(&TABLE_2)
}

// How many values of Table 5 agree.
fn table_5() -> u64
    ensures { result ≡ 25 }
{
    agreeing(&TABLE_5)
}

// How many values of Table 7 agree.
fn table_7() -> u64
    ensures { result ≡ 30 }
{
    agreeing(&TABLE_7)
}

fn main(rt: HostRuntime) -> io::Result<()> {
    println!(rt;
        "Table 2: sludge age in days, for the BOD load L in kg/d, the temperature T and the fraction VD/VAT"
    )?;
    println!(rt; "      L      T   VD/VAT computed  printed")?;
    print::rows(&rt, &TABLE_2)?;
    println!(rt; "{} of 16 agree\n", table_2())?;
    println!(rt;
        "Table 5: specific sludge production in kg SS/kg BOD, for the ratio X/C and the sludge age in days"
    )?;
    println!(rt; "      X/C    age  computed   printed")?;
    print::rows(&rt, &TABLE_5)?;
    println!(rt; "{} of 30 agree\n", table_5())?;
    println!(rt;
        "Table 7: specific oxygen consumption in kg O2/kg BOD, for the temperature T and the sludge age in days"
    )?;
    println!(rt; "      T    age  computed   printed")?;
    print::rows(&rt, &TABLE_7)?;
    println!(rt; "{} of 30 agree", table_7())
}
