// The values of Tables 2, 5 and 7, from the steps of the design, rounded to the printed digits.
ghost use Rattle.rules.specs.Ranges.{Between};
ghost use Rattle.std.specs.Prelude.{IsTrue, ◌≡◌, ◌+◌, ◌≤◌, ◌↔◌, length};
ghost use Rattle.tables.specs.Values.{Fits, value_at, nearest, age_tenths, production_hundredths, consumption_hundredths, agreeing_in};

use rules::Temperature;

// The fractions VD/VAT of Table 2, thousandths.
pub(crate) const FRACTIONS: [u64; 4] = [200, 300, 400, 500];

// The sludge ages of Tables 5 and 7, days.
pub(crate) const DAYS: [u64; 6] = [4, 8, 10, 15, 20, 25];

// The quotient to the nearest whole number, a half up.
fn nearest(a: u64, d: u64) -> u64
    requires { (a ≤ 1_000_000) × Between 1 1_000 d }
    ensures { result ≡ nearest a d }
{
    (2 * a + d) / (2 * d)
}

// Table 2: sludge age, tenths of a day.
fn sludge_age(load: u64, temperature: u64, fraction: u64) -> u64
    requires { (load ≤ 100_000) × Between 10 20 temperature × (fraction ≤ 500) }
    ensures { result ≡ age_tenths load temperature fraction }
{
    let factor = reactor::safety_factor(load);
    let aerobic = reactor::aerobic_age(factor, Temperature::new(temperature));
    let age = reactor::sludge_age_at_fraction(aerobic, fraction);
    nearest(age.get(), 100)
}

// Table 5: specific sludge production, hundredths of kg/kg, the mean of 10 and 12 degrees; the ratio X/C in tenths.
fn sludge_production(ratio: u64, days: u64) -> u64
    requires { (ratio ≤ 20) × (days ≤ 25) }
    ensures { result ≡ production_hundredths ratio days }
{
    let cold = reactor::corrected_age(1000 * days, Temperature::new(10));
    let warm = reactor::corrected_age(1000 * days, Temperature::new(12));
    let decay = reactor::biomass_decay(cold) + reactor::biomass_decay(warm);
    nearest(1_500 + 120 * ratio - decay, 20)
}

// Table 7: specific oxygen consumption, hundredths of kg/kg.
fn oxygen_consumption(temperature: u64, days: u64) -> u64
    requires { Between 10 20 temperature × (days ≤ 25) }
    ensures { result ≡ consumption_hundredths temperature days }
{
    let corrected = reactor::corrected_age(1000 * days, Temperature::new(temperature));
    nearest(reactor::capacity_uptake(corrected), 10)
}

// Whether a computed and a printed value agree: both the count and the word that is printed go by it.
pub(crate) fn agrees(computed: u64, printed: u64) -> bool
    ensures { IsTrue result ↔ computed ≡ printed }
{
    computed == printed
}

// A row of a table, by what the standard prints it for: in Table 2 a load and a temperature, with a column for each
// fraction; in Table 5 a ratio X/C in tenths and in Table 7 a temperature, with a column for each sludge age.
#[derive(Clone, Copy)]
pub enum Row {
    Age(u64, u64),
    Production(u64),
    Consumption(u64),
}

impl Row {
    // The value in a column.
    pub(crate) fn value(self, column: usize) -> u64
        requires { Fits self (column + 1) }
        ensures { result ≡ value_at self column }
    {
        match self {
            Row::Age(load, temperature) => sludge_age(load, temperature, FRACTIONS[column]),
            Row::Production(ratio) => sludge_production(ratio, DAYS[column]),
            Row::Consumption(temperature) => oxygen_consumption(temperature, DAYS[column]),
        }
    }

    // How many of the printed values agree.
    #[tactic(auto, unfolding(crate::specs::Values::agreeing, crate::specs::Values::agrees))]
    pub(crate) fn agreeing(self, printed: &[u64]) -> u64
        requires { Fits self (length printed.now) }
        ensures { (result ≡ agreeing_in self printed.now) × (result ≤ length printed.now) }
    {
        let mut count = 0;
        for (column, &value) in printed.iter().enumerate() {
            count += u64::from(agrees(self.value(column), value));
        }
        count
    }
}
