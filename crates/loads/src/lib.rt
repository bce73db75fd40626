// The highest load of a day log over 14 consecutive days, in one pass: each window's sum from the one before.
#![tactic(auto)]

ghost use Rattle.std.specs.Prelude.{◌≡◌, ◌≤◌, IfOk};
ghost use Rattle.rules.specs.DayLog.{day_count, most_flow, log_whole, higher, two_week_load};
ghost use Rattle.rules.specs.DayLogOutcome.{Whole};
ghost use Rattle.loads.specs.Windows.{day_value, kept_load, most_load, highest_after, stepped, Room};

use rules::{Day, Refusal, TwoWeekLoad};

// The largest flow and BOD of a day, thousandths.
const MOST_FLOW: u64 = 200_000_000;

const MOST_BOD: u64 = 2_000_000;

// The last 14 days of a pass over the log, and what it has found.
#[derive(Clone, Copy)]
pub struct Window {
    // the days' loads: day d's at (d - 1) % 14, so that a day costs one step, and 0 where there was no day yet
    pub loads: [u64; 14],
    // their sum
    pub sum: u64,
    // how many days were passed
    pub days: u64,
    // the highest load of the windows passed
    pub highest: TwoWeekLoad,
}

impl Window {
    // One day more: its load comes in for that of the day 14 before; 13 where one of its values is refused.
    fn step(mut self, day: Day) -> Result<Window, Refusal>
        requires { Room self }
        ensures { result ≡ stepped self day }
    {
        let load = kept_load(day)?;
        let slot = (self.days % 14) as usize;
        self.sum = self.sum + load - self.loads[slot];
        self.loads[slot] = load;
        self.days += 1;
        self.highest = highest_after(self.highest, self.sum, self.days);
        Ok(self)
    }
}

// A value of a day in thousandths, or 13 where it is no number or above its limit.
fn day_value(x: f32, most: u64) -> Result<u64, Refusal>
    requires { most ≤ most_flow }
    ensures value { result ≡ day_value most x }
    ensures most { IfOk result (λ n. n ≤ most) }
{
    match accepting::to_thousandths(x, 1) {
        Ok(n) if n <= most => Ok(n),
        _ => Err(Refusal::DayValue),
    }
}

// A day's load, or 13 where one of its values is refused.
fn kept_load(day: Day) -> Result<u64, Refusal>
    ensures value { result ≡ kept_load day }
    ensures most { IfOk result (λ n. n ≤ most_load) }
{
    let flow = day_value(day.flow, MOST_FLOW)?;
    let bod = day_value(day.bod, MOST_BOD)?;
    Ok(flow * bod)
}

// A later window takes the place of the highest so far if its sum is larger.
#[tactic(auto, unfolding(rules::specs::DayLog::higher))]
fn higher(best: TwoWeekLoad, sum: u64, day: u64) -> TwoWeekLoad
    ensures { result ≡ higher best sum day }
{
    if best.sum < sum {
        TwoWeekLoad { sum, day }
    } else {
        best
    }
}

// The highest load once so many days are passed: from the fourteenth day on, each day ends a window.
fn highest_after(best: TwoWeekLoad, sum: u64, days: u64) -> TwoWeekLoad
    ensures { result ≡ highest_after best sum days }
{
    if 14 <= days {
        higher(best, sum, days - 13)
    } else {
        best
    }
}

// All days of a whole log, from the first to the last: its answer, 13 at the first day that is refused. Document 01 names the form: a
// `Day` is built from the two arrays at its number and handed to the window's step. An index, since a day's second value stands as many
// words on as the log has days.
fn pass(log: &[u8], count: usize) -> Result<TwoWeekLoad, Refusal>
    requires { Whole log.now × (count ≡ day_count log.now) }
    ensures { result ≡ two_week_load log.now }
{
    let mut window = Window {
        loads: [0; 14],
        sum: 0,
        days: 0,
        highest: TwoWeekLoad { sum: 0, day: 1 },
    };
    'day: for i in 0..count {
        let flow = words::float(words::word(log, i + 1));
        let bod = words::float(words::word(log, count + i + 1));
        window = window.step(Day { flow, bod })?;
    }
    Ok(window.highest)
}

// The log has a count in its range, and is as long as it says.
#[tactic(auto, unfolding(rules::specs::DayLog::log_whole))]
fn log_whole(log: &[u8]) -> bool
    ensures { result ≡ log_whole log.now }
{
    if log.len() < 4 {
        return false;
    }
    let count = words::word(log, 0);
    rounding::within(14, 3_660, count) && log.len() == 4 + 8 * count as usize
}

// The highest two-week load of a day log: 12 for a log that is not whole, then 13 for a value that is refused.
pub fn two_week_load(log: &[u8]) -> Result<TwoWeekLoad, Refusal>
    ensures { result ≡ two_week_load log.now }
{
    if !log_whole(log) {
        return Err(Refusal::DayLog);
    }
    pass(log, words::word(log, 0) as usize)
}
