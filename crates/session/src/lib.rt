// Admission in session hours (document 02, slip 8): questions 10 and 11 of the windows, closed dates and moment that a host gives with a
// call.
#![tactic(auto)]

ghost use Rattle.std.specs.Prelude.{◌≡◌, true, ◌&&◌, ◌-◌, ◌≤◌, ◌<◌};
ghost use Rattle.model.specs.Base.{every, any_of};
ghost use Rattle.model.specs.Question.{first_failed};
ghost use Rattle.model.specs.Session.{windows_of, dates_of, leap, year_start, month_days, month_start, days_in, is_date, day_number, weekday_of, same_date, max_windows, max_closed, is_window, are_threes, session_fits, covers, is_open, hours_questions};
ghost use Rattle.node.specs.Refusal.{failed_of};
ghost use Rattle.session.specs.Hours.{window_of, date_of, entries, window_in, date_in, hours_of};

mod years;

use crate::years::YEAR_STARTS;
use node::Refusal;

// How many windows and closed dates a call may give, three numbers each.
const MAX_WINDOWS: usize = 32;

const MAX_CLOSED: usize = 64;

// The minutes of a day.
const MINUTES: u16 = 1440;

// The years that the calendar has.
const FIRST_YEAR: u16 = 2000;

const LAST_YEAR: u16 = 2399;

// The days of each month, and the days before it, in a year that is no leap year. Tables, as the calendar has them.
const MONTH_DAYS: [u16; 12] = [31, 28, 31, 30, 31, 30, 31, 31, 30, 31, 30, 31];

const MONTH_STARTS: [u16; 12] = [0, 31, 59, 90, 120, 151, 181, 212, 243, 273, 304, 334];

// A date of the calendar, or three numbers that are none.
#[derive(Clone, Copy, PartialEq, Eq, Default)]
pub struct Date {
    pub year: u16,
    pub month: u16,
    pub day: u16,
}

// The UTC date and minute of a call.
#[derive(Clone, Copy, PartialEq, Eq, Default)]
pub struct Moment {
    pub date: Date,
    pub minute: u16,
}

// The session hours of a call: its weekly windows (weekday, opening and closing minute), its closed dates (year, month, day), each three
// numbers, and the moment of the call. The numbers lie one after another, as the C interface hands them over.
#[derive(Clone, Copy)]
pub struct Hours<'a> {
    pub windows: &'a [u16],
    pub closed: &'a [u16],
    pub moment: Moment,
}

// The date of an entry.
impl From<[u16; 3]> for Date {
    ghost from_gives = { λ e d. d ≡ date_in e };

    fn from([year, month, day]: [u16; 3]) -> Date {
        Date { year, month, day }
    }
}

impl Date {
    // A date of the Gregorian calendar, from 2000 to 2399.
    fn is_valid(self) -> bool
        ensures { result ≡ is_date (date_of self) }
    {
        (FIRST_YEAR <= self.year && self.year <= LAST_YEAR)
            && ((1 <= self.month && self.month <= 12)
                && (1 <= self.day && self.day <= days_in(self.year, self.month)))
    }

    // The days from 1 January 2000 to the date. No `From`: a u32 is not only a day number.
    fn day_number(self) -> u32
        requires { is_date (date_of self) ≡ true }
        ensures { result ≡ day_number (date_of self) }
    {
        let in_year = month_start(self.year, self.month) + (self.day - 1);
        year_start(self.year - FIRST_YEAR) + u32::from(in_year)
    }

    // The weekday: 1, Monday, to 7, Sunday.
    fn weekday(self) -> u16
        requires { is_date (date_of self) ≡ true }
        ensures { result ≡ weekday_of (day_number (date_of self)) }
    {
        let n = (self.day_number() + 5) % 7;
        n as u16 + 1
    }
}

// A weekly window: a weekday, an opening and a closing minute. Not one struct with Date: the names of its fields are what the three
// numbers mean.
#[derive(Clone, Copy)]
struct Window {
    weekday: u16,
    opening: u16,
    closing: u16,
}

// The window of an entry.
impl From<[u16; 3]> for Window {
    ghost from_gives = { λ e w. w ≡ window_in e };

    fn from([weekday, opening, closing]: [u16; 3]) -> Window {
        Window {
            weekday,
            opening,
            closing,
        }
    }
}

impl Window {
    // A weekday, and an opening minute before a closing minute that is at most 1,440.
    fn is_valid(self) -> bool
        ensures { result ≡ is_window (window_of self) }
    {
        (1 <= self.weekday && self.weekday <= 7)
            && (self.opening < self.closing && self.closing <= MINUTES)
    }

    // The window has the weekday and the minute: its opening minute is included, its closing minute excluded.
    #[tactic(auto, unfolding(model::specs::Base::same))]
    fn covers(self, weekday: u16, minute: u16) -> bool
        ensures { result ≡ covers weekday minute (window_of self) }
    {
        self.weekday == weekday && (self.opening <= minute && minute < self.closing)
    }
}

// Internal: the leap year rule.
pub fn is_leap(year: u16) -> bool
    ensures { result ≡ leap year }
{
    year % 4 == 0 && (year % 100 != 0 || year % 400 == 0)
}

// The day number of 1 January of the year 2000 + n, looked up.
fn year_start(n: u16) -> u32
    requires { n < 400 }
    ensures { result ≡ year_start n }
{
    YEAR_STARTS[usize::from(n)]
}

// The days of a month.
fn days_in(year: u16, month: u16) -> u16
    requires { (1 ≤ month) × (month ≤ 12) }
    ensures { result ≡ days_in year month }
{
    if month == 2 && is_leap(year) {
        return 29;
    }
    MONTH_DAYS[usize::from(month - 1)]
}

// The days of a year before a month.
fn month_start(year: u16, month: u16) -> u16
    requires { (1 ≤ month) × (month ≤ 12) }
    ensures { result ≡ month_start (month_days (leap year)) (month - 1) }
{
    let start = MONTH_STARTS[usize::from(month - 1)];
    if 2 < month && is_leap(year) {
        return start + 1;
    }
    start
}

// Whole entries of three numbers, at most so many.
fn are_threes(numbers: &[u16], most: usize) -> bool
    requires { most ≤ max_closed }
    ensures { result ≡ are_threes most numbers.now }
{
    numbers.len() % 3 == 0 && numbers.len() <= most * 3
}

// The whole entries.
fn entries(numbers: &[u16]) -> &[[u16; 3]]
    ensures { result.now ≡ entries numbers.now }
{
    numbers.as_chunks::<3>().0
}

// The entry is a date of the calendar. A function: with a closure in place, as for the windows, the search does not find the proof (tried).
fn is_date(entry: &[u16; 3]) -> bool
    ensures { result ≡ is_date (date_of (date_in entry.now)) }
{
    Date::from(*entry).is_valid()
}

impl Hours<'_> {
    // The windows are what question 10 asks.
    fn windows_fit(self) -> bool
        ensures { result ≡ (are_threes max_windows self.entry.windows.now && every is_window (windows_of self.entry.windows.now)) }
    {
        are_threes(self.windows, MAX_WINDOWS)
            && entries(self.windows)
                .iter()
                .all(|e| Window::from(*e).is_valid())
    }

    // The closed dates are what question 10 asks.
    fn closed_fit(self) -> bool
        ensures { result ≡ (are_threes max_closed self.entry.closed.now && every is_date (dates_of self.entry.closed.now)) }
    {
        are_threes(self.closed, MAX_CLOSED) && entries(self.closed).iter().all(|e| is_date(e))
    }

    // Question 10.
    #[tactic(auto, unfolding(model::specs::Session::session_fits))]
    fn fits(self) -> bool
        ensures { result ≡ session_fits (hours_of self.entry) }
    {
        self.windows_fit()
            && (self.closed_fit() && (self.moment.date.is_valid() && self.moment.minute < MINUTES))
    }

    // The date is among the closed dates.
    fn is_closed(self, date: Date) -> bool
        ensures { result ≡ any_of (same_date (date_of date)) (dates_of self.entry.closed.now) }
    {
        entries(self.closed).iter().any(|e| date == Date::from(*e))
    }

    // Some window has the weekday and the minute.
    fn is_covered(self, weekday: u16, minute: u16) -> bool
        ensures { result ≡ any_of (covers weekday minute) (windows_of self.entry.windows.now) }
    {
        entries(self.windows)
            .iter()
            .any(|e| Window::from(*e).covers(weekday, minute))
    }

    // Question 11 of a key that is not known.
    #[tactic(auto, unfolding(model::specs::Session::is_open))]
    fn is_open(self) -> bool
        requires { session_fits (hours_of self) ≡ true }
        ensures { result ≡ is_open (hours_of self.entry) }
    {
        let today = self.moment.date;
        !self.is_closed(today) && self.is_covered(today.weekday(), self.moment.minute)
    }
}

// Questions 10 and 11. known: the key is the local one, or was held or pending before the call, so that 11 lets it pass. With no windows
// neither is asked.
pub fn asked(hours: Hours, known: bool) -> Result<(), Refusal>
    ensures { failed_of result ≡ first_failed (hours_questions (hours_of hours.entry) known) }
{
    if hours.windows.is_empty() {
        return Ok(());
    }
    if !hours.fits() {
        return Err(Refusal::Hours);
    }
    if known || hours.is_open() {
        return Ok(());
    }
    Err(Refusal::Closed)
}
