// Check 1, the window of two dates, and its months.
ghost use Rattle.std.specs.Prelude.{◌≡◌, true, ◌≤◌, Some, None};
ghost use Rattle.basics.specs.Pick.{pick};
ghost use Rattle.basics.specs.Refused.{numbered};
ghost use Rattle.calendar.specs.Calendar.{last_day_number};
ghost use Rattle.claim_months.specs.Windows.{window_sound, window_in};
ghost use Rattle.claim_months.specs.design.Private.{with_month, with_months};

use crate::{MonthDay, MonthWindow, Window};
use basics::refusal::Refusal;
use calendar::{Date, Day};

// A window with its months, if check 1 passes it: looked at once for many claims.
#[derive(Clone, Copy)]
pub struct WindowMonths {
    pub window: Window,
    pub(crate) months: Option<MonthWindow>,
    ghost looked_at: { months ≡ pick (window_sound window.first.0 window.last.0) (Some (with_months window)) None },
}

// Check 1, of a window as two day numbers.
#[tactic(auto, unfolding(crate::specs::Windows::window_sound))]
pub fn is_sound(window: Window) -> bool
    ensures { result ≡ window_sound window.first.0 window.last.0 }
{
    window.first <= window.last && window.last.0 <= calendar::LAST_DAY
}

// The window of two dates, both included, or refusal 1.
pub fn window(first: Date, last: Date) -> Result<Window, Refusal>
    ensures { numbered result ≡ window_in first last }
{
    let found = Window {
        first: calendar::day_number(first).ok_or(Refusal::Window)?,
        last: calendar::day_number(last).ok_or(Refusal::Window)?,
    };
    if !is_sound(found) {
        return Err(Refusal::Window);
    }
    Ok(found)
}

// A day with its month.
#[tactic(auto, unfolding(calendar::specs::DayAnswers::month_at))]
fn with_month(day: Day) -> MonthDay
    requires { day.0 ≤ last_day_number }
    ensures { result ≡ with_month day }
{
    let month = calendar::month_of_day(day).unwrap();
    MonthDay { day, month }
}

// A sound window with its months.
pub(crate) fn with_months(window: Window) -> MonthWindow
    requires { window_sound window.first.0 window.last.0 ≡ true }
    ensures { result ≡ with_months window }
{
    MonthWindow {
        first: with_month(window.first),
        last: with_month(window.last),
    }
}

// Any window looked at: with its months where it is sound.
pub fn window_months(window: Window) -> WindowMonths
    ensures { result.window ≡ window }
{
    if !is_sound(window) {
        return WindowMonths {
            window,
            months: None,
        };
    }
    WindowMonths {
        window,
        months: Some(with_months(window)),
    }
}
