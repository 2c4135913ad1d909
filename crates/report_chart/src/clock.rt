// Times of day, and how long something lasts.
ghost use Rattle.std.specs.Prelude.{◌≡◌, ◌<◌, ◌++◌, OnOk};
ghost use Rattle.gps_week.specs.TimeText.{two_digits, three_digits};
ghost use Rattle.report_chart.specs.Clock.{in_hour_text, clock_text, lasting_text};

use crate::push::{push, push_number};
use std::alloc::AllocError;

pub(crate) const HOUR_MS: u64 = 3_600_000;

pub(crate) fn two_digits(number: u64) -> [u8; 2]
    requires { number < 100 }
    ensures { result ≡ two_digits number }
{
    [b'0' + (number / 10) as u8, b'0' + (number % 10) as u8]
}

pub(crate) fn three_digits(number: u64) -> [u8; 3]
    requires { number < 1000 }
    ensures { result ≡ three_digits number }
{
    let rest = number % 100;
    [
        b'0' + (number / 100) as u8,
        b'0' + (rest / 10) as u8,
        b'0' + (rest % 10) as u8,
    ]
}

// Minutes, seconds and milliseconds, behind whole hours.
#[tactic(auto, unfolding(crate::specs::Clock::in_hour_text))]
fn push_in_hour(text: &mut Vec<u8>, ms: u64) -> Result<(), AllocError>
    ensures { OnOk result (text.new.items ≡ text.old.items ++ in_hour_text ms) }
{
    push(text, b":")?;
    push(text, &two_digits(ms / 60_000 % 60))?;
    push(text, b":")?;
    push(text, &two_digits(ms / 1000 % 60))?;
    push(text, b".")?;
    push(text, &three_digits(ms % 1000))
}

// The time of day.
#[tactic(auto, unfolding(crate::specs::Clock::clock_text))]
pub(crate) fn push_clock(text: &mut Vec<u8>, t: i64) -> Result<(), AllocError>
    ensures { OnOk result (text.new.items ≡ text.old.items ++ clock_text t) }
{
    let ms = t.unsigned_abs();
    push(text, &two_digits(ms / HOUR_MS % 24))?;
    push_in_hour(text, ms)
}

// How long so many milliseconds last.
#[tactic(auto, unfolding(crate::specs::Clock::lasting_text))]
pub(crate) fn push_lasting(text: &mut Vec<u8>, ms: u64) -> Result<(), AllocError>
    ensures { OnOk result (text.new.items ≡ text.old.items ++ lasting_text ms) }
{
    push_number(text, ms / HOUR_MS)?;
    push_in_hour(text, ms)
}
