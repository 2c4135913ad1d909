// What one line says.
ghost use Rattle.std.specs.Prelude.{◌≡◌};
ghost use Rattle.std.specs.Result.{result_map_both};
ghost use Rattle.raim_model.specs.Decimal.{IsCanonical};
ghost use Rattle.dec_text.specs.DecimalFields.{only_word as only_word_of};
ghost use Rattle.text_lines.specs.Fields.{whole_value_in};
ghost use Rattle.yuma_text.specs.Lines as lines;

use crate::line::YumaLine;
use almanac_draft::{AlmanacLine, Begun};
use almanac_fields::{Flight, time_of_applicability, whole_ms};
use dec_text::{read_dec_between, read_dec_value};
use raim_model::{Angle, Dec, TextWhy};
use text_lines::{next_word, only_word, read_labelled, read_whole_value};

fn title(begun: Begun, line: &[u8]) -> Result<Begun, TextWhy>
    ensures { result ≡ lines.title_of begun line.now }
{
    match next_word(line) {
        Some((word, _)) => {
            if !word.starts_with(b"*") {
                return Err(TextWhy::Label);
            }
            Ok(begun)
        }
        None => Err(TextWhy::Label),
    }
}

fn prn(value: &[u8]) -> Result<u8, TextWhy>
    ensures { result ≡ whole_value_in 1 32 value.now }
{
    let prn = read_whole_value(value, 1, 32)?;
    Ok(prn as u8)
}

fn health(value: &[u8]) -> Result<u8, TextWhy>
    ensures { result ≡ whole_value_in 0 255 value.now }
{
    let health = read_whole_value(value, 0, 255)?;
    Ok(health as u8)
}

// The word of a value that is one word.
fn word_of(value: &[u8]) -> Result<&[u8], TextWhy>
    ensures { result_map_both (λ w. w.now) (λ why. why) result ≡ only_word_of value.now }
{
    match only_word(value) {
        Some(word) => Ok(word),
        None => Err(TextWhy::Number),
    }
}

// A value from `low` to `high`.
fn decimal(value: &[u8], low: Dec, high: Dec) -> Result<Dec, TextWhy>
    requires low { IsCanonical low }
    requires high { IsCanonical high }
    ensures { result ≡ lines.decimal_value low high value.now }
{
    let word = word_of(value)?;
    read_dec_between(word, low, high)
}

fn eccentricity(value: &[u8]) -> Result<Dec, TextWhy>
    ensures { result ≡ lines.eccentricity_of value.now }
{
    decimal(value, Dec::ZERO, Dec::new(false, 3125, 5))
}

fn time(value: &[u8]) -> Result<u32, TextWhy>
    ensures { result ≡ lines.time_of value.now }
{
    let word = word_of(value)?;
    let seconds = read_dec_value(word)?;
    whole_ms(seconds)
}

fn inclination(value: &[u8]) -> Result<Dec, TextWhy>
    ensures { result ≡ lines.inclination_of value.now }
{
    decimal(value, Dec::ZERO, Dec::new(false, 31_415_926_535_898, 13))
}

fn rate(value: &[u8]) -> Result<Dec, TextWhy>
    ensures { result ≡ lines.rate_of value.now }
{
    decimal(value, Dec::new(true, 1, 6), Dec::new(false, 1, 6))
}

fn sqrt_a(value: &[u8]) -> Result<Dec, TextWhy>
    ensures { result ≡ lines.sqrt_a_of value.now }
{
    decimal(value, Dec::whole(false, 4000), Dec::whole(false, 7000))
}

// An angle of at most 10 rad either way.
fn angle(value: &[u8]) -> Result<Dec, TextWhy>
    ensures { result ≡ lines.angle_of value.now }
{
    decimal(value, Dec::whole(true, 10), Dec::whole(false, 10))
}

// A clock term may be any decimal, and is not used.
fn clock(value: &[u8]) -> Result<Dec, TextWhy>
    ensures { result ≡ lines.clock_of value.now }
{
    let word = word_of(value)?;
    read_dec_value(word)
}

fn week(flight: Flight, time: u32, value: &[u8]) -> Result<i64, TextWhy>
    ensures { result ≡ lines.week_of flight.first flight.end time value.now }
{
    let week = read_whole_value(value, 0, 9999)?;
    time_of_applicability(flight, week as u32, time)
}

// The value of a line of each kind.
fn read_value(kind: YumaLine, flight: Flight, begun: Begun, value: &[u8]) -> Result<Begun, TextWhy>
    ensures { result ≡ lines.value_said flight.first flight.end kind begun value.now }
{
    let mut said = begun;
    match kind {
        YumaLine::Title => return Err(TextWhy::Label),
        YumaLine::Prn => said.values.prn = prn(value)?,
        YumaLine::Health => said.values.health = health(value)?,
        YumaLine::Eccentricity => said.values.e = eccentricity(value)?,
        YumaLine::TimeInWeek => said.time = time(value)?,
        YumaLine::Inclination => said.values.incl = Angle::Rad(inclination(value)?),
        YumaLine::RateOfRightAscension => said.values.rate = Angle::Rad(rate(value)?),
        YumaLine::SqrtA => said.values.sqrt_a = sqrt_a(value)?,
        YumaLine::RightAscension => said.values.omega0 = Angle::Rad(angle(value)?),
        YumaLine::ArgumentOfPerigee => said.values.perigee = Angle::Rad(angle(value)?),
        YumaLine::MeanAnomaly => said.values.m0 = Angle::Rad(angle(value)?),
        YumaLine::Af0 | YumaLine::Af1 => {
            clock(value)?;
        }
        YumaLine::Week => said.values.toa_ms = week(flight, said.time, value)?,
    }
    Ok(said)
}

// What is said behind a line: a title, or the label that is expected and its value.
pub(crate) fn read_line(
    kind: YumaLine,
    flight: Flight,
    begun: Begun,
    line: &[u8],
) -> Result<Begun, TextWhy>
    ensures { result ≡ lines.line_said flight.first flight.end kind begun line.now }
{
    if kind.begins() {
        return title(begun, line);
    }
    let value = read_labelled(kind.label(), line)?;
    read_value(kind, flight, begun, value)
}
