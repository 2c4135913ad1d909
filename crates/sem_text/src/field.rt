// What one line says.
ghost use Rattle.std.specs.Prelude.{◌≡◌, IfOk};
ghost use Rattle.raim_model.specs.Decimal.{IsCanonical};
ghost use Rattle.text_lines.specs.Words.{words_of};
ghost use Rattle.sem_text.specs.Lines as lines;

use crate::line::SemLine;
use almanac_draft::Begun;
use almanac_fields::{Flight, time_of_applicability, whole_ms};
use dec_text::{check_between, read_dec_value};
use raim_model::{Angle, Dec, TextWhy};
use text_lines::{next_word, only_word, read_whole, read_whole_in, three_words, two_words};

// How many records there are to be; a name may follow.
fn count(line: &[u8]) -> Result<u8, TextWhy>
    ensures { result ≡ lines.count_of (words_of line.now) }
{
    match next_word(line) {
        Some((word, _)) => {
            let count = read_whole_in(word, 1, 32)?;
            Ok(count as u8)
        }
        None => Err(TextWhy::Label),
    }
}

// The week and the time in it: both are numbers before a range is tested.
fn week_and_time(flight: Flight, week: &[u8], time: &[u8]) -> Result<i64, TextWhy>
    ensures { result ≡ lines.week_and_time_of flight.first flight.end week.now time.now }
{
    let week = read_whole(week)?;
    let seconds = read_dec_value(time)?;
    if week > 9999 {
        return Err(TextWhy::Range);
    }
    let time = whole_ms(seconds)?;
    time_of_applicability(flight, week as u32, time)
}

fn time_in_full(flight: Flight, line: &[u8]) -> Result<i64, TextWhy>
    ensures { result ≡ lines.time_of_applicability_of flight.first flight.end (words_of line.now) }
{
    match two_words(line) {
        Some((week, time)) => week_and_time(flight, week, time),
        None => Err(TextWhy::Label),
    }
}

fn prn(line: &[u8]) -> Result<u8, TextWhy>
    ensures { result ≡ lines.prn_of (words_of line.now) }
{
    match only_word(line) {
        Some(word) => {
            let prn = read_whole_in(word, 1, 32)?;
            Ok(prn as u8)
        }
        None => Err(TextWhy::Label),
    }
}

// A whole number that is not used.
fn unused(line: &[u8]) -> Result<u64, TextWhy>
    ensures { result ≡ lines.unused_of (words_of line.now) }
{
    match only_word(line) {
        Some(word) => read_whole(word),
        None => Err(TextWhy::Label),
    }
}

// The three decimals of a line: all are numbers before a range is tested.
fn three_decimals(line: &[u8]) -> Result<(Dec, Dec, Dec), TextWhy>
    ensures value { result ≡ lines.three_decimals_of (words_of line.now) }
    ensures canonical { IfOk result (λ ds. IsCanonical ds.0 × IsCanonical ds.1 × IsCanonical ds.2) }
{
    match three_words(line) {
        Some((first, second, third)) => {
            let first = read_dec_value(first)?;
            let second = read_dec_value(second)?;
            let third = read_dec_value(third)?;
            Ok((first, second, third))
        }
        None => Err(TextWhy::Label),
    }
}

fn eccentricity_inclination_rate(line: &[u8]) -> Result<(Dec, Dec, Dec), TextWhy>
    ensures { result ≡ lines.eccentricity_inclination_rate_of (words_of line.now) }
{
    let (e, offset, rate) = three_decimals(line)?;
    let e = check_between(e, Dec::ZERO, Dec::new(false, 3125, 5))?;
    let offset = check_between(offset, Dec::new(true, 3, 1), Dec::new(false, 7, 1))?;
    let rate = check_between(rate, Dec::new(true, 1, 6), Dec::new(false, 1, 6))?;
    Ok((e, offset, rate))
}

// An angle of at most 4 semicircles either way.
fn angle(value: Dec) -> Result<Dec, TextWhy>
    requires { IsCanonical value }
    ensures { result ≡ lines.angle_of value }
{
    check_between(value, Dec::whole(true, 4), Dec::whole(false, 4))
}

fn sqrt_a_right_ascension_perigee(line: &[u8]) -> Result<(Dec, Dec, Dec), TextWhy>
    ensures { result ≡ lines.sqrt_a_right_ascension_perigee_of (words_of line.now) }
{
    let (sqrt_a, right_ascension, perigee) = three_decimals(line)?;
    let sqrt_a = check_between(sqrt_a, Dec::whole(false, 4000), Dec::whole(false, 7000))?;
    let right_ascension = angle(right_ascension)?;
    let perigee = angle(perigee)?;
    Ok((sqrt_a, right_ascension, perigee))
}

fn mean_anomaly_and_clock(line: &[u8]) -> Result<Dec, TextWhy>
    ensures { result ≡ lines.mean_anomaly_and_clock_of (words_of line.now) }
{
    let (mean_anomaly, _, _) = three_decimals(line)?;
    angle(mean_anomaly)
}

fn health(line: &[u8]) -> Result<u8, TextWhy>
    ensures { result ≡ lines.health_of (words_of line.now) }
{
    match only_word(line) {
        Some(word) => {
            let health = read_whole_in(word, 0, 255)?;
            Ok(health as u8)
        }
        None => Err(TextWhy::Label),
    }
}

// What is said behind a line.
pub(crate) fn read_line(
    kind: SemLine,
    flight: Flight,
    begun: Begun,
    line: &[u8],
) -> Result<Begun, TextWhy>
    ensures { result ≡ lines.line_said flight.first flight.end kind begun line.now }
{
    let mut said = begun;
    match kind {
        SemLine::Count => said.declared = Some(count(line)?),
        SemLine::WeekAndTime => said.values.toa_ms = time_in_full(flight, line)?,
        SemLine::Prn => said.values.prn = prn(line)?,
        SemLine::Svn | SemLine::Ura | SemLine::Configuration => {
            unused(line)?;
        }
        SemLine::EccentricityInclinationRate => {
            let (e, offset, rate) = eccentricity_inclination_rate(line)?;
            said.values.e = e;
            said.values.incl = Angle::Semi30(offset);
            said.values.rate = Angle::Semi(rate);
        }
        SemLine::SqrtARightAscensionPerigee => {
            let (sqrt_a, right_ascension, perigee) = sqrt_a_right_ascension_perigee(line)?;
            said.values.sqrt_a = sqrt_a;
            said.values.omega0 = Angle::Semi(right_ascension);
            said.values.perigee = Angle::Semi(perigee);
        }
        SemLine::MeanAnomalyAndClock => {
            said.values.m0 = Angle::Semi(mean_anomaly_and_clock(line)?);
        }
        SemLine::Health => said.values.health = health(line)?,
    }
    Ok(said)
}
