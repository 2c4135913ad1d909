// The almanac of a demonstration, in the SEM form: 24 satellites, four in each of six planes.
ghost use Rattle.std.specs.Prelude.{◌≡◌, ◌<◌, ◌≤◌, IfOk, string_bytes};
ghost use Rattle.demo_texts.specs.Demo.{demo_almanac, decimals_text, anomaly_of, anomaly_text, node_text, record_text};

use std::alloc::{AllocError, Global};

const SATELLITES: u32 = 24;

// The right ascension of a plane's ascending node, in half turns.
fn node(plane: u32) -> &'static str
    ensures { result.now ≡ node_text plane }
{
    match plane {
        0 => "0.0000",
        1 => "0.3333",
        2 => "0.6667",
        3 => "1.0000",
        4 => "-0.6667",
        _ => "-0.3333",
    }
}

// Ten-thousandths, with four decimals.
fn decimals(alloc: Global, n: u32) -> Result<String, AllocError>
    ensures { IfOk result (λ text. string_bytes text ≡ decimals_text n) }
{
    let ones = n / 10000;
    let tenths = n / 1000 % 10;
    let hundredths = n / 100 % 10;
    let thousandths = n / 10 % 10;
    let last = n % 10;
    format!(in alloc; "{ones}.{tenths}{hundredths}{thousandths}{last}")
}

// The mean anomaly of satellite k, in ten-thousandths of a half turn above -1.
fn anomaly(number: u32, k: u32) -> u32
    requires { k < 24 }
    ensures value { result ≡ anomaly_of number k }
    ensures bound { result < 20000 }
{
    (5000 * (k % 4) + 833 * (k / 4) + 37 * (number % 1000)) % 20000
}

// The mean anomaly that is so many ten-thousandths of a half turn above -1.
fn anomaly_decimals(alloc: Global, above: u32) -> Result<String, AllocError>
    requires { above < 20000 }
    ensures { IfOk result (λ text. string_bytes text ≡ anomaly_text above) }
{
    if above < 10000 {
        let decimals = decimals(alloc, 10000 - above)?;
        return format!(in alloc; "-{}", decimals.as_str());
    }
    decimals(alloc, above - 10000)
}

// The eight lines of satellite k.
fn record(alloc: Global, number: u32, k: u32) -> Result<String, AllocError>
    requires { k < 24 }
    ensures { IfOk result (λ text. string_bytes text ≡ record_text number k) }
{
    let prn = k + 1;
    let node = node(k / 4);
    let anomaly = anomaly_decimals(alloc, anomaly(number, k))?;
    let anomaly = anomaly.as_str();
    format!(in alloc;
        "{prn}\n{prn}\n0\n0.01 0.0056 -2.6E-09\n5153.6 {node} 0.0\n{anomaly} 0.0 0.0\n0\n9\n"
    )
}

// The almanac: two lines, and the records of the satellites.
pub(crate) fn almanac(alloc: Global, number: u32) -> Result<Vec<u8>, AllocError>
    ensures { IfOk result (λ text. text.items ≡ demo_almanac number) }
{
    let mut text = Vec::new(alloc);
    text.extend_from_slice(b"24 DEMO\n2338 0\n")?;
    for k in 0..SATELLITES {
        let record = record(alloc, number, k)?;
        text.extend_from_slice(record.as_str().as_bytes())?;
    }
    Ok(text)
}
