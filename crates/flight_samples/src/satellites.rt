// Almanacs of a few satellites, in the form SEM.

use std::alloc::{AllocError, Global};

/// The eccentricity of an orbit, and in semicircles what its inclination is above 0.30, its node at the begin of the week and the mean
/// anomaly of its satellite.
pub type Elements<'a> = [&'a str; 4];

/// Four satellites about the Earth, and one over the place with latitude and longitude 0.
pub const FIVE: [Elements<'static>; 5] = [
    ["0.0", "0.2", "0.5", "0.0"],
    ["0.0", "0.2", "-0.5", "0.0"],
    ["0.0", "0.2", "0.0", "0.5"],
    ["0.0", "0.2", "0.0", "-0.25"],
    ["0.0", "0.2", "0.0", "0.0"],
];

/// Eight satellites on nearly circular orbits.
pub const EIGHT: [Elements<'static>; 8] = [
    ["0.01", "0.0056", "0.9477", "0.6276"],
    ["0.01", "0.0056", "-0.8473", "0.8241"],
    ["0.01", "0.0056", "-0.1886", "0.3039"],
    ["0.01", "0.0056", "-0.4594", "0.1209"],
    ["0.01", "0.0056", "0.7210", "0.6224"],
    ["0.01", "0.0056", "-0.7027", "0.8057"],
    ["0.01", "0.0056", "-0.6915", "0.1983"],
    ["0.01", "0.0056", "-0.3251", "0.6267"],
];

/// Five satellites at one place.
pub const AT_ONE_PLACE: [Elements<'static>; 5] = [["0.0", "0.2", "0.0", "0.5"]; 5];

/// Five satellites at one place, which at the begin of the week is exactly over latitude and longitude 0.
pub const OVERHEAD: [Elements<'static>; 5] = [["0.0", "-0.30", "0.0", "0.0"]; 5];

/// An almanac of healthy satellites for a week, from PRN 1 on.
pub fn sem_almanac(
    alloc: Global,
    week: &str,
    satellites: &[Elements],
) -> Result<String, AllocError> {
    let count = satellites.len();
    let mut text = format!(in alloc; "{count} MADE\n{week} 0\n")?;
    let mut prn: u8 = 0;
    for elements in satellites {
        let [eccentricity, inclination, node, mean_anomaly] = *elements;
        prn = prn.wrapping_add(1);
        let record = format!(in alloc;
            "{prn}\n{prn}\n0\n{eccentricity} {inclination} 0.0\n5153.6 {node} 0.0\n{mean_anomaly} 0.0 0.0\n0\n9\n"
        )?;
        text.push_str(record.as_str())?;
    }
    Ok(text)
}
