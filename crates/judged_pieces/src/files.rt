// The case of four files.

use piece_verdict::Case;
use std::{fs, io};
use verdict_cases::case_of_texts;

/// The case of four files, and nothing where one is not accepted or there is no memory. The almanacs' paths are parted by commas.
pub fn case_of_files(
    rt: &HostRuntime,
    limits: &str,
    almanacs: &str,
    outages: &str,
    route: &str,
) -> io::Result<Option<Case>> {
    let alloc = rt.alloc();
    let limits = fs::read_to_string(rt, limits)?;
    let outages = fs::read_to_string(rt, outages)?;
    let route = fs::read_to_string(rt, route)?;
    let mut texts = Vec::new(alloc);
    for path in almanacs.split(',') {
        texts.push(fs::read_to_string(rt, path)?)?;
    }
    match case_of_texts(
        alloc,
        limits.as_str(),
        texts.as_slice(),
        outages.as_str(),
        route.as_str(),
    ) {
        Ok(case) => Ok(case),
        Err(_) => Ok(None),
    }
}
