// The four files of a demonstration.
ghost use Rattle.std.specs.Prelude.{◌≡◌, IfOk};
ghost use Rattle.demo_texts.specs.Demo.{demo_limits, demo_almanac, demo_outages, demo_route};

use crate::almanac::almanac;
use raim_model::OutOfMemory;
use std::alloc::{AllocError, Global};

/// The bytes of the four files that a demonstration judges.
#[derive(Drop)]
pub struct DemoFiles {
    pub limits: Vec<u8>,
    pub almanac: Vec<u8>,
    pub outages: Vec<u8>,
    pub route: Vec<u8>,
}

const LIMITS: &[u8] = b"leap 18\nmask 5\nalert approach\nbias 5 100000\n";

const OUTAGES: &[u8] = b"05 2024-10-27T00:02:00.000Z 2024-10-27T00:04:00.000Z\n";

const ROUTE: &[u8] = b"2024-10-27T00:00:00.000Z 70 0 10000\n2024-10-27T00:10:00.000Z 71 3 10000\n";

fn limits(alloc: Global) -> Result<Vec<u8>, AllocError>
    ensures { IfOk result (λ text. text.items ≡ demo_limits) }
{
    let mut text = Vec::new(alloc);
    text.extend_from_slice(LIMITS)?;
    Ok(text)
}

fn outages(alloc: Global) -> Result<Vec<u8>, AllocError>
    ensures { IfOk result (λ text. text.items ≡ demo_outages) }
{
    let mut text = Vec::new(alloc);
    text.extend_from_slice(OUTAGES)?;
    Ok(text)
}

fn route(alloc: Global) -> Result<Vec<u8>, AllocError>
    ensures { IfOk result (λ text. text.items ≡ demo_route) }
{
    let mut text = Vec::new(alloc);
    text.extend_from_slice(ROUTE)?;
    Ok(text)
}

fn files(alloc: Global, number: u32) -> Result<DemoFiles, AllocError>
    ensures limits { IfOk result (λ files. files.limits.items ≡ demo_limits) }
    ensures almanac { IfOk result (λ files. files.almanac.items ≡ demo_almanac number) }
    ensures outages { IfOk result (λ files. files.outages.items ≡ demo_outages) }
    ensures route { IfOk result (λ files. files.route.items ≡ demo_route) }
{
    let limits = limits(alloc)?;
    let almanac = almanac(alloc, number)?;
    let outages = outages(alloc)?;
    let route = route(alloc)?;
    Ok(DemoFiles {
        limits,
        almanac,
        outages,
        route,
    })
}

/// The four files of the demonstration with this number: ten minutes of a flight between 70 and 71 degrees
/// north, over which one of 24 satellites is out for two minutes. The number shifts the satellites along
/// their orbits, and does nothing else.
pub fn demo_files(alloc: Global, number: u32) -> Result<DemoFiles, OutOfMemory>
    ensures limits { IfOk result (λ files. files.limits.items ≡ demo_limits) }
    ensures almanac { IfOk result (λ files. files.almanac.items ≡ demo_almanac number) }
    ensures outages { IfOk result (λ files. files.outages.items ≡ demo_outages) }
    ensures route { IfOk result (λ files. files.route.items ≡ demo_route) }
{
    match files(alloc, number) {
        Ok(files) => Ok(files),
        Err(_) => Err(OutOfMemory),
    }
}
