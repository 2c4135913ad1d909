// The texts of a fleet.

// The texts of its four files.
#[derive(Clone, Copy)]
pub(crate) struct FleetTexts<'a> {
    pub(crate) limits: &'a [u8],
    pub(crate) almanac: &'a [u8],
    pub(crate) outages: &'a [u8],
    pub(crate) routes: &'a [u8],
}
