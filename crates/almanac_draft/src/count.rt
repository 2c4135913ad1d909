// How many records there are, against how many the almanac says it has.
ghost use Rattle.std.specs.Prelude.{◌≡◌};
ghost use Rattle.almanac_draft.specs.Counts as counts;

use raim_model::TextWhy;

/// A further record, behind `found` of them, where the almanac has fewer than it says: else one more
/// than it says.
pub(crate) fn check_further(declared: Option<u8>, found: usize) -> Result<usize, TextWhy>
    ensures { result ≡ counts.further declared found }
{
    if let Some(said) = declared {
        if found >= usize::from(said) {
            let said = u32::from(said);
            return Err(TextWhy::CountDiffers {
                said,
                found: said + 1,
            });
        }
    }
    Ok(found)
}

/// The end of an almanac with `found` records: none is `Short`, and fewer than it says differ.
pub(crate) fn count_fault(declared: Option<u8>, found: usize) -> Option<TextWhy>
    ensures { result ≡ counts.count_end declared found }
{
    match declared {
        None => {
            if found == 0 {
                return Some(TextWhy::Short);
            }
            None
        }
        Some(said) => {
            if found < usize::from(said) {
                return Some(TextWhy::CountDiffers {
                    said: u32::from(said),
                    found: found as u32,
                });
            }
            None
        }
    }
}
