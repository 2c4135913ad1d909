// The happy path, and a published almanac in its two forms.

use crate::position_table::place_of;
use crate::records::{circle, published_sem, published_yuma};
use fix_interval::Iv;

fn ends(a: Iv) -> (i128, i128) {
    (a.lo, a.hi)
}

fn meet(a: Iv, b: Iv) -> bool {
    a.lo <= b.hi && b.lo <= a.hi
}

#[test]
fn satellite_at_its_node(rt: HostRuntime) {
    let place = place_of(&circle(), 1414022400000, 1414022400000);
    match place {
        Some(place) => {
            assert_eq!(rt; ends(place.x), (7300645322019, 7300645322132));
            assert_eq!(rt; ends(place.y), (-28, 28));
            assert_eq!(rt; ends(place.z), (-240, 240));
        }
        None => panic!(rt; "no place"),
    }
}

#[test]
fn both_forms_of_an_almanac_agree(rt: HostRuntime) {
    for t in [962033904000, 962037504000, 962041104000] {
        let radians = place_of(&published_yuma(), t, t);
        let semicircles = place_of(&published_sem(), t, t);
        match (radians, semicircles) {
            (Some(a), Some(b)) => {
                assert!(rt;
                    meet(a.x, b.x) && meet(a.y, b.y) && meet(a.z, b.z),
                    "at {t}"
                );
            }
            _ => panic!(rt; "no place at {t}"),
        }
    }
}
