// Why a run is not Available, in words.
ghost use Rattle.std.specs.Prelude.{◌≡◌, ◌++◌, OnOk};
ghost use Rattle.report_text.specs.Report.{prn_text};
ghost use Rattle.report_chart.specs.Reasons.{why_words, mask_words, slope_words, without, cmp_words, reason_words};

use crate::clock::{three_digits, two_digits};
use crate::push::push;
use raim_model::{Cmp, Verdict, Why};
use std::alloc::AllocError;

fn push_prn(text: &mut Vec<u8>, prn: u8) -> Result<(), AllocError>
    ensures { OnOk result (text.new.items ≡ text.old.items ++ prn_text prn) }
{
    if prn < 100 {
        push(text, &two_digits(prn as u64))
    } else {
        push(text, &three_digits(prn as u64))
    }
}

fn words_of_why(why: Why) -> &'static [u8]
    ensures { result.now ≡ why_words why }
{
    match why {
        Why::Few => b"too few satellites",
        Why::Singular => b"geometry",
        Why::Slope => b"slope",
    }
}

fn push_mask(text: &mut Vec<u8>, prn: u8) -> Result<(), AllocError>
    ensures { OnOk result (text.new.items ≡ text.old.items ++ mask_words prn) }
{
    push(text, b"PRN ")?;
    push_prn(text, prn)?;
    push(text, b" at the mask")
}

fn push_slope(text: &mut Vec<u8>, prn: u8) -> Result<(), AllocError>
    ensures { OnOk result (text.new.items ≡ text.old.items ++ slope_words prn) }
{
    push(text, b"slope of PRN ")?;
    push_prn(text, prn)
}

fn push_without(text: &mut Vec<u8>, left: u8) -> Result<(), AllocError>
    ensures { OnOk result (text.new.items ≡ text.old.items ++ without left) }
{
    push(text, b" without PRN ")?;
    push_prn(text, left)
}

fn push_cmp(text: &mut Vec<u8>, cmp: Cmp) -> Result<(), AllocError>
    ensures { OnOk result (text.new.items ≡ text.old.items ++ cmp_words cmp) }
{
    match cmp {
        Cmp::Mask(prn) => push_mask(text, prn),
        Cmp::Det => push(text, b"geometry"),
        Cmp::Slope(prn) => push_slope(text, prn),
        Cmp::DetWithout(left) => {
            push(text, b"geometry")?;
            push_without(text, left)
        }
        Cmp::SlopeWithout(left, prn) => {
            push_slope(text, prn)?;
            push_without(text, left)
        }
    }
}

pub(crate) fn push_reason(text: &mut Vec<u8>, verdict: Verdict) -> Result<(), AllocError>
    ensures { OnOk result (text.new.items ≡ text.old.items ++ reason_words verdict) }
{
    match verdict {
        Verdict::Available => Ok(()),
        Verdict::Unavailable(why) => push(text, words_of_why(why)),
        Verdict::Undecided(cmp) => push_cmp(text, cmp),
        Verdict::Overflow(_) => Ok(()),
    }
}
