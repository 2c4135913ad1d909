// The two forms of almanacs.
ghost use Rattle.std.specs.Prelude.{◌≡◌};
ghost use Rattle.raim_model.specs.Span.{IsFlight};

use raim_model::{AlmRecord, Refusal, Span, WEEK_MS};
use sem_text::read_sem;
use std::alloc::Global;
use yuma_text::read_yuma;

/// A form of almanacs.
#[derive(Clone, Copy)]
pub enum Form {
    Yuma,
    Sem,
}

// The first second of a week of GPS.
fn flight_in(week: u16) -> Span
    ensures { IsFlight result }
{
    let first = i64::from(week) * WEEK_MS;
    Span {
        first,
        end: first + 1000,
    }
}

impl Form {
    pub fn of(word: &str) -> Option<Form> {
        match word {
            "yuma" => Some(Form::Yuma),
            "sem" => Some(Form::Sem),
            _ => None,
        }
    }

    /// The records of a text, for a flight in the first second of the week.
    pub fn read(self, alloc: Global, text: &[u8], week: u16) -> Result<Vec<AlmRecord>, Refusal> {
        match self {
            Form::Yuma => read_yuma(alloc, text, flight_in(week)),
            Form::Sem => read_sem(alloc, text, flight_in(week)),
        }
    }
}
