//! A book of notices over a keeper: what is accepted, what is refused and why, and what is in effect.
#![tactic(auto)]

mod accept;
mod command;
mod entries;
mod fault;
mod form;
mod in_order;
mod keeper;
mod laws;
mod mem_keeper;
mod note;
mod outages;
mod run;
mod status;

pub use accept::apply;
pub use command::asks_to_add;
pub use fault::BookFault;
pub use in_order::{BookStop, apply_all};
pub use keeper::{KeepFault, Keeper, OpenFault};
pub use laws::a_notice_has_one_answer;
pub use mem_keeper::MemKeeper;
pub use note::{fault_text, note_line};
pub use notice_model::{Live, Notice, UtcOutage};
pub use outages::outages_now;
pub use run::notice_run;
pub use status::NoticeStatus;
