//! The tests of the book of notices: words and messages in; answers, lists, tables and notes out.
#![tactic(auto)]

#[cfg(test)]
mod book_rows;
#[cfg(test)]
mod books;
#[cfg(test)]
mod calls;
#[cfg(test)]
mod commands;
#[cfg(test)]
mod damage;
#[cfg(test)]
mod faults;
#[cfg(test)]
mod fuses;
#[cfg(test)]
mod message_rows;
#[cfg(test)]
mod messages;
#[cfg(test)]
mod running;
#[cfg(test)]
mod tables;
#[cfg(test)]
mod texts;
