// Laws of answers, the contract of a function that does nothing.
ghost use Rattle.notice_book.specs.Laws.{HasOneAnswer};

/// Of the tables and a notice one answer is the right one, unless the keeper fails: so `apply` gives each
/// refusal exactly where it is the first that there is.
pub fn a_notice_has_one_answer()
    ensures { HasOneAnswer }
{}
