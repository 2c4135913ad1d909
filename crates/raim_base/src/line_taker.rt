// A file is fed line by line.
ghost use Rattle.std.specs.Prelude.{◌≡◌, ◌<◌, ◌≤◌, ◌++◌, ◌∷◌, [], ℕ, List, length, true, IfSome, IsErrOf, OnOk, OnErr};
ghost use Rattle.std.specs.List.{list_all};
ghost use Rattle.text_lines.specs.Lines.{Text, lines_of, is_inside};
ghost use Rattle.raim_base.specs.Calls.{MakesCalls, IsReadBy};
ghost use Rattle.raim_base.specs.Causes.{Rose};
ghost use Rattle.raim_base.specs.Desks.{KeepsOthers};
ghost use Rattle.raim_base.specs.Sizes.{longest_file};
ghost use Rattle.raim_base.specs.Feeding.{Follows, Feeds, FeedsFront, IsFedFront};

use crate::{Desk, ReadStop};
use raim_model::FileNo;
use std::alloc::{AllocError, Global};
use text_lines::{LONGEST_FILE, split_at_feed, without_carriage_return};

/// Takes lines one at a time. No line takes memory.
pub trait LineTaker {
    /// The taker stands for these lines.
    ghost stands: { Self → List Text → Type 0 };

    /// What the taker was made with.
    ghost made: { Self → List ℕ };

    /// Takes the next line.
    fn take(&mut self, line: &[u8])
        ensures stands { (lines : List Text) → stands self.old lines → stands self.new (lines ++ line.now ∷ []) }
        ensures made { made self.new ≡ made self.old };
}

const PIECE: usize = 4096;

// Feeds the lines that end in a piece, the first of them with what was carried, and carries what begins
// behind them.
fn feed_piece<T: LineTaker>(
    piece: &[u8],
    carried: &mut Vec<u8>,
    taker: &mut T,
) -> Result<(), AllocError>
    requires { list_all is_inside carried.old.items ≡ true }
    ensures fed { OnOk result (Feeds (T.stands taker.old) (T.stands taker.new) (carried.old.items ++ piece.now) carried.new.items) }
    ensures front { OnErr result (FeedsFront (T.stands taker.old) (T.stands taker.new) (carried.old.items ++ piece.now)) }
    ensures made { T.made taker.new ≡ T.made taker.old }
{
    let mut rest = piece;
    while let Some((line, after)) = split_at_feed(rest) {
        if let Err(fault) = carried.extend_from_slice(line) {
            return Err(fault);
        }
        taker.take(without_carriage_return(carried.as_slice()));
        carried.clear();
        rest = after;
    }
    match carried.extend_from_slice(rest) {
        Ok(()) => Ok(()),
        Err(fault) => Err(fault),
    }
}

// Feeds a last line that no line feed ends.
fn feed_last<T: LineTaker>(carried: &[u8], taker: &mut T)
    requires { list_all is_inside carried.now ≡ true }
    ensures fed { Follows (T.stands taker.old) (T.stands taker.new) (lines_of carried.now) }
    ensures made { T.made taker.new ≡ T.made taker.old }
{
    if carried.is_empty() {
        return;
    }
    taker.take(carried);
}

/// Feeds the lines of what a path holds, at most `LONGEST_FILE` bytes, as they are read. Where it stops
/// before the end, first lines were fed. The file is named once and read to its end; after a call that
/// fails no other is made.
pub fn feed_lines<D: Desk, T: LineTaker>(
    alloc: Global,
    desk: &mut D,
    file: FileNo,
    path: &str,
    taker: &mut T,
) -> Result<(), ReadStop>
    ensures ok { OnOk result (IfSome (D.holds desk.old path.now) (λ bytes. Follows (T.stands taker.old) (T.stands taker.new) (lines_of bytes))) }
    ensures short { OnOk result (IfSome (D.holds desk.old path.now) (λ bytes. length bytes ≤ longest_file)) }
    ensures long { IsErrOf result ReadStop.TooLong → IfSome (D.holds desk.old path.now) (λ bytes. longest_file < length bytes) }
    ensures fault { IsErrOf result ReadStop.Fault → Rose (D.faults desk.old file) (D.faults desk.new file) }
    ensures front { IsFedFront (T.stands taker.old) (T.stands taker.new) (D.holds desk.old path.now) }
    ensures made { T.made taker.new ≡ T.made taker.old }
    ensures holds { (p : List ℕ) → D.holds desk.new p ≡ D.holds desk.old p }
    ensures later { D.faults desk.old file ≤ D.faults desk.new file }
    ensures others { KeepsOthers (D.left desk.old) (D.left desk.new) (D.faults desk.old) (D.faults desk.new) file }
    ensures calls { MakesCalls (D.calls desk.old) (D.calls desk.new) (IsReadBy file path.now result) }
{
    if desk.name(file, path).is_err() {
        return Err(ReadStop::Fault);
    }
    let mut carried = Vec::new(alloc);
    let mut given = 0;
    let mut buf = [0u8; PIECE];
    while given <= LONGEST_FILE {
        let most = PIECE.min(LONGEST_FILE + 1 - given);
        let Ok(count) = desk.read(file, &mut buf[..most]) else {
            return Err(ReadStop::Fault);
        };
        if count == 0 {
            feed_last(carried.as_slice(), taker);
            return Ok(());
        }
        if let Err(_) = feed_piece(&buf[..count], &mut carried, taker) {
            return Err(ReadStop::Memory);
        }
        given += count;
    }
    Err(ReadStop::TooLong)
}
