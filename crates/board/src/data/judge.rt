// Judging opened contents: the numbers, their turn, and the addresses of the data.
ghost use Rattle.std.specs.Prelude.{◌≡◌, ℕ, List, [], length};
ghost use Rattle.rules.specs.Board.{may_open, may_follow, numbers_checked, turn_checked};
ghost use Rattle.board.specs.Judging.{judge_by, seen};
ghost use Rattle.board.specs.Opening.{with_work};
ghost use Rattle.board.specs.States.{judged_in, packet_in, packet_with};

use super::{Judged, Opened};
use fault::Fault;
use memory::{Held, check_range};
use rules::Session;

impl Opened {
    // Session and held record stay two parameters below, as in the rules' judging: the one is the board's, the other is read from the memory.

    fn check_numbers(&self) -> Result<(), Fault>
        ensures { result ≡ numbers_checked (packet_with self.now []) }
    {
        if self.pn == 0 || self.np == 0 || self.pn > self.np {
            return Err(Fault::BadNumber(self.pn));
        }
        Ok(())
    }

    // Whether a first packet may open an update.
    #[tactic(auto, unfolding(rules::specs::Board::may_open))]
    fn may_open(&self, held: &Held) -> bool
        ensures { (bs : List ℕ) → result ≡ may_open held.now (packet_with self.now bs) }
    {
        held.version < self.ver || self.ver == held.version && held.unfinished
    }

    // Whether any other packet is the session's next.
    #[tactic(auto, unfolding(rules::specs::Board::may_follow))]
    fn may_follow(&self, session: &Session, held: &Held) -> bool
        ensures { (bs : List ℕ) → result ≡ may_follow session.now held.now (packet_with self.now bs) }
    {
        match *session {
            Session::Closed => false,
            Session::Expects(next, last) => {
                self.pn == next && self.np == last && self.ver == held.version
            }
        }
    }

    fn check_turn(&self, session: &Session, held: &Held) -> Result<(), Fault>
        ensures { (bs : List ℕ) → result ≡ turn_checked (seen session.now held.now) (packet_with self.now bs) }
    {
        if self.pn == 1 {
            if !self.may_open(held) {
                return Err(Fault::MayNotOpen(self.pn));
            }
        } else if !self.may_follow(session, held) {
            return Err(Fault::OutOfTurn(self.pn));
        }
        Ok(())
    }

    // All checks of the fields, whatever the data are; the contents are used up, and come out judged.
    pub(crate) fn judge(self, session: &Session, held: &Held) -> Result<Judged, Fault>
        ensures { (work : List ℕ) → length work ≡ 266 → with_work judged_in work result ≡ judge_by session.now held.now (packet_in self work) }
    {
        self.check_numbers()?;
        self.check_turn(session, held)?;
        check_range(self.address, self.count)?;
        Ok(Judged { opened: self })
    }
}
