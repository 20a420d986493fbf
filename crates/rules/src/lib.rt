// The rules of the board as a state machine, the three promises on whole runs, and laws that show what the words of the rules say.
#![tactic(auto)]

ghost use Rattle.std.specs.Prelude.{◌≡◌, Some};
ghost use Rattle.rules.specs.Arrival.{FramesArrive};
ghost use Rattle.rules.specs.Board.{boot_number, boot_text};
ghost use Rattle.rules.specs.Examples.{CheckedExamples, SameVersion};
ghost use Rattle.rules.specs.Instances.{RunsExist};
ghost use Rattle.rules.specs.Laws.{DarkWhenSpent, EachCallHasItsRefusals, HistoriesJoin, KeyTypesNameKeys, PacketsAreOneList, PassingShows, RefusalsChangeNothing, TurnedAwayUnchanged};
ghost use Rattle.rules.specs.Memory.{DataIsLaid};
ghost use Rattle.rules.specs.Promises.{AnswersTellNothing, NoPacketIsTakenTwice, UpdatesAreWhole};

use memory::Supply;
use std::fmt;

// What a boot question answers: an application to start, a blank reset vector, or an unfinished update.
#[derive(Clone, Copy)]
pub enum Boot {
    Application,
    Blank,
    Unfinished,
}

impl Boot {
    // The number of the answer.
    pub fn number(self) -> u8
        ensures { result ≡ boot_number self }
    {
        match self {
            Boot::Application => 1,
            Boot::Blank => 2,
            Boot::Unfinished => 3,
        }
    }
}

impl fmt::Display for Boot {
    ghost output = { λ boot. Some (boot_text boot) };

    fn fmt<W: fmt::Write>(&self, f: &mut fmt::Formatter<W>) -> fmt::Result {
        f.write_str(match self {
            Boot::Application => "there is an application to start",
            Boot::Blank => "there is no application",
            Boot::Unfinished => "an update is unfinished",
        })
    }
}

// The session: none, or an update that expects this packet number, of so many. An enum of its own, since the rules speak of a closed session.
#[derive(Clone, Copy)]
pub enum Session {
    Closed,
    Expects(u16, u16),
}

// What a call gives to the board.
#[derive(Clone, Copy)]
pub enum Event {
    // A byte, with the lengths of the reply and the work buffer.
    Byte(u8, usize, usize),
    Silence,
    Question,
    // The power comes on, with a supply.
    PowerUp(Supply),
}

// What a core command asks for, by its first byte and its length.
#[derive(Clone, Copy)]
pub enum Command {
    MassErase,
    Version,
    Reset,
    Data,
    Key,
    Unknown(u8),
}

// Updates are whole.
pub fn updates_are_whole()
    ensures { UpdatesAreWhole }
{}

// No packet is taken twice.
pub fn no_packet_is_taken_twice()
    ensures { NoPacketIsTakenTwice }
{}

// Answers tell nothing of the keys.
pub fn answers_tell_nothing()
    ensures { AnswersTellNothing }
{}

// None of the promises is empty: for each there is a run that it speaks of.
pub fn promises_have_runs()
    ensures { RunsExist }
{}

// A core command arrives exactly at the call that reads the last byte of its frame.
pub fn core_commands_arrive_in_frames()
    ensures { FramesArrive }
{}

// A data packet passes the checks exactly when it is sealed under the held key and its call refuses nothing, or goes dark.
pub fn passing_the_checks_shows()
    ensures { PassingShows }
{}

// A call that is refused changes nothing but the receiver, unless it goes dark; one that is turned away changes nothing at all.
pub fn refusals_change_nothing()
    ensures refused { RefusalsChangeNothing }
    ensures away { TurnedAwayUnchanged }
{}

// Each call has its refusals, with places within bounds; a board goes dark only when its supply is spent.
pub fn each_call_has_its_refusals()
    ensures bounded { EachCallHasItsRefusals }
    ensures spent { DarkWhenSpent }
{}

// A key packet of type 0 replaces the data key, one of type 2 the key-encryption key, and no other is taken.
pub fn key_types_name_keys()
    ensures { KeyTypesNameKeys }
{}

// A long run may be made in pieces: the history of calls after others is theirs, and then that of the calls from the board that they left.
pub fn histories_join()
    ensures { HistoriesJoin }
{}

// The packets of an update are one list.
pub fn packets_are_one_list()
    ensures { PacketsAreOneList }
{}

// Data laid over an image: each of its addresses holds its byte, and every other what it held.
pub fn data_is_laid_over()
    ensures { DataIsLaid }
{}

// Of the held version only an unfinished update may open again.
pub fn same_version_opens_if_unfinished()
    ensures { SameVersion }
{}

// The checked examples, as one set: checksums, stores at the ends of the areas, and a packet of the held version.
pub fn checked_examples()
    ensures { CheckedExamples }
{}
