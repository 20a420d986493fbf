// Why the program makes no frame.
ghost use Rattle.std.specs.Prelude.{◌≡◌, Some};
ghost use Rattle.pack.specs.Usage.{failure_text};
ghost use Rattle.pack.specs.declared.failure.Failure.TheVariants.{Refused};

use crate::usage::{Argument, Form};
use fault::Fault;
use std::fmt;

#[derive(Clone, Copy)]
pub enum Failure {
    // A malformed argument, and the usage form it belongs to.
    Malformed(Form, Argument),
    // A check refuses the packet.
    Refused(Fault),
    // The frame did not open again to the same contents.
    NotOpened,
}

impl fmt::Display for Failure {
    ghost output = { λ failure. Some (failure_text failure) };

    fn fmt<W: fmt::Write>(&self, f: &mut fmt::Formatter<W>) -> fmt::Result {
        match self {
            Failure::Malformed(form, argument) => {
                write!(f, "malformed: {argument}; usage: {form}")
            }
            Failure::Refused(fault) => write!(f, "refused: {fault}"),
            Failure::NotOpened => {
                write!(f, "The frame did not open again to the same contents.")
            }
        }
    }
}

impl From<Fault> for Failure {
    ghost from_gives = { λ refusal failure. failure ≡ Refused refusal };

    fn from(refusal: Fault) -> Failure {
        Failure::Refused(refusal)
    }
}
