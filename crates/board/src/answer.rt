// What calls answer.
use crate::reply::REPLY;
use buffer::Buffer;
use fault::Fault;
use rules::Boot;
use std::marker::Model;

mod parts;

// What a byte call answers: the refusal, if any, and how many bytes (at most 11) it left in the reply buffer. No Result: a refusal sends bytes too.
#[derive(Clone, Copy)]
pub struct ByteAnswer {
    pub refusal: Option<Fault>,
    pub sent: usize,
}

// What any call answers, kept: the refusal, if it refuses, the bytes that are sent, and what a boot question says. No Result: a refusal sends
// bytes too.
#[derive(Clone, Copy)]
pub struct Answer {
    refusal: Option<Fault>,
    sent: Buffer<REPLY>,
    boot: Option<Boot>,
}

impl Model for Answer {
    ghost use Rattle.rules.specs.Board.{Answer as Given};

    ghost Value = { Given };

    ghost view = { λ a. record { refusal = a.refusal; sent = a.sent; said = a.boot } };

    ghost inverse = { λ a. record { refusal = a.refusal; sent = a.sent; boot = a.said } };
}
