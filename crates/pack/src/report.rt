// What the words of the program come to: a packet and its frame, or why there is none.
ghost use Rattle.std.specs.Prelude.{◌≡◌, IfOk, map, string_bytes, vec_items};
ghost use Rattle.std.specs.Option.{option_map};
ghost use Rattle.pack.specs.Report.{data_given, data_words, key_given, key_words, words_come_to};

use crate::arguments::{DataArguments, KeyArguments, data_arguments, key_arguments};
use crate::failure::Failure;
use crate::frames::{frame_of_data, frame_of_key};
use crate::reopened::OpenedFrame;
use crate::usage::{Argument, Form};
use std::alloc::{AllocError, Global};
use text::hex::hex_bytes;

#[derive(Clone, Copy)]
pub enum Packet {
    // A data packet, and how many bytes of data it has.
    Data(DataArguments, usize),
    Key(KeyArguments),
}

// A packet, and its frame, which opened again to the same contents.
#[derive(Clone, Copy)]
pub struct Report {
    pub packet: Packet,
    pub frame: OpenedFrame,
}

// What a data packet comes to, for its arguments and its data, as far as they are well formed.
fn data_given(
    asked: Result<DataArguments, Argument>,
    data: Option<Vec<u8>>,
) -> Result<Report, Failure>
    ensures { result ≡ data_given asked (option_map vec_items «data») }
{
    let malformed = |argument| Failure::Malformed(Form::Data, argument);
    let a = asked.map_err(malformed)?;
    let bytes = data.ok_or(malformed(Argument::Data))?;
    let frame = frame_of_data(&a, &bytes)?;
    Ok(Report {
        packet: Packet::Data(a, bytes.len()),
        frame,
    })
}

// What a key packet comes to, for its arguments, if they are well formed.
fn key_given(asked: Result<KeyArguments, Argument>) -> Result<Report, Failure>
    ensures { result ≡ key_given asked }
{
    let a = asked.map_err(|argument| Failure::Malformed(Form::Key, argument))?;
    let frame = frame_of_key(&a)?;
    Ok(Report {
        packet: Packet::Key(a),
        frame,
    })
}

// What the words behind `data` come to.
fn data_report(heap: Global, words: &[String]) -> Result<Result<Report, Failure>, AllocError>
    ensures { IfOk result (λ r. r ≡ data_words (map string_bytes words.now)) }
{
    let [cipher, key, iv, ver, pn, np, address, data] = words else {
        return Ok(Err(Failure::Malformed(Form::Data, Argument::Count)));
    };
    let asked = data_arguments(cipher, key, iv, ver, pn, np, address);
    if asked.is_err() {
        return Ok(data_given(asked, None));
    }
    let bytes = hex_bytes(heap, data.as_bytes())?;
    Ok(data_given(asked, bytes))
}

// What the words behind `key` come to.
fn key_report(words: &[String]) -> Result<Report, Failure>
    ensures { result ≡ key_words (map string_bytes words.now) }
{
    let [cipher, kek, iv, kt, kv, key] = words else {
        return Err(Failure::Malformed(Form::Key, Argument::Count));
    };
    key_given(key_arguments(cipher, kek, iv, kt, kv, key))
}

// What the words of the program come to; the first is its name. Fails only where there is no memory for the data.
pub fn report_of(heap: Global, words: &[String]) -> Result<Result<Report, Failure>, AllocError>
    ensures { IfOk result (λ r. r ≡ words_come_to (map string_bytes words.now)) }
{
    let [_, command, words @ ..] = words else {
        return Ok(Err(Failure::Malformed(Form::Unknown, Argument::Command)));
    };
    match command.as_str() {
        "data" => data_report(heap, words),
        "key" => Ok(key_report(words)),
        _ => Ok(Err(Failure::Malformed(Form::Unknown, Argument::Command))),
    }
}
