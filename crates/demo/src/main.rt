// demo: packs an update, writes its frames to a file if one is named, sends it to a fresh board, cuts the power in the middle, and tells what the board says on the way.
#![tactic(auto)]

ghost use Rattle.std.specs.Prelude.{◌≡◌, IfOk};
ghost use Rattle.demo.specs.Frames.{update_frames};

use board::{Answer, Board};
use cipher::{Aes128, BlockCipher, Ccm};
use example::{COUNT, Frame, pack_part, push_frame};
use fault::Fault;
use memory::{LentImage, MAP_SIZE, Memory, Powered, Supply, check_size, sized};
use std::alloc::Global;
use std::env;
use std::fs::File;
use std::io::{ErrorKind, Write};

const KEY: [u8; 16] = [7; 16];

const KEK: [u8; 16] = [9; 16];

// The frames of version 1 of the update, packet after packet.
fn update(heap: Global, key: &[u8; 16]) -> anyhow::Result<Vec<Frame>>
    ensures { IfOk result (λ frames. frames.items ≡ update_frames key.now) }
{
    let mut frames = Vec::new(heap);
    for number in 1..COUNT + 1 {
        frames.push(pack_part(key, 1, number)?)?;
    }
    Ok(frames)
}

fn ask<M: Memory>(rt: &HostRuntime, board: &mut Board<M, Ccm<Aes128>>) -> anyhow::Result<()> {
    match board.boot() {
        Ok(boot) => println!(rt; "  boot question: {}, {boot}", boot.number())?,
        Err(fault) => println!(rt; "  boot question: refused, {fault}")?,
    }
    Ok(())
}

// Sends one packet, in one run of calls, and tells what its last byte is answered with.
fn send<M: Powered>(
    rt: &HostRuntime,
    board: &mut Board<M, Ccm<Aes128>>,
    number: u8,
    frame: &Frame,
) -> anyhow::Result<()> {
    let mut events = Vec::new(rt.alloc());
    push_frame(&mut events, frame.as_slice())?;
    let answers = board.run(rt.alloc(), &events)?;
    answers
        .last()
        .map_or(Ok(()), |answer| told(rt, number, answer))
}

fn told(rt: &HostRuntime, number: u8, answer: &Answer) -> anyhow::Result<()> {
    match answer.refusal() {
        Some(fault) => println!(rt; "  packet {number} of {COUNT}: refused, {fault}")?,
        None => println!(rt; "  packet {number} of {COUNT}: taken")?,
    }
    Ok(())
}

fn send_all<M: Powered>(
    rt: &HostRuntime,
    board: &mut Board<M, Ccm<Aes128>>,
    frames: &[Frame],
) -> anyhow::Result<()> {
    for (number, frame) in (1..=COUNT).zip(frames) {
        send(rt, board, number, frame)?;
    }
    Ok(())
}

// Tells the story of a fresh board, and gives back its memory.
fn story<M: Powered + Drop>(
    rt: &HostRuntime,
    mut board: Board<M, Ccm<Aes128>>,
    frames: &[Frame],
) -> anyhow::Result<M> {
    println!(rt; "A fresh board:")?;
    ask(rt, &mut board)?;
    println!(rt; "The update is sent, and the power lasts for 300 storing steps:")?;
    board.power_up(Supply::Steps(300));
    send_all(rt, &mut board, frames)?;
    ask(rt, &mut board)?;
    println!(rt; "The power comes back:")?;
    board.power_up(Supply::NoEnd);
    ask(rt, &mut board)?;
    println!(rt; "The update is sent again:")?;
    send_all(rt, &mut board, frames)?;
    ask(rt, &mut board)?;
    println!(rt; "Somebody sends its packets once more:")?;
    send_all(rt, &mut board, frames)?;
    ask(rt, &mut board)?;
    Ok(board.into_memory())
}

// Writes the frames to a file, one after the other, as they go over the wire.
fn write_frames(rt: &HostRuntime, path: &str, frames: &[Frame]) -> anyhow::Result<()> {
    let mut file = File::create(rt, path)?;
    for frame in frames {
        file.write_all(frame.as_slice())?;
    }
    println!(rt; "Its frames are written to {path}.")?;
    Ok(())
}

// The file that the first word names, if there is one; none where a word, or the program's name, is not UTF-8.
fn named_file(rt: &HostRuntime) -> anyhow::Result<Option<String>> {
    match env::args(rt) {
        Ok(mut words) => Ok(words.nth(1)),
        Err(error) if matches!(error.kind(), ErrorKind::InvalidData) => Ok(None),
        Err(error) => Err(error.into()),
    }
}

fn main(rt: HostRuntime) -> anyhow::Result<()> {
    let frames = update(rt.alloc(), &KEY)?;
    let count = frames.iter().fold(
        0usize,
        |sum, frame| sum.saturating_add(frame.as_slice().len()),
    );
    println!(rt; "Version 1 of an update is packed: {COUNT} packets, {count} bytes of frames.")?;
    if let Some(path) = named_file(&rt)? {
        write_frames(&rt, path.as_str(), &frames)?;
    }
    let mut image = vec![in rt.alloc(); 0xFFu8; MAP_SIZE]?;
    check_size(&image)?;
    let image = sized(&mut image).ok_or(Fault::ImageSize)?;
    let memory: LentImage = story(&rt, Board::fresh(image, KEY, KEK), &frames)?;
    let (_image, _held, _supply) = memory.into_parts();
    Ok(())
}
