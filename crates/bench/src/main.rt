// bench: reads a listing of calls from standard input, makes them on a fresh board, and prints a row for each line.
#![tactic(auto)]

ghost use Rattle.std.specs.Prelude.{◌≡◌, length, map, replicate, string_bytes};
ghost use Rattle.bench.specs.Words.{detail_asked};
ghost use Rattle.rules.specs.Promises.{Given, start};

use board::Board;
use cipher::{Aes128, BlockCipher, Ccm};
use fault::Fault;
use listing::{Detail, replay_listing};
use memory::{LentImage, MAP_SIZE, check_size, sized};
use std::env;
use std::io::{BufReader, ErrorKind};
use std::process::ExitCode;

// The board that a listing begins on: a fresh one, with the image all 0xFF and keys of zeros.
fn first_board(image: &mut [u8; MAP_SIZE]) -> Board<LentImage<'_>, Ccm<Aes128>>
    ensures { (g : Given) → g.image ≡ replicate (length image.old) 0xFF → g.data_key_bytes ≡ replicate 16 0 → g.kek_bytes ≡ replicate 16 0 → result ≡ start g }
{
    image.fill(0xFF);
    Board::fresh(image, [0; 16], [0; 16])
}

// Replays the listing on standard input on a fresh board, and prints its rows.
fn replay_input(rt: &HostRuntime, detail: Detail) -> anyhow::Result<()> {
    let mut image = vec![in rt.alloc(); 0u8; MAP_SIZE]?;
    check_size(&image)?;
    let image = sized(&mut image).ok_or(Fault::ImageSize)?;
    let board = first_board(image);
    let mut input = BufReader::new(rt.alloc(), rt.stdin())?;
    let memory = replay_listing(rt.alloc(), board, detail, &mut input, &mut rt.stdout())?;
    let (_image, _held, _supply) = memory.into_parts();
    Ok(())
}

// What the rows are to show of refusals; none where the words behind the program's name are no option.
fn detail_of(words: &[String]) -> Option<Detail>
    ensures { result ≡ detail_asked (map string_bytes words.now) }
{
    match words {
        [] => Some(Detail::Number),
        [word] if word.as_str() == "--places" => Some(Detail::Place),
        _ => None,
    }
}

// The program's name and the words behind it; nothing where one of them is not UTF-8.
fn words(rt: &HostRuntime) -> anyhow::Result<Vec<String>> {
    match env::args(rt) {
        Ok(words) => Ok(words.collect(rt.alloc())?),
        Err(error) if matches!(error.kind(), ErrorKind::InvalidData) => Ok(Vec::new(rt.alloc())),
        Err(error) => Err(error.into()),
    }
}

fn main(rt: HostRuntime) -> anyhow::Result<ExitCode> {
    let words = words(&rt)?;
    let Some(detail) = detail_of(words.get(1..).unwrap_or(&[])) else {
        eprintln!(rt; "usage: bench [--places] < LISTING")?;
        return Ok(ExitCode::FAILURE);
    };
    replay_input(&rt, detail)?;
    Ok(ExitCode::SUCCESS)
}
