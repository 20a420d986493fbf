// What is measured, in turns of so many pieces: how many of them were done, and how long the turn took.
ghost use Rattle.std.specs.Prelude.{◌≡◌, ◌≢◌, ◌<◌, min, replicate, IfOk, Some};
ghost use Rattle.rules.specs.Promises.{Given};
ghost use Rattle.speed.specs.Sending.{erases_calls, obeyed_of, first_packet_calls};
ghost use Rattle.speed.specs.Works.{work_name};
ghost use Rattle.speed.specs.declared.work.Work.TheVariants.{Packet, Erase};

use crate::calling::obey;
use crate::filling::{fills, is_filled};
use crate::opening::{full_body, opens};
use crate::sending::{erases, updates};
use board::Board;
use cipher::{Aes128, BlockCipher, Ccm, Gcm, PacketCipher};
use memory::{LentImage, MAP_SIZE, Memory, Powered};
use rules::Event;
use std::fmt;
use std::time::Instant;

const KEY: [u8; 16] = [7; 16];

const KEK: [u8; 16] = [9; 16];

const CCM_IV: [u8; 16] = [1, 2, 3, 4, 5, 6, 7, 8, 9, 10, 11, 12, 13, 14, 0, 0];

const GCM_IV: [u8; 16] = [1, 2, 3, 4, 5, 6, 7, 8, 9, 10, 11, 12, 0, 0, 0, 1];

#[derive(Clone, Copy)]
pub enum Work {
    // Opening a packet of full size.
    OpenCcm,
    OpenGcm,
    // The byte calls of a full data packet, which is stored.
    Packet,
    // The byte calls of a mass erase.
    Erase,
    // A plain fill of an image.
    Fill,
}

pub const ALL: [Work; 5] = [
    Work::OpenCcm,
    Work::OpenGcm,
    Work::Packet,
    Work::Erase,
    Work::Fill,
];

#[derive(Clone, Copy)]
pub struct Turn {
    pub done: usize,
    pub nanoseconds: u128,
}

// Opens a packet of full size so many times.
fn open<C: PacketCipher>(rt: &HostRuntime, iv: &[u8; 16], pieces: u32) -> anyhow::Result<Turn>
    ensures { IfOk result (λ turn. turn.done ≡ pieces) }
{
    C::check_iv(iv)?;
    let body = full_body::<C>(&KEY, iv);
    let start = Instant::now(rt)?;
    let done = opens::<C>(&KEY, iv, &body, pieces);
    Ok(Turn {
        done: done as usize,
        nanoseconds: start.elapsed(rt)?.as_nanos(),
    })
}

// Makes calls on a fresh board over an image.
fn call(rt: &HostRuntime, image: &mut [u8; MAP_SIZE], calls: &[Event]) -> anyhow::Result<Turn>
    ensures { (g : Given) → g.image ≡ image.old → g.data_key_bytes ≡ replicate 16 7 → g.kek_bytes ≡ replicate 16 9 → IfOk result (λ turn. turn.done ≡ obeyed_of g calls.now) }
{
    let mut board: Board<LentImage, Ccm<Aes128>> = Board::fresh(image, KEY, KEK);
    let start = Instant::now(rt)?;
    let done = obey(rt.alloc(), &mut board, calls)?;
    Ok(Turn {
        done,
        nanoseconds: start.elapsed(rt)?.as_nanos(),
    })
}

// Fills an image so many times.
fn fill(rt: &HostRuntime, image: &mut [u8], pieces: u32) -> anyhow::Result<Turn>
    ensures { IfOk result (λ turn. turn.done ≡ pieces) }
{
    let start = Instant::now(rt)?;
    fills(image, pieces);
    let nanoseconds = start.elapsed(rt)?.as_nanos();
    let done = if is_filled(image, (pieces % 256) as u8) {
        pieces as usize
    } else {
        0
    };
    Ok(Turn { done, nanoseconds })
}

impl fmt::Display for Work {
    ghost output = { λ work. Some (work_name work) };

    fn fmt<W: fmt::Write>(&self, f: &mut fmt::Formatter<W>) -> fmt::Result {
        f.write_str(match self {
            Work::OpenCcm => "open-ccm",
            Work::OpenGcm => "open-gcm",
            Work::Packet => "packet",
            Work::Erase => "erase",
            Work::Fill => "fill",
        })
    }
}

impl Work {
    // How many pieces make a turn that is long enough to be measured: of packets at most 255, one for each version.
    pub fn pieces(self) -> u32
        ensures { 0 < result }
    {
        match self {
            Work::OpenCcm | Work::OpenGcm => 100_000,
            Work::Packet => 255,
            Work::Erase => 200,
            Work::Fill => 10_000,
        }
    }

    // Does so many pieces, on an image as long as the map; of packets at most 255, one for each version.
    pub fn turn(
        self,
        rt: &HostRuntime,
        image: &mut [u8; MAP_SIZE],
        pieces: u32,
    ) -> anyhow::Result<Turn>
        ensures all { IfOk result (λ turn. self ≢ Packet → self ≢ Erase → turn.done ≡ pieces) }
        ensures obeyed { (g : Given) → g.image ≡ image.old → g.data_key_bytes ≡ replicate 16 7 → g.kek_bytes ≡ replicate 16 9 → IfOk result (λ turn. (self ≡ Packet → turn.done ≡ obeyed_of g (first_packet_calls (replicate 16 7) (min pieces 255))) × (self ≡ Erase → turn.done ≡ obeyed_of g (erases_calls pieces))) }
    {
        match self {
            Work::OpenCcm => open::<Ccm<Aes128>>(rt, &CCM_IV, pieces),
            Work::OpenGcm => open::<Gcm<Aes128>>(rt, &GCM_IV, pieces),
            Work::Packet => {
                let calls = updates(rt.alloc(), &KEY, pieces.min(255) as u8)?;
                call(rt, image, &calls)
            }
            Work::Erase => call(rt, image, &erases(rt.alloc(), pieces)?),
            Work::Fill => fill(rt, image, pieces),
        }
    }
}
