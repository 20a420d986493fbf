// What is cut, and what is sent again after the cut: as lists of calls.
ghost use Rattle.std.specs.Prelude.{◌≡◌, ℕ, ◌<◌, ◌++◌, IfErr, IfOk, OnErr, OnOk};
ghost use Rattle.example.specs.Frames.{erase_calls};
ghost use Rattle.sweep.specs.Plans.{key_calls, parts_calls, update_calls};

use cipher::{Aes128, BlockCipher, Ccm};
use example::{COUNT, pack_part, push_erase, push_frame};
use packer::{KeyPacket, pack_key};
use rules::Event;
use std::alloc::Global;

pub const KEY: [u8; 16] = [7; 16];

pub const KEK: [u8; 16] = [9; 16];

// The key that a key update brings.
const NEW_KEY: [u8; 16] = [11; 16];

const KEY_IV: [u8; 16] = [1, 1, 2, 3, 5, 8, 13, 21, 34, 55, 89, 144, 0, 0, 0, 0];

#[derive(Drop)]
pub struct Plan {
    pub name: &'static str,
    pub cut: Vec<Event>,
    pub again: Vec<Event>,
}

// Adds the calls that send the update of version 2, sealed under a key; without memory for all of them, those of its first parts.
fn push_update(events: &mut Vec<Event>, key: &[u8; 16]) -> anyhow::Result<()>
    ensures all { OnOk result (events.new.items ≡ events.old.items ++ update_calls key.now) }
    ensures some { IfErr result (λ _. (n : ℕ) × (n < 3) × (events.new.items ≡ events.old.items ++ parts_calls key.now n)) }
{
    for number in 1..COUNT + 1 {
        let frame = pack_part(key, 2, number)?;
        push_frame(events, frame.as_slice())?;
    }
    Ok(())
}

// Adds the calls that send the new key; without memory for them nothing is added.
fn push_key(events: &mut Vec<Event>) -> anyhow::Result<()>
    ensures all { OnOk result (events.new.items ≡ events.old.items ++ key_calls) }
    ensures none { OnErr result (events.new.items ≡ events.old.items) }
{
    let packet = KeyPacket {
        kind: 0,
        version: 1,
        key: NEW_KEY,
    };
    let mut frame = [0; 56];
    let length = pack_key::<Ccm<Aes128>>(&KEK, &KEY_IV, &packet, &mut frame)?;
    push_frame(events, &frame[..length])?;
    Ok(())
}

// An update over an old program; the update is sent again.
pub(crate) fn update_plan(heap: Global) -> anyhow::Result<Plan>
    ensures cut { IfOk result (λ plan. plan.cut.items ≡ update_calls KEY) }
    ensures again { IfOk result (λ plan. plan.again.items ≡ update_calls KEY) }
{
    let mut cut = Vec::new(heap);
    push_update(&mut cut, &KEY)?;
    let again = cut.clone()?;
    Ok(Plan {
        name: "an update over an old program",
        cut,
        again,
    })
}

// A new data key; the key is sent again, and an update under it.
pub(crate) fn key_plan(heap: Global) -> anyhow::Result<Plan>
    ensures cut { IfOk result (λ plan. plan.cut.items ≡ key_calls) }
    ensures again { IfOk result (λ plan. plan.again.items ≡ key_calls ++ update_calls NEW_KEY) }
{
    let mut cut = Vec::new(heap);
    push_key(&mut cut)?;
    let mut again = cut.clone()?;
    push_update(&mut again, &NEW_KEY)?;
    Ok(Plan {
        name: "a key update",
        cut,
        again,
    })
}

// A mass erase; an update is sent.
pub(crate) fn erase_plan(heap: Global) -> anyhow::Result<Plan>
    ensures cut { IfOk result (λ plan. plan.cut.items ≡ erase_calls) }
    ensures again { IfOk result (λ plan. plan.again.items ≡ update_calls KEY) }
{
    let mut cut = Vec::new(heap);
    push_erase(&mut cut)?;
    let mut again = Vec::new(heap);
    push_update(&mut again, &KEY)?;
    Ok(Plan {
        name: "a mass erase",
        cut,
        again,
    })
}
