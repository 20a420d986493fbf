// pack: seals one packet into its frame, opens the frame again, and prints it.
#![tactic(auto)]

ghost use Rattle.std.specs.Prelude.{◌≡◌, false, is_ok};
ghost use Rattle.pack.specs.Showing.{key_name};

mod arguments;
mod failure;
mod frames;
mod reopened;
mod report;
mod usage;

use anyhow::anyhow;
use failure::Failure;
use report::{Packet, Report, report_of};
use std::env;
use std::process::ExitCode;
use text::lines::HexLines;

// The name of a key's type.
fn key_name(kind: u8) -> &'static str
    ensures { result.now ≡ key_name kind }
{
    match kind {
        0 => "data key",
        2 => "key-encryption key",
        _ => "key of an unknown type",
    }
}

// Prints what was packed, and the frame.
fn show(rt: &HostRuntime, report: &Report) -> anyhow::Result<()> {
    let bytes = report.frame.as_slice();
    let length = bytes.len();
    match report.packet {
        Packet::Data(a, count) => println!(rt;
            "Packed data packet {} of {} of version {}: {count} bytes for 0x{:05X}, sealed with {}, in a frame of {length} bytes:",
            a.number, a.count, a.version, a.address, a.mode
        )?,
        Packet::Key(a) => println!(rt;
            "Packed a key packet: {} of version {}, sealed with {}, in a frame of {length} bytes:",
            key_name(a.kind),
            a.version,
            a.mode
        )?,
    }
    let lines = HexLines { bytes };
    println!(rt; "{lines}")?;
    println!(rt; "The frame opened again to the same contents.")?;
    Ok(())
}

// Says why there is no frame: what is malformed on standard error, else on standard output. Ends in an error.
fn tell(rt: &HostRuntime, failure: Failure) -> anyhow::Result<()>
    ensures { is_ok result ≡ false }
{
    match failure {
        Failure::Malformed(_, _) => eprintln!(rt; "{failure}")?,
        Failure::Refused(_) | Failure::NotOpened => println!(rt; "{failure}")?,
    }
    Err(anyhow!("no frame"))
}

// Says what the words come to; an error where there is no frame.
fn run(rt: &HostRuntime) -> anyhow::Result<()> {
    let words: Vec<String> = env::args(rt)?.collect(rt.alloc())?;
    match report_of(rt.alloc(), &words)? {
        Ok(report) => show(rt, &report),
        Err(failure) => tell(rt, failure),
    }
}

// Why there is no frame has been told. Without memory, or where nothing can be written, the status alone tells of it.
fn main(rt: HostRuntime) -> ExitCode {
    match run(&rt) {
        Ok(()) => ExitCode::SUCCESS,
        Err(_) => ExitCode::FAILURE,
    }
}
