// vectors: reads cases for the ciphers and the packer from standard input, one to a line, and prints what each gives.
#![tactic(auto)]

mod answers;
mod cases;
mod stream;
mod texts;
mod words;

use std::io::BufReader;
use stream::answer_lines;

fn main(rt: HostRuntime) -> anyhow::Result<()> {
    let input = BufReader::new(rt.alloc(), rt.stdin())?;
    answer_lines(rt.alloc(), input, &mut rt.stdout())?;
    Ok(())
}
