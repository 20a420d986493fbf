// Lines and rows of listings, and listings replayed from readers to writers that fail in the middle.
use board::Board;
use cipher::{Aes128, BlockCipher, Ccm};
use fault::Fault;
use listing::{Detail, read_line, replay_listing, write_row};
use memory::{LentImage, MAP_SIZE, Powered, Supply, sized};
use rules::{Boot, Event};
use std::io::{self, BufRead, BufReader, Read, Write};
use std::test::Fail;

// A line that asks a boot question.
const QUESTION: &[u8; 13] = b"Q          0\n";

// Gives boot questions up to a byte, and then only errors.
#[derive(Drop)]
struct FailingReader {
    given: usize,
    end: usize,
}

impl Read for FailingReader {
    fn read(&mut self, buf: &mut [u8]) -> io::Result<usize> {
        let Some(left @ 1..) = self.end.checked_sub(self.given) else {
            return Err(io::Error::other("reading fails"));
        };
        let count = buf.len().min(left);
        for (i, b) in buf[..count].iter_mut().enumerate() {
            *b = QUESTION[self.given.wrapping_add(i) % 13];
        }
        self.given = self.given.wrapping_add(count);
        Ok(count)
    }
}

// Takes so many bytes, and then fails.
#[derive(Drop)]
struct FailingWriter {
    room: usize,
}

impl Write for FailingWriter {
    fn write(&mut self, buf: &[u8]) -> io::Result<usize> {
        if self.room == 0 {
            return Err(io::Error::other("writing fails"));
        }
        let count = buf.len().min(self.room);
        self.room -= count;
        Ok(count)
    }

    fn flush(&mut self) -> io::Result<()> {
        Ok(())
    }
}

// Whether a replay on a fresh board answers Ok.
fn replays<R: BufRead, W: Write>(
    rt: &HostRuntime,
    input: &mut R,
    output: &mut W,
) -> Result<bool, Fail> {
    let mut image = vec![in rt.alloc(); 0xFFu8; MAP_SIZE]?;
    let image = sized(&mut image).ok_or(Fault::ImageSize)?;
    let board: Board<LentImage<'_>, Ccm<Aes128>> = Board::fresh(image, [0; 16], [0; 16]);
    Ok(replay_listing(rt.alloc(), board, Detail::Number, input, output).is_ok())
}

#[test]
fn a_read_error_in_the_middle_is_an_error(rt: HostRuntime) -> Result<(), Fail> {
    let mut out = Vec::new(rt.alloc());
    // in a line, and behind one
    for end in [130_006, 130_000] {
        let reader = FailingReader { given: 0, end };
        let mut input = BufReader::new(rt.alloc(), reader)?;
        assert!(rt; !replays(&rt, &mut input, &mut out)?);
        assert!(rt; !replays(&rt, &mut input, &mut out)?);
    }
    Ok(())
}

#[test]
fn a_write_error_in_the_middle_is_an_error(rt: HostRuntime) -> Result<(), Fail> {
    let listing = b"Q          0\nX\n";
    let mut input = Vec::new(rt.alloc());
    for _ in 0..5000 {
        input.extend_from_slice(listing)?;
    }
    // whose rows have 130,000 bytes
    for room in [0, 1, 70_000, 129_999] {
        let mut output = FailingWriter { room };
        assert!(rt; !replays(&rt, &mut input.as_slice(), &mut output)?);
        assert!(rt; !replays(&rt, &mut input.as_slice(), &mut output)?);
    }
    assert!(rt;
        replays(
            &rt,
            &mut input.as_slice(),
            &mut FailingWriter { room: 130_000 }
        )?
    );
    Ok(())
}

#[test]
fn reads_lines(rt: HostRuntime) {
    assert!(rt; matches!(read_line(b"B        255"), Ok(Event::Byte(255, 11, 266))));
    assert!(rt; matches!(read_line(b"S00000000000"), Ok(Event::Silence)));
    assert!(rt;
        matches!(
            read_line(b"R 4294967295"),
            Ok(Event::PowerUp(Supply::NoEnd))
        )
    );
}

#[test]
fn refuses_malformed_lines(rt: HostRuntime) {
    let lines: [&[u8]; 6] = [
        b"B        256",
        b"Q          1",
        b"R 4294967296",
        b"R         1 ",
        b"R           ",
        b"R           1",
    ];
    for line in lines {
        assert!(rt; read_line(line).is_err());
    }
}

#[test]
fn writes_rows(rt: HostRuntime) -> Result<(), Fail> {
    let mut out = Vec::new(rt.alloc());
    write_row(&mut out, Detail::Number, 6, None, None, &[0, 128, 5])?;
    write_row(&mut out, Detail::Number, 7, None, Some(Boot::Blank), &[])?;
    write_row(
        &mut out,
        Detail::Number,
        1_000_010,
        Some(Fault::NoHeader(1)),
        None,
        &[81],
    )?;
    write_row(
        &mut out,
        Detail::Place,
        1,
        Some(Fault::NoHeader(7)),
        None,
        &[81],
    )?;
    write_row(&mut out, Detail::Place, 2, Some(Fault::BadLine), None, &[])?;
    write_row(&mut out, Detail::Place, 3, None, Some(Boot::Blank), &[])?;
    write_row(
        &mut out,
        Detail::Place,
        4,
        Some(Fault::OutsideArea(0x0100_00FE)),
        None,
        &[],
    )?;
    let rows =
        b"     6   0   0 128   5\n     7   0   2\n    10  81  81\n     1  81 frame            7  81\n     2   8 call             0\n     3   0 -                0   2\n     4  23 memory    16777470\n";
    assert_eq!(rt; out.as_slice(), &rows[..]);
    Ok(())
}
