// Rows of the listing: what is printed for each answer. By hand, since no clause of `write!` says that it writes where there is room.
// `Room` stands in each contract with a count of its own: a type around the buffer would have to say after each call how much of it is left.
ghost use Rattle.std.specs.Prelude.{◌≡◌, ◌+◌, ◌-◌, ◌*◌, ◌%◌, ◌^◌, ◌<◌, ◌≤◌, min, true, ◌++◌, length, replicate, is_ok, if◌then◌else◌, vec_len, vec_capacity};
ghost use Rattle.listing.specs.Appends.{Appended, Room};
ghost use Rattle.listing.specs.declared.rows.Detail.TheVariants.{Place};
ghost use Rattle.listing.specs.Rows.{answer_of, detail_columns, detail_width, in_four_columns, left_justified, refusal_layer, refusal_number, refusal_place, right_justified, row, said_number};

use fault::Fault;
use rules::Boot;
use std::alloc::AllocError;

// What a row shows of a refusal.
#[derive(Clone, Copy)]
pub enum Detail {
    // Its number alone.
    Number,
    // Its number, layer and place.
    Place,
}

// Appends spaces, for which there is room.
fn push_spaces(out: &mut Vec<u8>, count: usize)
    requires { Room out.old count }
    ensures { Appended out.old out.new count (replicate count 32) }
{
    for _ in 0..count {
        out.push_reserved(b' ');
    }
}

// Appends a number that ends in the last of `width` columns, where it has no more digits and there is room.
fn push_number(out: &mut Vec<u8>, width: usize, number: u32)
    requires some { 0 < width }
    requires fits { number < 10 ^ width }
    requires room { Room out.old width }
    ensures { Appended out.old out.new width (right_justified width number) }
{
    if number < 10 {
        push_spaces(out, width - 1);
    } else {
        push_number(out, width - 1, number / 10);
    }
    out.push_reserved(b'0' + (number % 10) as u8);
}

// Appends an event's number modulo 1,000,000 in six columns, for which there is room.
fn push_event(out: &mut Vec<u8>, number: u64)
    requires { Room out.old 6 }
    ensures { Appended out.old out.new 6 (right_justified 6 (number % 1000000)) }
{
    push_number(out, 6, (number % 1_000_000) as u32);
}

// Appends a byte in four columns, for which there is room.
fn push_byte(out: &mut Vec<u8>, byte: u8)
    requires { Room out.old 4 }
    ensures { Appended out.old out.new 4 (right_justified 4 byte) }
{
    push_number(out, 4, u32::from(byte));
}

// Appends bytes in four columns each, for which there is room.
fn push_bytes(out: &mut Vec<u8>, bytes: &[u8])
    requires { Room out.old (4 * length bytes.now) }
    ensures { Appended out.old out.new (4 * length bytes.now) (in_four_columns bytes.now) }
{
    for b in bytes {
        push_byte(out, *b);
    }
}

// Appends the number of what a boot question says, for which there is room; nothing where it says nothing.
fn push_said(out: &mut Vec<u8>, boot: Option<Boot>)
    requires { Room out.old (4 * length (said_number boot)) }
    ensures { Appended out.old out.new (4 * length (said_number boot)) (in_four_columns (said_number boot)) }
{
    if let Some(said) = boot {
        push_byte(out, said.number());
    }
}

// The number of a refusal, 0 for none.
fn refusal_number(refusal: Option<Fault>) -> u8
    ensures { result ≡ refusal_number refusal }
{
    refusal.map_or(0, |fault| fault.number())
}

// The name of the layer that refused, a hyphen for none.
fn refusal_layer(refusal: Option<Fault>) -> &'static str
    ensures { result.now ≡ refusal_layer refusal }
{
    refusal.map_or("-", |fault| fault.layer().name())
}

// The place of a refusal, 0 for none.
fn refusal_place(refusal: Option<Fault>) -> u32
    ensures { result ≡ refusal_place refusal }
{
    refusal.map_or(0, |fault| fault.place())
}

// Appends a name that begins in the first of `width` columns, for which there is room.
fn push_name(out: &mut Vec<u8>, width: usize, name: &str)
    requires fits { length name.now ≤ width }
    requires room { Room out.old width }
    ensures { Appended out.old out.new width (left_justified width name.now) }
{
    for b in name.as_bytes() {
        out.push_reserved(*b);
    }
    push_spaces(out, width - name.len());
}

// Appends layer and place of a refusal, for which there is room.
fn push_place(out: &mut Vec<u8>, refusal: Option<Fault>)
    requires { Room out.old 19 }
    ensures { Appended out.old out.new 19 (detail_columns Place refusal) }
{
    out.push_reserved(b' ');
    push_name(out, 7, refusal_layer(refusal));
    push_number(out, 11, refusal_place(refusal));
}

// The columns that what stands behind a refusal's number takes.
fn detail_width(detail: Detail) -> usize
    ensures { result ≡ detail_width detail }
{
    match detail {
        Detail::Number => 0,
        Detail::Place => 19,
    }
}

// Appends what is shown behind a refusal's number, for which there is room.
fn push_detail(out: &mut Vec<u8>, detail: Detail, refusal: Option<Fault>)
    requires { Room out.old (detail_width detail) }
    ensures { Appended out.old out.new (detail_width detail) (detail_columns detail refusal) }
{
    if let Detail::Place = detail {
        push_place(out, refusal);
    }
}

// The length of a row; 2^64 - 1 where it is above.
fn row_length(detail: Detail, boot: Option<Boot>, sent: &[u8]) -> usize
    ensures { result ≡ min (11 + detail_width detail + 4 * (length (said_number boot) + length sent.now)) (2 ^ 64 - 1) }
{
    sent.len()
        .saturating_add(usize::from(boot.is_some()))
        .saturating_mul(4)
        .saturating_add(11 + detail_width(detail))
}

// Appends the row of an event's number and its answer; changes nothing where there is no memory.
pub fn write_row(
    out: &mut Vec<u8>,
    detail: Detail,
    number: u64,
    refusal: Option<Fault>,
    boot: Option<Boot>,
    sent: &[u8],
) -> Result<(), AllocError>
    ensures items { out.new.items ≡ (if is_ok result then out.old.items ++ row detail number (answer_of refusal boot sent.now) else out.old.items) }
    ensures succeeds { vec_len out.old + length (row detail number (answer_of refusal boot sent.now)) ≤ vec_capacity out.old → is_ok result ≡ true }
{
    out.reserve(row_length(detail, boot, sent))?;
    push_event(out, number);
    push_byte(out, refusal_number(refusal));
    push_detail(out, detail, refusal);
    push_said(out, boot);
    push_bytes(out, sent);
    out.push_reserved(b'\n');
    Ok(())
}
