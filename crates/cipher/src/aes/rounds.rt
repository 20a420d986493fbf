// The rounds, on columns.
ghost use Rattle.std.specs.Prelude.{◌≡◌, [], ◌∷◌};
ghost use Rattle.cipher.specs.Bytes.{word_bytes};
ghost use Rattle.cipher.specs.Aes.{sub, mix, round, last_round, turn, next_key};
ghost use Rattle.cipher.specs.Columns.{flat, Shifted};

use crate::aes::columns::Columns;
use crate::aes::table::{substituted, term, third_term};

// A column of MixColumns, of its bytes before SubBytes.
fn mixed(a: u8, b: u8, c: u8, d: u8) -> u32
    ensures { word_bytes result ≡ mix (sub a) (sub b) (sub c) (sub d) }
{
    (term(a) ^ third_term(c)) ^ (term(b) ^ third_term(d)).rotate_right(8)
}

// A column of the last round, which has no MixColumns.
fn unmixed(a: u8, b: u8, c: u8, d: u8) -> u32
    ensures { word_bytes result ≡ sub a ∷ sub b ∷ sub c ∷ sub d ∷ [] }
{
    u32::from_be_bytes([
        substituted(a),
        substituted(b),
        substituted(c),
        substituted(d),
    ])
}

// Makes each column by `column`, of the bytes that ShiftRows brings there.
fn shifted<F: Fn(u8, u8, u8, u8) -> u32>(s: Columns, column: F) -> Columns
    requires { F.IsAlwaysCallable column }
    ensures { Shifted (F.post column) s result }
{
    let a = s.a.to_be_bytes();
    let b = s.b.to_be_bytes();
    let c = s.c.to_be_bytes();
    let d = s.d.to_be_bytes();
    Columns {
        a: column(a[0], b[1], c[2], d[3]),
        b: column(b[0], c[1], d[2], a[3]),
        c: column(c[0], d[1], a[2], b[3]),
        d: column(d[0], a[1], b[2], c[3]),
    }
}

pub(crate) fn step(s: Columns, k: Columns) -> Columns
    ensures { flat result ≡ round (flat k) (flat s) }
{
    shifted(s, mixed) ^ k
}

pub(crate) fn last_step(s: Columns, k: Columns) -> Columns
    ensures { flat result ≡ last_round (flat k) (flat s) }
{
    shifted(s, unmixed) ^ k
}

fn turned(d: u32, constant: u8) -> u32
    ensures { word_bytes result ≡ turn constant (word_bytes d) }
{
    let [p, q, r, s] = d.to_be_bytes();
    u32::from_be_bytes([
        substituted(q) ^ constant,
        substituted(r),
        substituted(s),
        substituted(p),
    ])
}

pub(crate) fn next_round_key(k: Columns, constant: u8) -> Columns
    ensures { flat result ≡ next_key constant (flat k) }
{
    let a = k.a ^ turned(k.d, constant);
    let b = k.b ^ a;
    let c = k.c ^ b;
    Columns {
        a,
        b,
        c,
        d: k.d ^ c,
    }
}
