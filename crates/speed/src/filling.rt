// A plain fill of an image, which a mass erase is measured against.
ghost use Rattle.std.specs.Prelude.{◌≡◌, ◌==◌, ◌%◌, ◌↔◌, IsTrue, cond, length, replicate};
ghost use Rattle.std.specs.List.{All};

#[inline(never)]
fn fill(image: &mut [u8], byte: u8)
    ensures { image.new ≡ replicate (length image.old) byte }
{
    image.fill(byte);
}

// Fills an image so many times, each time with another byte: of fills with the same one the compiler makes only the first.
pub fn fills(image: &mut [u8], turns: u32)
    ensures { image.new ≡ cond (turns == 0) image.old (replicate (length image.old) (turns % 256)) }
{
    for turn in 0..turns {
        fill(image, ((turn + 1) % 256) as u8);
    }
}

// Whether all bytes of an image are this one.
pub fn is_filled(image: &[u8], byte: u8) -> bool
    ensures { IsTrue result ↔ All (λ b. b ≡ byte) image.now }
{
    image.iter().all(|b| *b == byte)
}
