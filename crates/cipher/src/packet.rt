// Packet ciphers behind one interface. A packet's contents have 0 to 266 bytes, its body 16 more.
ghost use Rattle.std.specs.Prelude.{◌≡◌, ◌-◌, ◌≤◌, true, length, take};
ghost use Rattle.fault.specs.Checks.{then};
ghost use Rattle.cipher.specs.Cipher.{Cipher, Lawful, iv_checked, opened_to, opening, yielded};

use fault::Fault;

// Key and IV are two parameters: in the board a key is held, and an IV arrives with its packet.
pub trait PacketCipher {
    ghost cipher: { Cipher };

    // Refuses an IV that is not well formed, at its first wrong byte.
    fn check_iv(iv: &[u8; 16]) -> Result<(), Fault>
        ensures { result ≡ iv_checked cipher iv.now };

    // Seals in place: `out` holds the contents, and behind them 16 bytes for the tag.
    fn seal(key: &[u8; 16], iv: &[u8; 16], out: &mut [u8])
        requires formed { cipher.well_formed iv.now ≡ true }
        requires low { 16 ≤ length out.old }
        requires high { length out.old ≤ 282 }
        ensures { out.new ≡ cipher.seal key.now iv.now (take (length out.old - 16) out.old) };

    // Opens a body into `work`, and says how many bytes its contents have: a count, since they lie in the caller's own buffer. The bytes
    // behind them are wiped. Refuses an IV that is not well formed, then a body that does not open, and wipes all of them.
    fn open(
        key: &[u8; 16],
        iv: &[u8; 16],
        body: &[u8],
        work: &mut [u8; 266],
    ) -> Result<usize, Fault>
        ensures answer { result ≡ then (iv_checked cipher iv.now) (opening (cipher.opened key.now iv.now body.now)) }
        ensures work { work.new ≡ yielded (opened_to cipher key.now iv.now body.now) };

    ghost lawful: { Lawful cipher };
}
