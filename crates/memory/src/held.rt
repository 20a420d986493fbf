// The held record: the firmware version, the unfinished mark and the key table.
ghost use Rattle.std.specs.Prelude.{◌≡◌, ℕ, ◌≢◌, ◌<◌, length, slice_index_or};
ghost use Rattle.std.specs.Borrow.{sem};
ghost use Rattle.memory.specs.Lending.{LendsRecord};
ghost use Rattle.memory.specs.Held.{slot_place, slot_of, held_key, fresh_held};

use fault::Fault;

#[derive(Clone, Copy)]
pub struct KeyRecord {
    pub key: [u8; 16],
    pub version: u8,
}

// The data key, or the key-encryption key.
#[derive(Clone, Copy)]
pub enum KeySlot {
    Data,
    Kek,
}

#[derive(Clone, Copy)]
pub struct Held {
    pub version: u8,
    // The unfinished mark: set while an update is under way.
    pub unfinished: bool,
    pub keys: [KeyRecord; 2],
}

impl KeySlot {
    // The slot's place in the key table.
    pub fn place(&self) -> usize
        ensures { result ≡ slot_place self.now }
    {
        match self {
            KeySlot::Data => 0,
            KeySlot::Kek => 1,
        }
    }
}

// The slot of a key packet's type.
impl TryFrom<u8> for KeySlot {
    type Error = Fault;

    ghost try_from_gives = { λ key_type outcome. outcome ≡ slot_of key_type };

    fn try_from(key_type: u8) -> Result<KeySlot, Fault> {
        match key_type {
            0 => Ok(KeySlot::Data),
            2 => Ok(KeySlot::Kek),
            _ => Err(Fault::BadKeyType(key_type)),
        }
    }
}

// Lends the key record of a slot, out of a key table.
fn lent_record(keys: &mut [KeyRecord], slot: KeySlot) -> &mut KeyRecord
    requires { 1 < length keys.old }
    ensures* { sem 𝓛 (LendsRecord keys.entry slot result) }
{
    &mut keys[slot.place()]
}

impl Held {
    // What a new board holds: version 0, no mark, two keys of version 0.
    pub fn fresh(data: [u8; 16], kek: [u8; 16]) -> Held
        ensures { result ≡ fresh_held «data» kek }
    {
        let data = KeyRecord {
            key: data,
            version: 0,
        };
        let kek = KeyRecord {
            key: kek,
            version: 0,
        };
        Held {
            version: 0,
            unfinished: false,
            keys: [data, kek],
        }
    }

    // Replaces the key record of a slot; the other one, version and mark stay.
    pub(crate) fn put_key(&mut self, slot: KeySlot, record: KeyRecord)
        ensures after { self.new ≡ held_key slot «record» self.old }
        ensures other { (k : ℕ) (d : KeyRecord) → (k ≢ slot_place slot) → slice_index_or self.new.keys k d ≡ slice_index_or self.old.keys k d }
        ensures version { self.new.version ≡ self.old.version }
        ensures mark { self.new.unfinished ≡ self.old.unfinished }
    {
        *lent_record(&mut self.keys, slot) = record;
    }
}
