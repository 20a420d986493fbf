// What a packet says, before it is sealed.
ghost use Rattle.std.specs.Prelude.{◌≡◌};
ghost use Rattle.packer.specs.Packets.{data_header, key_contents};

// Part `number` of the `count` packets of an update: bytes that are stored from an address on.
#[derive(Clone, Copy)]
pub struct DataPacket<'a> {
    pub version: u8,
    pub number: u16,
    pub count: u16,
    pub address: u32,
    pub bytes: &'a [u8],
}

impl DataPacket<'_> {
    // What stands before the data: VER, PN, NP, RSV 0, address.
    pub fn header(&self) -> [u8; 10]
        ensures { result ≡ data_header self.now }
    {
        let [pn_low, pn_high] = self.number.to_le_bytes();
        let [np_low, np_high] = self.count.to_le_bytes();
        let [low, middle, high, _] = self.address.to_le_bytes();
        [
            self.version,
            pn_low,
            pn_high,
            np_low,
            np_high,
            0,
            0,
            low,
            middle,
            high,
        ]
    }
}

// A key with its version. Type 0 is the data key, type 2 the key-encryption key; the type is a byte, since any can be packed.
#[derive(Clone, Copy)]
pub struct KeyPacket {
    pub kind: u8,
    pub version: u8,
    pub key: [u8; 16],
}

impl KeyPacket {
    // What is sealed: KT, KV, the key.
    pub fn contents(&self) -> [u8; 18]
        ensures { result ≡ key_contents self.now }
    {
        let mut contents = [0; 18];
        contents[0] = self.kind;
        contents[1] = self.version;
        contents[2..].copy_from_slice(&self.key);
        contents
    }
}
