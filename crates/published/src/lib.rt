// The published vectors, as tests: FIPS 197, the authors' test cases for GCM, and the worked commands of the protocol guide; and the table of
// refusals in docs/RULES.md.
#![tactic(auto)]

#[cfg(test)]
mod tests {
    use cipher::{Aes128, BlockCipher, Ccm, Gcm, PacketCipher};
    use packer::{KeyPacket, pack_key};
    use std::alloc::Global;
    use std::process::Abort;
    use std::test::Fail;
    use text::hex::{hex_block, hex_bytes};

    // A key and a block, and what the block cipher makes of them.
    struct BlockCase<'a> {
        key: &'a str,
        plain: &'a str,
        encrypted: &'a str,
    }

    // A key, an IV and contents, and the body that they seal to.
    struct SealCase<'a> {
        key: &'a str,
        iv: &'a str,
        contents: &'a str,
        body: &'a str,
    }

    fn block(text: &str) -> Result<[u8; 16], Fail> {
        Ok(hex_block(text.as_bytes()).ok_or("32 digits")?)
    }

    fn bytes(heap: Global, text: &str) -> Result<Vec<u8>, Fail> {
        Ok(hex_bytes(heap, text.as_bytes())?.ok_or("digits in pairs")?)
    }

    fn encrypts(rt: &impl Abort, case: &BlockCase<'_>) -> Result<(), Fail> {
        let mut data = block(case.plain)?;
        Aes128::new(&block(case.key)?).encrypt(&mut data);
        assert!(rt; data == block(case.encrypted)?);
        Ok(())
    }

    // Seals the contents, and opens the body again, and again with its last byte changed.
    fn seals<C: PacketCipher>(
        rt: &impl Abort,
        heap: Global,
        case: &SealCase<'_>,
    ) -> Result<(), Fail> {
        let key = block(case.key)?;
        let iv = block(case.iv)?;
        C::check_iv(&iv)?;
        let contents = bytes(heap, case.contents)?;
        let mut out = contents.clone()?;
        out.extend_from_slice(&[0; 16])?;
        assert!(rt; out.len() >= 16 && out.len() <= 282);
        C::seal(&key, &iv, &mut out);
        let body = bytes(heap, case.body)?;
        assert!(rt; out.as_slice() == body.as_slice());
        opens::<C>(rt, &key, &iv, &out, &contents)?;
        let last = out.pop().ok_or("a tag")?;
        out.push(last ^ 1)?;
        let mut work = [1; 266];
        assert!(rt; C::open(&key, &iv, &out, &mut work).is_err());
        assert!(rt; work == [0; 266]);
        Ok(())
    }

    fn opens<C: PacketCipher>(
        rt: &impl Abort,
        key: &[u8; 16],
        iv: &[u8; 16],
        body: &[u8],
        contents: &[u8],
    ) -> Result<(), Fail> {
        let mut work = [1; 266];
        let n = C::open(key, iv, body, &mut work)?;
        assert!(rt; n == contents.len() && n < 266);
        assert!(rt; &work[0..n] == contents);
        assert!(rt; work[n] == 0 && work[265] == 0);
        Ok(())
    }

    // FIPS 197, appendices B and C.1.
    #[test]
    fn aes_as_published(rt: HostRuntime) -> Result<(), Fail> {
        encrypts(
            &rt,
            &BlockCase {
                key: "2b7e151628aed2a6abf7158809cf4f3c",
                plain: "3243f6a8885a308d313198a2e0370734",
                encrypted: "3925841d02dc09fbdc118597196a0b32",
            },
        )?;
        encrypts(
            &rt,
            &BlockCase {
                key: "000102030405060708090a0b0c0d0e0f",
                plain: "00112233445566778899aabbccddeeff",
                encrypted: "69c4e0d86a7b0430d8cdb78070b4c55a",
            },
        )
    }

    // Test cases 1 to 3 of GCM's authors; the IV is the nonce and 00 00 00 01, the body ends in the tag.
    #[test]
    fn gcm_as_published(rt: HostRuntime) -> Result<(), Fail> {
        let heap = rt.alloc();
        seals::<Gcm<Aes128>>(
            &rt,
            heap,
            &SealCase {
                key: "00000000000000000000000000000000",
                iv: "00000000000000000000000000000001",
                contents: "",
                body: "58e2fccefa7e3061367f1d57a4e7455a",
            },
        )?;
        seals::<Gcm<Aes128>>(
            &rt,
            heap,
            &SealCase {
                key: "00000000000000000000000000000000",
                iv: "00000000000000000000000000000001",
                contents: "00000000000000000000000000000000",
                body: "0388dace60b6a392f328c2b971b2fe78ab6e47d42cec13bdf53a67b21257bddf",
            },
        )?;
        seals::<Gcm<Aes128>>(
            &rt,
            heap,
            &SealCase {
                key: "feffe9928665731c6d6a8f9467308308",
                iv: "cafebabefacedbaddecaf88800000001",
                contents: "d9313225f88406e5a55909c5aff5269a86a7a9531534f7da2e4c303d8a318a721c3c0c95956809532fcf0e2449a6b525b16aedf5aa0de657ba637b391aafd255",
                body: "42831ec2217774244b7221b784d0d49ce3aa212f2c02a4e035c17e2329aca12e21d514b25466931c7d8f6a5aac84aa051ba30b396a0aac973d58e091473f59854d5c2af327cd64a62cf35abd2ba6fab4",
            },
        )
    }

    // The guide's data packet and key packet. The data packet's words have their high byte first, so it is a vector and no packet of ours.
    #[test]
    fn ccm_as_in_the_guide(rt: HostRuntime) -> Result<(), Fail> {
        let heap = rt.alloc();
        seals::<Ccm<Aes128>>(
            &rt,
            heap,
            &SealCase {
                key: "00000000000000000000000000000000",
                iv: "01101112131415161718191a1bfe0000",
                contents: "01000100010000c5ff005a",
                body: "ac50edcfeb42722081011c5852ec0677dc405672c8effbb16c1de3",
            },
        )?;
        seals::<Ccm<Aes128>>(
            &rt,
            heap,
            &SealCase {
                key: "000102030405060708090a0b0c0d0e0f",
                iv: "01101112131415161718191a1b2c0000",
                contents: "000101020304050607080910111213141516",
                body: "71555fd69f2813a25896032d600d01fb629fe4956ed9c151b8d2401d6c24dc6420d8",
            },
        )
    }

    // The guide's key packet, packed: the whole frame.
    #[test]
    fn key_packet_as_in_the_guide(rt: HostRuntime) -> Result<(), Fail> {
        let packet = KeyPacket {
            kind: 0,
            version: 1,
            key: block("01020304050607080910111213141516")?,
        };
        let mut out = [0xEE; 57];
        let n = pack_key::<Ccm<Aes128>>(
            &block("000102030405060708090a0b0c0d0e0f")?,
            &block("01101112131415161718191a1b2c0000")?,
            &packet,
            &mut out,
        )?;
        let frame = bytes(
            rt.alloc(),
            "8033003101101112131415161718191a1b2c000071555fd69f2813a25896032d600d01fb629fe4956ed9c151b8d2401d6c24dc6420d8f645",
        )?;
        assert!(rt; n == 56);
        assert!(rt; &out[0..56] == frame.as_slice() && out[56] == 0xEE);
        Ok(())
    }
}

#[cfg(test)]
mod refusals {
    use fault::Fault;
    use fault::Fault::*;
    use std::test::Fail;

    // One line for each refusal, with its number, layer and place as they are printed; the table of
    // docs/RULES.md has the same rows (tests/refusal_table.sh).
    const TABLE: [(Fault, &str); 22] = [
        (ReplyShort, "1, layer call, place 0"),
        (WorkShort, "2, layer call, place 0"),
        (Dark, "3, layer memory, place 0"),
        (ImageSize, "4, layer call, place 0"),
        (DataCount, "5, layer call, place 0"),
        (OutputShort, "6, layer call, place 0"),
        (OutsideMap, "7, layer call, place 0"),
        (BadLine, "8, layer call, place 0"),
        (UnknownCommand(0xFE), "9, layer command, place 254"),
        (PacketLength(300), "10, layer command, place 300"),
        (BadIv(14), "11, layer cipher, place 14"),
        (NotOpened, "12, layer cipher, place 0"),
        (BadNumber(0x1234), "20, layer session, place 4660"),
        (MayNotOpen(0x0101), "21, layer session, place 257"),
        (OutOfTurn(0xABCD), "22, layer session, place 43981"),
        (OutsideArea(0x14000), "23, layer memory, place 81920"),
        (BadKeyType(0xFD), "30, layer keys, place 253"),
        (OldKey(0xC8), "31, layer keys, place 200"),
        (NoHeader(0x7F), "81, layer frame, place 127"),
        (BadChecksum(0xC460), "82, layer frame, place 50272"),
        (NoLength, "83, layer frame, place 0"),
        (TooLong(0x8001), "84, layer frame, place 32769"),
    ];

    #[test]
    fn each_refusal_is_that_of_the_table(rt: HostRuntime) -> Result<(), Fail> {
        for (fault, text) in &TABLE {
            let printed = format!(in rt.alloc(); "{fault}")?;
            assert_eq!(rt; printed.as_str(), *text);
            let (number, layer, place) = (fault.number(), fault.layer().name(), fault.place());
            let told = format!(in rt.alloc(); "{number}, layer {layer}, place {place}")?;
            assert_eq!(rt; told.as_str(), *text);
        }
        Ok(())
    }
}
