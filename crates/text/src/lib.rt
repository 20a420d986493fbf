// Numbers and bytes as text, for command lines and listings: hexadecimal and decimal read, bytes shown line by line.
#![tactic(auto)]

pub mod decimal;
pub mod hex;
pub mod lines;
mod number;

#[cfg(test)]
mod tests {
    use crate::decimal::decimal;
    use crate::hex::{hex_block, hex_bytes, hex_number};
    use crate::lines::HexLines;
    use std::alloc::{AllocError, Global};
    use std::test::Fail;

    #[test]
    fn reads_bytes(rt: HostRuntime) -> Result<(), Fail> {
        let heap = rt.alloc();
        let bytes = hex_bytes(heap, b"DEADbeef")?.ok_or("no digits")?;
        assert_eq!(rt; bytes.as_slice(), &[0xDE, 0xAD, 0xBE, 0xEF][..]);
        assert!(rt; hex_bytes(heap, b"DEADbee")?.is_none());
        assert_eq!(rt;
            hex_block(b"000102030405060708090A0B0C0D0E0F"),
            Some([0, 1, 2, 3, 4, 5, 6, 7, 8, 9, 10, 11, 12, 13, 14, 15])
        );
        Ok(())
    }

    #[test]
    fn reads_numbers(rt: HostRuntime) {
        assert_eq!(rt; hex_number(b"0x13FFF"), Some(0x13FFF));
        assert_eq!(rt; hex_number(b"0x100000000"), Some(u32::MAX));
        assert_eq!(rt; hex_number(b"0x"), None);
        assert_eq!(rt; decimal(b"0065535", 65535), Some(65535));
        assert_eq!(rt; decimal(b"65536", 65535), None);
    }

    fn shown(heap: Global, bytes: &[u8]) -> Result<String, AllocError> {
        HexLines { bytes }.to_string(heap)
    }

    #[test]
    fn shows_lines(rt: HostRuntime) -> Result<(), Fail> {
        let heap = rt.alloc();
        let bytes = [0x5F; 17];
        let line = "5F 5F 5F 5F 5F 5F 5F 5F 5F 5F 5F 5F 5F 5F 5F 5F";
        assert_eq!(rt; shown(heap, &bytes[0..0])?.as_str(), "");
        assert_eq!(rt; shown(heap, &bytes[0..1])?.as_str(), "5F");
        assert_eq!(rt; shown(heap, &bytes[0..16])?.as_str(), line);
        assert_eq!(rt; shown(heap, &bytes)?, format!(in heap; "{line}\n5F")?);
        Ok(())
    }
}
