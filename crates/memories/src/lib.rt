// Storing steps, reads and power cuts, the same over the lent image, the scrambler, and a scrambler over a scrambler. What each
// must answer was computed by a second model of a memory.
#![tactic(auto)]

#[cfg(test)]
mod tests {
    use fault::Fault;
    use memory::{
        AREAS, Held, KeyRecord, KeySlot, LentImage, Memory, Powered, Scrambler, Supply,
        VECTOR_HIGH, VECTOR_LOW, check_size, mass_erase, sized, store_data,
    };
    use std::process::Abort;
    use std::test::Fail;

    const DATA: [u8; 5] = [0x40, 0x41, 0x42, 0x43, 0x44];

    // An address, its place in the image, a byte that is stored there through a scrambler, and the raw byte that is kept of it: under the fixed
    // byte 0x5A, under 0xC3, and below a scrambler of 0xC3 over one of 0x5A.
    type Kept = (u32, usize, u8, [u8; 3]);

    // Computed by a short program in another language from the rules' sentence on the scrambler. The two vector bytes are set in one step.
    const KEPT: [Kept; 19] = [
        (0x1800, 0, 0x00, [0x5A, 0xC3, 0x99]),
        (0x187F, 127, 0xFF, [0xDA, 0x43, 0x66]),
        (0x1880, 128, 0x5A, [0x80, 0x19, 0xC3]),
        (0x18FF, 255, 0x96, [0x33, 0xAA, 0x0F]),
        (0x1900, 256, 0xC3, [0x99, 0x00, 0x5A]),
        (0x4400, 512, 0x01, [0x5B, 0xC2, 0x98]),
        (0x44FF, 767, 0x80, [0x25, 0xBC, 0x19]),
        (0x4500, 768, 0x7E, [0x24, 0xBD, 0xE7]),
        (0xEFFF, 44543, 0xA5, [0x00, 0x99, 0x3C]),
        (0xFF80, 44544, 0x3C, [0xE6, 0x7F, 0xA5]),
        (0xFFBF, 44607, 0x0F, [0xEA, 0x73, 0x96]),
        (0xFFFE, 44670, 0x34, [0x90, 0x09, 0xAD]),
        (0xFFFF, 44671, 0x12, [0xB7, 0x2E, 0x8B]),
        (0x10000, 44672, 0x69, [0x33, 0xAA, 0xF0]),
        (0x1007F, 44799, 0xD2, [0xF7, 0x6E, 0x4B]),
        (0x10080, 44800, 0x00, [0xDA, 0x43, 0x99]),
        (0x100FF, 44927, 0x00, [0xA5, 0x3C, 0x99]),
        (0x10100, 44928, 0xFF, [0xA5, 0x3C, 0x66]),
        (0x13FFF, 61055, 0xE1, [0x44, 0xDD, 0x78]),
    ];

    // A refusal by its number, or 0: tests keep the numbers that were worked out for them.
    fn answers(rt: &impl Abort, r: Result<(), Fault>, refusal: u8) {
        assert!(rt; r.err().map_or(0, |fault| fault.number()) == refusal);
    }

    fn store<M: Memory>(rt: &impl Abort, m: &mut M, address: u32, value: u8, refusal: u8) {
        answers(rt, m.store(address, value), refusal);
    }

    fn shows<M: Memory>(rt: &impl Abort, m: &mut M, address: u32, value: u8) -> Result<(), Fail> {
        assert!(rt; m.read(address)? == value);
        Ok(())
    }

    fn outside<M: Memory>(rt: &impl Abort, m: &mut M, address: u32) {
        assert!(rt; m.read(address) == Err(Fault::OutsideMap));
    }

    fn key<M: Memory>(
        rt: &impl Abort,
        m: &mut M,
        slot: KeySlot,
        byte: u8,
        version: u8,
        refusal: u8,
    ) {
        let record = KeyRecord {
            key: [byte; 16],
            version,
        };
        answers(rt, m.set_key(slot, record), refusal);
    }

    // The first bytes of DATA, upward.
    fn data<M: Memory>(rt: &impl Abort, m: &mut M, address: u32, count: usize, refusal: u8) {
        assert!(rt; count <= 5);
        answers(rt, store_data(m, address, &DATA[0..count]), refusal);
    }

    fn left<M: Powered>(rt: &impl Abort, m: &mut M, steps: u32) {
        assert!(rt; matches!(m.supply(), Supply::Steps(n) if n == steps));
    }

    fn held<M: Memory>(rt: &impl Abort, m: &mut M, version: u8, unfinished: bool) {
        let record = m.record();
        assert!(rt; record.version == version && record.unfinished == unfinished);
    }

    fn keys<M: Memory>(
        rt: &impl Abort,
        m: &mut M,
        data: u8,
        data_version: u8,
        kek: u8,
        kek_version: u8,
    ) {
        let [d, k] = m.record().keys;
        assert!(rt; d.key == [data; 16] && d.version == data_version);
        assert!(rt; k.key == [kek; 16] && k.version == kek_version);
    }

    // 0xFF everywhere.
    fn blank<M: Memory>(m: &mut M) -> Result<(), Fail> {
        for area in AREAS.iter() {
            for address in area.first..=area.last {
                m.store(address, 0xFF)?;
            }
        }
        Ok(())
    }

    // Stores at the ends of the areas and outside them.
    fn bounds<M: Memory>(rt: &impl Abort, m: &mut M) {
        store(rt, m, 0x17FF, 0x01, 7);
        store(rt, m, 0x1800, 0x11, 0);
        store(rt, m, 0x19FF, 0x12, 0);
        store(rt, m, 0x1A00, 0x01, 7);
        store(rt, m, 0x43FF, 0x01, 7);
        store(rt, m, 0x4400, 0x13, 0);
        store(rt, m, 0xEFFF, 0x14, 0);
        store(rt, m, 0xF000, 0x01, 7);
        store(rt, m, 0xFF7F, 0x01, 7);
        store(rt, m, 0xFF80, 0x15, 0);
        store(rt, m, 0xFFFE, 0x16, 0);
        store(rt, m, 0xFFFF, 0x17, 0);
        store(rt, m, 0x10000, 0x18, 0);
        store(rt, m, 0x13FFF, 0x19, 0);
        store(rt, m, 0x14000, 0x01, 7);
        store(rt, m, 0xFFFFFFFF, 0x01, 7);
    }

    // What stands there then.
    fn bounds_read<M: Memory>(rt: &impl Abort, m: &mut M) -> Result<(), Fail> {
        outside(rt, m, 0x17FF);
        shows(rt, m, 0x1800, 0x11)?;
        shows(rt, m, 0x19FF, 0x12)?;
        outside(rt, m, 0x1A00);
        shows(rt, m, 0x4400, 0x13)?;
        shows(rt, m, 0xEFFF, 0x14)?;
        outside(rt, m, 0xF000);
        shows(rt, m, 0xFF80, 0x15)?;
        shows(rt, m, 0xFFFE, 0x16)?;
        shows(rt, m, 0xFFFF, 0x17)?;
        shows(rt, m, 0x10000, 0x18)?;
        shows(rt, m, 0x13FFF, 0x19)?;
        outside(rt, m, 0x14000);
        shows(rt, m, 0x4401, 0xFF)
    }

    // The vector and the held record.
    fn records<M: Memory>(rt: &impl Abort, m: &mut M) -> Result<(), Fail> {
        answers(rt, m.set_vector(0x34, 0x12), 0);
        shows(rt, m, 0xFFFE, 0x34)?;
        shows(rt, m, 0xFFFF, 0x12)?;
        answers(rt, m.set_version(9, true), 0);
        held(rt, m, 9, true);
        keys(rt, m, 0x00, 0, 0x00, 0);
        key(rt, m, KeySlot::Kek, 0x5A, 3, 0);
        held(rt, m, 9, true);
        keys(rt, m, 0x00, 0, 0x5A, 3);
        key(rt, m, KeySlot::Data, 0xA5, 4, 0);
        held(rt, m, 9, true);
        keys(rt, m, 0xA5, 4, 0x5A, 3);
        Ok(())
    }

    // Two steps are kept, and then none; an address outside the map is refused as ever.
    fn cut<M: Powered>(rt: &impl Abort, m: &mut M) -> Result<(), Fail> {
        m.set_supply(Supply::Steps(2));
        answers(rt, m.set_version(10, false), 0);
        left(rt, m, 1);
        store(rt, m, 0xF000, 0x01, 7);
        left(rt, m, 1);
        store(rt, m, 0x4400, 0x77, 0);
        left(rt, m, 0);
        store(rt, m, 0x4401, 0x78, 3);
        answers(rt, m.set_version(11, true), 3);
        answers(rt, m.set_vector(0x01, 0x02), 3);
        key(rt, m, KeySlot::Data, 0x01, 9, 3);
        left(rt, m, 0);
        held(rt, m, 10, false);
        keys(rt, m, 0xA5, 4, 0x5A, 3);
        Ok(())
    }

    // What was kept.
    fn cut_read<M: Powered>(rt: &impl Abort, m: &mut M) -> Result<(), Fail> {
        shows(rt, m, 0x4400, 0x77)?;
        shows(rt, m, 0x4401, 0xFF)?;
        shows(rt, m, 0xFFFE, 0x34)?;
        store(rt, m, 0xF000, 0x01, 7);
        m.set_supply(Supply::Steps(3));
        data(rt, m, 0x4500, 5, 3);
        shows(rt, m, 0x4500, 0x40)?;
        shows(rt, m, 0x4502, 0x42)?;
        shows(rt, m, 0x4503, 0xFF)
    }

    // Data stored upward, also over the end of an area.
    fn data_stored<M: Powered>(rt: &impl Abort, m: &mut M) -> Result<(), Fail> {
        m.set_supply(Supply::NoEnd);
        data(rt, m, 0x4500, 5, 0);
        shows(rt, m, 0x4504, 0x44)?;
        data(rt, m, 0xEFFE, 3, 23);
        shows(rt, m, 0xEFFE, 0xFF)?;
        data(rt, m, 0xFFFE, 4, 0);
        shows(rt, m, 0xFFFF, 0x41)?;
        shows(rt, m, 0x10001, 0x43)
    }

    // The first step of a mass erase blanks the vector; cut after 64 steps, the erase has reached the lower area.
    fn erase_cut<M: Powered>(rt: &impl Abort, m: &mut M) -> Result<(), Fail> {
        m.set_supply(Supply::Steps(1));
        answers(rt, mass_erase(m), 3);
        shows(rt, m, 0xFFFE, 0xFF)?;
        shows(rt, m, 0xFFFF, 0xFF)?;
        shows(rt, m, 0xFF80, 0x15)?;
        shows(rt, m, 0x4500, 0x40)?;
        left(rt, m, 0);
        m.set_supply(Supply::NoEnd);
        data(rt, m, 0xFFFD, 3, 0);
        data(rt, m, 0x4400, 2, 0);
        m.set_supply(Supply::Steps(64));
        answers(rt, mass_erase(m), 3);
        shows(rt, m, 0xFFFD, 0xFF)?;
        shows(rt, m, 0x4400, 0xFF)?;
        shows(rt, m, 0x4401, 0x41)
    }

    // A whole mass erase has 60,479 steps, and leaves info, the start of the table and the held record.
    fn erase<M: Powered>(rt: &impl Abort, m: &mut M) -> Result<(), Fail> {
        m.set_supply(Supply::Steps(60479));
        answers(rt, mass_erase(m), 0);
        left(rt, m, 0);
        shows(rt, m, 0x1800, 0x11)?;
        shows(rt, m, 0xFF80, 0x15)?;
        shows(rt, m, 0x4500, 0xFF)?;
        shows(rt, m, 0x10001, 0xFF)?;
        shows(rt, m, 0x13FFF, 0xFF)?;
        held(rt, m, 10, false);
        keys(rt, m, 0xA5, 4, 0x5A, 3);
        Ok(())
    }

    fn all<M: Powered + Drop>(rt: &impl Abort, mut m: M) -> Result<(), Fail> {
        blank(&mut m)?;
        bounds(rt, &mut m);
        bounds_read(rt, &mut m)?;
        records(rt, &mut m)?;
        cut(rt, &mut m)?;
        cut_read(rt, &mut m)?;
        data_stored(rt, &mut m)?;
        erase_cut(rt, &mut m)?;
        erase(rt, &mut m)
    }

    fn fresh() -> Held {
        Held::fresh([0; 16], [0; 16])
    }

    // An image of zeros, lent with a fresh held record and a supply without end.
    fn lent(image: &mut [u8]) -> Result<LentImage<'_>, Fail> {
        let image = sized(image).ok_or(Fault::ImageSize)?;
        Ok(LentImage::over(image, fresh(), Supply::NoEnd))
    }

    #[test]
    fn memories_agree(rt: HostRuntime) -> Result<(), Fail> {
        let mut image = vec![in rt.alloc(); 0u8; 61056]?;
        all(&rt, lent(&mut image)?)?;
        all(&rt, Scrambler::over(lent(&mut image)?, 0x5A))?;
        let below = Scrambler::over(lent(&mut image)?, 0xC3);
        all(&rt, Scrambler::over(below, 0x5A))
    }

    // Stores the clear bytes, each by itself but the vector, and reads them back.
    fn store_clear<M: Memory>(rt: &impl Abort, m: &mut M) -> Result<(), Fail> {
        for (address, _, clear, _) in &KEPT {
            if !(VECTOR_LOW..=VECTOR_HIGH).contains(address) {
                store(rt, m, *address, *clear, 0);
            }
        }
        answers(rt, m.set_vector(0x34, 0x12), 0);
        for (address, _, clear, _) in &KEPT {
            shows(rt, m, *address, *clear)?;
        }
        Ok(())
    }

    // Whether an image of bytes 0x11 keeps the raw bytes of a column, and is unchanged elsewhere.
    fn keeps_raw(rt: &impl Abort, image: &[u8; 61056], column: usize) {
        assert!(rt; column < 3);
        for (_, place, _, raw) in &KEPT {
            assert!(rt; *place < 61056);
            assert!(rt; image[*place] == raw[column]);
        }
        let others = image.iter().filter(|raw| **raw == 0x11).count();
        assert!(rt; others == 61056 - 19);
    }

    #[test]
    fn raw_bytes_below_a_scrambler(rt: HostRuntime) -> Result<(), Fail> {
        for (fixed, column) in [(0x5A, 0), (0xC3, 1)] {
            let mut image = vec![in rt.alloc(); 0x11u8; 61056]?;
            let mut memory = Scrambler::over(lent(&mut image)?, fixed);
            store_clear(&rt, &mut memory)?;
            let (image, _, _) = memory.into_below().into_parts();
            keeps_raw(&rt, image, column);
        }
        let mut image = vec![in rt.alloc(); 0x11u8; 61056]?;
        let mut memory = Scrambler::over(Scrambler::over(lent(&mut image)?, 0x5A), 0xC3);
        store_clear(&rt, &mut memory)?;
        let (image, _, _) = memory.into_below().into_below().into_parts();
        keeps_raw(&rt, image, 2);
        Ok(())
    }

    #[test]
    fn other_sizes_are_refused(rt: HostRuntime) -> Result<(), Fail> {
        for n in [0usize, 61055, 61057] {
            let mut image = vec![in rt.alloc(); 7u8; n]?;
            answers(&rt, check_size(&image), 4);
            assert!(rt; sized(&mut image).is_none());
            assert!(rt; image.iter().all(|b| *b == 7));
        }
        Ok(())
    }
}
