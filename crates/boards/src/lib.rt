// Examples of a board's calls, with both ciphers, over the lent image and over a scrambler. The expected answers are worked out
// by hand from the rules; those of a whole listing are in the program bench.
#![tactic(auto)]

#[cfg(test)]
mod listings;

#[cfg(test)]
mod tests {
    use board::{Board, ByteAnswer};
    use cipher::{Aes128, BlockCipher, Ccm, Gcm, PacketCipher};
    use fault::Fault;
    use memory::{Held, LentImage, Memory, Powered, Scrambler, Supply, sized};
    use packer::{DataPacket, pack_data};
    use std::alloc::Global;
    use std::mem::size_of;
    use std::process::Abort;
    use std::test::Fail;

    const KEY: [u8; 16] = [7; 16];

    const KEK: [u8; 16] = [9; 16];

    const CCM_IV: [u8; 16] = [1, 2, 3, 4, 5, 6, 7, 8, 9, 10, 11, 12, 13, 14, 0, 0];

    const GCM_IV: [u8; 16] = [1, 2, 3, 4, 5, 6, 7, 8, 9, 10, 11, 12, 0, 0, 0, 1];

    // The number of a refusal, or 0: tests keep the numbers that were worked out for them.
    fn number(refusal: Option<Fault>) -> u8 {
        refusal.map_or(0, |fault| fault.number())
    }

    // Sends one byte; the call wipes the first 266 bytes of the work buffer and leaves the rest.
    fn send_byte<M: Memory, C: PacketCipher>(
        rt: &impl Abort,
        board: &mut Board<M, C>,
        byte: u8,
        reply: &mut [u8],
    ) -> ByteAnswer {
        let mut work = [0xAA; 270];
        let answer = board.byte(byte, &mut work, reply);
        assert!(rt; work[0] == 0 && work[265] == 0 && work[266] == 0xAA);
        answer
    }

    // Sends bytes, of which only the last is answered with something.
    fn send<M: Memory, C: PacketCipher>(
        rt: &impl Abort,
        board: &mut Board<M, C>,
        bytes: &[u8],
        reply: &mut [u8],
    ) -> ByteAnswer {
        let mut last = ByteAnswer {
            refusal: None,
            sent: 0,
        };
        for byte in bytes {
            assert!(rt; number(last.refusal) == 0 && last.sent == 0);
            last = send_byte(rt, board, *byte, reply);
        }
        last
    }

    // The boot answer by its number, as it was worked out.
    fn boots<M: Memory, C: PacketCipher>(
        rt: &impl Abort,
        board: &mut Board<M, C>,
        answer: u8,
    ) -> Result<(), Fail> {
        assert!(rt; board.boot()?.number() == answer);
        Ok(())
    }

    // The version query, and a boot question.
    fn version<M: Memory, C: PacketCipher>(
        rt: &impl Abort,
        board: &mut Board<M, C>,
    ) -> Result<(), Fail> {
        let mut reply = [0xEE; 12];
        let answer = send(rt, board, &[128, 1, 0, 25, 232, 98], &mut reply);
        assert!(rt; number(answer.refusal) == 0 && answer.sent == 11);
        assert!(rt; reply == [0, 128, 5, 0, 58, 0, 88, 86, 181, 68, 255, 0xEE]);
        boots(rt, board, 2)
    }

    // A length of 299 is read on, one of 300 is refused with 84.
    fn lengths<M: Memory, C: PacketCipher>(
        rt: &impl Abort,
        board: &mut Board<M, C>,
    ) -> Result<(), Fail> {
        let mut reply = [0xEE; 11];
        let answer = send(rt, board, &[128, 43, 1, 0, 0], &mut reply);
        assert!(rt; number(answer.refusal) == 0 && answer.sent == 0);
        board.silence()?;
        let answer = send(rt, board, &[128, 44, 1], &mut reply);
        assert!(rt; number(answer.refusal) == 84 && answer.sent == 1);
        assert!(rt; reply[0] == 84 && reply[1] == 0xEE);
        Ok(())
    }

    // Short buffers are refused with 1, then 2, and then the byte is not read.
    fn buffers<M: Memory, C: PacketCipher>(rt: &impl Abort, board: &mut Board<M, C>) {
        let mut work = [0xAA; 266];
        let mut reply = [0xEE; 11];
        let answer = board.byte(0, &mut work[0..265], &mut reply[0..10]);
        assert!(rt; number(answer.refusal) == 1 && answer.sent == 0);
        let answer = board.byte(0, &mut work[0..265], &mut reply);
        assert!(rt; number(answer.refusal) == 2 && answer.sent == 0);
        assert!(rt; work[0] == 0xAA && reply[0] == 0xEE);
        let answer = board.byte(0, &mut work, &mut reply);
        assert!(rt; number(answer.refusal) == 81 && answer.sent == 1);
        assert!(rt; work[265] == 0 && reply[0] == 81);
    }

    // A frame whose call goes dark, for want of supply, and what the board says once the power is back.
    fn cut<M: Powered, C: PacketCipher>(
        rt: &impl Abort,
        board: &mut Board<M, C>,
        frame: &[u8],
        supply: u32,
        boot: u8,
    ) -> Result<(), Fail> {
        let mut reply = [0xEE; 11];
        board.power_up(Supply::Steps(supply));
        let answer = send(rt, board, frame, &mut reply);
        assert!(rt; number(answer.refusal) == 3 && answer.sent == 0 && reply[0] == 0xEE);
        assert!(rt; board.silence().is_err() && board.boot().is_err());
        board.power_up(Supply::NoEnd);
        boots(rt, board, boot)
    }

    // An update of one packet that sets the reset vector: cut at each of its four steps, taken, and refused when it comes again.
    fn update<M: Powered, C: PacketCipher>(
        rt: &impl Abort,
        board: &mut Board<M, C>,
        iv: &[u8; 16],
    ) -> Result<(), Fail> {
        let packet = DataPacket {
            version: 1,
            number: 1,
            count: 1,
            address: 0xFFFE,
            bytes: &[0x00, 0x44],
        };
        let mut frame = [0; 50];
        assert!(rt; pack_data::<C>(&KEY, iv, &packet, &mut frame)? == 50);
        cut(rt, board, &frame, 0, 2)?;
        cut(rt, board, &frame, 1, 3)?;
        cut(rt, board, &frame, 2, 3)?;
        cut(rt, board, &frame, 3, 3)?;
        let mut reply = [0xEE; 11];
        let answer = send(rt, board, &frame, &mut reply);
        assert!(rt; number(answer.refusal) == 0 && answer.sent == 8 && reply[5] == 0);
        boots(rt, board, 1)?;
        let answer = send(rt, board, &frame, &mut reply);
        assert!(rt; number(answer.refusal) == 21 && answer.sent == 8 && reply[5] == 5);
        boots(rt, board, 1)
    }

    // All of these on a board over a memory, which is given back.
    fn all<M: Powered + Drop, C: PacketCipher>(
        rt: &impl Abort,
        memory: M,
        iv: &[u8; 16],
    ) -> Result<M, Fail> {
        let mut board: Board<M, C> = Board::new(memory);
        version(rt, &mut board)?;
        lengths(rt, &mut board)?;
        buffers(rt, &mut board);
        update(rt, &mut board, iv)?;
        Ok(board.into_memory())
    }

    // What the board left: version 1 without the mark, and the two bytes of the vector as they are kept.
    fn left(rt: &impl Abort, image: &[u8; 61056], held: Held, supply: Supply, low: u8, high: u8) {
        assert!(rt; image[44670] == low && image[44671] == high);
        assert!(rt; held.version == 1 && !held.unfinished);
        assert!(rt; matches!(supply, Supply::NoEnd));
    }

    fn lent(image: &mut [u8]) -> Result<LentImage<'_>, Fault> {
        let image = sized(image).ok_or(Fault::ImageSize)?;
        Ok(LentImage::over(image, Held::fresh(KEY, KEK), Supply::NoEnd))
    }

    // The calls of a cipher, over a lent image and then over a scrambler.
    fn calls<C: PacketCipher>(rt: &impl Abort, heap: Global, iv: &[u8; 16]) -> Result<(), Fail> {
        let mut image = vec![in heap; 0xFFu8; 61056]?;
        let (kept, held, supply) = all::<_, C>(rt, lent(&mut image)?, iv)?.into_parts();
        left(rt, kept, held, supply, 0x00, 0x44);
        let mut memory = Scrambler::over(lent(&mut image)?, 0x5A);
        memory.set_vector(0xFF, 0xFF)?;
        let below = all::<_, C>(rt, memory, iv)?.into_below();
        let (kept, held, supply) = below.into_parts();
        left(rt, kept, held, supply, 0xA4, 0xE1);
        Ok(())
    }

    // What a board takes beside its memory, with both buffers, against the 910 bytes that it may take.
    #[test]
    fn size_beside_the_memory(rt: HostRuntime) {
        let board = size_of::<Board<LentImage<'static>, Ccm<Aes128>>>();
        let memory = size_of::<LentImage<'static>>();
        assert!(rt; memory <= board);
        assert_eq!(rt; board - memory + 266 + 11, 597);
    }

    #[test]
    fn calls_with_ccm(rt: HostRuntime) -> Result<(), Fail> {
        calls::<Ccm<Aes128>>(&rt, rt.alloc(), &CCM_IV)
    }

    #[test]
    fn calls_with_gcm(rt: HostRuntime) -> Result<(), Fail> {
        calls::<Gcm<Aes128>>(&rt, rt.alloc(), &GCM_IV)
    }
}
