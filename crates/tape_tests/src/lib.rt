// Tapes and their printouts.
#![tactic(auto)]

#[cfg(test)]
mod tests {
    use player::play::play;
    use std::process::Abort;
    use std::test::Fail;

    // Plays a tape, and compares its printout.
    fn prints(rt: &impl Abort, tape: &[u8], printout: &[u8]) -> Result<(), Fail> {
        let mut out = [0u8; 8_000];
        let end = play(tape, &mut out).map_err(|_| Fail::new("no room"))?;
        assert!(rt; &out[..end] == printout);
        Ok(())
    }

    #[test]
    fn an_empty_tape_prints_nothing(rt: HostRuntime) -> Result<(), Fail> {
        prints(&rt, &[], b"")
    }

    #[test]
    fn three_load_points_that_conflict(rt: HostRuntime) -> Result<(), Fail> {
        let tape = [
            0x10, 0x00, 0x00, 0x20, 0x00, 0x00, 0x00, 0x10, 0x00, 0x0a, 0x20, 0x00, 0x00, 0x0a,
            0x10, 0x00, 0x14, 0x20, 0x00, 0x00, 0x3c, 0x51, 0x52, 0x53, 0x00, 0x05, 0x40, 0x00,
            0x00, 0x03, 0x51, 0x52, 0x40, 0x00, 0x00, 0x03, 0x54,
        ];
        prints(
            &rt,
            &tape,
            b"load 1 0\nset 1 -26 26\nload 2 10\nset 2 74 126\nload 3 20\nset 3 574 626\nconflict 1 2 3\nrefused 8\nrefused 8\nwithdrawn 3\nline\nslope 4800 15200\nrefused 6\ntallies 3 3 0 0 0 2\n",
        )
    }

    #[test]
    fn one_load_read_twice(rt: HostRuntime) -> Result<(), Fail> {
        let tape = [
            0x10, 0x00, 0x0a, 0x20, 0x00, 0x00, 0x0a, 0x10, 0x00, 0x0a, 0x20, 0x00, 0x00, 0x14,
            0x51, 0x60, 0x10, 0x00, 0x0a, 0x20, 0x00, 0x00, 0x0a, 0x10, 0x00, 0x0a, 0x20, 0x00,
            0x00, 0x0c, 0x51, 0x53, 0x00, 0x0a, 0x52, 0x53, 0x00, 0x0b,
        ];
        prints(
            &rt,
            &tape,
            b"load 1 10\nset 1 74 126\nload 2 10\nset 2 174 226\nconflict 1 2\ncleared\nload 3 10\nset 3 74 126\nload 4 10\nset 4 94 146\nline\nvalue 94000 126000\nrefused 9\nrefused 9\n",
        )
    }

    #[test]
    fn spoiled_and_aborted_points(rt: HostRuntime) -> Result<(), Fail> {
        let tape = [
            0x51, 0x10, 0x00, 0x05, 0x38, 0x6f, 0x69, 0x6c, 0x20, 0x6c, 0x65, 0x61, 0x6b, 0x10,
            0x00, 0x05, 0x20, 0x98, 0x96, 0x7f, 0x10, 0x00, 0x05, 0x20, 0x98, 0x96, 0x80, 0x20,
            0x00, 0x00, 0x01, 0x34, 0x6c, 0x61, 0x74, 0x65, 0x10, 0x4e, 0x20, 0x53, 0x4e, 0x20,
            0x10, 0x00, 0x06, 0x54, 0x10, 0x00, 0x07, 0x35, 0x07, 0x61, 0x7f, 0x20, 0x62, 0x10,
            0xd8, 0xf0, 0x40, 0x00, 0x00, 0x06, 0x54,
        ];
        prints(
            &rt,
            &tape,
            b"refused 7\nload 1 5\naborted 1 oil leak\nload 2 5\nspoiled 2 5 2 99999985\nload 3 5\nspoiled 3 5 1 10000000\nrefused 13\nrefused 13\nrefused 1\nrefused 1\nload 4 6\naborted 4\ntallies 4 0 2 2 0 0\nload 5 7\naborted 5 ?a? b\nload 6 -10000\naborted 6\nrefused 6\ntallies 6 0 2 4 0 0\n",
        )
    }

    #[test]
    fn a_frame_that_is_not_known(rt: HostRuntime) -> Result<(), Fail> {
        let tape = [0x10, 0x00, 0x03, 0x90, 0x54];
        prints(&rt, &tape, b"load 1 3\naborted 1\nrefused 12\n")
    }

    #[test]
    fn a_frame_cut_short(rt: HostRuntime) -> Result<(), Fail> {
        let tape = [0x10, 0x00, 0x03, 0x20, 0x00];
        prints(&rt, &tape, b"load 1 3\naborted 1\nrefused 11\n")
    }

    #[test]
    fn the_tape_ends_while_a_point_is_open(rt: HostRuntime) -> Result<(), Fail> {
        let tape = [0x10, 0xff, 0xfd, 0x2f, 0xff, 0xff, 0x9c, 0x10, 0x00, 0x04];
        prints(
            &rt,
            &tape,
            b"load 1 -3\nset 1 -1027 -974\nload 2 4\naborted 2\n",
        )
    }
}
