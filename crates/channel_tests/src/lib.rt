// Examples of whole runs of a channel on a stage with the absolute limit 5 and no relative one.
#![tactic(auto)]

#[cfg(test)]
mod tests {
    use book::answer::Answer;
    use book::call::Call;
    use bounded::bounded::Bounded;
    use channel::channel::Channel;
    use channel::replay::replay;
    use exact::fraction::Fraction;
    use refusal::conflict::Conflict;
    use refusal::refusal::Refusal;
    use std::test::Fail;

    // What a call is told.
    type Told = Result<Answer, Refusal>;

    fn stage() -> Bounded {
        Bounded {
            absolute: 5,
            relative: 0,
        }
    }

    fn open(argument: i32) -> Call {
        Call::Open { argument }
    }

    fn file(serial: u32, reading: i32) -> Call {
        Call::File {
            number: 7,
            serial,
            reading,
        }
    }

    // A reading at each argument, filed one after the other, and then the verdict, the slope and the value at an argument.
    fn sheet(points: &[(i32, i32)], at: i32) -> [Told; 35] {
        let mut calls = [Call::Tallies; 35];
        // Two calls for each of at most 16 points.
        for ((pair, point), serial) in calls.chunks_mut(2).zip(points).zip(1..=16) {
            if let [first, second] = pair {
                *first = open(point.0);
                *second = file(serial, point.1);
            }
        }
        calls[32] = Call::Verdict;
        calls[33] = Call::Slope;
        calls[34] = Call::Value { argument: at };
        let mut answers = [Ok(Answer::Cleared); 35];
        let _run = replay(7, stage(), &calls, &mut answers);
        answers
    }

    // Whether a fraction is so many halves.
    fn halves(f: Fraction, count: i64) -> bool {
        f.numerator.saturating_mul(2) == count.saturating_mul(f.denominator as i64)
    }

    // The number of a refusal; none of any other answer.
    fn refused(answer: Told) -> Option<u8> {
        answer.err().map(|refusal| refusal.number())
    }

    fn is_line(answer: Told) -> bool {
        matches!(answer, Ok(Answer::Line))
    }

    // The conflict that an answer names; none of any other answer.
    fn named(answer: Told) -> Option<Conflict> {
        match answer {
            Ok(Answer::Conflicting { conflict }) => Some(conflict),
            _ => None,
        }
    }

    // A conflict of two measurements, and one of three.
    fn two(first: u32, second: u32) -> Option<Conflict> {
        Some(Conflict {
            first,
            second,
            third: None,
        })
    }

    fn three(first: u32, second: u32, third: u32) -> Option<Conflict> {
        Some(Conflict {
            first,
            second,
            third: Some(third),
        })
    }

    // Whether an answer is a slope, or a value, from so many halves to so many.
    fn slope_between(answer: Told, low: i64, high: i64) -> bool {
        match answer {
            Ok(Answer::Slope { least, greatest }) => halves(least, low) && halves(greatest, high),
            _ => false,
        }
    }

    fn value_between(answer: Told, low: i64, high: i64) -> bool {
        match answer {
            Ok(Answer::Value { least, greatest }) => halves(least, low) && halves(greatest, high),
            _ => false,
        }
    }

    // The six tallies; none of any other answer.
    fn six(answer: Told) -> Option<[u32; 6]> {
        match answer {
            Ok(Answer::Counted { tallies }) => Some([
                tallies.counts.opened,
                tallies.counts.filed,
                tallies.counts.spoiled,
                tallies.counts.aborted,
                tallies.open,
                tallies.held,
            ]),
            _ => None,
        }
    }

    // The serial that an answer tells, where it tells one.
    fn serial(answer: Told) -> Option<u32> {
        match answer {
            Ok(
                Answer::Opened { serial, .. }
                | Answer::Filed { serial, .. }
                | Answer::Aborted { serial }
                | Answer::Withdrawn { serial },
            ) => Some(serial),
            _ => None,
        }
    }

    // The ends of a set that was filed.
    fn ends(answer: Told) -> Option<(i32, i32)> {
        match answer {
            Ok(Answer::Filed { lower, upper, .. }) => Some((lower, upper)),
            _ => None,
        }
    }

    #[test]
    fn every_tally_counts(rt: HostRuntime) {
        let calls = [
            open(0),
            open(1),
            open(2),
            open(3),
            Call::Abort {
                number: 7,
                serial: 1,
            },
            file(2, 100_000_000),
            file(3, 0),
            Call::Tallies,
        ];
        let mut answers = [Ok(Answer::Cleared); 8];
        let _run = replay(7, stage(), &calls, &mut answers);
        assert_eq!(rt; serial(answers[3]), Some(4));
        assert_eq!(rt; serial(answers[4]), Some(1));
        assert_eq!(rt; refused(answers[5]), Some(5));
        assert_eq!(rt; serial(answers[6]), Some(3));
        assert_eq!(rt; ends(answers[6]), Some((-5, 5)));
        assert_eq!(rt; six(answers[7]), Some([4, 1, 1, 1, 1, 1]));
    }

    #[test]
    fn strangers_are_not_taken(rt: HostRuntime) {
        let calls = [
            open(0),
            Call::Abort {
                number: 8,
                serial: 1,
            },
            file(2, 0),
            Call::Clear,
            file(1, 0),
            Call::Withdraw { serial: 1 },
            open(10_001),
            open(-10_000),
            Call::Withdraw { serial: 2 },
            file(2, 0),
            file(2, 0),
            Call::Withdraw { serial: 2 },
        ];
        let mut answers = [Ok(Answer::Cleared); 12];
        let _run = replay(7, stage(), &calls, &mut answers);
        assert_eq!(rt; refused(answers[1]), Some(4));
        assert_eq!(rt; refused(answers[2]), Some(4));
        assert_eq!(rt; refused(answers[4]), Some(4));
        assert_eq!(rt; refused(answers[5]), Some(6));
        assert_eq!(rt; refused(answers[6]), Some(1));
        assert_eq!(rt; serial(answers[7]), Some(2));
        assert_eq!(rt; refused(answers[8]), Some(6));
        assert_eq!(rt; serial(answers[9]), Some(2));
        assert_eq!(rt; refused(answers[10]), Some(4));
        assert_eq!(rt; serial(answers[11]), Some(2));
    }

    #[test]
    fn nothing_is_held(rt: HostRuntime) {
        let answers = sheet(&[], 0);
        assert_eq!(rt; refused(answers[32]), Some(7));
        assert_eq!(rt; refused(answers[33]), Some(7));
        assert_eq!(rt; refused(answers[34]), Some(7));
    }

    #[test]
    fn a_full_register(rt: HostRuntime) {
        let calls = [open(0); 65];
        let mut answers = [Ok(Answer::Cleared); 65];
        let _run = replay(7, stage(), &calls, &mut answers);
        assert_eq!(rt; serial(answers[63]), Some(64));
        assert_eq!(rt; refused(answers[64]), Some(2));
    }

    #[test]
    fn the_last_serial(rt: HostRuntime) -> Result<(), Fail> {
        let mut channel = Channel::new(7, stage());
        for _ in 0..199_999_999u32 {
            let point = channel.open(0).map_err(|_| Fail::new("refused too early"))?;
            let _ = channel.abort(point);
        }
        let point = channel
            .open(0)
            .map_err(|_| Fail::new("the last serial is not given"))?;
        assert!(rt; matches!(channel.abort(point), Ok(200_000_000)));
        channel.clear();
        match channel.open(0) {
            Ok(point) => {
                let _ = channel.abort(point);
                Err(Fail::new("a serial past the last one"))
            }
            Err(refusal) => {
                assert_eq!(rt; refusal.number(), 3);
                Ok(())
            },
        }
    }

    #[test]
    fn three_that_conflict(rt: HostRuntime) {
        let answers = sheet(&[(0, 0), (10, 100), (20, 300)], 0);
        assert_eq!(rt; named(answers[32]), three(1, 2, 3));
        assert_eq!(rt; refused(answers[33]), Some(8));
        assert_eq!(rt; refused(answers[34]), Some(8));
        assert_eq!(rt;
            named(sheet(&[(0, 0), (10, 100), (20, 221)], 0)[32]),
            three(1, 2, 3)
        );
    }

    #[test]
    fn bounds_of_slope_and_value(rt: HostRuntime) {
        let answers = sheet(&[(0, 0), (10, 100), (20, 200)], 30);
        assert!(rt; is_line(answers[32]));
        assert!(rt; slope_between(answers[33], 19, 21));
        assert!(rt; value_between(answers[34], 580, 620));
        assert!(rt; slope_between(sheet(&[(0, 0), (10, 100), (20, 220)], 30)[33], 22, 22));
    }

    #[test]
    fn one_argument(rt: HostRuntime) {
        assert_eq!(rt; named(sheet(&[(10, 100), (10, 111)], 10)[32]), two(1, 2));
        let together = sheet(&[(10, 100), (10, 110)], 10);
        assert_eq!(rt; refused(together[33]), Some(9));
        assert!(rt; value_between(together[34], 210, 210));
        assert_eq!(rt; refused(sheet(&[(10, 100), (10, 110)], 11)[34]), Some(9));
    }

    #[test]
    fn neighbours_are_not_enough(rt: HostRuntime) {
        let squares = [
            (0, 0),
            (1, 1),
            (2, 4),
            (3, 9),
            (4, 16),
            (5, 25),
            (6, 36),
            (7, 49),
            (8, 64),
            (9, 81),
            (10, 100),
        ];
        assert!(rt; named(sheet(&squares, 0)[32]).is_some());
        assert!(rt; is_line(sheet(&[(4, 16), (5, 25), (6, 36)], 0)[32]));
        assert_eq!(rt;
            named(sheet(&[(0, 0), (5, 25), (10, 100)], 0)[32]),
            three(1, 2, 3)
        );
    }

    #[test]
    fn the_shift_between_two_signs(rt: HostRuntime) {
        assert!(rt; value_between(sheet(&[(-10, 0), (10, 0)], 0)[34], -10, 10));
        assert_eq!(rt; refused(sheet(&[(-10, 0), (10, 0)], 10_001)[34]), Some(1));
    }

    #[test]
    fn the_limits_of_arguments_and_ends(rt: HostRuntime) {
        let answers = sheet(&[(-10_000, -99_999_995), (10_000, 99_999_995)], 10_000);
        assert!(rt; value_between(answers[34], 199_999_980, 200_000_000));
    }
}
