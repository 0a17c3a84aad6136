// Examples of what the stages answer and refuse.
#![tactic(auto)]

#[cfg(test)]
mod tests {
    use band::band::Band;
    use band::row::Row;
    use bounded::bounded::Bounded;
    use refusal::refusal::Refusal;
    use stage::chain::Chain;
    use stage::stage::Stage;
    use standard::standard_chain;
    use std::test::Fail;
    use step::step::Step;

    // What a stage answers to a reading, or the refusal that is made of its answer.
    fn ask<S: Stage>(stage: &S, reading: i32) -> Result<(i32, i32), Refusal> {
        Ok(stage.ask(reading)?)
    }

    // The same of the rows that a band is set to.
    fn set(band: &mut Band, rows: &[Row], last: i32) -> Result<(), Refusal> {
        Ok(band.set(rows, last)?)
    }

    fn not_taken(place: u8, value: i32) -> Result<(i32, i32), Refusal> {
        Err(Refusal::ReadingNotTaken { place, value })
    }

    fn at_fault(position: u8) -> Result<(), Refusal> {
        Err(Refusal::SettingOutOfLimits { position })
    }

    #[test]
    fn bounded_by_twenty_and_a_thousandth(rt: HostRuntime) -> Result<(), Fail> {
        let stage = Bounded::new(20, 1_000)?;
        assert_eq!(rt; ask(&stage, -100), Ok((-121, -79)));
        assert_eq!(rt; ask(&stage, 10), Ok((-11, 31)));
        assert_eq!(rt; ask(&stage, 0), Ok((-21, 21)));
        assert_eq!(rt; ask(&stage, 99_899_980), Ok((99_800_159, 100_000_000)));
        assert_eq!(rt; ask(&stage, 99_899_981), not_taken(1, 99_899_981));
        assert_eq!(rt; ask(&stage, -99_899_980), Ok((-100_000_000, -99_800_159)));
        assert_eq!(rt; ask(&stage, -2_147_483_648), not_taken(1, -2_147_483_648));
        Ok(())
    }

    #[test]
    fn the_relative_limit_is_of_the_true_value(rt: HostRuntime) -> Result<(), Fail> {
        assert_eq!(rt; ask(&Bounded::new(0, 100_000)?, 1_000), Ok((909, 1_112)));
        assert_eq!(rt; ask(&Bounded::new(0, 0)?, 1_000), Ok((1_000, 1_000)));
        Ok(())
    }

    #[test]
    fn settings_out_of_limits(rt: HostRuntime) {
        assert!(rt; Bounded::new(1_000_000, 100_000).is_ok());
        assert!(rt; Bounded::new(1_000_001, 100_001).err().map(Refusal::from) == at_fault(1).err());
        assert!(rt; Bounded::new(1_000_000, 100_001).err().map(Refusal::from) == at_fault(2).err());
        assert!(rt; Step::new(0).err().map(Refusal::from) == at_fault(1).err());
        assert!(rt; Step::new(1_001).err().map(Refusal::from) == at_fault(1).err());
        assert!(rt; Step::new(1_000).is_ok());
    }

    #[test]
    fn half_a_step_is_rounded_up(rt: HostRuntime) -> Result<(), Fail> {
        assert_eq!(rt; ask(&Step::new(1)?, 7), Ok((6, 8)));
        assert_eq!(rt; ask(&Step::new(9)?, -2), Ok((-23, -13)));
        assert_eq!(rt;
            ask(&Step::new(10)?, 9_999_999),
            Ok((99_999_985, 99_999_995))
        );
        assert_eq!(rt; ask(&Step::new(10)?, 10_000_000), not_taken(1, 10_000_000));
        Ok(())
    }

    #[test]
    fn the_chain_of_the_bench(rt: HostRuntime) {
        let chain = standard_chain();
        assert_eq!(rt; chain.count(), 2);
        assert_eq!(rt; ask(&chain, 100), Ok((974, 1_027)));
        assert_eq!(rt; ask(&chain, 200), Ok((1_973, 2_028)));
        assert_eq!(rt; ask(&chain, 9_989_998), not_taken(2, 99_899_985));
        assert_eq!(rt; ask(&chain, 9_989_999), not_taken(2, 99_899_985));
        assert_eq!(rt; ask(&chain, 9_999_999), not_taken(2, 99_999_985));
        assert_eq!(rt; ask(&chain, 10_000_000), not_taken(1, 10_000_000));
    }

    #[test]
    fn places_count_from_the_reading(rt: HostRuntime) -> Result<(), Fail> {
        let step = Step::new(1)?;
        let band = Band::new();
        let below = Chain {
            upper: Chain {
                upper: step,
                lower: step,
            },
            lower: Chain {
                upper: step,
                lower: band,
            },
        };
        assert_eq!(rt; below.count(), 4);
        assert_eq!(rt; ask(&below, 1), not_taken(4, -2));
        let above = Chain {
            upper: band,
            lower: below,
        };
        assert_eq!(rt; ask(&above, 0), not_taken(5, -3));
        assert_eq!(rt; ask(&above, 1), not_taken(1, 1));
        Ok(())
    }

    #[test]
    fn a_new_band_takes_0_alone(rt: HostRuntime) {
        let band = Band::new();
        assert_eq!(rt; ask(&band, 0), Ok((0, 0)));
        assert_eq!(rt; ask(&band, 1), not_taken(1, 1));
        assert_eq!(rt; ask(&band, -1), not_taken(1, -1));
    }

    #[test]
    fn a_reading_belongs_to_the_last_row_not_above_it(rt: HostRuntime) {
        let mut band = Band::new();
        let rows = [
            Row {
                first: -5,
                lower: -100,
                upper: -50,
            },
            Row {
                first: 0,
                lower: -10,
                upper: 10,
            },
            Row {
                first: 7,
                lower: -10,
                upper: 30,
            },
        ];
        assert_eq!(rt; set(&mut band, &rows, 9), Ok(()));
        assert_eq!(rt; ask(&band, -6), not_taken(1, -6));
        assert_eq!(rt; ask(&band, -5), Ok((-100, -50)));
        assert_eq!(rt; ask(&band, -1), Ok((-100, -50)));
        assert_eq!(rt; ask(&band, 0), Ok((-10, 10)));
        assert_eq!(rt; ask(&band, 6), Ok((-10, 10)));
        assert_eq!(rt; ask(&band, 7), Ok((-10, 30)));
        assert_eq!(rt; ask(&band, 9), Ok((-10, 30)));
        assert_eq!(rt; ask(&band, 10), not_taken(1, 10));
    }

    #[test]
    fn the_smallest_position_at_fault_is_told(rt: HostRuntime) {
        let mut band = Band::new();
        let row = Row {
            first: 0,
            lower: 0,
            upper: 1,
        };
        let wrong = Row {
            first: 1,
            lower: 2,
            upper: 1,
        };
        let falling = Row {
            first: 1,
            lower: -1,
            upper: 1,
        };
        let far = Row {
            first: 1,
            lower: 0,
            upper: 100_000_001,
        };
        assert_eq!(rt; set(&mut band, &[], 0), at_fault(0));
        assert_eq!(rt; set(&mut band, &[wrong; 17], 0), at_fault(0));
        assert_eq!(rt; set(&mut band, &[wrong, row], 0), at_fault(1));
        assert_eq!(rt; set(&mut band, &[row, wrong], 0), at_fault(2));
        assert_eq!(rt; set(&mut band, &[row, row], 0), at_fault(2));
        assert_eq!(rt; set(&mut band, &[row, falling], 0), at_fault(2));
        assert_eq!(rt; set(&mut band, &[row, far], -1), at_fault(2));
        assert_eq!(rt; set(&mut band, &[row], -1), at_fault(17));
        assert_eq!(rt; ask(&band, 0), Ok((0, 0)));
        assert_eq!(rt; set(&mut band, &[row], 0), Ok(()));
        assert_eq!(rt; ask(&band, 0), Ok((0, 1)));
    }
}
