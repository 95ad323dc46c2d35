//! Measures places on a disk of 100 MiB with 512-byte sectors, aligned to 1 MiB: its shares are of 98 MiB.

ghost use Rattle.std.specs.Prelude.{◌≡◌, IfOk};

#[cfg(test)]
mod tests {
    use gptedit_core::{
        Amount, Asked, DEFAULT_ALIGN, Extent, Measure, Measured, Position, Scale, SectorRange,
        Size, Unmeasured, WHOLE, measure_request,
    };
    use gptman::GPT;
    use std::alloc::Global;
    use std::test::Fail;
    use test_fixtures::samples;

    const MIB: u64 = 1 << 20;

    const THERE: SectorRange = SectorRange {
        first: 4096,
        last: 8191,
    };

    fn table(alloc: Global) -> gptman::Result<GPT>
        ensures sector { IfOk result (λ g. g.sector_size ≡ 512) }
    {
        let mut table = samples::disk_1(alloc)?;
        table.sector_size = 512;
        table.header.first_usable_lba = 34;
        table.header.last_usable_lba = 204_766;
        Ok(table)
    }

    fn scale() -> Scale {
        Scale {
            sector_size: 512,
            align: 2048,
            first: 2048,
            last: 202_752,
            end: 204_767,
        }
    }

    fn at(position: Position) -> Result<(u64, bool), Unmeasured> {
        let measured = scale().sector(position)?;
        Ok((measured.sectors, measured.is_rounded))
    }

    fn size(extent: Extent) -> Result<(Size, bool), Unmeasured> {
        let measured = scale().size(extent, None, Some(THERE))?;
        Ok((measured.size, measured.is_rounded))
    }

    fn sectors(count: u64) -> Size {
        Size::Exactly(Amount::Sectors(count))
    }

    #[test]
    fn the_scale_of_a_table(rt: HostRuntime) -> std::result::Result<(), Fail> {
        let table = table(rt.alloc())?;
        let Ok(scale) = Scale::of(&table, DEFAULT_ALIGN) else {
            assert!(rt; false);
            return Ok(());
        };
        assert!(rt; scale.sector_size == 512 && scale.align == 2048 && scale.first == 2048);
        assert!(rt; scale.last == 202_752 && scale.end == 204_767);
        let none = Scale::of(&table, Amount::Bytes(0)).err();
        assert!(rt; none == Some(Unmeasured::NoAlignment));
        let odd = Scale::of(&table, Amount::Bytes(700)).err();
        assert!(rt; odd == Some(Unmeasured::NotWhole(Amount::Bytes(700))));
        Ok(())
    }

    #[test]
    fn shares_are_counted_from_the_first_multiple(rt: HostRuntime) {
        let share = |percent: u64| at(Position::FromStart(Measure::Share(percent * (WHOLE / 100))));
        assert!(rt; share(0) == Ok((2048, false)));
        assert!(rt; share(25) == Ok((51_200, true)));
        assert!(rt; share(50) == Ok((102_400, false)));
        assert!(rt; share(100) == Ok((202_752, false)));
    }

    #[test]
    fn positions(rt: HostRuntime) {
        let mib = Measure::Exactly(Amount::Bytes(MIB));
        assert!(rt; at(Position::FromStart(mib)) == Ok((2048, false)));
        assert!(rt; at(Position::FromEnd(mib)) == Ok((200_704, true)));
        let odd = Measure::Exactly(Amount::Sectors(2015));
        assert!(rt; at(Position::FromEnd(odd)) == Ok((202_752, false)));
        assert!(rt; at(Position::FromStart(Measure::About(3_000_000))) == Ok((4096, true)));
        let far = Measure::Exactly(Amount::Bytes(200 * MIB));
        assert!(rt; at(Position::FromEnd(far)) == Err(Unmeasured::BeforeStart));
        let part = Measure::Exactly(Amount::Bytes(700));
        assert!(rt; at(Position::FromStart(part)) == Err(Unmeasured::NotWhole(Amount::Bytes(700))));
        let huge = Measure::Share(u64::MAX);
        assert!(rt; at(Position::FromStart(huge)) == Ok((37_023_353_225_699_328, true)));
    }

    #[test]
    fn sizes(rt: HostRuntime) {
        let mib = Measure::Exactly(Amount::Bytes(MIB));
        assert!(rt; size(Extent::Size(mib)) == Ok((sectors(2048), false)));
        assert!(rt; size(Extent::Size(Measure::Share(WHOLE / 4))) == Ok((sectors(49_152), true)));
        assert!(rt; size(Extent::Size(Measure::About(1000))) == Err(Unmeasured::NoSize));
        assert!(rt; size(Extent::Rest) == Ok((Size::Rest, false)));
        assert!(rt; size(Extent::More(mib)) == Ok((sectors(6144), false)));
        assert!(rt; size(Extent::Less(mib)) == Ok((sectors(2048), false)));
        assert!(rt; size(Extent::Less(Measure::About(2 * MIB))) == Err(Unmeasured::NoSize));
        let last = Position::FromStart(Measure::Exactly(Amount::Sectors(10_239)));
        assert!(rt; size(Extent::End(last)) == Ok((sectors(6144), false)));
        assert!(rt; size(Extent::End(Position::FromStart(mib))) == Err(Unmeasured::NoSize));
        let end = Position::FromEnd(Measure::Share(0));
        assert!(rt; size(Extent::End(end)) == Ok((sectors(198_656), true)));
        let all = Measure::Exactly(Amount::Sectors(u64::MAX));
        assert!(rt; size(Extent::More(all)) == Err(Unmeasured::TooLarge));
    }

    #[test]
    fn a_request_gets_its_start_and_size(rt: HostRuntime) -> std::result::Result<(), Fail> {
        let table = table(rt.alloc())?;
        let half = Position::FromStart(Measure::Share(WHOLE / 2));
        let end = Extent::End(Position::FromEnd(Measure::Exactly(Amount::Bytes(MIB))));
        let asked = Asked {
            attributes: Some(4),
            ..Asked::nothing(None)
        };
        let request = measure_request(asked, &table, DEFAULT_ALIGN, Some(half), Some(end));
        let Ok(request) = request else {
            assert!(rt; false);
            return Ok(());
        };
        assert!(rt; request.asked.start == Some(Amount::Sectors(102_400)));
        assert!(rt; request.asked.size == Some(sectors(98_304)));
        assert!(rt; request.asked.attributes == Some(4));
        assert!(rt; !request.is_start_rounded && request.is_size_rounded);
        let more = Extent::More(Measure::About(MIB));
        let none = measure_request(
            Asked::nothing(Some(100)),
            &table,
            DEFAULT_ALIGN,
            None,
            Some(more),
        );
        assert!(rt; matches!(none, Err(Unmeasured::NoPartition)));
        let ends = measure_request(Asked::nothing(None), &table, DEFAULT_ALIGN, None, Some(end));
        assert!(rt; matches!(ends, Err(Unmeasured::NoStart)));
        Ok(())
    }
}
