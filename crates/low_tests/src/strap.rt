// Values from outside: worked rows, and the least and the greatest arguments.

ghost use Rattle.pb_limits.specs.Ranges.{IsLevel, IsVolume};

use pb_strap::*;
use std::alloc::Global;
use std::process::Abort;
use std::test::Fail;

// A table with a point of level 0 and volume 0, and another point.
fn of_two(alloc: Global, mm: i64, ml: i64) -> Result<Strap, Fail>
    requires level { IsLevel mm }
    requires volume { IsVolume ml }
{
    let mut strap = Strap::new(alloc);
    strap.push(0, 0)?;
    strap.push(mm, ml)?;
    Ok(strap)
}

#[test]
fn adds_a_point(rt: HostRuntime) -> Result<(), Fail> {
    let mut strap = Strap::new(rt.alloc());
    let before = strap.volume(0);
    strap.add(0, 7)?;
    assert_eq!(rt;
        (before, strap.volume(0)),
        (None, Some(7)),
        "at the only point"
    );
    Ok(())
}

#[test]
fn between_points(rt: HostRuntime) -> Result<(), Fail> {
    let strap = of_two(rt.alloc(), 10_000, 5_000_000_000)?;
    assert_eq!(rt;
        [
            strap.volume(3_333),
            strap.grams(3_333, 850_000),
            strap.volume(-1),
            strap.grams(10_001, 850_000),
        ],
        [Some(1_666_500_000), Some(1_416_525_000), None, None]
    );
    Ok(())
}

// The volumes at the levels from 0 to 4.
fn volumes(strap: &Strap) -> [Option<i64>; 5] {
    [
        strap.volume(0),
        strap.volume(1),
        strap.volume(2),
        strap.volume(3),
        strap.volume(4),
    ]
}

#[test]
fn rounded_down(rt: HostRuntime) -> Result<(), Fail> {
    let mut strap = of_two(rt.alloc(), 3, 10)?;
    let volumes = volumes(&strap);
    strap.push(5, 10)?;
    assert_eq!(rt;
        (volumes, strap.volume(4)),
        ([Some(0), Some(3), Some(6), Some(10), None], Some(10))
    );
    Ok(())
}

#[test]
fn greatest(rt: HostRuntime) -> Result<(), Fail> {
    let strap = of_two(rt.alloc(), 100_000, 1_000_000_000_000)?;
    assert_eq!(rt;
        [
            strap.volume(99_999),
            strap.grams(100_000, 20_000_000),
            strap.grams(1, 1),
            strap.volume(i64::MAX),
            strap.volume(i64::MIN),
        ],
        [
            Some(999_990_000_000),
            Some(20_000_000_000_000),
            Some(10),
            None,
            None,
        ]
    );
    Ok(())
}

// Whether an empty table takes as many points as fit, and is full only after the last.
fn is_filled(strap: &mut Strap) -> Result<bool, Fail> {
    let mut has_room = strap.is_empty();
    for level in 0..2_000u32 {
        has_room = has_room && !strap.is_full();
        strap.push(i64::from(level), 7)?;
    }
    Ok(has_room && strap.is_full())
}

// The refusals of a full table, whose last point is at 1,999 and 7.
fn assert_refused(rt: &impl Abort, strap: &mut Strap) {
    let table: [(u16, u16, StrapRefused, bool); 3] = [
        (1_999, 7, StrapRefused::NotRising, false),
        (2_000, 6, StrapRefused::NotRising, false),
        (2_000, 7, StrapRefused::Full, true),
    ];
    for (mm, ml, want, rises) in table {
        let (mm, ml) = (i64::from(mm), i64::from(ml));
        assert_eq!(rt;
            (strap.rises(mm, ml), strap.push(mm, ml)),
            (rises, Err(want)),
            "{mm} {ml}"
        );
    }
}

#[test]
fn refusals(rt: HostRuntime) -> Result<(), Fail> {
    let mut strap = Strap::new(rt.alloc());
    let is_filled = is_filled(&mut strap)?;
    assert_refused(&rt, &mut strap);
    assert_eq!(rt;
        (is_filled, strap.len(), strap.volume(2_000)),
        (true, 2_000, None),
        "a table of 2,000 points"
    );
    Ok(())
}
