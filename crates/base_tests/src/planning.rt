//! Plans of worked lists, and how many prices they ask for.

ghost use Rattle.std.specs.Prelude.{◌+◌, ◌<◌};

use lit_base::{Fold, LitList, Profile, RawList};
use lit_cert::{Certificate, check};
use run_planner::{Fault, ListMeter, Meter, plan, plan_counted};
use std::alloc::Global;
use std::test::Fail;

/// The normal form of the patterns.
fn list_of(alloc: Global, patterns: &[&[u8]]) -> Result<LitList, lit_base::Fault> {
    let mut raw = RawList::new(alloc);
    for pattern in patterns {
        raw.push(pattern)?;
    }
    let (list, _) = LitList::normal(alloc, &raw, Fold::No)?;
    Ok(list)
}

/// Whether the plan has these ends and this cost, and is certified.
fn has_plan(list: &LitList, plan: &Certificate, ends: &[u16], cost: u64) -> bool {
    plan.ends.as_slice() == ends && plan.cost == cost && check(list, plan).is_ok()
}

/// Whether the patterns have a plan of the ends and this cost.
fn are_planned(
    alloc: Global,
    profile: Profile,
    patterns: &[&[u8]],
    ends: &[u16],
    cost: u64,
) -> Result<bool, Fail> {
    let list = list_of(alloc, patterns)?;
    let found = plan(alloc, &list, profile)?;
    Ok(has_plan(&list, &found, ends, cost))
}

/// Nine literals of eight bytes.
const NINE_LONG: &[&[u8]] = &[
    b"aaaaaaaa",
    b"bbbbbbbb",
    b"cccccccc",
    b"dddddddd",
    b"eeeeeeee",
    b"ffffffff",
    b"gggggggg",
    b"hhhhhhhh",
    b"iiiiiiii",
];

/// Nine literals of one byte.
const NINE_LETTERS: &[&[u8]] = &[b"a", b"b", b"c", b"d", b"e", b"f", b"g", b"h", b"i"];

/// Patterns, and the ends and the cost of their plan of eight buckets.
static WORKED: [(&[&[u8]], &[u16], u64); 7] = [
    (&[b"cat", b"dog", b"horse"], &[1, 2, 3], 934),
    (&[b"a"], &[1], 4296),
    (&[b"abcdefgh", b"abcdefgi"], &[2], 232),
    (&[b"a", b"the"], &[1, 2], 4647),
    (NINE_LONG, &[4, 9], 728),
    (NINE_LETTERS, &[1, 2, 3, 4, 5, 6, 7, 9], 46_656),
    (
        &[
            b"aaaaa",
            b"aaaaaaa",
            b"bbbbbbb",
            b"aaaaaaaa",
            b"bbbbbbbb",
            b"cccccccc",
            b"dddddddd",
        ],
        &[2, 7],
        803,
    ),
];

#[test]
fn plans_the_worked_lists(rt: HostRuntime) -> Result<(), Fail> {
    for (patterns, ends, price) in &WORKED {
        assert!(rt;
            are_planned(rt.alloc(), Profile::Eight, patterns, ends, *price)?,
            "cost {price}"
        );
    }
    Ok(())
}

/// The same of sixteen buckets.
static WORKED_BY_SIXTEEN: [(&[&[u8]], &[u16], u64); 3] = [
    (&[b"cat", b"dog", b"horse"], &[1, 2, 3], 934),
    (NINE_LONG, &[4, 9], 728),
    (NINE_LETTERS, &[1, 2, 3, 4, 5, 6, 7, 8, 9], 38_664),
];

#[test]
fn plans_the_worked_lists_by_sixteen(rt: HostRuntime) -> Result<(), Fail> {
    for (patterns, ends, price) in &WORKED_BY_SIXTEEN {
        assert!(rt;
            are_planned(rt.alloc(), Profile::Sixteen, patterns, ends, *price)?,
            "cost {price}"
        );
    }
    Ok(())
}

/// Whether the plan of the patterns has these potentials.
fn have_potentials(alloc: Global, patterns: &[&[u8]], wanted: &[u64]) -> Result<bool, Fail> {
    let list = list_of(alloc, patterns)?;
    let found = plan(alloc, &list, Profile::Eight)?;
    Ok(found.potentials.as_slice() == wanted)
}

static OF_THREE: [u64; 24] = [
    1559, 804, 232, 1036, 583, 232, 934, 583, 232, 934, 583, 232, 934, 583, 232, 934, 583, 232,
    934, 583, 232, 934, 583, 232,
];

static OF_TWO: [u64; 16] = [
    232, 208, 232, 208, 232, 208, 232, 208, 232, 208, 232, 208, 232, 208, 232, 208,
];

#[test]
fn gives_the_worked_potentials(rt: HostRuntime) -> Result<(), Fail> {
    let alloc = rt.alloc();
    assert!(rt; have_potentials(alloc, &[b"cat", b"dog", b"horse"], &OF_THREE)?);
    assert!(rt; have_potentials(alloc, &[b"a"], &[4296; 8])?);
    assert!(rt; have_potentials(alloc, &[b"abcdefgh", b"abcdefgi"], &OF_TWO)?);
    Ok(())
}

#[test]
fn refuses_a_list_without_literals(rt: HostRuntime) -> Result<(), Fail> {
    let list = list_of(rt.alloc(), &[b""])?;
    assert!(rt;
        matches!(
            plan(rt.alloc(), &list, Profile::Eight),
            Err(Fault::NoLiterals)
        )
    );
    assert_eq!(rt; Fault::NoLiterals.number(), 5);
    assert_eq!(rt; Fault::OutOfMemory.number(), 1);
    Ok(())
}

/// A meter of three places, whose prices are the squares of the runs' widths.
#[derive(Drop)]
struct Squares {
    count: u64,
}

impl Meter for Squares {
    ghost use Rattle.run_planner.specs.Squares.{square_of};
    ghost use Rattle.run_planner.proofs.Squares.{squares-small, squares-quadrangle};

    ghost size = { λ _. 3 };

    ghost prices = { λ _. square_of };

    ghost count = { λ m. m.count };

    fn price(&mut self, p: u16, q: u16) -> u64 {
        self.count += 1;
        let width = u64::from(q - p);
        width * width
    }

    ghost small = { λ _. squares-small };

    ghost quadrangle = { λ _. squares-quadrangle };
}

#[test]
fn plans_by_the_meters_prices(rt: HostRuntime) -> Result<(), Fail> {
    let mut meter = Squares { count: 0 };
    let found = plan_counted(rt.alloc(), 3, Profile::Eight, &mut meter)?;
    assert_eq!(rt; found.ends.as_slice(), [1, 2, 3].as_slice());
    assert_eq!(rt; found.cost, 3);
    assert!(rt; found.potentials.as_slice().starts_with(&[9, 4, 1]));
    assert!(rt; meter.count <= 96);
    Ok(())
}

/// How many prices a plan of the list asks for, if it has these ends and this cost.
fn prices_asked(
    alloc: Global,
    list: &LitList,
    profile: Profile,
    ends: &[u16],
    cost: u64,
) -> Result<Option<u64>, Fault> {
    let mut meter = ListMeter::new(list);
    let found = plan_counted(alloc, list.len() as u16, profile, &mut meter)?;
    let is_found = has_plan(list, &found, ends, cost);
    Ok(if is_found { Some(meter.count()) } else { None })
}

#[test]
fn asks_for_few_prices(rt: HostRuntime) -> Result<(), Fail> {
    let list = list_of(rt.alloc(), &[b"cat", b"dog", b"horse"])?;
    let asked = prices_asked(rt.alloc(), &list, Profile::Eight, &[1, 2, 3], 934)?;
    assert!(rt; asked.is_some_and(|count| count <= 96));
    Ok(())
}

#[test]
fn asks_for_few_prices_of_sixteen_runs(rt: HostRuntime) -> Result<(), Fail> {
    let list = list_of(rt.alloc(), NINE_LETTERS)?;
    let ends = [1, 2, 3, 4, 5, 6, 7, 8, 9];
    let asked = prices_asked(rt.alloc(), &list, Profile::Sixteen, &ends, 38_664)?;
    assert!(rt; asked.is_some_and(|count| count <= 1152));
    Ok(())
}

/// `count` different literals of two bytes.
fn pairs(alloc: Global, count: u16) -> Result<LitList, lit_base::Fault> {
    let mut raw = RawList::new(alloc);
    for number in 0..count {
        raw.push(&number.to_be_bytes())?;
    }
    let (list, _) = LitList::normal(alloc, &raw, Fold::No)?;
    Ok(list)
}

#[test]
fn plans_a_long_list_with_few_prices(rt: HostRuntime) -> Result<(), Fail> {
    let list = pairs(rt.alloc(), 1024)?;
    let ends = [128, 256, 384, 512, 640, 768, 896, 1024];
    let asked = prices_asked(rt.alloc(), &list, Profile::Eight, &ends, 67_110_464)?;
    assert!(rt; asked.is_some_and(|count| count <= 180_224));
    Ok(())
}

#[test]
fn plans_a_full_list_with_few_prices(rt: HostRuntime) -> Result<(), Fail> {
    let list = pairs(rt.alloc(), 4096)?;
    let ends = [
        256, 512, 768, 1024, 1280, 1536, 1792, 2048, 2304, 2560, 2816, 3072, 3328, 3584, 3840, 4096,
    ];
    let asked = prices_asked(rt.alloc(), &list, Profile::Sixteen, &ends, 536_874_112)?;
    assert!(rt; asked.is_some_and(|count| count <= 1_703_936));
    Ok(())
}
