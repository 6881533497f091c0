//! Costs in figures.
use lit_base::{
    Ends, Fold, LitList, Profile, RawList, assign_cost, cost, cut_cost, is_assignment, is_cut,
    weight,
};
use std::alloc::Global;
use std::process::Abort;

/// The weights by their shortest lengths, from 1 on, and what groups of one and of two literals cost.
static TABLE: [(u64, u64, u64); 9] = [
    (4096, 4296, 16584),
    (512, 712, 2248),
    (151, 351, 804),
    (64, 264, 456),
    (32, 232, 328),
    (18, 218, 272),
    (11, 211, 244),
    (8, 208, 232),
    (8, 208, 232),
];

/// The first shortest length at which the table has other numbers.
fn first_wrong_row() -> Option<usize> {
    for (place, row) in TABLE.iter().enumerate() {
        let shortest = place + 1;
        if (weight(shortest), cost(1, shortest), cost(2, shortest)) != *row {
            return Some(shortest);
        }
    }
    None
}

#[test]
fn weighs_and_prices_by_the_table(rt: HostRuntime) {
    assert_eq!(rt; first_wrong_row(), None);
    assert_eq!(rt; (weight(4095), cost(4096, 1)), (8, 68_719_476_936));
}

/// The normal form of the words of a text.
fn list_of(alloc: Global, words: &str) -> Option<LitList> {
    let mut raw = RawList::new(alloc);
    for word in words.split(' ') {
        raw.push(word.as_bytes()).ok()?;
    }
    let (list, _) = LitList::normal(alloc, &raw, Fold::No).ok()?;
    Some(list)
}

/// What the cut costs, if the ends are one.
fn price_of(list: &LitList, profile: Profile, ends: &[u16]) -> Option<u64> {
    let mut cut = Ends::new();
    for end in ends {
        cut.try_push(*end).ok()?;
    }
    if is_cut(list, profile, &cut) {
        return Some(cut_cost(list, &cut));
    }
    None
}

/// What the words cost in these runs, if the ends are a cut of them. `None` for want of memory.
fn price_of_words(
    alloc: Global,
    profile: Profile,
    words: &str,
    ends: &[u16],
) -> Option<Option<u64>> {
    let list = list_of(alloc, words)?;
    Some(price_of(&list, profile, ends))
}

const NINE: &str =
    "aaaaaaaa bbbbbbbb cccccccc dddddddd eeeeeeee ffffffff gggggggg hhhhhhhh iiiiiiii";

const LETTERS: &str = "a b c d e f g h i";

/// Words, the ends of at most eight runs, and what they cost.
static CUTS: [(&str, &[u16], Option<u64>); 16] = [
    ("cat dog horse", &[1, 2, 3], Some(934)),
    ("cat dog horse", &[2, 3], Some(1036)),
    ("cat dog horse", &[3], Some(1559)),
    ("cat dog horse", &[1, 1, 3], None),
    ("cat dog horse", &[1, 2], None),
    ("cat dog horse", &[], None),
    ("a", &[1], Some(4296)),
    ("abcdefgh abcdefgi", &[2], Some(232)),
    ("abcdefgh abcdefgi", &[1, 2], Some(416)),
    ("a the", &[1, 2], Some(4647)),
    ("a the", &[2], Some(16584)),
    (NINE, &[4, 9], Some(728)),
    (NINE, &[5, 9], Some(728)),
    (NINE, &[9], Some(848)),
    (LETTERS, &[1, 2, 3, 4, 5, 6, 7, 9], Some(46656)),
    (LETTERS, &[1, 2, 3, 4, 5, 6, 7, 8, 9], None),
];

#[test]
fn prices_cuts(rt: HostRuntime) {
    for (words, ends, wanted) in &CUTS {
        let price = price_of_words(rt.alloc(), Profile::Eight, words, ends);
        assert_eq!(rt; price, Some(*wanted), "{words} cut at {ends:?}");
    }
}

#[test]
fn prices_a_cut_into_nine_runs(rt: HostRuntime) {
    let ends = [1, 2, 3, 4, 5, 6, 7, 8, 9];
    let price = price_of_words(rt.alloc(), Profile::Sixteen, LETTERS, &ends);
    assert_eq!(rt; price, Some(Some(38664)));
}

/// What the literals cost in these buckets, if the numbers assign them.
fn price_in_buckets(list: &LitList, profile: Profile, numbers: &[u8]) -> Option<u64> {
    if is_assignment(list, profile, numbers) {
        return Some(assign_cost(list, profile, numbers));
    }
    None
}

/// What `cat`, `dog` and `horse` cost in these buckets.
fn price_of_animals(cat: u8, dog: u8, horse: u8) -> u64 {
    if cat == dog && dog == horse {
        return 1559;
    }
    if cat == dog {
        return 1036;
    }
    if cat == horse || dog == horse {
        return 1155;
    }
    934
}

/// The first of the 512 assignments, as a number of three digits to the base 8, whose price is another.
fn first_wrong(list: &LitList) -> Option<u16> {
    for number in 0..512_u16 {
        let [cat, dog, horse] = [number / 64, number / 8, number].map(|digits| (digits % 8) as u8);
        let wanted = price_of_animals(cat, dog, horse);
        if price_in_buckets(list, Profile::Eight, &[cat, dog, horse]) != Some(wanted) {
            return Some(number);
        }
    }
    None
}

/// The same for a list of the three.
fn first_wrong_of_animals(alloc: Global) -> Option<Option<u16>> {
    let list = list_of(alloc, "cat dog horse")?;
    Some(first_wrong(&list))
}

#[test]
fn prices_every_assignment_of_three_literals(rt: HostRuntime) {
    assert_eq!(rt; first_wrong_of_animals(rt.alloc()), Some(None));
}

/// What `a` and `the` cost in these buckets, if the numbers assign them.
fn price_of_two(alloc: Global, profile: Profile, numbers: &[u8]) -> Option<Option<u64>> {
    let list = list_of(alloc, "a the")?;
    Some(price_in_buckets(&list, profile, numbers))
}

/// Asserts that it is this.
fn assert_two<R: Abort + AllocGlobal>(
    rt: &R,
    profile: Profile,
    numbers: &[u8],
    price: Option<u64>,
) {
    assert_eq!(*rt;
        price_of_two(rt.alloc(), profile, numbers),
        Some(price),
        "{numbers:?}"
    );
}

#[test]
fn prices_a_bucket_by_its_shortest(rt: HostRuntime) {
    let eight = Profile::Eight;
    assert_two(&rt, eight, &[0, 0], Some(16584));
    assert_two(&rt, eight, &[7, 7], Some(16584));
    assert_two(&rt, eight, &[0, 1], Some(4647));
    assert_two(&rt, eight, &[0, 8], None);
    assert_two(&rt, eight, &[0], None);
}

#[test]
fn prices_the_buckets_after_the_eighth(rt: HostRuntime) {
    let sixteen = Profile::Sixteen;
    assert_two(&rt, sixteen, &[0, 8], Some(4647));
    assert_two(&rt, sixteen, &[15, 15], Some(16584));
    assert_two(&rt, sixteen, &[0, 16], None);
}
