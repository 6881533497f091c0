//! The tables of worked lists, their filter numbers, and the law of candidates.
use list_index::ListIndex;
use lit_base::{Ends, Fault, Fold, LitList, Profile, RawList, is_cut};
use nib_mask::{ByteMasks, Masks, candidate_law, plain_byte};
use std::alloc::Global;
use std::test::Fail;

/// The table that has bucket 0 everywhere.
const ALL: [u16; 16] = [1; 16];

/// The table that has bucket 0 at these places alone.
fn only(places: &[usize]) -> [u16; 16] {
    let mut table = [0; 16];
    for place in places {
        if let Some(entry) = table.get_mut(*place) {
            *entry = 1;
        }
    }
    table
}

/// The normal form of the words of a text.
fn list_of(alloc: Global, fold: Fold, words: &str) -> Result<LitList, Fault> {
    let mut raw = RawList::new(alloc);
    for word in words.split(' ') {
        raw.push(word.as_bytes())?;
    }
    let (list, _) = LitList::normal(alloc, &raw, fold)?;
    Ok(list)
}

/// The ends as a list of at most sixteen.
fn ends_of(places: &[u16]) -> Ends {
    let mut ends = Ends::new();
    for place in places {
        let _pushed = ends.try_push(*place);
    }
    ends
}

/// The tables for the words in these runs, if the ends are a cut of them.
fn masks_of(
    alloc: Global,
    fold: Fold,
    words: &str,
    places: &[u16],
) -> Result<Option<Masks>, Fault> {
    let list = list_of(alloc, fold, words)?;
    let ends = ends_of(places);
    if is_cut(&list, Profile::Sixteen, &ends) {
        Ok(Some(Masks::of(&list, &ends)))
    } else {
        Ok(None)
    }
}

#[test]
fn marks_the_halves_of_one_literal(rt: HostRuntime) -> Result<(), Fail> {
    let found = masks_of(rt.alloc(), Fold::No, "ab", &[1])?;
    let wanted = Masks {
        low: [ALL, only(&[1]), only(&[2])],
        high: [ALL, only(&[6]), only(&[6])],
    };
    assert_eq!(rt; found, Some(wanted));
    assert_eq!(rt; plain_byte(&wanted, b'x', b'a', b'b'), 1);
    assert_eq!(rt; plain_byte(&wanted, b'x', b'a', b'c'), 0);
    assert_eq!(rt; plain_byte(&wanted, b'x', b'A', b'b'), 0);
    Ok(())
}

#[test]
fn marks_both_cases_under_folding(rt: HostRuntime) -> Result<(), Fail> {
    let found = masks_of(rt.alloc(), Fold::Ascii, "ab", &[1])?;
    let wanted = Masks {
        low: [ALL, only(&[1]), only(&[2])],
        high: [ALL, only(&[4, 6]), only(&[4, 6])],
    };
    assert_eq!(rt; found, Some(wanted));
    assert_eq!(rt; plain_byte(&wanted, b'x', b'a', b'b'), 1);
    assert_eq!(rt; plain_byte(&wanted, b'x', b'a', b'c'), 0);
    assert_eq!(rt; plain_byte(&wanted, b'x', b'A', b'b'), 1);
    Ok(())
}

#[test]
fn marks_the_halves_of_two_literals(rt: HostRuntime) -> Result<(), Fail> {
    let words = "abcdefgh abcdefxy";
    let low = [only(&[6]), only(&[7, 8]), only(&[8, 9])];
    let found = masks_of(rt.alloc(), Fold::No, words, &[2])?;
    let wanted = Masks {
        low,
        high: [only(&[6]), only(&[6, 7]), only(&[6, 7])],
    };
    assert_eq!(rt; found, Some(wanted));
    // Halves of two literals pass together, though no literal ends so.
    assert_eq!(rt; plain_byte(&wanted, b'f', b'g', b'y'), 1);
    assert_eq!(rt; plain_byte(&wanted, b'F', b'g', b'y'), 0);

    let found = masks_of(rt.alloc(), Fold::Ascii, words, &[2])?;
    let wanted = Masks {
        low,
        high: [only(&[4, 6]), only(&[4, 5, 6, 7]), only(&[4, 5, 6, 7])],
    };
    assert_eq!(rt; found, Some(wanted));
    assert_eq!(rt; plain_byte(&wanted, b'f', b'g', b'y'), 1);
    assert_eq!(rt; plain_byte(&wanted, b'F', b'G', b'Y'), 1);
    Ok(())
}

#[test]
fn leaves_out_what_a_short_literal_does_not_reach(rt: HostRuntime) -> Result<(), Fail> {
    let found = masks_of(rt.alloc(), Fold::No, "b ab", &[2])?;
    let together = Masks {
        low: [ALL, ALL, only(&[2])],
        high: [ALL, ALL, only(&[6])],
    };
    assert_eq!(rt; found, Some(together));
    assert_eq!(rt; plain_byte(&together, b'x', b'x', b'b'), 1);
    assert_eq!(rt; plain_byte(&together, b'x', b'a', b'x'), 0);

    let apart = masks_of(rt.alloc(), Fold::No, "b ab", &[1, 2])?;
    let apart = apart.ok_or("the ends are a cut")?;
    assert_eq!(rt; plain_byte(&apart, b'x', b'x', b'b'), 1);
    assert_eq!(rt; plain_byte(&apart, b'x', b'a', b'b'), 3);
    assert_eq!(rt; plain_byte(&apart, b'b', b'a', b'x'), 0);
    assert_eq!(rt; apart.low[0], [3; 16]);
    Ok(())
}

#[test]
fn holds_where_a_literal_ends(rt: HostRuntime) -> Result<(), Fail> {
    let text = b"ushers";
    let index = ListIndex::new(
        rt.alloc(),
        list_of(rt.alloc(), Fold::No, "he his she hers")?,
    )?;
    let list = index.list();
    let ends = ends_of(&[1, 4]);
    assert!(rt; is_cut(list, Profile::Sixteen, &ends));
    let place = index.next_ending(text, 4, 1).ok_or("`she` ends there")?;
    assert_eq!(rt; place, 2);
    candidate_law(list, &ends, text, place as u16, 4, *b"..");
    // The first run has a shorter literal; the second has `she`.
    let masks = Masks::of(list, &ends);
    assert_eq!(rt; plain_byte(&masks, b's', b'h', b'e'), 3);
    Ok(())
}

#[test]
fn gives_the_ninth_bucket_a_bit_of_its_own(rt: HostRuntime) -> Result<(), Fail> {
    let found = masks_of(
        rt.alloc(),
        Fold::No,
        "a b c d e f g h i",
        &[1, 2, 3, 4, 5, 6, 7, 8, 9],
    )?;
    let found = found.ok_or("the ends are a cut")?;
    assert_eq!(rt; (found.low[2][9], found.high[2][6]), (0x100, 0x1FF));
    assert_eq!(rt; plain_byte(&found, b'x', b'x', b'i'), 0x100);
    assert_eq!(rt; found.first_eight().filter_byte(b'x', b'x', b'i'), 0);
    assert_eq!(rt; found.last_eight().filter_byte(b'x', b'x', b'i'), 1);
    assert_eq!(rt; found.first_eight().filter_byte(b'x', b'x', b'h'), 0x80);
    Ok(())
}

/// The tables by the prefixes of all words, where there is an offset and a bucket for each.
fn prefixes_of(
    alloc: Global,
    fold: Fold,
    words: &str,
    offsets: &[u8],
    buckets: &[u8],
) -> Result<Option<ByteMasks>, Fault> {
    let list = list_of(alloc, fold, words)?;
    let count = list.len();
    if offsets.len() < count || buckets.len() < count {
        return Ok(None);
    }
    Ok(Some(ByteMasks::of_prefixes(&list, offsets, buckets)))
}

#[test]
fn marks_prefixes_in_their_own_buckets_alone(rt: HostRuntime) -> Result<(), Fail> {
    let found = prefixes_of(rt.alloc(), Fold::No, "abc xyzt", &[0, 1], &[0, 9])?;
    let found = found.ok_or("there is a bucket for each word")?;
    assert_eq!(rt; found.filter_byte(b'a', b'b', b'c'), 1);
    assert_eq!(rt; found.filter_byte(b'x', b'y', b'z'), 2);
    assert_eq!(rt; found.filter_byte(b'a', b'y', b'c'), 0);
    assert_eq!(rt; found.filter_byte(b'y', b'z', b't'), 0);
    assert_eq!(rt; found.filter_byte(b'A', b'b', b'c'), 0);
    Ok(())
}

#[test]
fn marks_short_prefixes_in_either_case(rt: HostRuntime) -> Result<(), Fail> {
    let found = prefixes_of(rt.alloc(), Fold::Ascii, "ab", &[0], &[3])?;
    let found = found.ok_or("there is a bucket for the word")?;
    assert_eq!(rt; found.filter_byte(b'.', b'a', b'B'), 8);
    assert_eq!(rt; found.filter_byte(b'.', b'b', b'b'), 0);
    Ok(())
}
