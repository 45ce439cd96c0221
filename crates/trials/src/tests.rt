use crate::chain::{LATE, chain};
use crate::outcome::Outcome;
use crate::perform::{blank, link, size, strike};
use book::{Book, Link};
use kinds::Ticks;
use std::test::Fail;

// The number of the refusal, as a report prints it, or 0.
fn number(outcome: Outcome) -> u32 {
    outcome.err().map_or(0, |shown| shown.refusal.number())
}

#[test]
fn sizes_are_1_to_1024(rt: HostRuntime) {
    let mut records = [blank::<Ticks>(); 3];
    let mut book = Book::<Ticks>::new(&mut records);
    assert_eq!(rt; number(size(&mut book, 0)), 8);
    assert_eq!(rt; number(size(&mut book, 1025)), 8);
    assert_eq!(rt; number(size(&mut book, 1)), 0);
    assert_eq!(rt; number(size(&mut book, 1024)), 0);
}

#[test]
fn size_keeps_the_links(rt: HostRuntime) {
    let mut records = [blank::<Ticks>(); 3];
    let (mut book, _) = chain(&mut records);
    assert_eq!(rt; number(size(&mut book, 2)), 9);
}

#[test]
fn short_rows_are_left(rt: HostRuntime) -> Result<(), Fail> {
    let mut records = [blank::<Ticks>(); 3];
    let mut book = Book::<Ticks>::new(&mut records);
    assert_eq!(rt; number(size(&mut book, 2)), 0);
    let mut totals = [7; 4];
    let mut numbers = [7; 7];
    let mut steps = [7; 2];
    let new = Link {
        from: 1,
        to: 2,
        ..blank::<Ticks>()
    };
    let Err(refused) = book.link(new, &mut totals, &mut numbers, &mut steps) else {
        return Err(Fail::new("short rows suffice"));
    };
    assert_eq!(rt; refused.refusal.number(), 10);
    assert_eq!(rt; totals, [7; 4]);
    assert_eq!(rt; numbers, [7; 7]);
    assert_eq!(rt; steps, [7; 2]);
    Ok(())
}

#[test]
fn strikes_only_what_stands(rt: HostRuntime) {
    let mut records = [blank::<Ticks>(); 3];
    let (mut book, _) = chain(&mut records);
    assert_eq!(rt; number(strike(&mut book, 3, 2)), 6);
}

#[test]
fn shown_words_are_walked(rt: HostRuntime) -> Result<(), Fail> {
    let mut records = [blank::<Ticks>(); 3];
    let (mut book, _) = chain(&mut records);
    let Err(refused) = link(&mut book, &mut [0; 6], LATE) else {
        return Err(Fail::new("the link fits"));
    };
    let Ok((measured, wanted)) = book.walk(&refused.words[0..2]) else {
        return Err(Fail::new("no walk"));
    };
    assert_eq!(rt; measured, -3);
    assert_eq!(rt; wanted, -6);
    Ok(())
}
