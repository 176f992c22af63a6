//! Two threads that share a book: they draw, try and settle.
use crate::plans::four_shards;
use crate::tally::Tally;
use std::process::Abort;
use std::sync::Wait;
use std::test::Fail;
use std::thread;
use std::thread::Threads;
use sz_book::{Book, BookPass, Load};

// Draws each ticket that comes, tries it and settles it.
fn work<T: Load, W: Wait>(rt: &W, book: &Book<T>, mut pass: BookPass) -> BookPass {
    for _ in 0..8 {
        let Some(claim) = book.draw(rt, &mut pass) else {
            break;
        };
        if let Some(number) = book.number(rt, &mut pass, &claim) {
            book.settle(rt, &mut pass, &claim, number);
        }
    }
    pass
}

fn work_both<T: Load + Send, R: Threads + Wait + Sync>(
    rt: &R,
    book: &Book<T>,
    first: BookPass,
    second: BookPass,
) -> (BookPass, BookPass) {
    thread::join(
        rt,
        move || work(rt, book, first),
        move || work(rt, book, second),
    )
}

#[test]
fn two_threads_settle_each_shard(rt: HostRuntime) -> Result<(), Fail> {
    let alloc = rt.alloc();
    let (book, mut first) = Book::<Tally>::make(alloc, four_shards(alloc)?, Vec::new(alloc), 2)?;
    let second = book.split(&rt, &mut first).expect(&rt, "two passes");
    let (mut first, second) = work_both(&rt, &book, first, second);
    book.join(&rt, &mut first, second);
    let closed = book.close(&rt, first);
    let is_settled = closed.settled.as_slice() == [1u64, 1, 1, 1].as_slice();
    let is_good = closed.least_bad.is_none();
    drop(closed);
    assert_eq!(rt; (is_settled, is_good), (true, true));
    Ok(())
}
