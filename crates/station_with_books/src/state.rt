ghost use Rattle.std.specs.Prelude.{◌*◌, ◌≤◌};

use grammar::Book;

mod calls;

/// A station for one kind of symbol. Nothing but its calls changes it.
#[derive(Drop)]
pub struct Station<K> {
    kind: K,
    // the book in force
    book: Option<Book>,
    // the steps on the bill
    sum: u64,
    // the reads since the last settle
    reads: u32,
    // at most 1,000,000 reads of at most 16,777,216 steps each: the sum cannot wrap
    ghost within: { (reads ≤ 1000000) × (sum ≤ reads * 16777216) },
}
