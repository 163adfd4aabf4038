ghost use Rattle.std.specs.Prelude.{◌≡◌, [], None};
ghost use Rattle.station_with_books.specs.declared.state.Station.{Station};
ghost use Rattle.station_with_books.specs.Law.{load, show, bill, settle, total, Log, Lawful};
ghost use Rattle.station_with_books.specs.Whole.{Law};
ghost use Rattle.station_with_books.specs.Stand.{Stands, Keeps, Linked, load_reply, show_reply};
ghost use Rattle.station_with_books.specs.Calls.{Loads, Shows};

use crate::answers::{Counts, ShowRefusal};
use crate::state::Station;
use books::{BookFault, read_book};
use kinds::Kind;
use std::mem;
use writing::write_book;

// Each clause `keeps` names its own call and reply, so no invariant of the station can say it for all.
impl<K: Kind> Station<K> {
    /// A station for this kind, with no book, nothing on the bill and no reads counted.
    ///
    /// Calls that follow one another from it make a lawful log, and of lawful logs the law holds.
    #[tactic(auto, using(crate::proofs::Whole::the_law))]
    pub fn new(kind: K) -> Self
        ensures made { (result.kind ≡ kind) × (result.book ≡ None) × (result.sum ≡ 0) × (result.reads ≡ 0) }
        ensures stands { Stands {S = K.Symbol} K.Kind.lawful kind result [] }
        ensures linked { (s : Station K) (log : Log K.Symbol) → Linked K.Kind.lawful result s log → Lawful (K.Kind.lawful kind) log × Stands K.Kind.lawful kind s log }
        ensures law { Law (K.Kind.lawful kind) K.Symbol }
    {
        Station {
            kind,
            book: None,
            sum: 0,
            reads: 0,
        }
    }

    /// Takes a book, if it is an allowed one, and puts it in force; answers its counts, or what is
    /// wrong with it. The bill and the count of reads stay, and a refused load changes nothing.
    pub fn load(&mut self, bytes: &[u8]) -> Result<Counts, BookFault>
        ensures keeps { Keeps {S = K.Symbol} K.Kind.lawful self.old (load bytes.now) (load_reply result) self.new }
        ensures loads { Loads (K.Kind.lawful self.old.kind) self.old bytes.now result self.new }
    {
        let book = read_book(&self.kind, bytes)?;
        let counts = Counts::from(&book);
        self.book = Some(book);
        Ok(counts)
    }

    /// Writes the book in force to the front of `out`, and answers how many bytes that took; bytes
    /// past them stay. A refused show leaves `out` as it was.
    #[tactic(auto, using(crate::proofs::Promises::shows_keep))]
    pub fn show(&self, out: &mut [u8]) -> Result<usize, ShowRefusal>
        ensures keeps { Keeps {S = K.Symbol} K.Kind.lawful self.now (show out.old) (show_reply result out.new) self.now }
        ensures shows { Shows self.now.book out.old result out.new }
    {
        let book = self.book.as_ref().ok_or(ShowRefusal::NoBook)?;
        write_book(book, out).ok_or(ShowRefusal::TooShort)
    }

    /// The steps on the bill.
    #[tactic(auto, using(crate::specs::Law::billed))]
    pub fn bill(&self) -> u64
        ensures keeps { Keeps {S = K.Symbol} K.Kind.lawful self.now bill (total result) self.now }
        ensures sum { result ≡ self.now.sum }
    {
        self.sum
    }

    /// The steps on the bill; the sum and the count of reads start again from 0.
    #[tactic(auto, using(crate::specs::Law::settled))]
    pub fn settle(&mut self) -> u64
        ensures keeps { Keeps {S = K.Symbol} K.Kind.lawful self.old settle (total result) self.new }
        ensures sum { result ≡ self.old.sum }
        ensures anew { (self.new.kind ≡ self.old.kind) × (self.new.book ≡ self.old.book) × (self.new.sum ≡ 0) × (self.new.reads ≡ 0) }
    {
        self.reads = 0;
        mem::take(&mut self.sum)
    }
}
