ghost use Rattle.std.specs.Prelude.{◌≡◌, []};
ghost use Rattle.station.specs.declared.state.Station.{Station};
ghost use Rattle.station.specs.Law.{bill, settle, total, Log, Lawful};
ghost use Rattle.station.specs.Whole.{Law};
ghost use Rattle.station.specs.Stand.{Stands, Keeps, Linked};

use crate::state::Station;
use kinds::Kind;
use std::mem;

impl<K: Kind> Station<K> {
    /// A station for this kind, with no book, nothing on the bill and no reads counted.
    ///
    /// Calls that follow one another from it make a lawful log, and of lawful logs the law holds.
    #[tactic(auto, using(crate::proofs::Whole::the_law))]
    pub fn new(kind: K) -> Self
        ensures made { (result.kind ≡ kind) × (result.sum ≡ 0) × (result.reads ≡ 0) }
        ensures stands { Stands {S = K.Symbol} kind result [] }
        ensures linked { (s : Station K) (log : Log K.Symbol) → Linked result s log → Lawful log × Stands kind s log }
        ensures law { Law K.Symbol }
    {
        Station {
            kind,
            sum: 0,
            reads: 0,
        }
    }

    /// The steps on the bill.
    #[tactic(auto, using(crate::specs::Law::billed))]
    pub fn bill(&self) -> u64
        ensures keeps { Keeps {S = K.Symbol} self.now bill (total result) self.now }
        ensures sum { result ≡ self.now.sum }
    {
        self.sum
    }

    /// The steps on the bill; the sum and the count of reads start again from 0.
    #[tactic(auto, using(crate::specs::Law::settled))]
    pub fn settle(&mut self) -> u64
        ensures keeps { Keeps {S = K.Symbol} self.old settle (total result) self.new }
        ensures sum { result ≡ self.old.sum }
        ensures anew { (self.new.kind ≡ self.old.kind) × (self.new.sum ≡ 0) × (self.new.reads ≡ 0) }
    {
        self.reads = 0;
        mem::take(&mut self.sum)
    }
}
