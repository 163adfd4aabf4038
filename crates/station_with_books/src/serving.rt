ghost use Rattle.std.specs.Prelude.{◌≡◌, min, length, take, drop};
ghost use Rattle.station_with_books.specs.Whole.{Law};
ghost use Rattle.station_with_books.specs.Served.{Asked, Served};

use crate::request::{Answer, Request};
use crate::state::Station;
use kinds::Kind;

/// Makes a station for the kind and runs the requests in order, as many as there is room for
/// answers; answers how many were run. These calls with these replies are a lawful log, and the law
/// over lawful logs holds. Books are shown in the buffer `out`, one after another. Answers past
/// those stay as they were.
#[tactic(auto, using(crate::proofs::Serves::serving_none))]
pub fn serve<K: Kind + Drop>(
    kind: K,
    requests: &[Request<'_>],
    out: &mut [u8],
    answers: &mut [Answer],
) -> usize
    ensures count { result ≡ min (length requests.now) (length answers.old) }
    ensures served { Served K.Symbol (K.Kind.lawful kind) out.old (take result requests.now) (take result answers.new) out.new }
    ensures untouched { drop result answers.new ≡ drop result answers.old }
    ensures law { Law (K.Kind.lawful kind) K.Symbol }
{
    let mut station = Station::new(kind);
    // not by `zip`: of what is written through it a proof keeps only the length
    for (i, answer) in answers.iter_mut().enumerate() {
        let Some(request) = requests.get(i) else {
            return i;
        };
        *answer = ask(&mut station, *request, out);
    }
    answers.len()
}

// One request.
// A match, and no closures: the calls are a closed list, and each takes and answers something else.
#[tactic(auto, using(crate::proofs::Asks::asked_load, crate::proofs::Asks::asked_show, crate::proofs::Asks::asked_bill, crate::proofs::Asks::asked_settle))]
fn ask<K: Kind>(station: &mut Station<K>, request: Request<'_>, out: &mut [u8]) -> Answer
    ensures { Asked K.Symbol K.Kind.lawful station.old out.old request.entry result station.new out.new }
{
    match request {
        Request::Load(bytes) => Answer::Loaded(station.load(bytes)),
        Request::Show(length) => {
            let length = length.min(out.len());
            Answer::Shown(station.show(&mut out[..length]))
        }
        Request::Bill => Answer::Total(station.bill()),
        Request::Settle => Answer::Total(station.settle()),
    }
}
