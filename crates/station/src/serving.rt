ghost use Rattle.std.specs.Prelude.{◌≡◌, min, map, length, take, drop};
ghost use Rattle.station.specs.Whole.{Law};
ghost use Rattle.station.specs.Stand.{Keeps};
ghost use Rattle.station.specs.Served.{call_of, reply_of, Served};

use crate::request::{Answer, Request};
use crate::state::Station;
use kinds::Kind;

/// Makes a station for the kind and runs the requests in order, as many as there is room for
/// answers; answers how many were run. These calls with these replies are a lawful log, and the law
/// over lawful logs holds. Answers past those stay as they were.
pub fn serve<K: Kind + Drop>(kind: K, requests: &[Request], answers: &mut [Answer]) -> usize
    ensures count { result ≡ min (length requests.now) (length answers.old) }
    ensures served { Served {S = K.Symbol} (map call_of (take result requests.now)) (map reply_of (take result answers.new)) }
    ensures untouched { drop result answers.new ≡ drop result answers.old }
    ensures law { Law K.Symbol }
{
    let mut station = Station::new(kind);
    // not by `zip`: of what is written through it a proof keeps only the length
    for (i, answer) in answers.iter_mut().enumerate() {
        let Some(request) = requests.get(i) else {
            return i;
        };
        *answer = ask(&mut station, *request);
    }
    answers.len()
}

// One request.
// A match, and no closures: the calls are a closed list, and each takes and answers something else.
fn ask<K: Kind>(station: &mut Station<K>, request: Request) -> Answer
    ensures { Keeps {S = K.Symbol} station.old (call_of request) (reply_of result) station.new }
{
    match request {
        Request::Bill => Answer::Total(station.bill()),
        Request::Settle => Answer::Total(station.settle()),
    }
}
