use crate::answers::{Counts, ShowRefusal};
use crate::request::{Answer, Request};
use crate::serving::serve;
use crate::state::Station;
use books::{BookFault, read_book};
use kinds::{ByteKind, CommandKind};
use tokens::Spot;

// A book of 2 classes, 1 rule and 7 expressions, in 88 bytes.
const SUMS: &[u8] =
    b"(class 43 43)\n(class 110 110)\n(rule (alt (seq (call 0) (seq (term 0) (term 1))) (term 1)))\n";

// A book of 1 rule in 13 bytes.
const ANY: &[u8] = b"(rule (any))\n";

const ANY_COUNTS: Counts = Counts {
    classes: 0,
    rules: 1,
    expressions: 1,
};

// A book with a loop.
const LOOP: &[u8] = b"(rule (star (empty)))\n";

const LOOP_FAULT: BookFault = BookFault::Loop(Spot { place: 6, line: 1 });

#[test]
fn a_new_station_owes_nothing(rt: HostRuntime) {
    let mut station = Station::new(ByteKind);
    assert_eq!(rt; station.bill(), 0);
    assert_eq!(rt; station.settle(), 0);
    assert_eq!(rt; station.bill(), 0);
}

#[test]
fn load_answers_the_counts(rt: HostRuntime) {
    let mut station = Station::new(ByteKind);
    assert_eq!(rt;
        station.load(SUMS),
        Ok(Counts {
            classes: 2,
            rules: 1,
            expressions: 7,
        })
    );
    assert_eq!(rt; station.load(ANY), Ok(ANY_COUNTS));
}

#[test]
fn counts_are_made_from_a_book(rt: HostRuntime) {
    let counts = read_book(&ByteKind, ANY).map(|book| Counts::from(&book));
    assert_eq!(rt; counts, Ok(ANY_COUNTS));
}

#[test]
fn load_names_the_fault(rt: HostRuntime) {
    let mut station = Station::new(ByteKind);
    assert_eq!(rt; station.load(LOOP), Err(LOOP_FAULT));
}

#[test]
fn the_kind_says_which_classes_are_lawful(rt: HostRuntime) {
    let mut bytes = Station::new(ByteKind);
    let mut commands = Station::new(CommandKind);
    let book = b"(class 256 0)\n(rule (term 0))\n";
    let unlawful = BookFault::Unlawful(Spot { place: 0, line: 1 });
    assert_eq!(rt; bytes.load(book), Err(unlawful));
    assert_eq!(rt;
        commands.load(book),
        Ok(Counts {
            classes: 1,
            rules: 1,
            expressions: 1,
        })
    );
}

#[test]
fn show_needs_a_book(rt: HostRuntime) {
    let mut station = Station::new(ByteKind);
    let mut out = [7u8; 3];
    assert_eq!(rt; station.show(&mut out), Err(ShowRefusal::NoBook));
    assert_eq!(rt; station.load(LOOP), Err(LOOP_FAULT));
    assert_eq!(rt; station.show(&mut out), Err(ShowRefusal::NoBook));
    assert_eq!(rt; out, [7, 7, 7]);
}

#[test]
fn show_writes_the_book_and_no_more(rt: HostRuntime) {
    let mut station = Station::new(ByteKind);
    assert_eq!(rt; station.load(ANY), Ok(ANY_COUNTS));
    let mut exact = [7u8; 13];
    assert_eq!(rt; station.show(&mut exact), Ok(13));
    assert_eq!(rt; exact, *b"(rule (any))\n");
    let mut long = [7u8; 15];
    assert_eq!(rt; station.show(&mut long), Ok(13));
    assert_eq!(rt; long, *b"(rule (any))\n\x07\x07");
    let mut short = [7u8; 12];
    assert_eq!(rt; station.show(&mut short), Err(ShowRefusal::TooShort));
    assert_eq!(rt; short, [7; 12]);
}

#[test]
fn a_refused_load_leaves_the_book(rt: HostRuntime) {
    let mut station = Station::new(ByteKind);
    assert_eq!(rt; station.load(ANY), Ok(ANY_COUNTS));
    assert_eq!(rt; station.load(LOOP), Err(LOOP_FAULT));
    let mut out = [0u8; 13];
    assert_eq!(rt; station.show(&mut out), Ok(13));
    assert_eq!(rt; out, *b"(rule (any))\n");
}

#[test]
fn refusals_have_their_numbers(rt: HostRuntime) {
    assert_eq!(rt; ShowRefusal::NoBook.number(), 10);
    assert_eq!(rt; ShowRefusal::TooShort.number(), 15);
}

#[test]
fn requests_are_compared_by_their_bytes(rt: HostRuntime) {
    assert_eq!(rt; Request::Load(ANY), Request::Load(b"(rule (any))\n"));
    assert_ne!(rt; Request::Load(ANY), Request::Load(LOOP));
    assert_ne!(rt; Request::Show(12), Request::Show(13));
}

#[test]
fn serve_runs_every_call(rt: HostRuntime) {
    let requests = [
        Request::Show(20),
        Request::Load(LOOP),
        Request::Load(ANY),
        Request::Show(12),
        Request::Show(20),
        Request::Bill,
        Request::Settle,
    ];
    let mut out = [7u8; 14];
    let mut answers = [Answer::Total(9); 7];
    assert_eq!(rt; serve(ByteKind, &requests, &mut out, &mut answers), 7);
    let due = [
        Answer::Shown(Err(ShowRefusal::NoBook)),
        Answer::Loaded(Err(LOOP_FAULT)),
        Answer::Loaded(Ok(ANY_COUNTS)),
        Answer::Shown(Err(ShowRefusal::TooShort)),
        Answer::Shown(Ok(13)),
        Answer::Total(0),
        Answer::Total(0),
    ];
    assert_eq!(rt; answers, due);
    assert_eq!(rt; out, *b"(rule (any))\n\x07");
}

#[test]
fn serve_stops_where_the_answers_do(rt: HostRuntime) {
    let mut answers = [Answer::Total(9); 2];
    let served = serve(
        CommandKind,
        &[Request::Bill, Request::Settle, Request::Bill],
        &mut [],
        &mut answers,
    );
    assert_eq!(rt; served, 2);
    assert_eq!(rt; answers, [Answer::Total(0), Answer::Total(0)]);
}

#[test]
fn serve_leaves_later_answers(rt: HostRuntime) {
    let mut answers = [Answer::Total(9); 3];
    assert_eq!(rt;
        serve(ByteKind, &[Request::Settle], &mut [], &mut answers),
        1
    );
    assert_eq!(rt;
        answers,
        [Answer::Total(0), Answer::Total(9), Answer::Total(9)]
    );
}
