use crate::request::{Answer, Request};
use crate::serving::serve;
use crate::state::Station;
use kinds::{ByteKind, CommandKind};
use std::alloc::AllocError;

#[test]
fn a_new_station_owes_nothing(rt: HostRuntime) {
    let mut station = Station::new(ByteKind);
    assert_eq!(rt; station.bill(), 0);
    assert_eq!(rt; station.settle(), 0);
    assert_eq!(rt; station.bill(), 0);
}

#[test]
fn serve_stops_where_the_answers_do(rt: HostRuntime) {
    let requests = [Request::Bill, Request::Settle, Request::Bill];
    let mut answers = [Answer::Total(9); 2];
    assert_eq!(rt; serve(CommandKind, &requests, &mut answers), 2);
    assert_eq!(rt; answers, [Answer::Total(0), Answer::Total(0)]);
}

#[test]
fn serve_leaves_later_answers(rt: HostRuntime) {
    let mut answers = [Answer::Total(9); 3];
    assert_eq!(rt; serve(ByteKind, &[Request::Settle], &mut answers), 1);
    assert_eq!(rt;
        answers,
        [Answer::Total(0), Answer::Total(9), Answer::Total(9)]
    );
}

#[test]
fn requests_print_their_names(rt: HostRuntime) -> Result<(), AllocError> {
    let printed = format!(in rt.alloc(); "{}, {}", Request::Bill, Request::Settle)?;
    assert_eq!(rt; printed.as_str(), "bill, settle");
    Ok(())
}
