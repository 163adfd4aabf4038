//! An operator's look at one field of a packed record.
//!
//! Packed digits come on standard input; two arguments say how many symbols to skip and how many to
//! show. Prints what was taken, the field, and the bill of a station that was served a list of calls.

#![tactic(auto)]

mod field;
#[cfg(test)]
mod tests;

use anyhow::{Context, bail};
use field::{Field, symbols_of};
use kinds::ByteKind;
use station::{Answer, Request, serve};
use std::env;
use std::io::Read;
use std::process::ExitCode;
use texts::{MOST_BYTES, Packed, Text, Window};

// What is said when the arguments are not two such numbers.
const EXPECTED: &str = "expected two numbers from 0 to 65535: symbols to skip, symbols to show";

// One byte more than a packed text takes, so that a longer input is seen to be cut.
const MOST_INPUT: u64 = MOST_BYTES as u64 + 1;

fn main(rt: HostRuntime) -> anyhow::Result<ExitCode> {
    if let Err(error) = run(&rt) {
        eprintln!(rt; "field: {error}")?;
        return Ok(ExitCode::FAILURE);
    }
    Ok(ExitCode::SUCCESS)
}

fn run(rt: &HostRuntime) -> anyhow::Result<()> {
    let field = asked_field(rt)?;
    let mut bytes = Vec::new(rt.alloc());
    rt.stdin().take(MOST_INPUT).read_to_end(&mut bytes)?;
    show_field(rt, &bytes, field)?;
    show_bill(rt)
}

fn asked_field(rt: &HostRuntime) -> anyhow::Result<Field> {
    let mut words = env::args(rt)?.skip(1);
    let (Some(skip), Some(size), None) = (words.next(), words.next(), words.next()) else {
        bail!(EXPECTED);
    };
    Field::parse(&skip, &size).context(EXPECTED)
}

fn show_field(rt: &HostRuntime, bytes: &[u8], field: Field) -> anyhow::Result<()> {
    let text = Packed::new(bytes);
    let cut = if text.is_cut() { "cut" } else { "not cut" };
    println!(rt; "bytes: {}, {cut}", text.len() / 2)?;
    println!(rt; "symbols: {}", text.len())?;
    let window = Window {
        below: text,
        skip: field.skip,
        size: field.size,
    };
    let symbols = symbols_of(rt.alloc(), &window)?;
    println!(rt; "field: {}", str::from_utf8(&symbols)?)?;
    Ok(())
}

// What a station answers to a look at the bill, its settling, and another look.
fn show_bill(rt: &HostRuntime) -> anyhow::Result<()> {
    let requests = [Request::Bill, Request::Settle, Request::Bill];
    let mut answers = [Answer::Total(0); 3];
    let served = serve(ByteKind, &requests, &mut answers);
    println!(rt; "calls: {served}")?;
    for (request, Answer::Total(steps)) in requests.iter().zip(&answers) {
        println!(rt; "{request}: {steps}")?;
    }
    Ok(())
}
