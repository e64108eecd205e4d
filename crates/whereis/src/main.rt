// Which stations hold the copies of this item?
//
//     whereis SIZE COPIES ITEM STATION ..
//
// prints a row for each replica: its number, its place, the station that owns the place, and that station's
// share of the ring. With no words it answers for a worked example.
#![tactic(auto)]

use anyhow::bail;
use arithmetic::Settings;
use faults::Fault;
use questions::{Holding, where_held};
use std::alloc::{AllocError, Global};
use std::{env, io};
use thiserror::Error;

const EXAMPLE: [u64; 8] = [65_536, 4, 40_961, 4_096, 17_000, 30_500, 45_000, 60_000];

// What is asked: the settings, the item and the stations on the ring.
#[derive(Drop)]
struct Query {
    settings: Settings,
    item: u64,
    members: Vec<u16>,
}

// Why there is no answer.
#[derive(Debug, Drop, Error)]
enum Stop {
    #[error("refused by {0}")]
    Refused(#[from] Fault),
    #[error("out of memory")]
    Memory(#[from(alloc)] AllocError),
}

// The words as numbers; a refusal names the first word that is none, counted from 1.
fn read_numbers(heap: Global, words: &[String]) -> Result<Vec<u64>, Stop> {
    words
        .iter()
        .zip(1..=words.len() as u64)
        .map(|(word, at)| -> Result<u64, Stop> {
            word.parse()
                .map_err(|_| Stop::Refused(Fault::Unreadable(at)))
        })
        .try_collect(heap)
}

// What the numbers ask: a size, the copies, an item and then stations.
fn make_query(heap: Global, numbers: &[u64]) -> Result<Query, Stop> {
    let [size, copies, item, stations @ ..] = numbers else {
        return Err(Stop::Refused(Fault::WrongFields(numbers.len() as u64)));
    };
    let settings = Settings::new(*size, *copies)?;
    let members = stations
        .iter()
        .map(|station| -> Result<u16, Stop> { Ok(settings.identifier(*station)?) })
        .try_collect(heap)?;
    Ok(Query {
        settings,
        item: *item,
        members,
    })
}

// A row for each replica of the item.
fn find_rows(heap: Global, query: &Query) -> Result<Vec<Holding>, Stop> {
    let members = query.members.as_slice();
    (1..=query.settings.copies())
        .map(|replica| -> Result<Holding, Stop> {
            Ok(where_held(query.settings, members, query.item, u64::from(replica))?)
        })
        .try_collect(heap)
}

// The rows that the words ask for.
fn answer(heap: Global, words: &[String]) -> Result<Vec<Holding>, Stop> {
    if words.is_empty() {
        return find_rows(heap, &make_query(heap, &EXAMPLE)?);
    }
    if words.len() < 3 {
        return Err(Stop::Refused(Fault::WrongFields(words.len() as u64)));
    }
    let numbers = read_numbers(heap, words)?;
    find_rows(heap, &make_query(heap, numbers.as_slice())?)
}

fn print_rows(rt: &HostRuntime, rows: &[Holding]) -> io::Result<()> {
    println!(rt; "replica  place  owner  share")?;
    for row in rows {
        let Holding {
            replica,
            place,
            owner,
            share,
        } = *row;
        println!(rt; "{replica:>7} {place:>6} {owner:>6} {share:>6}")?;
    }
    Ok(())
}

fn main(rt: HostRuntime) -> anyhow::Result<()> {
    let words: Vec<String> = env::args(&rt)?.skip(1).collect(rt.alloc())?;
    match answer(rt.alloc(), words.as_slice()) {
        Err(Stop::Refused(fault)) => {
            println!(rt; "refused by {fault}")?;
            bail!("refused")
        }
        rows => Ok(print_rows(&rt, rows?.as_slice())?),
    }
}
