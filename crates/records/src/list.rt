ghost use Rattle.std.specs.Prelude.{◌≡◌, ◌↔◌, true};
ghost use Rattle.records.specs.Bytes.{answer_bytes};

use crate::{Question, front};
use commands::{OUTPUT_SIZE, READ_AT_MOST};
use std::fs::File;
use std::io;
use std::io::Read;
use text::Printer;

// The most bytes of a question. It and its answer lie in arrays and not in ArrayVecs: of each only the front is stored, and the zeros
// behind it are the array's own.
const QUESTION: usize = READ_AT_MOST + 1;

// The bytes of a record's four sizes.
const SIZES: usize = 16;

// The most records of a list.
const MOST_RECORDS: u32 = 1000000;

// A list that breaks off.
#[derive(Clone, Copy, Drop)]
struct Broken;

impl From<io::Error> for Broken {
    fn from(_error: io::Error) -> Broken {
        Broken
    }
}

// How many answers a list has, and how many of them differ.
#[derive(Clone, Copy)]
struct Tally {
    answers: u32,
    differ: u32,
}

// Reads the next bytes of the list to the front of a buffer.
fn read_front<R: Read>(list: &mut R, buffer: &mut [u8], size: u32) -> Result<(), Broken> {
    match buffer.get_mut(..size as usize) {
        Some(part) => Ok(list.read_exact(part)?),
        None => Err(Broken),
    }
}

// Whether the answer to a question is the one that was recorded. What is asked answers None where it has no answer, so that `?` leaves it:
// that counts as an answer of no bytes, whatever was put before.
// It stands as a parameter in each function here, with its clause. Tried: a struct that keeps both, but the check does not read a closure's
// predicates in a ghost field, and takes no `&dyn Fn` as a field.
fn is_answered<F: Fn(Question, &mut Printer) -> Option<()>>(
    question: &[u8],
    answer: &[u8],
    ask: &F,
) -> bool
    requires { F.IsAlwaysCallable ask.now }
    ensures { (page : _) × (given : _) × (after : _) × F.post ask.now (record { rest = question.entry }) page given after
        × ((result ≡ true) ↔ (answer_bytes given after.now ≡ answer.now)) }
{
    let mut out = [0u8; OUTPUT_SIZE];
    let mut page = Printer::new(&mut out);
    match ask(Question { rest: question }, &mut page) {
        Some(()) => page.text() == answer,
        None => answer.is_empty(),
    }
}

// Tries the next record, and says whether its answer is the one that was recorded; none at the list's end. A record is the sizes of its
// question and answer and of what is stored of them, four bytes each, and then what is stored of both. The rest of both is zeros.
fn try_record<R: Read, F: Fn(Question, &mut Printer) -> Option<()>>(
    list: &mut R,
    ask: &F,
) -> Result<Option<bool>, Broken>
    requires { F.IsAlwaysCallable ask.now }
{
    let mut sizes = [0u8; SIZES];
    let read = io::copy(&mut list.by_ref().take(SIZES as u64), &mut &mut sizes[..])?;
    match read as usize {
        0 => return Ok(None),
        SIZES => {}
        _ => return Err(Broken),
    }
    let mut sizes = Question { rest: &sizes };
    let mut question = [0u8; QUESTION];
    let mut answer = [0u8; OUTPUT_SIZE];
    let question_size = sizes.get_u32() as usize;
    read_front(list, &mut question, sizes.get_u32())?;
    let answer_size = sizes.get_u32() as usize;
    read_front(list, &mut answer, sizes.get_u32())?;
    Ok(Some(is_answered(
        front(&question, question_size),
        front(&answer, answer_size),
        ask,
    )))
}

// Tries the records of a list.
fn replay_list<R: Read, F: Fn(Question, &mut Printer) -> Option<()>>(
    list: &mut R,
    ask: &F,
    tally: &mut Tally,
) -> Result<(), Broken>
    requires { F.IsAlwaysCallable ask.now }
{
    for _record in 0..MOST_RECORDS {
        let Some(same) = try_record(list, ask)? else {
            return Ok(());
        };
        tally.answers = tally.answers.saturating_add(1);
        if !same {
            tally.differ = tally.differ.saturating_add(1);
        }
    }
    Err(Broken)
}

// Replays the list in a file, and prints what it gave.
fn replay_file<F: Fn(Question, &mut Printer) -> Option<()>>(
    rt: &HostRuntime,
    name: &str,
    ask: &F,
) -> io::Result<()>
    requires { F.IsAlwaysCallable ask.now }
{
    match File::open(rt, name) {
        Ok(mut list) => {
            let mut tally = Tally {
                answers: 0,
                differ: 0,
            };
            let end = replay_list(&mut list, ask, &mut tally);
            let answers = tally.answers;
            let differ = tally.differ;
            println!(rt; "{name}: {answers} answers, {differ} differ")?;
            if end.is_err() {
                println!(rt; "the list breaks off")?;
            }
            Ok(())
        }
        Err(error) => eprintln!(rt; "{name}: {error}"),
    }
}

// Replays the list in each file, and prints what it gave. A file that can't be opened is named. No contract of the library says what a
// file holds or what is printed: replay tries a list of wrong answers, each of which must be printed as one that differs.
pub fn replay<F: Fn(Question, &mut Printer) -> Option<()>>(
    rt: &HostRuntime,
    names: &[&str],
    ask: F,
) -> io::Result<()>
    requires { F.IsAlwaysCallable ask }
{
    for name in names {
        replay_file(rt, name, &ask)?;
    }
    Ok(())
}
