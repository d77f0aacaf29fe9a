// The planners' mending tool: `yard_mend RNDF`, the name of a file, with `--edition 2006` in front of it as `yard_check` takes it. It prints the mended text (request L9) on standard output and nothing else; on standard error a
// sentence for each changed line; or, where the text is past mending (26), what `yard_check` says of the mended text's first fault, with the number of its line in the given one; or why the file could not be taken. Standard
// output is then empty. The file itself is only read. `run-mend` builds and runs it, and adds a status.
//
// Nothing is promised of what is printed (no contract can say it); what is mended is `mend`'s, and what is said of it `mend_words`', and both are proved there.
//
// Memory: there is no heap, and the usual stack has 8 MiB. So a text may have 524,288 bytes and 262,144 lines (11 with more), a list of 2 MiB. What comes out has at most 4 bytes to 3 of the text: the shortest line
// that can grow is `num_lanes 0` with its LF, and it grows by 4. The tables for what came out have the rows that such a text can fill, as in `yard_check`: 19, and 11 of the mended text, should never come of it
// (counted by hand, not proved; if they came, they would be told). The list and those tables are in different functions, so that they need not stand on the stack together.
#![tactic(auto)]

ghost use Rattle.std.specs.Prelude.{◌+◌, ◌≤◌, ◌<◌, length, IfOk};

use answers::put_sentence;
use console::put;
use edition::Edition;
use files::{Loaded, argument, argument_count, is_argument, load, put_trouble};
use mend::mend;
use mend_law::MendReply;
use mend_lines::Before;
use mend_passes::put_mended;
use mend_words::{Next, put_next, put_nothing, put_past};
use reader::read_rndf;
use replies::RndfReply;
use shown::first;
use std::io;
use std::io::Write;
use std::rt::{Env, Files};

const MOST_BYTES: usize = 524288;

const MOST_MENDED: usize = 699051;

// A row of two words to a line.
const LIST_WORDS: usize = 524288;

// The longest name that a system opens.
const MOST_NAME: usize = 4095;

// Room for a name twice, reasons, and a line of 513 bytes with what stands below it, four to each.
const MOST_ANSWER: usize = 12800;

// The words of each table, as in `yard_check`, for what came out.
const SEGMENT_WORDS: usize = 4 * (MOST_MENDED / 92 + 1);

const LANE_WORDS: usize = 5 * (MOST_MENDED / 58 + 1);

const ZONE_WORDS: usize = 6 * (MOST_MENDED / 102 + 1);

const SPOT_WORDS: usize = 2 * (MOST_MENDED / 66 + 1);

const POINT_WORDS: usize = 2 * (MOST_MENDED / 24 + 1);

const CHECKPOINT_WORDS: usize = 2 * (MOST_MENDED / 19 + 1);

const STOP_WORDS: usize = MOST_MENDED / 11 + 1;

const EXIT_WORDS: usize = 2 * (MOST_MENDED / 17 + 1);

// ## What is said

fn say<W: Write>(to: &mut W, s: &[u8]) -> io::Result<()> {
    put(to, s)
}

fn say_refused<W: Write>(to: &mut W, name: &[u8], number: u8) -> io::Result<()> {
    let mut out = [0u8; MOST_ANSWER];
    let n = put_sentence(&mut out, 0, name, b"", 0, number, 0);
    say(to, first(&out, n))
}

// What is the matter with the file.
fn say_matter<W: Write>(to: &mut W, name: &[u8], loaded: Loaded) -> io::Result<()> {
    let mut out = [0u8; MOST_ANSWER];
    let n = put_trouble(
        &mut out,
        0,
        name,
        b": the file is too big for this program, which takes up to 524,288 bytes\n",
        loaded,
    );
    say(to, first(&out, n))
}

fn say_nothing<W: Write>(to: &mut W, name: &[u8]) -> io::Result<()> {
    let mut out = [0u8; MOST_ANSWER];
    let n = put_nothing(&mut out, 0, name);
    say(to, first(&out, n))
}

// The sentence of the line that starts there, if it is changed, and the next line. The output is lent as an array, which is cheaper to prove.
fn say_next<W: Write>(
    to: &mut W,
    out: &mut [u8; MOST_ANSWER],
    name: &[u8],
    text: &[u8],
    from: usize,
    line: usize,
    before: Before,
) -> io::Result<Next>
    requires from_in_bounds { from < length text.now }
    requires line_bound { line ≤ from + 1 }
    ensures from_lt_from { IfOk result (λ next. from < next.from) }
    ensures line_bound_2 { IfOk result (λ next. next.line ≤ next.from + 1) }
{
    let next = put_next(out, name, text, from, line, before);
    say(to, first(out, next.at))?;
    Ok(next)
}

// A sentence for each changed line.
fn say_changes<W: Write>(to: &mut W, name: &[u8], text: &[u8]) -> io::Result<()> {
    let mut out = [0u8; MOST_ANSWER];
    let mut before = Before::none();
    let mut from: usize = 0;
    let mut line: usize = 1;
    while from < text.len() {
        let next = say_next(to, &mut out, name, text, from, line, before)?;
        before = next.before;
        from = next.from;
        line = next.line;
    }
    Ok(())
}

// ## Past mending

// The reader's reply of what came out. Tables are lent as arrays, which is cheaper to prove.
fn read_mended(
    edition: Edition,
    mended: &[u8],
    segments: &mut [u32; SEGMENT_WORDS],
    lanes: &mut [u32; LANE_WORDS],
    zones: &mut [u32; ZONE_WORDS],
    spots: &mut [u32; SPOT_WORDS],
    points: &mut [i32; POINT_WORDS],
    checkpoints: &mut [u32; CHECKPOINT_WORDS],
    stops: &mut [u32; STOP_WORDS],
    exits: &mut [u32; EXIT_WORDS],
) -> RndfReply {
    read_rndf(
        edition,
        mended,
        segments,
        lanes,
        zones,
        spots,
        points,
        checkpoints,
        stops,
        exits,
    )
}

fn reply_of(edition: Edition, mended: &[u8]) -> RndfReply {
    let mut segments = [0u32; SEGMENT_WORDS];
    let mut lanes = [0u32; LANE_WORDS];
    let mut zones = [0u32; ZONE_WORDS];
    let mut spots = [0u32; SPOT_WORDS];
    let mut points = [0i32; POINT_WORDS];
    let mut checkpoints = [0u32; CHECKPOINT_WORDS];
    let mut stops = [0u32; STOP_WORDS];
    let mut exits = [0u32; EXIT_WORDS];
    read_mended(
        edition,
        mended,
        &mut segments,
        &mut lanes,
        &mut zones,
        &mut spots,
        &mut points,
        &mut checkpoints,
        &mut stops,
        &mut exits,
    )
}

fn say_fault<W: Write>(
    to: &mut W,
    edition: Edition,
    name: &[u8],
    text: &[u8],
    mended: &[u8],
) -> io::Result<()> {
    let reply = reply_of(edition, mended);
    let mut out = [0u8; MOST_ANSWER];
    let n = put_past(&mut out, 0, name, text, mended, reply);
    say(to, first(&out, n))
}

fn say_past<W: Write>(to: &mut W, edition: Edition, name: &[u8], text: &[u8]) -> io::Result<()> {
    let mut mended = [0u8; MOST_MENDED];
    let n = put_mended(&mut mended, text);
    say_fault(to, edition, name, text, first(&mended, n))
}

// ## The text

fn print<P: Write>(page: &mut P, out: &[u8; MOST_MENDED], n: u32) -> io::Result<()> {
    put(page, first(out, n as usize))
}

// List and output are lent as arrays up to here, which is cheaper to prove.
fn mend_into(
    edition: Edition,
    text: &[u8],
    list: &mut [u32; LIST_WORDS],
    out: &mut [u8; MOST_MENDED],
) -> MendReply {
    mend(edition, text, list, out)
}

// The text is printed here, and its reply returned.
fn print_mended<P: Write>(page: &mut P, edition: Edition, text: &[u8]) -> io::Result<MendReply> {
    let mut list = [0u32; LIST_WORDS];
    let mut out = [0u8; MOST_MENDED];
    let reply = mend_into(edition, text, &mut list, &mut out);
    match reply {
        Ok((_, n)) => print(page, &out, n)?,
        Err(_) => (),
    }
    Ok(reply)
}

fn say_rows<W: Write>(to: &mut W, name: &[u8], text: &[u8], rows: u32) -> io::Result<()> {
    if rows == 0 {
        say_nothing(to, name)
    } else {
        say_changes(to, name, text)
    }
}

fn say_why<W: Write>(
    to: &mut W,
    edition: Edition,
    name: &[u8],
    text: &[u8],
    number: u8,
) -> io::Result<()> {
    if number == 26 {
        say_past(to, edition, name, text)
    } else {
        say_refused(to, name, number)
    }
}

fn show<P: Write, W: Write>(
    page: &mut P,
    to: &mut W,
    edition: Edition,
    name: &[u8],
    text: &[u8],
) -> io::Result<()> {
    let reply = print_mended(page, edition, text)?;
    match reply {
        Ok((rows, _)) => say_rows(to, name, text, rows),
        Err(why) => say_why(to, edition, name, text, why.number),
    }
}

// A call of its own: what is said of wrong words, and the help, need none of the stack that a text and its tables take.
#[inline(never)]
fn with_name<R: Files, P: Write, W: Write>(
    rt: &R,
    page: &mut P,
    to: &mut W,
    edition: Edition,
    name: &[u8],
) -> io::Result<()> {
    let mut text = [0u8; MOST_BYTES];
    let loaded = load(rt, name, &mut text);
    match loaded {
        Loaded::Bytes(n) => show(page, to, edition, name, first(&text, n)),
        Loaded::OverLimit => say_refused(to, name, 1),
        _ => say_matter(to, name, loaded),
    }
}

// ## What is asked

fn say_usage<W: Write>(to: &mut W) -> io::Result<()> {
    say(
        to,
        b"Name one RNDF file: run-mend [--edition 2006] FILE > mended.rndf\n",
    )
}

fn say_help<W: Write>(to: &mut W) -> io::Result<()> {
    say_usage(to)?;
    say(
        to,
        b"Three things are mended and nothing else: counts that disagree with their items, single options given again, lines behind the first end_file.\n",
    )?;
    say(
        to,
        b"Standard output is the mended text and nothing else. Standard error has a sentence for each changed line, as FILE:LINE: what was done;\n",
    )?;
    say(
        to,
        b"or, of a text that would still be refused, FILE: past mending (26) and what run-check says of the mended text, with the line in FILE.\n",
    )?;
    say(
        to,
        b"FILE is only read. Do not write > FILE with the same name: the shell empties FILE before the program runs.\n",
    )?;
    say(
        to,
        b"With --edition 2006 the RNDF is read by the edition of December 6, 2006; without, or with --edition 2007, by the present one.\n",
    )?;
    say(
        to,
        b"A file may have up to 524,288 bytes and 262,144 lines. The status is 0 mended or nothing to mend, 1 refused, 2 not tried.\n",
    )
}

fn with_argument<R: Env + Files, P: Write, W: Write>(
    rt: &R,
    page: &mut P,
    to: &mut W,
    edition: Edition,
    at: usize,
) -> io::Result<()> {
    let mut name = [0u8; MOST_NAME];
    let given = argument(rt, at, &mut name);
    match given {
        None => say(to, b"The file's name is over 4,095 bytes.\n"),
        Some(n) => with_name(rt, page, to, edition, first(&name, n)),
    }
}

// The name is this argument, and the last; or it is the question how to ask.
fn with_name_at<R: Env + Files, P: Write, W: Write>(
    rt: &R,
    page: &mut P,
    to: &mut W,
    edition: Edition,
    at: usize,
) -> io::Result<()> {
    let count = argument_count(rt);
    if is_argument(rt, at, b"--help") | is_argument(rt, at, b"-h") {
        say_help(to)
    } else if count <= at {
        say_usage(to)
    } else if count - at > 1 {
        say_usage(to)
    } else {
        with_argument(rt, page, to, edition, at)
    }
}

fn main(rt: HostRuntime) -> io::Result<()> {
    let mut page = rt.stdout();
    let mut to = rt.stderr();
    if !is_argument(&rt, 1, b"--edition") {
        with_name_at(&rt, &mut page, &mut to, Edition::March2007, 1)
    } else if is_argument(&rt, 2, b"2006") {
        with_name_at(&rt, &mut page, &mut to, Edition::December2006, 3)
    } else if is_argument(&rt, 2, b"2007") {
        with_name_at(&rt, &mut page, &mut to, Edition::March2007, 3)
    } else {
        say_usage(&mut to)
    }
}
