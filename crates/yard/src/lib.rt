// The library for C and Rust engineers, one function for each that they call. `yard_c` exports them: include/kastepuhm.h declares them for C, tests/callers/caller.rs for Rust.
// `edition` is the number of `edition`/specs/Editions: 1 reads by the edition of December 6, 2006, any other number by the present one.
// Every function here takes plain slices (C hands over a pointer, then how many elements) and numbers, requires nothing of them, keeps nothing and allocates nothing.
//
// The answers and the contracts are `answer_fields`, with their laws; what a reader must believe beside them: replies/specs/Replies, writings/specs/Writes, unpackings/specs/Unpacks, mend_law/specs/Mends, pair_checks/specs/Checks, reach_checks/specs/Checks, look_up/specs/LookUp, Listed, answers/specs/Sentences, shown/specs/Shown, expected_law/specs/Tells.
//
// Left out: asking for a name (`rows::name_of`), since a part of a slice cannot be returned to C. There a name is `text + start`, of a packed network `bytes + start`, for `length` bytes.
//
// Rests on `answer_fields`, `edition`, `reader`, `writer`, `map_writer`, `packer`, `unpacker`, `mend`, `route`, `reach`, `look_up`, `answers`, `shown`, `expected` and what they rest on.
#![tactic(auto)]

ghost use Rattle.std.specs.Prelude.{◌≡◌, length};
ghost use Rattle.law.specs.Tables.{lent, mission_lent};
ghost use Rattle.edition.specs.Editions.{edition_numbered};
ghost use Rattle.look_up.specs.LookUp.{PointOf};
ghost use Rattle.house_text.specs.House.{HouseRndf};
ghost use Rattle.writings.specs.Writes.{MapOf, PackedOf};
ghost use Rattle.shown.specs.Shown.{mission_first};
ghost use Rattle.expected_law.specs.Tells.{AnswersExpected};
ghost use Rattle.expected.specs.Words.{expected_words_of};
ghost use Rattle.answers.specs.Sentences.{sentence, WholeOrNone};
ghost use Rattle.answer_fields.specs.Answers.{named, laid_out, taken, refused, rndf_answer_of, pair_answer_of, write_answer_of, write_mdf_answer_of, list_answer_of, mend_answer_of, AnswersRndf, AnswersPair, AnswersRoute, AnswersMission, AnswersWrite, AnswersWriteMdf, AnswersUnpack, AnswersMend, AnswersList};

use answer_fields::{Answer, ListAnswer, MendAnswer, Name, WriteAnswer};
use answers::write_sentence;
use counts::{Counts, MissionCounts};
use edition::edition_of;
use expected::write_expected;
use expected_law::ExpectedAnswer;
use look_up::{ListReply, point_of_word, points_of};
use map_writer::write_map;
use mend::mend;
use mend_law::MendReply;
use packer::write_packed;
use reach::check_mission;
use reader::{read_pair, read_rndf};
use refusal::Refusal;
use replies::{PairReply, RndfReply};
use route::check_route;
use rows::{FileRow, MissionFileRow, Stretch};
use shown::is_mission_first;
use unpacker::read_packed;
use writer::{write_mdf, write_rndf};
use writings::{WriteMdfReply, WriteReply};

fn named(s: Stretch) -> Name
    ensures { result ≡ named s }
{
    Name {
        start: s.start,
        length: s.length,
    }
}

// The one place where the fields are laid out.
fn laid_out(
    accepted: u32,
    why: Refusal,
    c: Counts,
    m: MissionCounts,
    file: FileRow,
    mission_file: MissionFileRow,
) -> Answer
    ensures { result ≡ laid_out accepted why c m file mission_file }
{
    Answer {
        accepted,
        file: why.file as u32,
        line: why.line,
        number: why.number as u32,
        column: why.column,
        segments: c.segments,
        lanes: c.lanes,
        zones: c.zones,
        spots: c.spots,
        points: c.points,
        checkpoints: c.checkpoints,
        stops: c.stops,
        exits: c.exits,
        goals: m.goals,
        limits: m.limits,
        rndf_name: named(file.name),
        rndf_version: named(file.version),
        rndf_date: named(file.date),
        mdf_name: named(mission_file.name),
        mdf_rndf: named(mission_file.rndf),
        mdf_version: named(mission_file.version),
        mdf_date: named(mission_file.date),
    }
}

const NO_NAME: Stretch = Stretch {
    start: 0,
    length: 0,
};

const NO_MISSION_COUNTS: MissionCounts = MissionCounts {
    goals: 0,
    limits: 0,
};

const NO_MISSION_FILE: MissionFileRow = MissionFileRow {
    name: NO_NAME,
    rndf: NO_NAME,
    version: NO_NAME,
    date: NO_NAME,
};

fn taken(c: Counts, file: FileRow, m: MissionCounts, mission_file: MissionFileRow) -> Answer
    ensures { result ≡ taken c file m mission_file }
{
    let nothing = Refusal {
        file: 0,
        line: 0,
        number: 0,
        column: 0,
    };
    laid_out(1, nothing, c, m, file, mission_file)
}

fn refused(why: Refusal) -> Answer
    ensures { result ≡ refused why }
{
    let counts = Counts {
        segments: 0,
        lanes: 0,
        zones: 0,
        spots: 0,
        points: 0,
        checkpoints: 0,
        stops: 0,
        exits: 0,
    };
    let file = FileRow {
        name: NO_NAME,
        version: NO_NAME,
        date: NO_NAME,
    };
    laid_out(0, why, counts, NO_MISSION_COUNTS, file, NO_MISSION_FILE)
}

fn rndf_answer(reply: RndfReply) -> Answer
    ensures { result ≡ rndf_answer_of reply }
{
    match reply {
        Ok((c, file)) => taken(c, file, NO_MISSION_COUNTS, NO_MISSION_FILE),
        Err(why) => refused(why),
    }
}

fn pair_answer(reply: PairReply) -> Answer
    ensures { result ≡ pair_answer_of reply }
{
    match reply {
        Ok((c, file, m, mission_file)) => taken(c, file, m, mission_file),
        Err(why) => refused(why),
    }
}

fn write_answer(reply: WriteReply) -> WriteAnswer
    ensures { result ≡ write_answer_of reply }
{
    match reply {
        Ok((c, file, n)) => WriteAnswer {
            answer: taken(c, file, NO_MISSION_COUNTS, NO_MISSION_FILE),
            length: n,
        },
        Err(why) => WriteAnswer {
            answer: refused(why),
            length: 0,
        },
    }
}

fn write_mdf_answer(reply: WriteMdfReply) -> WriteAnswer
    ensures { result ≡ write_mdf_answer_of reply }
{
    match reply {
        Ok((c, file, m, mission_file, n)) => WriteAnswer {
            answer: taken(c, file, m, mission_file),
            length: n,
        },
        Err(why) => WriteAnswer {
            answer: refused(why),
            length: 0,
        },
    }
}

fn list_answer(reply: ListReply) -> ListAnswer
    ensures { result ≡ list_answer_of reply }
{
    match reply {
        Ok(()) => ListAnswer {
            accepted: 1,
            file: 0,
            line: 0,
            number: 0,
            column: 0,
        },
        Err(why) => ListAnswer {
            accepted: 0,
            file: why.file as u32,
            line: why.line,
            number: why.number as u32,
            column: why.column,
        },
    }
}

fn mend_answer(reply: MendReply) -> MendAnswer
    ensures { result ≡ mend_answer_of reply }
{
    match reply {
        Ok((rows, length)) => MendAnswer {
            accepted: 1,
            file: 0,
            line: 0,
            number: 0,
            column: 0,
            rows,
            length,
        },
        Err(why) => MendAnswer {
            accepted: 0,
            file: why.file as u32,
            line: why.line,
            number: why.number as u32,
            column: why.column,
            rows: 0,
            length: 0,
        },
    }
}

// An RNDF alone.
pub fn kastepuhm_read_rndf(
    edition: u32,
    text: &[u8],
    segments: &mut [u32],
    lanes: &mut [u32],
    zones: &mut [u32],
    spots: &mut [u32],
    points: &mut [i32],
    checkpoints: &mut [u32],
    stops: &mut [u32],
    exits: &mut [u32],
) -> Answer
    ensures { AnswersRndf (edition_numbered edition) text.now (lent segments.old lanes.old zones.old spots.old points.old checkpoints.old stops.old exits.old) result (lent segments.new lanes.new zones.new spots.new points.new checkpoints.new stops.new exits.new) }
{
    let by = edition_of(edition);
    let reply = read_rndf(
        by,
        text,
        segments,
        lanes,
        zones,
        spots,
        points,
        checkpoints,
        stops,
        exits,
    );
    rndf_answer(reply)
}

// An RNDF with its MDF.
pub fn kastepuhm_read_pair(
    edition: u32,
    rndf: &[u8],
    mdf: &[u8],
    segments: &mut [u32],
    lanes: &mut [u32],
    zones: &mut [u32],
    spots: &mut [u32],
    points: &mut [i32],
    checkpoints: &mut [u32],
    stops: &mut [u32],
    exits: &mut [u32],
    goals: &mut [u32],
    limits: &mut [u32],
) -> Answer
    ensures { AnswersPair (edition_numbered edition) rndf.now mdf.now (lent segments.old lanes.old zones.old spots.old points.old checkpoints.old stops.old exits.old) (mission_lent goals.old limits.old) result (lent segments.new lanes.new zones.new spots.new points.new checkpoints.new stops.new exits.new) (mission_lent goals.new limits.new) }
{
    let by = edition_of(edition);
    let reply = read_pair(
        by,
        rndf,
        mdf,
        segments,
        lanes,
        zones,
        spots,
        points,
        checkpoints,
        stops,
        exits,
        goals,
        limits,
    );
    pair_answer(reply)
}

// A route over an RNDF with its MDF, from a start: is it drivable?
pub fn kastepuhm_check_route(
    edition: u32,
    rndf: &[u8],
    mdf: &[u8],
    segments: &mut [u32],
    lanes: &mut [u32],
    zones: &mut [u32],
    spots: &mut [u32],
    points: &mut [i32],
    checkpoints: &mut [u32],
    stops: &mut [u32],
    exits: &mut [u32],
    goals: &mut [u32],
    limits: &mut [u32],
    start: u32,
    route: &[u32],
) -> Answer
    ensures { AnswersRoute (edition_numbered edition) start route.now rndf.now mdf.now (lent segments.old lanes.old zones.old spots.old points.old checkpoints.old stops.old exits.old) (mission_lent goals.old limits.old) result (lent segments.new lanes.new zones.new spots.new points.new checkpoints.new stops.new exits.new) (mission_lent goals.new limits.new) }
{
    let by = edition_of(edition);
    let reply = check_route(
        by,
        rndf,
        mdf,
        segments,
        lanes,
        zones,
        spots,
        points,
        checkpoints,
        stops,
        exits,
        goals,
        limits,
        start,
        route,
    );
    pair_answer(reply)
}

// The mission of an RNDF with its MDF, from a start: can it be driven at all?
pub fn kastepuhm_check_mission(
    edition: u32,
    rndf: &[u8],
    mdf: &[u8],
    segments: &mut [u32],
    lanes: &mut [u32],
    zones: &mut [u32],
    spots: &mut [u32],
    points: &mut [i32],
    checkpoints: &mut [u32],
    stops: &mut [u32],
    exits: &mut [u32],
    goals: &mut [u32],
    limits: &mut [u32],
    start: u32,
    work: &mut [u32],
) -> Answer
    ensures { AnswersMission (edition_numbered edition) start rndf.now mdf.now (lent segments.old lanes.old zones.old spots.old points.old checkpoints.old stops.old exits.old) (mission_lent goals.old limits.old) work.old result (lent segments.new lanes.new zones.new spots.new points.new checkpoints.new stops.new exits.new) (mission_lent goals.new limits.new) work.new }
{
    let by = edition_of(edition);
    let reply = check_mission(
        by,
        rndf,
        mdf,
        segments,
        lanes,
        zones,
        spots,
        points,
        checkpoints,
        stops,
        exits,
        goals,
        limits,
        start,
        work,
    );
    pair_answer(reply)
}

// The house writing of an RNDF, into `out`.
pub fn kastepuhm_write_rndf(
    edition: u32,
    text: &[u8],
    segments: &mut [u32],
    lanes: &mut [u32],
    zones: &mut [u32],
    spots: &mut [u32],
    points: &mut [i32],
    checkpoints: &mut [u32],
    stops: &mut [u32],
    exits: &mut [u32],
    out: &mut [u8],
) -> WriteAnswer
    ensures { AnswersWrite (edition_numbered edition) HouseRndf text.now (lent segments.old lanes.old zones.old spots.old points.old checkpoints.old stops.old exits.old) (length out.old) result (lent segments.new lanes.new zones.new spots.new points.new checkpoints.new stops.new exits.new) out.new }
{
    let by = edition_of(edition);
    let reply = write_rndf(
        by,
        text,
        segments,
        lanes,
        zones,
        spots,
        points,
        checkpoints,
        stops,
        exits,
        out,
    );
    write_answer(reply)
}

// The map of an RNDF's network, into `out`.
pub fn kastepuhm_write_map(
    edition: u32,
    text: &[u8],
    segments: &mut [u32],
    lanes: &mut [u32],
    zones: &mut [u32],
    spots: &mut [u32],
    points: &mut [i32],
    checkpoints: &mut [u32],
    stops: &mut [u32],
    exits: &mut [u32],
    out: &mut [u8],
) -> WriteAnswer
    ensures { AnswersWrite (edition_numbered edition) MapOf text.now (lent segments.old lanes.old zones.old spots.old points.old checkpoints.old stops.old exits.old) (length out.old) result (lent segments.new lanes.new zones.new spots.new points.new checkpoints.new stops.new exits.new) out.new }
{
    let by = edition_of(edition);
    let reply = write_map(
        by,
        text,
        segments,
        lanes,
        zones,
        spots,
        points,
        checkpoints,
        stops,
        exits,
        out,
    );
    write_answer(reply)
}

// The packed form of an RNDF's network, into `out`.
pub fn kastepuhm_write_packed(
    edition: u32,
    text: &[u8],
    segments: &mut [u32],
    lanes: &mut [u32],
    zones: &mut [u32],
    spots: &mut [u32],
    points: &mut [i32],
    checkpoints: &mut [u32],
    stops: &mut [u32],
    exits: &mut [u32],
    out: &mut [u8],
) -> WriteAnswer
    ensures { AnswersWrite (edition_numbered edition) PackedOf text.now (lent segments.old lanes.old zones.old spots.old points.old checkpoints.old stops.old exits.old) (length out.old) result (lent segments.new lanes.new zones.new spots.new points.new checkpoints.new stops.new exits.new) out.new }
{
    let by = edition_of(edition);
    let reply = write_packed(
        by,
        text,
        segments,
        lanes,
        zones,
        spots,
        points,
        checkpoints,
        stops,
        exits,
        out,
    );
    write_answer(reply)
}

// The house writing of the MDF of a pair, into `out`.
pub fn kastepuhm_write_mdf(
    edition: u32,
    rndf: &[u8],
    mdf: &[u8],
    segments: &mut [u32],
    lanes: &mut [u32],
    zones: &mut [u32],
    spots: &mut [u32],
    points: &mut [i32],
    checkpoints: &mut [u32],
    stops: &mut [u32],
    exits: &mut [u32],
    goals: &mut [u32],
    limits: &mut [u32],
    out: &mut [u8],
) -> WriteAnswer
    ensures { AnswersWriteMdf (edition_numbered edition) rndf.now mdf.now (lent segments.old lanes.old zones.old spots.old points.old checkpoints.old stops.old exits.old) (mission_lent goals.old limits.old) (length out.old) result (lent segments.new lanes.new zones.new spots.new points.new checkpoints.new stops.new exits.new) (mission_lent goals.new limits.new) out.new }
{
    let by = edition_of(edition);
    let reply = write_mdf(
        by,
        rndf,
        mdf,
        segments,
        lanes,
        zones,
        spots,
        points,
        checkpoints,
        stops,
        exits,
        goals,
        limits,
        out,
    );
    write_mdf_answer(reply)
}

// A packed network: names have their places in the packed bytes.
pub fn kastepuhm_read_packed(
    bytes: &[u8],
    segments: &mut [u32],
    lanes: &mut [u32],
    zones: &mut [u32],
    spots: &mut [u32],
    points: &mut [i32],
    checkpoints: &mut [u32],
    stops: &mut [u32],
    exits: &mut [u32],
) -> Answer
    ensures { AnswersUnpack bytes.now (lent segments.old lanes.old zones.old spots.old points.old checkpoints.old stops.old exits.old) result (lent segments.new lanes.new zones.new spots.new points.new checkpoints.new stops.new exits.new) }
{
    let reply = read_packed(
        bytes,
        segments,
        lanes,
        zones,
        spots,
        points,
        checkpoints,
        stops,
        exits,
    );
    rndf_answer(reply)
}

// An RNDF with three kinds of trouble mended, into `out`; a row of `list` for each changed line.
pub fn kastepuhm_mend(edition: u32, text: &[u8], list: &mut [u32], out: &mut [u8]) -> MendAnswer
    ensures { AnswersMend (edition_numbered edition) text.now list.old (length out.old) result list.new out.new }
{
    let by = edition_of(edition);
    let reply = mend(by, text, list, out);
    mend_answer(reply)
}

// The point of the first row with that checkpoint number, or 4,294,967,295.
pub fn kastepuhm_point_of(checkpoints: &[u32], number: u32) -> u32
    ensures { PointOf checkpoints.now number result }
{
    point_of_word(checkpoints, number)
}

// The point of each checkpoint number of a list, in its place.
pub fn kastepuhm_points_of(checkpoints: &[u32], numbers: &[u32], points: &mut [u32]) -> ListAnswer
    ensures { AnswersList checkpoints.now numbers.now (length points.old) result points.new }
{
    let reply = points_of(checkpoints, numbers, points);
    list_answer(reply)
}

// What planners are told of a refusal: `network.rndf:9:12: the entry is no declared lane waypoint or perimeter point (12)`, and below it the line with a caret. How many bytes it has; where the output
// is shorter, 0, and the output is zero.
pub fn kastepuhm_sentence(
    name: &[u8],
    text: &[u8],
    line: u32,
    number: u8,
    column: u32,
    out: &mut [u8],
) -> u32
    ensures { WholeOrNone (sentence name.now text.now line number column) (length out.old) result out.new }
{
    write_sentence(name, text, line, number, column, out)
}

// Does the text begin as an MDF does?
pub fn kastepuhm_is_mission(text: &[u8]) -> bool
    ensures { result ≡ mission_first text.now }
{
    is_mission_first(text)
}

// What may stand where a text was refused, in the planners' words, without a line feed: of the refusal's file, line and number. Nothing is told of 2, 3 and 4, nor without a line; 19 where the output is too short.
pub fn kastepuhm_expected(
    edition: u32,
    rndf: &[u8],
    mdf: &[u8],
    file: u32,
    line: u32,
    number: u8,
    out: &mut [u8],
) -> ExpectedAnswer
    ensures { AnswersExpected expected_words_of (edition_numbered edition) rndf.now mdf.now file line number (length out.old) result out.new }
{
    write_expected(edition_of(edition), rndf, mdf, file, line, number, out)
}
