// The exports for C, C++ and Rust engineers: each calls the function of its name in `yard`, under the same clauses. `rt lib` here writes out/libyard_c.a, which tools/library.sh keeps as
// target/lib/x86-64/libyard.a; include/kastepuhm.h declares it for C, tests/callers/caller.rs for Rust. C hands over a pointer to each slice, then how many elements.
//
// Rests on `yard`.
#![tactic(auto)]

ghost use Rattle.std.specs.Prelude.{◌≡◌, length};
ghost use Rattle.law.specs.Tables.{lent, mission_lent};
ghost use Rattle.edition.specs.Editions.{edition_numbered};
ghost use Rattle.look_up.specs.LookUp.{PointOf};
ghost use Rattle.house_text.specs.House.{HouseRndf};
ghost use Rattle.writings.specs.Writes.{MapOf, PackedOf};
ghost use Rattle.shown.specs.Shown.{mission_first};
ghost use Rattle.expected_law.specs.Tells.{AnswersExpected};
ghost use Rattle.expected.specs.Words.{expected_words_of};
ghost use Rattle.answers.specs.Sentences.{sentence, WholeOrNone};
ghost use Rattle.answer_fields.specs.Answers.{refused, AnswersRndf, AnswersPair, AnswersRoute, AnswersMission, AnswersWrite, AnswersWriteMdf, AnswersUnpack, AnswersMend, AnswersList};

use answer_fields::{Answer, ListAnswer, MendAnswer, WriteAnswer};
use expected_law::ExpectedAnswer;

// An RNDF alone.
#[unsafe(no_mangle)]
pub extern "C" fn kastepuhm_read_rndf(
    edition: u32,
    text: &[u8],
    segments: &mut [u32],
    lanes: &mut [u32],
    zones: &mut [u32],
    spots: &mut [u32],
    points: &mut [i32],
    checkpoints: &mut [u32],
    stops: &mut [u32],
    exits: &mut [u32],
) -> Answer
    ensures { AnswersRndf (edition_numbered edition) text.now (lent segments.old lanes.old zones.old spots.old points.old checkpoints.old stops.old exits.old) result (lent segments.new lanes.new zones.new spots.new points.new checkpoints.new stops.new exits.new) }
{
    yard::kastepuhm_read_rndf(
        edition,
        text,
        segments,
        lanes,
        zones,
        spots,
        points,
        checkpoints,
        stops,
        exits,
    )
}

// An RNDF with its MDF.
#[unsafe(no_mangle)]
pub extern "C" fn kastepuhm_read_pair(
    edition: u32,
    rndf: &[u8],
    mdf: &[u8],
    segments: &mut [u32],
    lanes: &mut [u32],
    zones: &mut [u32],
    spots: &mut [u32],
    points: &mut [i32],
    checkpoints: &mut [u32],
    stops: &mut [u32],
    exits: &mut [u32],
    goals: &mut [u32],
    limits: &mut [u32],
) -> Answer
    ensures { AnswersPair (edition_numbered edition) rndf.now mdf.now (lent segments.old lanes.old zones.old spots.old points.old checkpoints.old stops.old exits.old) (mission_lent goals.old limits.old) result (lent segments.new lanes.new zones.new spots.new points.new checkpoints.new stops.new exits.new) (mission_lent goals.new limits.new) }
{
    yard::kastepuhm_read_pair(
        edition,
        rndf,
        mdf,
        segments,
        lanes,
        zones,
        spots,
        points,
        checkpoints,
        stops,
        exits,
        goals,
        limits,
    )
}

// A route over an RNDF with its MDF, from a start: is it drivable?
#[unsafe(no_mangle)]
pub extern "C" fn kastepuhm_check_route(
    edition: u32,
    rndf: &[u8],
    mdf: &[u8],
    segments: &mut [u32],
    lanes: &mut [u32],
    zones: &mut [u32],
    spots: &mut [u32],
    points: &mut [i32],
    checkpoints: &mut [u32],
    stops: &mut [u32],
    exits: &mut [u32],
    goals: &mut [u32],
    limits: &mut [u32],
    start: u32,
    route: &[u32],
) -> Answer
    ensures { AnswersRoute (edition_numbered edition) start route.now rndf.now mdf.now (lent segments.old lanes.old zones.old spots.old points.old checkpoints.old stops.old exits.old) (mission_lent goals.old limits.old) result (lent segments.new lanes.new zones.new spots.new points.new checkpoints.new stops.new exits.new) (mission_lent goals.new limits.new) }
{
    yard::kastepuhm_check_route(
        edition,
        rndf,
        mdf,
        segments,
        lanes,
        zones,
        spots,
        points,
        checkpoints,
        stops,
        exits,
        goals,
        limits,
        start,
        route,
    )
}

// The mission of an RNDF with its MDF, from a start: can it be driven at all?
#[unsafe(no_mangle)]
pub extern "C" fn kastepuhm_check_mission(
    edition: u32,
    rndf: &[u8],
    mdf: &[u8],
    segments: &mut [u32],
    lanes: &mut [u32],
    zones: &mut [u32],
    spots: &mut [u32],
    points: &mut [i32],
    checkpoints: &mut [u32],
    stops: &mut [u32],
    exits: &mut [u32],
    goals: &mut [u32],
    limits: &mut [u32],
    start: u32,
    work: &mut [u32],
) -> Answer
    ensures { AnswersMission (edition_numbered edition) start rndf.now mdf.now (lent segments.old lanes.old zones.old spots.old points.old checkpoints.old stops.old exits.old) (mission_lent goals.old limits.old) work.old result (lent segments.new lanes.new zones.new spots.new points.new checkpoints.new stops.new exits.new) (mission_lent goals.new limits.new) work.new }
{
    yard::kastepuhm_check_mission(
        edition,
        rndf,
        mdf,
        segments,
        lanes,
        zones,
        spots,
        points,
        checkpoints,
        stops,
        exits,
        goals,
        limits,
        start,
        work,
    )
}

// The house writing of an RNDF, into `out`.
#[unsafe(no_mangle)]
pub extern "C" fn kastepuhm_write_rndf(
    edition: u32,
    text: &[u8],
    segments: &mut [u32],
    lanes: &mut [u32],
    zones: &mut [u32],
    spots: &mut [u32],
    points: &mut [i32],
    checkpoints: &mut [u32],
    stops: &mut [u32],
    exits: &mut [u32],
    out: &mut [u8],
) -> WriteAnswer
    ensures { AnswersWrite (edition_numbered edition) HouseRndf text.now (lent segments.old lanes.old zones.old spots.old points.old checkpoints.old stops.old exits.old) (length out.old) result (lent segments.new lanes.new zones.new spots.new points.new checkpoints.new stops.new exits.new) out.new }
{
    yard::kastepuhm_write_rndf(
        edition,
        text,
        segments,
        lanes,
        zones,
        spots,
        points,
        checkpoints,
        stops,
        exits,
        out,
    )
}

// The map of an RNDF's network, into `out`.
#[unsafe(no_mangle)]
pub extern "C" fn kastepuhm_write_map(
    edition: u32,
    text: &[u8],
    segments: &mut [u32],
    lanes: &mut [u32],
    zones: &mut [u32],
    spots: &mut [u32],
    points: &mut [i32],
    checkpoints: &mut [u32],
    stops: &mut [u32],
    exits: &mut [u32],
    out: &mut [u8],
) -> WriteAnswer
    ensures { AnswersWrite (edition_numbered edition) MapOf text.now (lent segments.old lanes.old zones.old spots.old points.old checkpoints.old stops.old exits.old) (length out.old) result (lent segments.new lanes.new zones.new spots.new points.new checkpoints.new stops.new exits.new) out.new }
{
    yard::kastepuhm_write_map(
        edition,
        text,
        segments,
        lanes,
        zones,
        spots,
        points,
        checkpoints,
        stops,
        exits,
        out,
    )
}

// The packed form of an RNDF's network, into `out`.
#[unsafe(no_mangle)]
pub extern "C" fn kastepuhm_write_packed(
    edition: u32,
    text: &[u8],
    segments: &mut [u32],
    lanes: &mut [u32],
    zones: &mut [u32],
    spots: &mut [u32],
    points: &mut [i32],
    checkpoints: &mut [u32],
    stops: &mut [u32],
    exits: &mut [u32],
    out: &mut [u8],
) -> WriteAnswer
    ensures { AnswersWrite (edition_numbered edition) PackedOf text.now (lent segments.old lanes.old zones.old spots.old points.old checkpoints.old stops.old exits.old) (length out.old) result (lent segments.new lanes.new zones.new spots.new points.new checkpoints.new stops.new exits.new) out.new }
{
    yard::kastepuhm_write_packed(
        edition,
        text,
        segments,
        lanes,
        zones,
        spots,
        points,
        checkpoints,
        stops,
        exits,
        out,
    )
}

// The house writing of the MDF of a pair, into `out`.
#[unsafe(no_mangle)]
pub extern "C" fn kastepuhm_write_mdf(
    edition: u32,
    rndf: &[u8],
    mdf: &[u8],
    segments: &mut [u32],
    lanes: &mut [u32],
    zones: &mut [u32],
    spots: &mut [u32],
    points: &mut [i32],
    checkpoints: &mut [u32],
    stops: &mut [u32],
    exits: &mut [u32],
    goals: &mut [u32],
    limits: &mut [u32],
    out: &mut [u8],
) -> WriteAnswer
    ensures { AnswersWriteMdf (edition_numbered edition) rndf.now mdf.now (lent segments.old lanes.old zones.old spots.old points.old checkpoints.old stops.old exits.old) (mission_lent goals.old limits.old) (length out.old) result (lent segments.new lanes.new zones.new spots.new points.new checkpoints.new stops.new exits.new) (mission_lent goals.new limits.new) out.new }
{
    yard::kastepuhm_write_mdf(
        edition,
        rndf,
        mdf,
        segments,
        lanes,
        zones,
        spots,
        points,
        checkpoints,
        stops,
        exits,
        goals,
        limits,
        out,
    )
}

// A packed network: names have their places in the packed bytes.
#[unsafe(no_mangle)]
pub extern "C" fn kastepuhm_read_packed(
    bytes: &[u8],
    segments: &mut [u32],
    lanes: &mut [u32],
    zones: &mut [u32],
    spots: &mut [u32],
    points: &mut [i32],
    checkpoints: &mut [u32],
    stops: &mut [u32],
    exits: &mut [u32],
) -> Answer
    ensures { AnswersUnpack bytes.now (lent segments.old lanes.old zones.old spots.old points.old checkpoints.old stops.old exits.old) result (lent segments.new lanes.new zones.new spots.new points.new checkpoints.new stops.new exits.new) }
{
    yard::kastepuhm_read_packed(
        bytes,
        segments,
        lanes,
        zones,
        spots,
        points,
        checkpoints,
        stops,
        exits,
    )
}

// An RNDF with three kinds of trouble mended, into `out`; a row of `list` for each changed line.
#[unsafe(no_mangle)]
pub extern "C" fn kastepuhm_mend(
    edition: u32,
    text: &[u8],
    list: &mut [u32],
    out: &mut [u8],
) -> MendAnswer
    ensures { AnswersMend (edition_numbered edition) text.now list.old (length out.old) result list.new out.new }
{
    yard::kastepuhm_mend(edition, text, list, out)
}

// The point of the first row with that checkpoint number, or 4,294,967,295.
#[unsafe(no_mangle)]
pub extern "C" fn kastepuhm_point_of(checkpoints: &[u32], number: u32) -> u32
    ensures { PointOf checkpoints.now number result }
{
    yard::kastepuhm_point_of(checkpoints, number)
}

// The point of each checkpoint number of a list, in its place.
#[unsafe(no_mangle)]
pub extern "C" fn kastepuhm_points_of(
    checkpoints: &[u32],
    numbers: &[u32],
    points: &mut [u32],
) -> ListAnswer
    ensures { AnswersList checkpoints.now numbers.now (length points.old) result points.new }
{
    yard::kastepuhm_points_of(checkpoints, numbers, points)
}

// What planners are told of a refusal: `network.rndf:9:12: the entry is no declared lane waypoint or perimeter point (12)`, and below it the line with a caret. How many bytes it has; where the output
// is shorter, 0, and the output is zero.
#[unsafe(no_mangle)]
pub extern "C" fn kastepuhm_sentence(
    name: &[u8],
    text: &[u8],
    line: u32,
    number: u8,
    column: u32,
    out: &mut [u8],
) -> u32
    ensures { WholeOrNone (sentence name.now text.now line number column) (length out.old) result out.new }
{
    yard::kastepuhm_sentence(name, text, line, number, column, out)
}

// Does the text begin as an MDF does?
#[unsafe(no_mangle)]
pub extern "C" fn kastepuhm_is_mission(text: &[u8]) -> bool
    ensures { result ≡ mission_first text.now }
{
    yard::kastepuhm_is_mission(text)
}

// What may stand where a text was refused, in the planners' words, without a line feed: of the refusal's file, line and number. Nothing is told of 2, 3 and 4, nor without a line; 19 where the output is too short.
#[unsafe(no_mangle)]
pub extern "C" fn kastepuhm_expected(
    edition: u32,
    rndf: &[u8],
    mdf: &[u8],
    file: u32,
    line: u32,
    number: u8,
    out: &mut [u8],
) -> ExpectedAnswer
    ensures { AnswersExpected expected_words_of (edition_numbered edition) rndf.now mdf.now file line number (length out.old) result out.new }
{
    yard::kastepuhm_expected(edition, rndf, mdf, file, line, number, out)
}
