//! Worked lists of steps.

use crate::keys::sample_roster;
use std::alloc::{AllocError, Global};
use std::test::Fail;
use ucl_board::{Board, Reading};
use ucl_order::Profile::Uefa;
use ucl_screen::screen;
use ucl_steps::{Call, Caller, Cast, Reply, Step, StepFault, Trace, run_steps};
use ucl_word::Kind::{Disallow, FullTime, Goal, KickOff, Yellow};
use ucl_word::Side::{Away, Home};
use ucl_word::{Accepted, EventCall, Kind, MatchNo, Refusal, ReporterNo};

const READER: Caller = Caller::Reader(1);

/// A match that has not begun.
const FRESH: u64 = 0x2000000000000000;

/// The match, the expected number and the kind of an event.
type Event = (u8, u16, Kind);

/// What a caller does next. The reader is 0, and a reporter is its number.
#[derive(Clone, Copy)]
enum Turn {
    /// Begins a reading.
    Opens,
    /// Loads so many words for the first collect.
    First(u8),
    /// Loads so many words for the second collect.
    Second(u8),
    /// A whole reading that nothing disturbs: 26 steps.
    Reads(u8),
    /// Begins to enter an event, and looks.
    Looks(u8, Event),
    /// Exchanges the word.
    Swaps(u8),
    /// Enters an event: four steps.
    Enters(u8, Event),
    /// Ends its call.
    Ends(u8),
}

/// What a call answers. A copy is of the words that the steps leave.
#[derive(Clone, Copy)]
enum Answer {
    Nothing,
    Number(u16),
    Stale(u16),
    Copied(u16),
}

use Answer::{Copied, Nothing, Number, Stale};
use Turn::{Ends, Enters, First, Looks, Opens, Reads, Second, Swaps};

/// What became of a call: the length of the history at its beginning, its point, its reply, and the length at its end.
type Outcome = (u16, Option<u16>, Answer, Option<u16>);

/// A worked list of steps: what is done in turn, how many steps that is, the words of matches 1 to 3 that it leaves, and what becomes of
/// each call. The other matches have not begun.
type Worked = (
    &'static str,
    &'static [Turn],
    usize,
    [u64; 3],
    &'static [Outcome],
);

const KICK_OFF: Event = (1, 0, KickOff);

const OTHER_KICK_OFF: Event = (2, 0, KickOff);

const GOAL: Event = (1, 1, Goal(Home));

const GOAL_DISALLOWED: Event = (1, 2, Disallow(Home));

const THIRD_KICK_OFF: Event = (3, 0, KickOff);

const THIRD_GOAL: Event = (3, 1, Goal(Home));

const THIRD_AWAY_GOAL: Event = (3, 2, Goal(Away));

const THIRD_YELLOW: Event = (3, 3, Yellow(Home));

static WORKED: [Worked; 7] = [
    (
        "torn reading",
        &[
            Opens,
            First(1),
            Enters(1, KICK_OFF),
            Enters(2, OTHER_KICK_OFF),
            First(11),
            Second(1),
            First(12),
            Second(12),
            Ends(0),
        ],
        47,
        [0x2001000000001001, 0x2002000000001001, FRESH],
        &[
            (0, Some(2), Copied(2), Some(2)),
            (0, Some(0), Number(1), Some(1)),
            (1, Some(1), Number(1), Some(2)),
        ],
    ),
    (
        "changed and changed back: the scores are those of the first collect, and the number is another",
        &[
            Enters(1, KICK_OFF),
            Opens,
            First(12),
            Enters(1, GOAL),
            Enters(1, GOAL_DISALLOWED),
            Second(1),
            First(12),
            Second(12),
        ],
        50,
        [0x2001000000001003, FRESH, FRESH],
        &[
            (0, Some(0), Number(1), Some(1)),
            (1, Some(3), Copied(3), None),
            (1, Some(1), Number(2), Some(2)),
            (2, Some(2), Number(3), Some(3)),
        ],
    ),
    (
        "changed back before the reading has come to it, and another match changed between",
        &[
            Enters(1, KICK_OFF),
            Opens,
            First(1),
            Enters(1, GOAL),
            Enters(2, OTHER_KICK_OFF),
            Enters(1, GOAL_DISALLOWED),
            First(11),
            Second(1),
            First(12),
            Second(12),
            Ends(0),
        ],
        55,
        [0x2001000000001003, 0x2002000000001001, FRESH],
        &[
            (0, Some(0), Number(1), Some(1)),
            (1, Some(4), Copied(4), Some(4)),
            (1, Some(1), Number(2), Some(2)),
            (2, Some(2), Number(1), Some(3)),
            (3, Some(3), Number(3), Some(4)),
        ],
    ),
    (
        "four events",
        &[
            Enters(1, THIRD_KICK_OFF),
            Enters(1, THIRD_GOAL),
            Enters(1, THIRD_AWAY_GOAL),
            Enters(1, THIRD_YELLOW),
        ],
        16,
        [FRESH, FRESH, 0x2001000004105004],
        &[
            (0, Some(0), Number(1), Some(1)),
            (1, Some(1), Number(2), Some(2)),
            (2, Some(2), Number(3), Some(3)),
            (3, Some(3), Number(4), Some(4)),
        ],
    ),
    (
        "two exchanges",
        &[
            Enters(1, THIRD_KICK_OFF),
            Enters(1, THIRD_GOAL),
            Enters(1, THIRD_AWAY_GOAL),
            Enters(1, THIRD_YELLOW),
            Looks(1, (3, 4, Goal(Home))),
            Looks(2, (3, 4, Goal(Away))),
            Swaps(1),
            Swaps(2),
        ],
        22,
        [FRESH, FRESH, 0x2001000004109005],
        &[
            (0, Some(0), Number(1), Some(1)),
            (1, Some(1), Number(2), Some(2)),
            (2, Some(2), Number(3), Some(3)),
            (3, Some(3), Number(4), Some(4)),
            (4, Some(4), Number(5), None),
            (4, Some(5), Stale(5), None),
        ],
    ),
    (
        "an unfinished report",
        &[Looks(1, KICK_OFF), Reads(0)],
        28,
        [FRESH; 3],
        &[(0, None, Nothing, None), (0, Some(0), Copied(0), Some(0))],
    ),
    (
        "a late exchange: another was faster, and a whole reading comes between",
        &[
            Looks(1, KICK_OFF),
            Enters(2, KICK_OFF),
            Reads(0),
            Swaps(1),
            Ends(1),
        ],
        34,
        [0x2002000000001001, FRESH, FRESH],
        &[
            (0, Some(1), Stale(1), Some(1)),
            (0, Some(0), Number(1), Some(1)),
            (1, Some(1), Copied(1), Some(1)),
        ],
    ),
];

/// The reporter with this number; the reader if it is 0.
fn caller(number: u8) -> Caller {
    match ReporterNo::new(number) {
        Some(reporter) => Caller::Reporter(reporter),
        None => READER,
    }
}

/// The item, so many times.
fn repeat<T: Copy>(items: &mut Vec<T>, item: T, times: u8) -> Result<(), AllocError> {
    for _ in 0..times {
        items.push(item)?;
    }
    Ok(())
}

/// The call that enters an event: match, expected number and kind.
fn event_of((game, expected, kind): Event) -> Result<Call, Fail> {
    Ok(Call::Event(EventCall {
        game: MatchNo::new(game).ok_or("no such match")?,
        expected,
        kind,
    }))
}

/// Appends the four steps in which a reporter enters an event: it begins, loads the word, exchanges it, and ends.
fn enter(steps: &mut Vec<Step>, by: Caller, event: Event) -> Result<(), Fail> {
    let call = event_of(event)?;
    let all = [
        Step::Begin(by, call),
        Step::Look(by),
        Step::Swap(by),
        Step::End(by),
    ];
    Ok(steps.extend_from_slice(&all)?)
}

/// Appends the 26 steps of a reading that nothing disturbs: its begin, two collects of 12 loads, and its end.
fn read(steps: &mut Vec<Step>, by: Caller) -> Result<(), AllocError> {
    steps.push(Step::Begin(by, Call::Reading))?;
    repeat(steps, Step::First(by), 12)?;
    repeat(steps, Step::Second(by), 12)?;
    Ok(steps.push(Step::End(by))?)
}

/// Appends the steps of a turn, which is what a caller does next in a worked list.
fn play(steps: &mut Vec<Step>, turn: Turn) -> Result<(), Fail> {
    match turn {
        Opens => steps.push(Step::Begin(READER, Call::Reading))?,
        First(times) => repeat(steps, Step::First(READER), times)?,
        Second(times) => repeat(steps, Step::Second(READER), times)?,
        Reads(number) => read(steps, caller(number))?,
        Looks(number, event) => {
            let by = caller(number);
            steps.push(Step::Begin(by, event_of(event)?))?;
            steps.push(Step::Look(by))?;
        }
        Swaps(number) => steps.push(Step::Swap(caller(number)))?,
        Enters(number, event) => enter(steps, caller(number), event)?,
        Ends(number) => steps.push(Step::End(caller(number)))?,
    }
    Ok(())
}

/// The steps of some turns.
fn steps_of(alloc: Global, turns: &[Turn]) -> Result<Vec<Step>, Fail> {
    let mut steps = Vec::new(alloc);
    for turn in turns {
        play(&mut steps, *turn)?;
    }
    Ok(steps)
}

/// The reply of a call for which a listed answer stands; a copied board has these words.
fn reply(answer: Answer, words: &[u64; 12]) -> Option<Reply> {
    match answer {
        Nothing => None,
        Number(number) => Some(Reply::Accepted(Accepted { number })),
        Stale(found) => Some(Reply::Refused(Refusal::Stale { found })),
        Copied(version) => {
            let board = Board::of_words(words).ok()?;
            Some(Reply::Copied(Reading { board, version }))
        }
    }
}

/// The first call of a trace whose outcome is not the listed one. Each call past the last outcome has to have that one too.
fn first_other(trace: &Trace, outcomes: &[Outcome]) -> Option<usize> {
    let last = outcomes.last()?;
    for (place, call) in trace.calls.iter().enumerate() {
        let (begun, point, answer, ended) = *outcomes.get(place).unwrap_or(last);
        let wanted = (begun, point, reply(answer, &trace.words), ended);
        if (call.begun, call.point, call.reply, call.ended) != wanted {
            return Some(place);
        }
    }
    None
}

const TWO_REPORTERS: Cast = Cast {
    reporters: 2,
    readers: 1,
};

/// How many events are accepted among some outcomes.
fn accepted_in(outcomes: &[Outcome]) -> usize {
    outcomes
        .iter()
        .filter(|(_, _, answer, _)| matches!(answer, Number(_)))
        .count()
}

/// The words of a board whose first three matches have these, and on which the others have not begun.
fn words_with([first, second, third]: [u64; 3]) -> [u64; 12] {
    let mut words = [FRESH; 12];
    (words[0], words[1], words[2]) = (first, second, third);
    words
}

/// What a list of steps of two reporters and a reader leads to: the numbers of its steps, calls and events, the words that it leaves, and
/// the first call whose outcome is not the listed one.
type Led = ([usize; 3], [u64; 12], Option<usize>);

/// What these steps lead to, beside these outcomes.
fn led_to(alloc: Global, steps: &[Step], outcomes: &[Outcome]) -> Result<Led, StepFault> {
    let trace = run_steps(alloc, &TWO_REPORTERS, steps)?;
    let lengths = [steps.len(), trace.calls.len(), trace.history.len()];
    Ok((lengths, trace.words, first_other(&trace, outcomes)))
}

/// Each worked list of steps leaves the listed words, its calls have the listed outcomes, and the history has the accepted events.
#[test]
fn worked_lists(rt: HostRuntime) -> Result<(), Fail> {
    for &(name, turns, count, begun, outcomes) in WORKED.as_slice() {
        let steps = steps_of(rt.alloc(), turns)?;
        let led = led_to(rt.alloc(), &steps, outcomes)?;
        let lengths = [count, outcomes.len(), accepted_in(outcomes)];
        assert_eq!(rt; led, (lengths, words_with(begun), None), "{name}");
    }
    Ok(())
}

/// The steps in which reporter 1 looks and never goes on, while reporter 2 enters an event, and it and the reader read again and again.
fn steps_past_a_stopped_reporter(alloc: Global) -> Result<Vec<Step>, Fail> {
    let mut steps = steps_of(alloc, &[Looks(1, KICK_OFF), Enters(2, KICK_OFF), Reads(0)])?;
    for _ in 0..100 {
        read(&mut steps, caller(2))?;
        read(&mut steps, READER)?;
    }
    Ok(steps)
}

/// A reporter that has loaded the word of its match, and never goes on, stops no other caller.
#[test]
fn stopped_reporter(rt: HostRuntime) -> Result<(), Fail> {
    let steps = steps_past_a_stopped_reporter(rt.alloc())?;
    let outcomes = [
        (0, None, Nothing, None),
        (0, Some(0), Number(1), Some(1)),
        (1, Some(1), Copied(1), Some(1)),
    ];
    let ([_, calls, _], words, other) = led_to(rt.alloc(), &steps, &outcomes)?;
    assert_eq!(rt; (words[0], calls, other), (0x2002000000001001, 203, None));
    Ok(())
}

const BOTH_KICKED_OFF: &str = "\
GROUP A v00002 IN PLAY 2
    Club                  P  W  D  L  GF  GA   GD Pts
1   Bravo                 1  0  1  0   0   0   +0   1
2   Delta                 1  0  1  0   0   0   +0   1
3   Alpha                 1  0  1  0   0   0   +0   1
4   Charlie               1  0  1  0   0   0   +0   1
";

/// The copy that the first call of the first worked list makes of the board; nothing if it makes none.
fn first_reading(alloc: Global) -> Result<Option<Reading>, Fail> {
    let steps = steps_of(alloc, WORKED[0].1)?;
    let trace = run_steps(alloc, &TWO_REPORTERS, &steps)?;
    match trace.calls.first().and_then(|call| call.reply) {
        Some(Reply::Copied(reading)) => Ok(Some(reading)),
        _ => Ok(None),
    }
}

/// The screen of a reading that had to try again, since two events came during its first collect, shows both events.
#[test]
fn screen_of_a_reading(rt: HostRuntime) -> Result<(), Fail> {
    let alloc = rt.alloc();
    let reading = first_reading(alloc)?.ok_or("no reading")?;
    let text = screen(alloc, &reading.board, &sample_roster(alloc)?, b'A', Uefa)?;
    assert_eq!(rt; text.as_str(), BOTH_KICKED_OFF);
    Ok(())
}

const ONE_REPORTER: Cast = Cast {
    reporters: 1,
    readers: 1,
};

/// The kind of the event with this expected number, of those with which a match takes as many as it can: a kick-off, a home goal and its
/// disallowing in turn, and full time.
fn kind_at(expected: u16) -> Kind {
    match expected {
        0 => KickOff,
        4094 => FullTime,
        _ if expected % 2 == 1 => Goal(Home),
        _ => Disallow(Home),
    }
}

/// Appends the steps of a try to read, between whose two collects reporter 1 enters an event.
fn fail_a_try(steps: &mut Vec<Step>, (game, expected, kind): Event) -> Result<(), Fail> {
    repeat(steps, Step::First(READER), 12)?;
    enter(steps, caller(1), (game, expected, kind))?;
    Ok(repeat(steps, Step::Second(READER), game)?)
}

/// The steps of a reading of which a try fails for each event that the board can take, and the last one does not.
fn longest_reading(alloc: Global) -> Result<Vec<Step>, Fail> {
    let mut steps = steps_of(alloc, &[Opens])?;
    for game in 1..=12 {
        for expected in 0..4095 {
            fail_a_try(&mut steps, (game, expected, kind_at(expected)))?;
        }
    }
    for turn in [First(12), Second(12), Ends(0)] {
        play(&mut steps, turn)?;
    }
    Ok(steps)
}

/// The number of steps of the longest reading, the words and the number of events that they leave, and its reply.
fn longest_reading_led_to(alloc: Global) -> Result<(usize, [u64; 12], usize, Option<Reply>), Fail> {
    let steps = longest_reading(alloc)?;
    let trace = run_steps(alloc, &ONE_REPORTER, &steps)?;
    let reading = trace.calls.first().ok_or("call")?.reply;
    Ok((steps.len(), trace.words, trace.history.len(), reading))
}

/// A reading ends after the most tries that it can need: each event that a board can take, one after the other, makes one try fail.
#[test]
fn bound_of_tries(rt: HostRuntime) -> Result<(), Fail> {
    let led = longest_reading_led_to(rt.alloc())?;
    let words = [0x2001000000006fff; 12];
    let reading = reply(Copied(49_140), &words);
    assert_eq!(rt; led, (1_105_676, words, 49_140, reading));
    Ok(())
}

/// The place of the step of a list that is not enabled.
fn place_not_enabled(alloc: Global, steps: &[Step]) -> Option<usize> {
    match run_steps(alloc, &ONE_REPORTER, steps) {
        Err(StepFault::NotEnabled { at }) => Some(at),
        _ => None,
    }
}

/// The numbers of events and of calls of the list without a step, and the words that it leaves.
fn left_by_no_step(alloc: Global) -> Result<(usize, usize, [u64; 12]), StepFault> {
    let trace = run_steps(alloc, &ONE_REPORTER, &[])?;
    Ok((trace.history.len(), trace.calls.len(), trace.words))
}

/// The places at which three lists are refused: of an exchange by a reader, an event that a reader begins, and a reader who is not there.
fn places_not_enabled(alloc: Global) -> Result<[Option<usize>; 3], Fail> {
    let reading = Step::Begin(READER, Call::Reading);
    let event = Step::Begin(READER, event_of(KICK_OFF)?);
    let stranger = Step::Begin(Caller::Reader(2), Call::Reading);
    Ok([
        place_not_enabled(alloc, &[reading, Step::Swap(READER)]),
        place_not_enabled(alloc, &[event]),
        place_not_enabled(alloc, &[stranger]),
    ])
}

/// A list with a step that is not enabled, such as an exchange by a reader, is refused with the place of that step.
#[test]
fn steps_not_enabled(rt: HostRuntime) -> Result<(), Fail> {
    let places = places_not_enabled(rt.alloc())?;
    let left = left_by_no_step(rt.alloc())?;
    let wanted = ([Some(1), Some(0), Some(0)], (0, 0, [FRESH; 12]));
    assert_eq!(rt; (places, left), wanted);
    let text = StepFault::NotEnabled { at: 1 }.to_string(rt.alloc())?;
    assert_eq!(rt; text.as_str(), "step 1 is not enabled: 40");
    Ok(())
}
