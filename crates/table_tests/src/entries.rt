// Entries of desks, each with whether it is allowed after those before it.
use crate::lines::{amount, byte, columns, number, word};
use history_model::entry::{Entry, Step};
use history_model::list_host::{ApplyFault, ListHost};
use history_model::phase::{Phase, phase_of};
use leg_masks::Span;
use rail_ids::PlaceNo;
use std::process::Abort;

/// Desk 0 books legs 0 and 1 of place 0, desk 2 confirms, and desk 1 exchanges that for leg 2. Each kind of step is
/// once allowed and, but for a meeting, once refused.
const FORTY_ENTRIES: &str = "0 ok start 0 0
1 no start 0 0
1 ok start 1 0
0 ok look 0 0 0
0 ok take 0 0 0 2
1 no look 0 0 0
1 ok look 0 0 3
1 no take 1 0 1 3
1 ok take 1 0 2 3
0 ok take 0 1 0 63
0 no give 0 0
0 ok give 0 1
1 no note 0 1 7
0 ok note 0 1 7
0 ok note 0 2 900
0 ok note 0 4 1
0 no seal 0 2
0 ok note 0 8 2
0 no seal 0 3
0 ok seal 0 2
2 ok saw 0 0 2
2 no saw 0 8 3
2 no turn 0 2 3 901 0 0
2 ok turn 0 2 3 900 0 0
0 ok lost 0 2 3
0 no lost 0 3 3
0 no turn 0 2 6 901 0 0
2 no turn 0 3 8 950 -550 2
1 ok turn 0 3 8 950 -550 2
1 ok note 1 4 1
1 ok note 1 8 515
1 ok seal 1 3
1 ok note 0 5 2
1 ok note 0 6 1099
1 ok note 0 7 950
1 no close 0
0 no give 0 0
1 ok give 0 0
1 ok close 0
2 ok met";

/// One stretch of a run of three legs and two places is sold.
const FIRST_STRETCH: &str = "0 ok start 0 0
0 ok take 0 0 0 2
0 ok note 0 1 1
0 ok note 0 2 0
0 ok note 0 3 0
0 ok note 0 4 1
0 ok note 0 8 2
0 ok seal 0 2";

/// The turns that the exchange above leaves out, each with what it refuses.
const OTHER_TURNS: &str = "0 ok start 0 0
0 ok take 0 0 0 1
0 ok note 0 2 900
0 ok note 0 4 1
0 ok note 0 8 1
0 ok seal 0 2
0 ok start 1 0
0 ok take 1 1 0 1
0 ok note 1 2 900
0 ok note 1 4 1
0 ok note 1 8 65537
0 ok seal 1 2
0 ok start 2 0
0 ok take 2 2 0 1
0 ok note 2 2 900
0 ok note 2 4 1
0 ok note 2 8 131073
0 ok seal 2 2
1 no turn 0 2 6 900 0 0
1 ok turn 0 2 6 901 0 0
1 no turn 1 2 5 5000 1 0
1 ok turn 1 2 5 5000 0 0
1 no turn 2 2 4 0 0 0
1 ok turn 2 2 3 900 0 0
1 no turn 2 3 4 900 0 0
1 ok turn 2 3 4 0 0 0
1 no turn 2 4 7 950 -1 0
1 no turn 2 4 7 950 100000000000 0
1 no turn 2 4 7 4102444800 2687 0
1 ok turn 2 4 7 4102444799 2687 0
1 ok note 2 6 2687
1 ok note 2 7 4102444799
1 ok give 2 0
0 no close 2
1 ok close 2
0 ok saw 0 0 6
0 ok saw 1 0 5
0 ok saw 2 0 11
0 ok saw 2 63 0
0 no saw 2 64 0";

/// A row serves one booking after another: the next may start once the one before has ended, and not in another
/// generation. What it doesn't note is still as it was.
const A_ROW_AGAIN: &str = "0 no start 0 1
0 ok start 0 0
1 no start 0 1
0 ok take 0 0 0 1
0 ok note 0 1 7
0 ok note 0 2 900
0 ok note 0 4 1
0 ok note 0 8 1
0 ok seal 0 2
1 ok turn 0 2 5 5000 0 0
1 ok note 0 7 5000
1 ok give 0 0
2 no start 0 1
1 ok close 0
0 ok saw 0 0 9
2 no start 0 0
2 no start 0 2
2 ok start 0 1
0 ok saw 0 0 17
0 ok saw 0 1 7
0 ok saw 0 7 5000
1 ok lost 0 2 17
1 no lost 0 2 1
2 ok take 0 0 0 1
2 ok seal 0 2
0 ok saw 0 0 18
1 ok turn 0 2 3 900 0 0
1 ok start 1 0
1 no turn 0 3 8 950 0 4294967298
1 ok turn 0 3 8 950 0 2";

/// A booking over the border of the halves: an item in each, each in the word of its half.
const OVER_THE_BORDER: &str = "0 ok start 0 0
0 no take 0 0 62 64
0 ok take 0 0 62 63
0 ok look 0 0 4611686018427387904
0 ok look 0 1 0
0 ok take 0 0 63 126
0 ok look 0 1 9223372036854775807
0 no look 0 2 0
0 no take 0 0 125 126
0 ok give 0 1
0 ok take 0 0 63 64
0 ok note 0 4 2
0 ok note 0 8 15935
0 ok note 0 9 16192
0 ok note 0 55 0
0 no note 0 56 0
0 ok seal 0 2";

/// The phase of this word.
fn phase(rt: &impl Abort, text: &str) -> Phase {
    phase_of(word(rt, text)).expect(rt, "a phase")
}

fn span(rt: &impl Abort, from: &str, to: &str) -> Span {
    Span::new(byte(rt, from), byte(rt, to)).expect(rt, "a span")
}

/// A step of a row by its kind and its columns. The row stands first.
fn row_step(rt: &impl Abort, kind: &str, c: [&str; 9]) -> Step {
    let row = number(rt, c[3]);
    match kind {
        "start" => Step::Start {
            row,
            generation: number(rt, c[4]),
        },
        "take" => Step::Take {
            row,
            place: number(rt, c[4]),
            span: span(rt, c[5], c[6]),
        },
        "give" => Step::Give {
            row,
            item: byte(rt, c[4]),
        },
        "note" => Step::Note {
            row,
            word: byte(rt, c[4]),
            value: word(rt, c[5]),
        },
        "saw" => Step::SawRow {
            row,
            word: byte(rt, c[4]),
            value: word(rt, c[5]),
        },
        _ => phase_step(rt, kind, row, c),
    }
}

/// A step on a row's phase.
fn phase_step(rt: &impl Abort, kind: &str, row: u32, c: [&str; 9]) -> Step {
    match kind {
        "seal" => Step::Seal {
            row,
            phase: phase(rt, c[4]),
        },
        "turn" => Step::Turn {
            row,
            from: phase(rt, c[4]),
            to: phase(rt, c[5]),
            moment: word(rt, c[6]),
            amount: amount(rt, c[7]),
            successor: word(rt, c[8]),
        },
        "lost" => Step::LostTurn {
            row,
            wanted: word(rt, c[4]),
            shown: word(rt, c[5]),
        },
        "close" => Step::Close { row },
        _ => panic!(rt; "no step: {kind}"),
    }
}

/// The step of a line.
fn step_of(rt: &impl Abort, c: [&str; 9]) -> Step {
    match c[2] {
        "met" => Step::Met,
        "look" => Step::Look {
            place: number(rt, c[3]),
            half: byte(rt, c[4]),
            shown: word(rt, c[5]),
        },
        kind => row_step(rt, kind, c),
    }
}

/// Applies each line's step for its desk, and compares whether it was allowed.
fn apply_all(rt: &impl Abort, host: &mut ListHost, text: &str) {
    for line in text.split('\n') {
        let c = columns(line);
        let desk = number(rt, c[0]);
        let step = step_of(rt, c);
        let expected = if c[1] == "ok" {
            Ok(())
        } else {
            Err(ApplyFault::NotAllowed)
        };
        assert!(rt; host.apply(Entry { desk, step }) == expected, "{line}");
    }
}

/// The words of the first places' halves after the entries of a text.
fn check(rt: &(impl Abort + AllocGlobal), text: &str, words: &[(u32, u8, u64)]) {
    let mut host = ListHost::new(rt.alloc(), 3, 3);
    apply_all(rt, &mut host, text);
    for (place, half, occupied) in words {
        if *half < 2 {
            assert!(rt;
                host.occupied(PlaceNo(*place), *half) == *occupied,
                "{place}"
            );
        }
    }
}

#[test]
fn entries(rt: HostRuntime) {
    check(&rt, FORTY_ENTRIES, &[(0, 0, 4), (1, 0, 0)]);
    check(&rt, FIRST_STRETCH, &[(0, 0, 3), (1, 0, 0)]);
    check(&rt, OTHER_TURNS, &[(2, 0, 0)]);
    check(&rt, A_ROW_AGAIN, &[(0, 0, 1)]);
    check(
        &rt,
        OVER_THE_BORDER,
        &[(0, 0, 1 << 62), (0, 1, 1), (1, 1, 0)],
    );
}
