// What each line of the script does: the words that are expected are made and changed by rows, and an event is told by its answer and by
// whether the state then has these words.
ghost use Rattle.std.specs.Prelude.{◌<◌};

use crate::image::{fresh, put, row_of};
use crate::lines::{Line, byte};
use crate::named::{EACH, edition, event_of, named};
use crate::report::{begin, end, first_difference, number, say, tell, unknown};
use engine::events::step;
use engine::start::start_in;
use journal::numbers::refusal_of;
use rules::{Answer, Event};
use std::mem;
use words::layout::WORDS;

// How many chassis can be kept, to be used again.
pub(crate) const KEPT: usize = 4;

// What the lines of a script go on from: the state that events change, the words that are expected of it, the chassis that were kept, and how
// many events were done without a line of their own. The words are lent: as a value of this type they would lie on the stack twice.
#[derive(Drop)]
pub(crate) struct Checks<'a> {
    state: &'a mut [u64; WORDS],
    expected: &'a mut [u64; WORDS],
    kept: &'a mut [[u64; WORDS]; KEPT],
    done: u64,
}

impl<'a> Checks<'a> {
    // Before the first line.
    pub(crate) fn new(
        state: &'a mut [u64; WORDS],
        expected: &'a mut [u64; WORDS],
        kept: &'a mut [[u64; WORDS]; KEPT],
    ) -> Checks<'a> {
        Checks {
            state,
            expected,
            kept,
            done: 0,
        }
    }
}

impl Checks<'_> {
    // One line, and what it says. Letters are bytes here and in `row_of`, where each stands once, beside what it does: an enum would write each
    // of them three times.
    pub(crate) fn play(&mut self, rt: &impl Print, line: &[u8], said: Line<'_>) {
        let n = &said.numbers;
        match said.letter {
            b'F' => *self.expected = fresh(n[0], n[1], n[2]),
            b'K' => self.kept[slot(n[0])] = *self.expected,
            b'B' => *self.expected = self.kept[slot(n[0])],
            b'S' => *self.state = *self.expected,
            b'i' => self.repeat(&said),
            b's' => self.start(rt, &said),
            b'e' => self.event(rt, &said),
            b'k' => self.count(rt, &said),
            b'a' => {
                self.each(rt, &said);
                end(rt, b", unchanged", self.difference());
            }
            b'A' => {
                self.each(rt, &said);
                say(rt, b"\n");
            }
            b'#' => {}
            letter => match row_of(letter, n) {
                Some((at, row)) => put(self.expected, at, row),
                None => unknown(rt, line),
            },
        }
    }

    // The first word that is not as expected, if there is one.
    fn difference(&self) -> Option<usize> {
        first_difference(self.state, self.expected)
    }

    // A start, told.
    fn start(&mut self, rt: &impl Print, said: &Line<'_>) {
        let n = &said.numbers;
        let answer = start_in(self.state, edition(n[2]), byte(n[0]), byte(n[1]));
        tell(
            rt,
            said.name,
            answer,
            b", words as expected",
            self.difference(),
        );
    }

    // An event by the function of its name, told; `step` of the same event is to do the same.
    fn event(&mut self, rt: &impl Print, said: &Line<'_>) {
        let n = &said.numbers;
        let event = event_of([n[0], n[1], n[2], n[3], n[4]]);
        let (answer, same) = by_both(self.state, event);
        tell(rt, said.name, answer, b", unchanged", self.difference());
        if !same {
            begin(rt, said.name);
            say(rt, b" step does otherwise\n");
        }
    }

    // So many times the same event, without a line.
    fn repeat(&mut self, said: &Line<'_>) {
        let n = &said.numbers;
        let event = event_of([n[1], n[2], n[3], n[4], n[5]]);
        for _ in 0..byte(n[0]) {
            if step(self.state, event).is_ok() {
                self.done = self.done.wrapping_add(1);
            }
        }
    }

    // How many events were done without a line, which are then counted anew.
    fn count(&mut self, rt: &impl Print, said: &Line<'_>) {
        let done = mem::replace(&mut self.done, 0);
        begin(rt, said.name);
        number(rt, done);
        say(rt, b" done\n");
    }

    // The refusals of the eight events in a row, each on what the one before left, and then that of a load by `step`; the line does not end.
    fn each(&mut self, rt: &impl Print, said: &Line<'_>) {
        let refusals = EACH.map(|event| refusal_of(named(self.state, event)));
        let load = refusal_of(step(self.state, EACH[0]));
        begin(rt, said.name);
        for refusal in refusals {
            number(rt, refusal as u64);
        }
        number(rt, load as u64);
    }
}

// What the function of an event's name answers, and whether `step` does the same.
fn by_both(state: &mut [u64; WORDS], event: Event) -> (Answer, bool) {
    let mut twin = *state;
    let answer = named(state, event);
    let again = step(&mut twin, event);
    let same = refusal_of(again) == refusal_of(answer) && first_difference(state, &twin).is_none();
    (answer, same)
}

// Under which number a chassis is kept: each number from 3 on is the last.
fn slot(number: u64) -> usize
    ensures { result < 4 }
{
    number.min(KEPT as u64 - 1) as usize
}
