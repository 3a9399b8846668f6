// The line and the pool, as lists of places: one more at the tail, and one that leaves while the later ones close up.
ghost use Rattle.std.specs.Prelude.{◌≡◌, ℕ, ◌+◌, ◌-◌, ◌≤◌, ◌<◌, Bool, List, set};
ghost use Rattle.rules.specs.Formed.{ok_request, ok_message};
ghost use Rattle.rules.specs.Numbers.{room};
ghost use Rattle.rules.specs.Chassis.{Chassis, unused_request, unused_message};
ghost use Rattle.words.specs.Layout.{all_words, waiting_at, pooled_at, line_from, pool_from};
ghost use Rattle.words.specs.Words.{cards_of, blocks_of, last_of, request_at, message_at};
ghost use Rattle.words.specs.Inner.Parts.{Becomes, closing};
ghost use Rattle.words.specs.Inner.Tested.{request_test, message_test};
ghost use Rattle.engine.specs.Inner.Places.{
  Places,
  count_of,
  place_of,
  put_place,
  with_request,
  without_request,
  with_message,
  without_message,
  request_places,
  message_places,
};

use crate::fields::{Item, message_at, pooled, put, request_at, set_pooled, set_waiting, waiting};
use crate::formed::Headed;
use crate::places::place_in;
use rules::{Message, OrderNo, Request, RetryNo};
use words::layout::{LINE, PLACE_WORDS, POOL, WORDS};

// What waits in places: a request in the line, a message in the pool.
pub(crate) trait Waits: Item<PLACE_WORDS> {
    // Where the places begin, and which word counts those that are used.
    ghost base: { ℕ };

    ghost header: { ℕ };

    // What stands in a place that is not used, what stands in one, and whether it may.
    ghost clear: { Self };

    ghost read: { List ℕ → ℕ → Self };

    ghost ok: { List ℕ → Self → Bool };

    ghost tested: { List ℕ → ℕ → Bool };

    // A chassis with one more at the tail, and without the one at a place.
    ghost joined: { Chassis → Self → Chassis };

    ghost left: { Chassis → ℕ → Chassis };

    fn place(place: u8) -> usize
        ensures { result ≡ place_of base place };

    fn count(s: &[u64; WORDS]) -> u64
        ensures { result ≡ count_of header s.now };

    fn set_count(s: &mut [u64; WORDS], n: u64)
        ensures { s.new ≡ set s.old header n };

    fn unused() -> Self
        ensures { result ≡ clear };

    fn at(s: &[u64; WORDS], place: u8) -> Self
        ensures { result ≡ read s.now place };

    fn is_ok(self, among: Headed) -> bool
        ensures { result ≡ ok among.entry.state.now self };

    ghost laws: { Places Self.row_of base header clear read ok tested joined left };
}

impl Waits for Request {
    ghost base = { line_from };

    ghost header = { waiting_at };

    ghost clear = { unused_request };

    ghost read = { request_at };

    ghost ok = { λ w r. ok_request (cards_of w) (blocks_of w) r };

    ghost tested = { request_test };

    ghost joined = { with_request };

    ghost left = { without_request };

    fn place(place: u8) -> usize {
        place_in::<LINE>(place)
    }

    fn count(s: &[u64; WORDS]) -> u64 {
        waiting(s)
    }

    fn set_count(s: &mut [u64; WORDS], n: u64) {
        set_waiting(s, n);
    }

    fn unused() -> Request {
        Request {
            card: 0,
            block: 0,
            kind: 0,
            mask: 0,
            retry: RetryNo(0),
        }
    }

    fn at(s: &[u64; WORDS], place: u8) -> Request {
        request_at(s, place)
    }

    fn is_ok(self, among: Headed) -> bool {
        among.ok_request(self)
    }

    ghost laws = { request_places };
}

impl Waits for Message {
    ghost base = { pool_from };

    ghost header = { pooled_at };

    ghost clear = { unused_message };

    ghost read = { message_at };

    ghost ok = { λ w m. ok_message (cards_of w) (blocks_of w) (last_of w) m };

    ghost tested = { message_test };

    ghost joined = { with_message };

    ghost left = { without_message };

    fn place(place: u8) -> usize {
        place_in::<POOL>(place)
    }

    fn count(s: &[u64; WORDS]) -> u64 {
        pooled(s)
    }

    fn set_count(s: &mut [u64; WORDS], n: u64) {
        set_pooled(s, n);
    }

    fn unused() -> Message {
        Message {
            sender: 0,
            receiver: 0,
            block: 0,
            value: 0,
            number: OrderNo(0),
        }
    }

    fn at(s: &[u64; WORDS], place: u8) -> Message {
        message_at(s, place)
    }

    fn is_ok(self, among: Headed) -> bool {
        among.ok_message(self)
    }

    ghost laws = { message_places };
}

// An item's words at a place. A place, a count below the room and the words to close up are bounds of stores, as in `fields`: beyond them the
// promise is not true.
fn put_at<T: Waits>(s: &mut [u64; WORDS], place: u8, item: T)
    requires { place < room }
    ensures { s.new ≡ put_place T.row_of T.base s.old place item }
{
    put(s, T::place(place), item);
}

// An item joins the tail.
pub(crate) fn push<T: Waits>(s: &mut [u64; WORDS], item: T)
    requires { count_of T.header s.old < room }
    ensures { Becomes s.old s.new (λ c. T.joined c item) }
{
    let n = T::count(s);
    put_at(s, n as u8, item);
    T::set_count(s, n + 1);
}

// An item leaves.
pub(crate) fn remove<T: Waits>(s: &mut [u64; WORDS], place: u8)
    requires { (place < count_of T.header s.old) × (count_of T.header s.old ≤ room) }
    ensures { Becomes s.old s.new (λ c. T.left c place) }
{
    let end = T::count(s) - 1;
    close_up(s, T::place(place), T::place(end as u8), PLACE_WORDS);
    put_at(s, end as u8, T::unused());
    T::set_count(s, end);
}

// The words from `from` up to `to`, each taken by the one `width` further.
fn close_up(s: &mut [u64; WORDS], from: usize, to: usize, width: usize)
    requires { (from ≤ to) × (to + width ≤ all_words) }
    ensures { s.new ≡ closing s.old from (to - from) width }
{
    s.copy_within(from + width..to + width, from);
}
